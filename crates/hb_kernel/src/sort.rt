//! The sorts of products.
ghost use Rattle.std.specs.Prelude.{◌≡◌};
ghost use Rattle.hb_calculus.specs.Typing as typing;

use hb_term::Sort;

/// The sort of a product whose domain and codomain have these sorts.
pub(crate) fn product_sort(domain: Sort, codomain: Sort) -> Sort
    ensures { result ≡ typing.product_sort domain codomain }
{
    match (domain, codomain) {
        (_, Sort::Prop) => Sort::Prop,
        (Sort::Prop, Sort::Level(k)) => Sort::Level(k),
        (Sort::Level(j), Sort::Level(k)) => Sort::Level(j.max(k)),
    }
}
