//! Declarations of a library beside those that are generated.
ghost use Rattle.std.specs.Prelude.{◌≡◌, ◌↔◌, ◌<◌, length, slice_index_or, IsNone, IfSome, IsTrue};
ghost use Rattle.hb_env.specs.Plain.{plain, plains, plain_field, plain_fields, trees};
ghost use Rattle.hb_items.specs.Comparing.{bad_at, place_of, IsFirstOther, IsOther};

use hb_base::{NameId, Span};
use hb_env::{Decl, Entry, Places, Refusal, What};
use hb_term::Term;

/// The entry isn't as the library's format says at this byte.
pub fn bad_library(places: &Places, at: u32) -> Refusal
    ensures { result ≡ bad_at places.now at }
{
    let span = Span {
        file: places.span.file,
        from: at,
        to: at,
    };
    Refusal {
        span,
        what: What::BadLibrary,
    }
}

/// Where the entry's declarations aren't those that are made: at the count where their numbers differ, else
/// at the first that differs.
pub fn not_made(entry: &Entry, places: &Places, made: &[Decl]) -> Option<u32>
    ensures same { IsNone result → plains entry.now.decls.items ≡ plains made.now }
    ensures other { IfSome result (IsOther places.now (plains entry.now.decls.items) (plains made.now)) }
{
    match first_other(&entry.decls, made) {
        None => None,
        Some(at) => {
            if entry.decls.len() == made.len() {
                Some(place_at(places, at))
            } else {
                Some(places.count)
            }
        }
    }
}

/// The place of the first declaration that differs, or the length of the shorter list.
fn first_other(decls: &[Decl], made: &[Decl]) -> Option<usize>
    ensures same { IsNone result → plains decls.now ≡ plains made.now }
    ensures other { IfSome result (IsFirstOther (plains decls.now) (plains made.now)) }
{
    if decls.len() != made.len() {
        return Some(decls.len());
    }
    for at in 0..made.len() {
        if !same_decl(&decls[at], &made[at]) {
            return Some(at);
        }
    }
    None
}

/// The first byte of the declaration.
fn place_at(places: &Places, at: usize) -> u32
    ensures { result ≡ place_of places.now at }
{
    match places.decls.get(at) {
        Some(place) => *place,
        None => places.count,
    }
}

/// Whether two declarations are the same.
pub fn same_decl(a: &Decl, b: &Decl) -> bool
    ensures { IsTrue result ↔ (plain a.now ≡ plain b.now) }
{
    match (a, b) {
        (
            Decl::Axiom { name, ty },
            Decl::Axiom {
                name: other,
                ty: with,
            },
        ) => { name.0 == other.0 && ty.same(with) }
        (
            Decl::Def { name, ty, body },
            Decl::Def {
                name: other,
                ty: with,
                body: inner,
            },
        ) => name.0 == other.0 && ty.same(with) && body.same(inner),
        (
            Decl::Record {
                name,
                maker,
                params,
                level,
                fields,
            },
            Decl::Record {
                name: other,
                maker: made_by,
                params: with,
                level: at,
                fields: having,
            },
        ) => {
            name.0 == other.0
                && maker.0 == made_by.0
                && *level == *at
                && same_params(params, with)
                && same_fields(fields, having)
        }
        (Decl::Axiom { .. }, _) | (Decl::Def { .. }, _) | (Decl::Record { .. }, _) => false,
    }
}

/// Whether two lists have the same terms.
pub fn same_params(a: &[Term], b: &[Term]) -> bool
    ensures { IsTrue result ↔ (trees a.now ≡ trees b.now) }
{
    if a.len() != b.len() {
        return false;
    }
    for at in 0..a.len() {
        if !a[at].same(&b[at]) {
            return false;
        }
    }
    true
}

/// Whether two lists have the same fields.
fn same_fields(a: &[(NameId, Term)], b: &[(NameId, Term)]) -> bool
    ensures { IsTrue result ↔ (plain_fields a.now ≡ plain_fields b.now) }
{
    if a.len() != b.len() {
        return false;
    }
    for at in 0..a.len() {
        if !same_field(&a[at], &b[at]) {
            return false;
        }
    }
    true
}

/// Whether two fields have one name and one type.
fn same_field(a: &(NameId, Term), b: &(NameId, Term)) -> bool
    ensures { IsTrue result ↔ (plain_field a.now ≡ plain_field b.now) }
{
    a.0.0 == b.0.0 && a.1.same(&b.1)
}
