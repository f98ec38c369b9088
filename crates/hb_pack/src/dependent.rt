//! Mixins in the context of a carrier and of the mixins that they require.
ghost use Rattle.std.specs.Prelude.{◌≡◌, ℕ, ◌-◌, ◌<◌, ◌≤◌, ◌∷◌, length, map, IfOk};
ghost use Rattle.hb_tree.specs.Tree.{Tree, sort, rel};
ghost use Rattle.hb_tree.specs.declared.leaves.Sort.TheVariants.{Level};
ghost use Rattle.hb_term.specs.Meaning.{tree};
ghost use Rattle.hb_env.specs.Plain.{trees, plain_fields};
ghost use Rattle.hb_calculus.specs.Declarations.{field_types};
ghost use Rattle.hb_hier.specs.Hierarchy.{required};
ghost use Rattle.hb_paths.specs.Packs as packs;
ghost use Rattle.hb_generated.specs.Reading.{a_mixin};
ghost use Rattle.hb_generated.specs.Reading as reading;
ghost use Rattle.hb_generated.specs.Generating as generating;

use crate::lists::{index_in, listed};
use crate::look::{record_of, required_by};
use crate::terms::{apply_to, former};
use hb_base::NameId;
use hb_env::Env;
use hb_hier::{Hier, Known, MixinId};
use hb_sets::MixSet;
use hb_term::{Sort, Term};
use std::alloc::{AllocError, Global};
use std::vec::Vec;

/// The mixin or factory at a carrier that has these terms for what it requires.
pub(crate) fn applied_at(
    alloc: Global,
    env: &Env,
    hier: &Hier,
    known: Known,
    carrier: Term,
    terms: &[Term],
) -> Result<Term, AllocError>
    ensures { IfOk result
        (λ t. (term : ℕ → Tree) → trees terms.now ≡ map term (reading.listed (required hier.now known))
        → tree t ≡ reading.applied_at env.now hier.now known (tree carrier) term) }
{
    let record = former(record_of(env, hier, known));
    let applied = Term::app(alloc, record, carrier)?;
    apply_to(alloc, applied, terms)
}

/// The variables for the mixins, where `at` mixins of the list stand in the context.
fn variables_for(
    alloc: Global,
    mixins: &[u16],
    all: &[u16],
    at: u16,
) -> Result<Vec<Term>, AllocError>
    requires { length all.now ≤ 1024 }
    ensures { IfOk result (λ ts. trees ts.items ≡ map (λ d. rel (at - 1 - packs.index_in all.now d)) mixins.now) }
{
    let mut terms = Vec::new(alloc);
    for d in mixins {
        let between = at.saturating_sub(1).saturating_sub(index_in(all, *d));
        terms.push(Term::Rel(u32::from(between)))?;
    }
    Ok(terms)
}

/// The mixin `m` in the context of the carrier and of the first `at` mixins of the list.
fn dependent_type(
    alloc: Global,
    env: &Env,
    hier: &Hier,
    all: &[u16],
    m: u16,
    at: u16,
) -> Result<Term, AllocError>
    requires { length all.now ≤ 1024 }
    ensures { IfOk result
        (λ t. tree t
        ≡ reading.applied_at env.now hier.now (a_mixin m) (rel at) (λ d. rel (at - 1 - packs.index_in all.now d))) }
{
    let known = Known::Mixin(MixinId(m));
    let required = listed(alloc, &required_by(hier, known))?;
    let terms = variables_for(alloc, &required, all, at)?;
    applied_at(alloc, env, hier, known, Term::Rel(u32::from(at)), &terms)
}

/// The mixins of the list in order, each in the context of the carrier and of those before it, under
/// these names.
pub(crate) fn dependent(
    alloc: Global,
    env: &Env,
    hier: &Hier,
    names: &[NameId],
    all: &[u16],
) -> Result<Vec<(NameId, Term)>, AllocError>
    requires few { length all.now ≤ 1024 }
    requires named { length names.now ≡ length all.now }
    ensures { IfOk result
        (λ fs. (name : ℕ → ℕ) → map (λ n. n.0) names.now ≡ map name all.now
        → plain_fields fs.items ≡ reading.dependent env.now hier.now name all.now) }
{
    let mut fields = Vec::new(alloc);
    for at in 0..all.len() {
        let ty = dependent_type(alloc, env, hier, all, all[at], at as u16)?;
        fields.push((names[at], ty))?;
    }
    Ok(fields)
}

/// The types of the parameters of a record that requires the mixins: the carrier, and each of them.
pub fn parameters(
    alloc: Global,
    env: &Env,
    hier: &Hier,
    required: &MixSet,
) -> Result<Vec<Term>, AllocError>
    ensures { IfOk result
        (λ ts. trees ts.items ≡ generating.parameters env.now hier.now required.now) }
{
    let all = listed(alloc, required)?;
    parameters_over(alloc, env, hier, &all)
}

/// The types of the carrier and of each of the mixins.
fn parameters_over(
    alloc: Global,
    env: &Env,
    hier: &Hier,
    all: &[u16],
) -> Result<Vec<Term>, AllocError>
    requires { length all.now ≤ 1024 }
    ensures { IfOk result
        (λ ts. trees ts.items
        ≡ sort (Level 0) ∷ field_types (reading.dependent env.now hier.now (λ m. 0) all.now)) }
{
    let mut types = Vec::new(alloc);
    types.push(Term::Sort(Sort::Level(0)))?;
    for at in 0..all.len() {
        let ty = dependent_type(alloc, env, hier, all, all[at], at as u16)?;
        types.push(ty)?;
    }
    Ok(types)
}
