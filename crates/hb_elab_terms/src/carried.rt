//! The terms that carriers have for mixins.

use crate::desk::Desk;
use crate::equating::of_cause;
use crate::fault::ElabFault;
use crate::scene::{Scene, reads};
use crate::terms::{apply_terms, scoped};
use hb_base::NameId;
use hb_found::{End, Key, Stop, walk};
use hb_hier::{Hier, Known};
use hb_order::{MixinId, StructId};
use hb_sets::MixSet;
use hb_tables::{Carrier, Tables};
use hb_term::{ConstId, RecId, Term};
use hb_unify::Cause;
use std::alloc::{AllocError, Global};

/// The terms of the carrier for what the mixin or factory requires, in declared order, at its first key that
/// has them all. None are looked for where nothing is required.
pub fn carried_terms(
    alloc: Global,
    scene: Scene<'_>,
    desk: &mut Desk,
    brought: Known,
    carrier: &Term,
) -> Result<Vec<Term>, ElabFault> {
    let Some(name) = scene.hier.name(brought) else {
        return Ok(Vec::new(alloc));
    };
    let set = required(scene.hier, brought);
    if set.same(&MixSet::empty()) {
        return Ok(Vec::new(alloc));
    }
    let carrier = desk.seen(alloc, carrier)?;
    let depth = desk.depth();
    match walk(alloc, reads(scene), depth, &set, desk.moves, &carrier) {
        Ok(End::Found(key, _, moves)) => {
            desk.moves = moves;
            match key_terms(alloc, scene, depth, &key, &set)? {
                Some(terms) => Ok(terms),
                None => Err(without(name, carrier, depth)?),
            }
        }
        Ok(End::Missing(_)) => Err(without(name, carrier, depth)?),
        Err(stop) => Err(of_cause(cause(depth, stop))?),
    }
}

/// What a mixin or factory requires.
fn required(hier: &Hier, known: Known) -> MixSet {
    match known {
        Known::Mixin(m) => {
            if m.0 < hier.mixins() {
                hier.req(known)
            } else {
                MixSet::empty()
            }
        }
        Known::Factory(_) => match hier.name(known) {
            Some(_) => hier.req(known),
            None => MixSet::empty(),
        },
        Known::Structure(_) => MixSet::empty(),
    }
}

/// The carrier has no key with what is required.
fn without(wanted: NameId, carrier: Term, depth: u32) -> Result<ElabFault, AllocError> {
    Ok(ElabFault::NoInstance {
        wanted,
        carrier: scoped(carrier, depth)?,
    })
}

/// Why a walk that is broken off is a fault.
pub(crate) fn cause(depth: u32, stop: Stop) -> Cause {
    match stop {
        Stop::Spent(t) => Cause::Spent(depth, t),
        Stop::Moves => Cause::NoMoves,
        Stop::NoMemory => Cause::NoMemory,
    }
}

/// The terms of a key for each mixin of the set, in a term of depth `depth`; none where one is lacking.
fn key_terms(
    alloc: Global,
    scene: Scene<'_>,
    depth: u32,
    key: &Key,
    set: &MixSet,
) -> Result<Option<Vec<Term>>, AllocError> {
    let mut terms = Vec::new(alloc);
    for m in 0..MOST {
        if set.has(m) {
            match key_term(alloc, scene, depth, key, m)? {
                Some(term) => terms.push(term)?,
                None => return Ok(None),
            }
        }
    }
    Ok(Some(terms))
}

/// No mixin has this number or a greater one.
const MOST: u16 = 1024;

/// The term of a key for the mixin.
fn key_term(
    alloc: Global,
    scene: Scene<'_>,
    depth: u32,
    key: &Key,
    mixin: u16,
) -> Result<Option<Term>, AllocError> {
    match key {
        Key::Constant(constant, needs, Some(values)) => {
            constant_term(alloc, scene, *constant, needs, values, mixin)
        }
        Key::Constant(_, _, None) => Ok(None),
        Key::Local => match scene.local {
            Some(carrier) => local_term(alloc, carrier, depth, mixin),
            None => Ok(None),
        },
        Key::Value(structure, value) => value_term(alloc, scene, *structure, value, mixin),
    }
}

/// The term of a constant at the arguments with these values.
fn constant_term(
    alloc: Global,
    scene: Scene<'_>,
    constant: ConstId,
    needs: &[Option<StructId>],
    values: &[Term],
    mixin: u16,
) -> Result<Option<Term>, AllocError> {
    let Some(term) = scene.tables.mixin(constant, MixinId(mixin)) else {
        return Ok(None);
    };
    let asked = scene.hier.condition(constant, MixinId(mixin));
    let mut arguments = Vec::new(alloc);
    for (need, value) in needs.iter().zip(values) {
        let to = match asked.get(arguments.len()) {
            Some(to) => *to,
            None => None,
        };
        match brought_to(alloc, scene.tables, *need, to, value)? {
            Some(argument) => arguments.push(argument)?,
            None => return Ok(None),
        }
    }
    Ok(Some(apply_terms(alloc, Term::Const(term), &arguments)?))
}

/// A value of the needed structure, or a type where none is needed, brought to what is asked.
fn brought_to(
    alloc: Global,
    tables: &Tables,
    from: Option<StructId>,
    to: Option<StructId>,
    value: &Term,
) -> Result<Option<Term>, AllocError> {
    match (from, to) {
        (None, None) => Ok(Some(value.copy()?)),
        (None, Some(_)) => Ok(None),
        (Some(from), None) => match tables.records(from) {
            Some((_, pack)) => Ok(Some(Term::proj(alloc, pack, 0, value.copy()?)?)),
            None => Ok(None),
        },
        (Some(from), Some(to)) => {
            if from.0 == to.0 {
                return Ok(Some(value.copy()?));
            }
            match tables.coercion(from, to) {
                Some(c) => Ok(Some(Term::app(alloc, Term::Const(c), value.copy()?)?)),
                None => Ok(None),
            }
        }
    }
}

/// The term of a local carrier for the mixin.
fn local_term(
    alloc: Global,
    carrier: &Carrier,
    depth: u32,
    mixin: u16,
) -> Result<Option<Term>, AllocError> {
    for given in &carrier.given {
        if given.0.0 == mixin {
            let by = depth.saturating_sub(carrier.depth);
            return Ok(Some(given.1.try_lift(alloc, by, 0)?));
        }
    }
    Ok(None)
}

/// The term of `u.(U.sort)` for the mixin: the projection of the class of u.
fn value_term(
    alloc: Global,
    scene: Scene<'_>,
    structure: StructId,
    value: &Term,
    mixin: u16,
) -> Result<Option<Term>, AllocError> {
    let Some((class, pack)) = scene.tables.records(structure) else {
        return Ok(None);
    };
    if structure.0 >= scene.hier.structures() {
        return Ok(None);
    }
    let field = rank(scene.hier.mix(structure), mixin);
    let class_of_value = class_term(alloc, pack, value)?;
    Ok(Some(Term::proj(alloc, class, field, class_of_value)?))
}

/// The class of a value of a structure.
fn class_term(alloc: Global, pack: RecId, value: &Term) -> Result<Term, AllocError> {
    Term::proj(alloc, pack, 1, value.copy()?)
}

/// How many members of the set are below the number.
fn rank(set: &MixSet, below: u16) -> u16 {
    let mut count: u16 = 0;
    for m in 0..below {
        if set.has(m) {
            count = count.saturating_add(1);
        }
    }
    count
}
