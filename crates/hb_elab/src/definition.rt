//! The terms of commands.
ghost use Rattle.std.specs.Prelude.{IfOk, length};
ghost use Rattle.hb_term.specs.Meaning.{tree};
ghost use Rattle.hb_elab.specs.Closed.{IsClosedTerm, IsClosedTyped};

use crate::cycle::{as_type, cast, elaborate, opened};
use crate::function::{Opened, function_over};
use crate::rules::sized;
use hb_base::Limits;
use hb_elab_terms::{Desk, ElabFault, ElabRefused, Local, Scene, TypeOf, Work, at};
use hb_env::Env;
use hb_raw::{Binder, Raw};
use hb_term::{Scoped, Term};
use hb_world::{Typed, World};
use std::alloc::{AllocError, Global};

/// How deep it goes into raw terms. The nesting of a source is at most 200, and what isn't counted there is
/// gone along without going deeper, or is too large before.
const DEEPEST: u16 = 1_000;

/// What elaboration reads.
fn scene<'a>(env: &'a Env, world: &'a World, local: &Local<'a>, limits: &'a Limits) -> Scene<'a> {
    Scene {
        env,
        hier: &world.hier,
        tables: &world.tables,
        section: world.section.as_ref(),
        local: local.carrier,
        limits,
    }
}

/// The term and the type of a raw term, with a wanted type or without.
pub fn elab(
    alloc: Global,
    env: &Env,
    world: &World,
    local: &Local<'_>,
    raw: &Raw,
    wanted: Option<&Term>,
    work: &mut Work,
    limits: &Limits,
) -> Result<Typed, ElabRefused>
    ensures closed { IfOk result (IsClosedTyped (length local.now.scopes.items)) }
{
    let scene = scene(env, world, local, limits);
    let mut desk = Desk::new(alloc, local, *work)?;
    let made = elaborate(alloc, scene, &mut desk, DEEPEST, raw, wanted, None)?;
    ended(alloc, local, &desk, made, work)
}

/// A raw term as a type, with its sort.
pub fn elab_type(
    alloc: Global,
    env: &Env,
    world: &World,
    local: &Local<'_>,
    raw: &Raw,
    work: &mut Work,
    limits: &Limits,
) -> Result<Typed, ElabRefused>
    ensures closed { IfOk result (IsClosedTyped (length local.now.scopes.items)) }
{
    let scene = scene(env, world, local, limits);
    let mut desk = Desk::new(alloc, local, *work)?;
    let TypeOf { term, sort } = as_type(alloc, scene, &mut desk, DEEPEST, raw)?;
    let ty = Term::Sort(sort);
    ended(alloc, local, &desk, Typed { term, ty }, work)
}

/// The term and the type of a definition: the function over its binders of the body, which is cast to the
/// written type where there is one. Both stand at the body.
pub fn elab_definition(
    alloc: Global,
    env: &Env,
    world: &World,
    local: &Local<'_>,
    binders: &[Binder],
    ty: Option<&Raw>,
    body: &Raw,
    work: &mut Work,
    limits: &Limits,
) -> Result<Typed, ElabRefused>
    ensures closed { IfOk result (IsClosedTyped (length local.now.scopes.items)) }
{
    let scene = scene(env, world, local, limits);
    let mut desk = Desk::new(alloc, local, *work)?;
    let Opened {
        steps,
        wanted: _,
        first: _,
    } = opened(
        alloc, scene, &mut desk, DEEPEST, binders, body.span, None, None,
    )?;
    let made = match ty {
        None => elaborate(alloc, scene, &mut desk, DEEPEST, body, None, None)?,
        Some(ty) => {
            let made = cast(alloc, scene, &mut desk, DEEPEST, body, ty)?;
            sized(alloc, scene, &desk, body.span, made)?
        }
    };
    let made = function_over(alloc, scene, &mut desk, body.span, steps, made)?;
    ended(alloc, local, &desk, made, work)
}

/// The term of a command, in which each hole has a value, with the values put in.
fn ended(
    alloc: Global,
    local: &Local<'_>,
    desk: &Desk,
    made: Typed,
    work: &mut Work,
) -> Result<Typed, ElabRefused>
    ensures { IfOk result (IsClosedTyped (length local.now.scopes.items)) }
{
    if let Some(birth) = desk.any_open() {
        return Err(at(birth, ElabFault::Unsolved));
    }
    let Typed { term, ty } = made;
    let term = solved(alloc, local, desk, &term)?;
    let ty = solved(alloc, local, desk, &ty)?;
    *work = desk.work()?;
    Ok(Typed { term, ty })
}

/// The term with the values put in. A hole or a variable out of scope that is left is out of memory: there
/// is none.
fn solved(alloc: Global, local: &Local<'_>, desk: &Desk, t: &Term) -> Result<Term, AllocError>
    ensures { IfOk result (λ t. IsClosedTerm (length local.now.scopes.items) (tree t)) }
{
    let t = desk.seen(alloc, t)?;
    let depth = u32::try_from(local.scopes.len()).map_err(|_| AllocError)?;
    if t.has_hole() {
        return Err(AllocError);
    }
    match Scoped::new(t, depth) {
        Some(t) => Ok(t.into_term()),
        None => Err(AllocError),
    }
}
