//! The asks of a record.
ghost use Rattle.std.specs.Prelude.{◌≡◌, ◌∷◌, ◌++◌, List, IfOk, IfErr};
ghost use Rattle.hb_tree.specs.declared.leaves.Sort as leaf;
ghost use Rattle.hb_calculus.specs.Declarations.{field_types};
ghost use Rattle.hb_calculus.specs.Budget.{budget};
ghost use Rattle.hb_calculus.specs.Inference.{least_level};
ghost use Rattle.hb_calculus.specs.Typing.{extended};
ghost use Rattle.hb_env.specs.Plain.{trees, plain_fields};
ghost use Rattle.hb_kernel.specs.Contexts.{types, IsContext};
ghost use Rattle.hb_kernel.specs.Faults.{FaultOf};
ghost use Rattle.hb_kernel.specs.Known.{AreKnownTypes};
ghost use Rattle.hb_kernel.specs.Levels.{LevelIs, TelescopeLevelIs, NotTypesAt, NotTelescopeAt};

use crate::fault::Fault;
use crate::infer::type_sort;
use crate::scope::{Context, deeper};
use hb_base::{Limits, NameId};
use hb_env::Env;
use hb_term::{Sort, Term};
use std::alloc::Global;

/// The least level of a record with these parameters and fields, whose types are asked from left to right.
pub(crate) fn telescope_level<'t, 'c>(
    alloc: Global,
    env: &Env,
    limits: &Limits,
    context: &'c Context<'t, 'c>,
    depth: u32,
    params: &'t [Term],
    fields: &'t [(NameId, Term)],
) -> Result<u8, Fault>
    requires context { IsContext (types context.now) depth }
    requires known { AreKnownTypes env.now depth (trees params.now ++ field_types (plain_fields fields.now)) }
    ensures level { IfOk result (TelescopeLevelIs env.now (budget limits.now) (types context.now) (trees params.now) (field_types (plain_fields fields.now))) }
    ensures fault { IfErr result (FaultOf (NotTelescopeAt env.now (budget limits.now) (types context.now) (trees params.now) (field_types (plain_fields fields.now)))) }
{
    match params {
        [] => match fields_level(alloc, env, limits, context, depth, fields) {
            Ok(level) => Ok(level),
            Err(fault) => Err(fault),
        },
        [first, rest @ ..] => {
            match type_sort(alloc, env, limits, context, depth, first) {
                Ok(_) => {}
                Err(fault) => return Err(fault),
            }
            let inner = Context::Under(first, context);
            let under = deeper(depth)?;
            match telescope_level(alloc, env, limits, &inner, under, rest, fields) {
                Ok(level) => Ok(level),
                Err(fault) => Err(fault),
            }
        }
    }
}

/// The least level of a record with these fields.
fn fields_level<'t, 'c>(
    alloc: Global,
    env: &Env,
    limits: &Limits,
    context: &'c Context<'t, 'c>,
    depth: u32,
    fields: &'t [(NameId, Term)],
) -> Result<u8, Fault>
    requires context { IsContext (types context.now) depth }
    requires known { AreKnownTypes env.now depth (field_types (plain_fields fields.now)) }
    ensures level { IfOk result (LevelIs env.now (budget limits.now) (types context.now) (field_types (plain_fields fields.now))) }
    ensures fault { IfErr result (FaultOf (NotTypesAt env.now (budget limits.now) (types context.now) (field_types (plain_fields fields.now)))) }
{
    match fields {
        [] => Ok(0),
        [first, rest @ ..] => {
            let s = match type_sort(alloc, env, limits, context, depth, &first.1) {
                Ok(s) => s,
                Err(fault) => return Err(fault),
            };
            let inner = Context::Under(&first.1, context);
            let under = deeper(depth)?;
            match fields_level(alloc, env, limits, &inner, under, rest) {
                Ok(level) => Ok(raised(level, s)),
                Err(fault) => Err(fault),
            }
        }
    }
}

/// The level with one more sort in front.
fn raised(level: u8, s: Sort) -> u8
    ensures { (ss : List leaf.Sort) → level ≡ least_level ss → result ≡ least_level (s ∷ ss) }
{
    match s {
        Sort::Prop => level,
        Sort::Level(k) => k.max(level),
    }
}
