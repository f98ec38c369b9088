//! Whether a declaration may be added.
ghost use Rattle.std.specs.Prelude.{OnOk, IfErr};
ghost use Rattle.hb_calculus.specs.Budget.{budget};
ghost use Rattle.hb_calculus.specs.Inference.{Accepts};
ghost use Rattle.hb_env.specs.Plain.{plain};
ghost use Rattle.hb_kernel.specs.Answers.{AddRefusal};
ghost use Rattle.hb_kernel.specs.Scoping.{IsReady};

use crate::accept::accept;
use crate::error::KernelRefused;
use crate::known::is_known_decl;
use crate::names::first_repeated;
use crate::size::oversized;
use hb_base::Limits;
use hb_env::{Decl, Env};
use std::alloc::Global;

/// All that is asked of a declaration but for the counts: new names, known terms, their size, and the asks.
pub(crate) fn admit(
    alloc: Global,
    env: &Env,
    limits: &Limits,
    decl: &Decl,
) -> Result<(), KernelRefused>
    ensures ready { OnOk result (IsReady env.now (budget limits.now) (plain decl.now)) }
    ensures accepted { OnOk result (Accepts env.now (budget limits.now) (plain decl.now)) }
    ensures refusal { IfErr result (AddRefusal env.now (budget limits.now) (plain decl.now)) }
{
    match is_ready(env, limits, decl) {
        Ok(()) => {}
        Err(refused) => return Err(refused),
    }
    match accept(alloc, env, limits, decl) {
        Ok(()) => Ok(()),
        Err(fault) => Err(fault.refusal()),
    }
}

/// What goes before the asks.
fn is_ready(env: &Env, limits: &Limits, decl: &Decl) -> Result<(), KernelRefused>
    ensures ready { OnOk result (IsReady env.now (budget limits.now) (plain decl.now)) }
    ensures refusal { IfErr result (AddRefusal env.now (budget limits.now) (plain decl.now)) }
{
    if let Some(name) = first_repeated(env, decl) {
        return Err(KernelRefused::Redeclared(name));
    }
    if !is_known_decl(env, decl) {
        return Err(KernelRefused::Unscoped);
    }
    match oversized(limits, decl)? {
        None => Ok(()),
        Some(kept) => Err(KernelRefused::Spent(kept)),
    }
}
