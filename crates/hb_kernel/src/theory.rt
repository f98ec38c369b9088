//! Theories.
ghost use Rattle.std.specs.Prelude.{◌≡◌, ◌≤◌, false, [], ◌∷◌, ◌++◌, length, take, IfOk, IfErr, OnOk, OnErr};
ghost use Rattle.hb_term.specs.Meaning.{tree};
ghost use Rattle.hb_calculus.specs.Typing.{HasType, AreTypes, IsTyped, WellFormed, extended};
ghost use Rattle.hb_calculus.specs.Budget.{budget};
ghost use Rattle.hb_calculus.specs.Inference.{Infers, Checks, Accepts};
ghost use Rattle.hb_env.specs.Plain.{plain, trees};
ghost use Rattle.hb_env.specs.Environment.{IsEnvironment};
ghost use Rattle.hb_kernel.specs.Scoping.{IsReady};
ghost use Rattle.hb_kernel.specs.Answers.{InferRefusal, CheckRefusal, AddRefusal};

use crate::admit::admit;
use crate::error::KernelRefused;
use crate::judge::{check_under, infer_under};
use crate::known::is_known;
use crate::scope::Context;
use hb_base::Limits;
use hb_env::{Decl, Env, EnvRefused};
use hb_term::{ConstId, Scoped, Term};
use std::alloc::{AllocError, Global};
use std::marker::Model;

/// An environment that is well formed: all names differ, and each declaration is typed in those before
/// it (Rocq manual, "Typing rules").
#[derive(Drop)]
pub struct Theory {
    alloc: Global,
    env: Env,
}

impl Model for Theory {
    ghost use Rattle.std.specs.Prelude.{List};
    ghost use Rattle.hb_calculus.specs.Declarations.{Decl};
    ghost use Rattle.hb_env.specs.Coded.{coded_decls};

    ghost Value = { List Decl };

    ghost coded = { coded_decls };

    ghost view = { λ t. t.env };

    ghost use Rattle.hb_calculus.specs.Typing.{WellFormed};

    ghost invariant = { λ t. WellFormed t.env };
}

impl Theory {
    /// The theory in which nothing is declared.
    pub fn new(alloc: Global) -> Result<Theory, AllocError>
        ensures { IfOk result (λ t. t ≡ []) }
    {
        Ok(Theory {
            alloc,
            env: Env::new(alloc)?,
        })
    }

    /// What is declared.
    pub fn env(&self) -> &Env
        ensures same { result.now ≡ self.now }
        ensures well_formed { WellFormed self.now }
        ensures valid { IsEnvironment self.now }
    {
        let _count = self.env.len();
        &self.env
    }

    /// Keeps the first `len` declarations.
    pub fn cut(&mut self, len: u32)
        requires { len ≤ length self.old }
        ensures { self.new ≡ take len self.old }
    {
        self.env.cut(len);
    }

    /// The type of a term under a context: types, each under those before it, of which the last is that
    /// of variable 0. `Unscoped` before every other refusal; then the asks of the typing rules, read from
    /// left to right (Rocq manual, "Typing rules"): `NotSort`, `NotFunction` and `NotRecord` keep the
    /// weak head form of the type that was asked, `NotConvertible` both normal forms, `Spent` the type
    /// that passes the limits.
    pub fn infer(
        &self,
        context: &[Term],
        t: &Scoped,
        limits: &Limits,
    ) -> Result<Scoped, KernelRefused>
        requires context { AreTypes self.now [] (trees context.now) }
        requires depth { t.now.depth ≡ length context.now }
        ensures inferred { IfOk result (λ ty. Infers self.now (budget limits.now) (extended [] (trees context.now)) (tree t.now.term) (tree ty.term)) }
        ensures typed { IfOk result (λ ty. HasType self.now (extended [] (trees context.now)) (tree t.now.term) (tree ty.term)) }
        ensures depth { IfOk result (λ ty. ty.depth ≡ t.now.depth) }
        ensures refusal { IfErr result (InferRefusal self.now (budget limits.now) (extended [] (trees context.now)) (tree t.now.term)) }
    {
        if !is_known(&self.env, t.term(), u64::from(t.depth())) {
            return Err(KernelRefused::Unscoped);
        }
        let empty = Context::Empty;
        match infer_under(self.alloc, &self.env, limits, &empty, 0, context, t.term()) {
            Ok(ty) => Ok(ty),
            Err(fault) => Err(fault.refusal()),
        }
    }

    /// Whether a term has the type `ty` under a context, as for `infer`. `Unscoped`, of either, before
    /// every other refusal; then the asks of `ty`, which has to be a type, then those of the term, then
    /// the comparison of its inferred type with `ty`.
    pub fn check(
        &self,
        context: &[Term],
        t: &Scoped,
        ty: &Scoped,
        limits: &Limits,
    ) -> Result<(), KernelRefused>
        requires context { AreTypes self.now [] (trees context.now) }
        requires depth { t.now.depth ≡ length context.now }
        requires type_depth { ty.now.depth ≡ length context.now }
        ensures checked { OnOk result (Checks self.now (budget limits.now) (extended [] (trees context.now)) (tree t.now.term) (tree ty.now.term)) }
        ensures typed { OnOk result (HasType self.now (extended [] (trees context.now)) (tree t.now.term) (tree ty.now.term)) }
        ensures refusal { IfErr result (CheckRefusal self.now (budget limits.now) (extended [] (trees context.now)) (tree t.now.term) (tree ty.now.term)) }
    {
        let depth = u64::from(t.depth());
        if !is_known(&self.env, t.term(), depth) || !is_known(&self.env, ty.term(), depth) {
            return Err(KernelRefused::Unscoped);
        }
        let empty = Context::Empty;
        match check_under(
            self.alloc,
            &self.env,
            limits,
            &empty,
            0,
            context,
            t.term(),
            ty.term(),
        ) {
            Ok(()) => Ok(()),
            Err(fault) => Err(fault.refusal()),
        }
    }

    /// Adds a declaration at the end, and answers its constant. Refused in this order: `Redeclared` with
    /// the first of its names that is declared or stands earlier in it, `Unscoped`, `Spent` with its first
    /// term that is itself too large for the limits, the asks of its types and body, of a record last that
    /// of its level, and `TooMany`. A level that isn't the least is `NotConvertible`, with the sort of the
    /// least level first. Where it is refused, nothing changes.
    pub fn add(&mut self, decl: Decl, limits: &Limits) -> Result<ConstId, KernelRefused>
        ensures added { OnOk result (self.new ≡ self.old ++ plain decl ∷ []) }
        ensures place { IfOk result (λ c. c ≡ record { decl = length self.old; maker = false }) }
        ensures ready { OnOk result (IsReady self.old (budget limits.now) (plain decl)) }
        ensures accepted { OnOk result (Accepts self.old (budget limits.now) (plain decl)) }
        ensures typed { OnOk result (IsTyped self.old (plain decl)) }
        ensures refusal { IfErr result (AddRefusal self.old (budget limits.now) (plain decl)) }
        ensures unchanged { OnErr result (self.new ≡ self.old) }
    {
        match admit(self.alloc, &self.env, limits, &decl) {
            Ok(()) => {}
            Err(refused) => return Err(refused),
        }
        match self.env.push(decl) {
            Ok(c) => Ok(c),
            Err(EnvRefused::TooMany(count)) => Err(KernelRefused::TooMany(count)),
            Err(EnvRefused::NoMemory) => Err(KernelRefused::NoMemory),
            Err(EnvRefused::Redeclared(_)) => unreachable!(),
        }
    }
}
