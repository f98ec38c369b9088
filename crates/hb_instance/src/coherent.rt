//! Whether the mixins that a factory builds have the types that the carrier's other mixins want.
ghost use Rattle.std.specs.Prelude.{◌≡◌};
ghost use Rattle.hb_instance.specs.Growing.{IsLonger};

use hb_base::{Limits, NameId, Span};
use hb_convert::{Verdict, convertible};
use hb_env::{Decl, Env, Refusal, What};
use hb_hier::Hier;
use hb_items::mixin_name;
use hb_kernel::Theory;
use hb_pack::Role;
use hb_reduce::{ReduceRefused, nf};
use hb_step::{closed_type, refused};
use hb_term::{ConstId, Part, Scoped, Term, View};
use std::alloc::{AllocError, Global};
use std::vec::Vec;

/// The constants of an instance: the value's, and those of the mixins that are built of it.
#[derive(Clone, Copy)]
pub(crate) struct Constants<'a> {
    pub decls: &'a [Decl],
    pub roles: &'a [Role],
}

/// Each of the mixins that are built has the wanted type. The first that hasn't is refused as
/// `Incoherent`, with the wanted type and the built one. The theory stays.
pub(crate) fn check_coherent(
    alloc: Global,
    theory: &mut Theory,
    hier: &Hier,
    carrier: NameId,
    made: Constants<'_>,
    place: Span,
    limits: &Limits,
) -> Result<(), Refusal>
    ensures { theory.new ≡ theory.old }
{
    let before = theory.env().len();
    let checked = check_each(alloc, theory, hier, carrier, made, place, limits);
    theory.cut(before);
    checked
}

/// The same, but the theory gets the constants up to the last that is compared. Nothing is compared after
/// one that the kernel refuses: it is refused in its turn.
fn check_each(
    alloc: Global,
    theory: &mut Theory,
    hier: &Hier,
    carrier: NameId,
    made: Constants<'_>,
    place: Span,
    limits: &Limits,
) -> Result<(), Refusal>
    ensures { IsLonger theory.old theory.new }
{
    let mut at = 0;
    for decl in made.decls {
        if at > 0 {
            check_one(
                alloc,
                theory.env(),
                hier,
                carrier,
                made.roles,
                decl,
                at,
                place,
                limits,
            )?;
        }
        if !add_one(alloc, theory, decl, limits) {
            return Ok(());
        }
        at = at.saturating_add(1);
    }
    Ok(())
}

/// Adds the constant to the theory. False where it is refused.
fn add_one(alloc: Global, theory: &mut Theory, decl: &Decl, limits: &Limits) -> bool
    ensures { IsLonger theory.old theory.new }
{
    let Ok(copy) = decl.copy(alloc) else {
        return false;
    };
    let Ok(_) = theory.add(copy, limits) else {
        return false;
    };
    true
}

/// The constant at the place has the wanted type.
fn check_one(
    alloc: Global,
    env: &Env,
    hier: &Hier,
    carrier: NameId,
    roles: &[Role],
    decl: &Decl,
    at: usize,
    place: Span,
    limits: &Limits,
) -> Result<(), Refusal> {
    let Decl::Def { ty, body, .. } = decl else {
        return Ok(());
    };
    let built = match built_type(alloc, env, body) {
        Ok(Some(built)) => built,
        Ok(None) => return Ok(()),
        Err(_) => return Err(refused(place, What::NoMemory)),
    };
    if ty.same(&built) {
        return Ok(());
    }
    let m = name_at(hier, roles, at);
    compare(alloc, env, (m, carrier), ty, built, place, limits)
}

/// The name of the mixin whose constant stands at the place.
fn name_at(hier: &Hier, roles: &[Role], at: usize) -> NameId {
    match roles.get(at) {
        Some(Role::Value(_, m)) => mixin_name(hier, *m),
        Some(Role::Builder(_, m)) => mixin_name(hier, *m),
        _ => NameId(0),
    }
}

/// The type of a builder's constant at its arguments, closed over the variables of the body. None where the
/// body isn't of this form.
fn built_type(alloc: Global, env: &Env, body: &Term) -> Result<Option<Term>, AllocError> {
    let mut context = Vec::new(alloc);
    let inner = opened(body, &mut context)?;
    let mut args = Vec::new(alloc);
    let head = spine(inner, &mut args)?;
    let View::Const(builder) = head.view() else {
        return Ok(None);
    };
    match type_at(alloc, env, builder, &args)? {
        Some(ty) => Ok(Some(closed_type(alloc, &context, ty)?)),
        None => Ok(None),
    }
}

/// What stands under the functions, whose types are added to the context.
fn opened<'a>(t: &'a Term, context: &mut Vec<Term>) -> Result<&'a Term, AllocError> {
    match t.view() {
        View::Lam(domain, body) => {
            context.push(domain.copy()?)?;
            opened(body, context)
        }
        _ => Ok(t),
    }
}

/// The head of the application, whose arguments are added, the last one first.
fn spine<'a>(t: &'a Term, args: &mut Vec<Term>) -> Result<&'a Term, AllocError> {
    match t.view() {
        View::App(function, arg) => {
            args.push(arg.copy()?)?;
            spine(function, args)
        }
        _ => Ok(t),
    }
}

/// The type of the constant at the arguments, of which the last one stands first.
fn type_at(
    alloc: Global,
    env: &Env,
    builder: ConstId,
    args: &[Term],
) -> Result<Option<Term>, AllocError> {
    let Some(ty) = env.type_of(builder)? else {
        return Ok(None);
    };
    let mut ty = Part::new(alloc, ty)?;
    for arg in args.iter().rev() {
        let View::Pi(_, codomain) = ty.as_ref().view() else {
            return Ok(None);
        };
        let codomain = Part::new(alloc, codomain.copy()?)?;
        let value = Part::new(alloc, arg.copy()?)?;
        ty = codomain.subst(alloc, &value, 0)?;
    }
    Ok(Some(ty.as_ref().copy()?))
}

/// The two types are convertible; else they are printed in normal form, after the mixin and the carrier.
fn compare(
    alloc: Global,
    env: &Env,
    names: (NameId, NameId),
    wanted: &Term,
    built: Term,
    place: Span,
    limits: &Limits,
) -> Result<(), Refusal> {
    let Ok(wanted) = wanted.copy() else {
        return Err(refused(place, What::NoMemory));
    };
    let (Some(wanted), Some(built)) = (Scoped::new(wanted, 0), Scoped::new(built, 0)) else {
        return Err(refused(place, What::NoMemory));
    };
    match convertible(alloc, env, &wanted, &built, limits) {
        Ok(Verdict::Yes) => Ok(()),
        Ok(Verdict::No) => match (
            nf(alloc, env, &wanted, limits),
            nf(alloc, env, &built, limits),
        ) {
            (Ok(a), Ok(b)) => Err(refused(place, What::Incoherent(names.0, names.1, a, b))),
            (Err(fault), _) => Err(refused(place, of_reduction(fault))),
            (_, Err(fault)) => Err(refused(place, of_reduction(fault))),
        },
        Err(fault) => Err(refused(place, of_reduction(fault))),
    }
}

/// The refusal of a reduction.
fn of_reduction(fault: ReduceRefused) -> What {
    match fault {
        ReduceRefused::Spent(t) => What::Spent(t),
        ReduceRefused::NoMemory => What::NoMemory,
    }
}
