//! Refusals at their places.
ghost use Rattle.std.specs.Prelude.{◌≡◌};
ghost use Rattle.hb_step.specs.Kernel.{reported};
ghost use Rattle.hb_step.specs.Elaborating.{IsOfElaboration};

use hb_base::Span;
use hb_elab_terms::{ElabFault, ElabRefused};
use hb_env::{Refusal, What};
use hb_kernel::KernelRefused;

/// A refusal at a place.
pub fn refused(span: Span, what: What) -> Refusal
    ensures { result ≡ record { span = span; what = what } }
{
    Refusal { span, what }
}

/// The refusal of elaboration, at the place of its raw term.
pub fn of_elaboration(refused: ElabRefused) -> Refusal
    ensures place { result.span ≡ refused.span }
    ensures kind { IsOfElaboration result.what }
{
    let ElabRefused { span, what } = refused;
    let what = match what {
        ElabFault::UnknownName(name) => What::UnknownName(name),
        ElabFault::NotFunction(form) => What::NotFunction(form),
        ElabFault::NotType(form) => What::NotType(form),
        ElabFault::NotRecord(form) => What::NotRecord(form),
        ElabFault::NotConvertible(a, b) => What::NotConvertible(a, b),
        ElabFault::Stuck { a, b } => What::Stuck(a, b),
        ElabFault::NoInstance { wanted, carrier } => What::NoInstance(wanted, carrier),
        ElabFault::Unsolved => What::Unsolved,
        ElabFault::LevelTooHigh => What::LevelTooHigh,
        ElabFault::Spent(term) => What::Spent(term),
        ElabFault::Moves => What::Moves,
        ElabFault::NoMemory => What::NoMemory,
    };
    Refusal { span, what }
}

/// The refusal of the kernel. That a term names what isn't declared is out of memory: no command makes such
/// a term.
pub fn of_kernel(refused: KernelRefused) -> What
    ensures { result ≡ reported refused }
{
    match refused {
        KernelRefused::Redeclared(name) => What::Redeclared(name),
        KernelRefused::NotFunction(form) => What::NotFunction(form),
        KernelRefused::NotSort(form) => What::NotType(form),
        KernelRefused::NotRecord(form) => What::NotRecord(form),
        KernelRefused::NotConvertible(a, b) => What::NotConvertible(a, b),
        KernelRefused::Unscoped => What::NoMemory,
        KernelRefused::LevelTooHigh => What::LevelTooHigh,
        KernelRefused::Spent(term) => What::Spent(term),
        KernelRefused::TooMany(count) => What::TooMany(count),
        KernelRefused::NoMemory => What::NoMemory,
    }
}
