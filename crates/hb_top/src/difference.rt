//! What differs between two libraries.
ghost use Rattle.std.specs.Prelude.{◌≡◌, ◌≤◌, IfErr};
ghost use Rattle.hb_io.specs.Causes.{Rose};
ghost use Rattle.hb_top.specs.Difference.{IsDifference};
ghost use Rattle.hb_top.specs.Report.{IsWork};
ghost use Rattle.hb_top.specs.Stops.{IsPrinted};

use crate::last::stopped;
use crate::settings::Settings;
use crate::status::Status;
use crate::stop::refused;
use hb_base::{NameId, Names};
use hb_env::What;
use hb_hier::{Hier, Known};
use hb_io::Sink;
use hb_refactor::{RefactorRefused, compare};
use hb_session::{Session, Stage, at_byte};
use std::alloc::AllocError;

/// What differs, with names of the old or of the new session.
#[derive(Drop)]
pub(crate) enum Difference {
    InOld(What),
    InNew(What),
}

/// The first failing inclusion between the two.
pub(crate) fn compared(before: &Session, session: &Session) -> Result<(), Difference>
    ensures { IfErr result (λ d. IsDifference d) }
{
    let old = before.world();
    let new = session.world();
    match compare(&old.names, &old.hier, &new.names, &new.hier) {
        Ok(()) => Ok(()),
        Err(RefactorRefused::LostName(name)) => Err(Difference::InOld(What::LostName(name))),
        Err(RefactorRefused::StructureLost(s)) => Err(Difference::InOld(What::StructureLost(named(
            &old.hier,
            Known::Structure(s),
        )))),
        Err(RefactorRefused::FieldsChanged(name)) => Err(Difference::InNew(What::FieldsChanged(
            renamed(&old.names, &new.names, name),
        ))),
        Err(RefactorRefused::NeedsMore { name, mixin }) => {
            Err(Difference::InNew(What::NeedsMore(
                renamed(&old.names, &new.names, name),
                named(&new.hier, Known::Mixin(mixin)),
            )))
        }
        Err(RefactorRefused::GivesLess { name, mixin }) => {
            Err(Difference::InNew(What::GivesLess(
                renamed(&old.names, &new.names, name),
                named(&new.hier, Known::Mixin(mixin)),
            )))
        }
        Err(RefactorRefused::StructureChanged { structure, mixin }) => {
            Err(Difference::InNew(What::StructureChanged(
                renamed(
                    &old.names,
                    &new.names,
                    named(&old.hier, Known::Structure(structure)),
                ),
                named(&new.hier, Known::Mixin(mixin)),
            )))
        }
    }
}

/// The name of what is declared; the first name where it isn't.
fn named(hier: &Hier, known: Known) -> NameId {
    match hier.name(known) {
        Some(name) => name,
        None => NameId(0),
    }
}

/// The number among other names of a name's text; the same where it isn't held there.
fn renamed(names: &Names, others: &Names, name: NameId) -> NameId {
    if usize::from(name.0) >= names.len() {
        return name;
    }
    match others.find(names.text(name)) {
        Some(other) => other,
        None => name,
    }
}

/// Writes the line of a difference, at the beginning of the new file.
pub(crate) fn tell_difference<K: Sink>(
    settings: Settings,
    session: &mut Session,
    new: &str,
    what: What,
    out: &mut K,
) -> Status
    requires { IsPrinted what }
    ensures sink_later { K.faults out.old ≤ K.faults out.new }
    ensures source_fault { result ≡ Status.SourceFault → ⊥ }
    ensures sink_fault { result ≡ Status.SinkFault → Rose (K.faults out.old) (K.faults out.new) }
    ensures told { IsWork (K.contents out.new) result }
{
    match session.files.begin(new, Stage::Other) {
        Ok(file) => {
            let stop = refused(at_byte(file, 0), what);
            stopped(settings.alloc, session, stop, out)
        }
        Err(AllocError) => Status::NoMemory,
    }
}
