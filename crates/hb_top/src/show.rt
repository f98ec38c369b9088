//! Showing sources.
ghost use Rattle.std.specs.Prelude.{◌≡◌, ◌≤◌, IfErr, Err};
ghost use Rattle.hb_io.specs.Causes.{Rose};
ghost use Rattle.hb_top.specs.Stops.{FilesStay, IsSourceFault, IsTellable};

use crate::settings::Settings;
use crate::source::{MOST_SOURCE, read};
use crate::stop::{Stop, of_refusal};
use crate::tell::write;
use hb_io::{Depot, Sink};
use hb_session::{Session, Stage};
use hb_show::show;

/// Writes the sentences of a source, and leaves the session empty.
pub(crate) fn show_file<D: Depot, K: Sink>(
    settings: Settings,
    session: &mut Session,
    depot: &mut D,
    out: &mut K,
    name: &str,
) -> Result<(), Stop>
    ensures depot_later { D.faults depot.old ≤ D.faults depot.new }
    ensures sink_later { K.faults out.old ≤ K.faults out.new }
    ensures source { IfErr result
        (λ stop. IsSourceFault stop → Rose (D.faults depot.old) (D.faults depot.new)) }
    ensures sink { result ≡ Err Stop.SinkFault → Rose (K.faults out.old) (K.faults out.new) }
    ensures printed { IfErr result IsTellable }
    ensures files { FilesStay (D.file depot.old) (D.file depot.new) }
{
    let file = session.files.begin(name, Stage::Other)?;
    let bytes = match read(settings.alloc, depot, file, name, MOST_SOURCE) {
        Ok(bytes) => bytes,
        Err(stop) => return Err(stop),
    };
    let sentences = match session.sentences(file, bytes.as_slice()) {
        Ok(sentences) => sentences,
        Err(refusal) => return Err(of_refusal(refusal)),
    };
    let text = show(settings.alloc, &session.world().names, sentences.as_slice())?;
    session.clear();
    write(out, text.as_str())
}
