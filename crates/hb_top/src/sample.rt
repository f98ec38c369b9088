//! Samples: generated commands, and a summary of what they declare.
ghost use Rattle.std.specs.Prelude.{◌≡◌, ◌≤◌, IfErr, Err};
ghost use Rattle.hb_io.specs.Causes.{Rose};
ghost use Rattle.hb_top.specs.Stops.{IsSourceFault, IsTellable};

use crate::settings::Settings;
use crate::stop::{Stop, of_refusal};
use crate::tell::write;
use hb_io::Sink;
use hb_session::Session;

/// Compiles the generated commands, and writes the summary.
pub(crate) fn run_sample<K: Sink>(
    settings: Settings,
    session: &mut Session,
    out: &mut K,
    number: u64,
    size: u16,
) -> Result<(), Stop>
    ensures sink_later { K.faults out.old ≤ K.faults out.new }
    ensures source { IfErr result (λ stop. IsSourceFault stop → ⊥) }
    ensures sink { result ≡ Err Stop.SinkFault → Rose (K.faults out.old) (K.faults out.new) }
    ensures printed { IfErr result IsTellable }
{
    let commands = match session.sample(number, size) {
        Ok(commands) => commands,
        Err(refusal) => return Err(of_refusal(refusal)),
    };
    for command in &commands {
        match session.take(command, &settings.limits) {
            Ok(_event) => {}
            Err(refusal) => return Err(of_refusal(refusal)),
        }
    }
    let decls = session.theory().env().len();
    let structures = session.world().hier.structures();
    let tables = session.world().tables.mark();
    let (coercions, instances) = (tables.coercions, tables.entries);
    let line = format!(in settings.alloc;
        "sample {number} {size}: declarations {decls} structures {structures} coercions {coercions} instances {instances}\n"
    )?;
    write(out, line.as_str())
}
