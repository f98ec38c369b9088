//! The emitters of a run.
ghost use Rattle.std.specs.Prelude.{◌≡◌, filter, not};

use hb_emit::Emitter;

/// Keeps exactly those that haven't failed, in their order and unchanged, as `hb_emit::drop_failed` does. A
/// call of another crate that is handed boxed emitters to change counts as one that makes them, and the gate
/// refuses it.
pub(crate) fn drop_failed(emitters: &mut Vec<Box<dyn Emitter>>)
    ensures { emitters.new.items ≡ filter (λ e. not (has_failed e)) emitters.old.items }
{
    emitters.retain(
        |emitter: &Box<dyn Emitter>| -> bool
            ensures { result ≡ not (has_failed emitter.now) }
        { !emitter.failed() },
    );
}
