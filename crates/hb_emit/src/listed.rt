//! Lists of emitters.
ghost use Rattle.std.specs.Prelude.{◌≡◌, filter, not};

use crate::Emitter;

/// Keeps exactly those that haven't failed, in their order and unchanged, and drops the others.
pub fn drop_failed(emitters: &mut Vec<Box<dyn Emitter>>)
    ensures { emitters.new.items ≡ filter (λ e. not (has_failed e)) emitters.old.items }
{
    emitters.retain(
        |emitter: &Box<dyn Emitter>| -> bool
            ensures { result ≡ not (has_failed emitter.now) }
        { !emitter.failed() },
    );
}
