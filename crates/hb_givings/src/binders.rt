//! The binders of an instance.
ghost use Rattle.std.specs.Prelude.{◌≡◌, ◌<◌, length, slice_index_or};
ghost use Rattle.hb_givings.specs.Givings.{ungiven};

use crate::records::Instance;
use hb_order::StructId;

/// The binders of the instance at the place.
pub(crate) fn binders_at(instances: &Vec<Instance>, at: usize) -> &[Option<StructId>]
    requires { at < length instances.now.items }
    ensures { result.now ≡ (slice_index_or instances.now.items at ungiven).giving.binders }
{
    let instance = &instances[at];
    &instance.binders
}
