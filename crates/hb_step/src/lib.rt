//! What the commands share: names that can't be declared, the state of sections, refusals of elaboration and
//! of the kernel, adding declarations, and the way back from a command that is refused.
#![tactic(auto)]

mod adding;
mod closing;
mod counts;
mod marks;
mod naming;
mod refusals;
mod reserved;
mod section;

pub use adding::{add_all, add_definition};
pub use closing::{closed_body, closed_type, is_closed_over};
pub use counts::passed_count;
pub use marks::Mark;
pub use naming::{first_taken, not_reserved, not_reserved_part, not_taken};
pub use refusals::{of_elaboration, of_kernel, refused};
pub use reserved::{is_reserved, is_reserved_part};
pub use section::{in_section, outside_section};
