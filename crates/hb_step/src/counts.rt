//! Counts that declarations would pass.
ghost use Rattle.std.specs.Prelude.{IfSome};
ghost use Rattle.hb_env.specs.Plain.{plains};
ghost use Rattle.hb_step.specs.Counting.{ComeToPass};

use hb_base::Count;
use hb_env::{Decl, Env, MAX_DECLARATIONS, MAX_FIELDS, MAX_NODES};

/// The first count that the environment would pass with the declarations, taken in order.
pub fn passed_count(env: &Env, decls: &[Decl]) -> Option<Count>
    ensures passed { IfSome result (ComeToPass env.now (plains decls.now)) }
{
    let mut declared = env.len() as usize;
    let mut nodes = env.nodes();
    for decl in decls {
        nodes = nodes.saturating_add(decl.nodes());
        if declared >= MAX_DECLARATIONS {
            return Some(Count::Declarations);
        }
        if decl.field_count() > MAX_FIELDS {
            return Some(Count::Fields);
        }
        if nodes > MAX_NODES {
            return Some(Count::Nodes);
        }
        declared += 1;
    }
    None
}
