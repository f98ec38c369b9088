ghost use Rattle.std.specs.Prelude.{◌≤◌, ◌^◌, length};

use crate::read_core;
use hb_base::Names;
use std::alloc::Global;
use std::test::*;

/// How many declarations a core text has.
fn count(alloc: Global, text: &[u8]) -> Result<Option<usize>, Fail>
    requires { length text.now ≤ 2 ^ 26 }
{
    let mut names = Names::new(alloc)?;
    match read_core(alloc, text, 0, &mut names) {
        Ok(decls) => Ok(Some(decls.len())),
        Err(_) => Ok(None),
    }
}

#[test]
fn declarations_are_read(rt: HostRuntime) -> Result<(), Fail> {
    let text = b"Axiom nat : Type@{0}.\nAxiom zero : nat.\nAxiom succ : nat -> nat.\n(* end *)\n";
    assert_eq!(rt; count(rt.alloc(), text.as_slice())?, Some(3));
    Ok(())
}
