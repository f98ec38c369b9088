use crate::apply;
use hb_base::{Limits, Span};
use hb_kernel::Theory;
use hb_raw::{Command, CommandKind, Raw, RawKind, Word};
use hb_world::World;
use std::test::*;

const SPAN: Span = Span {
    file: 0,
    from: 0,
    to: 1,
};

#[test]
fn an_axiom_is_declared(rt: HostRuntime) -> Result<(), Fail> {
    let alloc = rt.alloc();
    let mut theory = Theory::new(alloc)?;
    let mut world = World::new(alloc)?;
    let name = world.names.number("nat").map_err(|_| "numbered")?;
    let kind = CommandKind::Axiom {
        name: Word { name, span: SPAN },
        ty: Raw {
            span: SPAN,
            kind: RawKind::Level(0),
        },
    };
    let taken = Command { span: SPAN, kind };
    let done = apply(alloc, &mut theory, &mut world, &taken, &Limits::DEFAULT);
    assert!(rt; done.is_ok());
    assert_eq!(rt; theory.env().len(), 1);
    Ok(())
}
