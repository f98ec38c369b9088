use crate::sample;
use hb_base::Names;
use std::test::*;

#[test]
fn a_sample_has_its_commands(rt: HostRuntime) -> Result<(), Fail> {
    let alloc = rt.alloc();
    let mut names = Names::new(alloc)?;
    match sample(alloc, &mut names, 1, 2) {
        Ok(commands) => assert_eq!(rt; commands.len(), 11),
        Err(_) => assert!(rt; false),
    }
    Ok(())
}
