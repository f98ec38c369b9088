use crate::compare;
use hb_base::Names;
use hb_hier::Hier;
use std::test::*;

#[test]
fn a_library_keeps_what_it_has(rt: HostRuntime) -> Result<(), Fail> {
    let alloc = rt.alloc();
    let (names, hier) = (Names::new(alloc)?, Hier::new(alloc)?);
    assert_eq!(rt; compare(&names, &hier, &names, &hier), Ok(()));
    Ok(())
}
