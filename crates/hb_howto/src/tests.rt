use crate::howto;
use hb_base::NameId;
use hb_hier::Hier;
use hb_sets::MixSet;
use std::test::*;

#[test]
fn a_mixin_gives_its_structure(rt: HostRuntime) -> Result<(), Fail> {
    let alloc = rt.alloc();
    let mut hier = Hier::new(alloc)?;
    let Ok(_mixin) = hier.add_mixin(NameId(0), &[], &[]) else {
        return Ok(());
    };
    match hier.add_structure(NameId(1), &[NameId(0)]) {
        Ok(s) => match howto(alloc, &hier, s, &MixSet::empty()) {
            Ok(lists) => assert_eq!(rt; lists.len(), 1),
            Err(_) => assert!(rt; false),
        },
        Err(_) => assert!(rt; false),
    }
    Ok(())
}
