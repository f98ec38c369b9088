//! Names with ample memory.
use super::*;
use std::test::Fail;

#[test]
fn numbers_go_up_and_stay(rt: HostRuntime) -> Result<(), Fail> {
    let mut names = Names::new(rt.alloc())?;
    for (text, number) in [("nat", 0), ("zero", 1), ("nat", 0), ("", 2), ("zero", 1)] {
        assert_eq!(rt; names.number(text)?, NameId(number), "{text}");
    }
    assert_eq!(rt; names.len(), 3);
    assert_eq!(rt; names.text(NameId(1)), "zero");
    assert_eq!(rt; names.find("nat"), Some(NameId(0)));
    assert_eq!(rt; names.find("succ"), None);
    names.clear();
    assert_eq!(rt; names.len(), 0);
    assert_eq!(rt; names.find("nat"), None);
    Ok(())
}
