use crate::{certify, verify};
use hb_base::{Limits, Names};
use hb_env::Env;
use std::alloc::{AllocError, Global};
use std::test::*;

/// The bytes of the certificate of nothing.
fn empty(alloc: Global, names: &Names) -> Result<Vec<u8>, AllocError> {
    let env = Env::new(alloc)?;
    match certify(alloc, names, &env, &Limits::DEFAULT) {
        Ok(made) => Ok(made.bytes),
        Err(_) => Err(AllocError),
    }
}

/// The lines of the certificate of nothing, as it is checked.
fn lines(alloc: Global, names: &mut Names) -> Result<u64, AllocError> {
    let bytes = empty(alloc, names)?;
    if bytes.len() > 100 {
        return Err(AllocError);
    }
    match verify(alloc, &bytes, names) {
        Ok(found) => Ok(found.lines),
        Err(_) => Err(AllocError),
    }
}

#[test]
fn a_certificate_of_nothing_is_right(rt: HostRuntime) -> Result<(), AllocError> {
    let alloc = rt.alloc();
    let mut names = Names::new(alloc)?;
    assert_eq!(rt; lines(alloc, &mut names)?, 0);
    Ok(())
}
