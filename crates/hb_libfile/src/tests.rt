ghost use Rattle.std.specs.Prelude.{◌≤◌, ◌^◌, length};

use crate::{LibRefused, decode, encode};
use hb_base::Names;
use std::alloc::Global;
use std::test::*;

/// The library of an axiom of a type.
const AXIOM: [u8; 31] = [
    0x48, 0x42, 0x4c, 0x49, 0x42, 0x30, 0x30, 0x31, 1, 0, 0, 0, 3, 0, 0x6e, 0x61, 0x74, 1, 0, 0, 0,
    1, 1, 0, 0, 0, 0, 0, 0, 1, 0,
];

/// The place at which a library of these bytes is refused; 99 where it isn't.
fn refused_at(alloc: Global, bytes: &[u8]) -> Result<u32, Fail>
    requires { length bytes.now ≤ 2 ^ 29 }
{
    let mut names = Names::new(alloc)?;
    match decode(alloc, bytes, 0, &mut names) {
        Err(LibRefused::BadLibrary { at }) => Ok(at),
        _ => Ok(99),
    }
}

#[test]
fn a_cut_library_is_refused_at_the_item_that_is_cut(rt: HostRuntime) -> Result<(), Fail> {
    let places = [0, 8, 12, 14, 17, 21, 22, 26, 27, 29, 30];
    for cut in 0..31usize {
        let at = refused_at(rt.alloc(), &AXIOM[..cut])?;
        let mut wanted = 0;
        for place in places {
            if place as usize <= cut {
                wanted = place;
            }
        }
        assert_eq!(rt; at, wanted);
    }
    Ok(())
}

#[test]
fn a_library_is_read_and_written_again(rt: HostRuntime) -> Result<(), Fail> {
    let alloc = rt.alloc();
    let mut names = Names::new(alloc)?;
    let decoded = decode(alloc, AXIOM.as_slice(), 0, &mut names);
    let mut entries = Vec::new(alloc);
    if let Ok(decoded) = decoded {
        for (entry, _places) in decoded {
            entries.push(entry)?;
        }
    }
    let bytes = encode(alloc, &names, entries.as_slice())?;
    let mut wanted = AXIOM;
    wanted[7] = 0x32;
    assert!(rt; bytes.as_slice() == wanted.as_slice());
    Ok(())
}
