//! A file read to its end.
ghost use Rattle.std.specs.Prelude.{◌≡◌, ◌<◌, List, ℕ, IfOk, length, vec_len};
ghost use Rattle.hb_io.specs.Causes.{DepotCause};
ghost use Rattle.hb_io.specs.Whole.{WholeGives, ReadsOn};

use crate::{Depot, DepotFault};
use std::alloc::{AllocError, Global};

/// What a file read to its end came to.
#[derive(Drop)]
pub enum Whole {
    Bytes(Vec<u8>),
    /// The file has more bytes than were asked for.
    TooLong,
}

/// How many bytes one read asks for.
const PIECE: usize = 65_536;

/// The bytes of a file, read in pieces to its end, where there are at most `most`. How long the file
/// is said to be is never asked. `Absent` and `Failed` as of the depot's `read`.
pub fn read_whole<D: Depot>(
    alloc: Global,
    depot: &mut D,
    name: &str,
    most: usize,
) -> Result<Whole, DepotFault>
    ensures bytes { WholeGives (D.file depot.old name.now) most result }
    ensures same { (n : List ℕ) → D.file depot.new n ≡ D.file depot.old n }
    ensures cause { DepotCause (D.faults depot.old) (D.faults depot.new) (D.absents depot.old) (D.absents depot.new) result }
{
    let mut bytes = Vec::new(alloc);
    let mut piece = buffer(alloc)?;
    'pieces: while bytes.len() <= most {
        if !read_on(depot, name, &mut bytes, piece.as_mut_slice())? {
            return Ok(Whole::Bytes(bytes));
        }
    }
    Ok(Whole::TooLong)
}

/// Room for one read.
fn buffer(alloc: Global) -> Result<Vec<u8>, AllocError>
    ensures { IfOk result (λ piece. 0 < vec_len piece) }
{
    vec![in alloc; 0u8; PIECE]
}

/// Reads a piece more behind the bytes read so far. `false` where the file ends there.
fn read_on<D: Depot>(
    depot: &mut D,
    name: &str,
    bytes: &mut Vec<u8>,
    piece: &mut [u8],
) -> Result<bool, DepotFault>
    requires { 0 < length piece.old }
    ensures read { ReadsOn (D.file depot.old name.now) bytes.old.items bytes.new.items result }
    ensures same { (n : List ℕ) → D.file depot.new n ≡ D.file depot.old n }
    ensures cause { DepotCause (D.faults depot.old) (D.faults depot.new) (D.absents depot.old) (D.absents depot.new) result }
{
    let count = depot.read(name, bytes.len() as u64, piece)?;
    if count == 0 {
        return Ok(false);
    }
    bytes.extend_from_slice(&piece[..count])?;
    Ok(true)
}
