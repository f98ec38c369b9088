//! Numbers and texts as bytes, the least byte of a number first.
use std::alloc::AllocError;

/// A byte more.
pub fn put_byte(out: &mut Vec<u8>, byte: u8) -> Result<(), AllocError> {
    out.push(byte)?;
    Ok(())
}

/// A number of two bytes.
pub fn put_short(out: &mut Vec<u8>, number: u16) -> Result<(), AllocError> {
    out.extend_from_slice(number.to_le_bytes().as_slice())?;
    Ok(())
}

/// A number of four bytes.
pub fn put_number(out: &mut Vec<u8>, number: u32) -> Result<(), AllocError> {
    out.extend_from_slice(number.to_le_bytes().as_slice())?;
    Ok(())
}

/// A count of four bytes. A greater one has none.
pub fn put_count(out: &mut Vec<u8>, count: usize) -> Result<(), AllocError> {
    match u32::try_from(count) {
        Ok(count) => put_number(out, count),
        Err(_) => Err(AllocError),
    }
}

/// A count of two bytes. A greater one has none.
pub(crate) fn put_short_count(out: &mut Vec<u8>, count: usize) -> Result<(), AllocError> {
    match u16::try_from(count) {
        Ok(count) => put_short(out, count),
        Err(_) => Err(AllocError),
    }
}
