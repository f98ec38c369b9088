//! Places in the files of a run.

/// The bytes of a file from `from` to before `to`. `file` numbers the files of a run from 0.
#[derive(Clone, Copy, Debug, PartialEq, Eq)]
pub struct Span {
    pub file: u16,
    pub from: u32,
    pub to: u32,
}
