//! What the reader of tokens is in the middle of.

/// What is under way at a byte. Places are bytes from the beginning of the file.
#[derive(Clone, Copy)]
pub enum State {
    Between,
    /// In a word of identifier bytes that began at `from`.
    Word { from: u32 },
    /// Behind a name of one part that began at `from`, and a point at `point`.
    WordPoint { from: u32, point: u32 },
    /// In the second part of a name, which began at `second`.
    Second { from: u32, second: u32 },
    Number { from: u32 },
    /// Behind a `(`, a `:`, a `-` or `=`, a point, or `.(`, which began at `from`.
    Open { from: u32 },
    Colon { from: u32 },
    ArrowBegun { from: u32 },
    Point { from: u32 },
    PointOpen { from: u32 },
    /// In a comment, with `deeper` further ones open inside it, also behind a `*` or a `(`.
    Comment { deeper: u32 },
    CommentStar { deeper: u32 },
    CommentOpen { deeper: u32 },
}
