//! Places in a file, by line and column.
use hb_base::Span;
use std::alloc::{AllocError, Global};
use std::str;

/// The most characters that are shown of a line.
const WIDTH: usize = 100;

/// How many characters are shown before the place where a line is longer.
const BEFORE: usize = 40;

/// A place with its line.
#[derive(Drop)]
pub(crate) struct Place {
    /// The number of the line, from 1.
    pub(crate) line: u64,
    /// The number of the first character in its line, from 1.
    pub(crate) column: usize,
    /// The characters of the line.
    cells: Vec<char>,
    /// The first character of the place, and the first behind it.
    from: usize,
    to: usize,
}

/// The place of a span. The end of a file that ends in a line break stands before that.
pub(crate) fn place_of(alloc: Global, source: &[u8], span: Span) -> Result<Place, AllocError> {
    let from = before_last_break(source, (span.from as usize).min(source.len()));
    let (line, start) = line_of(source, from);
    let bytes = line_from(source, start);
    let is_text = str::from_utf8(bytes).is_ok();
    let first = cells_before(bytes, from.saturating_sub(start), is_text);
    let behind = cells_before(bytes, (span.to as usize).saturating_sub(start), is_text);
    Ok(Place {
        line,
        column: first.saturating_add(1),
        cells: cells(alloc, bytes)?,
        from: first,
        to: behind,
    })
}

/// The place, or the one before it where it is the end behind a line break.
fn before_last_break(source: &[u8], from: usize) -> usize {
    if from == source.len() && is_break(source, from.saturating_sub(1)) {
        from.saturating_sub(1)
    } else {
        from
    }
}

/// Whether a line ends at the byte.
fn is_break(source: &[u8], at: usize) -> bool {
    match source.get(at) {
        Some(byte) => *byte == b'\n',
        None => false,
    }
}

/// The number of the line that has the byte, and where it begins.
fn line_of(source: &[u8], from: usize) -> (u64, usize) {
    let mut line: u64 = 1;
    let mut start: usize = 0;
    for at in 0..from {
        if is_break(source, at) {
            line = line.saturating_add(1);
            start = at.saturating_add(1);
        }
    }
    (line, start)
}

/// The bytes from one up to the end of its line.
fn line_from(source: &[u8], start: usize) -> &[u8] {
    let rest = source.get(start..).unwrap_or(&[]);
    for end in 0..rest.len() {
        if is_break(rest, end) {
            return rest.get(..end).unwrap_or(rest);
        }
    }
    rest
}

/// How many characters of a line begin before a byte; each byte is one where the line is no text.
fn cells_before(line: &[u8], end: usize, is_text: bool) -> usize {
    let mut count: usize = 0;
    for byte in line.get(..end).unwrap_or(line) {
        if !is_text || !goes_on(*byte) {
            count = count.saturating_add(1);
        }
    }
    count
}

/// Whether a byte of UTF-8 is a further one of its character.
fn goes_on(byte: u8) -> bool {
    0x80 <= byte && byte < 0xc0
}

/// The characters of a line as they are shown: what moves the cursor is a blank, and of a line that is no
/// text each byte beyond ASCII is a question mark.
fn cells(alloc: Global, line: &[u8]) -> Result<Vec<char>, AllocError> {
    let mut cells = Vec::new(alloc);
    match str::from_utf8(line) {
        Ok(text) => {
            for c in text.chars() {
                cells.push(if c.is_control() { ' ' } else { c })?;
            }
        }
        Err(_) => {
            for byte in line {
                cells.push(shown(*byte))?;
            }
        }
    }
    Ok(cells)
}

/// How a byte of what is no text is shown.
fn shown(byte: u8) -> char {
    if byte < 0x20 || byte == 0x7f {
        ' '
    } else if byte < 0x80 {
        char::from(byte)
    } else {
        '?'
    }
}

impl Place {
    /// The first character of the line that is shown.
    fn first(&self) -> usize {
        if self.cells.len() <= WIDTH {
            0
        } else {
            self.from.saturating_sub(BEFORE)
        }
    }

    /// The line, with points where it is cut.
    pub(crate) fn text(&self, alloc: Global) -> Result<String, AllocError> {
        let first = self.first();
        let last = first.saturating_add(WIDTH);
        let mut text = String::new(alloc);
        if 0 < first {
            text.push_str("...")?;
        }
        for at in first..last {
            if let Some(c) = self.cells.as_slice().get(at) {
                text.push(*c)?;
            }
        }
        if last < self.cells.len() {
            text.push_str("...")?;
        }
        Ok(text)
    }

    /// The line that marks the place below the line's text.
    pub(crate) fn mark(&self, alloc: Global) -> Result<String, AllocError> {
        let first = self.first();
        let last = self.to.min(first.saturating_add(WIDTH));
        let mut mark = String::new(alloc);
        if 0 < first {
            mark.push_str("   ")?;
        }
        for _ in first..self.from {
            mark.push(' ')?;
        }
        mark.push('^')?;
        for _ in self.from.saturating_add(1)..last {
            mark.push('^')?;
        }
        Ok(mark)
    }
}
