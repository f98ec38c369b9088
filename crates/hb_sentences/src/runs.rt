//! The operators of a text, found before its tokens.
use std::alloc::{AllocError, Global};

/// The bytes of an operator, from one to before another, with its quotes where it is quoted.
#[derive(Clone, Copy, Debug, PartialEq, Eq)]
pub(crate) struct Run {
    pub from: u32,
    pub to: u32,
    pub quoted: bool,
}

/// A quote that begins no quoted operator, and the byte at which it has no way on.
#[derive(Clone, Copy)]
struct Broken {
    quote: u32,
    at: u32,
}

/// The operators of a text in order, up to the first quote that begins none.
#[derive(Drop)]
pub(crate) struct Runs {
    list: Vec<Run>,
    broken: Option<Broken>,
}

impl Runs {
    /// The runs in order.
    pub fn all(&self) -> &[Run] {
        self.list.as_slice()
    }

    /// The run that has the byte.
    pub fn at(&self, byte: u32) -> Option<Run> {
        let after = self.list.partition_point(|run| run.from <= byte);
        let run = self.list.get(after.checked_sub(1)?)?;
        if byte < run.to { Some(*run) } else { None }
    }

    /// The place of a fault that was found at a byte of the text without operators: a broken quote has its
    /// own.
    pub fn place(&self, at: u32) -> u32 {
        match self.broken {
            Some(broken) if broken.quote == at => broken.at,
            _ => at,
        }
    }
}

/// Where a text is: outside of comments, or inside.
#[derive(Clone, Copy)]
enum Place {
    Between,
    /// After a colon.
    Colon,
    /// After an opening parenthesis.
    Open,
    /// In a run of operator bytes that began at this byte.
    Run(u32),
    /// In quotes that began at this byte.
    Quote(u32),
    /// In so many comments; after a star, or after an opening parenthesis.
    Comment(u32, Inside),
    /// After a quote that begins no quoted operator.
    Over,
}

/// What the byte before was inside a comment.
#[derive(Clone, Copy)]
enum Inside {
    Other,
    Star,
    Open,
}

/// Whether operators have this byte.
fn is_operator_byte(byte: u8) -> bool {
    matches!(
        byte,
        b'+' | b'*' | b'-' | b'/' | b'<' | b'>' | b'=' | b'^' | b'|' | b'~' | b'!' | b'%'
    )
}

/// Whether a run of operator bytes is one of the two arrows, which are symbols.
fn is_arrow(run: &[u8]) -> bool {
    matches!(run, [b'-', b'>'] | [b'=', b'>'])
}

/// A number of bytes or tokens, which are fewer than 2^32 in a source.
pub(crate) fn number_of(count: usize) -> u32 {
    u32::try_from(count).unwrap_or(u32::MAX)
}

/// The bytes from one to before another.
pub(crate) fn piece(bytes: &[u8], from: u32, to: u32) -> &[u8] {
    let from = (from as usize).min(bytes.len());
    let rest = &bytes[from..];
    let count = (to as usize).saturating_sub(from).min(rest.len());
    &rest[..count]
}

/// The operators of a text.
pub(crate) fn find_runs(alloc: Global, bytes: &[u8]) -> Result<Runs, AllocError> {
    let mut found = Runs {
        list: Vec::new(alloc),
        broken: None,
    };
    let mut place = Place::Between;
    for (i, byte) in bytes.iter().enumerate() {
        place = step(bytes, &mut found, place, number_of(i), *byte)?;
    }
    let _end = step(bytes, &mut found, place, number_of(bytes.len()), b' ')?;
    Ok(found)
}

/// The place after one more byte.
fn step(
    bytes: &[u8],
    found: &mut Runs,
    place: Place,
    at: u32,
    byte: u8,
) -> Result<Place, AllocError> {
    match place {
        Place::Between => Ok(outside(at, byte)),
        Place::Colon if byte == b'=' => Ok(Place::Between),
        Place::Colon => Ok(outside(at, byte)),
        Place::Open if byte == b'*' => Ok(Place::Comment(1, Inside::Other)),
        Place::Open => Ok(outside(at, byte)),
        Place::Run(_) if is_operator_byte(byte) => Ok(place),
        Place::Run(from) => {
            if !is_arrow(piece(bytes, from, at)) {
                found.list.push(Run {
                    from,
                    to: at,
                    quoted: false,
                })?;
            }
            Ok(outside(at, byte))
        }
        Place::Quote(from) => quoted(bytes, found, from, at, byte),
        Place::Comment(depth, inside) => Ok(comment(depth, inside, byte)),
        Place::Over => Ok(Place::Over),
    }
}

/// The place after a byte outside of comments, runs and quotes.
fn outside(at: u32, byte: u8) -> Place {
    match byte {
        b':' => Place::Colon,
        b'(' => Place::Open,
        b'"' => Place::Quote(at),
        _ if is_operator_byte(byte) => Place::Run(at),
        _ => Place::Between,
    }
}

/// The place after a byte in quotes: an operator of one to four bytes stands in them.
fn quoted(
    bytes: &[u8],
    found: &mut Runs,
    from: u32,
    at: u32,
    byte: u8,
) -> Result<Place, AllocError> {
    let run = piece(bytes, from.saturating_add(1), at);
    if is_operator_byte(byte) && run.len() < 4 {
        return Ok(Place::Quote(from));
    }
    if byte == b'"' && !run.is_empty() && !is_arrow(run) {
        found.list.push(Run {
            from,
            to: at.saturating_add(1),
            quoted: true,
        })?;
        return Ok(Place::Between);
    }
    found.broken = Some(Broken { quote: from, at });
    Ok(Place::Over)
}

/// The place after a byte in so many comments.
fn comment(depth: u32, inside: Inside, byte: u8) -> Place {
    match (inside, byte) {
        (Inside::Star, b')') if depth <= 1 => Place::Between,
        (Inside::Star, b')') => Place::Comment(depth.saturating_sub(1), Inside::Other),
        (Inside::Open, b'*') => Place::Comment(depth.saturating_add(1), Inside::Other),
        (_, b'*') => Place::Comment(depth, Inside::Star),
        (_, b'(') => Place::Comment(depth, Inside::Open),
        (_, _) => Place::Comment(depth, Inside::Other),
    }
}
