//! The reader of tokens: one step for each byte.
ghost use Rattle.std.specs.Prelude.{◌≡◌, ℕ, ◌+◌, ◌*◌, ◌^◌, ◌<◌, ◌≤◌, length, slice_index, slice_range, ltb, IfOk, IfSome, IfErr, OnOk, IsUtf8, List, [], ◌∷◌, ◌++◌, ◌-◌, if◌then◌else◌};
ghost use Rattle.hb_lex.specs.Letters.{letter};
ghost use Rattle.hb_lex.specs.Text.{HasTokens, rules, token};
ghost use Rattle.hb_lex.specs.Places.{Refuses};
ghost use Rattle.hb_lex.specs.Machine as spec;
ghost use Rattle.hb_lex.specs.Views.{doing, reading, IsBefore, IsByteOrEnd};

use super::class::Class;
use super::error::LexRefused;
use super::state::State;
use super::token::{Token, TokenKind};
use super::word::word_kind;
use hb_base::Span;
use std::alloc::{AllocError, Global};

/// The tokens of a text, in the order of the text; an identifier has at most `longest` bytes.
/// Comments and blank space are no tokens, and the longest token is taken. `file` is that of the
/// spans. Of the faults Utf8 comes first; Lex stands at the first byte that has no way on.
pub fn tokens(
    alloc: Global,
    bytes: &[u8],
    file: u16,
    longest: u32,
) -> Result<Vec<Token>, LexRefused>
    requires fits { length bytes.now ≤ 2 ^ 26 }
    ensures text { OnOk result (IsUtf8 bytes.now) }
    ensures read { IfOk result (λ ts. HasTokens (rules file longest) bytes.now ts.items) }
    ensures refused { IfErr result (λ e. Refuses (rules file longest) bytes.now e) }
{
    if let Err(fault) = simdutf8::compat::from_utf8(bytes) {
        let at = fault.valid_up_to() as u32;
        return Err(LexRefused::Utf8 { at });
    }
    let source = Source {
        bytes,
        file,
        longest,
    };
    let mut tokens = Vec::new(alloc);
    let mut state = State::Between;
    for (i, byte) in bytes.iter().enumerate() {
        let at = i as u32;
        match source.step(&mut tokens, state, at, Class::of(*byte))? {
            None => return Err(LexRefused::Lex { at }),
            Some(next) => state = next,
        }
    }
    // The end of a file acts as one more blank.
    let end = bytes.len() as u32;
    let Some(last) = source.step(&mut tokens, state, end, Class::Blank)? else {
        return Err(LexRefused::Lex { at: end });
    };
    match last {
        State::Between => Ok(tokens),
        _ => Err(LexRefused::Lex { at: end }),
    }
}

/// A text and the rules of its reading.
#[derive(Clone, Copy)]
struct Source<'a> {
    bytes: &'a [u8],
    file: u16,
    longest: u32,
    ghost fits: { length bytes.now ≤ 2 ^ 26 },
}

impl Source<'_> {
    /// One byte of a class. `None` where there is no way on.
    fn step(
        &self,
        tokens: &mut Vec<Token>,
        state: State,
        at: u32,
        class: Class,
    ) -> Result<Option<State>, AllocError>
        requires within { IsByteOrEnd (length self.now.bytes.now) at class }
        requires before { IsBefore at state }
        ensures step { IfOk result (λ o. reading self.now.bytes.now (at + 1) tokens.new.items o ≡ spec.step (rules self.now.file self.now.longest) tokens.old.items (doing self.now.bytes.now at state) at (letter class (slice_index self.now.bytes.now at))) }
        ensures before { IfOk result (λ o. IfSome o (λ s. IsBefore (at + 1) s)) }
    {
        match state {
            State::Between => self.start(tokens, at, class),
            State::Word { from } => self.after_word(tokens, from, at, class),
            State::WordPoint { from, point } => self.after_word_point(
                tokens, from, point, at, class,
            ),
            State::Second { from, second } => self.after_second(tokens, from, second, at, class),
            State::Number { from } => self.after_number(tokens, from, at, class),
            State::Open { from } => self.after_open(tokens, from, at, class),
            State::Colon { from } => self.after_colon(tokens, from, at, class),
            State::ArrowBegun { from } => self.after_arrow_begun(tokens, from, at, class),
            State::Point { from } => self.after_point(tokens, from, at, class),
            State::PointOpen { from } => self.after_point_open(tokens, from, at, class),
            State::Comment { deeper } => Ok(Some(in_comment(deeper, class))),
            State::CommentStar { deeper } => Ok(Some(after_comment_star(deeper, class))),
            State::CommentOpen { deeper } => Ok(Some(after_comment_open(deeper, at, class))),
        }
    }
}

impl Source<'_> {
    /// A byte where no token is under way.
    fn start(
        &self,
        tokens: &mut Vec<Token>,
        at: u32,
        class: Class,
    ) -> Result<Option<State>, AllocError>
        requires within { IsByteOrEnd (length self.now.bytes.now) at class }
        ensures step { IfOk result (λ o. reading self.now.bytes.now (at + 1) tokens.new.items o ≡ spec.start (rules self.now.file self.now.longest) tokens.old.items at (letter class (slice_index self.now.bytes.now at))) }
        ensures before { IfOk result (λ o. IfSome o (λ s. IsBefore (at + 1) s)) }
    {
        match class {
            Class::Alpha if self.longest > 0 => Ok(Some(State::Word { from: at })),
            Class::Digit => Ok(Some(State::Number { from: at })),
            Class::Blank => Ok(Some(State::Between)),
            Class::Point => Ok(Some(State::Point { from: at })),
            Class::Open => Ok(Some(State::Open { from: at })),
            Class::Colon => Ok(Some(State::Colon { from: at })),
            Class::Equals | Class::Dash => Ok(Some(State::ArrowBegun { from: at })),
            Class::Close | Class::Single => {
                self.push(tokens, TokenKind::Symbol, at, at + 1)?;
                Ok(Some(State::Between))
            }
            _ => Ok(None),
        }
    }

    /// A byte behind a word that began at `from`.
    fn after_word(
        &self,
        tokens: &mut Vec<Token>,
        from: u32,
        at: u32,
        class: Class,
    ) -> Result<Option<State>, AllocError>
        requires within { IsByteOrEnd (length self.now.bytes.now) at class }
        requires before { from < at }
        ensures step { IfOk result (λ o. reading self.now.bytes.now (at + 1) tokens.new.items o ≡ spec.after_word (rules self.now.file self.now.longest) tokens.old.items from (slice_range self.now.bytes.now from at) at (letter class (slice_index self.now.bytes.now at))) }
        ensures before { IfOk result (λ o. IfSome o (λ s. IsBefore (at + 1) s)) }
    {
        match class {
            Class::Alpha | Class::Digit | Class::Prime => Ok(self.fits(
                from,
                at,
                State::Word { from },
            )),
            _ => {
                let kind = word_kind(&self.bytes[from as usize..at as usize]);
                if let Class::Point = class
                    && let TokenKind::Name = kind
                {
                    return Ok(Some(State::WordPoint { from, point: at }));
                }
                self.push(tokens, kind, from, at)?;
                self.start(tokens, at, class)
            }
        }
    }

    /// A byte behind a name of one part and a point.
    fn after_word_point(
        &self,
        tokens: &mut Vec<Token>,
        from: u32,
        point: u32,
        at: u32,
        class: Class,
    ) -> Result<Option<State>, AllocError>
        requires within { IsByteOrEnd (length self.now.bytes.now) at class }
        requires before { from < at }
        requires point { point < at }
        ensures step { IfOk result (λ o. reading self.now.bytes.now (at + 1) tokens.new.items o ≡ spec.after_word_point (rules self.now.file self.now.longest) tokens.old.items from point at (letter class (slice_index self.now.bytes.now at))) }
        ensures before { IfOk result (λ o. IfSome o (λ s. IsBefore (at + 1) s)) }
    {
        match class {
            Class::Alpha => Ok(self.fits(at, at, State::Second { from, second: at })),
            _ => {
                self.push(tokens, TokenKind::Name, from, point)?;
                self.after_point(tokens, point, at, class)
            }
        }
    }

    /// A byte behind a name of two parts.
    fn after_second(
        &self,
        tokens: &mut Vec<Token>,
        from: u32,
        second: u32,
        at: u32,
        class: Class,
    ) -> Result<Option<State>, AllocError>
        requires within { IsByteOrEnd (length self.now.bytes.now) at class }
        requires before { second < at }
        ensures step { IfOk result (λ o. reading self.now.bytes.now (at + 1) tokens.new.items o ≡ spec.after_second (rules self.now.file self.now.longest) tokens.old.items from (slice_range self.now.bytes.now second at) at (letter class (slice_index self.now.bytes.now at))) }
        ensures before { IfOk result (λ o. IfSome o (λ s. IsBefore (at + 1) s)) }
    {
        match class {
            Class::Alpha | Class::Digit | Class::Prime => Ok(self.fits(
                second,
                at,
                State::Second { from, second },
            )),
            _ => {
                self.push(tokens, TokenKind::Name, from, at)?;
                self.start(tokens, at, class)
            }
        }
    }

    /// A byte behind digits.
    fn after_number(
        &self,
        tokens: &mut Vec<Token>,
        from: u32,
        at: u32,
        class: Class,
    ) -> Result<Option<State>, AllocError>
        requires within { IsByteOrEnd (length self.now.bytes.now) at class }
        ensures step { IfOk result (λ o. reading self.now.bytes.now (at + 1) tokens.new.items o ≡ spec.after_number (rules self.now.file self.now.longest) tokens.old.items from at (letter class (slice_index self.now.bytes.now at))) }
        ensures before { IfOk result (λ o. IfSome o (λ s. IsBefore (at + 1) s)) }
    {
        match class {
            Class::Digit => Ok(Some(State::Number { from })),
            _ => {
                self.push(tokens, TokenKind::Number, from, at)?;
                self.start(tokens, at, class)
            }
        }
    }

    /// A byte behind `(`.
    fn after_open(
        &self,
        tokens: &mut Vec<Token>,
        from: u32,
        at: u32,
        class: Class,
    ) -> Result<Option<State>, AllocError>
        requires within { IsByteOrEnd (length self.now.bytes.now) at class }
        ensures step { IfOk result (λ o. reading self.now.bytes.now (at + 1) tokens.new.items o ≡ spec.after_open (rules self.now.file self.now.longest) tokens.old.items from at (letter class (slice_index self.now.bytes.now at))) }
        ensures before { IfOk result (λ o. IfSome o (λ s. IsBefore (at + 1) s)) }
    {
        match class {
            Class::Star => Ok(Some(State::Comment { deeper: 0 })),
            _ => {
                self.push(tokens, TokenKind::Symbol, from, at)?;
                self.start(tokens, at, class)
            }
        }
    }

    /// A byte behind `:`.
    fn after_colon(
        &self,
        tokens: &mut Vec<Token>,
        from: u32,
        at: u32,
        class: Class,
    ) -> Result<Option<State>, AllocError>
        requires within { IsByteOrEnd (length self.now.bytes.now) at class }
        ensures step { IfOk result (λ o. reading self.now.bytes.now (at + 1) tokens.new.items o ≡ spec.after_colon (rules self.now.file self.now.longest) tokens.old.items from at (letter class (slice_index self.now.bytes.now at))) }
        ensures before { IfOk result (λ o. IfSome o (λ s. IsBefore (at + 1) s)) }
    {
        match class {
            Class::Equals => {
                self.push(tokens, TokenKind::Symbol, from, at + 1)?;
                Ok(Some(State::Between))
            }
            _ => {
                self.push(tokens, TokenKind::Symbol, from, at)?;
                self.start(tokens, at, class)
            }
        }
    }

    /// A byte behind `-` or `=`.
    fn after_arrow_begun(
        &self,
        tokens: &mut Vec<Token>,
        from: u32,
        at: u32,
        class: Class,
    ) -> Result<Option<State>, AllocError>
        requires within { IsByteOrEnd (length self.now.bytes.now) at class }
        ensures step { IfOk result (λ o. reading self.now.bytes.now (at + 1) tokens.new.items o ≡ spec.after_arrow_begun (rules self.now.file self.now.longest) tokens.old.items from at (letter class (slice_index self.now.bytes.now at))) }
        ensures before { IfOk result (λ o. IfSome o (λ s. IsBefore (at + 1) s)) }
    {
        match class {
            Class::Greater => {
                self.push(tokens, TokenKind::Symbol, from, at + 1)?;
                Ok(Some(State::Between))
            }
            _ => Ok(None),
        }
    }

    /// A byte behind a point that no name takes.
    fn after_point(
        &self,
        tokens: &mut Vec<Token>,
        from: u32,
        at: u32,
        class: Class,
    ) -> Result<Option<State>, AllocError>
        requires within { IsByteOrEnd (length self.now.bytes.now) at class }
        requires before { from < at }
        ensures step { IfOk result (λ o. reading self.now.bytes.now (at + 1) tokens.new.items o ≡ spec.after_point (rules self.now.file self.now.longest) tokens.old.items from at (letter class (slice_index self.now.bytes.now at))) }
        ensures before { IfOk result (λ o. IfSome o (λ s. IsBefore (at + 1) s)) }
    {
        match class {
            Class::Blank => {
                self.push(tokens, TokenKind::End, from, at)?;
                Ok(Some(State::Between))
            }
            Class::Open => Ok(Some(State::PointOpen { from })),
            _ => Ok(None),
        }
    }

    /// A byte behind `.(`: a point before a comment is an end.
    fn after_point_open(
        &self,
        tokens: &mut Vec<Token>,
        from: u32,
        at: u32,
        class: Class,
    ) -> Result<Option<State>, AllocError>
        requires within { IsByteOrEnd (length self.now.bytes.now) at class }
        requires before { from < at }
        ensures step { IfOk result (λ o. reading self.now.bytes.now (at + 1) tokens.new.items o ≡ spec.after_point_open (rules self.now.file self.now.longest) tokens.old.items from at (letter class (slice_index self.now.bytes.now at))) }
        ensures before { IfOk result (λ o. IfSome o (λ s. IsBefore (at + 1) s)) }
    {
        match class {
            Class::Star => {
                self.push(tokens, TokenKind::End, from, from + 1)?;
                Ok(Some(State::Comment { deeper: 0 }))
            }
            _ => {
                self.push(tokens, TokenKind::Symbol, from, at)?;
                self.start(tokens, at, class)
            }
        }
    }

    /// `grown`, where an identifier that began at `from` has room for one more byte.
    fn fits(&self, from: u32, at: u32, grown: State) -> Option<State>
        requires before { from ≤ at }
        ensures room { result ≡ (if ltb (at - from) self.now.longest then Some grown else None) }
    {
        if at - from < self.longest {
            Some(grown)
        } else {
            None
        }
    }

    /// Adds a token of the bytes from `from` to before `to`.
    fn push(
        &self,
        tokens: &mut Vec<Token>,
        kind: TokenKind,
        from: u32,
        to: u32,
    ) -> Result<(), AllocError>
        ensures added { OnOk result (tokens.new.items ≡ tokens.old.items ++ (token (rules self.now.file self.now.longest) kind from to ∷ [])) }
    {
        tokens.push(Token {
            kind,
            span: Span {
                file: self.file,
                from,
                to,
            },
        })?;
        Ok(())
    }
}

/// A byte in a comment.
fn in_comment(deeper: u32, class: Class) -> State
    ensures is { (bytes : List ℕ) (b n : ℕ) → doing bytes n result ≡ spec.in_comment deeper (letter class b) }
    ensures before { (n : ℕ) → deeper < n → IsBefore n result }
{
    match class {
        Class::Star => State::CommentStar { deeper },
        Class::Open => State::CommentOpen { deeper },
        _ => State::Comment { deeper },
    }
}

/// A byte behind a `*` in a comment.
fn after_comment_star(deeper: u32, class: Class) -> State
    ensures is { (bytes : List ℕ) (b n : ℕ) → doing bytes n result ≡ spec.after_comment_star deeper (letter class b) }
    ensures before { (n : ℕ) → deeper < n → IsBefore n result }
{
    match class {
        Class::Close if deeper == 0 => State::Between,
        Class::Close => State::Comment { deeper: deeper - 1 },
        _ => in_comment(deeper, class),
    }
}

/// A byte behind a `(` in a comment.
fn after_comment_open(deeper: u32, at: u32, class: Class) -> State
    requires room { deeper < at }
    ensures is { (bytes : List ℕ) (b n : ℕ) → doing bytes n result ≡ spec.after_comment_open deeper (letter class b) }
    ensures before { IsBefore (at + 1) result }
{
    match class {
        Class::Star => State::Comment { deeper: deeper + 1 },
        _ => in_comment(deeper, class),
    }
}
