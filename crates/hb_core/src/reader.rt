//! The reader of core texts, token by token.
ghost use Rattle.hb_core.specs.Names.{Extends};

use crate::draft::Draft;
use crate::error::Stop;
use crate::level::{level, variable_depth};
use crate::mark::Mark;
use crate::name::declared;
use crate::scope::Scope;
use crate::state::{Binder, Head, Part, SortStep, State};
use crate::table::Table;
use crate::term::{Frame, Spine};
use hb_base::{Count, Names, Span};
use hb_env::Decl;
use hb_term::Term;
use std::alloc::{AllocError, Global};
use std::mem::replace;

/// A token: what it is to the grammar, its text and its place.
#[derive(Clone, Copy)]
pub struct Sign<'a> {
    pub mark: Mark,
    pub text: &'a [u8],
    pub place: Span,
}

/// What has been read of a core text.
#[derive(Drop)]
pub struct Reader {
    pub alloc: Global,
    /// The declarations, each with the place of its name.
    pub done: Vec<(Decl, Span)>,
    pub table: Table,
    /// The declaration that is read, the part of it that is read, and the variables there.
    pub draft: Draft,
    pub part: Part,
    pub scope: Scope,
    /// What is open around the place, the application that is read there, and how deep it is nested.
    pub frames: Vec<Frame>,
    pub spine: Spine,
    pub nesting: u32,
    pub level: u8,
    /// Whether a name was nothing before.
    pub misses: bool,
}

impl Reader {
    /// Nothing.
    pub fn new(alloc: Global, draft: Draft) -> Result<Reader, AllocError> {
        Ok(Reader {
            alloc,
            done: Vec::new(alloc),
            table: Table::new(alloc)?,
            draft,
            part: Part::AxiomType,
            scope: Scope::new(alloc),
            frames: Vec::new(alloc),
            spine: Spine::new(),
            nesting: 0,
            level: 0,
            misses: false,
        })
    }

    /// One token more.
    pub fn step(&mut self, names: &mut Names, state: State, sign: Sign<'_>) -> Result<State, Stop>
        ensures { Extends names.old names.new }
    {
        match state {
            State::Begin => begin(sign.mark),
            State::Name(head) => self.name(names, head, sign),
            State::Header | State::Parameter => self.header(state, sign),
            State::RecordSort(step) => self.record_sort(step, sign),
            State::Becomes => expect(sign.mark, Mark::Becomes, State::Maker),
            State::Maker => self.maker(names, sign),
            State::Fields => expect(sign.mark, Mark::Brace, State::FirstField),
            State::FirstField if sign.mark == Mark::Unbrace => Ok(State::RecordEnd),
            State::FirstField | State::NextField => self.field(names, sign),
            State::RecordEnd => self.record_end(sign.mark),
            _ => self.term_step(names, state, sign),
        }
    }

    /// One token more, in a term or before it.
    fn term_step(&mut self, names: &Names, state: State, sign: Sign<'_>) -> Result<State, Stop> {
        match state {
            State::Colon(part) => {
                self.part = part;
                expect(sign.mark, Mark::Colon, State::Term)
            }
            State::Term => self.term(names, sign),
            State::Variable(binder) => self.variable(binder, sign),
            State::VariableColon(binder) => self.variable_colon(binder, sign.mark),
            State::Sort(step) => self.sort(step, sign),
            State::After => self.after(names, sign),
            State::Field => self.projected(names, sign),
            State::FieldEnd => expect(sign.mark, Mark::Close, State::After),
            _ => Err(Stop::Stuck),
        }
    }

    /// The name that is declared.
    fn name(&mut self, names: &mut Names, head: Head, sign: Sign<'_>) -> Result<State, Stop>
        ensures { Extends names.old names.new }
    {
        if sign.mark != Mark::Name {
            return Err(Stop::Stuck);
        }
        let name = declared(names, sign.text)?;
        self.draft = Draft::new(self.alloc, name, sign.place);
        Ok(match head {
            Head::Axiom => State::Colon(Part::AxiomType),
            Head::Definition => State::Colon(Part::DefinitionType),
            Head::Record => State::Header,
        })
    }

    /// A parameter of a record, up to the colon before its type.
    fn header(&mut self, state: State, sign: Sign<'_>) -> Result<State, Stop> {
        match (state, sign.mark) {
            (State::Header, Mark::Open) => {
                self.nesting = self.nesting.saturating_add(1);
                Ok(State::Parameter)
            }
            (State::Header, Mark::Colon) => Ok(State::RecordSort(SortStep::Universe)),
            (State::Parameter, Mark::Name) if self.is_next_variable(sign.text) => {
                Ok(State::Colon(Part::ParameterType))
            }
            _ => Err(Stop::Stuck),
        }
    }

    /// Whether a name is that of the next variable.
    pub fn is_next_variable(&self, text: &[u8]) -> bool {
        match variable_depth(text) {
            Some(depth) => depth as usize == self.scope.depth(),
            None => false,
        }
    }

    /// A token of the sort of a record.
    fn record_sort(&mut self, step: SortStep, sign: Sign<'_>) -> Result<State, Stop> {
        match self.sort_step(step, sign)? {
            Some(next) => Ok(State::RecordSort(next)),
            None => {
                let level = self.level;
                self.draft.set_level(level);
                Ok(State::Becomes)
            }
        }
    }

    /// A token of `Type@{k}`, and what comes next of it, if anything does.
    pub fn sort_step(&mut self, step: SortStep, sign: Sign<'_>) -> Result<Option<SortStep>, Stop> {
        match (step, sign.mark) {
            (SortStep::Universe, Mark::Universe) => Ok(Some(SortStep::At)),
            (SortStep::At, Mark::At) => Ok(Some(SortStep::Brace)),
            (SortStep::Brace, Mark::Brace) => Ok(Some(SortStep::Number)),
            (SortStep::Number, Mark::Number) => {
                self.level = level(sign.text);
                Ok(Some(SortStep::Unbrace))
            }
            (SortStep::Unbrace, Mark::Unbrace) => Ok(None),
            _ => Err(Stop::Stuck),
        }
    }

    /// The name of the maker.
    fn maker(&mut self, names: &mut Names, sign: Sign<'_>) -> Result<State, Stop>
        ensures { Extends names.old names.new }
    {
        if sign.mark != Mark::Name {
            return Err(Stop::Stuck);
        }
        let maker = declared(names, sign.text)?;
        self.draft.set_maker(maker);
        Ok(State::Fields)
    }

    /// The name of a field.
    fn field(&mut self, names: &mut Names, sign: Sign<'_>) -> Result<State, Stop>
        ensures { Extends names.old names.new }
    {
        if sign.mark != Mark::Name {
            return Err(Stop::Stuck);
        }
        let name = declared(names, sign.text)?;
        if self.draft.is_full() {
            return Err(Stop::Full(Count::Fields));
        }
        self.draft.set_field(name);
        Ok(State::Colon(Part::FieldType))
    }

    /// The end of a record.
    fn record_end(&mut self, mark: Mark) -> Result<State, Stop> {
        if mark != Mark::End {
            return Err(Stop::Stuck);
        }
        self.scope.clear();
        self.nesting = 0;
        let (name, at) = (self.draft.name, self.draft.at);
        let draft = replace(&mut self.draft, Draft::new(self.alloc, name, at));
        self.finish(draft.record(), at)?;
        Ok(State::Begin)
    }

    /// The axiom or definition is read whole, with this type or body.
    pub fn finish_term(&mut self, head: Head, term: Term) -> Result<State, Stop> {
        let (name, at) = (self.draft.name, self.draft.at);
        let draft = replace(&mut self.draft, Draft::new(self.alloc, name, at));
        self.finish(draft.finished(head, term), at)?;
        Ok(State::Begin)
    }

    /// One more declaration.
    fn finish(&mut self, decl: Decl, at: Span) -> Result<(), Stop> {
        self.table.declare(&decl);
        self.done.push((decl, at))?;
        Ok(())
    }

    /// The colon behind the variable of a binder: its type begins.
    fn variable_colon(&mut self, binder: Binder, mark: Mark) -> Result<State, Stop> {
        if mark != Mark::Colon {
            return Err(Stop::Stuck);
        }
        self.frames.push(Frame::Type(binder))?;
        Ok(State::Term)
    }
}

/// The first word of a declaration.
fn begin(mark: Mark) -> Result<State, Stop> {
    match mark {
        Mark::Axiom => Ok(State::Name(Head::Axiom)),
        Mark::Definition => Ok(State::Name(Head::Definition)),
        Mark::Record => Ok(State::Name(Head::Record)),
        _ => Err(Stop::Stuck),
    }
}

/// The next state where the token is the one that is expected.
fn expect(mark: Mark, expected: Mark, next: State) -> Result<State, Stop> {
    if mark == expected {
        Ok(next)
    } else {
        Err(Stop::Stuck)
    }
}
