//! Terms of a core text.
ghost use Rattle.std.specs.Prelude.{◌≡◌, ◌<◌, IfSome, length};

use crate::error::Stop;
use crate::mark::Mark;
use crate::reader::{Reader, Sign};
use crate::scope::Bound;
use crate::state::{Binder, Head, Part, SortStep, State};
use hb_base::Names;
use hb_term::{Sort, Term};
use std::alloc::{AllocError, Global};
use std::mem::replace;

/// The greatest nesting, the most arguments of an application, and the greatest depth of what is applied
/// or projected.
const MOST: u32 = 2_000;

/// What is open around a place.
#[derive(Drop)]
pub enum Frame {
    /// The type of a binder's variable.
    Type(Binder),
    /// What a binder is over, with the type of its variable.
    Body(Binder, Term),
    /// The right side of an arrow, with its left side.
    Arrow(Term),
    /// A parenthesis, with the application around it.
    Paren(Spine),
}

/// An application that is read: its head with all arguments but the last, and the last of them, or the
/// head.
#[derive(Drop)]
pub struct Spine {
    pub head: Option<Term>,
    pub last: Option<Term>,
    pub args: u32,
}

impl Spine {
    /// Nothing.
    pub fn new() -> Spine {
        Spine {
            head: None,
            last: None,
            args: 0,
        }
    }

    /// The application so far, which is taken away.
    fn joined(&mut self, alloc: Global) -> Result<Term, Stop> {
        self.args = 0;
        match (self.head.take(), self.last.take()) {
            (Some(head), Some(last)) => Ok(Term::app(alloc, head, last)?),
            (None, Some(last)) => Ok(last),
            _ => Err(Stop::Stuck),
        }
    }
}

impl Reader {
    /// The first token of a term.
    pub fn term(&mut self, names: &Names, sign: Sign<'_>) -> Result<State, Stop> {
        match sign.mark {
            Mark::Forall | Mark::Fun | Mark::Name | Mark::Prop | Mark::Universe | Mark::Open => {}
            _ => return Err(Stop::Stuck),
        }
        if self.nesting > MOST {
            return Err(Stop::Deep);
        }
        match sign.mark {
            Mark::Forall => Ok(State::Variable(Binder::Forall)),
            Mark::Fun => Ok(State::Variable(Binder::Fun)),
            _ => self.atom(names, sign),
        }
    }

    /// The variable of a binder.
    pub fn variable(&mut self, binder: Binder, sign: Sign<'_>) -> Result<State, Stop> {
        if sign.mark == Mark::Name && self.is_next_variable(sign.text) {
            Ok(State::VariableColon(binder))
        } else {
            Err(Stop::Stuck)
        }
    }

    /// The first token of an argument, or of a head.
    pub fn atom(&mut self, names: &Names, sign: Sign<'_>) -> Result<State, Stop> {
        match sign.mark {
            Mark::Name => {
                let term = self.named(names, sign);
                self.spine.last = Some(term);
                Ok(State::After)
            }
            Mark::Prop => {
                self.spine.last = Some(Term::Sort(Sort::Prop));
                Ok(State::After)
            }
            Mark::Universe => Ok(State::Sort(SortStep::At)),
            Mark::Open => self.open(),
            _ => Err(Stop::Stuck),
        }
    }

    /// A parenthesis: a term begins in it.
    fn open(&mut self) -> Result<State, Stop> {
        if self.nesting >= MOST {
            return Err(Stop::Deep);
        }
        self.nesting = self.nesting.saturating_add(1);
        let around = replace(&mut self.spine, Spine::new());
        self.frames.push(Frame::Paren(around))?;
        Ok(State::Term)
    }

    /// A token of a sort.
    pub fn sort(&mut self, step: SortStep, sign: Sign<'_>) -> Result<State, Stop> {
        match self.sort_step(step, sign)? {
            Some(next) => Ok(State::Sort(next)),
            None => {
                self.spine.last = Some(Term::Sort(Sort::Level(self.level)));
                Ok(State::After)
            }
        }
    }

    /// A token behind an argument, or behind a head.
    pub fn after(&mut self, names: &Names, sign: Sign<'_>) -> Result<State, Stop> {
        match sign.mark {
            Mark::Name | Mark::Prop | Mark::Universe | Mark::Open => self.argument(names, sign),
            Mark::Project => self.project(),
            Mark::Arrow => self.arrow(),
            mark => self.close(mark),
        }
    }

    /// The first token of one more argument.
    fn argument(&mut self, names: &Names, sign: Sign<'_>) -> Result<State, Stop> {
        let args = self.spine.args;
        let head = self.spine.joined(self.alloc)?;
        if args >= MOST || head.depth() > MOST {
            return Err(Stop::Deep);
        }
        self.spine.head = Some(head);
        self.spine.args = args.saturating_add(1);
        self.atom(names, sign)
    }

    /// `.(` behind an argument.
    fn project(&mut self) -> Result<State, Stop> {
        match &self.spine.last {
            Some(last) if last.depth() <= MOST => Ok(State::Field),
            _ => Err(Stop::Deep),
        }
    }

    /// An arrow: its right side begins.
    fn arrow(&mut self) -> Result<State, Stop> {
        let domain = self.spine.joined(self.alloc)?;
        self.frames.push(Frame::Arrow(domain))?;
        self.enter(Bound::Arrow)?;
        Ok(State::Term)
    }

    /// One more variable, whose scope begins.
    fn enter(&mut self, bound: Bound) -> Result<(), AllocError> {
        self.nesting = self.nesting.saturating_add(1);
        self.scope.enter(bound)
    }

    /// A token that ends a term.
    fn close(&mut self, mark: Mark) -> Result<State, Stop> {
        let term = self.whole()?;
        match (self.frames.pop(), mark) {
            (Some(Frame::Type(Binder::Forall)), Mark::Comma) => self.body(Binder::Forall, term),
            (Some(Frame::Type(Binder::Fun)), Mark::Gives) => self.body(Binder::Fun, term),
            (Some(Frame::Paren(around)), Mark::Close) => {
                self.nesting = self.nesting.saturating_sub(1);
                self.spine = around;
                self.spine.last = Some(term);
                Ok(State::After)
            }
            (None, mark) => self.close_part(mark, term),
            _ => Err(Stop::Stuck),
        }
    }

    /// What a binder is over begins.
    fn body(&mut self, binder: Binder, domain: Term) -> Result<State, Stop> {
        self.frames.push(Frame::Body(binder, domain))?;
        self.enter(Bound::Written)?;
        Ok(State::Term)
    }

    /// The term that ends here, with the binders and arrows that end with it.
    fn whole(&mut self) -> Result<Term, Stop> {
        let mut term = self.spine.joined(self.alloc)?;
        while let Some(frame) = self.ending_frame() {
            self.leave();
            term = framed(self.alloc, frame, term)?;
        }
        Ok(term)
    }

    /// The innermost frame, where it ends with the term in it: that of a binder or an arrow.
    fn ending_frame(&mut self) -> Option<Frame>
        ensures { IfSome result (λ _. length self.new.frames.items < length self.old.frames.items) }
    {
        match self.frames.last() {
            Some(Frame::Body(_, _)) | Some(Frame::Arrow(_)) => self.frames.pop(),
            _ => None,
        }
    }

    /// The scope of the innermost variable ends.
    fn leave(&mut self)
        ensures { self.new.frames ≡ self.old.frames }
    {
        self.nesting = self.nesting.saturating_sub(1);
        self.scope.leave();
    }

    /// A token that ends a part of a declaration.
    fn close_part(&mut self, mark: Mark, term: Term) -> Result<State, Stop> {
        match (self.part, mark) {
            (Part::AxiomType, Mark::End) => self.finish_term(Head::Axiom, term),
            (Part::DefinitionType, Mark::Becomes) => {
                self.draft.set_type(term);
                self.part = Part::DefinitionBody;
                Ok(State::Term)
            }
            (Part::DefinitionBody, Mark::End) => self.finish_term(Head::Definition, term),
            (Part::ParameterType, Mark::Close) => {
                // The nesting of the parenthesis becomes that of the parameter.
                self.draft.add_param(term)?;
                self.scope.enter(Bound::Written)?;
                Ok(State::Header)
            }
            (Part::FieldType, Mark::Semicolon) => {
                self.add_field(term)?;
                Ok(State::NextField)
            }
            (Part::FieldType, Mark::Unbrace) => {
                self.add_field(term)?;
                Ok(State::RecordEnd)
            }
            _ => Err(Stop::Stuck),
        }
    }

    /// One more field of a record.
    fn add_field(&mut self, ty: Term) -> Result<(), AllocError> {
        self.draft.add_field(ty)?;
        self.scope.enter(Bound::Field)
    }
}

/// The term of a frame that ends with what is in it.
fn framed(alloc: Global, frame: Frame, inside: Term) -> Result<Term, AllocError> {
    match frame {
        Frame::Body(Binder::Forall, domain) | Frame::Arrow(domain) => {
            Term::pi(alloc, domain, inside)
        }
        Frame::Body(Binder::Fun, domain) => Term::lam(alloc, domain, inside),
        Frame::Type(_) | Frame::Paren(_) => Ok(inside),
    }
}
