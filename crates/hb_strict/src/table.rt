//! The contexts and lines of one declaration: each line has a term, in a context, with a type that it has by
//! strict typing.
ghost use Rattle.std.specs.Prelude.{◌≡◌, ◌++◌, ◌∷◌, [], List, Some, slice_get, IfOk, IfSome, IsSome, IsTrue, OnOk};
ghost use Rattle.hb_tree.specs.Tree.{Tree, sort};
ghost use Rattle.hb_tree.specs.declared.leaves.Sort.TheVariants.{Level};
ghost use Rattle.hb_strict.specs.Strict.{HasStrictType};
ghost use Rattle.hb_term.specs.Meaning.{tree};
ghost use Rattle.hb_calculus.specs.Declarations.{Decl};
ghost use Rattle.hb_strict.specs.Tables.{AreContexts, HasContext, IsContext, IsAt, IsTable, Keeps, KeepsIn, IsSorted, IsUnder, IsChain, IsTypeOf, Follows};

use crate::link::{Link, is_linked};
use crate::shape::{params_of, product_sort};
use hb_env::Env;
use hb_record::projection_type;
use hb_term::{ConstId, RecId, Sort, Term};
use std::alloc::{AllocError, Global};
use std::vec::Vec;

/// A context that isn't empty: the one outside of its innermost variable, and the type of that.
#[derive(Drop)]
pub struct Context {
    pub outer: u32,
    pub ty: Term,
    pub size: u32,
}

/// A term in a context, with its type.
#[derive(Drop)]
pub struct Line {
    pub context: u32,
    pub term: Term,
    pub ty: Term,
}

/// The contexts after the empty one, and the lines; a line that makes a context has no term.
#[derive(Drop)]
pub struct Table {
    pub contexts: Vec<Context>,
    pub lines: Vec<Option<Line>>,
}

/// The greatest depth, and the most nodes, of a line's term.
const DEEPEST: u32 = 8_000;

const LARGEST: u64 = 100_000_000;

/// Whether the term is deeper or larger than that.
fn is_vast(t: &Term) -> bool {
    t.depth() > DEEPEST || t.nodes() > LARGEST
}

impl Table {
    /// The empty context alone.
    pub fn new(alloc: Global) -> Table
        ensures contexts { result.contexts.items ≡ [] }
        ensures lines { result.lines.items ≡ [] }
    {
        Table {
            contexts: Vec::new(alloc),
            lines: Vec::new(alloc),
        }
    }

    /// How many variables the context has; none where there is no such context.
    pub fn size(&self, context: u32) -> Option<u32>
        ensures { IsSome result → AreContexts self.now.contexts.items → HasContext self.now.contexts.items context }
    {
        let Some(at) = context.checked_sub(1) else {
            return Some(0);
        };
        match self.contexts.get(at as usize) {
            None => None,
            Some(context) => Some(context.size),
        }
    }

    /// The line of the number; none where there is no such line, or it makes a context.
    pub fn line(&self, at: u32) -> Option<&Line>
        ensures { IfSome result (λ l. IsAt self.now.lines.items at l.now) }
    {
        match self.lines.get(at as usize) {
            Some(Some(line)) => Some(line),
            _ => None,
        }
    }

    /// The sort that the type of the line's term is.
    pub fn sort_of(&self, at: u32) -> Option<Sort>
        ensures { IfSome result (λ s. IsSorted self.now at s) }
    {
        match self.line(at) {
            None => None,
            Some(line) => match &line.ty {
                Term::Sort(sort) => Some(*sort),
                _ => None,
            },
        }
    }

    /// The number of the line that is added next.
    fn next(&self) -> Result<u32, AllocError> {
        u32::try_from(self.lines.len()).map_err(|_| AllocError)
    }

    /// A line more: its number. Terms whose walk the stack or the time doesn't hold are out of memory.
    fn add(&mut self, context: u32, term: Term, ty: Term) -> Result<u32, AllocError>
        ensures added { OnOk result (self.new.lines.items ≡ self.old.lines.items ++ Some (record { context = context; term = term; ty = ty }) ∷ []) }
        ensures contexts { self.new.contexts ≡ self.old.contexts }
    {
        if is_vast(&term) || is_vast(&ty) {
            return Err(AllocError);
        }
        let number = self.next()?;
        self.lines.push(Some(Line { context, term, ty }))?;
        Ok(number)
    }

    /// The context with the term of a line in it, which is a type: its number. None where it isn't.
    pub fn extend(&mut self, context: u32, at: u32) -> Result<Option<u32>, AllocError>
        ensures { OnOk result (Keeps self.old self.new) }
    {
        let Some(size) = self.size(context) else {
            return Ok(None);
        };
        if self.sort_of(at).is_none() {
            return Ok(None);
        }
        let Some(line) = self.line(at) else {
            return Ok(None);
        };
        if line.context != context {
            return Ok(None);
        }
        let ty = line.term.copy()?;
        let _line = self.next()?;
        self.lines.push(None)?;
        self.contexts.push(Context {
            outer: context,
            ty,
            size: size.checked_add(1).ok_or(AllocError)?,
        })?;
        let number = u32::try_from(self.contexts.len()).map_err(|_| AllocError)?;
        Ok(Some(number))
    }

    /// A sort. None where it is too high to have a type.
    pub fn sort(&mut self, context: u32, s: Sort) -> Result<Option<u32>, AllocError>
        ensures { OnOk result (Keeps self.old self.new) }
    {
        if self.size(context).is_none() {
            return Ok(None);
        }
        let Some(level) = level_of(s) else {
            return Ok(None);
        };
        let ty = Term::Sort(Sort::Level(level));
        Ok(Some(self.add(context, Term::Sort(s), ty)?))
    }

    /// A variable. None where the context hasn't so many.
    pub fn variable(
        &mut self,
        alloc: Global,
        context: u32,
        variable: u32,
    ) -> Result<Option<u32>, AllocError>
        ensures { OnOk result (Keeps self.old self.new) }
    {
        if self.size(context).is_none() {
            return Ok(None);
        }
        let Some(ty) = self.variable_type(context, variable) else {
            return Ok(None);
        };
        let by = variable.checked_add(1).ok_or(AllocError)?;
        let ty = ty.try_lift(alloc, by, 0)?;
        Ok(Some(self.add(context, Term::Rel(variable), ty)?))
    }

    /// The type of a variable, in the context outside of it.
    fn variable_type(&self, context: u32, variable: u32) -> Option<&Term>
        ensures { IfSome result (λ t. (G : List Tree) → IsContext self.now.contexts.items context G → slice_get G variable ≡ Some (tree t.now)) }
    {
        let mut now = context;
        for _passed in 0..variable {
            match self.contexts.get(now.checked_sub(1)? as usize) {
                None => return None,
                Some(context) => now = context.outer,
            }
        }
        match self.contexts.get(now.checked_sub(1)? as usize) {
            None => None,
            Some(context) => Some(&context.ty),
        }
    }

    /// A constant, a former or a maker. None where it isn't declared.
    pub fn constant(
        &mut self,
        env: &Env,
        context: u32,
        constant: ConstId,
    ) -> Result<Option<u32>, AllocError>
        ensures { OnOk result (KeepsIn env.now self.old self.new) }
    {
        if self.size(context).is_none() {
            return Ok(None);
        }
        match env.type_of(constant)? {
            None => Ok(None),
            Some(ty) => Ok(Some(self.add(context, Term::Const(constant), ty)?)),
        }
    }

    /// Whether the line's context is that of the domain's line, with the domain's term.
    pub fn is_under(&self, domain: u32, at: u32) -> bool
        ensures { IsTrue result → IsUnder self.now domain at }
    {
        let (Some(outer), Some(inner)) = (self.line(domain), self.line(at)) else {
            return false;
        };
        let Some(place) = inner.context.checked_sub(1) else {
            return false;
        };
        match self.contexts.get(place as usize) {
            None => false,
            Some(context) => context.outer == outer.context && context.ty.same(&outer.term),
        }
    }

    /// The product of the terms of two lines. None where one is no type, or the second doesn't stand under the first.
    pub fn product(
        &mut self,
        alloc: Global,
        domain: u32,
        codomain: u32,
    ) -> Result<Option<u32>, AllocError>
        ensures { OnOk result (Keeps self.old self.new) }
    {
        let (Some(a), Some(b)) = (self.sort_of(domain), self.sort_of(codomain)) else {
            return Ok(None);
        };
        if !self.is_under(domain, codomain) {
            return Ok(None);
        }
        let (Some(outer), Some(inner)) = (self.line(domain), self.line(codomain)) else {
            return Ok(None);
        };
        let context = outer.context;
        let term = Term::pi(alloc, outer.term.copy()?, inner.term.copy()?)?;
        Ok(Some(self.add(context, term, Term::Sort(product_sort(a, b)))?))
    }

    /// The function from the term of the first line to that of the second, under it.
    pub fn function(
        &mut self,
        alloc: Global,
        domain: u32,
        body: u32,
    ) -> Result<Option<u32>, AllocError>
        ensures { OnOk result (Keeps self.old self.new) }
    {
        if self.sort_of(domain).is_none() {
            return Ok(None);
        }
        if !self.is_under(domain, body) {
            return Ok(None);
        }
        let (Some(outer), Some(inner)) = (self.line(domain), self.line(body)) else {
            return Ok(None);
        };
        let context = outer.context;
        let term = Term::lam(alloc, outer.term.copy()?, inner.term.copy()?)?;
        let ty = Term::pi(alloc, outer.term.copy()?, inner.ty.copy()?)?;
        Ok(Some(self.add(context, term, ty)?))
    }

    /// Whether the type of the line is a product.
    pub fn is_function(&self, at: u32) -> bool {
        match self.line(at) {
            None => false,
            Some(line) => matches!(&line.ty, Term::Pi(_, _)),
        }
    }

    /// The application of the first line's term to the second's. None where the first's type is no product with the
    /// second's type as its domain, or they stand in different contexts.
    pub fn application(
        &mut self,
        alloc: Global,
        function: u32,
        argument: u32,
    ) -> Result<Option<u32>, AllocError>
        ensures { OnOk result (Keeps self.old self.new) }
    {
        let (Some(f), Some(a)) = (self.line(function), self.line(argument)) else {
            return Ok(None);
        };
        if f.context != a.context {
            return Ok(None);
        }
        let Term::Pi(domain, codomain) = &f.ty else {
            return Ok(None);
        };
        if !domain.as_ref().same(&a.ty) {
            return Ok(None);
        }
        let context = f.context;
        let ty = codomain.as_ref().try_subst(alloc, &a.term)?;
        let term = Term::app(alloc, f.term.copy()?, a.term.copy()?)?;
        Ok(Some(self.add(context, term, ty)?))
    }

    /// The projection of the line's term. None where its type isn't the record with all its parameters.
    pub fn projection(
        &mut self,
        alloc: Global,
        env: &Env,
        rec: RecId,
        field: u16,
        at: u32,
    ) -> Result<Option<u32>, AllocError>
        ensures { OnOk result (KeepsIn env.now self.old self.new) }
    {
        let Some(line) = self.line(at) else {
            return Ok(None);
        };
        let Some(params) = params_of(alloc, env, rec, field, &line.ty)? else {
            return Ok(None);
        };
        let context = line.context;
        let ty = projection_type(alloc, env, rec, field, &params, &line.term)?;
        let term = Term::proj(alloc, rec, field, line.term.copy()?)?;
        Ok(Some(self.add(context, term, ty)?))
    }

    /// Whether the second line's term is the type of the first's, and a type itself.
    pub fn is_type_of(&self, at: u32, ty: u32) -> bool
        ensures { IsTrue result → IsTypeOf self.now at ty }
    {
        if self.sort_of(ty).is_none() {
            return false;
        }
        match (self.line(at), self.line(ty)) {
            (Some(line), Some(of)) => line.context == of.context && line.ty.same(&of.term),
            _ => false,
        }
    }

    /// Whether the second line's term is a type in the context of the first's, and follows from it by the link.
    pub fn follows(
        &self,
        alloc: Global,
        env: &Env,
        before: u32,
        link: Link,
        at: u32,
    ) -> Result<bool, AllocError>
        ensures { IfOk result (λ b. IsTrue b → Follows env.now self.now before at) }
    {
        if self.sort_of(at).is_none() {
            return Ok(false);
        }
        match (self.line(before), self.line(at)) {
            (Some(from), Some(to)) => {
                if from.context != to.context {
                    return Ok(false);
                }
                is_linked(alloc, env, link, &from.term, &to.term)
            }
            _ => Ok(false),
        }
    }

    /// The first line's term with the second's term as its type, to which a chain of types leads from its own.
    pub fn converted(&mut self, at: u32, last: u32) -> Result<Option<u32>, AllocError>
        ensures { OnOk result ((E : List Decl) → IsTable E self.old → IsChain E self.old at last → IsTable E self.new) }
    {
        let (Some(line), Some(ty)) = (self.line(at), self.line(last)) else {
            return Ok(None);
        };
        let context = line.context;
        let term = line.term.copy()?;
        let ty = ty.term.copy()?;
        Ok(Some(self.add(context, term, ty)?))
    }
}

/// The level of the sort that a sort has as its type. None where it is too high.
fn level_of(s: Sort) -> Option<u8>
    ensures { IfSome result (λ k. (E : List Decl) (G : List Tree) → HasStrictType E G (sort s) (sort (Level k))) }
{
    match s {
        Sort::Prop => Some(0),
        Sort::Level(level) => {
            if level > 62 {
                return None;
            }
            Some(level + 1)
        }
    }
}
