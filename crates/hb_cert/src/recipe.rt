//! The lines of a term: those of its parts, and then the line of its rule.
use crate::chain::{head_chain, whole_chain};
use crate::fault::Fault;
use crate::index::Index;
use hb_base::Limits;
use hb_env::Env;
use hb_libfile::{put_byte, put_count, put_number, put_short};
use hb_strict::{Link, Table};
use hb_term::{ConstId, RecId, Sort, Term, View};
use std::alloc::{AllocError, Global};
use std::vec::Vec;

/// What the lines of a declaration are made in.
#[derive(Clone, Copy)]
pub(crate) struct Setting<'a> {
    pub(crate) alloc: Global,
    pub(crate) env: &'a Env,
    pub(crate) limits: &'a Limits,
}

/// The lines so far, as a table and as bytes; what is known of terms and of contexts; and the moves taken.
#[derive(Drop)]
pub(crate) struct Recipes {
    pub(crate) table: Table,
    pub(crate) bytes: Vec<u8>,
    done: Index,
    inner: Index,
    moves: u64,
}

/// How deep recipes nest before the stack is out of memory.
pub(crate) const LEVELS: u32 = 8_000;

impl Recipes {
    /// No lines.
    pub(crate) fn new(alloc: Global) -> Recipes {
        Recipes {
            table: Table::new(alloc),
            bytes: Vec::new(alloc),
            done: Index::new(alloc),
            inner: Index::new(alloc),
            moves: 0,
        }
    }

    /// One move more.
    fn count(&mut self, setting: Setting<'_>) -> Result<(), Fault> {
        self.moves = self.moves.saturating_add(1);
        if self.moves > setting.limits.steps {
            Err(Fault::Moves)
        } else {
            Ok(())
        }
    }

    /// How many variables the context has.
    fn size(&self, context: u32) -> u32 {
        match self.table.size(context) {
            Some(size) => size,
            None => 0,
        }
    }

    /// The line for the term is not as it has to be.
    pub(crate) fn untyped(&self, context: u32, t: &Term) -> Fault {
        match t.copy() {
            Ok(t) => Fault::Untyped(self.size(context), t),
            Err(_) => Fault::NoMemory,
        }
    }

    /// The line that was made for the term, if it is as it has to be.
    fn written(
        &mut self,
        setting: Setting<'_>,
        made: Option<u32>,
        context: u32,
        t: &Term,
    ) -> Result<u32, Fault> {
        match made {
            None => Err(self.untyped(context, t)),
            Some(line) => {
                self.count(setting)?;
                Ok(line)
            }
        }
    }

    /// The line of the term in the context, with the lines of its parts before it.
    #[cycle(recipe)]
    pub(crate) fn recipe(
        &mut self,
        setting: Setting<'_>,
        level: u32,
        context: u32,
        t: &Term,
    ) -> Result<u32, Fault> {
        match self.done.find(context, t) {
            Some(Some(line)) => return Ok(line),
            Some(None) => return Err(Fault::Circular(self.size(context), t.copy()?)),
            None => {}
        }
        let Some(inner) = level.checked_sub(1) else {
            return Err(Fault::NoMemory);
        };
        self.count(setting)?;
        let entry = self.done.add(context, t, None)?;
        let line = self.rule(setting, inner, context, t)?;
        self.done.close(entry, line);
        Ok(line)
    }

    /// The same for a term that has no line yet.
    #[cycle(recipe)]
    fn rule(
        &mut self,
        setting: Setting<'_>,
        level: u32,
        context: u32,
        t: &Term,
    ) -> Result<u32, Fault> {
        match t.view() {
            View::Sort(sort) => self.sort(setting, context, sort, t),
            View::Rel(variable) => self.variable(setting, context, variable, t),
            View::Const(constant) => self.constant(setting, context, constant, t),
            View::Pi(a, b) => self.product(setting, level, context, a, b, t),
            View::Lam(a, b) => self.function(setting, level, context, a, b, t),
            View::App(f, a) => self.application(setting, level, context, f, a, t),
            View::Proj(rec, field, of) => {
                self.projection(setting, level, context, rec, field, of, t)
            }
            View::Hole(_) => Err(self.untyped(context, t)),
        }
    }

    fn sort(
        &mut self,
        setting: Setting<'_>,
        context: u32,
        sort: Sort,
        t: &Term,
    ) -> Result<u32, Fault> {
        let made = self.table.sort(context, sort)?;
        let line = self.written(setting, made, context, t)?;
        put_byte(&mut self.bytes, 1)?;
        put_number(&mut self.bytes, context)?;
        put_sort(&mut self.bytes, sort)?;
        Ok(line)
    }

    fn variable(
        &mut self,
        setting: Setting<'_>,
        context: u32,
        variable: u32,
        t: &Term,
    ) -> Result<u32, Fault> {
        let made = self.table.variable(setting.alloc, context, variable)?;
        let line = self.written(setting, made, context, t)?;
        put_byte(&mut self.bytes, 2)?;
        put_number(&mut self.bytes, context)?;
        put_number(&mut self.bytes, variable)?;
        Ok(line)
    }

    fn constant(
        &mut self,
        setting: Setting<'_>,
        context: u32,
        constant: ConstId,
        t: &Term,
    ) -> Result<u32, Fault> {
        let made = self.table.constant(setting.env, context, constant)?;
        let line = self.written(setting, made, context, t)?;
        put_byte(&mut self.bytes, 3)?;
        put_number(&mut self.bytes, context)?;
        put_byte(&mut self.bytes, if constant.maker { 7 } else { 6 })?;
        put_number(&mut self.bytes, constant.decl)?;
        Ok(line)
    }

    /// The line of the type `a`, and the context with it, for the term `t` around both.
    #[cycle(recipe)]
    fn domain(
        &mut self,
        setting: Setting<'_>,
        level: u32,
        context: u32,
        a: &Term,
        t: &Term,
    ) -> Result<(u32, u32), Fault> {
        let Some(inner) = level.checked_sub(1) else {
            return Err(Fault::NoMemory);
        };
        let line = self.recipe(setting, inner, context, a)?;
        let line = self.as_sort(setting, inner, context, line)?;
        let under = self.extend(setting, context, line, a, t)?;
        Ok((line, under))
    }

    /// The context with the type `a` of the line, which is made where it isn't there yet.
    pub(crate) fn extend(
        &mut self,
        setting: Setting<'_>,
        context: u32,
        line: u32,
        a: &Term,
        t: &Term,
    ) -> Result<u32, Fault> {
        if let Some(Some(under)) = self.inner.find(context, a) {
            return Ok(under);
        }
        let made = self.table.extend(context, line)?;
        let under = self.written(setting, made, context, t)?;
        put_byte(&mut self.bytes, 0)?;
        put_number(&mut self.bytes, context)?;
        put_number(&mut self.bytes, line)?;
        self.inner.add(context, a, Some(under))?;
        Ok(under)
    }

    #[cycle(recipe)]
    fn product(
        &mut self,
        setting: Setting<'_>,
        level: u32,
        context: u32,
        a: &Term,
        b: &Term,
        t: &Term,
    ) -> Result<u32, Fault> {
        let Some(inner) = level.checked_sub(1) else {
            return Err(Fault::NoMemory);
        };
        let (domain, under) = self.domain(setting, inner, context, a, t)?;
        let line = self.recipe(setting, inner, under, b)?;
        let codomain = self.as_sort(setting, inner, under, line)?;
        let made = self.table.product(setting.alloc, domain, codomain)?;
        let line = self.written(setting, made, context, t)?;
        put_pair(&mut self.bytes, 4, domain, codomain)?;
        Ok(line)
    }

    #[cycle(recipe)]
    fn function(
        &mut self,
        setting: Setting<'_>,
        level: u32,
        context: u32,
        a: &Term,
        b: &Term,
        t: &Term,
    ) -> Result<u32, Fault> {
        let Some(inner) = level.checked_sub(1) else {
            return Err(Fault::NoMemory);
        };
        let (domain, under) = self.domain(setting, inner, context, a, t)?;
        let body = self.recipe(setting, inner, under, b)?;
        let made = self.table.function(setting.alloc, domain, body)?;
        let line = self.written(setting, made, context, t)?;
        put_pair(&mut self.bytes, 5, domain, body)?;
        Ok(line)
    }

    #[cycle(recipe)]
    fn application(
        &mut self,
        setting: Setting<'_>,
        level: u32,
        context: u32,
        f: &Term,
        a: &Term,
        t: &Term,
    ) -> Result<u32, Fault> {
        let Some(inner) = level.checked_sub(1) else {
            return Err(Fault::NoMemory);
        };
        let line = self.recipe(setting, inner, context, f)?;
        let function = self.as_head(setting, inner, context, line)?;
        let Some(domain) = self.domain_of(function)? else {
            return Err(self.untyped(context, t));
        };
        let line = self.recipe(setting, inner, context, a)?;
        let argument = self.agree(setting, inner, context, line, &domain)?;
        let made = self.table.application(setting.alloc, function, argument)?;
        let line = self.written(setting, made, context, t)?;
        put_pair(&mut self.bytes, 6, function, argument)?;
        Ok(line)
    }

    /// The domain of the product that is the type of the line.
    fn domain_of(&self, line: u32) -> Result<Option<Term>, AllocError> {
        match self.table.line(line) {
            None => Ok(None),
            Some(line) => match line.ty.view() {
                View::Pi(domain, _) => Ok(Some(domain.copy()?)),
                _ => Ok(None),
            },
        }
    }

    #[cycle(recipe)]
    fn projection(
        &mut self,
        setting: Setting<'_>,
        level: u32,
        context: u32,
        rec: RecId,
        field: u16,
        of: &Term,
        t: &Term,
    ) -> Result<u32, Fault> {
        let Some(inner) = level.checked_sub(1) else {
            return Err(Fault::NoMemory);
        };
        let line = self.recipe(setting, inner, context, of)?;
        let value = self.as_head(setting, inner, context, line)?;
        let made = self
            .table
            .projection(setting.alloc, setting.env, rec, field, value)?;
        let line = self.written(setting, made, context, t)?;
        put_byte(&mut self.bytes, 7)?;
        put_number(&mut self.bytes, rec.0)?;
        put_short(&mut self.bytes, field)?;
        put_number(&mut self.bytes, value)?;
        Ok(line)
    }

    /// The type of the line.
    fn type_of(&self, line: u32) -> Result<Term, AllocError> {
        match self.table.line(line) {
            None => Err(AllocError),
            Some(line) => line.ty.copy(),
        }
    }

    /// The line with the weak head form of its type.
    #[cycle(recipe)]
    fn as_head(
        &mut self,
        setting: Setting<'_>,
        level: u32,
        context: u32,
        line: u32,
    ) -> Result<u32, Fault> {
        let Some(inner) = level.checked_sub(1) else {
            return Err(Fault::NoMemory);
        };
        let ty = self.type_of(line)?;
        let chain = head_chain(setting, self.size(context), &ty)?;
        if chain.is_empty() {
            return Ok(line);
        }
        self.convert(setting, inner, context, line, &ty, &chain)
    }

    /// The same where a sort is asked for.
    #[cycle(recipe)]
    pub(crate) fn as_sort(
        &mut self,
        setting: Setting<'_>,
        level: u32,
        context: u32,
        line: u32,
    ) -> Result<u32, Fault> {
        if self.table.sort_of(line).is_some() {
            return Ok(line);
        }
        let Some(inner) = level.checked_sub(1) else {
            return Err(Fault::NoMemory);
        };
        self.as_head(setting, inner, context, line)
    }

    /// The line with the wanted type, which its own has to agree with.
    #[cycle(recipe)]
    pub(crate) fn agree(
        &mut self,
        setting: Setting<'_>,
        level: u32,
        context: u32,
        line: u32,
        wanted: &Term,
    ) -> Result<u32, Fault> {
        let ty = self.type_of(line)?;
        if ty.same(wanted) {
            return Ok(line);
        }
        let Some(inner) = level.checked_sub(1) else {
            return Err(Fault::NoMemory);
        };
        let chain = whole_chain(setting, self.size(context), &ty, wanted)?;
        self.convert(setting, inner, context, line, &ty, &chain)
    }

    /// The line with the last type of the chain, which begins with its own.
    #[cycle(recipe)]
    fn convert(
        &mut self,
        setting: Setting<'_>,
        level: u32,
        context: u32,
        line: u32,
        ty: &Term,
        chain: &[(Link, Term)],
    ) -> Result<u32, Fault> {
        let Some(inner) = level.checked_sub(1) else {
            return Err(Fault::NoMemory);
        };
        let first = self.recipe(setting, inner, context, ty)?;
        let first = self.as_sort(setting, inner, context, first)?;
        let mut members = Vec::new(setting.alloc);
        for member in chain {
            self.count(setting)?;
            let at = self.recipe(setting, inner, context, &member.1)?;
            let at = self.as_sort(setting, inner, context, at)?;
            members.push((member.0, at)).map_err(AllocError::from)?;
        }
        self.link(setting, context, line, first, &members)
    }

    /// The line with the type at the last of the lines, where each follows from the one before it.
    fn link(
        &mut self,
        setting: Setting<'_>,
        context: u32,
        line: u32,
        first: u32,
        members: &[(Link, u32)],
    ) -> Result<u32, Fault> {
        let mut holds = self.table.is_type_of(line, first);
        let mut last = first;
        for member in members {
            if holds {
                holds = self
                    .table
                    .follows(setting.alloc, setting.env, last, member.0, member.1)?;
                last = member.1;
            }
        }
        let made = if holds {
            self.table.converted(line, last)?
        } else {
            None
        };
        let t = match self.table.line(line) {
            None => return Err(Fault::NoMemory),
            Some(line) => line.term.copy()?,
        };
        let number = self.written(setting, made, context, &t)?;
        put_pair(&mut self.bytes, 8, line, first)?;
        put_count(&mut self.bytes, members.len())?;
        for member in members {
            put_byte(&mut self.bytes, member.0.number())?;
            put_number(&mut self.bytes, member.1)?;
        }
        Ok(number)
    }
}

/// A tag and the numbers of two lines.
fn put_pair(out: &mut Vec<u8>, tag: u8, first: u32, second: u32) -> Result<(), AllocError> {
    put_byte(out, tag)?;
    put_number(out, first)?;
    put_number(out, second)
}

/// A sort, as in terms of a file.
fn put_sort(out: &mut Vec<u8>, sort: Sort) -> Result<(), AllocError> {
    match sort {
        Sort::Prop => put_byte(out, 0),
        Sort::Level(level) => {
            put_byte(out, 1)?;
            put_byte(out, level)
        }
    }
}
