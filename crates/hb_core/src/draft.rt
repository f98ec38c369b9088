//! The declaration that is read.
use crate::state::Head;
use hb_base::{NameId, Span};
use hb_env::Decl;
use hb_term::Term;
use std::alloc::{AllocError, Global};

/// The most fields of a record.
const MOST_FIELDS: usize = 255;

/// What has been read of a declaration.
#[derive(Drop)]
pub struct Draft {
    /// The declared name, and its place.
    pub name: NameId,
    pub at: Span,
    /// The type of a definition.
    ty: Option<Term>,
    params: Vec<Term>,
    level: u8,
    maker: NameId,
    fields: Vec<(NameId, Term)>,
    /// The name of the field that is read.
    field: NameId,
}

impl Draft {
    /// Nothing but a name.
    pub fn new(alloc: Global, name: NameId, at: Span) -> Draft {
        Draft {
            name,
            at,
            ty: None,
            params: Vec::new(alloc),
            level: 0,
            maker: name,
            fields: Vec::new(alloc),
            field: name,
        }
    }

    /// The type of a definition is read.
    pub fn set_type(&mut self, ty: Term) {
        self.ty = Some(ty);
    }

    /// The level of a record is read.
    pub fn set_level(&mut self, level: u8) {
        self.level = level;
    }

    /// The maker of a record is read.
    pub fn set_maker(&mut self, maker: NameId) {
        self.maker = maker;
    }

    /// One more parameter of a record.
    pub fn add_param(&mut self, ty: Term) -> Result<(), AllocError> {
        self.params.push(ty)?;
        Ok(())
    }

    /// Whether a record has as many fields as it may have.
    pub fn is_full(&self) -> bool {
        self.fields.len() >= MOST_FIELDS
    }

    /// The name of a field is read.
    pub fn set_field(&mut self, name: NameId) {
        self.field = name;
    }

    /// The type of the field is read.
    pub fn add_field(&mut self, ty: Term) -> Result<(), AllocError> {
        let name = self.field;
        self.fields.push((name, ty))?;
        Ok(())
    }

    /// How many variables stand outside of the variable of a field that was read, by its name: the last
    /// such field counts.
    pub fn field_level(&self, name: NameId) -> Option<usize> {
        let mut level = None;
        for (at, field) in self.fields.iter().enumerate() {
            if field.0 == name {
                level = self.params.len().checked_add(at);
            }
        }
        level
    }

    /// The axiom of this type, or the definition with this body.
    pub fn finished(self, head: Head, term: Term) -> Decl {
        match (head, self.ty) {
            (Head::Definition, Some(ty)) => Decl::Def {
                name: self.name,
                ty,
                body: term,
            },
            _ => Decl::Axiom {
                name: self.name,
                ty: term,
            },
        }
    }

    /// The record.
    pub fn record(self) -> Decl {
        Decl::Record {
            name: self.name,
            maker: self.maker,
            params: self.params,
            level: self.level,
            fields: self.fields,
        }
    }
}
