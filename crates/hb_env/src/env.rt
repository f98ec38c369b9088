//! Environments.
ghost use Rattle.std.specs.Prelude.{◌≡◌, ◌-◌, ◌≤◌, ◌<◌, ◌↔◌, false, [], ◌∷◌, ◌++◌, length, take, slice_get, cond, Some, None, IfOk, IfSome, IsNone, IfErr, OnOk, OnErr, option_map};
ghost use Rattle.hb_calculus.specs.Declarations.{names, IsIn, body_in, node_count};
ghost use Rattle.hb_calculus.specs.Telescopes.{type_in};
ghost use Rattle.hb_term.specs.Meaning.{tree};
ghost use Rattle.hb_calculus.specs.Scope.{IsScopedDecl};
ghost use Rattle.hb_env.specs.Plain.{plain};
ghost use Rattle.hb_env.specs.Naming.{name_in};
ghost use Rattle.hb_env.specs.Environment.{IsEnvironment, CountAnswer};
ghost use Rattle.hb_env.specs.Answers.{IsCause};

use crate::decl::Decl;
use crate::error::EnvRefused;
use crate::named::Named;
use crate::names::{enter, first_repeated, remove};
use hb_base::{Count, NameId};
use hb_term::{ConstId, Term};
use std::alloc::{AllocError, Global};
use std::marker::Model;
use std::vec::Vec;

/// The most declarations of an environment.
pub const MAX_DECLARATIONS: usize = 262_144;

/// The most fields of a record.
pub const MAX_FIELDS: usize = 255;

/// The most nodes of all terms of an environment, as written out.
pub const MAX_NODES: u64 = 40_000_000;

/// How many numbers of names there are.
const NAMES: usize = 65_536;

/// The list of what is declared, whose names all differ. It knows each name's declaration without a
/// search.
#[derive(Drop)]
pub struct Env {
    alloc: Global,
    decls: Vec<Decl>,
    table: Vec<Option<Named>>,
    nodes: u64,
}

impl Model for Env {
    ghost use Rattle.std.specs.Prelude.{List};
    ghost use Rattle.hb_calculus.specs.Declarations.{Decl};
    ghost use Rattle.hb_env.specs.Coded.{coded_decls};

    ghost Value = { List Decl };

    ghost coded = { coded_decls };

    ghost use Rattle.hb_env.specs.Plain.{plains};
    ghost use Rattle.hb_env.specs.Table.{IsKept};

    ghost view = { λ e. plains e.decls.items };

    ghost invariant = { λ e. IsKept (plains e.decls.items) e.table.items e.nodes };
}

impl Env {
    /// The empty environment.
    pub fn new(alloc: Global) -> Result<Env, AllocError>
        ensures { IfOk result (λ e. e ≡ []) }
    {
        let mut table = Vec::with_capacity(alloc, NAMES)?;
        for _i in 0..NAMES {
            table.push(None)?;
        }
        Ok(Env {
            alloc,
            decls: Vec::new(alloc),
            table,
            nodes: 0,
        })
    }

    /// How many declarations there are.
    pub fn len(&self) -> u32
        ensures count { result ≡ length self.now }
        ensures valid { IsEnvironment self.now }
    {
        self.decls.len() as u32
    }

    /// The nodes of all terms, as written out.
    pub fn nodes(&self) -> u64
        ensures { result ≡ node_count self.now }
    {
        self.nodes
    }

    /// What the name stands for. `None` exactly where no declaration has it.
    pub fn lookup(&self, name: NameId) -> Option<Named>
        ensures found { IfSome result (λ d. name_in self.now d ≡ Some name.0) }
        ensures none { IsNone result ↔ ¬ IsIn name.0 (names self.now) }
    {
        self.table[usize::from(name.0)]
    }

    /// The declaration at the place. `None` exactly where there are no more than `at`.
    pub fn decl(&self, at: u32) -> Option<&Decl>
        ensures { option_map (λ d. plain d.now) result ≡ slice_get self.now at }
    {
        self.decls.get(at as usize)
    }

    /// The body of a definition. `None` for every other constant.
    pub fn body_of(&self, c: ConstId) -> Option<&Term>
        ensures { option_map (λ t. tree t.now) result ≡ cond c.maker None (body_in (slice_get self.now c.decl)) }
    {
        if c.maker {
            return None;
        }
        match self.decl(c.decl) {
            Some(Decl::Def { body, .. }) => Some(body),
            _ => None,
        }
    }

    /// The declared type of a constant: of a record's former the product over its parameters, of its
    /// maker the product over parameters and fields. `None` exactly where it isn't declared.
    pub fn type_of(&self, c: ConstId) -> Result<Option<Term>, AllocError>
        ensures { IfOk result (λ t. option_map tree t ≡ type_in (slice_get self.now c.decl) c) }
    {
        match self.decl(c.decl) {
            Some(decl) => decl.type_of(self.alloc, c),
            None => Ok(None),
        }
    }

    /// Adds a declaration at the end, and answers its constant. The first of its names that is declared,
    /// or stands earlier in the declaration, is `Redeclared`, even where a count would be passed; then
    /// the first count that would be passed is `TooMany`.
    pub fn push(&mut self, decl: Decl) -> Result<ConstId, EnvRefused>
        requires { IsScopedDecl (plain decl) }
        ensures added { OnOk result (self.new ≡ self.old ++ plain decl ∷ []) }
        ensures place { IfOk result (λ c. c ≡ record { decl = length self.old; maker = false }) }
        ensures cause { IfErr result (λ e. IsCause self.old (plain decl) e) }
        ensures unchanged { OnErr result (self.new ≡ self.old) }
    {
        if let Some(name) = first_repeated(&self.table, &decl) {
            return Err(EnvRefused::Redeclared(name));
        }
        let nodes = self.nodes.saturating_add(decl.nodes());
        if let Some(count) = passed(self.decls.len(), decl.field_count(), nodes) {
            return Err(EnvRefused::TooMany(count));
        }
        let at = self.decls.len();
        self.decls.push(decl).map_err(AllocError::from)?;
        enter(&mut self.table, at as u32, &self.decls[at]);
        self.nodes = nodes;
        Ok(ConstId {
            decl: at as u32,
            maker: false,
        })
    }

    /// Keeps the first `len` declarations.
    pub fn cut(&mut self, len: u32)
        requires { len ≤ length self.old }
        ensures { self.new ≡ take len self.old }
    {
        while self.len() > len {
            self.drop_last();
        }
    }

    /// Takes the last declaration away.
    fn drop_last(&mut self)
        requires { 0 < length self.old }
        ensures { self.new ≡ take (length self.old - 1) self.old }
    {
        let last = self.decls.len() - 1;
        remove(&mut self.table, &self.decls[last]);
        self.nodes -= self.decls[last].nodes();
        self.decls.truncate(last);
    }
}

/// The first count that is passed where there are so many declarations before the next, which has so
/// many fields, and with it so many nodes.
fn passed(declared: usize, fields: usize, nodes: u64) -> Option<Count>
    ensures { CountAnswer declared fields nodes result }
{
    if declared >= MAX_DECLARATIONS {
        Some(Count::Declarations)
    } else if fields > MAX_FIELDS {
        Some(Count::Fields)
    } else if nodes > MAX_NODES {
        Some(Count::Nodes)
    } else {
        None
    }
}
