//! What the names of a text stand for.
use hb_base::NameId;
use hb_env::{Decl, Named};
use hb_term::{ConstId, RecId, Term};
use std::alloc::{AllocError, Global};

/// How many numbers of names there are.
const NAMES: usize = 65_536;

/// What the names of a text stand for: a name that is declared twice stands for its last declaration.
#[derive(Drop)]
pub struct Table {
    named: Vec<Option<Named>>,
    count: u32,
}

impl Table {
    /// No names.
    pub fn new(alloc: Global) -> Result<Table, AllocError> {
        let mut named = Vec::with_capacity(alloc, NAMES)?;
        for _i in 0..NAMES {
            named.push(None)?;
        }
        Ok(Table { named, count: 0 })
    }

    /// What a name stands for so far.
    pub fn get(&self, name: NameId) -> Option<Named> {
        match self.named.get(usize::from(name.0)) {
            Some(Some(named)) => Some(*named),
            _ => None,
        }
    }

    /// Takes the names of one more declaration.
    pub fn declare(&mut self, decl: &Decl) {
        let decl_number = self.count;
        match decl {
            Decl::Axiom { name, .. } | Decl::Def { name, .. } => {
                self.set(*name, constant(decl_number, false));
            }
            Decl::Record {
                name,
                maker,
                fields,
                ..
            } => {
                self.set(*name, constant(decl_number, false));
                self.set(*maker, constant(decl_number, true));
                self.set_fields(fields);
            }
        }
        self.count = self.count.saturating_add(1);
    }

    /// Takes the names of fields of the next record.
    fn set_fields(&mut self, fields: &[(NameId, Term)]) {
        let mut number: u16 = 0;
        for field in fields {
            self.set(field.0, Named::Proj(RecId(self.count), number));
            number = number.saturating_add(1);
        }
    }

    /// A name stands for this from now on.
    fn set(&mut self, name: NameId, named: Named) {
        if let Some(slot) = self.named.get_mut(usize::from(name.0)) {
            *slot = Some(named);
        }
    }
}

/// A declared constant, or a record's maker.
fn constant(decl: u32, maker: bool) -> Named {
    Named::Const(ConstId { decl, maker })
}
