//! The order in which entries use names.
use hb_base::NameId;
use hb_env::{Decl, Entry, Head};
use std::alloc::{AllocError, Global};

/// How many numbers of names there are.
const NAMES: usize = 65_536;

/// The names that were used so far in the order of first use, each with its place there.
#[derive(Drop)]
pub struct Order {
    used: Vec<NameId>,
    places: Vec<Option<u16>>,
}

impl Order {
    /// No names.
    pub fn new(alloc: Global) -> Result<Order, AllocError> {
        let mut places = Vec::with_capacity(alloc, NAMES)?;
        for _i in 0..NAMES {
            places.push(None)?;
        }
        Ok(Order {
            used: Vec::new(alloc),
            places,
        })
    }

    /// The names in the order of first use.
    pub fn names(&self) -> &[NameId] {
        self.used.as_slice()
    }

    /// The place of a name in the order; 0 for a name that wasn't used.
    pub fn place(&self, name: NameId) -> u16 {
        match self.places.get(usize::from(name.0)) {
            Some(Some(place)) => *place,
            _ => 0,
        }
    }

    /// A name is used.
    fn take(&mut self, name: NameId) -> Result<(), AllocError> {
        let place = self.used.len();
        if let Some(slot) = self.places.get_mut(usize::from(name.0)) {
            if slot.is_none() {
                *slot = u16::try_from(place).ok();
                self.used.push(name)?;
            }
        }
        Ok(())
    }

    /// Names are used one after another.
    fn take_all(&mut self, names: &[NameId]) -> Result<(), AllocError> {
        for name in names {
            self.take(*name)?;
        }
        Ok(())
    }

    /// The names of an entry are used: the head's, then those of its declarations.
    pub fn take_entry(&mut self, entry: &Entry) -> Result<(), AllocError> {
        self.take_head(&entry.head)?;
        for decl in &entry.decls {
            self.take_decl(decl)?;
        }
        Ok(())
    }

    /// The names of a head are used.
    fn take_head(&mut self, head: &Head) -> Result<(), AllocError> {
        match head {
            Head::Core | Head::Axiom | Head::Definition | Head::End => Ok(()),
            Head::Mixin { items } | Head::Factory { items } => self.take_all(items),
            Head::Builders {
                factory,
                carrier,
                var,
            } => {
                self.take(*factory)?;
                self.take(*carrier)?;
                self.take_optional(*var)
            }
            Head::Structure { name, items } => {
                self.take(*name)?;
                self.take_all(items)
            }
            Head::Instance {
                factory,
                carrier,
                binders,
            } => {
                self.take(*factory)?;
                self.take(*carrier)?;
                self.take_binders(binders)
            }
            Head::Require { name } => self.take(*name),
        }
    }

    /// A name is used, if there is one.
    fn take_optional(&mut self, name: Option<NameId>) -> Result<(), AllocError> {
        match name {
            Some(name) => self.take(name),
            None => Ok(()),
        }
    }

    /// The names of the structures of binders are used.
    fn take_binders(&mut self, binders: &[Option<NameId>]) -> Result<(), AllocError> {
        for binder in binders {
            self.take_optional(*binder)?;
        }
        Ok(())
    }

    /// The names of a declaration are used.
    pub fn take_decl(&mut self, decl: &Decl) -> Result<(), AllocError> {
        match decl {
            Decl::Axiom { name, .. } | Decl::Def { name, .. } => self.take(*name),
            Decl::Record {
                name,
                maker,
                fields,
                ..
            } => {
                self.take(*name)?;
                self.take(*maker)?;
                for field in fields {
                    self.take(field.0)?;
                }
                Ok(())
            }
        }
    }
}
