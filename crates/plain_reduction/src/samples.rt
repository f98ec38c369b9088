//! An environment to reduce in.
ghost use Rattle.std.specs.Prelude.{◌≡◌, false, true};
ghost use Rattle.hb_tree.specs.Tree.{const};
ghost use Rattle.hb_term.specs.Meaning.{tree};
ghost use Rattle.hb_calculus.specs.Scope.{IsScoped};

use hb_base::{Count, NameId};
use hb_env::{Decl, Env, EnvRefused};
use hb_term::{ConstId, Sort, Term};
use std::alloc::{AllocError, Global};

/// `N`, the type of what follows.
pub const NATURAL: u32 = 0;

/// `zero : N`.
pub const ZERO: u32 = 1;

/// `one : N`.
pub const ONE: u32 = 2;

/// `f : N -> N`.
pub const NEXT: u32 = 3;

/// `pair : N -> N -> N`.
pub const PAIR: u32 = 4;

/// `double := fun N => pair _0 _0`.
pub const DOUBLE: u32 = 5;

/// `same := fun N => _0`.
pub const SAME: u32 = 6;

/// `itself := fun N => _0 _0`; applied to itself it is never done.
pub const ITSELF: u32 = 7;

/// A record with one parameter and two fields.
pub const COUPLE: u32 = 8;

/// Another record with one parameter and two fields.
pub const OTHER: u32 = 9;

/// A record with no parameter and no field.
pub const EMPTY: u32 = 10;

/// How many declarations there are so far.
pub const DECLARED: u32 = 11;

/// A constant that is no maker.
pub fn constant(decl: u32) -> Term
    ensures { tree result ≡ const (record { decl = decl; maker = false }) }
{
    Term::Const(ConstId { decl, maker: false })
}

/// The maker of a record.
pub fn maker(decl: u32) -> Term
    ensures { tree result ≡ const (record { decl = decl; maker = true }) }
{
    Term::Const(ConstId { decl, maker: true })
}

/// An environment that is being made, with the number of the next name. Types play no part in reduction, so
/// all are `Type@{0}`.
#[derive(Drop)]
pub struct World {
    pub env: Env,
    next: u16,
}

impl World {
    /// The environment of the constants above.
    pub fn new(alloc: Global) -> Result<World, EnvRefused> {
        let mut world = World {
            env: Env::new(alloc)?,
            next: 0,
        };
        for _axiom in NATURAL..DOUBLE {
            world.assume()?;
        }
        let once = Term::app(alloc, constant(PAIR), Term::Rel(0))?;
        world.define(Term::lam(
            alloc,
            constant(NATURAL),
            Term::app(alloc, once, Term::Rel(0))?,
        )?)?;
        world.define(Term::lam(alloc, constant(NATURAL), Term::Rel(0))?)?;
        let applied = Term::app(alloc, Term::Rel(0), Term::Rel(0))?;
        world.define(Term::lam(alloc, constant(NATURAL), applied)?)?;
        world.couple(alloc)?;
        world.couple(alloc)?;
        world.empty(alloc)?;
        Ok(world)
    }

    /// A name that no declaration has yet.
    fn name(&mut self) -> Result<NameId, EnvRefused> {
        let name = NameId(self.next);
        match self.next.checked_add(1) {
            Some(next) => {
                self.next = next;
                Ok(name)
            }
            None => Err(EnvRefused::TooMany(Count::Names)),
        }
    }

    /// Declares a constant without a body.
    pub fn assume(&mut self) -> Result<ConstId, EnvRefused> {
        let name = self.name()?;
        self.env.push(Decl::Axiom {
            name,
            ty: Term::Sort(Sort::Level(0)),
        })
    }

    /// Declares a constant with the body.
    pub fn define(&mut self, body: Term) -> Result<ConstId, EnvRefused>
        requires { IsScoped 0 (tree body) }
    {
        let name = self.name()?;
        self.env.push(Decl::Def {
            name,
            ty: Term::Sort(Sort::Level(0)),
            body,
        })
    }

    /// Declares `count` constants, each as the one before, and the first as `first`.
    pub fn chain(&mut self, first: ConstId, count: u32) -> Result<ConstId, EnvRefused> {
        let mut last = first;
        for _link in 0..count {
            last = self.define(Term::Const(last))?;
        }
        Ok(last)
    }

    /// Declares a record with one parameter and two fields.
    fn couple(&mut self, alloc: Global) -> Result<ConstId, EnvRefused> {
        let name = self.name()?;
        let maker = self.name()?;
        let mut params = Vec::new(alloc);
        params
            .push(Term::Sort(Sort::Level(0)))
            .map_err(AllocError::from)?;
        let mut fields = Vec::new(alloc);
        fields
            .push((self.name()?, Term::Sort(Sort::Level(0))))
            .map_err(AllocError::from)?;
        fields
            .push((self.name()?, Term::Sort(Sort::Level(0))))
            .map_err(AllocError::from)?;
        self.env.push(Decl::Record {
            name,
            maker,
            params,
            level: 1,
            fields,
        })
    }

    /// Declares a record with nothing.
    fn empty(&mut self, alloc: Global) -> Result<ConstId, EnvRefused> {
        let name = self.name()?;
        let maker = self.name()?;
        self.env.push(Decl::Record {
            name,
            maker,
            params: Vec::new(alloc),
            level: 0,
            fields: Vec::new(alloc),
        })
    }
}
