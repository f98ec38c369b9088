//! The table of names: what each stands for, at the place of its number.
ghost use Rattle.std.specs.Prelude.{◌≡◌, ◌≤◌, List, ◌<◌, ◌++◌, ℕ, length, Some, None, slice_get, take, drop, MatchOption, IsTrue, ◌↔◌};
ghost use Rattle.hb_calculus.specs.Declarations as calculus;
ghost use Rattle.hb_calculus.specs.Declarations.{names, names_of, fields_of, Distinct, IsIn};
ghost use Rattle.hb_env.specs.Plain.{plain};
ghost use Rattle.hb_env.specs.Table.{IsTable, RepeatAnswer, role, entered, removed};

use crate::decl::Decl;
use crate::named::Named;
use hb_base::NameId;
use hb_term::{ConstId, RecId};

/// What name number `at` of the declaration at the place `decl` stands for.
fn role_of(decl: u32, at: usize) -> Named
    requires { at ≤ 256 }
    ensures { result ≡ role decl at }
{
    match at {
        0 => Named::Const(ConstId { decl, maker: false }),
        1 => Named::Const(ConstId { decl, maker: true }),
        _ => Named::Proj(RecId(decl), (at - 2) as u16),
    }
}

/// Whether one of the first `end` names of the declaration is `name`.
fn stands_before(decl: &Decl, end: usize, name: NameId) -> bool
    requires { end ≤ length (names_of (plain decl.now)) }
    ensures { IsTrue result ↔ IsIn name.0 (take end (names_of (plain decl.now))) }
{
    for at in 0..end {
        if decl.name_at(at) == name {
            return true;
        }
    }
    false
}

/// The first name of the declaration that is in the table, or stands earlier in the declaration.
pub(crate) fn first_repeated(table: &[Option<Named>], decl: &Decl) -> Option<NameId>
    requires { length table.now ≡ 65536 }
    ensures { (E : List calculus.Decl) → IsTable E table.now → Distinct (names E) → RepeatAnswer (names E) (names_of (plain decl.now)) result }
{
    for at in 0..decl.name_count() {
        let name = decl.name_at(at);
        if table[usize::from(name.0)].is_some() || stands_before(decl, at, name) {
            return Some(name);
        }
    }
    None
}

/// Enters the names of the declaration at the place `at`.
pub(crate) fn enter(table: &mut [Option<Named>], at: u32, decl: &Decl)
    requires full { length table.old ≡ 65536 }
    requires few { fields_of (plain decl.now) ≤ 255 }
    ensures entered { table.new ≡ entered at (names_of (plain decl.now)) (length (names_of (plain decl.now))) table.old }
{
    for i in 0..decl.name_count() {
        table[usize::from(decl.name_at(i).0)] = Some(role_of(at, i));
    }
}

/// Takes the names of the declaration out.
pub(crate) fn remove(table: &mut [Option<Named>], decl: &Decl)
    requires { length table.old ≡ 65536 }
    ensures { table.new ≡ removed (names_of (plain decl.now)) (length (names_of (plain decl.now))) table.old }
{
    for i in 0..decl.name_count() {
        table[usize::from(decl.name_at(i).0)] = None;
    }
}
