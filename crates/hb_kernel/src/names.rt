//! Names that are declared before.
ghost use Rattle.std.specs.Prelude.{◌≤◌, ◌↔◌, length, take, IsTrue};
ghost use Rattle.hb_calculus.specs.Declarations.{names, names_of, IsIn};
ghost use Rattle.hb_env.specs.Plain.{plain};
ghost use Rattle.hb_env.specs.Table.{RepeatAnswer};

use hb_base::NameId;
use hb_env::{Decl, Env};

/// The first name of the declaration that is declared, or stands earlier in it.
pub(crate) fn first_repeated(env: &Env, decl: &Decl) -> Option<NameId>
    ensures { RepeatAnswer (names env.now) (names_of (plain decl.now)) result }
{
    let _count = env.len();
    for at in 0..decl.name_count() {
        let name = decl.name_at(at);
        if is_declared(env, name) || stands_before(decl, at, name) {
            return Some(name);
        }
    }
    None
}

/// Whether the name is declared.
fn is_declared(env: &Env, name: NameId) -> bool
    ensures { IsTrue result ↔ IsIn name.0 (names env.now) }
{
    match env.lookup(name) {
        Some(_) => true,
        None => false,
    }
}

/// Whether one of the first `end` names of the declaration is `name`.
fn stands_before(decl: &Decl, end: usize, name: NameId) -> bool
    requires { end ≤ length (names_of (plain decl.now)) }
    ensures { IsTrue result ↔ IsIn name.0 (take end (names_of (plain decl.now))) }
{
    for at in 0..end {
        if decl.name_at(at) == name {
            return true;
        }
    }
    false
}
