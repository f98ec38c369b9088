//! The rows of the table of joins.
ghost use Rattle.std.specs.Prelude.{◌≡◌, ◌<◌, [], length, IfOk};
ghost use Rattle.std.specs.Vec.{vec_len, vec_capacity};
ghost use Rattle.hb_sets.specs.Set.{is_subset};
ghost use Rattle.hb_order.specs.Heirs.{mix};
ghost use Rattle.hb_joins.specs.Changes.{IsChanged};
ghost use Rattle.hb_joins.specs.Table.{entry_at, row_at, new_entry, filled, kept, IsNewRow, IsFilled, IsCut};

use hb_order::StructId;
use hb_sets::MixSet;
use std::alloc::{AllocError, Global};
use std::marker::Model;

/// The joins of a structure with each one up to it.
#[derive(Drop)]
pub(crate) struct Row {
    entries: Vec<Option<StructId>>,
}

impl Model for Row {
    ghost use Rattle.std.specs.Prelude.{List, Option};
    ghost use Rattle.hb_order.specs.declared.ids.StructId.{StructId};

    ghost Value = { List (Option StructId) };

    ghost view = { λ r. r.entries.items };
}

impl Row {
    /// The entry at the place. None past the end.
    fn entry(&self, at: usize) -> Option<StructId>
        ensures { result ≡ entry_at self.now at }
    {
        self.entries.get(at).copied().flatten()
    }

    /// Joins that were missing become the new structure, where it is an heir of both. `new` is its row,
    /// and this one is that of structure `b`.
    fn fill(&mut self, new: &Row, b: usize)
        ensures { IsFilled new.now b self.old self.new }
    {
        let right = new.entry(b);
        if right.is_none() {
            return;
        }
        for a in 0..self.entries.len() {
            self.entries[a] = filled_entry(self.entries[a], new.entry(a), right);
        }
    }

    /// Joins from structure `n` on become none.
    fn cut(&mut self, n: u16)
        ensures { IsCut n self.old self.new }
    {
        for a in 0..self.entries.len() {
            self.entries[a] = kept_entry(self.entries[a], n);
        }
    }
}

/// What an entry becomes, where the new structure is the join with the two, or none is.
fn filled_entry(
    was: Option<StructId>,
    left: Option<StructId>,
    right: Option<StructId>,
) -> Option<StructId>
    ensures { result ≡ filled was left right }
{
    match was {
        Some(j) => Some(j),
        None => match left {
            Some(_i) => right,
            None => None,
        },
    }
}

/// The entry, where it is before `n`.
fn kept_entry(was: Option<StructId>, n: u16) -> Option<StructId>
    ensures { result ≡ kept n was }
{
    match was {
        Some(j) if j.0 < n => Some(j),
        _ => None,
    }
}

/// The row of a new structure with the set.
pub(crate) fn new_row(alloc: Global, sets: &Vec<MixSet>, set: &MixSet) -> Result<Row, AllocError>
    requires { length sets.now.items < 1024 }
    ensures { IfOk result (λ r. IsNewRow sets.now.items set.now r) }
{
    let mut entries = Vec::new(alloc);
    for a in 0..sets.len() {
        entries.push(new_row_entry(sets, a, set))?;
    }
    entries.push(Some(StructId(sets.len() as u16)))?;
    Ok(Row { entries })
}

/// The join of `a` with a new structure that has the set.
fn new_row_entry(sets: &Vec<MixSet>, a: usize, set: &MixSet) -> Option<StructId>
    requires few { length sets.now.items < 1024 }
    requires declared { a < length sets.now.items }
    ensures { result ≡ new_entry (length sets.now.items) (is_subset (mix sets.now.items a) set.now) }
{
    let held = &sets[a];
    if held.subset(set) {
        Some(StructId(sets.len() as u16))
    } else {
        None
    }
}

/// The entry of `a` in the row of `b`.
pub(crate) fn entry_of(rows: &Vec<Row>, a: StructId, b: StructId) -> Option<StructId>
    requires { b.0 < length rows.now.items }
    ensures { result ≡ entry_at (row_at rows.now.items b.0) a.0 }
{
    rows[usize::from(b.0)].entry(usize::from(a.0))
}

/// Joins that were missing become the new structure, where it is an heir of both. `new` is its row.
pub(crate) fn fill_rows(rows: &mut Vec<Row>, new: &Row)
    ensures filled { IsChanged (IsFilled new.now) [] rows.old.items rows.new.items (length rows.old.items) }
    ensures count { vec_len rows.new ≡ vec_len rows.old }
    ensures room { vec_capacity rows.new ≡ vec_capacity rows.old }
{
    for b in 0..rows.len() {
        rows[b].fill(new, b);
    }
}

/// Joins from structure `n` on become none.
pub(crate) fn cut_rows(rows: &mut Vec<Row>, n: u16)
    ensures { IsChanged (λ b. IsCut n) [] rows.old.items rows.new.items (length rows.old.items) }
{
    for b in 0..rows.len() {
        rows[b].cut(n);
    }
}
