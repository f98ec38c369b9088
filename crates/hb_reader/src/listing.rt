//! Items and fields.
ghost use Rattle.std.specs.Prelude.{◌≡◌, map, IfOk, option_map};
ghost use Rattle.hb_raw.specs.Views.{field};
ghost use Rattle.hb_grammar.specs.Leaf as leaf;
ghost use Rattle.hb_grammar.specs.Machine as plain;
ghost use Rattle.hb_reader.specs.declared.listing.ListState.TheVariants as lists;
ghost use Rattle.hb_reader.specs.Needs.{is_row};
ghost use Rattle.hb_reader.specs.Signs.{sign};
ghost use Rattle.hb_reader.specs.States.{kind, listing, list_state};
ghost use Rattle.hb_reader.specs.Views.{record_of};

use super::frame::{Base, RecordOf};
use super::kind::{Kind, finish};
use super::marks::same;
use super::sign::Sign;
use super::term::want_on;
use hb_base::Span;
use hb_grammar::Mark;
use hb_raw::{CommandKind, Field, Item, Word};
use std::alloc::{AllocError, Global};

/// What has items: a mixin or factory, or a structure.
#[derive(Clone, Copy)]
pub enum Listing {
    Record {
        is_factory: bool,
        start: Span,
        name: Word,
        carrier: Word,
    },
    Structure {
        start: Span,
        name: Word,
        carrier: Word,
    },
}

/// A place among items or fields.
#[derive(Drop)]
pub enum ListState {
    /// An item has to come.
    Factory(Listing, Vec<Item>),
    Carrier(Listing, Vec<Item>, Word),
    Items(Listing, Vec<Item>),
    /// Behind an `&` of a structure: an item, or `}`.
    ItemOrEnd(Span, Word, Word, Vec<Item>),
    /// The `{` before fields.
    Brace(RecordOf),
    Fields(RecordOf, Vec<Field>),
    /// Behind the name of a field.
    Colon(RecordOf, Vec<Field>, Word),
}

/// Behind the fields of a mixin or factory.
pub fn record_ends(r: RecordOf, fields: Vec<Field>) -> Kind
    ensures { kind result ≡ plain.record_ends (record_of r) (map field fields.items) }
{
    let RecordOf {
        is_factory,
        start,
        name,
        carrier,
        items,
    } = r;
    let command = if is_factory {
        CommandKind::Factory {
            name,
            carrier,
            items,
            fields,
        }
    } else {
        CommandKind::Mixin {
            name,
            carrier,
            items,
            fields,
        }
    };
    finish(start, command)
}

/// Behind the items of a structure.
fn structure_ends(start: Span, name: Word, carrier: Word, items: Vec<Item>) -> Kind
    ensures { kind result ≡ plain.structure_ends start name carrier items.items }
{
    let command = CommandKind::Structure {
        name,
        carrier,
        items,
    };
    finish(start, command)
}

/// The factory of an item.
fn after_factory(of: Listing, items: Vec<Item>, mark: Mark, token: Sign) -> Option<Kind>
    ensures { option_map kind result ≡ plain.step (plain.item_begins (listing of) items.items) mark (sign token) }
{
    if same(Mark::Ident, mark) {
        Some(Kind::List(ListState::Carrier(of, items, token.word())))
    } else {
        None
    }
}

/// The carrier of an item.
fn after_carrier(
    of: Listing,
    mut items: Vec<Item>,
    factory: Word,
    mark: Mark,
    token: Sign,
) -> Result<Option<Kind>, AllocError>
    ensures { IfOk result (λ o. option_map kind o ≡ plain.step (list_state (lists.Carrier of items factory)) mark (sign token)) }
{
    if same(Mark::Ident, mark) {
        let carrier = token.word();
        items.push(Item { factory, carrier })?;
        Ok(Some(Kind::List(ListState::Items(of, items))))
    } else {
        Ok(None)
    }
}

/// Behind an item.
fn after_items(of: Listing, items: Vec<Item>, mark: Mark) -> Option<Kind>
    ensures { option_map kind result ≡ plain.after_items (listing of) items.items mark }
{
    match of {
        Listing::Record {
            is_factory,
            start,
            name,
            carrier,
        } => match mark {
            Mark::Ampersand => {
                let of = Listing::Record {
                    is_factory,
                    start,
                    name,
                    carrier,
                };
                Some(Kind::List(ListState::Factory(of, items)))
            }
            Mark::Becomes => {
                let of = RecordOf {
                    is_factory,
                    start,
                    name,
                    carrier,
                    items,
                };
                Some(Kind::List(ListState::Brace(of)))
            }
            _ => None,
        },
        Listing::Structure {
            start,
            name,
            carrier,
        } => match mark {
            Mark::Ampersand => {
                Some(Kind::List(ListState::ItemOrEnd(start, name, carrier, items)))
            }
            Mark::Unbrace => Some(structure_ends(start, name, carrier, items)),
            _ => None,
        },
    }
}

/// Behind an `&` of a structure.
fn item_or_end(
    start: Span,
    name: Word,
    carrier: Word,
    items: Vec<Item>,
    mark: Mark,
    token: Sign,
) -> Option<Kind>
    ensures { option_map kind result ≡ plain.step (list_state (lists.ItemOrEnd start name carrier items)) mark (sign token) }
{
    if same(Mark::Ident, mark) {
        let of = Listing::Structure {
            start,
            name,
            carrier,
        };
        Some(Kind::List(ListState::Carrier(of, items, token.word())))
    } else if same(Mark::Unbrace, mark) {
        Some(structure_ends(start, name, carrier, items))
    } else {
        None
    }
}

/// The `{` before fields.
fn after_brace(alloc: Global, r: RecordOf, mark: Mark) -> Option<Kind>
    ensures { (w : leaf.Sign) → option_map kind result ≡ plain.step (plain.fields_begin (record_of r)) mark w }
{
    if same(Mark::Brace, mark) {
        Some(Kind::List(ListState::Fields(r, Vec::new(alloc))))
    } else {
        None
    }
}

/// Behind a field, or before the first.
fn after_fields(r: RecordOf, fields: Vec<Field>, mark: Mark, token: Sign) -> Option<Kind>
    ensures { option_map kind result ≡ plain.after_fields (record_of r) (map field fields.items) mark (sign token) }
{
    match mark {
        Mark::Ident => Some(Kind::List(ListState::Colon(r, fields, token.word()))),
        Mark::Unbrace => Some(record_ends(r, fields)),
        _ => None,
    }
}

/// Behind the name of a field.
fn after_field_name(
    alloc: Global,
    r: RecordOf,
    fields: Vec<Field>,
    name: Word,
    mark: Mark,
) -> Option<Kind>
    ensures { (w : leaf.Sign) → option_map kind result ≡ plain.step (list_state (lists.Colon r fields name)) mark w }
{
    if same(Mark::Colon, mark) {
        Some(want_on(alloc, Base::FieldType(r, fields, name)))
    } else {
        None
    }
}

impl ListState {
    /// What comes behind a token; `None` where there is no way on.
    pub fn after(self, alloc: Global, mark: Mark, token: Sign) -> Result<Option<Kind>, AllocError>
        ensures { IfOk result (λ o. option_map kind o ≡ plain.step (list_state self) mark (sign token)) }
    {
        match self {
            ListState::Factory(l, is) => Ok(after_factory(l, is, mark, token)),
            ListState::Carrier(l, is, f) => after_carrier(l, is, f, mark, token),
            ListState::Items(l, is) => Ok(after_items(l, is, mark)),
            ListState::ItemOrEnd(x, n, c, is) => Ok(item_or_end(x, n, c, is, mark, token)),
            ListState::Brace(r) => Ok(after_brace(alloc, r, mark)),
            ListState::Fields(r, fs) => Ok(after_fields(r, fs, mark, token)),
            ListState::Colon(r, fs, f) => Ok(after_field_name(alloc, r, fs, f, mark)),
        }
    }

    /// Whether a known token has to come.
    pub fn is_row(&self) -> bool
        ensures { result ≡ is_row (list_state self.now) }
    {
        match self {
            ListState::Factory(_, _) | ListState::Carrier(_, _, _) => true,
            ListState::ItemOrEnd(_, _, _, _) | ListState::Brace(_) => true,
            ListState::Colon(_, _, _) => true,
            ListState::Items(_, _) | ListState::Fields(_, _) => false,
        }
    }
}
