//! From entries to bytes.
use crate::order::Order;
use crate::put::{put_byte, put_count, put_number, put_short, put_short_count};
use hb_base::{NameId, Names};
use hb_env::{Decl, Entry, Head};
use hb_term::{Sort, Term, View};
use std::alloc::{AllocError, Global};

/// The library of the entries, of version 2. The entries are such as a library may hold: names are held,
/// no head is that of a core text, no term has a hole. Out of memory is the one error.
pub fn encode(alloc: Global, names: &Names, entries: &[Entry]) -> Result<Vec<u8>, AllocError> {
    let mut order = Order::new(alloc)?;
    for entry in entries {
        order.take_entry(entry)?;
    }
    let mut out = Vec::new(alloc);
    out.extend_from_slice(b"HBLIB002")?;
    put_names(&mut out, names, order.names())?;
    put_count(&mut out, entries.len())?;
    for entry in entries {
        put_entry(&mut out, &order, entry)?;
    }
    Ok(out)
}

/// The table of names.
pub fn put_names(out: &mut Vec<u8>, names: &Names, used: &[NameId]) -> Result<(), AllocError> {
    put_count(out, used.len())?;
    for name in used {
        put_text(out, names, *name)?;
    }
    Ok(())
}

/// The text of a name behind its length. A name that isn't held has none.
fn put_text(out: &mut Vec<u8>, names: &Names, name: NameId) -> Result<(), AllocError> {
    if usize::from(name.0) >= names.len() {
        return Err(AllocError);
    }
    let text = names.text(name).as_bytes();
    put_short_count(out, text.len())?;
    out.extend_from_slice(text)?;
    Ok(())
}

/// An entry: its head, and its declarations behind their count.
fn put_entry(out: &mut Vec<u8>, order: &Order, entry: &Entry) -> Result<(), AllocError> {
    put_head(out, order, &entry.head)?;
    put_count(out, entry.decls.len())?;
    for decl in &entry.decls {
        put_decl(out, order, decl)?;
    }
    Ok(())
}

/// A head. That of a core text is a byte that no library has.
fn put_head(out: &mut Vec<u8>, order: &Order, head: &Head) -> Result<(), AllocError> {
    match head {
        Head::Core => put_byte(out, 0),
        Head::Axiom => put_byte(out, 1),
        Head::Definition => put_byte(out, 2),
        Head::Mixin { items } => {
            put_byte(out, 3)?;
            put_items(out, order, items)
        }
        Head::Factory { items } => {
            put_byte(out, 4)?;
            put_items(out, order, items)
        }
        Head::Builders {
            factory,
            carrier,
            var,
        } => {
            put_byte(out, 5)?;
            put_short(out, order.place(*factory))?;
            put_short(out, order.place(*carrier))?;
            put_optional(out, order, *var)
        }
        Head::End => put_byte(out, 6),
        Head::Structure { name, items } => {
            put_byte(out, 7)?;
            put_short(out, order.place(*name))?;
            put_items(out, order, items)
        }
        Head::Instance {
            factory,
            carrier,
            binders,
        } => {
            put_byte(out, 8)?;
            put_short(out, order.place(*factory))?;
            put_short(out, order.place(*carrier))?;
            put_binders(out, order, binders)
        }
        Head::Require { name } => {
            put_byte(out, 9)?;
            put_short(out, order.place(*name))
        }
    }
}

/// Names behind their count.
fn put_items(out: &mut Vec<u8>, order: &Order, items: &[NameId]) -> Result<(), AllocError> {
    put_count(out, items.len())?;
    for item in items {
        put_short(out, order.place(*item))?;
    }
    Ok(())
}

/// A name behind a 1, or a 0 without one.
fn put_optional(out: &mut Vec<u8>, order: &Order, name: Option<NameId>) -> Result<(), AllocError> {
    match name {
        None => put_byte(out, 0),
        Some(name) => {
            put_byte(out, 1)?;
            put_short(out, order.place(name))
        }
    }
}

/// The structures of binders behind their count.
fn put_binders(
    out: &mut Vec<u8>,
    order: &Order,
    binders: &[Option<NameId>],
) -> Result<(), AllocError> {
    put_short_count(out, binders.len())?;
    for binder in binders {
        put_optional(out, order, *binder)?;
    }
    Ok(())
}

/// A declaration.
pub fn put_decl(out: &mut Vec<u8>, order: &Order, decl: &Decl) -> Result<(), AllocError> {
    match decl {
        Decl::Axiom { name, ty } => {
            put_byte(out, 0)?;
            put_short(out, order.place(*name))?;
            put_term(out, ty)
        }
        Decl::Def { name, ty, body } => {
            put_byte(out, 1)?;
            put_short(out, order.place(*name))?;
            put_term(out, ty)?;
            put_term(out, body)
        }
        Decl::Record {
            name,
            maker,
            params,
            level,
            fields,
        } => {
            put_byte(out, 2)?;
            put_short(out, order.place(*name))?;
            put_short(out, order.place(*maker))?;
            put_types(out, params)?;
            put_byte(out, *level)?;
            put_fields(out, order, fields)
        }
    }
}

/// Types behind their count.
fn put_types(out: &mut Vec<u8>, types: &[Term]) -> Result<(), AllocError> {
    put_short_count(out, types.len())?;
    for ty in types {
        put_term(out, ty)?;
    }
    Ok(())
}

/// Fields behind their count.
fn put_fields(
    out: &mut Vec<u8>,
    order: &Order,
    fields: &[(NameId, Term)],
) -> Result<(), AllocError> {
    put_short_count(out, fields.len())?;
    for field in fields {
        put_short(out, order.place(field.0))?;
        put_term(out, &field.1)?;
    }
    Ok(())
}

/// A term: its root, then its parts in order.
fn put_term(out: &mut Vec<u8>, term: &Term) -> Result<(), AllocError> {
    match term.view() {
        View::Sort(sort) => put_sort(out, sort),
        View::Rel(variable) => {
            put_byte(out, 2)?;
            put_number(out, variable)
        }
        View::Pi(domain, codomain) => {
            put_byte(out, 3)?;
            put_term(out, domain)?;
            put_term(out, codomain)
        }
        View::Lam(domain, body) => {
            put_byte(out, 4)?;
            put_term(out, domain)?;
            put_term(out, body)
        }
        View::App(function, argument) => {
            put_byte(out, 5)?;
            put_term(out, function)?;
            put_term(out, argument)
        }
        View::Const(constant) => {
            put_byte(out, if constant.maker { 7 } else { 6 })?;
            put_number(out, constant.decl)
        }
        View::Proj(rec, field, of) => {
            put_byte(out, 8)?;
            put_number(out, rec.0)?;
            put_short(out, field)?;
            put_term(out, of)
        }
        View::Hole(_) => put_byte(out, 0),
    }
}

/// A sort.
fn put_sort(out: &mut Vec<u8>, sort: Sort) -> Result<(), AllocError> {
    match sort {
        Sort::Prop => put_byte(out, 0),
        Sort::Level(level) => {
            put_byte(out, 1)?;
            put_byte(out, level)
        }
    }
}
