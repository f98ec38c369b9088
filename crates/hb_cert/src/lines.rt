//! The lines of a declaration, read and judged one after another.
ghost use Rattle.std.specs.Prelude.{IfOk, OnOk};
ghost use Rattle.hb_strict.specs.Tables.{IsTable, Keeps, KeepsIn, Follows, IsTypeOf};

use crate::refused::VerifyRefused;
use hb_env::{Decl, Env};
use hb_libfile::Decoder;
use hb_strict::{Link, Table};
use hb_term::{ConstId, RecId, Sort};
use std::alloc::Global;

/// The lines behind their count.
pub(crate) fn lines(
    alloc: Global,
    decoder: &mut Decoder<'_>,
    env: &Env,
) -> Result<Table, VerifyRefused>
    ensures { IfOk result (λ t. IsTable env.now t) }
{
    let mut table = Table::new(alloc);
    let count = decoder.reader.number()?;
    for _at in 0..count {
        line(alloc, decoder, env, &mut table)?;
    }
    Ok(table)
}

/// The item at the place isn't as it has to be.
pub(crate) fn bad<T>(at: u32) -> Result<T, VerifyRefused>
    ensures { OnOk result ⊥ }
{
    Err(VerifyRefused::BadCertificate { at })
}

/// What was made, or the fault at the place.
fn made(made: Option<u32>, at: u32) -> Result<(), VerifyRefused> {
    match made {
        Some(_line) => Ok(()),
        None => bad(at),
    }
}

/// A line.
fn line(
    alloc: Global,
    decoder: &mut Decoder<'_>,
    env: &Env,
    table: &mut Table,
) -> Result<(), VerifyRefused>
    ensures { OnOk result (KeepsIn env.now table.old table.new) }
{
    let at = decoder.reader.at();
    match decoder.reader.byte()? {
        0 => extension(decoder, table),
        1 => sort(decoder, table),
        2 => variable(alloc, decoder, table),
        3 => constant(decoder, env, table),
        4 => product(alloc, decoder, table),
        5 => function(alloc, decoder, table),
        6 => application(alloc, decoder, table),
        7 => projection(alloc, decoder, env, table),
        8 => conversion(alloc, decoder, env, table),
        _ => bad(at),
    }
}

/// The number of a context.
fn context(decoder: &mut Decoder<'_>, table: &Table) -> Result<u32, VerifyRefused> {
    let at = decoder.reader.at();
    let context = decoder.reader.number()?;
    match table.size(context) {
        Some(_size) => Ok(context),
        None => bad(at),
    }
}

/// The number of a line with a term.
fn typed(decoder: &mut Decoder<'_>, table: &Table) -> Result<u32, VerifyRefused> {
    let at = decoder.reader.at();
    let line = decoder.reader.number()?;
    match table.line(line) {
        Some(_typed) => Ok(line),
        None => bad(at),
    }
}

/// The number of a line whose term is a type.
fn type_line(decoder: &mut Decoder<'_>, table: &Table) -> Result<u32, VerifyRefused> {
    let at = decoder.reader.at();
    let line = decoder.reader.number()?;
    match table.sort_of(line) {
        Some(_sort) => Ok(line),
        None => bad(at),
    }
}

fn extension(decoder: &mut Decoder<'_>, table: &mut Table) -> Result<(), VerifyRefused>
    ensures { OnOk result (Keeps table.old table.new) }
{
    let context = context(decoder, table)?;
    let at = decoder.reader.at();
    let line = decoder.reader.number()?;
    made(table.extend(context, line)?, at)
}

fn sort(decoder: &mut Decoder<'_>, table: &mut Table) -> Result<(), VerifyRefused>
    ensures { OnOk result (Keeps table.old table.new) }
{
    let context = context(decoder, table)?;
    let at = decoder.reader.at();
    match decoder.reader.byte()? {
        0 => made(table.sort(context, Sort::Prop)?, at),
        1 => {
            let at = decoder.reader.at();
            let level = decoder.reader.byte()?;
            made(table.sort(context, Sort::Level(level))?, at)
        }
        _ => bad(at),
    }
}

fn variable(
    alloc: Global,
    decoder: &mut Decoder<'_>,
    table: &mut Table,
) -> Result<(), VerifyRefused>
    ensures { OnOk result (Keeps table.old table.new) }
{
    let context = context(decoder, table)?;
    let at = decoder.reader.at();
    let variable = decoder.reader.number()?;
    made(table.variable(alloc, context, variable)?, at)
}

fn constant(decoder: &mut Decoder<'_>, env: &Env, table: &mut Table) -> Result<(), VerifyRefused>
    ensures { OnOk result (KeepsIn env.now table.old table.new) }
{
    let context = context(decoder, table)?;
    let at = decoder.reader.at();
    let maker = match decoder.reader.byte()? {
        6 => false,
        7 => true,
        _ => return bad(at),
    };
    let at = decoder.reader.at();
    let decl = decoder.reader.number()?;
    made(table.constant(env, context, ConstId { decl, maker })?, at)
}

fn product(alloc: Global, decoder: &mut Decoder<'_>, table: &mut Table) -> Result<(), VerifyRefused>
    ensures { OnOk result (Keeps table.old table.new) }
{
    let domain = type_line(decoder, table)?;
    let at = decoder.reader.at();
    let codomain = decoder.reader.number()?;
    made(table.product(alloc, domain, codomain)?, at)
}

fn function(
    alloc: Global,
    decoder: &mut Decoder<'_>,
    table: &mut Table,
) -> Result<(), VerifyRefused>
    ensures { OnOk result (Keeps table.old table.new) }
{
    let domain = type_line(decoder, table)?;
    let at = decoder.reader.at();
    let body = decoder.reader.number()?;
    made(table.function(alloc, domain, body)?, at)
}

fn application(
    alloc: Global,
    decoder: &mut Decoder<'_>,
    table: &mut Table,
) -> Result<(), VerifyRefused>
    ensures { OnOk result (Keeps table.old table.new) }
{
    let at = decoder.reader.at();
    let function = decoder.reader.number()?;
    if !table.is_function(function) {
        return bad(at);
    }
    let at = decoder.reader.at();
    let argument = decoder.reader.number()?;
    made(table.application(alloc, function, argument)?, at)
}

fn projection(
    alloc: Global,
    decoder: &mut Decoder<'_>,
    env: &Env,
    table: &mut Table,
) -> Result<(), VerifyRefused>
    ensures { OnOk result (KeepsIn env.now table.old table.new) }
{
    let at = decoder.reader.at();
    let decl = decoder.reader.number()?;
    let Some(Decl::Record { fields, .. }) = env.decl(decl) else {
        return bad(at);
    };
    let at = decoder.reader.at();
    let field = decoder.reader.short()?;
    if usize::from(field) >= fields.len() {
        return bad(at);
    }
    let at = decoder.reader.at();
    let value = decoder.reader.number()?;
    made(table.projection(alloc, env, RecId(decl), field, value)?, at)
}

fn conversion(
    alloc: Global,
    decoder: &mut Decoder<'_>,
    env: &Env,
    table: &mut Table,
) -> Result<(), VerifyRefused>
    ensures { OnOk result (KeepsIn env.now table.old table.new) }
{
    let line = typed(decoder, table)?;
    let at = decoder.reader.at();
    let first = decoder.reader.number()?;
    if !table.is_type_of(line, first) {
        return bad(at);
    }
    let count = decoder.reader.number()?;
    let mut last = first;
    for _member in 0..count {
        last = member(alloc, decoder, env, table, last)?;
    }
    made(table.converted(line, last)?, at)
}

/// The next type of a chain: its line, which follows from the line before.
fn member(
    alloc: Global,
    decoder: &mut Decoder<'_>,
    env: &Env,
    table: &Table,
    before: u32,
) -> Result<u32, VerifyRefused>
    ensures { IfOk result (λ l. Follows env.now table.now before l) }
{
    let at = decoder.reader.at();
    let Some(link) = Link::of(decoder.reader.byte()?) else {
        return bad(at);
    };
    let at = decoder.reader.at();
    let line = type_line(decoder, table)?;
    if table.follows(alloc, env, before, link, line)? {
        Ok(line)
    } else {
        bad(at)
    }
}
