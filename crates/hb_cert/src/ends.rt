//! The ending lines of a declaration.
ghost use Rattle.std.specs.Prelude.{IfOk, IsTrue, OnOk, None};
ghost use Rattle.hb_term.specs.Meaning.{tree};
ghost use Rattle.hb_env.specs.Plain.{plain, plain_fields, trees};
ghost use Rattle.hb_calculus.specs.Declarations.{field_types};
ghost use Rattle.hb_cert.specs.Ends.{EndsDecl, EndsType, EndsParams, EndsFields, EndsBody, EndsClosed, IsAtMost};

use crate::lines::bad;
use crate::refused::VerifyRefused;
use hb_base::NameId;
use hb_env::Decl;
use hb_libfile::Decoder;
use hb_strict::{Table, is_below};
use hb_term::{Sort, Term};

/// The ending lines of the declaration: an axiom's type; a definition's type and body; each parameter and field of a
/// record, under those before it.
pub(crate) fn ends(
    decoder: &mut Decoder<'_>,
    table: &Table,
    decl: &Decl,
) -> Result<(), VerifyRefused>
    ensures { OnOk result (EndsDecl table.now (plain decl.now)) }
{
    match decl {
        Decl::Axiom { ty, .. } => closed(decoder, table, ty),
        Decl::Def { ty, body, .. } => {
            closed(decoder, table, ty)?;
            body_end(decoder, table, ty, body)
        }
        Decl::Record {
            params,
            level,
            fields,
            ..
        } => {
            let before = params_end(decoder, table, params)?;
            fields_end(decoder, table, before, *level, fields)
        }
    }
}

/// The lines of parameters, each under those before it: the last one, if there is one.
fn params_end(
    decoder: &mut Decoder<'_>,
    table: &Table,
    params: &[Term],
) -> Result<Option<u32>, VerifyRefused>
    ensures { IfOk result (λ b. EndsParams table.now (trees params.now) b) }
{
    let mut before = None;
    for ty in params {
        before = Some(end(decoder, table, before, ty, None)?);
    }
    Ok(before)
}

/// The lines of fields, each under those before it and those of the parameters.
fn fields_end(
    decoder: &mut Decoder<'_>,
    table: &Table,
    last: Option<u32>,
    level: u8,
    fields: &[(NameId, Term)],
) -> Result<(), VerifyRefused>
    ensures { OnOk result (EndsFields table.now last level (field_types (plain_fields fields.now))) }
{
    let mut before = last;
    for field in fields {
        before = Some(end(decoder, table, before, &field.1, Some(Sort::Level(level)))?);
    }
    Ok(())
}

/// The line of a definition's body, with its type.
fn body_end(
    decoder: &mut Decoder<'_>,
    table: &Table,
    ty: &Term,
    body: &Term,
) -> Result<(), VerifyRefused>
    ensures { OnOk result (EndsBody table.now (tree body.now) (tree ty.now)) }
{
    let at = decoder.reader.at();
    let number = decoder.reader.number()?;
    if is_body(table, number, ty, body) {
        Ok(())
    } else {
        bad(at)
    }
}

/// Whether the line, in no context, has the body with the type.
fn is_body(table: &Table, at: u32, ty: &Term, body: &Term) -> bool
    ensures { IsTrue result → EndsBody table.now (tree body.now) (tree ty.now) }
{
    let Some(line) = table.line(at) else {
        return false;
    };
    if line.context != 0 {
        return false;
    }
    if !line.term.same(body) {
        return false;
    }
    line.ty.same(ty)
}

/// The line of a type in no context.
fn closed(decoder: &mut Decoder<'_>, table: &Table, ty: &Term) -> Result<(), VerifyRefused>
    ensures { OnOk result (EndsClosed table.now (tree ty.now)) }
{
    let _line = end(decoder, table, None, ty, None)?;
    Ok(())
}

/// The line of a type in the context of the line before and its term, or in none; its sort is at most `most`.
fn end(
    decoder: &mut Decoder<'_>,
    table: &Table,
    before: Option<u32>,
    ty: &Term,
    most: Option<Sort>,
) -> Result<u32, VerifyRefused>
    ensures { IfOk result (λ l. EndsType table.now before (tree ty.now) most l) }
{
    let at = decoder.reader.at();
    let line = decoder.reader.number()?;
    if is_end(table, before, line, ty, most) {
        Ok(line)
    } else {
        bad(at)
    }
}

/// Whether the line is that of the type in the context of the line before and its term, or in none.
fn is_end(table: &Table, before: Option<u32>, at: u32, ty: &Term, most: Option<Sort>) -> bool
    ensures { IsTrue result → EndsType table.now before (tree ty.now) most at }
{
    let Some(sort) = table.sort_of(at) else {
        return false;
    };
    let Some(line) = table.line(at) else {
        return false;
    };
    if !line.term.same(ty) {
        return false;
    }
    if !is_at_most(sort, most) {
        return false;
    }
    match before {
        None => line.context == 0,
        Some(before) => table.is_under(before, at),
    }
}

/// Whether the sort is at most another, if there is one.
fn is_at_most(s: Sort, most: Option<Sort>) -> bool
    ensures { IsTrue result → IsAtMost s most }
{
    match most {
        None => true,
        Some(most) => is_below(s, most),
    }
}
