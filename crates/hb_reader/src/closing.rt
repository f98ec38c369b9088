//! What closes a term.
ghost use Rattle.std.specs.Prelude.{◌≡◌, ◌++◌, ◌∷◌, [], map, IfOk, option_map};
ghost use Rattle.hb_raw.specs.Sentence as sentences;
ghost use Rattle.hb_raw.specs.Views.{act, term, groups, field};
ghost use Rattle.hb_grammar.specs.Leaf as leaf;
ghost use Rattle.hb_grammar.specs.Machine as plain;
ghost use Rattle.hb_reader.specs.Frames.{opener_of, bound_part, base_of};
ghost use Rattle.hb_reader.specs.Signs.{sign};
ghost use Rattle.hb_reader.specs.States.{kind};
ghost use Rattle.hb_reader.specs.Stacks.{stack};
ghost use Rattle.hb_reader.specs.Views.{part, before, record_of, instance_of, bound_in};

use super::binder::BinderState;
use super::frame::{Base, Bounds, Frame, InstanceOf, Opener, RecordOf};
use super::groups::{lone_group, with_group};
use super::kind::Kind;
use super::listing::{ListState, record_ends};
use super::marks::same;
use super::part::{Part, arrow_part, bracketed, cast_part, function_part, product_part};
use super::sign::Sign;
use super::spine::Before;
use super::stack::{Binding, Innermost, Stack};
use super::term::{have, want_in, want_on};
use hb_base::Span;
use hb_grammar::Mark;
use hb_raw::{Binder, Command, CommandKind, Field, Raw, Word};
use std::alloc::{AllocError, Global};

impl Stack {
    /// The token behind a term; `None` where there is no way on.
    pub fn closed(
        self,
        alloc: Global,
        mark: Mark,
        p: Part,
        token: Sign,
    ) -> Result<Option<Kind>, AllocError>
        ensures { IfOk result (λ o. option_map kind o ≡ plain.closed (stack self) mark (part p) (sign token)) }
    {
        match self.split() {
            Innermost::Base(base) => base.closed(alloc, mark, p, token),
            Innermost::Frame(frame, around) => match frame {
                Frame::Right(a) => {
                    let arrow = arrow_part(alloc, a, p)?;
                    around.closed(alloc, mark, arrow, token)
                }
                Frame::Body(o, gs) => {
                    let bound = o.part(alloc, gs, p)?;
                    around.closed(alloc, mark, bound, token)
                }
                Frame::Lone(o, xs) => closed_lone(alloc, o, xs, around, mark, p),
                Frame::Inside(b, x) => closed_inside(b, x, around, mark, p, token),
                Frame::Casting(b, x, t) => closed_cast(alloc, b, x, t, around, mark, p, token),
                Frame::GroupType(o, gs, xs) => closed_group(o, gs, xs, around, mark, p, token),
            },
        }
    }
}

impl Opener {
    /// A body with its binders.
    fn part(self, alloc: Global, binders: Vec<Binder>, body: Part) -> Result<Part, AllocError>
        ensures { IfOk result (λ p. part p ≡ bound_part self (groups binders.items) (part body)) }
    {
        match self {
            Opener::Forall(x) => product_part(alloc, x, binders, body),
            Opener::Fun(x) => function_part(alloc, x, binders, body),
        }
    }
}

impl Base {
    /// The token behind the term.
    fn closed(
        self,
        alloc: Global,
        mark: Mark,
        p: Part,
        token: Sign,
    ) -> Result<Option<Kind>, AllocError>
        ensures { IfOk result (λ o. option_map kind o ≡ plain.closed (base_of self) mark (part p) (sign token)) }
    {
        match self {
            Base::AxiomType(x, n) => Ok(closed_axiom(x, n, mark, p)),
            Base::DefinitionGroup(x, n, gs, xs) => closed_binder(x, n, gs, xs, mark, p, token),
            Base::DefinitionType(x, n, gs) => Ok(closed_type(alloc, x, n, gs, mark, p)),
            Base::DefinitionBody(x, n, gs, t) => Ok(closed_definition(x, n, gs, t, mark, p)),
            Base::FieldType(r, fs, f) => closed_field(r, fs, f, mark, p, token),
            Base::InstanceValue(i, f, k, ws) => Ok(closed_instance(i, f, k, ws, mark, p)),
            Base::BuildValue(i, f, k, ws) => Ok(closed_instance(i, f, k, ws, mark, p)),
            Base::CarrierFound(x, s) => Ok(closed_find(x, s, mark, p)),
        }
    }
}

/// Behind the type of a lone list of binders.
fn closed_lone(
    alloc: Global,
    o: Opener,
    xs: Bounds,
    around: Stack,
    mark: Mark,
    p: Part,
) -> Result<Option<Kind>, AllocError>
    ensures { IfOk result (λ r. option_map kind r ≡ plain.closed_lone (opener_of o (stack around)) xs.items mark (part p)) }
{
    match o {
        Opener::Forall(x) => {
            if same(Mark::Comma, mark) {
                let gs = lone_group(alloc, xs, p.raw)?;
                want_in(around, Frame::Body(Opener::Forall(x), gs))
            } else {
                Ok(None)
            }
        }
        Opener::Fun(x) => {
            if same(Mark::Gives, mark) {
                let gs = lone_group(alloc, xs, p.raw)?;
                want_in(around, Frame::Body(Opener::Fun(x), gs))
            } else {
                Ok(None)
            }
        }
    }
}

/// Behind a term in parentheses.
fn closed_inside(
    b: Before,
    start: Span,
    around: Stack,
    mark: Mark,
    p: Part,
    token: Sign,
) -> Result<Option<Kind>, AllocError>
    ensures { IfOk result (λ o. option_map kind o ≡ plain.closed (plain.inside (before b) start (stack around)) mark (part p) (sign token)) }
{
    match mark {
        Mark::Close => {
            let term = bracketed(start, p, token.place);
            Ok(Some(have(b, term, around)))
        }
        Mark::Colon => want_in(around, Frame::Casting(b, start, p)),
        _ => Ok(None),
    }
}

/// Behind the type of a cast.
fn closed_cast(
    alloc: Global,
    b: Before,
    start: Span,
    t: Part,
    around: Stack,
    mark: Mark,
    p: Part,
    token: Sign,
) -> Result<Option<Kind>, AllocError>
    ensures { IfOk result (λ o. option_map kind o ≡ plain.closed (plain.casting (before b) start (part t) (stack around)) mark (part p) (sign token)) }
{
    match mark {
        Mark::Close => {
            let cast = cast_part(alloc, start, t, p, token.place)?;
            Ok(Some(have(b, cast, around)))
        }
        _ => Ok(None),
    }
}

/// Behind the type of a group.
fn closed_group(
    o: Opener,
    gs: Vec<Binder>,
    xs: Bounds,
    around: Stack,
    mark: Mark,
    p: Part,
    token: Sign,
) -> Result<Option<Kind>, AllocError>
    ensures { IfOk result (λ r. option_map kind r ≡ plain.closed (plain.group_type (opener_of o (stack around)) (groups gs.items) (bound_in (groups gs.items)) xs.items) mark (part p) (sign token)) }
{
    match mark {
        Mark::Close => {
            let more = with_group(gs, xs, Some(p.raw))?;
            Ok(Some(Kind::Binder(BinderState::Groups(o.around(around), more))))
        }
        _ => Ok(None),
    }
}

/// Behind the type of a group of a definition's binders.
fn closed_binder(
    start: Span,
    name: Word,
    gs: Vec<Binder>,
    xs: Bounds,
    mark: Mark,
    p: Part,
    token: Sign,
) -> Result<Option<Kind>, AllocError>
    ensures { IfOk result (λ o. option_map kind o ≡ plain.closed (plain.group_type (plain.of_definition start name) (groups gs.items) (bound_in (groups gs.items)) xs.items) mark (part p) (sign token)) }
{
    match mark {
        Mark::Close => {
            let more = with_group(gs, xs, Some(p.raw))?;
            let of = Binding::Definition(start, name);
            Ok(Some(Kind::Binder(BinderState::Groups(of, more))))
        }
        _ => Ok(None),
    }
}

/// Behind the type of an axiom.
fn closed_axiom(start: Span, name: Word, mark: Mark, p: Part) -> Option<Kind>
    ensures { (w : leaf.Sign) → option_map kind result ≡ plain.closed (plain.axiom_type start name) mark (part p) w }
{
    match mark {
        Mark::End => Some(done(start, CommandKind::Axiom { name, ty: p.raw })),
        _ => None,
    }
}

/// Behind the type of a definition.
fn closed_type(
    alloc: Global,
    start: Span,
    name: Word,
    gs: Vec<Binder>,
    mark: Mark,
    p: Part,
) -> Option<Kind>
    ensures { (w : leaf.Sign) → option_map kind result ≡ plain.closed (plain.definition_type start name (groups gs.items) (bound_in (groups gs.items))) mark (part p) w }
{
    match mark {
        Mark::Becomes => {
            let body = Base::DefinitionBody(start, name, gs, Some(p.raw));
            Some(want_on(alloc, body))
        }
        _ => None,
    }
}

/// Behind the body of a definition.
fn closed_definition(
    start: Span,
    name: Word,
    binders: Vec<Binder>,
    ty: Option<Raw>,
    mark: Mark,
    p: Part,
) -> Option<Kind>
    ensures { (w : leaf.Sign) → option_map kind result ≡ plain.closed (plain.definition_body start name (groups binders.items) (bound_in (groups binders.items)) (option_map term ty)) mark (part p) w }
{
    match mark {
        Mark::End => {
            let body = p.raw;
            let command = CommandKind::Definition {
                name,
                binders,
                ty,
                body,
            };
            Some(done(start, command))
        }
        _ => None,
    }
}

/// Behind the type of a field.
fn closed_field(
    r: RecordOf,
    fs: Vec<Field>,
    name: Word,
    mark: Mark,
    p: Part,
    token: Sign,
) -> Result<Option<Kind>, AllocError>
    ensures { IfOk result (λ o. option_map kind o ≡ plain.closed (plain.field_type (record_of r) (map field fs.items) name) mark (part p) (sign token)) }
{
    match mark {
        Mark::Semicolon => {
            let more = with_field(fs, name, p.raw)?;
            Ok(Some(Kind::List(ListState::Fields(r, more))))
        }
        Mark::Unbrace => {
            let all = with_field(fs, name, p.raw)?;
            Ok(Some(record_ends(r, all)))
        }
        _ => Ok(None),
    }
}

/// Fields with one more.
fn with_field(mut fs: Vec<Field>, name: Word, ty: Raw) -> Result<Vec<Field>, AllocError>
    ensures { IfOk result (λ r. map field r.items ≡ map field fs.items ++ ((name, term ty) ∷ [])) }
{
    fs.push(Field { name, ty })?;
    Ok(fs)
}

/// Behind the value of an instance.
fn closed_instance(
    of: InstanceOf,
    factory: Word,
    carrier: Word,
    args: Vec<Word>,
    mark: Mark,
    p: Part,
) -> Option<Kind>
    ensures value { (w : leaf.Sign) → option_map kind result ≡ plain.closed (plain.instance_value (instance_of of) factory carrier args.items) mark (part p) w }
    ensures built { (w : leaf.Sign) → option_map kind result ≡ plain.closed (plain.build_value (instance_of of) factory carrier args.items) mark (part p) w }
{
    match mark {
        Mark::End => {
            let command = CommandKind::Instance {
                name: of.name,
                binders: of.conditions,
                factory,
                carrier,
                args,
                value: p.raw,
            };
            Some(done(of.start, command))
        }
        _ => None,
    }
}

/// Behind the carrier of a find.
fn closed_find(start: Span, structure: Word, mark: Mark, p: Part) -> Option<Kind>
    ensures { (w : leaf.Sign) → option_map kind result ≡ plain.closed (plain.carrier_found start structure) mark (part p) w }
{
    match mark {
        Mark::End => {
            let carrier = p.raw;
            Some(done(start, CommandKind::Find { structure, carrier }))
        }
        _ => None,
    }
}

/// A sentence that has ended.
fn done(start: Span, command: CommandKind) -> Kind
    ensures { kind result ≡ plain.done (sentences.sentence start (act command)) }
{
    Kind::Done(Command {
        span: start,
        kind: command,
    })
}
