use crate::{event_line, list_line, name_text, refused_line};
use hb_base::{Count, NameId, Names, Span};
use hb_env::{Env, Refusal, What};
use hb_term::{Scoped, Sort, Term};
use std::alloc::Global;
use std::test::*;

fn at(what: What) -> Refusal {
    Refusal {
        span: Span {
            file: 0,
            from: 3,
            to: 7,
        },
        what,
    }
}

fn two_names(alloc: Global) -> Result<Names, Fail> {
    let mut names = Names::new(alloc)?;
    names.number("a").map_err(|_| "room for a name")?;
    names.number("b").map_err(|_| "room for a name")?;
    Ok(names)
}

/// The line of a refusal of bytes 3 to 7 of `f.v`.
fn line_of(alloc: Global, what: What) -> Result<String, Fail> {
    let names = two_names(alloc)?;
    let env = Env::new(alloc)?;
    Ok(refused_line(alloc, &names, &env, "f.v", &at(what))?)
}

fn sort(sort: Sort) -> Result<Scoped, Fail> {
    match Scoped::new(Term::Sort(sort), 0) {
        Some(scoped) => Ok(scoped),
        None => Err("in scope".into()),
    }
}

/// `Prop` applied to itself 300 times.
fn long(alloc: Global) -> Result<Scoped, Fail> {
    let mut long = Term::Sort(Sort::Prop);
    for _ in 0..300 {
        long = Term::app(alloc, long, Term::Sort(Sort::Prop))?;
    }
    match Scoped::new(long, 0) {
        Some(scoped) => Ok(scoped),
        None => Err("in scope".into()),
    }
}

#[test]
fn refusals_have_their_names_and_values(rt: HostRuntime) -> Result<(), Fail> {
    let alloc = rt.alloc();
    let (a, b) = (NameId(0), NameId(1));
    let line = line_of(alloc, What::Lex)?;
    assert_eq!(rt; line.as_str(), "refused 2 f.v 3 7 Lex\n");
    let line = line_of(alloc, What::TooMany(Count::Names))?;
    assert_eq!(rt; line.as_str(), "refused 5 f.v 3 7 TooMany names\n");
    let line = line_of(alloc, What::UnknownName(b))?;
    assert_eq!(rt; line.as_str(), "refused 8 f.v 3 7 UnknownName b\n");
    let line = line_of(alloc, What::MissingJoin(a, b, NameId(9)))?;
    assert_eq!(rt; line.as_str(), "refused 25 f.v 3 7 MissingJoin a b !9\n");
    let line = line_of(alloc, What::Unmet(b, a, b))?;
    assert_eq!(rt; line.as_str(), "refused 40 f.v 3 7 Unmet b a b\n");
    Ok(())
}

#[test]
fn terms_stand_in_parentheses_and_are_cut(rt: HostRuntime) -> Result<(), Fail> {
    let alloc = rt.alloc();
    let differ = What::NotConvertible(sort(Sort::Prop)?, sort(Sort::Level(2))?);
    let line = line_of(alloc, differ)?;
    assert_eq!(rt;
        line.as_str(),
        "refused 17 f.v 3 7 NotConvertible (Prop) (Type@{2})\n"
    );
    let line = line_of(alloc, What::Spent(long(alloc)?))?;
    assert!(rt; line.as_bytes().starts_with(b"spent f.v 3 7 (Prop Prop"));
    assert!(rt; line.as_bytes().ends_with(b"Prop Prop ...)\n"));
    assert_eq!(rt; line.as_bytes().len(), 15 + 1000 + 5);
    let line = line_of(alloc, What::Moves)?;
    assert_eq!(rt; line.as_str(), "spent f.v 3 7 moves\n");
    let line = line_of(alloc, What::NoMemory)?;
    assert_eq!(rt; line.as_str(), "");
    Ok(())
}

#[test]
fn lists_have_their_names_or_none(rt: HostRuntime) -> Result<(), Fail> {
    let alloc = rt.alloc();
    let names = two_names(alloc)?;
    assert_eq!(rt;
        list_line(alloc, "structure S:", &names, &[])?.as_str(),
        "structure S: none\n"
    );
    assert_eq!(rt;
        list_line(alloc, "structure S:", &names, &[NameId(1), NameId(0)])?.as_str(),
        "structure S: b a\n"
    );
    assert_eq!(rt; event_line(alloc, "axiom", "a")?.as_str(), "axiom a\n");
    assert_eq!(rt; name_text(alloc, &names, NameId(5))?.as_str(), "!5");
    Ok(())
}
