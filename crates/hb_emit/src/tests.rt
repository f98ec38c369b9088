use crate::{Emitter, Listing, RocqText, drop_failed};
use hb_base::Names;
use hb_env::{Decl, Entry, Env, Head};
use hb_io::MemorySink;
use hb_term::{Sort, Term};
use std::alloc::Global;
use std::test::*;

/// The axiom of a type.
fn axiom(alloc: Global, names: &mut Names) -> Result<Entry, Fail> {
    let name = names.number("nat")?;
    let mut decls = Vec::new(alloc);
    decls.push(Decl::Axiom {
        name,
        ty: Term::Sort(Sort::Level(0)),
    })?;
    Ok(Entry {
        head: Head::Axiom,
        decls,
    })
}

/// A sink of whole pieces that fails at the calls in the list.
fn sink(alloc: Global, fails: &[u64]) -> Result<MemorySink, Fail> {
    Ok(MemorySink::new(alloc, Vec::from_slice(alloc, fails)?, false, 1_000))
}

#[test]
fn a_text_is_written_whole(rt: HostRuntime) -> Result<(), Fail> {
    let alloc = rt.alloc();
    let (mut names, env) = (Names::new(alloc)?, Env::new(alloc)?);
    let entry = axiom(alloc, &mut names)?;
    let mut text = RocqText::new(sink(alloc, &[])?);
    text.declare(alloc, &names, &env, &entry)?;
    text.finish()?;
    assert!(rt; text.told() == Some(b"Axiom nat : Type@{0}.\n(* end *)\n".as_slice()));
    Ok(())
}

/// Finishes an emitter that hasn't failed.
fn finish_once(emitter: &mut Box<dyn Emitter>) {
    if !emitter.failed() {
        let _ = emitter.finish();
    }
}

#[test]
fn failed_ones_are_dropped(rt: HostRuntime) -> Result<(), Fail> {
    let alloc = rt.alloc();
    let mut emitters: Vec<Box<dyn Emitter>> = Vec::new(alloc);
    emitters.push(Box::new(alloc, RocqText::new(sink(alloc, &[1])?))?)?;
    emitters.push(Box::new(alloc, Listing::new(sink(alloc, &[])?))?)?;
    for emitter in &mut emitters {
        finish_once(emitter);
    }
    drop_failed(&mut emitters);
    assert!(rt; emitters.len() == 1);
    Ok(())
}
