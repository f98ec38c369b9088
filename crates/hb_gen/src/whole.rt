//! Whole samples.
ghost use Rattle.hb_gen.specs.Names.{Extends};

use crate::commands::Maker;
use crate::draws::Draws;
use crate::error::SampleRefused;
use crate::maker::word;
use hb_base::Names;
use hb_raw::Command;
use std::alloc::Global;

/// The sample of the number and the size, which is from 2 to 200: two axioms, so many mixins, each with a
/// structure, in trees, a structure over all of them, and for each mixin an instance and a definition that
/// uses it. The names that the commands need are numbered.
pub fn sample(
    alloc: Global,
    names: &mut Names,
    number: u64,
    size: u16,
) -> Result<Vec<Command>, SampleRefused>
    ensures kept { Extends names.old names.new }
{
    let size = u64::from(size);
    let mut maker = Maker {
        alloc,
        commands: Vec::new(alloc),
        carrier: word(names, "A")?,
        draws: Draws::new(number),
    };
    maker.axioms(names)?;
    for i in 0..size {
        maker.level(names, i)?;
    }
    maker.top(names, size)?;
    for i in 0..size {
        maker.instance(names, i)?;
    }
    for i in 0..size {
        maker.definition(names, i)?;
    }
    Ok(maker.commands)
}
