//! The commands of a sample.
ghost use Rattle.hb_gen.specs.Names.{Extends};

use crate::draws::Draws;
use crate::error::SampleRefused;
use crate::maker::{applied, command, item, numbered, one_field, raw, word};
use hb_base::Names;
use hb_raw::{Command, CommandKind, RawKind, Word};
use std::alloc::Global;

/// A sample under way.
#[derive(Drop)]
pub(crate) struct Maker {
    pub alloc: Global,
    pub commands: Vec<Command>,
    /// The carrier of mixins and structures.
    pub carrier: Word,
    pub draws: Draws,
}

impl Maker {
    /// One more command.
    pub fn put(&mut self, kind: CommandKind) -> Result<(), SampleRefused> {
        self.commands.push(command(kind))?;
        Ok(())
    }

    /// `Axiom N : Type.` and `Axiom e : N.`
    pub fn axioms(&mut self, names: &mut Names) -> Result<(), SampleRefused>
        ensures kept { Extends names.old names.new }
    {
        let carrier = word(names, "N")?;
        self.put(CommandKind::Axiom {
            name: carrier,
            ty: raw(RawKind::Level(0)),
        })?;
        let value = word(names, "e")?;
        self.put(CommandKind::Axiom {
            name: value,
            ty: raw(RawKind::Name(carrier.name)),
        })
    }

    /// The number of the structure that the mixin of the number stands on, or its own.
    fn below(&mut self, number: u64) -> u64 {
        if number < 2 {
            number
        } else {
            self.draws.draw(number.saturating_add(1))
        }
    }

    /// A mixin and its structure: `Mi` and `Si`, over the structure `Sr` where it stands on another.
    pub fn level(&mut self, names: &mut Names, number: u64) -> Result<(), SampleRefused>
        ensures kept { Extends names.old names.new }
    {
        let below = self.below(number);
        let mixin = numbered(self.alloc, names, "M", number)?;
        let field = numbered(self.alloc, names, "f", number)?;
        let under = if below == number {
            None
        } else {
            Some(numbered(self.alloc, names, "S", below)?)
        };
        self.mixin(mixin, under, field)?;
        let structure = numbered(self.alloc, names, "S", number)?;
        self.structure(structure, under, mixin)
    }

    /// `HB.mixin Record Mi A := { fi : A }.`, with `of Sr A` where it stands on a structure.
    fn mixin(&mut self, name: Word, under: Option<Word>, field: Word) -> Result<(), SampleRefused> {
        let carrier = self.carrier;
        let mut items = Vec::new(self.alloc);
        if let Some(under) = under {
            items.push(item(under, carrier))?;
        }
        let fields = one_field(self.alloc, field, carrier.name)?;
        self.put(CommandKind::Mixin {
            name,
            carrier,
            items,
            fields,
        })
    }

    /// `HB.structure Definition Si := { A of Mi A }.`, with `Sr A &` where it stands on a structure.
    fn structure(
        &mut self,
        name: Word,
        under: Option<Word>,
        mixin: Word,
    ) -> Result<(), SampleRefused> {
        let carrier = self.carrier;
        let mut items = Vec::new(self.alloc);
        if let Some(under) = under {
            items.push(item(under, carrier))?;
        }
        items.push(item(mixin, carrier))?;
        self.put(CommandKind::Structure {
            name,
            carrier,
            items,
        })
    }

    /// `HB.structure Definition Top := { A of S0 A & S1 A & .. }.`
    pub fn top(&mut self, names: &mut Names, size: u64) -> Result<(), SampleRefused>
        ensures kept { Extends names.old names.new }
    {
        let name = word(names, "Top")?;
        let carrier = self.carrier;
        let mut items = Vec::new(self.alloc);
        for number in 0..size {
            let structure = numbered(self.alloc, names, "S", number)?;
            items.push(item(structure, carrier))?;
        }
        self.put(CommandKind::Structure {
            name,
            carrier,
            items,
        })
    }

    /// `HB.instance Definition _ := Mi.Build N e.`
    pub fn instance(&mut self, names: &mut Names, number: u64) -> Result<(), SampleRefused>
        ensures kept { Extends names.old names.new }
    {
        let factory = numbered(self.alloc, names, "M", number)?;
        let build = format!(in self.alloc; "M{number}.Build")?;
        let build = word(names, build.as_str())?;
        let carrier = word(names, "N")?;
        let value = word(names, "e")?;
        let head = RawKind::Name(build.name);
        let value = applied(self.alloc, head, Some(carrier.name), value.name)?;
        self.put(CommandKind::Instance {
            name: None,
            binders: Vec::new(self.alloc),
            factory,
            carrier,
            args: Vec::new(self.alloc),
            value,
        })
    }

    /// `Definition ti : N := @fi N.`
    pub fn definition(&mut self, names: &mut Names, number: u64) -> Result<(), SampleRefused>
        ensures kept { Extends names.old names.new }
    {
        let name = numbered(self.alloc, names, "t", number)?;
        let ty = word(names, "N")?;
        let field = numbered(self.alloc, names, "f", number)?;
        let body = applied(self.alloc, RawKind::At(field.name), None, ty.name)?;
        self.put(CommandKind::Definition {
            name,
            binders: Vec::new(self.alloc),
            ty: Some(raw(RawKind::Name(ty.name))),
            body,
        })
    }
}
