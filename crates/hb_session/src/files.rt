//! The files of a run.
ghost use Rattle.std.specs.Prelude.{◌≡◌};

use hb_base::Span;
use std::alloc::{AllocError, Global};

/// How far a file is.
#[derive(Clone, Copy, PartialEq, Eq)]
pub enum Stage {
    /// A source whose commands are being taken.
    Reading,
    /// A source whose commands were all taken, here or into the library that was loaded.
    Compiled,
    /// What is no source, or was refused.
    Other,
}

/// A file of a run; its number is its place.
#[derive(Drop)]
struct File {
    name: String,
    stage: Stage,
}

/// The files of a run that go into one session, in the order in which they were begun, and how many lines
/// the report of their commands has.
#[derive(Drop)]
pub struct Files {
    alloc: Global,
    list: Vec<File>,
    sources: u16,
    /// How many lines the report of their commands has.
    pub lines: u64,
    /// The declarations of commands of sources, from one number to below another, with the command's place.
    declared: Vec<(u32, u32, Span)>,
}

impl FilesMark {
    /// The mark of no files.
    pub const EMPTY: FilesMark = FilesMark {
        length: 0,
        sources: 0,
        lines: 0,
    };
}

/// The most sources that a run compiles into one session.
const MOST_SOURCES: u16 = 64;

/// How long the lists of files are.
#[derive(Clone, Copy)]
pub struct FilesMark {
    length: usize,
    sources: u16,
    lines: u64,
}

impl Files {
    /// No files.
    pub fn new(alloc: Global) -> Files
        ensures { result.lines ≡ 0 }
    {
        Files {
            alloc,
            list: Vec::new(alloc),
            sources: 0,
            lines: 0,
            declared: Vec::new(alloc),
        }
    }

    /// Notes where the declarations from one number to below another were commanded.
    pub fn declare(&mut self, from: u32, to: u32, span: Span) -> Result<(), AllocError>
        ensures lines { self.new.lines ≡ self.old.lines }
    {
        self.declared.push((from, to, span))?;
        Ok(())
    }

    /// Where the declaration was commanded, if it was in a source.
    pub fn place(&self, decl: u32) -> Option<Span> {
        for declared in &self.declared {
            if declared.0 <= decl && decl < declared.1 {
                return Some(declared.2);
            }
        }
        None
    }

    /// Whether a further source may be compiled.
    pub fn has_room(&self) -> bool {
        self.sources < MOST_SOURCES
    }

    /// The number of a file that is begun.
    pub fn begin(&mut self, name: &str, stage: Stage) -> Result<u16, AllocError>
        ensures lines { self.new.lines ≡ self.old.lines }
    {
        let number = self.list.len();
        if number >= 65_535 {
            return Err(AllocError);
        }
        let name = String::from_str(self.alloc, name)?;
        self.list.push(File { name, stage })?;
        match stage {
            Stage::Reading => self.sources = self.sources.saturating_add(1),
            Stage::Compiled => {}
            Stage::Other => {}
        }
        Ok(number as u16)
    }

    /// Notes that a source counts as compiled, which was compiled into the loaded library.
    pub fn note(&mut self, name: String) -> Result<(), AllocError>
        ensures lines { self.new.lines ≡ self.old.lines }
    {
        self.list.push(File {
            name,
            stage: Stage::Compiled,
        })?;
        Ok(())
    }

    /// Notes that the commands of the file were all taken.
    pub fn end(&mut self, number: u16)
        ensures lines { self.new.lines ≡ self.old.lines }
    {
        match self.list.get_mut(usize::from(number)) {
            Some(file) => file.stage = Stage::Compiled,
            None => {}
        }
    }

    /// Whether a file of the name is at that stage.
    pub fn is(&self, name: &str, stage: Stage) -> bool {
        self.list
            .iter()
            .any(|file| file.stage == stage && file.name.as_str() == name)
    }

    /// The name of a file.
    pub fn name(&self, number: u16) -> &str {
        match self.list.get(usize::from(number)) {
            Some(file) => file.name.as_str(),
            None => "",
        }
    }

    /// The number of the file that was begun last.
    pub fn last(&self) -> u16 {
        let count = self.list.len();
        if 0 < count && count <= 65_535 {
            (count - 1) as u16
        } else {
            0
        }
    }

    /// How long the lists are.
    pub fn mark(&self) -> FilesMark {
        FilesMark {
            length: self.list.len(),
            sources: self.sources,
            lines: self.lines,
        }
    }

    /// Forgets the files since the mark.
    pub fn undo(&mut self, mark: FilesMark)
        ensures { self.new.lines ≡ mark.lines }
    {
        self.list.truncate(mark.length);
        self.sources = mark.sources;
        self.lines = mark.lines;
    }
}
