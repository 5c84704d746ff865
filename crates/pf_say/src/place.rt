// The files that a command reads and writes, and their names.
ghost use Rattle.std.specs.Prelude.{◌≡◌, IfOk};
ghost use Rattle.std.specs.String.{string_bytes};
ghost use Rattle.pf_say.specs.Place.{ending_of};

use std::alloc::{AllocError, Global};

/// A file of a command, by what it is for.
#[derive(Clone, Copy, Debug, PartialEq, Eq)]
pub enum Place {
    /// The nodes that are read.
    Node,
    /// The triangles that are read.
    Ele,
    /// The chunks of the triangles that are read.
    Part,
    /// The wanted lengths that are read.
    Size,
    /// The journal that is read.
    Journal,
    /// The trace that is read. Its name is the stem alone.
    Trace,
    /// The nodes that are written.
    OutNode,
    /// The triangles that are written.
    OutEle,
    /// The chunks of the triangles that are written.
    OutPart,
    /// The journal that is written.
    OutJournal,
    /// The rest list that is written.
    OutRest,
}

/// The two stems that the words name.
#[derive(Clone, Copy, Debug)]
pub struct Stems<'a> {
    pub base: &'a str,
    pub out: &'a str,
}

impl Stems<'_> {
    ghost use Rattle.pf_say.specs.Place.{stem_of, name_of};
    ghost use Rattle.pf_say.specs.Shown.{stems_of};

    /// The stem of a file's name.
    pub fn stem(&self, place: Place) -> &str
        ensures { result.now ≡ stem_of (stems_of self.now) place }
    {
        match place {
            Place::Node | Place::Ele | Place::Part | Place::Size => self.base,
            Place::Journal
            | Place::Trace
            | Place::OutNode
            | Place::OutEle
            | Place::OutPart
            | Place::OutJournal
            | Place::OutRest => self.out,
        }
    }

    /// The whole name of a file.
    pub fn name(&self, alloc: Global, place: Place) -> Result<String, AllocError>
        ensures { IfOk result (λ name. string_bytes name ≡ name_of (stems_of self.now) place) }
    {
        let mut name = String::from_str(alloc, self.stem(place))?;
        name.push_str(ending(place))?;
        Ok(name)
    }
}

/// How the name goes on behind its stem.
pub fn ending(place: Place) -> &'static str
    ensures { result.now ≡ ending_of place }
{
    match place {
        Place::Node | Place::OutNode => ".node",
        Place::Ele | Place::OutEle => ".ele",
        Place::Part | Place::OutPart => ".part",
        Place::Size => ".size",
        Place::Journal | Place::OutJournal => ".journal",
        Place::OutRest => ".rest",
        Place::Trace => "",
    }
}
