// What a run says at its end, and the status that it ends with.
ghost use Rattle.std.specs.Prelude.{◌≡◌, ◌≤◌, ◌⊎◌, ◌++◌, None, OnOk, OnErr};
ghost use Rattle.pf_shelf.specs.Count.{Rose};
ghost use Rattle.pf_shelf.specs.Sink.{extended, GainsPrefix};
ghost use Rattle.pf_say.specs.Place.{name_of};
ghost use Rattle.pf_say.specs.Shown.{stems_of};
ghost use Rattle.pf_say.specs.Stop.{status_of, line_of, trouble_in, trouble_line, memory_text};
ghost use Rattle.pf_cmd.specs.Runs.{IsSaid};

use pf_say::{Place, Stems, Stop, Trouble, ending};
use pf_shelf::{Sink, WriteErr, say_all};
use std::alloc::Global;

/// What is said where there is no memory.
const NO_MEMORY: &[u8] = b"parfum: out of memory\n";

/// The status where there is no memory.
const FORGOTTEN: u8 = 5;

/// The status where the sink failed.
const UNSAID: u8 = 4;

/// Says a text, and gives the status.
pub(crate) fn say<K: Sink>(out: &mut K, text: &[u8], status: u8) -> u8
    ensures { IsSaid status text.now (K.heard out.old) (K.heard out.new) result }
{
    match say_all(out, text) {
        Ok(()) => status,
        Err(WriteErr::Fault) => UNSAID,
    }
}

/// Says that there is no memory, and gives the status.
pub(crate) fn say_forgotten<K: Sink>(out: &mut K) -> u8
    ensures { IsSaid 5 memory_text (K.heard out.old) (K.heard out.new) result }
{
    say(out, NO_MEMORY, FORGOTTEN)
}

/// Says why a run ended before its end, and gives the status. What happened to a device is said without memory; where
/// there is no memory for another line, that is said.
pub(crate) fn say_stop<K: Sink>(alloc: Global, out: &mut K, stems: Stems<'_>, stop: Stop) -> u8
    ensures { IsSaid (status_of stop) (line_of (stems_of stems.entry) stop) (K.heard out.old) (K.heard out.new) result
        ⊎ ((trouble_in stop ≡ None) × IsSaid 5 memory_text (K.heard out.old) (K.heard out.new) result) }
{
    match stop.trouble() {
        Some(trouble) => say_trouble(out, stems, trouble, stop.status()),
        None => match stop.line(alloc, stems) {
            Ok(line) => say(out, &line, stop.status()),
            Err(_) => say_forgotten(out),
        },
    }
}

// Says what happened to a device, and gives the status. It takes no memory.
fn say_trouble<K: Sink>(out: &mut K, stems: Stems<'_>, trouble: Trouble, status: u8) -> u8
    ensures { IsSaid status (trouble_line (stems_of stems.entry) trouble) (K.heard out.old) (K.heard out.new) result }
{
    match trouble.place() {
        Some(place) => match say_named(out, stems, place, trouble.words()) {
            Ok(()) => status,
            Err(WriteErr::Fault) => UNSAID,
        },
        None => say(out, trouble.words(), status),
    }
}

// Says the name of a file, and what is said of it.
fn say_named<K: Sink>(
    out: &mut K,
    stems: Stems<'_>,
    place: Place,
    words: &[u8],
) -> Result<(), WriteErr>
    ensures said { OnOk result ((K.heard out.new).told ≡ extended (K.heard out.old).told (name_of (stems_of stems.entry) place ++ words.now)) }
    ensures prefix { OnErr result
        (GainsPrefix (name_of (stems_of stems.entry) place ++ words.now) (K.heard out.old).told (K.heard out.new).told) }
    ensures fault { OnErr result (Rose (K.heard out.old).faults (K.heard out.new).faults) }
    ensures no_fault { OnOk result ((K.heard out.new).faults ≡ (K.heard out.old).faults) }
    ensures faults { (K.heard out.old).faults ≤ (K.heard out.new).faults }
{
    say_all(out, stems.stem(place).as_bytes())?;
    say_all(out, ending(place).as_bytes())?;
    say_all(out, words)?;
    Ok(())
}
