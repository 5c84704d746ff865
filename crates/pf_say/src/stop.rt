// Why a run ends before its end, its status, and the line that says so.
ghost use Rattle.std.specs.Prelude.{◌≡◌, ◌++◌, IfOk, OnOk};
ghost use Rattle.pf_say.specs.Place.{name_of};
ghost use Rattle.pf_say.specs.Shown.{stems_of};
ghost use Rattle.pf_say.specs.Faults.{fault_text};
ghost use Rattle.pf_say.specs.Stop.{memory_stop, trouble_line, limit_text, operation_text};

use crate::condition::put_condition;
use crate::fault::{Fault, put_fault};
use crate::line::put;
use crate::place::{Place, Stems, ending};
use pf_geom::NoMemory;
use pf_model::Refusal;
use std::alloc::{AllocError, AllocFailed, Global};

/// Why a run ends before its end.
#[derive(Clone, Copy, Debug, PartialEq, Eq)]
pub enum Stop {
    /// The file has this fault first.
    Input { place: Place, fault: Fault },
    /// There are so many nodes and operations together, which is too many.
    Limit { count: u64 },
    /// The operation of this ticket is refused.
    Operation { ticket: u32, why: Refusal },
    /// A device or the memory didn't do its part.
    Device { trouble: Trouble },
}

/// What happened to a device, or to the memory.
#[derive(Clone, Copy, Debug, PartialEq, Eq)]
pub enum Trouble {
    /// The file isn't there.
    Missing { place: Place },
    /// A read of the file failed.
    Unread { place: Place },
    /// A write of the file failed.
    Unwritten { place: Place },
    /// Memory ran out.
    Memory,
}

impl From<AllocError> for Stop {
    ghost from_gives = { λ _ stop. stop ≡ memory_stop };

    fn from(_: AllocError) -> Self {
        NO_MEMORY
    }
}

impl<T: Drop> From<AllocFailed<T>> for Stop {
    ghost from_gives = { λ _ stop. stop ≡ memory_stop };

    fn from(_: AllocFailed<T>) -> Self {
        NO_MEMORY
    }
}

impl From<NoMemory> for Stop {
    ghost from_gives = { λ _ stop. stop ≡ memory_stop };

    fn from(_: NoMemory) -> Self {
        NO_MEMORY
    }
}

const NO_MEMORY: Stop = Stop::Device {
    trouble: Trouble::Memory,
};

impl Stop {
    ghost use Rattle.pf_say.specs.Stop.{status_of, line_of, trouble_in};

    /// The exit status.
    pub fn status(self) -> u8
        ensures { result ≡ status_of self }
    {
        match self {
            Stop::Input { .. } | Stop::Limit { .. } => 1,
            Stop::Operation { .. } => 6,
            Stop::Device { trouble } => trouble.status(),
        }
    }

    /// What happened to a device or to the memory, if that is the reason.
    pub fn trouble(self) -> Option<Trouble>
        ensures { result ≡ trouble_in self }
    {
        match self {
            Stop::Device { trouble } => Some(trouble),
            _ => None,
        }
    }

    /// The line that is said.
    pub fn line(self, alloc: Global, stems: Stems<'_>) -> Result<Vec<u8>, AllocError>
        ensures { IfOk result (λ text. text.items ≡ line_of (stems_of stems.entry) self) }
    {
        match self {
            Stop::Input { place, fault } => fault_line(alloc, stems, place, fault),
            Stop::Limit { count } => limit_line(alloc, count),
            Stop::Operation { ticket, why } => operation_line(alloc, ticket, why),
            Stop::Device { trouble } => trouble_line(alloc, stems, trouble),
        }
    }
}

impl Trouble {
    ghost use Rattle.pf_say.specs.Stop.{trouble_status, trouble_words, place_in};

    // The exit status.
    fn status(self) -> u8
        ensures { result ≡ trouble_status self }
    {
        match self {
            Trouble::Unread { .. } => 3,
            Trouble::Unwritten { .. } => 4,
            Trouble::Memory => 5,
            Trouble::Missing { .. } => 7,
        }
    }

    /// The file that it happened to, if it happened to one.
    pub fn place(self) -> Option<Place>
        ensures { result ≡ place_in self }
    {
        match self {
            Trouble::Missing { place } | Trouble::Unread { place } | Trouble::Unwritten { place } =>
                { Some(place) }
            Trouble::Memory => None,
        }
    }

    /// What is said of it, behind the name of the file.
    pub fn words(self) -> &'static [u8]
        ensures { result.now ≡ trouble_words self }
    {
        match self {
            Trouble::Missing { .. } => b": missing\n",
            Trouble::Unread { .. } => b": read failed\n",
            Trouble::Unwritten { .. } => b": write failed\n",
            Trouble::Memory => b"parfum: out of memory\n",
        }
    }
}

// The name of the file, if there is one, and what is said of it.
fn trouble_line(alloc: Global, stems: Stems<'_>, trouble: Trouble) -> Result<Vec<u8>, AllocError>
    ensures { IfOk result (λ text. text.items ≡ trouble_line (stems_of stems.entry) trouble) }
{
    let mut text = Vec::new(alloc);
    match trouble.place() {
        Some(place) => put_name(&mut text, stems, place)?,
        None => {}
    }
    text.extend_from_slice(trouble.words())?;
    Ok(text)
}

fn fault_line(
    alloc: Global,
    stems: Stems<'_>,
    place: Place,
    fault: Fault,
) -> Result<Vec<u8>, AllocError>
    ensures { IfOk result (λ text. text.items ≡ name_of (stems_of stems.entry) place ++ fault_text fault) }
{
    let mut text = Vec::new(alloc);
    put_name(&mut text, stems, place)?;
    put_fault(&mut text, fault)?;
    Ok(text)
}

fn limit_line(alloc: Global, count: u64) -> Result<Vec<u8>, AllocError>
    ensures { IfOk result (λ text. text.items ≡ limit_text count) }
{
    let mut text = Vec::new(alloc);
    put(
        &mut text,
        b"limit: nodes plus operations ",
        count,
        b" above 1048576\n",
    )?;
    Ok(text)
}

fn operation_line(alloc: Global, ticket: u32, why: Refusal) -> Result<Vec<u8>, AllocError>
    ensures { IfOk result (λ text. text.items ≡ operation_text ticket why) }
{
    let mut text = Vec::new(alloc);
    put(&mut text, b"operation ", u64::from(ticket), b" refused: ")?;
    match why {
        Refusal::Gone { node } => put(&mut text, b"gone ", u64::from(node), b"")?,
        Refusal::Failing { cond } => put_condition(&mut text, cond)?,
    }
    text.extend_from_slice(b"\n")?;
    Ok(text)
}

// Puts the whole name of a file.
fn put_name(text: &mut Vec<u8>, stems: Stems<'_>, place: Place) -> Result<(), AllocError>
    ensures { OnOk result (text.new.items ≡ text.old.items ++ name_of (stems_of stems.entry) place) }
{
    text.extend_from_slice(stems.stem(place).as_bytes())?;
    text.extend_from_slice(ending(place).as_bytes())
}
