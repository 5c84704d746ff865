// Whole files and whole texts, over any shelf and any sink.
ghost use Rattle.std.specs.Prelude.{◌≡◌, ◌<◌, ◌≤◌, ◌+◌, ◌*◌, ◌^◌, ◌⊎◌, length, take, max, IfOk, IfErr, OnOk, OnErr, IsErrOf, vec_len};
ghost use Rattle.pf_shelf.specs.Answers.{IfTooLong};
ghost use Rattle.pf_shelf.specs.Count.{Rose, RoseByMore};
ghost use Rattle.pf_shelf.specs.Files.{Tells, held, bytes_at, IsAsBefore, ChangesOnly, HoldsPrefix};
ghost use Rattle.pf_shelf.specs.Sink.{extended, GainsPrefix};

use crate::{Shelf, ShelfFault, Sink};
use std::alloc::{AllocError, Global};
use thiserror::Error;

/// Why a file wasn't read.
#[derive(Clone, Copy, Debug, PartialEq, Eq, Error)]
pub enum ReadErr {
    /// There is no file of that name.
    #[error("missing")]
    Missing,
    /// The shelf failed.
    #[error("read failed")]
    Fault,
    /// The file has more bytes than the limit.
    #[error("longer than {limit} bytes")]
    TooLong { limit: u64 },
    /// Memory ran out.
    #[error("out of memory")]
    Memory,
}

/// Why a text wasn't written whole.
#[derive(Clone, Copy, Debug, PartialEq, Eq, Error)]
pub enum WriteErr {
    /// The device failed.
    #[error("write failed")]
    Fault,
}

const FIRST_LEN: usize = 4096;

// How much longer a buffer is made at once. What is read into a longer one would no longer be at hand from making it.
const MOST_MORE: usize = 1 << 18;

/// The bytes of the file, which are at most `limit`. Memory is taken as the file is read: at most in proportion to
/// what it has, whatever the limit.
pub fn read_all<S: Shelf>(
    alloc: Global,
    shelf: &mut S,
    name: &str,
    limit: u64,
) -> Result<Vec<u8>, ReadErr>
    ensures within { IfOk result (λ file. vec_len file ≤ limit) }
    ensures whole { Tells (S.seen shelf.old).told →
        IfOk result (λ file. held (S.seen shelf.old).told name.now ≡ Some file.items) }

    // A missing file.
    ensures missing { IsErrOf result ReadErr.Missing → Rose (S.seen shelf.old).misses (S.seen shelf.new).misses }
    ensures not_held { Tells (S.seen shelf.old).told →
        IsErrOf result ReadErr.Missing → held (S.seen shelf.old).told name.now ≡ None }
    ensures always_missing { (S.seen shelf.old).misses < (S.seen shelf.new).misses → IsErrOf result ReadErr.Missing }

    // A failing read: a read that was counted as one is never given another name.
    ensures fault { IsErrOf result ReadErr.Fault → Rose (S.seen shelf.old).read_faults (S.seen shelf.new).read_faults }
    ensures always_fault { (S.seen shelf.old).read_faults < (S.seen shelf.new).read_faults → IsErrOf result ReadErr.Fault }

    // A file that is too long: the answer comes only there, and there always, want of memory aside.
    ensures names_limit { IfErr result (λ error. IfTooLong error (λ named. named ≡ limit)) }
    ensures too_long { IsErrOf result (ReadErr.TooLong limit) → RoseByMore limit (S.seen shelf.old).taken (S.seen shelf.new).taken }
    ensures always_too_long { (S.seen shelf.old).taken + limit < (S.seen shelf.new).taken →
        IsErrOf result (ReadErr.TooLong limit) ⊎ IsErrOf result ReadErr.Memory }
    ensures longer { Tells (S.seen shelf.old).told →
        IsErrOf result (ReadErr.TooLong limit) → limit < length (bytes_at (S.seen shelf.old).told name.now) }

    // Whatever it answers.
    ensures files { IsAsBefore (S.seen shelf.old).told (S.seen shelf.new).told }
    ensures read_faults { (S.seen shelf.old).read_faults ≤ (S.seen shelf.new).read_faults }
    ensures write_faults { (S.seen shelf.new).write_faults ≡ (S.seen shelf.old).write_faults }
    ensures misses { (S.seen shelf.old).misses ≤ (S.seen shelf.new).misses }
    ensures taken { (S.seen shelf.old).taken ≤ (S.seen shelf.new).taken }
{
    let mut file = Vec::new(alloc);
    let mut at = 0;
    'turns: loop {
        if grow(&mut file, at, limit).is_err() {
            return Err(ReadErr::Memory);
        }
        match shelf.read_at(name, at as u64, &mut file[at..]) {
            Ok(0) => {
                file.truncate(at);
                return Ok(file);
            }
            Ok(n) => at += n,
            Err(ShelfFault::Failed) => return Err(ReadErr::Fault),
            Err(ShelfFault::Absent) => return Err(ReadErr::Missing),
        }
        if at as u64 > limit {
            return Err(ReadErr::TooLong { limit });
        }
    }
}

// Makes the buffer longer where the bytes read so far fill it.
fn grow(file: &mut Vec<u8>, at: usize, limit: u64) -> Result<(), AllocError>
    requires within { at ≤ limit }
    requires in_file { at ≤ vec_len file.old }
    ensures more { OnOk result (at < vec_len file.new) }
    ensures same { take at file.new.items ≡ take at file.old.items }
    ensures follows { vec_len file.new ≤ max (vec_len file.old) (max (2 * at) FIRST_LEN) }
{
    if at == file.len() {
        file.resize(next_len(at, limit), 0)?;
    }
    Ok(())
}

// How long the buffer for a file is made where it has this length and is full: twice that, no more than `MOST_MORE`
// longer, and no more than one byte past the limit.
fn next_len(len: usize, limit: u64) -> usize
    requires within { len ≤ limit }
    requires small { len < 2 ^ 63 }
    ensures more { len < result }
    ensures most { result ≤ limit + 1 }
    ensures follows { result ≤ max (2 * len) FIRST_LEN }
{
    let most = limit.saturating_add(1) as usize;
    let twice = len.saturating_mul(2).max(FIRST_LEN);
    twice.min(len.saturating_add(MOST_MORE)).min(most)
}

/// Writes the file, new or not. It takes no memory of its own.
pub fn write_all<S: Shelf>(shelf: &mut S, name: &str, bytes: &[u8]) -> Result<(), WriteErr>
    ensures whole { Tells (S.seen shelf.old).told → OnOk result (held (S.seen shelf.new).told name.now ≡ Some bytes.now) }

    // A failing write: at the first call all files are as before, later a prefix stands under the name.
    ensures fault { OnErr result (Rose (S.seen shelf.old).write_faults (S.seen shelf.new).write_faults) }
    ensures no_fault { OnOk result ((S.seen shelf.new).write_faults ≡ (S.seen shelf.old).write_faults) }
    ensures prefix { OnErr result (IsAsBefore (S.seen shelf.old).told (S.seen shelf.new).told
        ⊎ HoldsPrefix name.now bytes.now (S.seen shelf.new).told) }

    // Whatever it answers.
    ensures others { ChangesOnly name.now (S.seen shelf.old).told (S.seen shelf.new).told }
    ensures read_faults { (S.seen shelf.new).read_faults ≡ (S.seen shelf.old).read_faults }
    ensures write_faults { (S.seen shelf.old).write_faults ≤ (S.seen shelf.new).write_faults }
    ensures misses { (S.seen shelf.new).misses ≡ (S.seen shelf.old).misses }
    ensures taken { (S.seen shelf.new).taken ≡ (S.seen shelf.old).taken }
{
    match shelf.create(name) {
        Ok(()) => (),
        Err(_) => return Err(WriteErr::Fault),
    }
    let mut done = 0;
    while done < bytes.len() {
        match shelf.append(name, &bytes[done..]) {
            Ok(n) => done += n,
            Err(_) => return Err(WriteErr::Fault),
        }
    }
    Ok(())
}

/// Gives the sink all the bytes. It takes no memory of its own.
pub fn say_all<K: Sink>(sink: &mut K, bytes: &[u8]) -> Result<(), WriteErr>
    ensures whole { OnOk result ((K.heard sink.new).told ≡ extended (K.heard sink.old).told bytes.now) }

    // A failing write: the sink has gained a prefix.
    ensures fault { OnErr result (Rose (K.heard sink.old).faults (K.heard sink.new).faults) }
    ensures no_fault { OnOk result ((K.heard sink.new).faults ≡ (K.heard sink.old).faults) }
    ensures prefix { OnErr result (GainsPrefix bytes.now (K.heard sink.old).told (K.heard sink.new).told) }

    // Whatever it answers.
    ensures faults { (K.heard sink.old).faults ≤ (K.heard sink.new).faults }
{
    let mut said = 0;
    while said < bytes.len() {
        match sink.append(&bytes[said..]) {
            Ok(n) => said += n,
            Err(_) => return Err(WriteErr::Fault),
        }
    }
    Ok(())
}
