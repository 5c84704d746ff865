// The real devices: files of the system, and its standard output. No clause says which bytes reach them.
ghost use Rattle.std.specs.Prelude.{◌≡◌, ◌<◌, ◌≤◌, length, None, IfOk};
ghost use Rattle.pf_shelf.specs.Real.{no_counts, seen_of};

use crate::count::raise;
use crate::{Shelf, ShelfFault, Sink, SinkFault};
use std::fs::OpenOptions;
use std::io;
use std::io::{ErrorKind, Read, Seek, SeekFrom, Write};
use std::marker::Model;
use std::rt::Files;

/// The files of the system, by their paths. It keeps no file open between two calls, and tells nothing.
#[derive(Drop)]
pub struct FileShelf<'a, R: Files> {
    rt: &'a R,
    read_faults: u64,
    write_faults: u64,
    misses: u64,
    taken: u64,
}

impl<'a, R: Files> Model for FileShelf<'a, R> {
    ghost use Rattle.pf_shelf.specs.Real.{Counts};

    ghost Value = { Counts };

    ghost view = { λ a. record { read_faults = a.read_faults; write_faults = a.write_faults; misses = a.misses; taken = a.taken } };
}

impl<'a, R: Files> FileShelf<'a, R> {
    /// The files that the runtime opens. All counts are 0.
    pub fn new(rt: &'a R) -> FileShelf<'a, R>
        ensures { result ≡ no_counts }
    {
        FileShelf {
            rt,
            read_faults: 0,
            write_faults: 0,
            misses: 0,
            taken: 0,
        }
    }
}

fn read_from<R: Files>(rt: &R, name: &str, at: u64, buf: &mut [u8]) -> io::Result<usize>
    ensures { IfOk result (λ n. n ≤ length buf.old) }
{
    let mut file = OpenOptions::new().read(true).open(rt, name)?;
    file.seek(SeekFrom::Start(at))?;
    file.read(buf)
}

fn make_empty<R: Files>(rt: &R, name: &str) -> io::Result<()> {
    let _file = OpenOptions::new()
        .write(true)
        .create(true)
        .truncate(true)
        .open(rt, name)?;
    Ok(())
}

fn add_to<R: Files>(rt: &R, name: &str, bytes: &[u8]) -> io::Result<usize>
    ensures { IfOk result (λ n. n ≤ length bytes.now) }
{
    let mut file = OpenOptions::new().append(true).open(rt, name)?;
    file.write(bytes)
}

impl<R: Files> Shelf for FileShelf<'_, R> {
    ghost seen = { seen_of };

    fn read_at(&mut self, name: &str, at: u64, buf: &mut [u8]) -> Result<usize, ShelfFault> {
        match read_from(self.rt, name, at, buf) {
            Ok(n) => {
                self.taken = raise(self.taken, n as u64);
                Ok(n)
            }
            Err(error) if error.kind() == ErrorKind::NotFound => {
                self.misses = raise(self.misses, 1);
                Err(ShelfFault::Absent)
            }
            Err(_) => {
                self.read_faults = raise(self.read_faults, 1);
                Err(ShelfFault::Failed)
            }
        }
    }

    fn create(&mut self, name: &str) -> Result<(), ShelfFault> {
        match make_empty(self.rt, name) {
            Ok(()) => Ok(()),
            Err(_) => {
                self.write_faults = raise(self.write_faults, 1);
                Err(ShelfFault::Failed)
            }
        }
    }

    fn append(&mut self, name: &str, bytes: &[u8]) -> Result<usize, ShelfFault> {
        match add_to(self.rt, name, bytes) {
            Ok(n) if n > 0 || bytes.is_empty() => Ok(n),
            _ => {
                self.write_faults = raise(self.write_faults, 1);
                Err(ShelfFault::Failed)
            }
        }
    }
}

/// Standard output. It has no buffer, so what it took stays written where the process ends. It tells nothing.
#[derive(Drop)]
pub struct StdSink<'a, R: Print> {
    rt: &'a R,
    faults: u64,
}

impl<'a, R: Print> Model for StdSink<'a, R> {
    ghost use Rattle.std.specs.Prelude.{ℕ};

    ghost Value = { ℕ };

    ghost view = { λ a. a.faults };
}

impl<'a, R: Print> StdSink<'a, R> {
    /// The standard output of the runtime. Its count of faults is 0.
    pub fn new(rt: &'a R) -> StdSink<'a, R>
        ensures { result ≡ 0 }
    {
        StdSink { rt, faults: 0 }
    }
}

impl<R: Print> Sink for StdSink<'_, R> {
    ghost heard = { λ sink. record { told = None; faults = sink } };

    fn append(&mut self, bytes: &[u8]) -> Result<usize, SinkFault> {
        match self.rt.write_some(bytes) {
            Ok(n) if n > 0 || bytes.is_empty() => Ok(n),
            _ => {
                self.faults = raise(self.faults, 1);
                Err(SinkFault)
            }
        }
    }
}
