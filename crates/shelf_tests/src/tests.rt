//! Files and streams in memory and of the system, written and read.
ghost use Rattle.std.specs.Prelude.{None};

use pf_shelf::{
    Call, FileShelf, Kind, MemShelf, MemSink, ReadErr, Shelf, ShelfFault, StdSink, WriteErr,
    read_all, say_all, write_all,
};
use std::fmt::Display;
use std::process::Abort;
use std::test::Fail;
use std::{env, fs, io, process};

// A file of zeros of any length, for which no memory is taken.
#[derive(Drop)]
struct Zeros {
    len: u64,
    taken: u64,
    failed: u64,
}

fn make_zeros(len: u64) -> Zeros {
    Zeros {
        len,
        taken: 0,
        failed: 0,
    }
}

impl Shelf for Zeros {
    ghost seen = { λ shelf. record { told = None; read_faults = 0; write_faults = shelf.failed; misses = 0; taken = shelf.taken } };

    fn read_at(&mut self, _name: &str, at: u64, buf: &mut [u8]) -> Result<usize, ShelfFault> {
        let left = self.len.saturating_sub(at);
        let n = left.min(buf.len() as u64);
        buf[..n as usize].fill(0);
        self.taken = self.taken.saturating_add(n);
        Ok(n as usize)
    }

    fn create(&mut self, _name: &str) -> Result<(), ShelfFault> {
        self.failed = self.failed.saturating_add(1);
        Err(ShelfFault::Failed)
    }

    fn append(&mut self, _name: &str, _bytes: &[u8]) -> Result<usize, ShelfFault> {
        self.failed = self.failed.saturating_add(1);
        Err(ShelfFault::Failed)
    }
}

// A pipe that takes two bytes a call, for so many calls, and breaks then.
#[derive(Drop)]
struct Pipe {
    calls: std::cell::Cell<u8>,
}

impl Print for Pipe {
    fn print<D: Display + Drop>(&self, _value: D) -> io::Result<()> {
        Err(io::Error::from(io::ErrorKind::BrokenPipe))
    }

    fn println<D: Display + Drop>(&self, _value: D) -> io::Result<()> {
        Err(io::Error::from(io::ErrorKind::BrokenPipe))
    }

    fn write_all(&self, _bytes: &[u8]) -> io::Result<()> {
        Err(io::Error::from(io::ErrorKind::BrokenPipe))
    }

    fn write_some(&self, bytes: &[u8]) -> io::Result<usize> {
        let left = self.calls.get();
        if left == 0 {
            return Err(io::Error::from(io::ErrorKind::BrokenPipe));
        }
        self.calls.set(left - 1);
        Ok(bytes.len().min(2))
    }
}

const LIMIT: u64 = 268_435_456;

fn failing(alloc: std::alloc::Global, kind: Kind, nth: u64) -> Result<MemShelf, Fail> {
    Ok(MemShelf::new(alloc, vec![in alloc; Call { kind, nth }]?))
}

fn holds(shelf: &MemShelf, name: &str, bytes: &[u8]) -> bool {
    match shelf.get(name) {
        Some(file) => file == bytes,
        None => false,
    }
}

// Reads a file of at most 5000 bytes.
fn assert_read<S: Shelf>(
    rt: &(impl Abort + AllocGlobal),
    shelf: &mut S,
    name: &str,
    want: Result<&[u8], ReadErr>,
) {
    match (read_all(rt.alloc(), shelf, name, 5000), want) {
        (Ok(file), Ok(bytes)) => assert!(rt; file.as_slice() == bytes),
        (Err(error), Err(other)) => assert_eq!(rt; error, other),
        _ => panic!(rt; "another answer was due"),
    }
}

#[test]
fn a_file_in_memory_is_written_and_read(rt: HostRuntime) -> Result<(), Fail> {
    let alloc = rt.alloc();
    let mut shelf = MemShelf::new(alloc, Vec::new(alloc));
    shelf.room("new", 5000)?;
    assert!(rt; shelf.get("new").is_none());
    let bytes = vec![in alloc; b'x'; 5000]?;
    write_all(&mut shelf, "new", &bytes)?;
    assert_read(&rt, &mut shelf, "new", Ok(&bytes));
    shelf.put("old", b"some text")?;
    shelf.put("old", b"text")?;
    assert!(rt; holds(&shelf, "old", b"text"));
    write_all(&mut shelf, "old", b"other")?;
    assert!(rt; holds(&shelf, "old", b"other"));
    Ok(())
}

#[test]
fn a_shelf_in_memory_refuses_what_has_no_place(rt: HostRuntime) -> Result<(), Fail> {
    let alloc = rt.alloc();
    let mut shelf = MemShelf::new(alloc, Vec::new(alloc));
    assert_read(&rt, &mut shelf, "a", Err(ReadErr::Missing));
    assert_eq!(rt; shelf.create("a"), Err(ShelfFault::Failed));
    shelf.room("a", 4)?;
    assert_eq!(rt; shelf.append("a", b"12"), Err(ShelfFault::Failed));
    assert_eq!(rt; shelf.create("a"), Ok(()));
    assert_eq!(rt; shelf.append("a", b"12"), Ok(2));
    assert_eq!(rt; shelf.append("a", b"345"), Err(ShelfFault::Failed));
    assert_eq!(rt; shelf.append("a", b"34"), Ok(2));
    assert!(rt; holds(&shelf, "a", b"1234"));
    Ok(())
}

#[test]
fn a_read_that_is_listed_fails(rt: HostRuntime) -> Result<(), Fail> {
    let mut shelf = failing(rt.alloc(), Kind::Read, 1)?;
    shelf.put("a", b"12")?;
    assert_read(&rt, &mut shelf, "a", Err(ReadErr::Fault));
    assert_read(&rt, &mut shelf, "a", Ok(b"12"));
    Ok(())
}

#[test]
fn a_create_that_is_listed_fails(rt: HostRuntime) -> Result<(), Fail> {
    let mut shelf = failing(rt.alloc(), Kind::Create, 1)?;
    shelf.put("a", b"12")?;
    assert_eq!(rt; write_all(&mut shelf, "a", b"3"), Ok(()));
    assert_eq!(rt; write_all(&mut shelf, "a", b"4"), Err(WriteErr::Fault));
    assert!(rt; holds(&shelf, "a", b"3"));
    Ok(())
}

#[test]
fn an_append_that_is_listed_fails(rt: HostRuntime) -> Result<(), Fail> {
    let mut shelf = failing(rt.alloc(), Kind::Append, 0)?;
    shelf.put("a", b"12")?;
    assert_eq!(rt; write_all(&mut shelf, "a", b"3"), Err(WriteErr::Fault));
    assert!(rt; holds(&shelf, "a", b""));
    Ok(())
}

#[test]
fn a_file_of_the_limit_is_read_and_one_byte_more_is_too_long(rt: HostRuntime) {
    let alloc = rt.alloc();
    match read_all(alloc, &mut make_zeros(LIMIT), "zeros", LIMIT) {
        Ok(file) => assert_eq!(rt; file.len() as u64, LIMIT),
        Err(_) => panic!(rt; "it has as many bytes as are allowed"),
    }
    match read_all(alloc, &mut make_zeros(LIMIT + 1), "zeros", LIMIT) {
        Ok(_) => panic!(rt; "it has one byte too many"),
        Err(error) => assert_eq!(rt; error, ReadErr::TooLong { limit: LIMIT }),
    }
}

#[test]
fn a_sink_in_memory_takes_text_up_to_its_room(rt: HostRuntime) -> Result<(), Fail> {
    let alloc = rt.alloc();
    let mut sink = MemSink::new(alloc, vec![in alloc; 2]?);
    sink.room(5)?;
    assert_eq!(rt; say_all(&mut sink, b"123"), Ok(()));
    assert_eq!(rt; say_all(&mut sink, b"456"), Err(WriteErr::Fault));
    assert_eq!(rt; say_all(&mut sink, b"45"), Err(WriteErr::Fault));
    assert_eq!(rt; say_all(&mut sink, b"45"), Ok(()));
    assert_eq!(rt; sink.text(), b"12345".as_slice());
    Ok(())
}

#[test]
fn a_real_file_is_written_and_read(rt: HostRuntime) -> Result<(), Fail> {
    let alloc = rt.alloc();
    let name = format!(in alloc; "pf_shelf-{}", process::id(rt.process()))?;
    let path = env::temp_dir(&rt)?.join(alloc, name.as_str())?;
    let mut shelf = FileShelf::new(&rt);
    assert_read(&rt, &mut shelf, path.as_str(), Err(ReadErr::Missing));
    let bytes = vec![in alloc; b'x'; 5000]?;
    assert_eq!(rt; write_all(&mut shelf, path.as_str(), b"some text"), Ok(()));
    assert_read(&rt, &mut shelf, path.as_str(), Ok(b"some text"));
    assert_eq!(rt; write_all(&mut shelf, path.as_str(), &bytes), Ok(()));
    assert_read(&rt, &mut shelf, path.as_str(), Ok(&bytes));
    assert_eq!(rt; write_all(&mut shelf, path.as_str(), &[b'x'; 5001]), Ok(()));
    assert_read(
        &rt,
        &mut shelf,
        path.as_str(),
        Err(ReadErr::TooLong { limit: 5000 }),
    );
    fs::remove_file(&rt, path.as_str())?;

    // A folder can be neither read nor written.
    let folder = env::temp_dir(&rt)?;
    assert_read(&rt, &mut shelf, folder.as_str(), Err(ReadErr::Fault));
    assert_eq!(rt;
        write_all(&mut shelf, folder.as_str(), b"x"),
        Err(WriteErr::Fault)
    );
    Ok(())
}

#[test]
fn standard_output_takes_a_text(rt: HostRuntime) {
    let mut sink = StdSink::new(&rt);
    assert_eq!(rt; say_all(&mut sink, b"a text on standard output\n"), Ok(()));
}

#[test]
fn a_pipe_that_breaks_is_a_fault(rt: HostRuntime) {
    let pipe = Pipe {
        calls: std::cell::Cell::new(3),
    };
    let mut sink = StdSink::new(&pipe);
    assert_eq!(rt; say_all(&mut sink, b"1234"), Ok(()));
    assert_eq!(rt; say_all(&mut sink, b"1234"), Err(WriteErr::Fault));
}
