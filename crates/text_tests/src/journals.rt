//! The text of a journal.
ghost use Rattle.std.specs.Prelude.{◌≡◌};

use pf_journal::{JourErr, journal_text, read_journal};
use pf_model::{Entry, Op};
use std::process::Abort;
use std::test::Fail;

fn entry(ticket: u32, chunk: u16, op: Op) -> Entry
    ensures { result ≡ record { ticket = ticket; chunk = chunk; op = op } }
{
    Entry { ticket, chunk, op }
}

#[test]
fn a_journal_is_read(rt: HostRuntime) -> Result<(), Fail> {
    let text =
        b"\n# one\n parfum\tjournal  1 # of each\n0 0 flip 9 7\n\n1 65535 bisect 2 8\n02 7 contract 4294967295 0\nend 3";
    let entries = read_journal(rt.alloc(), text)?;
    let wanted = [
        entry(0, 0, Op::Flip { a: 7, b: 9 }),
        entry(1, 65535, Op::Bisect { a: 2, b: 8 }),
        entry(
            2,
            7,
            Op::Contract {
                u: 4_294_967_295,
                v: 0,
            },
        ),
    ];
    assert_eq!(rt; entries.as_slice(), wanted.as_slice());
    Ok(())
}

// A journal has this fault.
fn assert_fault<R: Abort + AllocGlobal>(rt: &R, text: &str, fault: JourErr) {
    assert!(rt; text.len() <= 100);
    let read = read_journal(rt.alloc(), text.as_bytes());
    assert_eq!(rt; read.err(), Some(fault), "{text:?}");
}

#[test]
fn each_fault_of_a_journal_is_named(rt: HostRuntime) {
    for (text, fault) in [
        ("", JourErr::Head),
        ("parfum journal 01\nend 0\n", JourErr::Head),
        (
            "parfum journal 1\n0 0 flip 0 1\n",
            JourErr::Short { line: 3 },
        ),
        ("parfum journal 1\nx 0 flip 0\n", JourErr::Short { line: 2 }),
        (
            "parfum journal 1\n1 x flip 0 1\n",
            JourErr::Ticket {
                line: 2,
                expected: 0,
                found: 1,
            },
        ),
        (
            "parfum journal 1\n0 65536 flip 0 1\n",
            JourErr::Word { line: 2, column: 3 },
        ),
        (
            "parfum journal 1\n0 0 bisection 0 1\n",
            JourErr::Word { line: 2, column: 5 },
        ),
        (
            "parfum journal 1\n0 0 contract 1 0 0\n",
            JourErr::Word {
                line: 2,
                column: 18,
            },
        ),
        (
            "parfum journal 1\nend 7 x\n",
            JourErr::Ticket {
                line: 2,
                expected: 0,
                found: 7,
            },
        ),
        (
            "parfum journal 1\nend 0\n# more\nend 0\n",
            JourErr::Extra { line: 4 },
        ),
    ] {
        assert_fault(&rt, text, fault);
    }
}

#[test]
fn a_journal_is_written_with_lower_names_first(rt: HostRuntime) -> Result<(), Fail> {
    let entries = [
        entry(0, 0, Op::Flip { a: 9, b: 7 }),
        entry(1, 65535, Op::Bisect { a: 8, b: 2 }),
        entry(
            2,
            7,
            Op::Contract {
                u: 4_294_967_295,
                v: 0,
            },
        ),
    ];
    let text = journal_text(rt.alloc(), &entries)?;
    let wanted =
        b"parfum journal 1\n0 0 flip 7 9\n1 65535 bisect 2 8\n2 7 contract 4294967295 0\nend 3\n";
    assert_eq!(rt; text.as_slice(), wanted.as_slice());
    Ok(())
}
