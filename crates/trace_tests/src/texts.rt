//! The text of a trace, read, and the text that it is answered by, written.

use pf_core_model::{Asked, Event, Verdict};
use pf_model::Op;
use std::test::Fail;
use trace_text::{Closing, TraceErr, push_closing, push_verdict, read_trace};

#[test]
fn a_trace_is_read(rt: HostRuntime) -> Result<(), Fail> {
    let text =
        b"# two\n\n budget 002\tworkers 2 # actors\nsplit 0 1 1\nlock 0 9\nlost 1 9\nnote 1\nnote 1 7 flip 9 8\ncommit 0 65535 contract 4 3\npush 0 3 9\nbirth 0 12\nrelease 0 9\nbury 0 4\njoin 0 1";
    let trace = read_trace(rt.alloc(), text, 10, 4)?;
    assert_eq!(rt; trace.budget, 2);
    assert_eq!(rt; trace.workers, 2);
    let wanted = [
        Event::Split {
            a: 0,
            b: 1,
            share: 1,
        },
        Event::Lock { a: 0, n: 9 },
        Event::Lost { a: 1, n: 9 },
        Event::Note { a: 1, asked: None },
        Event::Note {
            a: 1,
            asked: Some(Asked {
                chunk: 7,
                op: Op::Flip { a: 8, b: 9 },
            }),
        },
        Event::Commit {
            a: 0,
            chunk: 65535,
            op: Op::Contract { u: 4, v: 3 },
        },
        Event::Push {
            a: 0,
            chunk: 3,
            n: 9,
        },
        Event::Birth { a: 0, n: 12 },
        Event::Release { a: 0, n: 9 },
        Event::Bury { a: 0, n: 4 },
        Event::Join { a: 0, b: 1 },
    ];
    assert_eq!(rt; trace.events.as_slice(), wanted.as_slice());
    Ok(())
}

#[test]
fn the_first_line_in_no_form_is_named(rt: HostRuntime) {
    for (text, line) in [
        ("", 1),
        ("\n# nothing\n\n", 1),
        ("\nbudget 1 worker 1\n", 2),
        ("budget 1 workers 0\n", 1),
        ("budget 1 workers 65\n", 1),
        ("budget 1 workers 1 1\n", 1),
        ("budget 65527 workers 1\n", 1),
        ("budget 1 workers 1\nlock 0\n", 2),
        ("budget 1 workers 1\nlock 0 1 2\n", 2),
        ("budget 1 workers 1\nlock 0 4294967296\n", 2),
        ("budget 1 workers 1\nlock 0 -1\n", 2),
        ("budget 1 workers 1\n\nnote 0\nnote 0 0\n", 4),
        ("budget 1 workers 1\npush 0 65536 1\n", 2),
        ("budget 1 workers 1\ncommit 0 0 collapse 0 1\n", 2),
        ("budget 1 workers 1\nnote 0\nbudget 1 workers 1\n", 3),
    ] {
        assert!(rt; text.len() <= 100);
        let read = read_trace(rt.alloc(), text.as_bytes(), 10, 64);
        assert_eq!(rt; read.err(), Some(TraceErr::Line { line }), "{text:?}");
    }
}

#[test]
fn both_limits_are_met_exactly(rt: HostRuntime) -> Result<(), Fail> {
    let copies = read_trace(rt.alloc(), b"budget 65526 workers 64\n", 10, 64)?;
    assert_eq!(rt; copies.budget, 65526);
    let names = read_trace(rt.alloc(), b"budget 1048566 workers 1\n", 10, 4)?;
    assert_eq!(rt; names.budget, 1_048_566);
    let more = read_trace(rt.alloc(), b"budget 1048567 workers 1\n", 10, 1);
    assert_eq!(rt; more.err(), Some(TraceErr::Line { line: 1 }));
    Ok(())
}

fn taken(value: Option<u32>) -> Verdict {
    Verdict::Taken { value }
}

#[test]
fn what_became_of_the_events_is_written(rt: HostRuntime) -> Result<(), Fail> {
    let mut text = Vec::new(rt.alloc());
    push_verdict(&mut text, 1, Event::Lock { a: 0, n: 4 }, taken(None))?;
    push_verdict(&mut text, 2, Event::Lost { a: 1, n: 4 }, taken(Some(0)))?;
    push_verdict(
        &mut text,
        3,
        Event::Note { a: 1, asked: None },
        taken(Some(7)),
    )?;
    push_verdict(&mut text, 10, Event::Bury { a: 1, n: 4 }, Verdict::Ignored)?;
    let closing = Closing {
        tickets: 7,
        free: 3,
        held: 1,
        dead: 20,
        never: 0,
        triangles: 2,
    };
    push_closing(&mut text, closing)?;
    let wanted =
        b"1 taken\n2 taken holder 0\n3 taken ticket 7\n10 ignored\ntickets 7\nfree 3 held 1 dead 20 never 0\ntriangles 2\n";
    assert_eq!(rt; text.as_slice(), wanted.as_slice());
    Ok(())
}
