//! Traces of a few events, whose answers were worked out by hand.

use super::*;

// Two actors: one flips the kite's edge while the other tries.
const TRIES: &[u8] =
    b"budget 2 workers 2\nsplit 0 1 1\nlock 0 0\nlock 0 1\nlock 1 1\nlost 1 1\ncommit 0 0 flip 0 1\nlock 0 2\nlock 0 3\ncommit 0 0 flip 0 1\nrelease 0 0\npush 0 0 0\nrelease 0 0\nlock 1 0\n";

const TRIES_SAID: &[u8] =
    b"1 taken\n2 taken\n3 taken\n4 ignored\n5 taken holder 0\n6 ignored\n7 taken\n8 taken\n9 taken ticket 0\n10 ignored\n11 taken\n12 taken\n13 taken\ntickets 1\nfree 0 held 4 dead 0 never 2\ntriangles 0\n";

// The files of a mesh and a trace.
fn traced(
    alloc: Global,
    input: Input<'_>,
    trace: &[u8],
    fail: Vec<Call>,
) -> Result<MemShelf, Fail> {
    let mut shelf = MemShelf::new(alloc, fail);
    put_mesh(&mut shelf, input)?;
    shelf.put("t", trace)?;
    Ok(shelf)
}

// The trace of a mesh ends with this status and says this, and no file is changed.
fn assert_traced<R: Abort + AllocGlobal + Threads + Sync>(
    rt: &R,
    input: Input<'_>,
    trace: &[u8],
    status: u8,
    said: &[u8],
) -> Result<(), Fail> {
    let mut shelf = traced(rt.alloc(), input, trace, Vec::new(rt.alloc()))?;
    assert_run(rt, &["trace", "k", "t"], &mut shelf, status, said)?;
    assert_held(rt, &shelf, "k.node", input.node);
    assert_held(rt, &shelf, "k.ele", input.ele);
    assert_held(rt, &shelf, "t", trace);
    Ok(())
}

#[test]
fn one_actor_flips_while_the_other_tries(rt: HostRuntime) -> Result<(), Fail> {
    assert_traced(&rt, KITE, TRIES, 0, TRIES_SAID)
}

#[test]
fn events_whose_guard_fails_are_ignored(rt: HostRuntime) -> Result<(), Fail> {
    assert_traced(
        &rt,
        SQUARE,
        b"budget 1 workers 2\nlock 5 0\njoin 0 0\nsplit 0 0 1\nsplit 0 1 2\nsplit 0 1 0\nlock 1 0\nlock 1 2\ncommit 1 0 bisect 0 2\nnote 1 0 flip 0 2\nrelease 0 0\njoin 0 1\nlost 0 2\nbury 1 0\nrelease 1 0\nlock 0 0\nlock 0 9\npush 0 0 0\n",
        0,
        b"1 ignored\n2 ignored\n3 ignored\n4 ignored\n5 taken\n6 taken\n7 taken\n8 ignored\n9 taken ticket 0\n10 ignored\n11 ignored\n12 taken holder 1\n13 ignored\n14 taken\n15 taken\n16 ignored\n17 ignored\ntickets 0\nfree 2 held 2 dead 0 never 1\ntriangles 0\n",
    )
}

#[test]
fn the_node_of_a_bisection_is_born(rt: HostRuntime) -> Result<(), Fail> {
    assert_traced(
        &rt,
        SQUARE,
        b"budget 1 workers 1\nlock 0 0\nlock 0 1\nlock 0 2\nlock 0 3\ncommit 0 0 bisect 0 2\nbirth 0 4\npush 0 0 4\nbirth 0 4\nrelease 0 0\npush 0 0 0\nrelease 0 0\ncommit 0 0 bisect 0 4\npush 0 0 0\nnote 0\n",
        0,
        b"1 taken\n2 taken\n3 taken\n4 taken\n5 taken ticket 0\n6 ignored\n7 taken\n8 taken\n9 ignored\n10 taken\n11 taken\n12 ignored\n13 ignored\n14 taken ticket 1\ntickets 1\nfree 1 held 4 dead 0 never 0\ntriangles 0\n",
    )
}

// The actor takes the kite's corners, flips, and puts back all that it owes.
#[test]
fn what_is_put_back_is_free(rt: HostRuntime) -> Result<(), Fail> {
    assert_traced(
        &rt,
        Input {
            part: b"0\n1\n",
            ..KITE
        },
        b"budget 1 workers 1\nlock 0 0\nlock 0 1\nlock 0 2\nlock 0 3\ncommit 0 0 flip 0 1\npush 0 0 0\npush 0 1 0\npush 0 0 1\npush 0 1 1\npush 0 0 2\npush 0 1 2\npush 0 0 3\npush 0 1 3\nrelease 0 0\nrelease 0 1\nrelease 0 2\nrelease 0 3\npush 0 1 0\n",
        0,
        b"1 taken\n2 taken\n3 taken\n4 taken\n5 taken ticket 0\n6 taken\n7 taken\n8 taken\n9 taken\n10 taken\n11 taken\n12 taken\n13 taken\n14 taken\n15 taken\n16 taken\n17 taken\n18 ignored\ntickets 1\nfree 4 held 0 dead 0 never 1\ntriangles 2\n",
    )
}

#[test]
fn a_mesh_without_events_is_free(rt: HostRuntime) -> Result<(), Fail> {
    assert_traced(
        &rt,
        KITE,
        b"budget 3 workers 64\n",
        0,
        b"tickets 0\nfree 4 held 0 dead 0 never 3\ntriangles 2\n",
    )
}

#[test]
fn a_line_in_no_form_is_refused(rt: HostRuntime) -> Result<(), Fail> {
    for (trace, said) in [
        (b"".as_slice(), b"t line 1: event refused\n".as_slice()),
        (b"budget 1048573 workers 1\n", b"t line 1: event refused\n"),
        (
            b"\n# none\nbudget 1 workers 1\nlock 0 0 0\n",
            b"t line 4: event refused\n",
        ),
    ] {
        assert_traced(&rt, KITE, trace, 1, said)?;
    }
    Ok(())
}

#[test]
fn a_trace_is_the_last_file_that_is_read(rt: HostRuntime) -> Result<(), Fail> {
    let mut shelf = traced(rt.alloc(), KITE, b"budgets\n", Vec::new(rt.alloc()))?;
    for (words, status, said) in [
        (
            ["trace", "k", "u"].as_slice(),
            7,
            b"u: missing\n".as_slice(),
        ),
        (&["trace", "m", "t"], 7, b"m.node: missing\n"),
        (&["trace", "k"], 2, b"parfum: words refused\n"),
        (&["trace", "k", "-t"], 2, b"parfum: words refused\n"),
    ] {
        assert_run(&rt, words, &mut shelf, status, said)?;
    }
    Ok(())
}

#[test]
fn a_trace_that_is_not_read_is_named(rt: HostRuntime) -> Result<(), Fail> {
    let (kind, nth) = (Kind::Read, 8);
    let fail = vec![in rt.alloc(); Call { kind, nth }]?;
    let mut shelf = traced(rt.alloc(), KITE, TRIES, fail)?;
    let words = ["trace", "k", "t", "--scale", "2"];
    assert_run(&rt, &words, &mut shelf, 3, b"t: read failed\n")
}
