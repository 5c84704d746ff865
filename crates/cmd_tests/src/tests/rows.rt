//! Meshes and journals of a few lines, whose ends were worked out by hand.

use super::*;

// A fan round a node inside.
const STAR: Input<'static> = Input {
    node: b"5 2 0 0\n0 4 3\n1 0 0\n2 4 1\n3 8 0\n4 4 8\n",
    ele: b"4 3 0\n0 0 1 2\n1 0 2 3\n2 0 3 4\n3 0 4 1\n",
    part: b"0\n0\n0\n0\n",
    size: ALL_LENGTHS,
};

// A mesh in which two ends of an edge share a neighbour that is no apex of it.
const BRIDGE: Input<'static> = Input {
    node: b"5 2 0 0\n0 0 0\n1 4 0\n2 16 0\n3 4 12\n4 8 4\n",
    ele: b"4 3 0\n0 0 1 3\n1 1 2 4\n2 1 4 3\n3 2 3 4\n",
    ..STAR
};

// Two triangles that share a node alone.
const BOW: Input<'static> = Input {
    node: b"5 2 0 0\n0 0 0\n1 4 0\n2 4 4\n3 -4 0\n4 -4 -4\n",
    ele: b"2 3 0\n0 0 1 2\n1 0 3 4\n",
    ..SQUARE
};

// The kite whose flip would turn a triangle over, though its new edge is shorter.
const ARROW: Input<'static> = Input {
    node: b"4 2 0 0\n0 0 0\n1 12 0\n2 14 4\n3 14 -4\n",
    ..KITE
};

// The kite and a triangle over it that has its new edge.
const COVERED: Input<'static> = Input {
    node: b"5 2 0 0\n0 0 0\n1 8 0\n2 4 2\n3 4 -2\n4 12 0\n",
    ele: b"3 3 0\n0 0 1 2\n1 1 0 3\n2 2 3 4\n",
    part: b"0\n0\n0\n",
    size: ALL_LENGTHS,
};

// A replay ends with this status and says this.
fn assert_ends<R: Abort + AllocGlobal + Threads + Sync>(
    rt: &R,
    input: Input<'_>,
    journal: &[u8],
    status: u8,
    said: &[u8],
) -> Result<(), Fail> {
    let mut shelf = shelf_of(rt.alloc(), input, journal)?;
    assert_run(rt, &["replay", "k", "o"], &mut shelf, status, said)?;
    assert_absent(rt, &shelf, &["o.node"]);
    Ok(())
}

// The text of these three parts.
fn joined(alloc: Global, front: &[u8], middle: &[u8], back: &[u8]) -> Result<Vec<u8>, AllocError> {
    let mut text = Vec::from_slice(alloc, front)?;
    text.extend_from_slice(middle)?;
    text.extend_from_slice(back)?;
    Ok(text)
}

// A journal of one operation is refused for this reason.
fn assert_refuses<R: Abort + AllocGlobal + Threads + Sync>(
    rt: &R,
    input: Input<'_>,
    operation: &[u8],
    reason: &[u8],
) -> Result<(), Fail> {
    let journal = joined(
        rt.alloc(),
        b"parfum journal 1\n0 0 ",
        operation,
        b"\nend 1\n",
    )?;
    let said = joined(rt.alloc(), b"operation 0 refused: ", reason, b"\n")?;
    assert_ends(rt, input, &journal, 6, &said)
}

// A replay writes these files.
fn assert_writes<R: Abort + AllocGlobal + Threads + Sync>(
    rt: &R,
    input: Input<'_>,
    journal: &[u8],
    said: &[u8],
    files: [&[u8]; 3],
) -> Result<(), Fail> {
    let mut shelf = shelf_of(rt.alloc(), input, journal)?;
    assert_run(rt, &["replay", "k", "o"], &mut shelf, 0, said)?;
    assert_held(rt, &shelf, "o.node", files[0]);
    assert_held(rt, &shelf, "o.ele", files[1]);
    assert_held(rt, &shelf, "o.part", files[2]);
    Ok(())
}

#[test]
fn each_condition_on_an_edge_is_said(rt: HostRuntime) -> Result<(), Fail> {
    for (operation, reason) in [
        (b"flip 1 3".as_slice(), b"no-edge".as_slice()),
        (b"flip 2 2", b"no-edge"),
        (b"flip 0 1", b"on-boundary"),
        (b"flip 0 2", b"not-shorter"),
        (b"bisect 1 0", b"not-longest 0 2"),
        (b"contract 1 0", b"corner"),
    ] {
        assert_refuses(&rt, SQUARE, operation, reason)?;
    }
    Ok(())
}

#[test]
fn each_condition_on_a_contraction_is_said(rt: HostRuntime) -> Result<(), Fail> {
    assert_refuses(&rt, ROOF, b"contract 1 3", b"off-boundary")?;
    assert_refuses(&rt, STAR, b"contract 0 1", b"inverts 2 3")?;
    assert_refuses(&rt, BRIDGE, b"contract 1 2", b"link-node 3")?;
    assert_refuses(&rt, BOW, b"contract 0 1", b"pinched")
}

#[test]
fn each_condition_on_a_new_edge_is_said(rt: HostRuntime) -> Result<(), Fail> {
    assert_refuses(&rt, ARROW, b"flip 0 1", b"not-convex")?;
    assert_refuses(&rt, COVERED, b"flip 0 1", b"edge-there 2 3")
}

#[test]
fn wanted_lengths_are_kept(rt: HostRuntime) -> Result<(), Fail> {
    let square = |size| Input { size, ..SQUARE };
    let roof = |size| Input { size, ..ROOF };
    // The first row that holds the middle counts.
    let rows = b"2 2 2 2 9 1000\n0 0 4 4 8 1000\ndefault 0 1000\n";
    for (input, operation, reason) in [
        (
            square(b"default 9 1000\n".as_slice()),
            b"bisect 0 2".as_slice(),
            b"too-short 0 2".as_slice(),
        ),
        (
            roof(b"default 0 63\n".as_slice()),
            b"contract 1 0",
            b"too-long 0 2",
        ),
        (square(rows), b"bisect 0 2", b"too-short 0 2"),
    ] {
        assert_refuses(&rt, input, operation, reason)?;
    }
    Ok(())
}

#[test]
fn the_least_wanted_length_is_allowed(rt: HostRuntime) -> Result<(), Fail> {
    assert_writes(
        &rt,
        Input {
            size: b"default 8 1000\n",
            ..SQUARE
        },
        b"parfum journal 1\n0 0 bisect 0 2\nend 1\n",
        b"operations 1\nnodes 5\ntriangles 4\narea2 32\n",
        [
            b"5 2 0 0\n0 0 0\n1 4 0\n2 4 4\n3 0 4\n4 2 2\n",
            b"4 3 0\n0 0 1 4\n1 0 4 3\n2 1 2 4\n3 2 3 4\n",
            b"0\n0\n0\n0\n",
        ],
    )
}

#[test]
fn a_middle_that_is_not_whole_is_refused(rt: HostRuntime) -> Result<(), Fail> {
    let odd = Input {
        node: b"3 2 0 0\n0 0 0\n1 3 0\n2 1 1\n",
        ele: b"1 3 0\n0 0 1 2\n",
        part: b"0\n",
        size: ALL_LENGTHS,
    };
    assert_refuses(&rt, odd, b"bisect 0 1", b"odd-middle")
}

#[test]
fn a_bisection_is_contracted_back(rt: HostRuntime) -> Result<(), Fail> {
    assert_writes(
        &rt,
        SQUARE,
        b"parfum journal 1\n0 0 bisect 0 2\n1 0 contract 4 0\nend 2\n",
        b"operations 2\nnodes 4\ntriangles 2\narea2 32\n",
        [SQUARE_NODE, SQUARE_ELE, ONE_CHUNK],
    )?;
    assert_ends(
        &rt,
        SQUARE,
        b"parfum journal 1\n0 0 bisect 0 2\n1 0 contract 4 0\n2 0 contract 4 0\nend 3\n",
        6,
        b"operation 2 refused: gone 4\n",
    )
}

#[test]
fn contractions_are_written(rt: HostRuntime) -> Result<(), Fail> {
    assert_writes(
        &rt,
        ROOF,
        b"parfum journal 1\n0 0 contract 1 0\nend 1\n",
        b"operations 1\nnodes 3\ntriangles 1\narea2 32\n",
        [
            b"3 2 0 0\n0 0 0\n1 8 0\n2 4 4\n",
            b"1 3 0\n0 0 1 2\n",
            b"0\n",
        ],
    )?;
    assert_writes(
        &rt,
        STAR,
        b"parfum journal 1\n0 0 contract 0 2\nend 1\n",
        b"operations 1\nnodes 4\ntriangles 2\narea2 56\n",
        [
            b"4 2 0 0\n0 0 0\n1 4 1\n2 8 0\n3 4 8\n",
            b"2 3 0\n0 0 1 3\n1 1 2 3\n",
            ONE_CHUNK,
        ],
    )
}

#[test]
fn chunks_are_kept(rt: HostRuntime) -> Result<(), Fail> {
    let two = Input {
        part: b"0\n1\n",
        ..KITE
    };
    assert_writes(
        &rt,
        two,
        KITE_FLIP,
        REPORT,
        [KITE_NODE, FLIPPED_ELE, b"0\n1\n"],
    )?;
    let journal = b"parfum journal 1\n0 1 bisect 0 2\nend 1\n";
    assert_ends(&rt, two, journal, 6, b"operation 0 refused: foreign\n")
}

#[test]
fn the_first_fault_of_the_tables_is_said(rt: HostRuntime) -> Result<(), Fail> {
    let part = |part| Input { part, ..KITE };
    let size = |size| Input { size, ..KITE };
    for (input, said) in [
        (part(b"0\n"), b"k.part line 2: too few words\n".as_slice()),
        (part(b"0\n64\n"), b"k.part line 2: chunk 64 above 63\n"),
        (part(b"0\n0 1\n"), b"k.part line 2 column 3: word refused\n"),
        (part(b"0\n0\n0\n"), b"k.part line 3: line after the end\n"),
        (size(b""), b"k.size: no default line\n"),
        (size(b"default 2 1\n"), b"k.size line 1: band refused\n"),
        (size(b"default 0\n"), b"k.size line 1: too few words\n"),
        (
            Input {
                part: b"x\n",
                size: b"",
                ..KITE
            },
            b"k.part line 1 column 1: word refused\n",
        ),
    ] {
        assert_ends(&rt, input, KITE_FLIP, 1, said)?;
    }
    Ok(())
}

#[test]
fn the_first_fault_of_the_journal_is_said(rt: HostRuntime) -> Result<(), Fail> {
    for (journal, said) in [
        (
            b"parfum journal 1\n1 0 flip 0 1\nend 1\n".as_slice(),
            b"o.journal line 2: ticket 1 instead of 0\n".as_slice(),
        ),
        (
            b"parfum journal 1\n0 0 flip 0 1\n",
            b"o.journal line 3: too few words\n",
        ),
        (b"journal\n", b"o.journal: heading refused\n"),
    ] {
        assert_ends(&rt, KITE, journal, 1, said)?;
    }
    Ok(())
}

const FLAT: Input<'static> = Input {
    node: b"3 2 0 0\n0 0 0\n1 2 0\n2 4 0\n",
    ele: b"1 3 0\n0 0 1 2\n",
    part: b"0\n",
    size: ALL_LENGTHS,
};

const TWICE: Input<'static> = Input {
    node: b"3 2 0 0\n0 0 0\n1 4 0\n2 0 4\n",
    ele: b"2 3 0\n0 0 1 2\n1 1 2 0\n",
    ..KITE
};

#[test]
fn triangles_that_make_no_mesh_are_refused(rt: HostRuntime) -> Result<(), Fail> {
    assert_ends(&rt, FLAT, KITE_FLIP, 1, b"k.ele triangle 0: flat\n")?;
    assert_ends(&rt, TWICE, KITE_FLIP, 1, b"k.ele: edge 0 1 twice\n")
}

#[test]
fn a_clockwise_triangle_is_turned_round(rt: HostRuntime) -> Result<(), Fail> {
    let clockwise = Input {
        ele: b"1 3 0\n0 0 2 1\n",
        part: b"0\n",
        ..TWICE
    };
    assert_writes(
        &rt,
        clockwise,
        b"parfum journal 1\nend 0\n",
        b"operations 0\nnodes 3\ntriangles 1\narea2 16\n",
        [clockwise.node, b"1 3 0\n0 0 1 2\n", b"0\n"],
    )
}

// The nodes of so many triangles round the node 0, on a parabola.
fn fan_node(alloc: Global, triangles: u32) -> Result<Vec<u8>, AllocError> {
    let mut text = Vec::new(alloc);
    put_line(&mut text, &[triangles.wrapping_add(2), 2, 0, 0])?;
    for k in 0..triangles.wrapping_add(2) {
        put_line(&mut text, &[k, k, k.wrapping_mul(k)])?;
    }
    Ok(text)
}

fn fan_ele(alloc: Global, triangles: u32) -> Result<Vec<u8>, AllocError> {
    let mut text = Vec::new(alloc);
    put_line(&mut text, &[triangles, 3, 0])?;
    for k in 0..triangles {
        put_line(&mut text, &[k, 0, k.wrapping_add(1), k.wrapping_add(2)])?;
    }
    Ok(text)
}

fn fan_part(alloc: Global, triangles: u32) -> Result<Vec<u8>, AllocError> {
    let mut text = Vec::new(alloc);
    for _ in 0..triangles {
        put_line(&mut text, &[0])?;
    }
    Ok(text)
}

// A node of so many triangles isn't contracted for this reason.
fn assert_fan<R: Abort + AllocGlobal + Threads + Sync>(
    rt: &R,
    triangles: u32,
    reason: &[u8],
) -> Result<(), Fail> {
    let node = fan_node(rt.alloc(), triangles)?;
    let ele = fan_ele(rt.alloc(), triangles)?;
    let part = fan_part(rt.alloc(), triangles)?;
    let fan = Input {
        node: &node,
        ele: &ele,
        part: &part,
        size: ALL_LENGTHS,
    };
    assert_refuses(rt, fan, b"contract 0 1", reason)
}

#[test]
fn a_node_of_more_than_60_triangles_is_too_wide(rt: HostRuntime) -> Result<(), Fail> {
    assert_fan(&rt, 61, b"too-wide")?;
    assert_fan(&rt, 60, b"corner")
}

// A check of a mesh ends with this status, says this and writes nothing.
fn assert_checks<R: Abort + AllocGlobal + Threads + Sync>(
    rt: &R,
    words: &[&str],
    input: Input<'_>,
    status: u8,
    said: &[u8],
) -> Result<(), Fail> {
    let mut shelf = shelf_of(rt.alloc(), input, KITE_FLIP)?;
    assert_run(rt, words, &mut shelf, status, said)?;
    assert_absent(rt, &shelf, &["o.node"]);
    Ok(())
}

#[test]
fn a_mesh_is_checked(rt: HostRuntime) -> Result<(), Fail> {
    let said = b"nodes 4\ntriangles 2\narea2 32\neuler 1\nboundary 4\nchunks 1\n";
    assert_checks(&rt, &["check", "k"], SQUARE, 0, said)?;
    let words = ["check", "k", "--scale", "2"];
    assert_checks(&rt, &words, SQUARE, 0, SCALED_CHECK)
}

#[test]
fn chunks_are_counted_up_to_the_last(rt: HostRuntime) -> Result<(), Fail> {
    let input = Input {
        part: b"3\n1\n",
        ..SQUARE
    };
    let said = b"nodes 4\ntriangles 2\narea2 32\neuler 1\nboundary 4\nchunks 4\n";
    assert_checks(&rt, &["check", "k"], input, 0, said)
}

#[test]
fn a_check_refuses_triangles_that_make_no_mesh(rt: HostRuntime) -> Result<(), Fail> {
    let input = Input {
        ele: b"2 3 0\n0 0 1 2\n1 0 1 3\n",
        part: b"3\n1\n",
        ..SQUARE
    };
    let said = b"k.ele: edge 0 1 twice\n";
    assert_checks(&rt, &["check", "k"], input, 1, said)
}
