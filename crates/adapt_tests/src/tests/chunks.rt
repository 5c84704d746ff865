//! What the chunks of a mesh own, share and see, before and after an operation.

use super::*;

// Two triangles, each of a chunk of its own, at a common edge that is longer than the one across.
const KITE: Input<'static> = Input {
    node: b"4 2 0 0\n0 0 0\n1 8 0\n2 4 2\n3 4 -2\n",
    ele: b"2 3 0\n0 0 1 2\n1 1 0 3\n",
    part: b"0\n1\n",
    size: b"default 0 1000\n",
};

// The chunks share the ends of the common edge, and each sees the other's triangle.
const CHUNKS: &[u8] =
    b"chunk 0 triangles 1 nodes 3 shared 2 ghosts 1\nshared 0 with 1 keeper 0\nshared 1 with 1 keeper 0\nghost 0 3 1 of 1\nchunk 1 triangles 1 nodes 3 shared 2 ghosts 1\nshared 0 with 0 keeper 0\nshared 1 with 0 keeper 0\nghost 0 1 2 of 0\n";

// They share the ends of the edge across. Chunk 1 has no copy of node 0, and chunk 0 none of node 1.
const FLIPPED_CHUNKS: &[u8] =
    b"chunk 0 triangles 1 nodes 3 shared 2 ghosts 1\nshared 2 with 1 keeper 0\nshared 3 with 1 keeper 0\nghost 1 2 3 of 1\nchunk 1 triangles 1 nodes 3 shared 2 ghosts 1\nshared 2 with 0 keeper 0\nshared 3 with 0 keeper 0\nghost 0 3 2 of 0\n";

#[test]
fn a_flip_changes_what_chunks_share(rt: HostRuntime) -> Result<(), Fail> {
    let mut shelf = shelf_of(rt.alloc(), KITE)?;
    shelf.put("o.journal", b"parfum journal 1\n0 0 flip 0 1\nend 1\n")?;
    for (words, said) in [
        (["chunks", "s"].as_slice(), CHUNKS),
        (
            &["replay", "s", "o"],
            b"operations 1\nnodes 4\ntriangles 2\narea2 32\n",
        ),
        (&["chunks", "o"], FLIPPED_CHUNKS),
    ] {
        assert_run(&rt, words, &mut shelf, 0, said)?;
    }
    assert_held(&rt, &shelf, "o.ele", b"2 3 0\n0 0 3 2\n1 1 2 3\n");
    assert_held(&rt, &shelf, "o.part", KITE.part);
    Ok(())
}
