//! Rest lists of meshes of a few triangles, worked out by hand.
use super::*;

fn long(a: u32, b: u32, c: u32, d: u32, cond: Option<Cond>) -> RestLine {
    RestLine::Long { a, b, c, d, cond }
}

fn short(a: u32, b: u32, onto_b: Option<Cond>, onto_a: Option<Cond>) -> RestLine {
    RestLine::Short {
        a,
        b,
        onto_b,
        onto_a,
    }
}

// The rest list has these lines.
fn assert_rest<R: Abort + AllocGlobal>(
    rt: &R,
    mesh: &Mesh,
    lines: &[RestLine],
) -> Result<(), Fail> {
    assert_eq!(rt; mesh.rest(rt.alloc())?.as_slice(), lines);
    Ok(())
}

// The same of the mesh of these, whose edges have these bounds.
fn assert_rest_of<R: Abort + AllocGlobal>(
    rt: &R,
    places: &[(i16, i16)],
    tris: &[[u32; 3]],
    (min2, max2): (i64, i64),
    lines: &[RestLine],
) -> Result<(), Fail> {
    let mesh = sized(rt, places, tris, min2, max2)?;
    assert_rest(rt, &mesh, lines)
}

#[test]
fn walks_to_the_diagonal_of_the_square(rt: HostRuntime) -> Result<(), Fail> {
    let lines = [
        long(0, 1, 0, 2, None),
        long(0, 2, 0, 2, None),
        long(0, 3, 0, 2, None),
        long(1, 2, 0, 2, None),
        long(2, 3, 0, 2, None),
    ];
    assert_rest_of(&rt, &SQUARE, &[[0, 1, 2], [0, 2, 3]], (0, 15), &lines)
}

#[test]
fn leaves_nothing_of_the_bisected_square(rt: HostRuntime) -> Result<(), Fail> {
    let mut mesh = sized(&rt, &SQUARE, &[[0, 1, 2], [0, 2, 3]], 0, 16)?;
    assert_rest(&rt, &mesh, &[long(0, 2, 0, 2, None)])?;
    pass(&rt, &mut mesh, 0, Op::Bisect { a: 0, b: 2 });
    assert_rest(&rt, &mesh, &[])
}

#[test]
fn walks_to_the_left_first(rt: HostRuntime) -> Result<(), Fail> {
    // Two triangles at the edge from 0 to 1, each with an edge that is longer.
    let leaning = [(0, 0), (4, 0), (5, 4), (-2, -4)];
    let odd = Some(Cond::OddMidpoint);
    let lines = [
        long(0, 1, 0, 2, odd),
        long(0, 2, 0, 2, odd),
        long(0, 3, 1, 3, None),
        long(1, 2, 0, 2, odd),
        long(1, 3, 1, 3, None),
    ];
    assert_rest_of(&rt, &leaning, &[[0, 1, 2], [1, 0, 3]], (0, 15), &lines)
}

#[test]
fn lists_the_flip_of_the_kite(rt: HostRuntime) -> Result<(), Fail> {
    let mesh = kite(&rt)?;
    assert_rest(&rt, &mesh, &[RestLine::Flip { a: 0, b: 1 }])
}

// The same of the square's corners and its middle.
fn assert_rest_of_cross<R: Abort + AllocGlobal>(
    rt: &R,
    bounds: (i64, i64),
    lines: &[RestLine],
) -> Result<(), Fail> {
    let cross = [(0, 0), (4, 0), (4, 4), (0, 4), (2, 2)];
    let tris = [[0, 1, 4], [1, 2, 4], [2, 3, 4], [3, 0, 4]];
    assert_rest_of(rt, &cross, &tris, bounds, lines)
}

#[test]
fn lists_short_edges_with_both_contractions(rt: HostRuntime) -> Result<(), Fail> {
    let corner = Some(Cond::Corner);
    let falling = Some(Cond::TooLong { a: 1, b: 3 });
    let rising = Some(Cond::TooLong { a: 0, b: 2 });
    let lines = [
        short(0, 4, corner, rising),
        short(1, 4, corner, falling),
        short(2, 4, corner, rising),
        short(3, 4, corner, falling),
    ];
    assert_rest_of_cross(&rt, (9, 31), &lines)?;
    // Where a diagonal may be as long as it is, the middle can go.
    let lines = [0, 1, 2, 3].map(|n| short(n, 4, corner, None));
    assert_rest_of_cross(&rt, (9, 32), &lines)
}

#[test]
fn lists_each_part_by_names(rt: HostRuntime) -> Result<(), Fail> {
    let corner = Some(Cond::Corner);
    let lines = [
        long(0, 1, 0, 1, Some(Cond::TooShort { a: 0, b: 1 })),
        short(0, 2, corner, corner),
        short(0, 3, corner, corner),
        short(1, 2, corner, corner),
        short(1, 3, corner, corner),
        RestLine::Flip { a: 0, b: 1 },
    ];
    assert_rest_of(&rt, &KITE, &[[0, 1, 2], [1, 0, 3]], (21, 63), &lines)
}
