//! What is judged and made of lent stars alone.
use pf_geom::NoMemory;
use pf_mesh::{Band, Cond, Op};
use pf_rings::{NewStar, Rings};
use std::alloc::Global;
use std::process::Abort;
use std::test::Fail;

// The first condition that an operation fails, by what is lent.
pub fn judged<R: Rings>(r: &R, bands: &[Band], chunk: u16, op: Op) -> Option<Cond> {
    match op {
        Op::Flip { a, b } => pf_flip::judge(r, chunk, a, b),
        Op::Bisect { a, b } => pf_bisect::judge(r, bands, chunk, a, b),
        Op::Contract { u, v } => pf_contract::judge(r, bands, chunk, u, v),
    }
}

// What an operation makes of what is lent.
pub fn patched<R: Rings>(alloc: Global, r: &R, op: Op) -> Result<Vec<NewStar>, NoMemory> {
    match op {
        Op::Flip { a, b } => pf_flip::patch(alloc, r, a, b),
        Op::Bisect { a, b } => pf_bisect::patch(alloc, r, a, b),
        Op::Contract { u, v } => pf_contract::patch(alloc, r, u, v),
    }
}

// Whether the condition is the last one of a flip.
fn is_last(cond: Option<Cond>) -> bool {
    matches!(cond, None | Some(Cond::EdgeThere { .. }))
}

// The stars of the ends alone tell this condition, but for the last one of a flip.
pub fn assert_by_ends<A: Abort, R: Rings>(
    rt: &A,
    ends: &R,
    bands: &[Band],
    chunk: u16,
    op: Op,
    cond: Option<Cond>,
) -> Result<(), Fail> {
    match op {
        Op::Flip { a, b } => match pf_flip::judge_ends(ends, chunk, a, b) {
            Some(found) => assert_eq!(rt; Some(found), cond),
            None => assert!(rt; is_last(cond)),
        },
        _ => assert_eq!(rt; judged(ends, bands, chunk, op), cond),
    }
    Ok(())
}
