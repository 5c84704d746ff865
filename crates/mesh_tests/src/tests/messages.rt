//! The texts of errors.
use super::*;
use std::alloc::AllocError;

#[test]
fn says_why_there_is_no_mesh(rt: HostRuntime) -> Result<(), AllocError> {
    let cases = [
        (
            BuildErr::BadNode { tri: 0, node: 7 },
            "triangle 0: node 7 isn't in the list of points",
        ),
        (
            BuildErr::Flat { tri: 2 },
            "triangle 2: its corners lie on one line",
        ),
        (
            BuildErr::EdgeTwice { a: 0, b: 1 },
            "the edge from 0 to 1 stands in two triangles",
        ),
        (BuildErr::Memory, "memory ran out"),
    ];
    for (error, wanted) in cases {
        let text = format!(in rt.alloc(); "{error}")?;
        assert_eq!(rt; text.as_str(), wanted);
    }
    Ok(())
}
