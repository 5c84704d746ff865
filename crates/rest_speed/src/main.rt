//! Builds a grid and takes its rest list as often as it is asked to: `bench/rest.sh` takes its time.
//!
//! Its words are the cells in a row, the size table and the number of lists. With any other word for the table
//! nothing is built, and with no lists the mesh gets no table.
#![tactic(auto)]

ghost use Rattle.std.specs.Prelude.{◌≡◌, ◌<◌, All, IfOk, length};
ghost use Rattle.pf_geom.specs.Plane.{IsInRange};
ghost use Rattle.pf_model.specs.Conforming.{HasDefault};

use pf_geom::Point;
use pf_mesh::{Band, build};
use std::alloc::{AllocError, Global};
use std::{env, io};

/// The most points and triangles that a mesh may have.
const MOST_POINTS: usize = 1_048_576;

const MOST_TRIANGLES: usize = 2_097_152;

/// The least and the greatest squared length of an edge.
#[derive(Clone, Copy)]
struct Sizes {
    min2: i64,
    max2: i64,
}

// The sizes of a table by its name, and `None` for any other word. The edges of the grid have squared lengths
// from 400 to 1076.
fn sizes_of(table: &str) -> Option<Sizes> {
    match table {
        "none" => Some(Sizes {
            min2: 0,
            max2: 1_000_000,
        }),
        "long" => Some(Sizes { min2: 0, max2: 1 }),
        "short" => Some(Sizes {
            min2: 2_000,
            max2: 1_000_000,
        }),
        _ => None,
    }
}

// A point of the grid, whose rows are shifted.
fn point_of(x: u16, y: u16) -> Point
    ensures { IsInRange result }
{
    Point {
        x: 20 * i32::from(x) + 6 * i32::from(y),
        y: 20 * i32::from(y),
    }
}

// The points of a grid of so many cells in a row and in a column, row by row.
fn points_of(alloc: Global, cells: u16) -> Result<Vec<Point>, AllocError>
    ensures { IfOk result (λ points. All IsInRange points.items) }
{
    let mut points = Vec::new(alloc);
    for y in 0..=cells {
        for x in 0..=cells {
            points.push(point_of(x, y))?;
        }
    }
    Ok(points)
}

// The triangles of that grid, two to a cell.
fn tris_of(alloc: Global, cells: u16) -> Result<Vec<[u32; 3]>, AllocError> {
    let mut tris = Vec::new(alloc);
    let row = u32::from(cells) + 1;
    for y in 0..cells {
        for x in 0..cells {
            let a = u32::from(y) * row + u32::from(x);
            let across = a.wrapping_add(row + 1);
            tris.push([a, a.wrapping_add(1), across])?;
            tris.push([a, across, a.wrapping_add(row)])?;
        }
    }
    Ok(tris)
}

// A table of these sizes alone.
fn bands_of(alloc: Global, sizes: Sizes) -> Result<Vec<Band>, AllocError>
    ensures { IfOk result (λ bands. HasDefault bands.items) }
{
    let band = Band {
        xlo: -268_435_456,
        ylo: -268_435_456,
        xhi: 268_435_456,
        yhi: 268_435_456,
        min2: sizes.min2,
        max2: sizes.max2,
    };
    Ok(vec![in alloc; band]?)
}

// The first chunk, so many times.
fn owners_of(alloc: Global, n: usize) -> Result<Vec<u16>, AllocError>
    ensures many { IfOk result (λ owners. length owners.items ≡ n) }
    ensures first { IfOk result (λ owners. All (λ owner. owner < 1) owners.items) }
{
    Ok(vec![in alloc; 0; n]?)
}

// Makes the grid, builds it and takes so many lists, and says how many lines the last one has.
fn run(rt: &HostRuntime, cells: u16, sizes: Option<Sizes>, lists: u16) -> io::Result<()> {
    let alloc = rt.alloc();
    let points = points_of(alloc, cells)?;
    let tris = tris_of(alloc, cells)?;
    if points.len() > MOST_POINTS || tris.len() > MOST_TRIANGLES {
        println!(rt; "too many cells")?;
        return Ok(());
    }
    let Some(sizes) = sizes else {
        println!(rt; "no table")?;
        return Ok(());
    };
    let Ok(mesh) = build(alloc, &points, &tris) else {
        println!(rt; "no mesh")?;
        return Ok(());
    };
    if lists == 0 {
        println!(rt; "no lists")?;
        return Ok(());
    }
    let owners = owners_of(alloc, tris.len())?;
    let bands = bands_of(alloc, sizes)?;
    let Ok(mesh) = mesh.with_tables(&tris, owners, 1, bands) else {
        println!(rt; "no tables")?;
        return Ok(());
    };
    let mut count = 0;
    for _ in 0..lists {
        let Ok(lines) = mesh.rest(alloc) else {
            println!(rt; "no list")?;
            return Ok(());
        };
        count = lines.len();
    }
    let triangles = tris.len();
    println!(rt; "triangles {triangles} lines {count}")?;
    Ok(())
}

fn main(rt: HostRuntime) -> io::Result<()> {
    let words = env::args(&rt)?.skip(1).collect::<Vec<String>>(rt.alloc())?;
    if words.len() < 3 {
        println!(rt; "rest_speed CELLS none|long|short LISTS")?;
        return Ok(());
    }
    let cells = words[0].as_str().parse::<u16>().unwrap_or(0);
    let lists = words[2].as_str().parse::<u16>().unwrap_or(0);
    run(&rt, cells, sizes_of(words[1].as_str()), lists)
}
