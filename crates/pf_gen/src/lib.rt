//! Grids, as the lists that a mesh is built of: a square of cells, each cut into two triangles.
#![tactic(auto)]

ghost use Rattle.std.specs.Prelude.{◌≡◌, ◌+◌, ◌*◌, ◌^◌, ◌<◌, ◌≤◌, IfOk};
ghost use Rattle.pf_gen.specs.Grid.{grid_points, grid_triangles, grid_owners, grid_chunks, grid_bands, grid_point, corner_of, strip_of};

mod laws;

pub use laws::{grid_is_built, grid_is_fit};
use pf_geom::{NoMemory, Point};
use pf_model::Band;
use std::alloc::Global;

/// The most cells that a grid may have a side: a mesh may have no more nodes than theirs.
pub const MOST_CELLS: u32 = 1023;

// How far neighbours are apart, in coordinate units.
const STEP: u32 = 64;

// The node of a name in a grid with so many cells a side.
fn node_at(cells: u32, name: u32) -> Point
    requires cells_few { cells ≤ MOST_CELLS }
    requires name_small { name < 2 ^ 20 }
    ensures { result ≡ grid_point cells name }
{
    let column = name % (cells + 1);
    let row = name / (cells + 1);
    Point {
        x: (STEP * column) as i32,
        y: (STEP * row) as i32,
    }
}

// The name of the lower left corner of a cell.
fn corner_at(cells: u32, cell: u32) -> u32
    requires cells_few { cells ≤ MOST_CELLS }
    requires cell_small { cell < 2 ^ 20 }
    requires some { 0 < cells }
    ensures corner { result ≡ corner_of cells cell }
    ensures small { result < 2 ^ 31 }
{
    cell / cells * (cells + 1) + cell % cells
}

// The chunk of a cell.
fn strip_at(cells: u32, cell: u32) -> u16
    requires cells_few { cells ≤ MOST_CELLS }
    requires within { cell < cells * cells }
    ensures { result ≡ strip_of cells cell }
{
    (4 * (cell / cells) / cells) as u16
}

/// The nodes by rising name: name k stands in column k modulo n + 1 and row k divided by n + 1 of the
/// nodes, for n cells a side, 64 coordinate units from its neighbours.
pub fn points(alloc: Global, cells: u32) -> Result<Vec<Point>, NoMemory>
    requires { cells ≤ MOST_CELLS }
    ensures { IfOk result (λ list. list.items ≡ grid_points cells) }
{
    let count = (cells + 1) * (cells + 1);
    let Ok(mut list) = Vec::with_capacity(alloc, count as usize) else {
        return Err(NoMemory);
    };
    for name in 0..count {
        list.push_reserved(node_at(cells, name));
    }
    Ok(list)
}

/// The triangles, each by its corners counterclockwise: cell by cell, along the rows of cells from the
/// lowest row on, and of each cell the one below the diagonal from its lower left corner first.
pub fn triangles(alloc: Global, cells: u32) -> Result<Vec<[u32; 3]>, NoMemory>
    requires { cells ≤ MOST_CELLS }
    ensures { IfOk result (λ list. list.items ≡ grid_triangles cells) }
{
    let count = cells * cells;
    let Ok(mut list) = Vec::with_capacity(alloc, 2 * count as usize) else {
        return Err(NoMemory);
    };
    for cell in 0..count {
        let p = corner_at(cells, cell);
        list.push_reserved([p, p + 1, p + (cells + 2)]);
        list.push_reserved([p, p + (cells + 2), p + (cells + 1)]);
    }
    Ok(list)
}

/// The owner of each triangle, in the order of `triangles`: the rows of cells are dealt out to four
/// strips, fewer where there are fewer rows.
pub fn owners(alloc: Global, cells: u32) -> Result<Vec<u16>, NoMemory>
    requires { cells ≤ MOST_CELLS }
    ensures { IfOk result (λ list. list.items ≡ grid_owners cells) }
{
    let count = cells * cells;
    let Ok(mut list) = Vec::with_capacity(alloc, 2 * count as usize) else {
        return Err(NoMemory);
    };
    for cell in 0..count {
        let chunk = strip_at(cells, cell);
        list.push_reserved(chunk);
        list.push_reserved(chunk);
    }
    Ok(list)
}

/// How many chunks there are: one more than the greatest owner.
pub fn chunks(cells: u32) -> u16
    requires few { cells ≤ MOST_CELLS }
    requires some { 0 < cells }
    ensures { result ≡ grid_chunks cells }
{
    (4 * (cells - 1) / cells + 1) as u16
}

/// The bands: edges with their middle in the lower left square of a quarter of the side are to have a
/// squared length of 256 to 2048, all others one of at most 8192.
pub fn bands(cells: u32) -> [Band; 2]
    requires { cells ≤ MOST_CELLS }
    ensures { result ≡ grid_bands cells }
{
    let far = (16 * cells) as i32;
    [
        Band {
            xlo: 0,
            ylo: 0,
            xhi: far,
            yhi: far,
            min2: 256,
            max2: 2048,
        },
        Band {
            xlo: -268_435_456,
            ylo: -268_435_456,
            xhi: 268_435_456,
            yhi: 268_435_456,
            min2: 0,
            max2: 8192,
        },
    ]
}
