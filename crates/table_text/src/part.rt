//! The partition: the chunk that owns each triangle, one on a line.
ghost use Rattle.std.specs.Prelude.{◌≡◌, ◌≢◌, ◌<◌, ◌≤◌, length, All, Ok, Err, IfOk, IfErr};
ghost use Rattle.row_text.specs.Rows.{Reads};
ghost use Rattle.table_text.specs.Part.{owner_on, parts_on, part_of, part_text_of};

use crate::fault::TableErr;
use pf_lex::{Lines, Words};
use pf_model::Tri;
use row_text::{end_line, end_text, keep, natural_up_to, needed_row, push_number};
use std::alloc::{AllocError, Global};
use std::marker::Model;

/// The greatest number of a chunk.
const LAST_CHUNK: u64 = 63;

/// The chunk that owns each triangle, in the order of the triangles, and the number of chunks, which
/// is one more than the greatest of them, and 1 where there are no triangles.
#[derive(Drop)]
pub struct Parts {
    pub owners: Vec<u16>,
    pub chunks: u16,
}

impl Model for Parts {
    ghost use Rattle.table_text.specs.Part.{PartTable};

    ghost Value = { PartTable };

    ghost view = { λ parts. record { owners = parts.owners.items; chunks = parts.chunks } };
}

/// Reads a partition of so many triangles: a line for each, with the number of the chunk that owns
/// it, from 0 to 63. `TableErr::Memory` comes only of a text without a fault: where memory runs out, the
/// lines that are left are still tested.
pub fn read_part(alloc: Global, bytes: &[u8], triangles: u32) -> Result<Parts, TableErr>
    requires { length bytes.now ≤ 268435456 }
    ensures value { IfOk result (λ parts. part_of triangles bytes.now ≡ Ok parts) }
    ensures first_fault { IfErr result (λ fault. fault ≢ TableErr.Memory → part_of triangles bytes.now ≡ Err fault) }

    // A text with a fault is answered by its first one, whatever memory there is.
    ensures refused { IfErr (part_of triangles bytes.now) (λ fault. result ≡ Err fault) }

    ensures each_triangle { IfOk result (λ parts. length parts.owners ≡ triangles) }
    ensures owned { IfOk result (λ parts. All (λ owner. owner < parts.chunks) parts.owners) }
    ensures some_chunk { IfOk result (λ parts. 1 ≤ parts.chunks) }
    ensures chunks { IfOk result (λ parts. parts.chunks ≤ 64) }
{
    partition(alloc, Lines::new(bytes), triangles)
}

// The owners of so many triangles, a line for each, and no further line.
fn partition(alloc: Global, mut lines: Lines<'_>, triangles: u32) -> Result<Parts, TableErr>
    ensures reads { Reads TableErr.Memory (λ parts. parts) result (parts_on lines.entry.past triangles lines.entry.left) }
    ensures each_triangle { IfOk result (λ parts. length parts.owners ≡ triangles) }
    ensures owned { IfOk result (λ parts. All (λ owner. owner < parts.chunks) parts.owners) }
    ensures some_chunk { IfOk result (λ parts. 1 ≤ parts.chunks) }
    ensures chunks { IfOk result (λ parts. parts.chunks ≤ 64) }
{
    let mut owners = Vec::new(alloc);
    let mut chunks: u16 = 1;
    let mut fits = true;
    for _ in 0..triangles {
        let words = needed_row::<TableErr>(&mut lines)?;
        let owner = owner(words)?;
        chunks = chunks.max(owner + 1);
        fits = keep(&mut owners, fits, owner);
    }
    end_text::<TableErr>(&mut lines)?;
    if !fits {
        return Err(TableErr::Memory);
    }
    Ok(Parts { owners, chunks })
}

// The owner that a line names.
#[tactic(auto, unfolding(crate::specs::Part::owner_on))]
fn owner(mut words: Words<'_>) -> Result<u16, TableErr>
    ensures value { result ≡ owner_on words.entry.line words.entry.words }
    ensures in_range { IfOk result (λ owner. owner ≤ 63) }
{
    let line = words.line();
    let Some(word) = words.next() else {
        return Err(TableErr::Short { line });
    };
    let found = natural_up_to::<TableErr>(1 << 62, line, word)?;
    if found > LAST_CHUNK {
        return Err(TableErr::Chunk { line, found });
    }
    end_line::<TableErr>(line, words)?;
    Ok(found as u16)
}

/// The text of the triangles' owners, one on each line, in the order of the triangles.
pub fn owners_text(alloc: Global, tris: &[Tri]) -> Result<Vec<u8>, AllocError>
    ensures { IfOk result (λ text. text.items ≡ part_text_of tris.now) }
{
    let mut text = Vec::new(alloc);
    for tri in tris {
        push_number(&mut text, tri.owner, b'\n')?;
    }
    Ok(text)
}
