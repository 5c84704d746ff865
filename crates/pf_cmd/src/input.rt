// What the files that a command reads say.
ghost use Rattle.std.specs.Prelude.{◌≡◌, ◌<◌, ◌≤◌, ◌+◌, [], ◌∷◌, ℕ, None, Ok, IfOk, IfErr, All, length, vec_len};
ghost use Rattle.pf_shelf.specs.Files.{Tells};
ghost use Rattle.pf_say.specs.Shown.{stems_of};
ghost use Rattle.pf_cmd.specs.Causes.{IsOnlyRead, IsQuiet, Explains};
ghost use Rattle.pf_cmd.specs.Shown.{parted_of, budgeted_of};
ghost use Rattle.pf_cmd.specs.Commands.{budget_of, budgeted_in, divided_in};
ghost use Rattle.pf_cmd.specs.Input.{files_in, bytes_in, vertices_in, triangles_in, mesh_in, parts_in, bands_in, partitioned_in, numbered_in, entries_in};
ghost use Rattle.pf_geom.specs.Plane.{IsInRange};
ghost use Rattle.pf_model.specs.Conforming.{IsLive, HasDefault};
ghost use Rattle.pf_model.specs.Tables.{AreListed};
ghost use Rattle.tri_text.specs.Node.{vertices_of};
ghost use Rattle.pf_model.specs.Replay.{HasTickets};

use crate::fault::{build_stop, jour_stop, table_stop, tri_stop};
use pf_journal::read_journal;
use pf_mesh::{Band, Entry, Mesh, build};
use pf_say::{Fault, Place, Stems, Stop, Trouble};
use pf_shelf::{ReadErr, Shelf, read_all};
use pf_tables::{Parts, read_part, read_size};
use std::alloc::Global;
use tri_files::{Nodes, read_ele, read_node};

/// How many bytes a file may have.
const LONGEST: u64 = 268_435_456;

/// How many names a mesh may have, those of its vertices and one for each operation.
const MOST_NAMES: u64 = 1_048_576;

/// The bytes of a file.
pub(crate) fn read_bytes<S: Shelf>(
    alloc: Global,
    shelf: &mut S,
    stems: Stems<'_>,
    place: Place,
) -> Result<Vec<u8>, Stop>
    ensures bytes { Tells (S.seen shelf.old).told → IfOk result (λ bytes.
        bytes_in place (files_in (S.seen shelf.old) (stems_of stems.entry)) ≡ Ok bytes.items) }
    ensures within { IfOk result (λ bytes. vec_len bytes ≤ 268435456) }
    ensures stop { IfErr result (Explains (place ∷ []) (S.seen shelf.old) (S.seen shelf.new)
        (stems_of stems.entry) (bytes_in place)) }
    ensures quiet { IfOk result (λ _. IsQuiet (S.seen shelf.old) (S.seen shelf.new)) }
    ensures only_read { IsOnlyRead (S.seen shelf.old) (S.seen shelf.new) }
{
    let name = stems.name(alloc, place)?;
    match read_all(alloc, shelf, &name, LONGEST) {
        Ok(bytes) => Ok(bytes),
        Err(ReadErr::Missing) => Err(Stop::Device {
            trouble: Trouble::Missing { place },
        }),
        Err(ReadErr::Fault) => Err(Stop::Device {
            trouble: Trouble::Unread { place },
        }),
        Err(ReadErr::TooLong { .. }) => Err(Stop::Input {
            place,
            fault: Fault::TooLong,
        }),
        Err(ReadErr::Memory) => Err(Stop::Device {
            trouble: Trouble::Memory,
        }),
    }
}

/// The vertices.
pub(crate) fn read_vertices<S: Shelf>(
    alloc: Global,
    shelf: &mut S,
    stems: Stems<'_>,
    scale: u32,
) -> Result<Nodes, Stop>
    requires scale_low { 1 ≤ scale }
    requires scale_high { scale ≤ 1048576 }
    ensures vertices { Tells (S.seen shelf.old).told → IfOk result (λ nodes.
        vertices_in scale (files_in (S.seen shelf.old) (stems_of stems.entry)) ≡ Ok (vertices_of nodes)) }
    ensures base { IfOk result (λ nodes. nodes.base ≤ 1) }
    ensures count { IfOk result (λ nodes. length nodes.points.items ≤ 1048576) }
    ensures in_range { IfOk result (λ nodes. All IsInRange nodes.points.items) }
    ensures stop { IfErr result (Explains (Place.Node ∷ []) (S.seen shelf.old) (S.seen shelf.new)
        (stems_of stems.entry) (vertices_in scale)) }
    ensures quiet { IfOk result (λ _. IsQuiet (S.seen shelf.old) (S.seen shelf.new)) }
    ensures only_read { IsOnlyRead (S.seen shelf.old) (S.seen shelf.new) }
{
    let bytes = read_bytes(alloc, shelf, stems, Place::Node)?;
    match read_node(alloc, &bytes, scale) {
        Ok(nodes) => Ok(nodes),
        Err(fault) => Err(tri_stop(Place::Node, fault)),
    }
}

/// The triangles over these vertices.
fn read_triangles<S: Shelf>(
    alloc: Global,
    shelf: &mut S,
    stems: Stems<'_>,
    nodes: &Nodes,
) -> Result<Vec<[u32; 3]>, Stop>
    requires points { length nodes.now.points.items ≤ 1048576 }
    ensures triangles { Tells (S.seen shelf.old).told → IfOk result (λ triangles.
        triangles_in (vertices_of nodes.now) (files_in (S.seen shelf.old) (stems_of stems.entry)) ≡ Ok triangles.items) }
    ensures count { IfOk result (λ triangles. length triangles.items ≤ 2097152) }
    ensures stop { IfErr result (Explains (Place.Ele ∷ []) (S.seen shelf.old) (S.seen shelf.new)
        (stems_of stems.entry) (triangles_in (vertices_of nodes.now))) }
    ensures quiet { IfOk result (λ _. IsQuiet (S.seen shelf.old) (S.seen shelf.new)) }
    ensures only_read { IsOnlyRead (S.seen shelf.old) (S.seen shelf.new) }
{
    let bytes = read_bytes(alloc, shelf, stems, Place::Ele)?;
    match read_ele(alloc, &bytes, nodes) {
        Ok(triangles) => Ok(triangles),
        Err(fault) => Err(tri_stop(Place::Ele, fault)),
    }
}

/// A mesh of one chunk, the number of the first node in its files, and its triangles as they are listed there.
#[derive(Drop)]
pub(crate) struct Listed {
    pub(crate) base: u32,
    pub(crate) mesh: Mesh,
    pub(crate) triangles: Vec<[u32; 3]>,
}

/// The mesh that the files of nodes and triangles make.
pub(crate) fn read_mesh<S: Shelf>(
    alloc: Global,
    shelf: &mut S,
    stems: Stems<'_>,
    scale: u32,
) -> Result<Listed, Stop>
    requires scale_low { 1 ≤ scale }
    requires scale_high { scale ≤ 1048576 }
    ensures mesh { Tells (S.seen shelf.old).told → IfOk result (λ read.
        mesh_in scale (files_in (S.seen shelf.old) (stems_of stems.entry)) ≡ Ok record { base = read.base; mesh = read.mesh.mesh; triangles = read.triangles.items }) }
    ensures count { IfOk result (λ read. length read.triangles.items ≤ 2097152) }
    ensures listed { IfOk result (λ read. AreListed read.triangles.items read.mesh.mesh.tris) }
    ensures base { IfOk result (λ read. read.base ≤ 1) }
    ensures fresh { IfOk result (λ read. (n : ℕ) → IsLive read.mesh.mesh n → n < read.mesh.mesh.first_new) }
    ensures stop { IfErr result (Explains (Place.Node ∷ Place.Ele ∷ []) (S.seen shelf.old) (S.seen shelf.new)
        (stems_of stems.entry) (mesh_in scale)) }
    ensures quiet { IfOk result (λ _. IsQuiet (S.seen shelf.old) (S.seen shelf.new)) }
    ensures only_read { IsOnlyRead (S.seen shelf.old) (S.seen shelf.new) }
{
    let nodes = read_vertices(alloc, shelf, stems, scale)?;
    let triangles = read_triangles(alloc, shelf, stems, &nodes)?;
    match build(alloc, &nodes.points, &triangles) {
        Ok(mesh) => Ok(Listed {
            base: nodes.base,
            mesh,
            triangles,
        }),
        Err(fault) => Err(build_stop(fault)),
    }
}

/// The chunks of so many triangles.
fn read_parts<S: Shelf>(
    alloc: Global,
    shelf: &mut S,
    stems: Stems<'_>,
    triangles: u32,
) -> Result<Parts, Stop>
    ensures parts { Tells (S.seen shelf.old).told → IfOk result (λ parts.
        parts_in triangles (files_in (S.seen shelf.old) (stems_of stems.entry)) ≡ Ok parts) }
    ensures each_triangle { IfOk result (λ parts. length parts.owners ≡ triangles) }
    ensures owned { IfOk result (λ parts. All (λ owner. owner < parts.chunks) parts.owners) }
    ensures some_chunk { IfOk result (λ parts. 1 ≤ parts.chunks) }
    ensures stop { IfErr result (Explains (Place.Part ∷ []) (S.seen shelf.old) (S.seen shelf.new)
        (stems_of stems.entry) (parts_in triangles)) }
    ensures quiet { IfOk result (λ _. IsQuiet (S.seen shelf.old) (S.seen shelf.new)) }
    ensures only_read { IsOnlyRead (S.seen shelf.old) (S.seen shelf.new) }
{
    let bytes = read_bytes(alloc, shelf, stems, Place::Part)?;
    match read_part(alloc, &bytes, triangles) {
        Ok(parts) => Ok(parts),
        Err(fault) => Err(table_stop(Place::Part, fault)),
    }
}

/// The wanted lengths.
fn read_bands<S: Shelf>(alloc: Global, shelf: &mut S, stems: Stems<'_>) -> Result<Vec<Band>, Stop>
    ensures bands { Tells (S.seen shelf.old).told → IfOk result (λ bands.
        bands_in (files_in (S.seen shelf.old) (stems_of stems.entry)) ≡ Ok bands.items) }
    ensures default_last { IfOk result (λ bands. HasDefault bands.items) }
    ensures stop { IfErr result (Explains (Place.Size ∷ []) (S.seen shelf.old) (S.seen shelf.new)
        (stems_of stems.entry) bands_in) }
    ensures quiet { IfOk result (λ _. IsQuiet (S.seen shelf.old) (S.seen shelf.new)) }
    ensures only_read { IsOnlyRead (S.seen shelf.old) (S.seen shelf.new) }
{
    let bytes = read_bytes(alloc, shelf, stems, Place::Size)?;
    match read_size(alloc, &bytes) {
        Ok(bands) => Ok(bands),
        Err(fault) => Err(table_stop(Place::Size, fault)),
    }
}

/// A mesh as it is listed, and the chunks of its triangles.
#[derive(Drop)]
pub(crate) struct Partitioned {
    pub(crate) listed: Listed,
    pub(crate) parts: Parts,
}

/// The mesh of the files of nodes and triangles, and the partition.
pub(crate) fn read_partitioned<S: Shelf>(
    alloc: Global,
    shelf: &mut S,
    stems: Stems<'_>,
    scale: u32,
) -> Result<Partitioned, Stop>
    requires scale_low { 1 ≤ scale }
    requires scale_high { scale ≤ 1048576 }
    ensures parted { Tells (S.seen shelf.old).told → IfOk result (λ read.
        partitioned_in scale (files_in (S.seen shelf.old) (stems_of stems.entry)) ≡ Ok (parted_of read)) }
    ensures base { IfOk result (λ read. read.listed.base ≤ 1) }
    ensures fresh { IfOk result (λ read. (n : ℕ) → IsLive read.listed.mesh.mesh n → n < read.listed.mesh.mesh.first_new) }
    ensures listed { IfOk result (λ read. AreListed read.listed.triangles.items read.listed.mesh.mesh.tris) }
    ensures each_triangle { IfOk result (λ read. length read.parts.owners ≡ length read.listed.triangles.items) }
    ensures owned { IfOk result (λ read. All (λ owner. owner < read.parts.chunks) read.parts.owners) }
    ensures stop { IfErr result (Explains (Place.Node ∷ Place.Ele ∷ Place.Part ∷ []) (S.seen shelf.old) (S.seen shelf.new)
        (stems_of stems.entry) (partitioned_in scale)) }
    ensures quiet { IfOk result (λ _. IsQuiet (S.seen shelf.old) (S.seen shelf.new)) }
    ensures only_read { IsOnlyRead (S.seen shelf.old) (S.seen shelf.new) }
{
    let listed = read_mesh(alloc, shelf, stems, scale)?;
    let parts = read_parts(alloc, shelf, stems, listed.triangles.len() as u32)?;
    Ok(Partitioned { listed, parts })
}

/// A mesh with its chunks and wanted lengths, and the number of the first node in its files.
#[derive(Drop)]
pub(crate) struct Numbered {
    pub(crate) base: u32,
    pub(crate) mesh: Mesh,
}

/// The mesh of all four files.
pub(crate) fn read_numbered<S: Shelf>(
    alloc: Global,
    shelf: &mut S,
    stems: Stems<'_>,
    scale: u32,
) -> Result<Numbered, Stop>
    requires scale_low { 1 ≤ scale }
    requires scale_high { scale ≤ 1048576 }
    ensures mesh { Tells (S.seen shelf.old).told → IfOk result (λ read.
        numbered_in scale (files_in (S.seen shelf.old) (stems_of stems.entry)) ≡ Ok record { base = read.base; mesh = read.mesh.mesh }) }
    ensures base { IfOk result (λ read. read.base ≤ 1) }
    ensures fresh { IfOk result (λ read. (n : ℕ) → IsLive read.mesh.mesh n → n < read.mesh.mesh.first_new) }
    ensures stop { IfErr result (Explains (Place.Node ∷ Place.Ele ∷ Place.Part ∷ Place.Size ∷ []) (S.seen shelf.old) (S.seen shelf.new)
        (stems_of stems.entry) (numbered_in scale)) }
    ensures quiet { IfOk result (λ _. IsQuiet (S.seen shelf.old) (S.seen shelf.new)) }
    ensures only_read { IsOnlyRead (S.seen shelf.old) (S.seen shelf.new) }
{
    let Partitioned { listed, parts } = read_partitioned(alloc, shelf, stems, scale)?;
    let bands = read_bands(alloc, shelf, stems)?;
    let Parts { owners, chunks } = parts;
    let mesh = listed
        .mesh
        .with_tables(&listed.triangles, owners, chunks, bands)?;
    Ok(Numbered {
        base: listed.base,
        mesh,
    })
}

/// A mesh with its chunks and wanted lengths, the number of the first node in its files, and how many operations may be
/// made of it.
#[derive(Drop)]
pub(crate) struct Budgeted {
    pub(crate) base: u32,
    pub(crate) mesh: Mesh,
    pub(crate) budget: u32,
}

/// The mesh of all four files, which has a name for each of the operations that may be made.
pub(crate) fn read_budgeted<S: Shelf>(
    alloc: Global,
    shelf: &mut S,
    stems: Stems<'_>,
    scale: u32,
    ops: Option<u32>,
) -> Result<Budgeted, Stop>
    requires scale_low { 1 ≤ scale }
    requires scale_high { scale ≤ 1048576 }
    ensures mesh { Tells (S.seen shelf.old).told → IfOk result (λ read.
        budgeted_in ops scale (files_in (S.seen shelf.old) (stems_of stems.entry)) ≡ Ok (budgeted_of read)) }
    ensures base { IfOk result (λ read. read.base ≤ 1) }
    ensures fresh { IfOk result (λ read. (n : ℕ) → IsLive read.mesh.mesh n → n < read.mesh.mesh.first_new) }
    ensures limit { IfOk result (λ read. read.mesh.mesh.first_new + read.budget ≤ 1048576) }
    ensures stop { IfErr result (Explains (Place.Node ∷ Place.Ele ∷ Place.Part ∷ Place.Size ∷ []) (S.seen shelf.old) (S.seen shelf.new)
        (stems_of stems.entry) (budgeted_in ops scale)) }
    ensures quiet { IfOk result (λ _. IsQuiet (S.seen shelf.old) (S.seen shelf.new)) }
    ensures only_read { IsOnlyRead (S.seen shelf.old) (S.seen shelf.new) }
{
    let Numbered { base, mesh } = read_numbered(alloc, shelf, stems, scale)?;
    let first_new = mesh.first_new();
    let budget = budget_of(ops, first_new);
    let count = first_new as u64 + budget as u64;
    if count > MOST_NAMES {
        return Err(Stop::Limit { count });
    }
    Ok(Budgeted { base, mesh, budget })
}

// How many operations may be made of a mesh of so many vertices: as many as are asked for, or what is usual.
fn budget_of(ops: Option<u32>, vertices: u32) -> u32
    ensures { result ≡ budget_of ops vertices }
{
    match ops {
        Some(ops) => ops,
        None => usual_budget(vertices),
    }
}

// The lesser of four for each vertex and a thousand more, and the names that are left.
fn usual_budget(vertices: u32) -> u32
    ensures { result ≡ budget_of None vertices }
{
    let wanted: u64 = 4 * vertices as u64 + 1000;
    let left: u64 = MOST_NAMES.saturating_sub(vertices as u64);
    wanted.min(left) as u32
}

/// The mesh with its chunks.
pub(crate) fn read_divided<S: Shelf>(
    alloc: Global,
    shelf: &mut S,
    stems: Stems<'_>,
    scale: u32,
) -> Result<Mesh, Stop>
    requires scale_low { 1 ≤ scale }
    requires scale_high { scale ≤ 1048576 }
    ensures mesh { Tells (S.seen shelf.old).told → IfOk result (λ mesh.
        divided_in scale (files_in (S.seen shelf.old) (stems_of stems.entry)) ≡ Ok mesh.mesh) }
    ensures stop { IfErr result (Explains (Place.Node ∷ Place.Ele ∷ Place.Part ∷ []) (S.seen shelf.old) (S.seen shelf.new)
        (stems_of stems.entry) (divided_in scale)) }
    ensures quiet { IfOk result (λ _. IsQuiet (S.seen shelf.old) (S.seen shelf.new)) }
    ensures only_read { IsOnlyRead (S.seen shelf.old) (S.seen shelf.new) }
{
    let Partitioned { listed, parts } = read_partitioned(alloc, shelf, stems, scale)?;
    let bands = Vec::from_slice(alloc, listed.mesh.bands())?;
    let Parts { owners, chunks } = parts;
    let mesh = listed
        .mesh
        .with_tables(&listed.triangles, owners, chunks, bands)?;
    Ok(mesh)
}

/// The journal for a mesh of so many vertices.
pub(crate) fn read_entries<S: Shelf>(
    alloc: Global,
    shelf: &mut S,
    stems: Stems<'_>,
    vertices: u32,
) -> Result<Vec<Entry>, Stop>
    ensures entries { Tells (S.seen shelf.old).told → IfOk result (λ entries.
        entries_in vertices (files_in (S.seen shelf.old) (stems_of stems.entry)) ≡ Ok entries.items) }
    ensures tickets { IfOk result (λ entries. HasTickets entries.items) }
    ensures limit { IfOk result (λ entries. vertices + length entries.items ≤ 1048576) }
    ensures stop { IfErr result (Explains (Place.Journal ∷ []) (S.seen shelf.old) (S.seen shelf.new)
        (stems_of stems.entry) (entries_in vertices)) }
    ensures quiet { IfOk result (λ _. IsQuiet (S.seen shelf.old) (S.seen shelf.new)) }
    ensures only_read { IsOnlyRead (S.seen shelf.old) (S.seen shelf.new) }
{
    let bytes = read_bytes(alloc, shelf, stems, Place::Journal)?;
    match read_journal(alloc, &bytes) {
        Ok(entries) => {
            let count = u64::from(vertices) + entries.len() as u64;
            if count > MOST_NAMES {
                return Err(Stop::Limit { count });
            }
            Ok(entries)
        }
        Err(fault) => Err(jour_stop(fault)),
    }
}
