//! The undivided mesh.
ghost use Rattle.std.specs.Prelude.{◌≡◌, ◌≢◌, ℕ, ◌+◌, ◌<◌, ◌≤◌, ◌↔◌, All, length, map, take, Some, None, Err, OnOk, OnErr, IsOkAnd, IfOk, IfErr};
ghost use Rattle.pf_model.specs.declared.Cond.{Cond};
ghost use Rattle.pf_model.specs.Mesh.{point_of};
ghost use Rattle.pf_model.specs.Conforming.{IsConforming, HasDefault};
ghost use Rattle.pf_model.specs.Ends.{AreEndsLive, gone_end};
ghost use Rattle.pf_model.specs.Conditions.{first_failing};
ghost use Rattle.pf_model.specs.Applied.{IsFresh, applied, op_applied};
ghost use Rattle.pf_model.specs.Stars.{star_of};
ghost use Rattle.pf_model.specs.Replay.{HasTickets, IsLegal, first_refusal, replayed};
ghost use Rattle.std.specs.Option.{option_map};
ghost use Rattle.pf_model.specs.Sums.{area2_of, euler_of};
ghost use Rattle.pf_model.specs.Tables.{AreListed, with_tables_of};
ghost use Rattle.pf_model.specs.Wishes.{rest_of};
ghost use Rattle.pf_model.specs.Limits.{most_names};
ghost use Rattle.pf_cover_model.specs.Alike.{CoversAlike, KeepsFans};
ghost use Rattle.pf_edges.specs.Kept.{mesh_of, IsKept};
ghost use Rattle.pf_rules.specs.Change.{PassesWithName, IsChange};
ghost use Rattle.pf_apply.specs.Run.{IsStopped, stop_of};

use crate::entering::table_of;
use pf_apply::parts;
use pf_apply::relist::{relist_sites, relist_tris};
use pf_apply::run::{ApplyErr, RunErr, run_entries};
use pf_apply::tables::{own_listed, own_tris};
use pf_edges::table::EdgeTable;
use pf_geom::{NoMemory, Point};
use pf_judge::operations::{condition, ends, plan};
use pf_model::{Band, Cond, Entry, Op, RestLine, Site, Tri};
use pf_rest::lines::rest;
use pf_rings::Star;
use pf_rules::change::Change;
use pf_rules::scratch::Scratch;
use pf_sweep::{star_at, stars};
use std::alloc::Global;
use std::marker::Model;

// How many names there are, those of the points and one for each operation.
const MOST_NAMES: usize = pf_model::MOST_NAMES as usize;

// The most triangles that an operation puts in.
const MOST_SPOKES: usize = pf_model::MOST_SPOKES as usize;

/// The parts of a mesh: the edge table, which shows it, and its lists.
#[derive(Drop)]
pub struct MeshParts {
    pub first_new: u32,
    pub table: EdgeTable,
    pub sites: Vec<Site>,
    pub tris: Vec<Tri>,
    pub bands: Vec<Band>,
    pub chunks: u16,
}

/// A conforming, positive mesh: whoever holds one holds a mesh whose triangles have live and distinct
/// corners and turn left, whose directed edges stand in one triangle each, whose live nodes are all in a
/// triangle, and whose last band holds every point.
#[derive(Drop)]
pub struct Mesh {
    first_new: u32,
    table: EdgeTable,
    sites: Vec<Site>,
    tris: Vec<Tri>,
    bands: Vec<Band>,
    chunks: u16,
}

impl Model for Mesh {
    ghost use Rattle.std.specs.Prelude.{◌-◌, vec_len, vec_capacity};
    ghost use Rattle.indexmap.specs.IndexMap.{spare};
    ghost use Rattle.pf_edges.specs.Kept.{mesh_of, IsKept};
    ghost use Rattle.pf_mesh.specs.Mesh.{MeshValue, room_of};

    ghost Value = { MeshValue };

    ghost view = { λ a. record {
      mesh = mesh_of a.first_new a.sites.items a.tris.items a.bands.items a.chunks;
      spare = room_of (vec_capacity a.table.nodes) (spare a.table.sides) (vec_capacity a.tris - vec_len a.tris) (vec_capacity a.sites - vec_len a.sites);
    } };

    ghost invariant = { λ a. IsKept a.table.sides a.table.nodes.items (mesh_of a.first_new a.sites.items a.tris.items a.bands.items a.chunks) };
}

impl Mesh {
    /// The mesh with these parts: the table shows it, and the lists are its nodes and triangles.
    pub fn of_kept(
        first_new: u32,
        table: EdgeTable,
        sites: Vec<Site>,
        tris: Vec<Tri>,
        bands: Vec<Band>,
        chunks: u16,
    ) -> Mesh
        requires { IsKept table.sides table.nodes.items (mesh_of first_new sites.items tris.items bands.items chunks) }
        ensures { result.mesh ≡ mesh_of first_new sites.items tris.items bands.items chunks }
    {
        Mesh {
            first_new,
            table,
            sites,
            tris,
            bands,
            chunks,
        }
    }

    /// The mesh with these parts, which are those of a conforming mesh: so the nodes rise by name, and the
    /// triangles by corners. `NoMemory` says that there was no room for its edges and the points of its names.
    pub fn of_parts(
        alloc: Global,
        first_new: u32,
        sites: Vec<Site>,
        tris: Vec<Tri>,
        bands: Vec<Band>,
        chunks: u16,
    ) -> Result<Mesh, NoMemory>
        requires { IsConforming (mesh_of first_new sites.items tris.items bands.items chunks) }
        ensures { IfOk result (λ m. m.mesh ≡ mesh_of first_new sites.items tris.items bands.items chunks) }
    {
        let table = table_of(alloc, &sites, &tris)?;
        Ok(Mesh::of_kept(first_new, table, sites, tris, bands, chunks))
    }

    /// The parts of the mesh.
    pub fn into_parts(self) -> MeshParts
        ensures kept { IsKept result.table.sides result.table.nodes.items self.mesh }
        ensures parts { mesh_of result.first_new result.sites.items result.tris.items result.bands.items result.chunks ≡ self.mesh }
    {
        let Mesh {
            first_new,
            table,
            sites,
            tris,
            bands,
            chunks,
        } = self;
        MeshParts {
            first_new,
            table,
            sites,
            tris,
            bands,
            chunks,
        }
    }

    /// The first name that is given to a new node.
    pub fn first_new(&self) -> u32
        ensures value { result ≡ self.now.mesh.first_new }
        ensures conforming { IsConforming self.now.mesh }
    {
        self.first_new
    }

    /// Where a node stands: `None` exactly where the name isn't live.
    pub fn site(&self, n: u32) -> Option<Point>
        ensures value { result ≡ point_of self.now.mesh.sites n }
        ensures conforming { IsConforming self.now.mesh }
    {
        self.table.site(n)
    }

    /// The live nodes, by rising name.
    pub fn sites(&self) -> &[Site]
        ensures value { result.now ≡ self.now.mesh.sites }
        ensures conforming { IsConforming self.now.mesh }
    {
        let _ = &self.table;
        &self.sites
    }

    /// The triangles, by rising corners.
    pub fn tris(&self) -> &[Tri]
        ensures value { result.now ≡ self.now.mesh.tris }
        ensures conforming { IsConforming self.now.mesh }
    {
        &self.tris
    }

    /// The rows of the size table, with the default last.
    pub fn bands(&self) -> &[Band]
        ensures value { result.now ≡ self.now.mesh.bands }
        ensures conforming { IsConforming self.now.mesh }
    {
        &self.bands
    }

    /// The number of chunks.
    pub fn chunks(&self) -> u16
        ensures value { result ≡ self.now.mesh.chunks }
        ensures conforming { IsConforming self.now.mesh }
    {
        self.chunks
    }

    /// The mesh with other owners and another size table. The triangle with the corners of `listed[i]` gets
    /// the owner `owners[i]`, in whatever order the corners stand there; sites and corners stay.
    ///
    /// `listed` has a place for each triangle, as the list has that is given to `build`. Takes no memory,
    /// so it never fails.
    pub fn with_tables(
        self,
        listed: &[[u32; 3]],
        owners: Vec<u16>,
        chunks: u16,
        bands: Vec<Band>,
    ) -> Result<Mesh, NoMemory>
        requires listed { AreListed listed.now self.mesh.tris }
        requires as_many { length owners.items ≡ length listed.now }
        requires owned { All (λ owner. owner < chunks) owners.items }
        requires default { HasDefault bands.items }
        ensures value { IsOkAnd result (λ m. m.mesh ≡ with_tables_of listed.now owners.items chunks bands.items self.mesh) }
        ensures conforming { IfOk result (λ m. IsConforming m.mesh) }
    {
        let Mesh {
            first_new,
            mut table,
            sites,
            mut tris,
            ..
        } = self;
        own_listed(&mut table.sides, listed, &owners);
        own_tris(&mut tris, &table.sides);
        Ok(Mesh::of_kept(first_new, table, sites, tris, bands, chunks))
    }

    /// The first condition that an operation fails, or `None` where it passes. Takes no memory.
    pub fn first_fail(&self, chunk: u16, op: Op) -> Option<Cond>
        requires { AreEndsLive self.now.mesh op }
        ensures { result ≡ first_failing self.now.mesh chunk op }
    {
        condition(&self.table, &self.bands, chunk, op)
    }

    /// The rest list: a line for each edge that is longer than its band allows, with the edge where the walk
    /// to longer edges ends and what forbids its bisection; a line for each edge that is shorter, with what
    /// forbids its contraction each way; and a line for each edge whose flip passes. Each part is by rising
    /// names. `NoMemory` says that there was no room for the edges or the lines.
    ///
    /// For F triangles it takes time in proportion to F log F, expected, however long the walks are: where one
    /// ends is noted for each edge on its way.
    pub fn rest(&self, alloc: Global) -> Result<Vec<RestLine>, NoMemory>
        ensures { IfOk result (λ lines. lines.items ≡ rest_of self.now.mesh) }
    {
        let lines = rest(&self.table, alloc, &self.tris, &self.bands)?;
        Ok(lines)
    }

    /// The star of a node: `None` exactly where the name isn't live. It may look at every triangle. `NoMemory`
    /// says that memory ran out.
    pub fn star(&self, alloc: Global, n: u32) -> Result<Option<Star>, NoMemory>
        ensures { IfOk result (λ o. o ≡ star_of self.now.mesh n) }
    {
        let star = star_at(alloc, &self.sites, &self.tris, n)?;
        Ok(star)
    }

    /// The stars of all live nodes, by rising name. For F triangles it takes time in proportion to F log F, and
    /// to the greatest name. `NoMemory` says that memory ran out.
    pub fn stars(&self, alloc: Global) -> Result<Vec<Star>, NoMemory>
        ensures { IfOk result (λ v. map (λ s. Some s) v.items ≡ map (λ s. star_of self.now.mesh s.name) self.now.mesh.sites) }
    {
        let stars = stars(alloc, &self.sites, &self.tris)?;
        Ok(stars)
    }

    // The first end of an operation that isn't live.
    fn gone_node(&self, op: Op) -> Option<u32>
        ensures value { result ≡ gone_end self.now.mesh op }
        ensures conforming { IsConforming self.now.mesh }
    {
        let (first, second) = ends(op);
        if self.site(first).is_none() {
            return Some(first);
        }
        if self.site(second).is_none() {
            return Some(second);
        }
        None
    }

    /// Applies an operation, and takes its triangles in the list's order at once. After an error the mesh
    /// is as before.
    ///
    /// `Gone` names the first end, as written, that isn't live; else `Refused` has the first condition
    /// that the operation fails. `Memory` says that there was no room for the change.
    pub fn apply(&mut self, e: &Entry) -> Result<(), ApplyErr>
        requires fresh { IsFresh self.old.mesh e.now.ticket }
        requires named { self.old.mesh.first_new + e.now.ticket < most_names }
        ensures applied { OnOk result (self.new.mesh ≡ applied self.old.mesh e.now) }
        ensures passes { OnOk result (first_failing self.old.mesh e.now.chunk e.now.op ≡ None) }
        ensures gone { (n : ℕ) → (result ≡ Err (ApplyErr.Gone n)) ↔ (gone_end self.old.mesh e.now.op ≡ Some n) }
        ensures refused { (cond : Cond) → (result ≡ Err (ApplyErr.Refused cond))
            ↔ ((gone_end self.old.mesh e.now.op ≡ None) × (first_failing self.old.mesh e.now.chunk e.now.op ≡ Some cond)) }
        ensures err { OnErr result (self.new.mesh ≡ self.old.mesh) }

        // An operation keeps the mesh conforming, and twice its area.
        ensures conforming { IsConforming self.new.mesh }
        ensures area { area2_of self.new.mesh ≡ area2_of self.old.mesh }

        // It covers no point more or less often than before, and keeps the Euler number and each node's one fan.
        ensures cover { CoversAlike self.old.mesh self.new.mesh }
        ensures euler { euler_of self.new.mesh ≡ euler_of self.old.mesh }
        ensures fans { KeepsFans self.old.mesh self.new.mesh }
    {
        if let Some(node) = self.gone_node(e.op) {
            return Err(ApplyErr::Gone { node });
        }
        let name = self.first_new() + e.ticket;
        let mut scratch = Scratch::new();
        if let Some(cond) = self.plan(e.chunk, name, e.op, &mut scratch) {
            return Err(ApplyErr::Refused { cond });
        }
        match self.perform(name, e.op, &scratch.change) {
            Ok(()) => Ok(()),
            Err(NoMemory) => Err(ApplyErr::Memory),
        }
    }

    /// Makes room for so many operations, so that `apply_spare` can apply them. The mesh stays as it is.
    ///
    /// Each operation gets room for the `MOST_SPOKES` triangles that it can bring at most, and any new name gets its
    /// place: they take 16 MB of address space, which stay untouched until the names are used. `NoMemory`
    /// says that there was no such room.
    pub fn reserve(&mut self, ops: u32) -> Result<(), NoMemory>
        ensures ok { OnOk result (ops ≤ self.new.spare) }
        ensures same { self.new.mesh ≡ self.old.mesh }
        ensures conforming { IsConforming self.new.mesh }
    {
        parts::reserve(
            &mut self.table,
            &mut self.sites,
            &mut self.tris,
            MOST_NAMES,
            MOST_SPOKES * ops as usize,
            ops as usize,
        )?;
        Ok(())
    }

    /// Does what `apply` does, where both ends are live, the operation passes and there is room for it. Takes
    /// no memory, and uses room for at most one operation.
    pub fn apply_spare(&mut self, e: &Entry)
        requires fresh { IsFresh self.old.mesh e.now.ticket }
        requires named { self.old.mesh.first_new + e.now.ticket < most_names }
        requires live { AreEndsLive self.old.mesh e.now.op }
        requires passes { first_failing self.old.mesh e.now.chunk e.now.op ≡ None }
        requires room { 1 ≤ self.old.spare }
        ensures applied { self.new.mesh ≡ applied self.old.mesh e.now }
        ensures spare { self.old.spare ≤ self.new.spare + 1 }

        // An operation keeps the mesh conforming, and twice its area.
        ensures conforming { IsConforming self.new.mesh }
        ensures area { area2_of self.new.mesh ≡ area2_of self.old.mesh }

        // It covers no point more or less often than before, and keeps the Euler number and each node's one fan.
        ensures cover { CoversAlike self.old.mesh self.new.mesh }
        ensures euler { euler_of self.new.mesh ≡ euler_of self.old.mesh }
        ensures fans { KeepsFans self.old.mesh self.new.mesh }
    {
        let name = self.first_new() + e.ticket;
        let mut scratch = Scratch::new();
        self.plan(e.chunk, name, e.op, &mut scratch);
        let _ = scratch.change.new.len();
        parts::perform_within(
            &mut self.table,
            &mut self.sites,
            &mut self.tris,
            name,
            e.op,
            &scratch.change,
        );
    }

    /// Applies the entries of a journal one after another, up to the first that `apply` wouldn't apply, and
    /// lists the nodes and triangles anew at the end.
    ///
    /// `ticket` of an error is that of the entry that isn't applied, and `fault` what `apply` would say of
    /// it; the mesh is then that after the entries before it. `Memory` says that there was no room for the
    /// change.
    pub fn apply_all(&mut self, entries: &[Entry]) -> Result<(), RunErr>
        requires fresh { IsFresh self.old.mesh 0 }
        requires tickets { HasTickets entries.now }
        requires named { self.old.mesh.first_new + length entries.now ≤ most_names }
        ensures replayed { OnOk result (self.new.mesh ≡ replayed self.old.mesh entries.now) }
        ensures legal { OnOk result (IsLegal self.old.mesh entries.now) }
        ensures passed { OnOk result (first_refusal self.old.mesh entries.now ≡ None) }
        ensures refused { IfErr result (λ stop. stop.fault ≢ ApplyErr.Memory → option_map stop_of (first_refusal self.old.mesh entries.now) ≡ Some stop) }
        ensures stopped { IfErr result (λ stop. IsStopped self.old.mesh entries.now stop.ticket stop.fault) }
        ensures before { IfErr result (λ stop. self.new.mesh ≡ replayed self.old.mesh (take stop.ticket entries.now)) }

        // A run keeps the mesh conforming, and twice its area.
        ensures conforming { IsConforming self.new.mesh }
        ensures area { area2_of self.new.mesh ≡ area2_of self.old.mesh }

        // It covers no point more or less often than before, and keeps the Euler number and each node's one fan.
        ensures cover { CoversAlike self.old.mesh self.new.mesh }
        ensures euler { euler_of self.new.mesh ≡ euler_of self.old.mesh }
        ensures fans { KeepsFans self.old.mesh self.new.mesh }
    {
        let first_new = self.first_new();
        if entries.is_empty() {
            return Ok(());
        }
        self.sites.clear();
        self.tris.clear();
        let ran = run_entries(
            &mut self.table,
            &mut self.sites,
            &mut self.tris,
            &self.bands,
            first_new,
            entries,
        );
        relist_sites(
            &self.table,
            first_new + entries.len() as u32,
            &mut self.sites,
        );
        relist_tris(&self.table, &mut self.tris);
        ran
    }

    // The first condition that an operation fails, or `None` where it passes. Then the change is what it makes
    // of the triangles.
    fn plan(&self, chunk: u16, n: u32, op: Op, scratch: &mut Scratch) -> Option<Cond>
        ensures cond { result ≡ first_failing self.now.mesh chunk op }
        ensures change { result ≡ None → IsChange self.now.mesh n op scratch.new.change.removed.items scratch.new.change.new.items }
    {
        plan(&self.table, &self.bands, chunk, n, op, scratch)
    }

    // Performs an operation that passes. A bisection's new node is named `n`. All room is made before
    // anything changes.
    fn perform(&mut self, n: u32, op: Op, change: &Change) -> Result<(), NoMemory>
        requires can { PassesWithName self.old.mesh n op }
        requires change { IsChange self.old.mesh n op change.now.removed.items change.now.new.items }
        ensures ok { OnOk result ((can : PassesWithName self.old.mesh n op) → self.new.mesh ≡ op_applied self.old.mesh can.ticket op) }
        ensures err { OnErr result (self.new.mesh ≡ self.old.mesh) }
    {
        let triangles = change.new.len();
        parts::reserve(
            &mut self.table,
            &mut self.sites,
            &mut self.tris,
            n as usize + 1,
            triangles,
            1,
        )?;
        parts::perform_within(
            &mut self.table,
            &mut self.sites,
            &mut self.tris,
            n,
            op,
            change,
        );
        Ok(())
    }
}
