// A shelf in memory: it tells its files, and fails where it is told to.
ghost use Rattle.std.specs.Prelude.{◌≡◌, ◌+◌, ◌-◌, ◌<◌, ◌≤◌, ◌↔◌, ◌⊎◌, [], ◌++◌, length, min, max, take, drop, Some, IsSome, IsErr, IfOk, IfErr, OnOk, OnErr, IsErrOf};
ghost use Rattle.std.specs.Option.{option_copied};

use crate::count::raise;
use crate::places::{Place, add_bytes, copy_part, held_bytes, make_empty, make_room, put_bytes};
use crate::{Shelf, ShelfFault};
use std::alloc::Global;
use std::marker::Model;
use thiserror::Error;

/// A kind of call.
#[derive(Clone, Copy, Debug, PartialEq, Eq)]
pub enum Kind {
    Read,
    Create,
    Append,
}

/// The `nth` call of its kind, counted from 0.
#[derive(Clone, Copy, Debug, PartialEq, Eq)]
pub struct Call {
    pub kind: Kind,
    pub nth: u64,
}

/// Memory ran out.
#[derive(Clone, Copy, Debug, PartialEq, Eq, Error)]
#[error("out of memory")]
pub struct NoRoom;

/// Files in memory. The calls of [`Shelf`] take no memory: [`put`](MemShelf::put) and [`room`](MemShelf::room) take
/// it before. The listed calls fail.
#[derive(Drop)]
pub struct MemShelf {
    alloc: Global,
    fail: Vec<Call>,
    places: Vec<Place>,
    read_faults: u64,
    write_faults: u64,
    misses: u64,
    taken: u64,
    reads: u64,
    creates: u64,
    appends: u64,
}

impl Model for MemShelf {
    ghost use Rattle.std.specs.Prelude.{◌≤◌};
    ghost use Rattle.pf_shelf.specs.Memory.{MemFiles};

    ghost Value = { MemFiles };

    ghost use Rattle.pf_shelf.specs.Places.{shown, IsSound};

    ghost view = { shown };

    ghost invariant = { IsSound };
}

impl MemShelf {
    ghost use Rattle.pf_shelf.specs.Files.{file_at};
    ghost use Rattle.pf_shelf.specs.Memory.{room_at, room_of, KeepsOthers, KeepsOtherRooms};

    /// An empty shelf of which these calls will fail.
    pub fn new(alloc: Global, fail: Vec<Call>) -> MemShelf
        ensures { result ≡ record {
          read_faults = 0;
          write_faults = 0;
          misses = 0;
          taken = 0;
          reads = 0;
          creates = 0;
          appends = 0;
          failing = fail.items;
          files = [];
          rooms = [];
        } }
    {
        MemShelf {
            alloc,
            fail,
            places: Vec::new(alloc),
            read_faults: 0,
            write_faults: 0,
            misses: 0,
            taken: 0,
            reads: 0,
            creates: 0,
            appends: 0,
        }
    }

    /// Puts a file there, new or not, with room for its own bytes.
    pub fn put(&mut self, name: &str, bytes: &[u8]) -> Result<(), NoRoom>
        ensures put { OnOk result (file_at self.new.files name.now ≡ Some bytes.now) }
        ensures others { KeepsOthers name.now self.old.files self.new.files }
        ensures room { OnOk result
            (room_at self.new.rooms name.now ≡ Some (max (room_of self.old.rooms name.now) (length bytes.now))) }
        ensures other_rooms { KeepsOtherRooms name.now self.old.rooms self.new.rooms }
        ensures rest { self.new ≡ record self.old { files = self.new.files; rooms = self.new.rooms } }
        ensures err { OnErr result (self.new ≡ self.old) }
    {
        match put_bytes(self.alloc, &mut self.places, name.as_bytes(), bytes) {
            Ok(()) => Ok(()),
            Err(_) => Err(NoRoom),
        }
    }

    /// The bytes of a file, if it is there.
    pub fn get(&self, name: &str) -> Option<&[u8]>
        ensures { option_copied result ≡ file_at self.now.files name.now }
    {
        held_bytes(&self.places, name.as_bytes())
    }

    /// Makes room for a file of that name and of so many bytes, and leaves the files as they are.
    pub fn room(&mut self, name: &str, bytes: u64) -> Result<(), NoRoom>
        ensures room { OnOk result
            (room_at self.new.rooms name.now ≡ Some (max (room_of self.old.rooms name.now) bytes)) }
        ensures other_rooms { KeepsOtherRooms name.now self.old.rooms self.new.rooms }
        ensures rest { self.new ≡ record self.old { rooms = self.new.rooms } }
        ensures err { OnErr result (self.new ≡ self.old) }
    {
        match make_room(
            self.alloc,
            &mut self.places,
            name.as_bytes(),
            bytes as usize,
        ) {
            Ok(_) => Ok(()),
            Err(_) => Err(NoRoom),
        }
    }
}

impl Shelf for MemShelf {
    ghost use Rattle.pf_shelf.specs.Files.{file_at};
    ghost use Rattle.pf_shelf.specs.Memory.{seen_of, IsListed, HasNoPlace, HasNoRoom, file_of, KeepsOthers, after_read, after_create, after_append};

    ghost seen = { seen_of };

    /// Fails exactly where the call is listed. Else it fills `buf`, or gives all that is left.
    fn read_at(&mut self, name: &str, at: u64, buf: &mut [u8]) -> Result<usize, ShelfFault>
        ensures failed { IsErrOf result ShelfFault.Failed ↔ IsListed self.old.failing Kind.Read self.old.reads }
        ensures absent { IsErrOf result ShelfFault.Absent → file_at self.old.files name.now ≡ None }
        ensures is_held { OnOk result (IsSome (file_at self.old.files name.now)) }
        ensures length { IfOk result (λ n. n ≡ min (length buf.old) (length (file_of self.old.files name.now) - at)) }
        ensures bytes { IfOk result (λ n. take n buf.new ≡ take n (drop at (file_of self.old.files name.now))) }
        ensures state { self.new ≡ after_read self.old result }
    {
        let nth = self.reads;
        self.reads = raise(nth, 1);
        if self.fail.contains(&Call {
            kind: Kind::Read,
            nth,
        }) {
            self.read_faults = raise(self.read_faults, 1);
            return Err(ShelfFault::Failed);
        }
        let Some(file) = held_bytes(&self.places, name.as_bytes()) else {
            self.misses = raise(self.misses, 1);
            return Err(ShelfFault::Absent);
        };
        let n = copy_part(file, at, buf);
        self.taken = raise(self.taken, n as u64);
        Ok(n)
    }

    /// Fails exactly where the call is listed, or the name is neither held nor has room.
    fn create(&mut self, name: &str) -> Result<(), ShelfFault>
        ensures failed { IsErr result
            ↔ (IsListed self.old.failing Kind.Create self.old.creates ⊎ HasNoPlace self.old.files self.old.rooms name.now) }
        ensures never_absent { IfErr result (λ fault. fault ≡ ShelfFault.Failed) }
        ensures empty { OnOk result (file_at self.new.files name.now ≡ Some []) }
        ensures others { KeepsOthers name.now self.old.files self.new.files }
        ensures state { self.new ≡ after_create self.old result self.new.files }
    {
        let nth = self.creates;
        self.creates = raise(nth, 1);
        let listed = self.fail.contains(&Call {
            kind: Kind::Create,
            nth,
        });
        if listed || !make_empty(&mut self.places, name.as_bytes()) {
            self.write_faults = raise(self.write_faults, 1);
            return Err(ShelfFault::Failed);
        }
        Ok(())
    }

    /// Fails exactly where the call is listed, the name isn't held, or the file would pass its room. Else it appends
    /// all the bytes.
    fn append(&mut self, name: &str, bytes: &[u8]) -> Result<usize, ShelfFault>
        ensures failed { IsErr result
            ↔ (IsListed self.old.failing Kind.Append self.old.appends ⊎ HasNoRoom self.old.files self.old.rooms name.now (length bytes.now)) }
        ensures never_absent { IfErr result (λ fault. fault ≡ ShelfFault.Failed) }
        ensures all { IfOk result (λ n. n ≡ length bytes.now) }
        ensures appended { OnOk result
            (file_at self.new.files name.now ≡ Some (file_of self.old.files name.now ++ bytes.now)) }
        ensures others { KeepsOthers name.now self.old.files self.new.files }
        ensures state { self.new ≡ after_append self.old result self.new.files }
    {
        let nth = self.appends;
        self.appends = raise(nth, 1);
        let listed = self.fail.contains(&Call {
            kind: Kind::Append,
            nth,
        });
        if listed || !add_bytes(&mut self.places, name.as_bytes(), bytes) {
            self.write_faults = raise(self.write_faults, 1);
            return Err(ShelfFault::Failed);
        }
        Ok(bytes.len())
    }
}
