//! How often edges were bisected at a place.
use pf_geom::{NoMemory, Point};
use std::alloc::Global;

// The least and the greatest number of slots.
const FEWEST: usize = 1_024;

const MOST: usize = 1_048_576;

// What makes a signed sum of two coordinates positive.
const LIFT: i64 = 8_589_934_592;

/// A place where an edge may be bisected, by the ends of the edge.
#[derive(Clone, Copy, Debug, PartialEq, Eq)]
pub struct Place {
    pub from: Point,
    pub to: Point,
}

// One place's count. The tag tells it from other places with the same slot.
#[derive(Clone, Copy, Debug, PartialEq, Eq)]
struct Slot {
    tag: u32,
    count: u32,
}

/// Counts by the hashed middle of an edge, since each middle gets a new name. Where two places share a slot, the later
/// one begins anew.
#[derive(Drop)]
pub struct Counts {
    slots: Vec<Slot>,
}

// The sum of two coordinates, as a number that isn't negative.
fn lifted(a: i32, b: i32) -> u64 {
    (i64::from(a) + i64::from(b) + LIFT) as u64
}

// Scatters a number.
fn scattered(x: u64) -> u64 {
    let x = (x ^ (x / 8_589_934_592)).wrapping_mul(0xff51_afd7_ed55_8ccd);
    let x = (x ^ (x / 8_589_934_592)).wrapping_mul(0xc4ce_b9fe_1a85_ec53);
    x ^ (x / 8_589_934_592)
}

// The part of a hash by which places with the same slot are told apart.
fn tag_of(hash: u64) -> u32 {
    (hash / 4_294_967_296) as u32
}

// The hash of a place.
fn hash_of(place: Place) -> u64 {
    let across = lifted(place.from.x, place.to.x);
    let up = lifted(place.from.y, place.to.y);
    scattered(scattered(across).wrapping_add(up))
}

impl Counts {
    /// No place has a count. There are about so many slots. Want of memory is the only failure.
    pub fn new(alloc: Global, wanted: usize) -> Result<Counts, NoMemory> {
        let size = wanted.max(FEWEST).min(MOST);
        let Ok(slots) = vec![in alloc; Slot { tag: 0, count: 0 }; size] else {
            return Err(NoMemory);
        };
        Ok(Counts { slots })
    }

    // The slot of a hash.
    fn slot_of(&self, hash: u64) -> usize {
        if self.slots.is_empty() {
            return 0;
        }
        (hash % (self.slots.len() as u64)) as usize
    }

    /// How often edges were bisected there.
    pub fn at(&self, place: Place) -> u32 {
        let hash = hash_of(place);
        match self.slots.get(self.slot_of(hash)) {
            Some(slot) if slot.tag == tag_of(hash) => slot.count,
            _ => 0,
        }
    }

    /// Counts one more.
    pub fn add(&mut self, place: Place) {
        let hash = hash_of(place);
        let count = self.at(place).saturating_add(1);
        let at = self.slot_of(hash);
        if at < self.slots.len() {
            self.slots[at] = Slot {
                tag: tag_of(hash),
                count,
            };
        }
    }
}
