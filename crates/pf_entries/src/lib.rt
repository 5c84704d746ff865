//! The entries of a journal that one worker makes, kept by ticket.
//!
//! Room is made by [`Entries::new`] alone. Adding an entry and joining the entries of two workers take
//! no memory.
#![tactic(auto)]

ghost use Rattle.std.specs.Prelude.{◌≡◌, ◌+◌, ◌≤◌, None, IfOk};
ghost use Rattle.std.specs.FinMap as map;
ghost use Rattle.pf_entries.specs.Maps.{tickets_of, joined, AreDisjoint};

mod parts;

use parts::{Chain, add_to, copy_all, move_all};
use pf_geom::NoMemory;
use pf_model::Entry;
use std::alloc::Global;
use std::marker::Model;

/// Entries, each under its ticket, and room for more.
///
/// Contracts see the map from tickets to entries, and the number `spare` of entries for which there
/// is room.
#[derive(Drop)]
pub struct Entries {
    // Parts in which there is room.
    ready: Chain,
    // Parts in which there is none.
    full: Chain,
}

impl Model for Entries {
    ghost use Rattle.pf_entries.specs.Maps.{EntryMap, entry_map_code};

    ghost Value = { EntryMap };

    ghost coded = { entry_map_code };

    ghost use Rattle.pf_entries.specs.Inside.{seen_in, AreKeptChains};

    ghost view = { λ a. seen_in a.ready a.full };

    ghost invariant = { λ a. AreKeptChains a.ready a.full };
}

impl Entries {
    /// No entries, and room for `room` of them.
    pub fn new(alloc: Global, room: u32) -> Result<Entries, NoMemory>
        ensures entries { IfOk result (λ made. made.entries ≡ map.empty) }
        ensures spare { IfOk result (λ made. made.spare ≡ room) }
    {
        let Ok(items) = Vec::with_capacity(alloc, room as usize) else {
            return Err(NoMemory);
        };
        let Ok(rest) = Box::new(alloc, Chain::End) else {
            return Err(NoMemory);
        };
        let part = Chain::Part(items, rest);
        if room == 0 {
            Ok(Entries {
                ready: Chain::End,
                full: part,
            })
        } else {
            Ok(Entries {
                ready: part,
                full: Chain::End,
            })
        }
    }

    /// Adds an entry under its ticket. Takes no memory, and the same time however many entries there
    /// are.
    pub fn add(&mut self, e: Entry)
        requires room { 1 ≤ self.old.spare }
        requires absent { map.get self.old.entries e.ticket ≡ None }
        ensures entries { self.new.entries ≡ map.insert self.old.entries e.ticket e }
        ensures spare { self.new.spare + 1 ≡ self.old.spare }
    {
        add_to(&mut self.ready, &mut self.full, e);
    }

    /// Joins the entries of another, and its room. Takes no memory, and time by how many parts were
    /// joined into the other before.
    pub fn join(&mut self, other: Entries)
        requires { AreDisjoint self.old.entries other.entries }
        ensures entries { self.new.entries ≡ joined self.old.entries other.entries }
        ensures spare { self.new.spare ≡ self.old.spare + other.spare }
    {
        let Entries { ready, full } = other;
        move_all(ready, &mut self.ready);
        move_all(full, &mut self.full);
    }

    /// The entries by rising ticket. Each stands in the map under its own.
    pub fn rising(&self, alloc: Global) -> Result<Vec<Entry>, NoMemory>
        ensures entries { IfOk result (λ list. list.items ≡ map.values self.now.entries) }
        ensures tickets { IfOk result (λ list. tickets_of list.items ≡ map.keys self.now.entries) }
    {
        let mut list = Vec::new(alloc);
        copy_all(&self.ready, &mut list)?;
        copy_all(&self.full, &mut list)?;
        list.sort_unstable_by_key(|e| e.ticket);
        Ok(list)
    }
}
