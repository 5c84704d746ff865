//! What an actor owes.
ghost use Rattle.std.specs.Prelude.{◌≡◌, []};
ghost use Rattle.std.specs.List.{list_any};
ghost use Rattle.pf_core_model.specs.State.{is_nil, is_owed, owes_of, without_owed};

use pf_core_model::Owed;
use std::alloc::Global;
use std::marker::Model;

/// The copies that an actor has still to put. Contracts see the list of the pairs.
#[derive(Debug, Drop)]
pub struct Debts {
    list: Vec<Owed>,
}

impl Model for Debts {
    ghost use Rattle.std.specs.Prelude.{List};
    ghost use Rattle.pf_core_model.specs.declared.event.Owed.{Owed};

    ghost Value = { List Owed };

    ghost view = { λ d. d.list.items };
}

// Whether a copy is among these.
fn is_among(list: &[Owed], chunk: u16, node: u32) -> bool
    ensures { result ≡ list_any (is_owed chunk node) list.now }
{
    list.iter().any(|d| d.chunk == chunk && d.node == node)
}

// Whether a copy of the node is among these.
fn is_node_among(list: &[Owed], node: u32) -> bool
    ensures { result ≡ owes_of node list.now }
{
    list.iter().any(|d| d.node == node)
}

// Takes a copy out of these.
fn take_out(list: &mut Vec<Owed>, chunk: u16, node: u32)
    ensures { list.new.items ≡ without_owed chunk node list.old.items }
{
    list.retain(|d| !(d.chunk == chunk && d.node == node));
}

impl Debts {
    /// Nothing.
    pub fn none(alloc: Global) -> Debts
        ensures { result ≡ [] }
    {
        Debts {
            list: Vec::new(alloc),
        }
    }

    /// These copies.
    pub fn of(list: Vec<Owed>) -> Debts
        ensures { result ≡ list.items }
    {
        Debts { list }
    }

    /// Whether nothing is owed.
    pub fn is_empty(&self) -> bool
        ensures { result ≡ is_nil self.now }
    {
        self.list.is_empty()
    }

    /// Whether a chunk's copy of a node is owed.
    pub fn has(&self, chunk: u16, node: u32) -> bool
        ensures { result ≡ list_any (is_owed chunk node) self.now }
    {
        is_among(&self.list, chunk, node)
    }

    /// Whether any copy of a node is owed.
    pub fn owes(&self, node: u32) -> bool
        ensures { result ≡ owes_of node self.now }
    {
        is_node_among(&self.list, node)
    }

    /// A copy was put.
    pub fn pay(&mut self, chunk: u16, node: u32)
        ensures { self.new ≡ without_owed chunk node self.old }
    {
        take_out(&mut self.list, chunk, node);
    }
}
