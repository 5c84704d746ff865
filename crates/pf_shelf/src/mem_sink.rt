// A sink in memory: it tells its text, and fails where it is told to.
ghost use Rattle.std.specs.Prelude.{◌≡◌, ◌+◌, ◌<◌, ◌↔◌, ◌⊎◌, [], length, max, Contains, Some, IsErr, IfOk, OnOk, OnErr};

use crate::count::raise;
use crate::{NoRoom, Sink, SinkFault};
use std::alloc::Global;
use std::marker::Model;

/// A text in memory. Its `append` takes no memory: [`room`](MemSink::room) takes it before. The listed calls fail.
#[derive(Drop)]
pub struct MemSink {
    fail: Vec<u64>,
    bytes: Vec<u8>,
    limit: usize,
    faults: u64,
    calls: u64,
}

impl Model for MemSink {
    ghost use Rattle.std.specs.Prelude.{◌≤◌, vec_len, vec_capacity};
    ghost use Rattle.pf_shelf.specs.Memory.{MemText};

    ghost Value = { MemText };

    ghost view = { λ a. record { faults = a.faults; calls = a.calls; failing = a.fail.items; text = a.bytes.items; room = a.limit } };

    ghost invariant = { λ a. (vec_len a.bytes ≤ a.limit) × (a.limit ≤ vec_capacity a.bytes) };
}

impl MemSink {
    /// An empty text with no room, at which the calls of these numbers, counted from 0, will fail.
    pub fn new(alloc: Global, fail: Vec<u64>) -> MemSink
        ensures { result ≡ record { faults = 0; calls = 0; failing = fail.items; text = []; room = 0 } }
    {
        MemSink {
            fail,
            bytes: Vec::new(alloc),
            limit: 0,
            faults: 0,
            calls: 0,
        }
    }

    /// The bytes taken so far.
    pub fn text(&self) -> &[u8]
        ensures { result.now ≡ self.now.text }
    {
        self.bytes.as_slice()
    }

    /// Makes room for a text of so many bytes.
    pub fn room(&mut self, bytes: u64) -> Result<(), NoRoom>
        ensures ok { OnOk result (self.new ≡ record self.old { room = max self.old.room bytes }) }
        ensures err { OnErr result (self.new ≡ self.old) }
    {
        let more = bytes.saturating_sub(self.bytes.len() as u64);
        if self.bytes.reserve_exact(more as usize).is_err() {
            return Err(NoRoom);
        }
        self.limit = self.limit.max(bytes as usize);
        Ok(())
    }
}

impl Sink for MemSink {
    ghost use Rattle.pf_shelf.specs.Memory.{heard_of, after_say};

    ghost heard = { heard_of };

    /// Fails exactly where the call is listed, or the text would pass its room. Else it takes all the bytes.
    fn append(&mut self, bytes: &[u8]) -> Result<usize, SinkFault>
        ensures failed { IsErr result ↔ (Contains self.old.failing self.old.calls
            ⊎ (self.old.room < length self.old.text + length bytes.now)) }
        ensures all { IfOk result (λ n. n ≡ length bytes.now) }
        ensures state { self.new ≡ after_say self.old bytes.now result }
    {
        let call = self.calls;
        self.calls = raise(call, 1);
        let fits = bytes.len() <= self.limit - self.bytes.len();
        if !fits || self.fail.contains(&call) || self.bytes.extend_from_slice(bytes).is_err() {
            self.faults = raise(self.faults, 1);
            return Err(SinkFault);
        }
        Ok(bytes.len())
    }
}
