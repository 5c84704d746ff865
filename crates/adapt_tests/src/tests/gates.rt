//! Gates that show which worker takes which turn.

use super::*;
use std::sync::atomic::{AtomicBool, AtomicU64, Ordering};
use std::thread::yield_now;

// How often a worker looks whether the other came.
const LOOKS: u32 = 10_000_000;

// One worker waits before its first turn until the other is about to take its second, and notes whether it came.
#[derive(Drop)]
struct Waiting {
    waiter: u32,
    came: AtomicBool,
    seen: AtomicBool,
}

impl Waiting {
    fn new(waiter: u32) -> Waiting {
        Waiting {
            waiter,
            came: AtomicBool::new(false),
            seen: AtomicBool::new(false),
        }
    }

    fn wait(&self) {
        for _ in 0..LOOKS {
            if self.came.load(Ordering::SeqCst) {
                self.seen.store(true, Ordering::SeqCst);
                return;
            }
            yield_now();
        }
    }
}

impl Gate for Waiting {
    fn pass(&self, worker: u32, turn: u32) {
        if worker == self.waiter {
            if turn == 0 {
                self.wait();
            }
        } else if turn == 1 {
            self.came.store(true, Ordering::SeqCst);
        }
    }
}

// Two squares that share no node, one for each chunk.
const TWO_SQUARES: Input<'static> = Input {
    node: b"8 2 0 0\n0 0 0\n1 4 0\n2 4 4\n3 0 4\n4 8 0\n5 12 0\n6 12 4\n7 8 4\n",
    ele: b"4 3 0\n0 0 1 2\n1 0 2 3\n2 4 5 6\n3 4 6 7\n",
    part: b"0\n0\n1\n1\n",
    size: b"default 0 16\n",
};

// A run that is done, whose workers pass this gate.
fn assert_passes<R: Abort + AllocGlobal + Threads + Sync, G: Gate + Sync>(
    rt: &R,
    words: &[&str],
    shelf: &mut MemShelf,
    gate: &G,
) -> Result<(), Fail> {
    let mut out = sink(rt.alloc())?;
    let status = run(rt, rt.alloc(), words, shelf, &mut out, gate);
    assert_eq!(rt; status, 0, "{words:?}");
    Ok(())
}

// While this worker waits, the other makes its operation, so that the journal begins with it.
fn assert_waits<R: Abort + AllocGlobal + Threads + Sync>(
    rt: &R,
    waiter: u32,
    journal: &[u8],
) -> Result<(), Fail> {
    let mut shelf = shelf_of(rt.alloc(), TWO_SQUARES)?;
    let words = ["adapt", "s", "o", "--ops", "4", "--workers", "2"];
    let gate = Waiting::new(waiter);
    assert_passes(rt, &words, &mut shelf, &gate)?;
    assert!(rt; gate.seen.load(Ordering::SeqCst), "worker {waiter} waits");
    assert_held(rt, &shelf, "o.journal", journal);
    Ok(())
}

#[test]
fn workers_run_at_once(rt: HostRuntime) -> Result<(), Fail> {
    let first = b"parfum journal 1\n0 1 bisect 4 6\n1 0 bisect 0 2\nend 2\n";
    assert_waits(&rt, 0, first)?;
    let second = b"parfum journal 1\n0 0 bisect 0 2\n1 1 bisect 4 6\nend 2\n";
    assert_waits(&rt, 1, second)
}

// How often each of four workers was about to take its first turn.
#[derive(Drop)]
struct Counting {
    first_turns: [AtomicU64; 4],
}

impl Gate for Counting {
    fn pass(&self, worker: u32, turn: u32) {
        if turn == 0 && worker < 4 {
            self.first_turns[worker as usize].fetch_add(1, Ordering::SeqCst);
        }
    }
}

#[test]
fn each_worker_takes_its_first_turn(rt: HostRuntime) -> Result<(), Fail> {
    let mut shelf = MemShelf::new(rt.alloc(), Vec::new(rt.alloc()));
    let gate = Counting {
        first_turns: [
            AtomicU64::new(0),
            AtomicU64::new(0),
            AtomicU64::new(0),
            AtomicU64::new(0),
        ],
    };
    assert_passes(&rt, &["demo", "4"], &mut shelf, &gate)?;
    for turns in &gate.first_turns {
        assert_eq!(&rt; turns.load(Ordering::SeqCst), 1);
    }
    Ok(())
}
