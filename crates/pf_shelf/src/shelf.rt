// What every device outside promises: counts of what went wrong, and the bytes where it tells them.
ghost use Rattle.std.specs.Prelude.{◌≡◌, ◌<◌, ◌≤◌, ◌++◌, [], List, ℕ, length, take, drop, Option, IsSome, IfOk, IfErr, OnOk, OnErr, IsErrOf, MatchResult};
ghost use Rattle.pf_shelf.specs.Count.{Rose, raised};
ghost use Rattle.pf_shelf.specs.Files.{Tells, held, bytes_at, IsAsBefore, ChangesOnly};
ghost use Rattle.pf_shelf.specs.Seen.{Seen, Heard};
ghost use Rattle.pf_shelf.specs.Sink.{extended};

use thiserror::Error;

/// Why a call of a shelf did nothing.
#[derive(Clone, Copy, Debug, PartialEq, Eq, Error)]
pub enum ShelfFault {
    /// The device failed.
    #[error("the device failed")]
    Failed,
    /// There is no file of that name.
    #[error("no such file")]
    Absent,
}

/// A sink failed.
#[derive(Clone, Copy, Debug, PartialEq, Eq, Error)]
#[error("the device failed")]
pub struct SinkFault;

/// Named files. A shelf may tell its files to contracts; one over real files tells nothing.
pub trait Shelf {
    /// What contracts see of it: its files, where it tells them, and its counts.
    ghost seen: { Self → Seen };

    /// Puts bytes of the file, from place `at` on, into the front of `buf`, and answers how many. For a `buf` that
    /// isn't empty, `Ok(0)` says that the file ends at or before `at`.
    fn read_at(&mut self, name: &str, at: u64, buf: &mut [u8]) -> Result<usize, ShelfFault>
        ensures fits { IfOk result (λ n. n ≤ length buf.old) }

        // What it gave, where the shelf tells.
        ensures bytes { Tells (seen self.old).told →
            IfOk result (λ n. take n buf.new ≡ take n (drop at (bytes_at (seen self.old).told name.now))) }
        ensures end { Tells (seen self.old).told →
            IfOk result (λ n. n ≡ 0 → 0 < length buf.old → length (bytes_at (seen self.old).told name.now) ≤ at) }
        ensures is_held { Tells (seen self.old).told → OnOk result (IsSome (held (seen self.old).told name.now)) }
        ensures not_held { Tells (seen self.old).told →
            IsErrOf result ShelfFault.Absent → held (seen self.old).told name.now ≡ None }
        ensures files { IsAsBefore (seen self.old).told (seen self.new).told }

        // It gives up where a count of its rises, and a count rises where it gives up.
        ensures failed { IsErrOf result ShelfFault.Failed → Rose (seen self.old).read_faults (seen self.new).read_faults }
        ensures absent { IsErrOf result ShelfFault.Absent → Rose (seen self.old).misses (seen self.new).misses }
        ensures no_fault { OnOk result ((seen self.new).read_faults ≡ (seen self.old).read_faults) }
        ensures no_miss { OnOk result ((seen self.new).misses ≡ (seen self.old).misses) }
        ensures failed_alone { IsErrOf result ShelfFault.Failed → (seen self.new).misses ≡ (seen self.old).misses }
        ensures absent_alone { IsErrOf result ShelfFault.Absent → (seen self.new).read_faults ≡ (seen self.old).read_faults }

        ensures read_faults { (seen self.old).read_faults ≤ (seen self.new).read_faults }
        ensures write_faults { (seen self.new).write_faults ≡ (seen self.old).write_faults }
        ensures misses { (seen self.old).misses ≤ (seen self.new).misses }
        ensures taken { MatchResult result
            (λ n. (seen self.new).taken ≡ raised (seen self.old).taken n) (λ _. (seen self.new).taken ≡ (seen self.old).taken) };

    /// Makes the file empty, new or not.
    fn create(&mut self, name: &str) -> Result<(), ShelfFault>
        ensures empty { Tells (seen self.old).told → OnOk result (held (seen self.new).told name.now ≡ Some []) }
        ensures others { ChangesOnly name.now (seen self.old).told (seen self.new).told }
        ensures err { OnErr result (IsAsBefore (seen self.old).told (seen self.new).told) }

        // It gives up where its count rises, and the count rises where it gives up.
        ensures never_absent { IfErr result (λ fault. fault ≡ ShelfFault.Failed) }
        ensures failed { OnErr result (Rose (seen self.old).write_faults (seen self.new).write_faults) }
        ensures no_fault { OnOk result ((seen self.new).write_faults ≡ (seen self.old).write_faults) }

        ensures read_faults { (seen self.new).read_faults ≡ (seen self.old).read_faults }
        ensures write_faults { (seen self.old).write_faults ≤ (seen self.new).write_faults }
        ensures misses { (seen self.new).misses ≡ (seen self.old).misses }
        ensures taken { (seen self.new).taken ≡ (seen self.old).taken };

    /// Appends a prefix of `bytes` to the file, and answers how long it is: at least 1, unless `bytes` is empty.
    fn append(&mut self, name: &str, bytes: &[u8]) -> Result<usize, ShelfFault>
        ensures fits { IfOk result (λ n. n ≤ length bytes.now) }
        ensures goes_on { 0 < length bytes.now → IfOk result (λ n. 0 < n) }

        ensures appended { Tells (seen self.old).told →
            IfOk result (λ n. held (seen self.new).told name.now ≡ Some (bytes_at (seen self.old).told name.now ++ take n bytes.now)) }
        ensures others { ChangesOnly name.now (seen self.old).told (seen self.new).told }
        ensures err { OnErr result (IsAsBefore (seen self.old).told (seen self.new).told) }

        // It gives up where its count rises, and the count rises where it gives up.
        ensures never_absent { IfErr result (λ fault. fault ≡ ShelfFault.Failed) }
        ensures failed { OnErr result (Rose (seen self.old).write_faults (seen self.new).write_faults) }
        ensures no_fault { OnOk result ((seen self.new).write_faults ≡ (seen self.old).write_faults) }

        ensures read_faults { (seen self.new).read_faults ≡ (seen self.old).read_faults }
        ensures write_faults { (seen self.old).write_faults ≤ (seen self.new).write_faults }
        ensures misses { (seen self.new).misses ≡ (seen self.old).misses }
        ensures taken { (seen self.new).taken ≡ (seen self.old).taken };
}

/// A stream to print to. A sink may tell contracts what it has taken.
pub trait Sink {
    /// What contracts see of it: what it has taken so far, where it tells that, and its count of faults.
    ghost heard: { Self → Heard };

    /// Takes a prefix of `bytes`, and answers how long it is: at least 1, unless `bytes` is empty.
    fn append(&mut self, bytes: &[u8]) -> Result<usize, SinkFault>
        ensures fits { IfOk result (λ n. n ≤ length bytes.now) }
        ensures goes_on { 0 < length bytes.now → IfOk result (λ n. 0 < n) }

        ensures taken { IfOk result (λ n. (heard self.new).told ≡ extended (heard self.old).told (take n bytes.now)) }
        ensures err { OnErr result ((heard self.new).told ≡ (heard self.old).told) }

        // It gives up where its count rises, and the count rises where it gives up.
        ensures failed { OnErr result (Rose (heard self.old).faults (heard self.new).faults) }
        ensures no_fault { OnOk result ((heard self.new).faults ≡ (heard self.old).faults) }
        ensures faults { (heard self.old).faults ≤ (heard self.new).faults };
}
