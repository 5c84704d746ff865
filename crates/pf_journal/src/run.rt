//! The replay of a journal on a mesh.
ghost use Rattle.std.specs.Prelude.{◌≡◌, ◌≢◌, ◌+◌, ◌<◌, ◌≤◌, ℕ, Some, length, option_map, OnOk, IfErr};
ghost use Rattle.pf_model.specs.Conforming.{IsLive, IsConforming};
ghost use Rattle.pf_model.specs.Replay.{replayed, first_refusal, IsLegal, HasTickets};
ghost use Rattle.pf_model.specs.Sums.{area2_of, euler_of};
ghost use Rattle.pf_model.specs.Limits.{most_names};
ghost use Rattle.pf_cover_model.specs.Alike.{CoversAlike, KeepsFans};
ghost use Rattle.pf_journal.specs.declared.run.ReplayErr.TheVariants.{Memory};
ghost use Rattle.pf_journal.specs.Replay.{error_of, IsReplayedBefore};
ghost use Rattle.pf_journal.specs.Stops.{stopped_at};

use pf_mesh::{ApplyErr, Cond, Entry, Mesh, RunErr};
use thiserror::Error;

/// Why a journal isn't replayed to its end.
#[derive(Clone, Copy, Debug, PartialEq, Eq, Error)]
pub enum ReplayErr {
    /// The entry with this ticket fails this condition, once those before it are applied.
    #[error("ticket {ticket}: the operation fails a condition")]
    At { ticket: u32, cond: Cond },
    /// The entry with this ticket names a node that isn't live, once those before it are applied.
    #[error("ticket {ticket}: node {node} isn't live")]
    Gone { ticket: u32, node: u32 },
    /// Memory ran out, for an entry that passes.
    #[error("out of memory")]
    Memory,
}

impl From<RunErr> for ReplayErr {
    ghost from_gives = { λ stop err. err ≡ stopped_at stop.ticket stop.fault };

    fn from(stop: RunErr) -> ReplayErr {
        let ticket = stop.ticket;
        match stop.fault {
            ApplyErr::Refused { cond } => ReplayErr::At { ticket, cond },
            ApplyErr::Gone { node } => ReplayErr::Gone { ticket, node },
            ApplyErr::Memory => ReplayErr::Memory,
        }
    }
}

/// Applies the entries of a journal to a mesh one after another, up to the first that is refused.
///
/// `At` and `Gone` name the first entry that `apply` refuses after those before it. After an error the
/// mesh is the replay of the entries before the one that wasn't applied; where that is for want of
/// memory, the entry passes.
pub fn replay(mesh: &mut Mesh, entries: &[Entry]) -> Result<(), ReplayErr>
    requires fresh { (n : ℕ) → IsLive mesh.old.mesh n → n < mesh.old.mesh.first_new }
    requires tickets { HasTickets entries.now }
    requires limit { mesh.old.mesh.first_new + length entries.now ≤ most_names }
    ensures legal { OnOk result (IsLegal mesh.old.mesh entries.now) }
    ensures replayed { OnOk result (mesh.new.mesh ≡ replayed mesh.old.mesh entries.now) }
    ensures refused { IfErr result (λ err. err ≢ Memory → option_map error_of (first_refusal mesh.old.mesh entries.now) ≡ Some err) }
    ensures before { IfErr result (λ err. IsReplayedBefore mesh.old.mesh mesh.new.mesh entries.now err) }

    // A replay keeps the mesh conforming, and twice its area.
    ensures conforming { IsConforming mesh.new.mesh }
    ensures area { area2_of mesh.new.mesh ≡ area2_of mesh.old.mesh }

    // It covers no point more or less often than before, and keeps the Euler number and each node's one fan.
    ensures cover { CoversAlike mesh.old.mesh mesh.new.mesh }
    ensures euler { euler_of mesh.new.mesh ≡ euler_of mesh.old.mesh }
    ensures fans { KeepsFans mesh.old.mesh mesh.new.mesh }
{
    match mesh.apply_all(entries) {
        Ok(()) => Ok(()),
        Err(stop) => Err(ReplayErr::from(stop)),
    }
}
