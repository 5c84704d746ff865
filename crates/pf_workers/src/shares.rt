//! How a budget is shared.
ghost use Rattle.std.specs.Prelude.{◌≡◌, ◌<◌, ◌%◌, nat_lt};
ghost use Rattle.pf_workers.specs.Shares as spec;

// Whether a worker gets one more than an equal part.
fn gets_one_more(budget: u32, workers: u32, worker: u32) -> bool
    requires { 0 < workers }
    ensures { result ≡ nat_lt worker (budget % workers) }
{
    worker < budget % workers
}

/// A worker's share of the budget: the budget divided by the number of workers, rounded down, and one more for as
/// many of the first workers as the rest of that division says.
pub fn share_of(budget: u32, workers: u32, worker: u32) -> u32
    requires { 0 < workers }
    ensures { result ≡ spec.share_of budget workers worker }
{
    let part = budget / workers;
    if gets_one_more(budget, workers, worker) {
        part + 1
    } else {
        part
    }
}
