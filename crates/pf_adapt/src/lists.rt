//! The list that the last pass is given.
ghost use Rattle.std.specs.Prelude.{◌≡◌, IfOk};
ghost use Rattle.std.specs.List.{range_with_len};

use pf_geom::NoMemory;
use std::alloc::Global;

/// The names below this one, rising.
pub(crate) fn names_below(alloc: Global, end: u32) -> Result<Vec<u32>, NoMemory>
    ensures { IfOk result (λ v. v.items ≡ range_with_len 0 end) }
{
    let mut list = Vec::with_capacity(alloc, end as usize).map_err(|_| NoMemory)?;
    'names: for n in 0..end {
        list.push(n).map_err(|_| NoMemory)?;
    }
    Ok(list)
}
