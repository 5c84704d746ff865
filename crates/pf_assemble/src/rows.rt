//! Rows of numbers, filled in the order of what they name: so a number stands in a row once, and rows rise.
ghost use Rattle.std.specs.Prelude.{◌≡◌, ℕ, ◌<◌, ◌==◌, ◌||◌, ◌&&◌, not, [], Bool, true, IfOk, OnOk, length, slice_index_or};
ghost use Rattle.std.specs.List.{list_any};
ghost use Rattle.pf_assemble.specs.Rows.{marked, AreMarked, AreTaken};
ghost use Rattle.pf_assemble.specs.Placed.{row_at};

use pf_geom::NoMemory;
use std::alloc::Global;

/// So many empty rows.
pub(crate) fn rows_of(alloc: Global, count: usize) -> Result<Vec<Vec<usize>>, NoMemory>
    ensures len { IfOk result (λ v. length v.items ≡ count) }
    ensures empty { IfOk result (λ v. (w : ℕ) (d : _) → w < count → (slice_index_or v.items w d).items ≡ []) }
{
    let mut rows = Vec::with_capacity(alloc, count).map_err(|_| NoMemory)?;
    'rows: for row in 0..count {
        rows.push(Vec::new(alloc)).map_err(|_| NoMemory)?;
    }
    Ok(rows)
}

// Whether the row ends with the number.
fn ends_with(row: &[usize], n: usize) -> bool
    ensures { (p : ℕ → Bool) (b : Bool) → row.now ≡ marked p n b → result ≡ b }
{
    let len = row.len();
    len > 0 && row[len - 1] == n
}

// Puts the number at the end of a row of lesser numbers, where it doesn't stand there yet.
fn put_once(row: &mut Vec<usize>, n: usize) -> Result<(), NoMemory>
    ensures { OnOk result ((p : ℕ → Bool) (b : Bool) → row.old.items ≡ marked p n b → row.new.items ≡ marked p n true) }
{
    if !ends_with(row, n) {
        row.push(n).map_err(|_| NoMemory)?;
    }
    Ok(())
}

/// Marks a row with the number, where there is such a row.
pub(crate) fn mark(rows: &mut Vec<Vec<usize>>, row: usize, n: usize) -> Result<(), NoMemory>
    ensures len { length rows.new.items ≡ length rows.old.items }
    ensures marked { OnOk result ((p : ℕ → ℕ → Bool) (q : ℕ → Bool) → AreMarked rows.old.items p n q → AreMarked rows.new.items p n (λ w. row == w || q w)) }
{
    if row < rows.len() {
        put_once(&mut rows[row], n)?;
    }
    Ok(())
}

/// Marks these rows with the number.
pub(crate) fn mark_all(rows: &mut Vec<Vec<usize>>, list: &[usize], n: usize) -> Result<(), NoMemory>
    ensures len { length rows.new.items ≡ length rows.old.items }
    ensures marked { OnOk result ((p : ℕ → ℕ → Bool) (q : ℕ → Bool) → AreMarked rows.old.items p n q → AreMarked rows.new.items p n (λ w. list_any (λ k. k == w) list.now || q w)) }
{
    'list: for row in list {
        mark(rows, *row, n)?;
    }
    Ok(())
}

// Marks a row that isn't the chunk's own.
fn mark_other(rows: &mut Vec<Vec<usize>>, row: usize, own: usize, n: usize) -> Result<(), NoMemory>
    ensures len { length rows.new.items ≡ length rows.old.items }
    ensures marked { OnOk result ((p : ℕ → ℕ → Bool) (q : ℕ → Bool) → AreMarked rows.old.items p n q → AreMarked rows.new.items p n (λ w. (not (row == own) && row == w) || q w)) }
{
    if row != own {
        mark(rows, row, n)?;
    }
    Ok(())
}

/// Marks these rows, but the chunk's own.
pub(crate) fn mark_others(
    rows: &mut Vec<Vec<usize>>,
    list: &[usize],
    own: usize,
    n: usize,
) -> Result<(), NoMemory>
    ensures len { length rows.new.items ≡ length rows.old.items }
    ensures marked { OnOk result ((p : ℕ → ℕ → Bool) (q : ℕ → Bool) → AreMarked rows.old.items p n q → AreMarked rows.new.items p n (λ w. list_any (λ k. not (k == own) && k == w) list.now || q w)) }
{
    'list: for row in list {
        mark_other(rows, *row, own, n)?;
    }
    Ok(())
}

/// The rows the other way round: for each of so many numbers the rows that have it, rising.
pub(crate) fn transposed(
    alloc: Global,
    rows: &[Vec<usize>],
    count: usize,
) -> Result<Vec<Vec<usize>>, NoMemory>
    ensures len { IfOk result (λ v. length v.items ≡ count) }
    ensures rows { IfOk result (λ v. (p : ℕ → ℕ → Bool) → AreTaken rows.now p count → AreTaken v.items (λ n w. p w n) (length rows.now)) }
{
    let mut new = rows_of(alloc, count)?;
    'rows: for row in 0..rows.len() {
        mark_all(&mut new, &rows[row], row)?;
    }
    Ok(new)
}

/// The row at a place.
pub(crate) fn row_of(rows: &[Vec<usize>], row: usize) -> &[usize]
    requires { row < length rows.now }
    ensures { result.now ≡ row_at rows.now row }
{
    &rows[row]
}
