//! Blocks of cells: those of a decision variable, and those of its parts.

ghost use Rattle.std.specs.Prelude.{◌≡◌, ◌+◌, ◌*◌, ◌^◌, ◌<◌, ◌≤◌, ◌+ℤ◌, ◌<ℤ◌, ◌⊎◌, pos, length, true, false, None, IfOk, IfSome, OnErr, option_map};
ghost use Rattle.ep_base.specs.Runs.{numbers_in};
ghost use Rattle.std.specs.Ordering.{int_eq};
ghost use Rattle.ep_tree.specs.Solutions.{cell_count};
ghost use Rattle.ep_unroll.specs.Blocks.{block_under, cell_of};

use ep_base::{Memory, Run, Runs};
use ep_numbers::{run_length, set_length};

/// Cells that stand one after another: the first one, and the index domains over which they go.
#[derive(Clone, Copy)]
pub struct Block<'a> {
    pub first: u64,
    pub domains: &'a [Runs],
}

/// So many cells for each of some things, behind others, as far as words tell their number.
fn moved(cell: u64, each: u64, count: u128) -> Option<u64>
    ensures some { IfSome result (λ moved. moved ≡ cell + count * each) }
    ensures none { result ≡ None → 2 ^ 64 ≤ cell + count * each }
{
    let over = count.checked_mul(u128::from(each))?;
    let all = over.checked_add(u128::from(cell))?;
    match u64::try_from(all) {
        Ok(moved) => Some(moved),
        Err(_) => None,
    }
}

/// The same. More cells than words tell have no room in memory.
fn cell_behind(cell: u64, each: u64, count: u128) -> Result<u64, Memory>
    ensures value { IfOk result (λ moved. moved ≡ cell + count * each) }
    ensures refused { OnErr result (2 ^ 64 ≤ cell + count * each) }
{
    match moved(cell, each, count) {
        Some(behind) => Ok(behind),
        None => Err(Memory),
    }
}

/// Whether one of some index domains has no number. Linear in their runs.
fn has_empty(domains: &[Runs]) -> bool
    ensures empty { result ≡ true → cell_count domains.now ≡ 0 }
    ensures filled { result ≡ false → 1 ≤ cell_count domains.now }
{
    for domain in domains {
        if set_length(domain) == 0 {
            return true;
        }
    }
    false
}

/// How many cells go over index domains. Where one of these is empty there are none, however long the others are. Linear in
/// their runs.
pub fn cells_over(domains: &[Runs]) -> Result<u64, Memory>
    ensures { IfOk result (λ count. count ≡ cell_count domains.now) }
{
    if has_empty(domains) {
        return Ok(0);
    }
    let mut count: u64 = 1;
    for domain in domains {
        let more = cell_behind(0, count, set_length(domain))?;
        count = more;
    }
    Ok(count)
}

/// Whether an index is this one.
pub fn is_index(index: i64, own: i64) -> bool
    ensures { result ≡ int_eq index own }
{
    index == own
}

/// How many numbers of a run stand before an index, where the run has it.
fn place_in(run: Run, index: i64) -> Option<u128>
    ensures some { IfSome result (λ place. (index ≡ run.lo +ℤ pos place) × (place < length (numbers_in run))) }
    ensures none { result ≡ None → (index <ℤ run.lo) ⊎ (run.hi <ℤ index) }
{
    if index < run.lo || run.hi < index {
        return None;
    }
    Some((i128::from(index) - i128::from(run.lo)) as u128)
}

/// The first cell of the part with an index, where there is one. Linear in the runs of the index domain.
fn part_cell(first: u64, each: u64, own: &Runs, index: i64) -> Result<Option<u64>, Memory>
    ensures { IfOk result (λ cell. cell ≡ cell_of first each own.now index) }
{
    let mut cell = first;
    for run in own.runs() {
        if let Some(place) = place_in(*run, index) {
            let found = cell_behind(cell, each, place)?;
            return Ok(Some(found));
        }
        let more = cell_behind(cell, each, run_length(*run))?;
        cell = more;
    }
    Ok(None)
}

/// The cells of the part with an index, where there is one.
pub fn block_at<'a>(block: Block<'a>, index: i64) -> Result<Option<Block<'a>>, Memory>
    ensures { IfOk result (λ part. option_map (λ b. (b.first, b.domains.now)) part ≡ block_under block.entry.first block.entry.domains.now index) }
{
    match block.domains.split_first() {
        Some((own, inner)) => {
            let each = cells_over(inner)?;
            let cell = part_cell(block.first, each, own, index)?;
            match cell {
                Some(first) => Ok(Some(Block {
                    first,
                    domains: inner,
                })),
                None => Ok(None),
            }
        }
        None => Ok(None),
    }
}
