//! Of those that each number leads to, how many are left.
ghost use Rattle.std.specs.Prelude.{◌≡◌, ◌&&◌, IfOk, get_or, nat_eq};
ghost use Rattle.bds_goal.specs.Counts.{AreCounts, count_in, goes, lowered};
ghost use Rattle.bds_goal.specs.Marks.{is_marked};

use crate::marks::is_marked;
use bds_value::{NoMemory, Numbers};
use std::alloc::Global;

/// How many of these are marked.
fn count_in(marks: &[bool], numbers: &[u32]) -> usize
    ensures { result ≡ count_in marks.now numbers.now }
{
    let mut count = 0;
    for n in numbers {
        if is_marked(marks, *n) {
            count += 1;
        }
    }
    count
}

/// For each number how many of those that it leads to are left.
pub(crate) fn counts_of(
    alloc: Global,
    edges: &[Numbers],
    left: &[bool],
) -> Result<Vec<usize>, NoMemory>
    ensures { IfOk result (λ counts. AreCounts edges.now left.now counts.items) }
{
    let mut counts = Vec::new(alloc);
    for numbers in edges {
        counts.push(count_in(left, numbers.as_slice()))?;
    }
    Ok(counts)
}

/// The count of a number.
fn count_at(counts: &[usize], n: u32) -> usize
    ensures { result ≡ get_or counts.now n 0 }
{
    match counts.get(n as usize) {
        Some(count) => *count,
        None => 0,
    }
}

/// It is left, and leads to none that is.
pub(crate) fn goes(left: &[bool], counts: &[usize], n: u32) -> bool
    ensures { result ≡ goes left.now counts.now n }
{
    is_marked(left, n) && count_at(counts, n) == 0
}

/// Takes one from the count of each of these.
pub(crate) fn lower(counts: &mut Vec<usize>, numbers: &[u32])
    ensures { counts.new.items ≡ lowered numbers.now counts.old.items }
{
    for n in numbers {
        if (*n as usize) < counts.len() {
            counts[*n as usize] = counts[*n as usize].saturating_sub(1);
        }
    }
}
