//! Sets of numbers, as marks.
ghost use Rattle.std.specs.Prelude.{◌≡◌, IfOk, replicate, false, not, ◌&&◌};
ghost use Rattle.std.specs.List.{list_any};
ghost use Rattle.bds_goal.specs.Marks.{is_marked, edges_of, may_go};

use bds_value::{NoMemory, Numbers};
use std::alloc::Global;

/// So many marks, of which none is set.
pub(crate) fn blank(alloc: Global, count: usize) -> Result<Vec<bool>, NoMemory>
    ensures { IfOk result (λ marks. marks.items ≡ replicate count false) }
{
    Ok(vec![in alloc; false; count]?)
}

/// It is marked.
pub(crate) fn is_marked(marks: &[bool], i: u32) -> bool
    ensures { result ≡ is_marked marks.now i }
{
    match marks.get(i as usize) {
        Some(mark) => *mark,
        None => false,
    }
}

/// One of these is marked.
pub(crate) fn any_marked(marks: &[bool], numbers: &[u32]) -> bool
    ensures { result ≡ list_any (is_marked marks.now) numbers.now }
{
    for i in numbers {
        if is_marked(marks, *i) {
            return true;
        }
    }
    false
}

/// The numbers that one leads to.
pub(crate) fn edges_of(edges: &[Numbers], i: u32) -> &[u32]
    ensures { result.now ≡ edges_of edges.now i }
{
    match edges.get(i as usize) {
        Some(numbers) => numbers.as_slice(),
        None => &[],
    }
}

/// It is one of those that are left, and leads to none of them.
pub(crate) fn may_go(edges: &[Numbers], left: &[bool], n: u32) -> bool
    ensures { result ≡ may_go edges.now left.now n }
{
    is_marked(left, n) && !any_marked(left, edges_of(edges, n))
}
