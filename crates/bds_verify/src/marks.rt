//! Where a pass over the code of a function may begin: at labels, and at marks, which say what comes to a place.
ghost use Rattle.std.specs.Prelude.{◌≡◌, ◌≤◌, ⊤, ℕ, Some, IfSome, IfOk, length, slice_get, true};
ghost use Rattle.std.specs.Option.{option_copied};
ghost use Rattle.bds_code.specs.declared.unit.Function.{Function};
ghost use Rattle.bds_code.specs.declared.unit.Unit.{Unit as CodeUnit};
ghost use Rattle.bds_verify.specs.Marked.{AreMarks, IsBeginning};
ghost use Rattle.bds_verify.specs.Pass.{comes};
ghost use Rattle.bds_verify.specs.Whole.{rises};

use crate::labels::label;
use bds_code::{Labels, Shape};
use bds_value::{Listed, NoMemory, Types};
use std::alloc::Global;

/// How many places a pass may go through to one at which no operand is.
const STRIDE: usize = 16;

/// The marks of each function.
pub(crate) type AllMarks = Listed<Labels>;

/// Whether a pass to a place takes more than twice its list and the stride. So the marks of a function
/// hold no more than its code has instructions and its labels types.
fn is_due(reach: usize, length: usize) -> bool
    ensures { ⊤ }
{
    reach >= length.saturating_add(length).saturating_add(STRIDE)
}

/// Marks a place without a label, where a mark is due. The reach is what a pass to the place takes: the
/// types of the label or mark at which it begins, and the places from there on.
pub(crate) fn mark(
    alloc: Global,
    labels: &[(u32, Shape)],
    marks: &mut Labels,
    reach: &mut usize,
    place: u32,
    come: &Option<Types>,
) -> Result<(), NoMemory>
    requires { rises labels.now ≡ true }
    ensures { (u : CodeUnit) (f : Function) → AreMarks u f marks.old → come.now ≡ comes u f place → AreMarks u f marks.new }
{
    *reach = reach.saturating_add(1);
    if let Some(declared) = label(labels, place) {
        *reach = declared.len();
        return Ok(());
    }
    let Some(shape) = come else {
        return Ok(());
    };
    if is_due(*reach, shape.len()) {
        let shape = Shape::of(alloc, shape.as_slice())?;
        *reach = shape.len();
        marks.push((place, shape))
    } else {
        Ok(())
    }
}

/// How many marks or labels a search by halves finds up to a place.
fn count_until(marks: &[(u32, Shape)], place: u32) -> usize
    ensures { result ≤ length marks.now }
{
    let mut low = 0;
    let mut high = marks.len();
    while low < high {
        let half = low + (high - low) / 2;
        if marks[half].0 <= place {
            low = half + 1;
        } else {
            high = half;
        }
    }
    low
}

/// The last mark or label up to a place.
fn nearest(marks: &[(u32, Shape)], place: u32) -> Option<&(u32, Shape)>
    ensures before { IfSome (option_copied result) (λ m. m.0 ≤ place) }
    ensures there { IfSome (option_copied result) (λ m. (i : ℕ) × (slice_get marks.now i ≡ Some m)) }
{
    let count = count_until(marks, place);
    if count == 0 {
        return None;
    }
    let last = &marks[count - 1];
    if last.0 <= place { Some(last) } else { None }
}

/// Whether there is no mark behind a place.
fn is_up_to(mark: Option<&(u32, Shape)>, place: u32) -> bool
    ensures { ⊤ }
{
    match mark {
        Some(mark) => mark.0 <= place,
        None => true,
    }
}

/// Where a pass to a place begins, with the list that comes there: at the last label or mark up to the
/// place, whichever is nearer, or else at the first place. A label declares its list, so none comes.
pub(crate) fn beginning(
    alloc: Global,
    labels: &[(u32, Shape)],
    marks: &[(u32, Shape)],
    place: u32,
) -> Result<(u32, Option<Types>), NoMemory>
    requires rising { rises labels.now ≡ true }
    ensures before { IfOk result (λ b. b.0 ≤ place) }
    ensures begins { IfOk result (λ b. (u : CodeUnit) (f : Function) → f.labels ≡ labels.now
        → AreMarks u f marks.now → IsBeginning u f b.0 b.1) }
{
    let mark = nearest(marks, place);
    if let Some(label) = nearest(labels, place) {
        if is_up_to(mark, label.0) {
            return Ok((label.0, None));
        }
    }
    match mark {
        Some(mark) => Ok((mark.0, Some(mark.1.types(alloc)?))),
        None => Ok((0, Some(Listed::new(alloc)))),
    }
}
