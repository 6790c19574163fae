//! What a pass brings to a place of a function without faults, where it judges nothing.
ghost use Rattle.std.specs.Prelude.{◌≡◌, ◌≤◌, ◌<◌, ◌^◌, length, true, IfOk};
ghost use Rattle.std.specs.Option.{option_copied};
ghost use Rattle.bds_verify.specs.Marked.{AreMarks, IsBeginning};
ghost use Rattle.bds_verify.specs.Verified.{goes_on, after};
ghost use Rattle.bds_verify.specs.Whole.{rises};
ghost use Rattle.bds_verify.specs.Pass.{shape_of, kept, onward, shape_at};

use crate::labels::label;
use crate::marks::beginning;
use crate::places::falls;
use bds_code::{EffectFault, Function, Instr, Shape, Unit, effect_in};
use bds_value::{Listed, NoMemory, Types};
use std::alloc::Global;

/// The list at a place, where what comes isn't compared with what is declared.
fn arrived(alloc: Global, declared: Option<&Shape>, come: Option<Types>) -> Result<Types, NoMemory>
    ensures { IfOk result (λ shape. shape ≡ shape_of (option_copied declared.entry) come) }
{
    match (declared, come) {
        (Some(declared), _) => declared.types(alloc),
        (None, Some(came)) => Ok(came),
        (None, None) => Ok(Listed::new(alloc)),
    }
}

/// The list that an instruction brings to the next place.
fn behind(
    alloc: Global,
    unit: &Unit,
    function: &Function,
    instr: &Instr,
    shape: Types,
) -> Result<Option<Types>, NoMemory>
    ensures { IfOk result (λ next. next ≡ kept function.now (goes_on instr.now)
        (after unit.now function.now instr.now shape)) }
{
    let mut next = shape;
    match effect_in(alloc, unit, function, instr, &mut next) {
        Ok(()) => {
            if falls(instr) {
                Ok(Some(next))
            } else {
                Ok(None)
            }
        }
        Err(EffectFault::NoMemory) => Err(NoMemory),
        Err(_) => Ok(None),
    }
}

/// The list that a place brings to the next one.
fn pass_by(
    alloc: Global,
    unit: &Unit,
    function: &Function,
    place: u32,
    come: Option<Types>,
) -> Result<Option<Types>, NoMemory>
    requires { rises function.now.labels ≡ true }
    ensures { IfOk result (λ next. next ≡ onward unit.now function.now place come) }
{
    let declared = label(function.labels.as_slice(), place);
    let shape = arrived(alloc, declared, come)?;
    match function.code.as_slice().get(place as usize) {
        Some(instr) => behind(alloc, unit, function, instr, shape),
        None => Ok(None),
    }
}

/// What a pass brings to a place: the list that comes there, or none at a label.
fn came_to(
    alloc: Global,
    unit: &Unit,
    function: &Function,
    marks: &[(u32, Shape)],
    place: u32,
) -> Result<Option<Types>, NoMemory>
    requires marks { AreMarks unit.now function.now marks.now }
    requires rising { rises function.now.labels ≡ true }
    ensures { IfOk result (λ come. IsBeginning unit.now function.now place come) }
{
    let (start, first) = beginning(alloc, function.labels.as_slice(), marks, place)?;
    let mut come = first;
    for at in start..place {
        come = pass_by(alloc, unit, function, at, come)?;
    }
    Ok(come)
}

/// The list at a place of a function without faults.
pub(crate) fn shape_in(
    alloc: Global,
    unit: &Unit,
    function: &Function,
    marks: &[(u32, Shape)],
    place: u32,
) -> Result<Types, NoMemory>
    requires marks { AreMarks unit.now function.now marks.now }
    requires rising { rises function.now.labels ≡ true }
    ensures { IfOk result (λ shape. shape ≡ shape_at unit.now function.now place) }
{
    let come = came_to(alloc, unit, function, marks, place)?;
    arrived(alloc, label(function.labels.as_slice(), place), come)
}
