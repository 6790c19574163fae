//! The way to a part of a variable.
ghost use Rattle.std.specs.Prelude.{◌≡◌, IsSome, Some, IfOk};
ghost use Rattle.bds_code_frames.specs.Stack.{stack};
ghost use Rattle.bds_machine_values.specs.Changes.{path_taken, places_of};
ghost use Rattle.bds_machine_values.specs.Updates.{step_of};

use bds_code_frames::Frames;
use bds_value::{Listed, NoMemory, Path, Place, Value};
use std::alloc::Global;

/// The way to a part of a variable.
#[derive(Drop)]
pub(crate) enum Route {
    /// One step, which takes no list.
    One(Place),
    /// All other ways.
    Path(Path),
}

/// A step of a path: false for an index, true for a key.
fn step_of(kind: bool, operand: Value) -> Place
    requires { IsSome (step_of kind operand) }
    ensures { step_of kind operand ≡ Some result }
{
    match (kind, operand) {
        (false, Value::Int(index)) => Place::Index(index),
        (true, Value::Text(key)) => Place::Key(key),
        _ => unreachable!(),
    }
}

/// Takes the steps of a path, the last one first. Without steps it takes no memory.
fn take_path(alloc: Global, kinds: &[bool], frames: &mut Frames) -> Result<Path, NoMemory>
    requires { IsSome (path_taken kinds.now (stack frames.old)) }
    ensures { IfOk result (λ path. path_taken kinds.now (stack frames.old) ≡ Some (path, stack frames.new)) }
{
    let mut steps = Vec::with_capacity(alloc, kinds.len())?;
    for i in (0..kinds.len()).rev() {
        match steps.push(step_of(kinds[i], frames.take_operand())) {
            Ok(()) => {}
            Err(_) => unreachable!(),
        }
    }
    steps.reverse();
    Ok(Listed::from_vec(steps))
}

/// Takes the way to a part, whose steps are the last operands.
pub(crate) fn take_route(
    alloc: Global,
    kinds: &[bool],
    frames: &mut Frames,
) -> Result<Route, NoMemory>
    requires { IsSome (path_taken kinds.now (stack frames.old)) }
    ensures { IfOk result (λ route. path_taken kinds.now (stack frames.old) ≡ Some (places_of route, stack frames.new)) }
{
    match kinds {
        [kind] => Ok(Route::One(step_of(*kind, frames.take_operand()))),
        _ => Ok(Route::Path(take_path(alloc, kinds, frames)?)),
    }
}
