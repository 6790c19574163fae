//! What a pass knows of lists of types by number, so that a jump compares two numbers in place of two long lists.
ghost use Rattle.std.specs.Prelude.{◌≡◌, ◌≤◌, ℕ, List, Some, None, IfOk, OnOk, length, reverse};
ghost use Rattle.std.specs.Option.{option_copied};
ghost use Rattle.bds_value.specs.declared.value.Ty.{Ty as AnyTy};
ghost use Rattle.bds_code.specs.Effects.{ChangesShape};
ghost use Rattle.bds_code.specs.Row.{row};
ghost use Rattle.bds_verify.specs.Numbered.{IsListOf, IsNoted, noted_at, AreDeclared, Knows};
ghost use Rattle.bds_verify.specs.Pass.{same_tys, shape_of};
ghost use Rattle.bds_verify.specs.Verified.{label_at};

use crate::lists::{TypeLists, no_lists, with_all, without_last};
use crate::same::same_types;
use bds_code::{EffectFault, Function, Instr, Shape, Unit, effect_in};
use bds_value::{Listed, NoMemory, Types};
use std::alloc::Global;

/// Lists of no more types are compared by them.
const SHORT: usize = 16;

/// How many nodes there may be beside those that the list takes.
const MOST_NODES: usize = 1_048_576;

/// What a pass over the code of a function knows.
#[derive(Drop)]
pub(crate) struct Numbers {
    pub lists: TypeLists,
    /// By place the number of the list that a label declares there, or 0 where it isn't known.
    pub labels: Listed<u32>,
    /// The number of so many of the first types of the list that comes.
    pub number: u32,
    pub length: usize,
}

/// Nothing is known of the lists of labels, nor of any that comes.
pub(crate) fn no_numbers(alloc: Global) -> Numbers
    ensures none { result.length ≡ 0 }
    ensures knows { (labels : List (ℕ × List AnyTy)) (shape : List AnyTy) → Knows labels result shape }
{
    Numbers {
        lists: no_lists(alloc),
        labels: Listed::new(alloc),
        number: 0,
        length: 0,
    }
}

/// What is noted at a place.
#[tactic(auto, using(crate::proofs::NoteLaws::read))]
fn noted_at(labels: &[u32], place: u32) -> u32
    ensures { result ≡ noted_at labels.now place }
{
    labels.get(place as usize).copied().unwrap_or(0)
}

/// Notes the number of the list of a label.
#[tactic(auto, using(crate::proofs::NoteLaws::zero_behind, crate::proofs::NoteLaws::noted))]
fn note(labels: &mut Listed<u32>, place: u32, number: u32) -> Result<(), NoMemory>
    ensures { OnOk result (IsNoted labels.old labels.new place number) }
{
    let place = place as usize;
    while labels.len() <= place {
        labels.push(0)?;
    }
    labels.set(place, number);
    Ok(())
}

/// A pass goes on at a place to which no list comes.
pub(crate) fn begin(numbers: &mut Numbers, declared: Option<&Shape>, place: u32)
    ensures { (labels : List (ℕ × List AnyTy)) → option_copied declared.entry ≡ label_at labels place
        → AreDeclared numbers.old.lists.nodes labels numbers.old.labels
        → Knows labels numbers.new (shape_of (option_copied declared.entry) None) }
{
    numbers.number = 0;
    numbers.length = 0;
    if let Some(declared) = declared {
        let number = noted_at(numbers.labels.as_slice(), place);
        if number > 0 {
            numbers.number = number;
            numbers.length = declared.len();
        }
    }
}

/// The list is another behind so many of the first types.
fn cut(numbers: &mut Numbers, length: usize)
    ensures kept { (labels : List (ℕ × List AnyTy)) (shape : List AnyTy) → Knows labels numbers.old shape
        → Knows labels numbers.new shape }
    ensures short { numbers.new.length ≤ length }
{
    while numbers.length > length {
        numbers.number = without_last(numbers.lists.nodes.as_slice(), numbers.number);
        numbers.length -= 1;
    }
}

/// Changes the types of the operands as the row of an instruction says, where it stands in a function.
pub(crate) fn change(
    alloc: Global,
    unit: &Unit,
    function: &Function,
    numbers: &mut Numbers,
    instr: &Instr,
    shape: &mut Types,
) -> Result<(), EffectFault>
    ensures change { ChangesShape (row unit.now function.now instr.now (reverse shape.old)) shape.old shape.new result }
    ensures knows { OnOk result ((labels : List (ℕ × List AnyTy)) → Knows labels numbers.old shape.old
        → Knows labels numbers.new shape.new) }
{
    match effect_in(alloc, unit, function, instr, shape) {
        Ok(()) => {
            cut(numbers, shape.len().saturating_sub(1));
            Ok(())
        }
        Err(fault) => Err(fault),
    }
}

/// All is forgotten where there are so many nodes that the list could be given its number anew for less than they took.
fn make_room(alloc: Global, numbers: &mut Numbers, length: usize)
    ensures short { numbers.new.length ≤ numbers.old.length }
    ensures kept { (labels : List (ℕ × List AnyTy)) (shape : List AnyTy) → Knows labels numbers.old shape
        → Knows labels numbers.new shape }
{
    if numbers.lists.nodes.len() > MOST_NODES.saturating_add(length) {
        *numbers = no_numbers(alloc);
    }
}

/// The number of the list that comes.
fn number_of(alloc: Global, numbers: &mut Numbers, came: &Types) -> Result<u32, NoMemory>
    requires { numbers.old.length ≤ length came.now }
    ensures { IfOk result (λ n. (labels : List (ℕ × List AnyTy)) → Knows labels numbers.old came.now
        → Knows labels numbers.new came.now × IsListOf numbers.new.lists.nodes n (reverse came.now)) }
{
    make_room(alloc, numbers, came.len());
    let known = numbers.length;
    let number = with_all(
        alloc,
        &mut numbers.lists,
        numbers.number,
        came.as_slice().split_at(known).1,
    )?;
    numbers.number = number;
    numbers.length = came.len();
    Ok(number)
}

/// Whether the list that comes is the one that a label declares. A long list is compared once with that of a label, and
/// by its number from then on.
pub(crate) fn is_declared(
    alloc: Global,
    numbers: &mut Numbers,
    place: u32,
    declared: &Shape,
    came: &Types,
) -> Result<bool, NoMemory>
    requires { numbers.old.length ≤ length came.now }
    ensures { IfOk result (λ same. (labels : List (ℕ × List AnyTy)) → label_at labels place ≡ Some declared.now
        → Knows labels numbers.old came.now
        → (same ≡ same_tys came.now declared.now) × Knows labels numbers.new came.now) }
{
    if came.len() <= SHORT {
        return Ok(same_types(came.as_slice(), declared));
    }
    is_long_declared(alloc, numbers, place, declared, came)
}

fn is_long_declared(
    alloc: Global,
    numbers: &mut Numbers,
    place: u32,
    declared: &Shape,
    came: &Types,
) -> Result<bool, NoMemory>
    requires { numbers.old.length ≤ length came.now }
    ensures { IfOk result (λ same. (labels : List (ℕ × List AnyTy)) → label_at labels place ≡ Some declared.now
        → Knows labels numbers.old came.now
        → (same ≡ same_tys came.now declared.now) × Knows labels numbers.new came.now) }
{
    let number = number_of(alloc, numbers, came)?;
    if number > 0 && noted_at(numbers.labels.as_slice(), place) == number {
        return Ok(true);
    }
    let same = same_types(came.as_slice(), declared);
    if same {
        note(&mut numbers.labels, place, number)?;
    }
    Ok(same)
}
