//! The judge of one place of a function.
ghost use Rattle.std.specs.Prelude.{◌≡◌, ◌<◌, length, slice_get, Some, Ok, Err, [], ◌^◌, ◌≤◌, ◌||◌, nat_lt, true, ℕ};
ghost use Rattle.std.specs.Prelude.{List, None, IfOk, OnOk};
ghost use Rattle.std.specs.Option.{option_copied};
ghost use Rattle.bds_value.specs.declared.value.Ty.{Ty as AnyTy};
ghost use Rattle.bds_verify.specs.Marked.{AreMarks};
ghost use Rattle.bds_verify.specs.Numbered.{AreDeclared, Knows, KnowsAny};
ghost use Rattle.bds_verify.specs.Verified.{label_at, target, goes_on, after};
ghost use Rattle.bds_verify.specs.Whole.{rises};
ghost use Rattle.bds_verify.specs.Pass.{is_tick, shape_of, differs, jump_fault, runs_off, judged, kept, judge, onward};
ghost use Rattle.bds_verify.specs.Pass.{Checks, ChecksOnly, IsRowFault, FirstFault, at_place};

use crate::labels::label;
use crate::marks::mark;
use crate::numbers::{Numbers, begin, change, is_declared, no_numbers};
use crate::same::same_types;
use bds_code::{EffectFault, Function, Instr, Labels, Shape, Unit};
use bds_value::{Boxed, Listed, Types, copy_types};
use std::alloc::Global;

/// What is wrong at a place.
#[derive(Debug, Drop)]
pub enum Kind {
    /// The operands of the instruction aren't there; those that are.
    Needs(Types),
    /// The operands that come to a label, and those that it declares.
    Differs { found: Types, declared: Types },
    /// A slot, global, function, method, file question or change that isn't there.
    Number(u32),
    /// A jump back to this place, where no tick is counted.
    NoTick(u32),
    /// A jump to a place that is no label.
    NoLabel,
    /// The code ends without an instruction that never goes on to the next.
    RunsOff,
    /// Sizes, types, labels or lines that no function or unit may have.
    Shape,
}

/// It is boxed, so that what a check answers is small.
#[derive(Debug, Drop)]
pub(crate) enum CheckFault {
    Bad(Boxed<Kind>),
    NoMemory,
}

#[inline(never)]
fn bad(alloc: Global, kind: Kind) -> CheckFault
    ensures { ChecksOnly (Some kind) (Err result) }
{
    match Boxed::of(alloc, kind) {
        Ok(kind) => CheckFault::Bad(kind),
        Err(_) => CheckFault::NoMemory,
    }
}

fn jumps_to(instr: &Instr) -> Option<u32>
    ensures { result ≡ target instr.now }
{
    match instr {
        Instr::Jump(to) | Instr::JumpUnless(to) => Some(*to),
        _ => None,
    }
}

pub(crate) fn falls(instr: &Instr) -> bool
    ensures { result ≡ goes_on instr.now }
{
    match instr {
        Instr::Jump(_) | Instr::Return | Instr::Stop | Instr::Exit => false,
        _ => true,
    }
}

fn both(alloc: Global, found: &Types, declared: &Shape) -> CheckFault
    ensures { ChecksOnly (Some (Kind.Differs found.now declared.now)) (Err result) }
{
    let Ok(found) = copy_types(alloc, found) else {
        return CheckFault::NoMemory;
    };
    let Ok(declared) = declared.types(alloc) else {
        return CheckFault::NoMemory;
    };
    bad(alloc, Kind::Differs { found, declared })
}

/// The list that comes is the one that is declared, where one is.
fn check_same(alloc: Global, declared: &Shape, came: &Types) -> Result<(), CheckFault>
    ensures { ChecksOnly (differs (Some declared.now) (Some came.now)) result }
{
    if same_types(came.as_slice(), declared) {
        Ok(())
    } else {
        Err(both(alloc, came, declared))
    }
}

/// The list at a place.
fn arrive(alloc: Global, declared: Option<&Shape>, come: Option<Types>) -> Result<Types, CheckFault>
    ensures { Checks (differs (option_copied declared.entry) come) (shape_of (option_copied declared.entry) come) result }
{
    match (declared, come) {
        (Some(declared), Some(came)) => {
            check_same(alloc, declared, &came)?;
            Ok(came)
        }
        (Some(declared), None) => match declared.types(alloc) {
            Ok(copied) => Ok(copied),
            Err(_) => Err(CheckFault::NoMemory),
        },
        (None, Some(came)) => Ok(came),
        (None, None) => Ok(Listed::new(alloc)),
    }
}

fn is_tick(instr: &Instr) -> bool
    ensures { result ≡ is_tick (Some instr.now) }
{
    matches!(instr, Instr::Tick)
}

/// Whether a jump leads on, or back to a tick.
fn may_jump(function: &Function, place: u32, to: u32) -> bool
    ensures { result ≡ (nat_lt place to || is_tick (slice_get function.now.code to)) }
{
    match function.code.as_slice().get(to as usize) {
        Some(instr) => place < to || is_tick(instr),
        None => place < to,
    }
}

fn check_declared(
    alloc: Global,
    numbers: &mut Numbers,
    place: u32,
    declared: &Shape,
    came: &Types,
) -> Result<(), CheckFault>
    requires { numbers.old.length ≤ length came.now }
    ensures fault { (labels : List (ℕ × List AnyTy)) → label_at labels place ≡ Some declared.now
        → Knows labels numbers.old came.now
        → ChecksOnly (differs (Some declared.now) (Some came.now)) result }
    ensures knows { OnOk result ((labels : List (ℕ × List AnyTy)) → label_at labels place ≡ Some declared.now
        → Knows labels numbers.old came.now → Knows labels numbers.new came.now) }
{
    let Ok(same) = is_declared(alloc, numbers, place, declared, came) else {
        return Err(CheckFault::NoMemory);
    };
    if same {
        Ok(())
    } else {
        Err(both(alloc, came, declared))
    }
}

fn check_target(
    alloc: Global,
    function: &Function,
    numbers: &mut Numbers,
    place: u32,
    to: u32,
    next: &Types,
) -> Result<(), CheckFault>
    requires rising { rises function.now.labels ≡ true }
    requires knows { Knows function.now.labels numbers.old next.now }
    ensures fault { ChecksOnly (jump_fault function.now (Some to) place next.now) result }
    ensures knows { OnOk result (Knows function.now.labels numbers.new next.now) }
{
    match label(function.labels.as_slice(), to) {
        Some(declared) => {
            if may_jump(function, place, to) {
                check_declared(alloc, numbers, to, declared, next)
            } else {
                Err(bad(alloc, Kind::NoTick(to)))
            }
        }
        None => Err(bad(alloc, Kind::NoLabel)),
    }
}

fn check_jump(
    alloc: Global,
    function: &Function,
    numbers: &mut Numbers,
    place: u32,
    to: Option<u32>,
    next: &Types,
) -> Result<(), CheckFault>
    requires rising { rises function.now.labels ≡ true }
    requires knows { Knows function.now.labels numbers.old next.now }
    ensures fault { ChecksOnly (jump_fault function.now to place next.now) result }
    ensures knows { OnOk result (Knows function.now.labels numbers.new next.now) }
{
    match to {
        Some(to) => check_target(alloc, function, numbers, place, to, next),
        None => Ok(()),
    }
}

fn check_next(alloc: Global, function: &Function, place: u32, falls: bool) -> Result<(), CheckFault>
    requires rising { rises function.now.labels ≡ true }
    requires few { place < 2 ^ 24 }
    ensures { ChecksOnly (runs_off function.now falls place) result }
{
    let length = function.code.as_slice().len();
    let next = place as usize + 1;
    let fine = if falls {
        next < length
    } else {
        label(function.labels.as_slice(), place + 1).is_some() || next == length
    };
    if fine {
        Ok(())
    } else {
        Err(bad(alloc, Kind::RunsOff))
    }
}

#[inline(never)]
fn row_fault(alloc: Global, fault: EffectFault, shape: Types) -> CheckFault
    ensures { IsRowFault fault shape result }
{
    match fault {
        EffectFault::Number(n) => bad(alloc, Kind::Number(n)),
        EffectFault::Needs => bad(alloc, Kind::Needs(shape)),
        EffectFault::NoMemory => CheckFault::NoMemory,
    }
}

/// What is behind an instruction: its jump's target, and the next place.
fn check_behind(
    alloc: Global,
    function: &Function,
    numbers: &mut Numbers,
    place: u32,
    instr: &Instr,
    next: Types,
) -> Result<Option<Types>, CheckFault>
    requires rising { rises function.now.labels ≡ true }
    requires few { place < 2 ^ 24 }
    requires knows { Knows function.now.labels numbers.old next }
    ensures check { Checks (judged function.now instr.now place [] (Ok next))
        (kept function.now (goes_on instr.now) (Ok next)) result }
    ensures knows { IfOk result (λ come. KnowsAny function.now.labels numbers.new come) }
{
    check_jump(alloc, function, numbers, place, jumps_to(instr), &next)?;
    let falls = falls(instr);
    check_next(alloc, function, place, falls)?;
    if falls { Ok(Some(next)) } else { Ok(None) }
}

fn check_row(
    alloc: Global,
    unit: &Unit,
    function: &Function,
    numbers: &mut Numbers,
    place: u32,
    instr: &Instr,
    shape: Types,
) -> Result<Option<Types>, CheckFault>
    requires rising { rises function.now.labels ≡ true }
    requires few { place < 2 ^ 24 }
    requires knows { Knows function.now.labels numbers.old shape }
    ensures check { Checks (judged function.now instr.now place shape (after unit.now function.now instr.now shape))
        (kept function.now (goes_on instr.now) (after unit.now function.now instr.now shape)) result }
    ensures knows { IfOk result (λ come. KnowsAny function.now.labels numbers.new come) }
{
    let mut next = shape;
    match change(alloc, unit, function, numbers, instr, &mut next) {
        Ok(()) => check_behind(alloc, function, numbers, place, instr, next),
        Err(fault) => Err(row_fault(alloc, fault, next)),
    }
}

/// The list at a place to which one comes: that list.
fn arrive_with(alloc: Global, declared: Option<&Shape>, came: Types) -> Result<Types, CheckFault>
    ensures check { Checks (differs (option_copied declared.entry) (Some came))
        (shape_of (option_copied declared.entry) (Some came)) result }
    ensures same { IfOk result (λ shape. shape ≡ came) }
{
    arrive(alloc, declared, Some(came))
}

/// The list at a place to which none comes, and what is known of it.
fn arrive_without(
    alloc: Global,
    numbers: &mut Numbers,
    declared: Option<&Shape>,
    place: u32,
) -> Result<Types, CheckFault>
    ensures check { Checks (differs (option_copied declared.entry) None) (shape_of (option_copied declared.entry) None)
        result }
    ensures knows { IfOk result (λ shape. (labels : List (ℕ × List AnyTy))
        → option_copied declared.entry ≡ label_at labels place
        → AreDeclared numbers.old.lists.nodes labels numbers.old.labels → Knows labels numbers.new shape) }
{
    begin(numbers, declared, place);
    arrive(alloc, declared, None)
}

/// The list at a place, and what is known of it.
fn arrive_known(
    alloc: Global,
    numbers: &mut Numbers,
    declared: Option<&Shape>,
    place: u32,
    come: Option<Types>,
) -> Result<Types, CheckFault>
    ensures check { Checks (differs (option_copied declared.entry) come) (shape_of (option_copied declared.entry) come)
        result }
    ensures knows { IfOk result (λ shape. (labels : List (ℕ × List AnyTy))
        → option_copied declared.entry ≡ label_at labels place
        → KnowsAny labels numbers.old come → Knows labels numbers.new shape) }
{
    match come {
        Some(came) => {
            let shape = arrive_with(alloc, declared, came)?;
            Ok(shape)
        }
        None => arrive_without(alloc, numbers, declared, place),
    }
}

/// Judges one place, and gives the list that comes to the next.
fn check_place(
    alloc: Global,
    unit: &Unit,
    function: &Function,
    numbers: &mut Numbers,
    place: u32,
    come: Option<Types>,
) -> Result<Option<Types>, CheckFault>
    requires rising { rises function.now.labels ≡ true }
    requires few { place < 2 ^ 24 }
    requires knows { KnowsAny function.now.labels numbers.old come }
    ensures check { Checks (judge unit.now function.now place come) (onward unit.now function.now place come) result }
    ensures knows { IfOk result (λ next. KnowsAny function.now.labels numbers.new next) }
{
    let declared = label(function.labels.as_slice(), place);
    let shape = arrive_known(alloc, numbers, declared, place, come)?;
    match function.code.as_slice().get(place as usize) {
        Some(instr) => check_row(alloc, unit, function, numbers, place, instr, shape),
        None => Ok(None),
    }
}

#[derive(Debug, Drop)]
pub(crate) enum CodeFault {
    Bad(u32, Kind),
    NoMemory,
}

fn at_place(place: u32, fault: CheckFault) -> CodeFault
    ensures { result ≡ at_place place fault }
{
    match fault {
        CheckFault::Bad(kind) => CodeFault::Bad(place, kind.into_inner()),
        CheckFault::NoMemory => CodeFault::NoMemory,
    }
}

/// Judges the places of a function, one after the other, and marks some of them.
pub(crate) fn check_code(
    alloc: Global,
    unit: &Unit,
    function: &Function,
    marks: &mut Labels,
) -> Result<(), CodeFault>
    requires rising { rises function.now.labels ≡ true }
    requires few { length function.now.code ≤ 2 ^ 24 }
    requires marks { AreMarks unit.now function.now marks.old }
    ensures fault { FirstFault unit.now function.now result }
    ensures marks { AreMarks unit.now function.now marks.new }
{
    let mut come = Some(Listed::new(alloc));
    let mut numbers = no_numbers(alloc);
    let mut reach = 0;
    for place in 0..function.code.as_slice().len() as u32 {
        if mark(
            alloc,
            function.labels.as_slice(),
            marks,
            &mut reach,
            place,
            &come,
        )
        .is_err()
        {
            return Err(CodeFault::NoMemory);
        }
        match check_place(alloc, unit, function, &mut numbers, place, come) {
            Ok(next) => come = next,
            Err(fault) => return Err(at_place(place, fault)),
        }
    }
    Ok(())
}
