//! Verified units, and the types of operands at a place.
ghost use Rattle.std.specs.Prelude.{◌≡◌, ◌<◌, ◌≤◌, ◌^◌, ℕ, List, length, slice_get, Some, IfOk, true};
ghost use Rattle.bds_value.specs.declared.value.Ty.{Ty};
ghost use Rattle.bds_code.specs.declared.unit.Function.{Function};
ghost use Rattle.bds_code.specs.declared.unit.Unit.{Unit as CodeUnit};
ghost use Rattle.bds_verify.specs.Marked.{AreMarks, AreAllMarks};
ghost use Rattle.bds_verify.specs.Verified.{AreShapes, VerifiedUnit};

use crate::marks::AllMarks;
use crate::shapes::shape_in;
use bds_code::{Shape, Unit};
use bds_value::{Listed, NoMemory, Types};
use std::alloc::Global;
use std::marker::Model;

/// A verified unit.
#[derive(Drop)]
pub struct Verified {
    unit: Unit,
    /// Where passes over the code of its functions may begin.
    marks: AllMarks,
}

impl Model for Verified {
    ghost use Rattle.bds_code.specs.declared.unit.Unit.{Unit as CodeUnit};
    ghost use Rattle.bds_verify.specs.Verified.{VerifiedUnit};
    ghost use Rattle.bds_code.specs.contracts.unit.Unit as code_unit;
    ghost use Rattle.bds_verify.specs.Marked.{AreAllMarks};

    ghost Value = { CodeUnit };

    ghost coded = { code_unit.the_row.coded };

    ghost view = { λ v. v.unit };

    ghost invariant = { λ v. VerifiedUnit v.unit × AreAllMarks v.unit v.marks };
}

impl Verified {
    pub(crate) fn of(unit: Unit, marks: AllMarks) -> Verified
        requires verified { VerifiedUnit unit }
        requires marks { AreAllMarks unit marks }
        ensures { result ≡ unit }
    {
        Verified { unit, marks }
    }

    /// A unit of which it is proved that it is verified. No pass is made over it, so it has no marks.
    #[tactic(auto, using(crate::proofs::MarkLaws::no_marks))]
    pub fn proved(alloc: Global, unit: Unit) -> Verified
        requires { VerifiedUnit unit }
        ensures { result ≡ unit }
    {
        Verified::of(unit, Listed::new(alloc))
    }

    /// The unit.
    pub fn unit(&self) -> &Unit
        ensures same { result.now ≡ self.now }
        ensures verified { VerifiedUnit self.now }
    {
        &self.unit
    }

    /// The types of the operands at a place of a function.
    pub fn shape_at(&self, alloc: Global, function: u32, place: u32) -> Result<Types, NoMemory>
        requires function { function < length self.now.functions }
        requires place { (f : Function) → slice_get self.now.functions function ≡ Some f → place < length f.code }
        ensures { IfOk result (λ shape. (f : Function) → slice_get self.now.functions function ≡ Some f
            → (shapes : ℕ → List Ty) → AreShapes self.now f shapes → shape ≡ shapes place) }
    {
        shape_of(alloc, &self.unit, &self.marks, function, place)
    }
}

/// The marks of a function.
fn marks_of(marks: &AllMarks, function: u32) -> &[(u32, Shape)]
    ensures { (u : CodeUnit) (f : Function) → AreAllMarks u marks.now → slice_get u.functions function ≡ Some f → AreMarks u f result.now }
{
    match marks.as_slice().get(function as usize) {
        Some(marks) => marks.as_slice(),
        None => &[],
    }
}

fn shape_of(
    alloc: Global,
    unit: &Unit,
    marks: &AllMarks,
    function: u32,
    place: u32,
) -> Result<Types, NoMemory>
    requires verified { VerifiedUnit unit.now }
    requires marks { AreAllMarks unit.now marks.now }
    requires there { function < length unit.now.functions }
    requires place { (f : Function) → slice_get unit.now.functions function ≡ Some f → place < length f.code }
    ensures { IfOk result (λ shape. (f : Function) → slice_get unit.now.functions function ≡ Some f
        → (shapes : ℕ → List Ty) → AreShapes unit.now f shapes → shape ≡ shapes place) }
{
    shape_in(
        alloc,
        unit,
        &unit.functions.as_slice()[function as usize],
        marks_of(marks, function),
        place,
    )
}
