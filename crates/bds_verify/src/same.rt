//! The test on lists of types.
ghost use Rattle.std.specs.Prelude.{◌≡◌};
ghost use Rattle.bds_verify.specs.Pass.{same_tys};

use bds_code::Shape;
use bds_value::{Ty, same_ty};

/// Whether the types of a list are those of another.
#[tactic(auto, using(crate::proofs::SameTys::uneven, crate::proofs::SameTys::same_end))]
pub(crate) fn same_types(types: &[Ty], shape: &Shape) -> bool
    ensures { result ≡ same_tys types.now shape.now }
{
    if types.len() != shape.len() {
        return false;
    }
    for place in 0..types.len() {
        if !same_ty(&types[place], shape.at(place)) {
            return false;
        }
    }
    true
}
