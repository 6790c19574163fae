//! Which of its meanings a `+` has at the types of its operands.
ghost use Rattle.std.specs.Prelude.{◌≡◌};
ghost use Rattle.bds_check_size.specs.ExprSize.{sum_of};

use bds_value::{Ty, list_item, same_ty};

/// What a sum is.
#[derive(Clone, Copy, PartialEq, Eq)]
pub enum Sum {
    Numbers,
    /// An item behind those of a list.
    ItemAdded,
    ListsJoined,
    /// The texts of two values, one behind the other.
    Texts,
}

/// What a sum is, by the types of its operands; lists are tried first.
pub fn sum_of(left: &Ty, right: &Ty) -> Sum
    ensures { result ≡ sum_of left.now right.now }
{
    match list_item(left) {
        Some(item) if same_ty(item, right) => Sum::ItemAdded,
        Some(_) if same_ty(left, right) => Sum::ListsJoined,
        Some(_) => Sum::Texts,
        None if same_ty(left, &Ty::Int) && same_ty(right, &Ty::Int) => Sum::Numbers,
        None => Sum::Texts,
    }
}
