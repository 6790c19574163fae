//! That the rows of methods and changes have the numbers of the table.
ghost use Rattle.std.specs.Prelude.{◌≡◌, ◌⊎◌, ℕ, List, length, Some};
ghost use Rattle.bds_value.specs.declared.method_numbers.TheConstants.{LINES};
ghost use Rattle.bds_value.specs.declared.methods.Method.TheVariants.{Plain, Change};
ghost use Rattle.bds_value.specs.declared.value.Ty.{Ty};
ghost use Rattle.bds_value.specs.Methods.{signature_of};
ghost use Rattle.bds_lib.specs.Rows.{IsRow, IsChangeRow};

/// A name with a number of arguments is a method's or a change's exactly where the tables have
/// such a row, but for the row that splits a text into lines, which has no name. A law, which does nothing.
pub fn rows_are_named()
    ensures method { (receiver : Ty) (name : List ℕ) (count n : ℕ) → signature_of receiver name count ≡ Some (Plain n)
        → (args : List Ty) × (ty : Ty) × IsRow n receiver args ty × (length args ≡ count) }
    ensures named { (receiver : Ty) (n : ℕ) (args : List Ty) (ty : Ty) → IsRow n receiver args ty
        → (n ≡ LINES) ⊎ ((name : List ℕ) × (signature_of receiver name (length args) ≡ Some (Plain n))) }
    ensures change { (receiver : Ty) (name : List ℕ) (count what : ℕ) → signature_of receiver name count ≡ Some (Change what)
        → (args : List Ty) × IsChangeRow what receiver args × (length args ≡ count) }
    ensures change_named { (receiver : Ty) (what : ℕ) (args : List Ty) → IsChangeRow what receiver args
        → (name : List ℕ) × (signature_of receiver name (length args) ≡ Some (Change what)) }
{}
