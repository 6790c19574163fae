//! Whether values have types.
ghost use Rattle.std.specs.Prelude.{◌≡◌, IfOk};
ghost use Rattle.std.specs.Bool.{Decides};
ghost use Rattle.std.specs.List.{All};
ghost use Rattle.bds_value.specs.Fields.{IsFieldValue};
ghost use Rattle.bds_value.specs.Value.{type_of};
ghost use Rattle.bds_verify.specs.Threads.{Typed};

use bds_value::{NoMemory, Ty, Value, same_ty, type_of, types_are_compared};
use std::alloc::Global;

/// Whether two types are the same.
pub(crate) fn are_same(a: &Ty, b: &Ty) -> bool
    ensures { Decides result (a.now ≡ b.now) }
{
    types_are_compared();
    same_ty(a, b)
}

fn has_type(alloc: Global, value: &Value, ty: &Ty) -> Result<bool, NoMemory>
    ensures { IfOk result (λ has. Decides has (type_of value.now ≡ ty.now)) }
{
    let found = type_of(alloc, value)?;
    Ok(are_same(&found, ty))
}

/// Whether values that a file may hold have these types.
pub(crate) fn are_of(alloc: Global, values: &[Value], types: &[Ty]) -> Result<bool, NoMemory>
    requires { All IsFieldValue values.now }
    ensures { IfOk result (λ are. Decides are (Typed values.now types.now)) }
{
    if values.len() != types.len() {
        return Ok(false);
    }
    for i in 0..values.len() {
        if !has_type(alloc, &values[i], &types[i])? {
            return Ok(false);
        }
    }
    Ok(true)
}
