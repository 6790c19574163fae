//! What methods take and give.
ghost use Rattle.std.specs.Prelude.{◌≡◌, ◌∷◌, [], IfOk, Some, map};
ghost use Rattle.bds_value.specs.Methods.{part_ty, parts_of, gives_ty, inner_of};
ghost use Rattle.bds_check_names.specs.Rows as rows;

use bds_value::{
    ByteText, Listed, Method, MethodRow, NoMemory, Part, Shared, Takes, Ty, Types, copy_ty,
    method_row,
};
use std::alloc::Global;

/// What a method takes and gives.
#[derive(Drop)]
pub struct Row {
    pub takes: Types,
    /// `Void` where it gives nothing.
    pub gives: Ty,
    /// It changes its receiver.
    pub changes: bool,
}

/// The method of a receiver's type with a name and so many arguments.
pub fn row_of(
    alloc: Global,
    receiver: &Ty,
    name: &ByteText,
    count: usize,
) -> Result<Option<Row>, NoMemory>
    ensures { IfOk result (λ row. row ≡ rows.row_of receiver.now name.now count) }
{
    match method_row(receiver, name, count as u64) {
        Some(row) => row_at(alloc, receiver, row),
        None => Ok(None),
    }
}

/// A row of the table at a receiver.
fn row_at(alloc: Global, receiver: &Ty, row: MethodRow) -> Result<Option<Row>, NoMemory>
    ensures { IfOk result (λ made. made ≡ Some (rows.row_with (inner_of receiver.now) row)) }
{
    match receiver {
        Ty::List(item) => row_with(alloc, item.get(), row),
        Ty::Map(item) => row_with(alloc, item.get(), row),
        _ => row_with(alloc, &Ty::Void, row),
    }
}

fn row_with(alloc: Global, item: &Ty, row: MethodRow) -> Result<Option<Row>, NoMemory>
    ensures { IfOk result (λ made. made ≡ Some (rows.row_with item.now row)) }
{
    let takes = types_of(alloc, item, row.takes)?;
    let gives = gives_ty(alloc, item, row.gives)?;
    Ok(Some(Row {
        takes,
        gives,
        changes: is_change(row.method),
    }))
}

fn is_change(method: Method) -> bool
    ensures { result ≡ rows.is_change method }
{
    match method {
        Method::Plain(_) | Method::File(_) => false,
        Method::Change(_) => true,
    }
}

/// The type that a part of a row stands for.
fn part_ty(alloc: Global, item: &Ty, part: Part) -> Result<Ty, NoMemory>
    ensures { IfOk result (λ ty. ty ≡ part_ty item.now part) }
{
    match part {
        Part::Bool => Ok(Ty::Bool),
        Part::Int => Ok(Ty::Int),
        Part::Text => Ok(Ty::Text),
        Part::Texts => Ok(Ty::List(Shared::of(alloc, Ty::Text)?)),
        Part::Item => copy_ty(alloc, item),
        Part::Items => {
            let item = copy_ty(alloc, item)?;
            Ok(Ty::List(Shared::of(alloc, item)?))
        }
    }
}

fn gives_ty(alloc: Global, item: &Ty, gives: Option<Part>) -> Result<Ty, NoMemory>
    ensures { IfOk result (λ ty. ty ≡ gives_ty item.now gives) }
{
    match gives {
        Some(part) => part_ty(alloc, item, part),
        None => Ok(Ty::Void),
    }
}

fn one(alloc: Global, ty: Ty) -> Result<Types, NoMemory>
    ensures { IfOk result (λ types. types ≡ ty ∷ []) }
{
    let mut types = Listed::new(alloc);
    types.push(ty)?;
    Ok(types)
}

fn two(alloc: Global, a: Ty, b: Ty) -> Result<Types, NoMemory>
    ensures { IfOk result (λ types. types ≡ a ∷ b ∷ []) }
{
    let mut types = Listed::new(alloc);
    types.push(a)?;
    types.push(b)?;
    Ok(types)
}

/// The types of the arguments of a row.
fn types_of(alloc: Global, item: &Ty, takes: Takes) -> Result<Types, NoMemory>
    ensures { IfOk result (λ types. types ≡ map (part_ty item.now) (parts_of takes)) }
{
    match takes {
        Takes::Nothing => Ok(Listed::new(alloc)),
        Takes::One(a) => {
            let a = part_ty(alloc, item, a)?;
            one(alloc, a)
        }
        Takes::Two(a, b) => {
            let a = part_ty(alloc, item, a)?;
            let b = part_ty(alloc, item, b)?;
            two(alloc, a, b)
        }
    }
}
