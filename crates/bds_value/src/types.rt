//! Types: when two are the same, which of them values have, how deep they nest, and what stands
//! inside.
ghost use Rattle.std.specs.Prelude.{◌≡◌, ◌↔◌, ◌&&◌, ◌||◌, ◌-◌, nat_eq, nat_lt, true};
ghost use Rattle.std.specs.Option.{option_copied};
ghost use Rattle.bds_value.specs.Types.{same_ty, is_void, is_plain, is_ordered, fits_within, list_item, map_item};
ghost use Rattle.bds_value.specs.Fields.{nesting};
ghost use Rattle.bds_value.specs.declared.value.Ty.{Ty as AnyTy};

use crate::value::Ty;

/// The test on types is equality: a law, which does nothing.
pub fn types_are_compared()
    ensures { (a b : AnyTy) → (same_ty a b ≡ true) ↔ (a ≡ b) }
{}

/// Whether two types are the same.
#[tactic(auto, using(crate::proofs::TypeLaws::same_rules))]
pub fn same_ty(a: &Ty, b: &Ty) -> bool
    ensures { result ≡ same_ty a.now b.now }
{
    match (a, b) {
        (Ty::Bool, Ty::Bool) => true,
        (Ty::Int, Ty::Int) => true,
        (Ty::Text, Ty::Text) => true,
        (Ty::Void, Ty::Void) => true,
        (Ty::List(s), Ty::List(t)) => same_ty(s.get(), t.get()),
        (Ty::Map(s), Ty::Map(t)) => same_ty(s.get(), t.get()),
        _ => false,
    }
}

/// Whether no values have the type.
pub fn is_void(ty: &Ty) -> bool
    ensures { result ≡ is_void ty.now }
{
    matches!(ty, Ty::Void)
}

/// Whether values of the type may be compared.
pub fn is_plain(ty: &Ty) -> bool
    ensures { result ≡ is_plain ty.now }
{
    matches!(ty, Ty::Bool | Ty::Int | Ty::Text)
}

/// Whether values of the type have an order.
pub fn is_ordered(ty: &Ty) -> bool
    ensures { result ≡ is_ordered ty.now }
{
    matches!(ty, Ty::Int | Ty::Text)
}

/// The type of the items of a list.
pub fn list_item(ty: &Ty) -> Option<&Ty>
    ensures { option_copied result ≡ list_item ty.now }
{
    match ty {
        Ty::List(item) => Some(item.get()),
        _ => None,
    }
}

/// The type of the values of a map.
pub fn map_item(ty: &Ty) -> Option<&Ty>
    ensures { option_copied result ≡ map_item ty.now }
{
    match ty {
        Ty::Map(item) => Some(item.get()),
        _ => None,
    }
}

/// Whether a type has no `Void`, and nests at most so deep.
#[cycle(types)]
#[tactic(auto, using(crate::proofs::TypeLaws::room_rules))]
pub fn fits_within(ty: &Ty, room: u32) -> bool
    ensures { result ≡ fits_within ty.now room }
{
    match ty {
        Ty::Bool | Ty::Int | Ty::Text => true,
        Ty::List(item) | Ty::Map(item) => fits_inside(item.get(), room),
        Ty::Void => false,
    }
}

/// Whether the type of the items of a list or map fits into it.
#[cycle(types)]
fn fits_inside(ty: &Ty, room: u32) -> bool
    ensures { result ≡ nat_lt 0 room && fits_within ty.now (room - 1) }
{
    room > 0 && fits_within(ty, room - 1)
}

/// Whether a type nests deeper than so many lists and maps.
#[cycle(depths)]
#[tactic(auto, using(crate::proofs::TypeLaws::depth_rules))]
pub fn nests_deeper(ty: &Ty, most: u32) -> bool
    ensures { result ≡ nat_lt most (nesting ty.now) }
{
    match ty {
        Ty::List(item) | Ty::Map(item) => is_deeper(item.get(), most),
        _ => false,
    }
}

/// Whether a list or map of these items nests deeper than so many lists and maps.
#[cycle(depths)]
fn is_deeper(item: &Ty, most: u32) -> bool
    ensures { result ≡ nat_eq most 0 || nat_lt (most - 1) (nesting item.now) }
{
    most == 0 || nests_deeper(item, most - 1)
}
