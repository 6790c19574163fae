//! Lists of types by number: lists that begin alike share what they begin with.
ghost use Rattle.std.specs.Prelude.{◌≡◌, ⊤, true, IfOk, IfSome};
ghost use Rattle.std.specs.Option.{option_copied};
ghost use Rattle.bds_verify.specs.Numbered.{node_at, is_this, before_of, IsAdded, LeadsOne, Leads};

use bds_value::{Listed, NoMemory, Ty, copy_ty, same_ty};
use indexmap::IndexMap;
use std::alloc::Global;

/// Lists of types by number. 0 is the empty list; each other has a node, with the number of the list without the
/// last type, and that type.
#[derive(Drop)]
pub(crate) struct TypeLists {
    pub nodes: Listed<(u32, Ty)>,
    /// Numbers by what their nodes hold, mixed into one number. Where two nodes have the same one, the later stands
    /// here: so what is found is looked at.
    places: IndexMap<u64, u32>,
}

/// Lists of which none but the empty one has a number.
pub(crate) fn no_lists(alloc: Global) -> TypeLists {
    TypeLists {
        nodes: Listed::new(alloc),
        places: IndexMap::new(alloc),
    }
}

fn mixed_ty(ty: &Ty) -> u64
    ensures { ⊤ }
{
    match ty {
        Ty::Bool => 1,
        Ty::Int => 2,
        Ty::Text => 3,
        Ty::Void => 4,
        Ty::List(item) => mixed_ty(item.get())
            .wrapping_mul(0x9e37_79b9_7f4a_7c15)
            .wrapping_add(5),
        Ty::Map(item) => mixed_ty(item.get())
            .wrapping_mul(0x9e37_79b9_7f4a_7c15)
            .wrapping_add(6),
    }
}

fn mixed(number: u32, ty: &Ty) -> u64
    ensures { ⊤ }
{
    mixed_ty(ty)
        .wrapping_mul(0xd6e8_feb8_6659_fd93)
        .wrapping_add(number as u64)
}

/// The node of a number.
#[tactic(auto, using(crate::proofs::NodeLaws::node_behind))]
fn node_of(nodes: &[(u32, Ty)], number: u32) -> Option<&(u32, Ty)>
    ensures { option_copied result ≡ node_at nodes.now number }
{
    if number == 0 {
        None
    } else {
        nodes.get(number as usize - 1)
    }
}

/// Whether a number is that of a list with one more type.
fn is_node(nodes: &[(u32, Ty)], found: u32, number: u32, ty: &Ty) -> bool
    ensures { result ≡ is_this (node_at nodes.now found) number ty.now }
{
    match node_of(nodes, found) {
        Some(node) => node.0 == number && same_ty(&node.1, ty),
        None => false,
    }
}

/// One more list: that of a number, with a type behind it.
fn add(alloc: Global, nodes: &mut Listed<(u32, Ty)>, number: u32, ty: &Ty) -> Result<u32, NoMemory>
    ensures { IfOk result (λ n. IsAdded nodes.old nodes.new n number ty.now) }
{
    let ty = copy_ty(alloc, ty)?;
    nodes.push((number, ty))?;
    match u32::try_from(nodes.len()) {
        Ok(added) => Ok(added),
        Err(_) => Err(NoMemory),
    }
}

/// The number of a list with one more type, where it is at hand.
fn at_hand(lists: &TypeLists, mixed: u64, number: u32, ty: &Ty) -> Option<u32>
    ensures { IfSome result (λ n. is_this (node_at lists.now.nodes n) number ty.now ≡ true) }
{
    match lists.places.get(&mixed) {
        Some(found) if is_node(lists.nodes.as_slice(), *found, number, ty) => Some(*found),
        _ => None,
    }
}

/// The number of a list with one more type.
#[tactic(auto, using(crate::proofs::NodeLaws::this_one))]
fn with_one(alloc: Global, lists: &mut TypeLists, number: u32, ty: &Ty) -> Result<u32, NoMemory>
    ensures { IfOk result (λ n. LeadsOne lists.old.nodes lists.new.nodes number n ty.now) }
{
    let mixed = mixed(number, ty);
    if let Some(found) = at_hand(lists, mixed, number, ty) {
        return Ok(found);
    }
    let added = add(alloc, &mut lists.nodes, number, ty)?;
    lists.places.insert(mixed, added)?;
    Ok(added)
}

/// The number of a list with these types behind it.
#[tactic(auto, using(crate::proofs::NodeLaws::leads_none))]
pub(crate) fn with_all(
    alloc: Global,
    lists: &mut TypeLists,
    number: u32,
    types: &[Ty],
) -> Result<u32, NoMemory>
    ensures { IfOk result (λ n. Leads lists.old.nodes lists.new.nodes number n types.now) }
{
    let mut last = number;
    for ty in types {
        last = with_one(alloc, lists, last, ty)?;
    }
    Ok(last)
}

/// The number of a list without its last type.
pub(crate) fn without_last(nodes: &[(u32, Ty)], number: u32) -> u32
    ensures { result ≡ before_of (node_at nodes.now number) }
{
    match node_of(nodes, number) {
        Some(node) => node.0,
        None => 0,
    }
}
