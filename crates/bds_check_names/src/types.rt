//! Questions on types, known or not.
ghost use Rattle.std.specs.Prelude.{◌≡◌, IfOk, is_some};
ghost use Rattle.bds_check_names.specs.Types.{is_known, differ, is_files, list_of, map_of, or_void, sum_ty, common_ty, joins};
ghost use Rattle.bds_check_names.specs.Types.{lacks};
ghost use Rattle.bds_value.specs.declared.value.Ty.TheVariants as Ty;
ghost use Rattle.bds_value.specs.Types.{same_ty, is_plain, is_ordered, list_item, map_item};

use bds_value::{NoMemory, Shared, Ty, copy_ty, same_ty};
use std::alloc::Global;

pub fn is_known(ty: &Ty) -> bool
    ensures { result ≡ is_known ty.now }
{
    match ty {
        Ty::Void => false,
        _ => true,
    }
}

/// Both are known, and they are two types.
pub fn differ(a: &Ty, b: &Ty) -> bool
    ensures { result ≡ differ a.now b.now }
{
    is_known(a) && is_known(b) && !same_ty(a, b)
}

fn is_text(ty: &Ty) -> bool
    ensures { result ≡ same_ty ty.now Ty.Text }
{
    match ty {
        Ty::Text => true,
        _ => false,
    }
}

fn is_text_list(ty: &Ty) -> bool
    ensures { result ≡ same_ty ty.now (Ty.List Ty.Text) }
{
    match ty {
        Ty::List(item) => is_text(item.get()),
        _ => false,
    }
}

/// Known, and neither a file nor a list of files.
pub fn lacks_files(ty: &Ty) -> bool
    ensures { result ≡ lacks ty.now (is_files ty.now) }
{
    is_known(ty) && !(is_text(ty) || is_text_list(ty))
}

pub fn is_list(ty: &Ty) -> bool
    ensures { result ≡ is_some (list_item ty.now) }
{
    match ty {
        Ty::List(_) => true,
        _ => false,
    }
}

pub fn is_map(ty: &Ty) -> bool
    ensures { result ≡ is_some (map_item ty.now) }
{
    match ty {
        Ty::Map(_) => true,
        _ => false,
    }
}

/// The type of the items of a list.
pub fn list_item(alloc: Global, ty: &Ty) -> Result<Option<Ty>, NoMemory>
    ensures { IfOk result (λ item. item ≡ list_item ty.now) }
{
    match ty {
        Ty::List(item) => Ok(Some(copy_ty(alloc, item.get())?)),
        _ => Ok(None),
    }
}

/// The type of the values of a map.
pub fn map_item(alloc: Global, ty: &Ty) -> Result<Option<Ty>, NoMemory>
    ensures { IfOk result (λ item. item ≡ map_item ty.now) }
{
    match ty {
        Ty::Map(item) => Ok(Some(copy_ty(alloc, item.get())?)),
        _ => Ok(None),
    }
}

/// The type of an item of a list, `Void` where there is none.
pub fn list_part(alloc: Global, ty: &Ty) -> Result<Ty, NoMemory>
    ensures { IfOk result (λ item. item ≡ or_void (list_item ty.now)) }
{
    match ty {
        Ty::List(item) => copy_ty(alloc, item.get()),
        _ => Ok(Ty::Void),
    }
}

/// The type of a value of a map, `Void` where there is none.
pub fn map_part(alloc: Global, ty: &Ty) -> Result<Ty, NoMemory>
    ensures { IfOk result (λ item. item ≡ or_void (map_item ty.now)) }
{
    match ty {
        Ty::Map(item) => copy_ty(alloc, item.get()),
        _ => Ok(Ty::Void),
    }
}

/// The lists of such items.
pub fn list_of(alloc: Global, item: Ty) -> Result<Ty, NoMemory>
    ensures { IfOk result (λ ty. ty ≡ list_of item) }
{
    match item {
        Ty::Void => Ok(Ty::Void),
        item => Ok(Ty::List(Shared::of(alloc, item)?)),
    }
}

/// The maps to such values.
pub fn map_of(alloc: Global, item: Ty) -> Result<Ty, NoMemory>
    ensures { IfOk result (λ ty. ty ≡ map_of item) }
{
    match item {
        Ty::Void => Ok(Ty::Void),
        item => Ok(Ty::Map(Shared::of(alloc, item)?)),
    }
}

fn joins(a: &Ty, b: &Ty) -> bool
    ensures { result ≡ joins a.now b.now (list_item a.now) }
{
    match a {
        Ty::List(item) => same_ty(item.get(), b) || same_ty(a, b),
        _ => false,
    }
}

/// The type of a sum, `Void` where there is none or a type that it needs isn't known. With a text on
/// the left it is a text, whatever stands on the right.
pub fn sum_ty(alloc: Global, a: &Ty, b: &Ty) -> Result<Ty, NoMemory>
    ensures { IfOk result (λ ty. ty ≡ sum_ty a.now b.now) }
{
    if is_text(a) {
        Ok(Ty::Text)
    } else if !(is_known(a) && is_known(b)) {
        Ok(Ty::Void)
    } else if joins(a, b) {
        copy_ty(alloc, a)
    } else if same_ty(a, &Ty::Int) && same_ty(b, &Ty::Int) {
        Ok(Ty::Int)
    } else if is_text(b) {
        Ok(Ty::Text)
    } else {
        Ok(Ty::Void)
    }
}

/// The type of one of two values of one type.
pub fn common_ty(alloc: Global, a: &Ty, b: &Ty) -> Result<Ty, NoMemory>
    ensures { IfOk result (λ ty. ty ≡ common_ty a.now b.now) }
{
    if is_known(a) && is_known(b) {
        copy_ty(alloc, a)
    } else {
        Ok(Ty::Void)
    }
}
