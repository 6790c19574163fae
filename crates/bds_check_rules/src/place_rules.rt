//! The type of a place, and the rules that a place breaks.
ghost use Rattle.std.specs.Prelude.{◌≡◌, IfOk, map};
ghost use Rattle.std.specs.List.{list_any};
ghost use Rattle.bds_value.specs.declared.value.At.{At};
ghost use Rattle.bds_tree.specs.StmtView.{suffix_of, place_of, step_of};
ghost use Rattle.bds_check_rules.specs.StmtBreaks as breaks;

use crate::rules::Rule;
use bds_check_names::{
    Names, differ, is_known, is_list, is_map, is_missing, list_part, map_part, type_named,
};
use bds_tree::{Place, Step, Suffix};
use bds_value::{ByteText, NoMemory, Ty};
use std::alloc::Global;

/// The type of a part behind one more step.
fn step_into(alloc: Global, ty: &Ty, suffix: &Suffix) -> Result<Ty, NoMemory>
    ensures { IfOk result (λ t. t ≡ breaks.into ty.now (suffix_of suffix.now)) }
{
    match suffix {
        Suffix::Item(_) => list_part(alloc, ty),
        Suffix::Key(_) => map_part(alloc, ty),
    }
}

fn part_ty(alloc: Global, ty: Ty, suffixes: &[Suffix]) -> Result<Ty, NoMemory>
    ensures { IfOk result (λ t. t ≡ breaks.part_ty ty (map suffix_of suffixes.now)) }
{
    let mut part = ty;
    for suffix in suffixes {
        part = step_into(alloc, &part, suffix)?;
    }
    Ok(part)
}

/// The type of a place, `Void` where it isn't known.
pub fn place_ty(alloc: Global, names: &Names, place: &Place) -> Result<Ty, NoMemory>
    ensures { IfOk result (λ t. t ≡ breaks.place_ty names.now (place_of place.now)) }
{
    let ty = type_named(alloc, names, &place.name)?;
    part_ty(alloc, ty, place.suffixes.as_slice())
}

fn is_wrong_suffix(suffix: &Suffix) -> bool
    ensures { result ≡ breaks.is_wrong_suffix (suffix_of suffix.now) }
{
    match suffix {
        Suffix::Item(index) => differ(&Ty::Int, &index.ty),
        Suffix::Key(key) => differ(&Ty::Text, &key.ty),
    }
}

/// An index isn't a number, or a key isn't a text.
fn any_wrong_suffix(suffixes: &[Suffix]) -> bool
    ensures { result ≡ list_any breaks.is_wrong_suffix (map suffix_of suffixes.now) }
{
    for suffix in suffixes {
        if is_wrong_suffix(suffix) {
            return true;
        }
    }
    false
}

fn is_bad_suffix(ty: &Ty, suffix: &Suffix) -> bool
    ensures { result ≡ breaks.is_bad_suffix ty.now (suffix_of suffix.now) }
{
    match suffix {
        Suffix::Item(_) => is_known(ty) && !is_list(ty),
        Suffix::Key(_) => is_known(ty) && !is_map(ty),
    }
}

/// An index stands behind something that isn't a list, or a key behind what isn't a map.
fn any_bad_suffix(alloc: Global, ty: Ty, suffixes: &[Suffix]) -> Result<bool, NoMemory>
    ensures { IfOk result (λ b. b ≡ breaks.any_bad_suffix ty (map suffix_of suffixes.now)) }
{
    let mut part = ty;
    for suffix in suffixes {
        if is_bad_suffix(&part, suffix) {
            return Ok(true);
        }
        part = step_into(alloc, &part, suffix)?;
    }
    Ok(false)
}

/// The least rule that a place breaks whose suffixes have their types.
pub fn place_rule(
    alloc: Global,
    names: &Names,
    name: &ByteText,
    suffixes: &[Suffix],
) -> Result<Option<Rule>, NoMemory>
    ensures { (at : At) → IfOk result (λ rule. rule ≡ breaks.place_breaks names.now (record { at = at; name = name.now; suffixes = map suffix_of suffixes.now })) }
{
    if is_missing(names, name) {
        return Ok(Some(Rule::UnknownName));
    }
    if any_wrong_suffix(suffixes) {
        return Ok(Some(Rule::WrongType));
    }
    let ty = type_named(alloc, names, name)?;
    if any_bad_suffix(alloc, ty, suffixes)? {
        Ok(Some(Rule::BadItem))
    } else {
        Ok(None)
    }
}

/// The place that a step changes.
pub fn stepped(step: &Step) -> &Place
    ensures { place_of result.now ≡ breaks.stepped (step_of step.now) }
{
    match step {
        Step::After(place, _) => place,
        Step::Before(_, place) => place,
    }
}
