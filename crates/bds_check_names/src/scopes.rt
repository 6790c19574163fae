//! Names looked up, and variables declared.
ghost use Rattle.std.specs.Prelude.{◌≡◌, IfOk, false};
ghost use Rattle.std.specs.Option.{option_copied};
ghost use Rattle.bds_check_names.specs.Scopes as scopes;

use crate::names::{Asked, Names, Site, Variable};
use crate::types::is_known;
use bds_value::{ByteText, NoMemory, Ty, copy_text, copy_ty};
use std::alloc::Global;

/// The type of the variable that a name stands for.
pub fn found<'a>(names: &'a Names, name: &ByteText) -> Option<&'a Ty>
    ensures { option_copied result ≡ scopes.found name.now names.now }
{
    match names.locals.type_of(name) {
        Some(local) => Some(local),
        None => names.globals.type_of(name),
    }
}

/// The type of a name, `Void` where it isn't in force.
pub fn type_named(alloc: Global, names: &Names, name: &ByteText) -> Result<Ty, NoMemory>
    ensures { IfOk result (λ ty. ty ≡ scopes.type_named name.now names.now) }
{
    match found(names, name) {
        Some(ty) => copy_ty(alloc, ty),
        None => Ok(Ty::Void),
    }
}

/// A global without a type, while types are found.
pub fn is_untyped(names: &Names, name: &ByteText) -> bool
    ensures { result ≡ scopes.is_untyped names.now.finding (scopes.found name.now names.now) }
{
    match found(names, name) {
        Some(ty) => names.finding && !is_known(ty),
        None => false,
    }
}

/// A name that isn't in force; while types are found, a global without a type counts as none.
pub fn is_missing(names: &Names, name: &ByteText) -> bool
    ensures { result ≡ scopes.is_missing names.now.finding (scopes.found name.now names.now) }
{
    match found(names, name) {
        Some(ty) => names.finding && !is_known(ty),
        None => true,
    }
}

/// The block has a variable of the name already.
pub fn is_declared(names: &Names, site: &Site, name: &ByteText) -> bool
    ensures { result ≡ scopes.is_declared names.now site.now name.now }
{
    if site.at_top {
        names.globals.has(name)
    } else {
        names.locals.is_named_behind(site.start, name)
    }
}

/// A variable of this name and type.
pub fn variable(alloc: Global, name: &ByteText, ty: &Ty) -> Result<Variable, NoMemory>
    ensures { IfOk result (λ v. v ≡ scopes.variable name.now ty.now) }
{
    let name = copy_text(alloc, name)?;
    Ok(Variable {
        name,
        ty: copy_ty(alloc, ty)?,
    })
}

/// The names behind a declaration that isn't at the top level.
pub fn declare_local(
    alloc: Global,
    names: &mut Names,
    site: &Site,
    name: &ByteText,
    ty: &Ty,
) -> Result<(), NoMemory>
    requires { site.now.at_top ≡ false }
    ensures value { IfOk result (λ _. names.new ≡ scopes.declare names.old site.now name.now ty.now) }
    ensures extends { scopes.Extends names.old names.new }
{
    let variable = variable(alloc, name, ty)?;
    names.locals.declare_in(alloc, site.start, variable)
}

/// The names behind a declaration at the top level.
pub fn declare_global(
    alloc: Global,
    names: &mut Names,
    name: &ByteText,
    ty: &Ty,
) -> Result<(), NoMemory>
    ensures { IfOk result (λ _. names.new ≡ scopes.declare names.old scopes.top name.now ty.now) }
{
    let ty = copy_ty(alloc, ty)?;
    names.globals.declare(alloc, name, ty)
}

/// A local of a block of its own.
pub fn push_local(
    alloc: Global,
    names: &mut Names,
    name: &ByteText,
    ty: &Ty,
) -> Result<(), NoMemory>
    ensures value { IfOk result (λ _. names.new ≡ scopes.with_local names.old name.now ty.now) }
    ensures extends { scopes.Extends names.old names.new }
{
    let variable = variable(alloc, name, ty)?;
    names.locals.push(alloc, variable)
}

fn copy_returns(alloc: Global, returns: &Option<Ty>) -> Result<Option<Ty>, NoMemory>
    ensures { IfOk result (λ copied. copied ≡ returns.now) }
{
    match returns {
        Some(ty) => Ok(Some(copy_ty(alloc, ty)?)),
        None => Ok(None),
    }
}

/// A block within.
pub fn inner(alloc: Global, names: &Names, site: &Site) -> Result<Site, NoMemory>
    ensures { IfOk result (λ s. s ≡ scopes.inner names.now site.now) }
{
    let returns = copy_returns(alloc, &site.returns)?;
    Ok(Site {
        at_top: false,
        start: names.locals.len(),
        in_loop: site.in_loop,
        may_break: site.may_break,
        returns,
    })
}

/// The body of a loop.
pub fn in_loop(alloc: Global, names: &Names, site: &Site) -> Result<Site, NoMemory>
    ensures { IfOk result (λ s. s ≡ scopes.in_loop names.now site.now) }
{
    let returns = copy_returns(alloc, &site.returns)?;
    Ok(Site {
        at_top: false,
        start: names.locals.len(),
        in_loop: true,
        may_break: true,
        returns,
    })
}

/// The statements of a case.
pub fn in_switch(alloc: Global, names: &Names, site: &Site) -> Result<Site, NoMemory>
    ensures { IfOk result (λ s. s ≡ scopes.in_switch names.now site.now) }
{
    let returns = copy_returns(alloc, &site.returns)?;
    Ok(Site {
        at_top: false,
        start: names.locals.len(),
        in_loop: site.in_loop,
        may_break: true,
        returns,
    })
}

/// A `par` block.
pub fn apart(names: &Names) -> Site
    ensures { result ≡ scopes.apart names.now }
{
    Site {
        at_top: false,
        start: names.locals.len(),
        in_loop: false,
        may_break: false,
        returns: None,
    }
}

/// The top level.
pub fn top() -> Site
    ensures { result ≡ scopes.top }
{
    Site {
        at_top: true,
        start: 0,
        in_loop: false,
        may_break: false,
        returns: None,
    }
}

/// A function's body.
pub fn in_function(gives: Ty) -> Site
    ensures { result ≡ scopes.in_function gives }
{
    Site {
        at_top: false,
        start: 0,
        in_loop: false,
        may_break: false,
        returns: Some(gives),
    }
}

pub fn is_value(asked: &Asked) -> bool
    ensures { result ≡ scopes.is_value asked.now }
{
    match asked {
        Asked::Whole => false,
        Asked::Value => true,
        Asked::This(_) => true,
    }
}
