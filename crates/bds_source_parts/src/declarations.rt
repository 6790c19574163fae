//! The terms of declarations, and the values that were set for them.
ghost use Rattle.std.specs.Prelude.{◌≡◌, ◌≢◌, IfOk};
ghost use Rattle.std.specs.Option.{option_copied};
ghost use Rattle.bds_value.specs.declared.value.Ty.TheVariants as types;
ghost use Rattle.bds_value.specs.Value.{default_of};
ghost use Rattle.bds_check_size.specs.ScriptSize.{set_value};
ghost use Rattle.bds_check_typing.specs.GivenValues.{set_by};
ghost use Rattle.bds_meaning.specs.OpeningStatements as statements;
ghost use Rattle.bds_meaning.specs.Term as meaning;
ghost use Rattle.bds_meaning.specs.Variables as variables;
ghost use Rattle.bds_source_terms.specs.View.{term_of};

use bds_check_names::Site;
use bds_check_typing::Given;
use bds_source_terms::{Scope, Term};
use bds_value::{Boxed, ByteText, NoMemory, Ty, Value, copy, copy_text, default_of};
use std::alloc::Global;

/// A declaration with its value: of a global at the top level, and else of a local. Only want of memory refuses it.
pub fn declare(alloc: Global, site: &Site, name: ByteText, value: Term) -> Result<Term, NoMemory>
    ensures { IfOk result (λ t. term_of t ≡ meaning.Declare (statements.scope_at site.now) name (term_of value)) }
{
    match Boxed::of(alloc, value) {
        Ok(value) => {
            if site.at_top {
                Ok(Term::Declare(Scope::Global, name, value))
            } else {
                Ok(Term::Declare(Scope::Local, name, value))
            }
        }
        Err(fault) => Err(fault),
    }
}

/// A local with its value. Only want of memory refuses it.
pub fn declared_here(alloc: Global, name: ByteText, value: Term) -> Result<Term, NoMemory>
    ensures { IfOk result (λ t. term_of t ≡ meaning.Declare variables.local name (term_of value)) }
{
    match Boxed::of(alloc, value) {
        Ok(value) => Ok(Term::Declare(Scope::Local, name, value)),
        Err(fault) => Err(fault),
    }
}

/// The value that is set for a name: the last one.
fn value_set<'a>(settings: &'a [Given], name: &ByteText) -> Option<&'a Value>
    ensures { option_copied result ≡ set_value (set_by settings.now) name.now }
{
    let mut found = None;
    for given in settings {
        if given.name.as_slice() == name.as_slice() {
            found = Some(&given.value);
        }
    }
    found
}

/// The value that is set for a name before the run, at the top level; in a block there is none.
pub fn set_at<'a>(settings: &'a [Given], site: &Site, name: &ByteText) -> Option<&'a Value>
    ensures { option_copied result ≡ statements.set_at site.now.at_top (set_by settings.now) name.now }
{
    if site.at_top {
        value_set(settings, name)
    } else {
        None
    }
}

/// A declaration with a value that was set. Only want of memory refuses it.
pub fn declare_set(
    alloc: Global,
    site: &Site,
    name: &ByteText,
    value: &Value,
) -> Result<Term, NoMemory>
    ensures { IfOk result (λ t. term_of t ≡ meaning.Declare (statements.scope_at site.now) name.now (meaning.Constant value.now)) }
{
    match copy_text(alloc, name) {
        Ok(name) => match copy(alloc, value) {
            Ok(value) => declare(alloc, site, name, Term::Constant(value)),
            Err(fault) => Err(fault),
        },
        Err(fault) => Err(fault),
    }
}

fn known_default(alloc: Global, ty: &Ty) -> Result<Term, NoMemory>
    requires { ty.now ≢ types.Void }
    ensures { IfOk result (λ t. term_of t ≡ meaning.Constant (default_of ty.now)) }
{
    Ok(Term::Constant(default_of(alloc, ty)?))
}

/// The value of a declaration without one. Only want of memory refuses it.
pub fn default_term(alloc: Global, ty: &Ty) -> Result<Term, NoMemory>
    ensures { IfOk result (λ t. term_of t ≡ meaning.Constant (default_of ty.now)) }
{
    match ty {
        Ty::Void => Ok(Term::Constant(Value::Bool(false))),
        Ty::Bool => known_default(alloc, ty),
        Ty::Int => known_default(alloc, ty),
        Ty::Text => known_default(alloc, ty),
        Ty::List(_) => known_default(alloc, ty),
        Ty::Map(_) => known_default(alloc, ty),
    }
}

/// A declaration without a right side: its value is the default, unless one was set. Only want of memory refuses it.
pub fn default_line(
    alloc: Global,
    settings: &[Given],
    site: &Site,
    ty: &Ty,
    name: &ByteText,
) -> Result<Term, NoMemory>
    ensures { IfOk result (λ t. term_of t ≡ meaning.Declare (statements.scope_at site.now) name.now (statements.unless_set (statements.set_at site.now.at_top (set_by settings.now) name.now) (meaning.Constant (default_of ty.now)))) }
{
    match set_at(settings, site, name) {
        Some(value) => declare_set(alloc, site, name, value),
        None => match copy_text(alloc, name) {
            Ok(name) => match default_term(alloc, ty) {
                Ok(value) => declare(alloc, site, name, value),
                Err(fault) => Err(fault),
            },
            Err(fault) => Err(fault),
        },
    }
}
