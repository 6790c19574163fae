//! A script that is loaded and opened.
use bds_check::{Typed, check};
use bds_front::load;
use bds_host::{Reply, Scripted};
use bds_source::source_of;
use bds_source_terms::{Scope, Term};
use bds_value::{ByteText, Listed, NoMemory, Ty, Value};
use std::alloc::Global;
use std::test::Fail;

fn text(alloc: Global, bytes: &[u8]) -> Result<ByteText, NoMemory> {
    let mut text = Listed::new(alloc);
    text.append(bytes)?;
    Ok(text)
}

fn host(alloc: Global, source: &[u8]) -> Result<Scripted, NoMemory> {
    let mut replies = Listed::new(alloc);
    replies.push(Reply::Bytes(text(alloc, source)?))?;
    Ok(Scripted::new(alloc, replies))
}

fn loaded(alloc: Global, source: &[u8]) -> Result<Typed, Fail> {
    let path = text(alloc, b"s.bds")?;
    let mut host = host(alloc, source)?;
    Ok(load(alloc, &mut host, &path)?)
}

/// The typed script of a loaded one whose tree is checked again.
fn checked_again(alloc: Global, source: &[u8]) -> Result<Typed, Fail> {
    let script = loaded(alloc, source)?.into_script();
    Ok(check(alloc, script)?)
}

/// The declaration of `args`, which has no items.
fn is_args(term: &Term) -> bool {
    match term {
        Term::Declare(Scope::Global, name, value) => {
            name.as_slice() == b"args".as_slice()
                && match value.get() {
                    Term::Constant(Value::List(Ty::Text, items)) => items.get().len() == 0,
                    _ => false,
                }
        }
        _ => false,
    }
}

/// The declaration of `i` with the number 1.
fn is_one(term: &Term) -> bool {
    match term {
        Term::Declare(Scope::Global, name, value) => {
            name.as_slice() == b"i".as_slice()
                && match value.get() {
                    Term::Constant(Value::Int(1)) => true,
                    _ => false,
                }
        }
        _ => false,
    }
}

/// One statement, and what is behind it.
fn first_of(term: &Term) -> Option<(&Term, &Term)> {
    match term {
        Term::Then(statements, rest) => match statements.as_slice() {
            [only] => Some((only, rest.get())),
            _ => None,
        },
        _ => None,
    }
}

/// `args`, then `i`, then nothing.
fn is_opening(term: &Term) -> bool {
    let Some((args, rest)) = first_of(term) else {
        return false;
    };
    let Some((one, end)) = first_of(rest) else {
        return false;
    };
    is_args(args) && is_one(one) && matches!(end, Term::Nothing)
}

fn opens(alloc: Global, typed: Typed) -> Result<bool, Fail> {
    let term = source_of(alloc, &typed)?;
    Ok(is_opening(&term))
}

#[test]
fn a_declaration_opens_behind_that_of_args(rt: HostRuntime) -> Result<(), Fail> {
    let opened = opens(rt.alloc(), loaded(rt.alloc(), b"int i = 1")?)?;
    assert!(rt; opened);
    Ok(())
}

#[test]
fn a_typed_script_is_checked_again(rt: HostRuntime) -> Result<(), Fail> {
    let opened = opens(rt.alloc(), checked_again(rt.alloc(), b"int i = 1")?)?;
    assert!(rt; opened);
    Ok(())
}
