//! The code that is made of a script.
ghost use Rattle.std.specs.Prelude.{◌≤◌, IfOk, length};
ghost use Rattle.bds_value.specs.declared.TheConstants.{MAX_ITEMS};
ghost use Rattle.bds_check_typing.specs.Texts.{AreShortTexts};

use crate::showing::shown;
use bds_check::{Typed, with_words};
use bds_code::Unit;
use bds_front::load;
use bds_gen_unit::generate;
use bds_host::{Reply, Scripted};
use bds_value::{ByteText, Listed, NoMemory, Texts};
use bds_verify::{Verified, verify};
use std::alloc::Global;
use std::test::Fail;

/// The beginning of each script: globals from 1 on.
const GLOBALS: &str = "int i; bool b; string t; string[] l; int[] n; string{} m; ";

/// The code of an empty `args` and of these globals.
const BEGIN: &str = "MakeList(Text, 0) StoreGlobal(0) \
    PushDefault(Int) StoreGlobal(1) PushDefault(Bool) StoreGlobal(2) PushDefault(Text) StoreGlobal(3) \
    PushDefault(List(Text)) StoreGlobal(4) PushDefault(List(Int)) StoreGlobal(5) PushDefault(Map(Text)) StoreGlobal(6) ";

fn text(alloc: Global, parts: &[&str]) -> Result<ByteText, NoMemory> {
    let mut text = Listed::new(alloc);
    for part in parts {
        text.append(part.as_bytes())?;
    }
    Ok(text)
}

/// The words `-NAME`, `VALUE` and `x`, where a name and a value are one byte each.
fn words(alloc: Global, name: u8, value: u8) -> Result<Texts, NoMemory>
    ensures few { IfOk result (λ words. length words ≤ MAX_ITEMS) }
    ensures short { IfOk result AreShortTexts }
{
    let mut first = Listed::new(alloc);
    first.push(b'-')?;
    first.push(name)?;
    let mut second = Listed::new(alloc);
    second.push(value)?;
    let mut third = Listed::new(alloc);
    third.push(b'x')?;
    let mut words = Listed::new(alloc);
    words.push(first)?;
    words.push(second)?;
    words.push(third)?;
    Ok(words)
}

fn host(alloc: Global, parts: &[&str]) -> Result<Scripted, NoMemory> {
    let mut replies = Listed::new(alloc);
    replies.push(Reply::Bytes(text(alloc, parts)?))?;
    Ok(Scripted::new(alloc, replies))
}

fn loaded(alloc: Global, parts: &[&str]) -> Result<Typed, Fail> {
    let path = text(alloc, &["s.bds"])?;
    let mut host = host(alloc, parts)?;
    Ok(load(alloc, &mut host, &path)?)
}

fn set(alloc: Global, typed: Typed, name: u8, value: u8) -> Result<Typed, Fail> {
    let words = words(alloc, name, value)?;
    Ok(with_words(alloc, typed, &words)?)
}

fn typed(alloc: Global, parts: &[&str], words: Option<(u8, u8)>) -> Result<Typed, Fail> {
    let typed = loaded(alloc, parts)?;
    match words {
        Some((name, value)) => set(alloc, typed, name, value),
        None => Ok(typed),
    }
}

fn unit(alloc: Global, parts: &[&str], words: Option<(u8, u8)>) -> Result<Unit, Fail> {
    let typed = typed(alloc, parts, words)?;
    Ok(generate(alloc, &typed)?)
}

/// The unit of a script, given in parts, with words behind it, or none; the verifier takes it.
pub fn made(alloc: Global, parts: &[&str], words: Option<(u8, u8)>) -> Result<Verified, Fail> {
    let unit = unit(alloc, parts, words)?;
    Ok(verify(alloc, unit)?)
}

fn top_shown(alloc: Global, unit: &Unit) -> Result<String, Fail> {
    match unit.functions.as_slice() {
        [top, ..] => shown(alloc, top),
        [] => Ok(String::new(alloc)),
    }
}

/// The code of the top level of a script whose beginning declares globals.
pub fn code_of(alloc: Global, source: &str) -> Result<String, Fail> {
    let verified = made(alloc, &[GLOBALS, source], None)?;
    top_shown(alloc, verified.unit())
}

/// What stands between the globals and the `Return`.
pub fn inner(code: &str) -> &str {
    let behind = code.strip_prefix(BEGIN).unwrap_or("no globals");
    behind.strip_suffix("Return ").unwrap_or("no return")
}
