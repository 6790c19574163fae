//! Words behind a script, with what they set.
use crate::names::ty;
use bds_check_names::Globals;
use bds_check_typing::Given;
use bds_check_words::{Preset, WordsFault, read_settings};
use bds_value::{ByteText, Listed, NoMemory, Texts, put, put_text};
use std::alloc::Global;
use std::test::Fail;

/// The globals of the script with the codes of their types.
const GLOBALS: [(&[u8], &[u8]); 6] = [
    (b"args", b"t["),
    (b"n", b"i"),
    (b"b", b"b"),
    (b"s", b"t"),
    (b"l", b"t["),
    (b"m", b"i["),
];

/// Words, and what they give: `NAME=VALUE;` for each setting and `WORD,` for each item of `args`, or
/// what is wrong.
const WORDS: [(&[&[u8]], &[u8]); 33] = [
    (&[], b""),
    (&[b"-n", b"5", b"x"], b"n=5;x,"),
    (&[b"x", b"--n", b"7", b"y"], b"n=7;x,y,"),
    (&[b"-k", b"5"], b"no variable k"),
    (&[b"-n5"], b"no variable n5"),
    (&[b"-_"], b"no variable _"),
    (&[b"-args", b"x"], b"no variable args"),
    (&[b"-m", b"1"], b"no variable m"),
    (&[b"-n"], b"bad value for n"),
    (&[b"-n", b"x"], b"bad value for n"),
    (&[b"-n", b" 7"], b"bad value for n"),
    (&[b"-n", b"+7"], b"bad value for n"),
    (&[b"-n", b"007"], b"n=7;"),
    (
        &[b"-n", b"-9223372036854775808"],
        b"n=-9223372036854775808;",
    ),
    (&[b"-n", b"9223372036854775808"], b"bad value for n"),
    (&[b"-n", b"1", b"-n", b"2"], b"n=1;n=2;"),
    (&[b"-b"], b"b=true;"),
    (&[b"-b", b"true", b"x"], b"b=true;x,"),
    (&[b"-b", b"false"], b"b=false;"),
    (&[b"-b", b"x"], b"b=true;x,"),
    (&[b"-s", b"-q"], b"s=-q;"),
    (&[b"-s"], b"bad value for s"),
    (&[b"-s", b"-n", b"3"], b"s=-n;3,"),
    (&[b"-l", b"a", b"b", b"-n", b"3", b"c"], b"l=[a, b];n=3;c,"),
    (&[b"-l"], b"l=[];"),
    (&[b"-l", b"-5", b"a"], b"l=[];-5,a,"),
    (&[b"-int", b"3"], b"-int,3,"),
    (&[b"-sys", b"--true"], b"-sys,--true,"),
    (&[b"-5"], b"-5,"),
    (&[b"-", b"--", b"---n", b"-n-"], b"-,--,---n,-n-,"),
    (&[b"n", b"5", b""], b"n,5,,"),
    (&[b"-k", b"-n", b"x"], b"no variable k"),
    (&[b"-n", b"x", b"-k"], b"bad value for n"),
];

fn text(alloc: Global, bytes: &[u8]) -> Result<ByteText, NoMemory> {
    let mut text = Listed::new(alloc);
    text.append(bytes)?;
    Ok(text)
}

fn texts(alloc: Global, words: &[&[u8]]) -> Result<Texts, NoMemory> {
    let mut texts = Listed::new(alloc);
    for word in words {
        texts.push(text(alloc, word)?)?;
    }
    Ok(texts)
}

fn declare(alloc: Global, globals: &mut Globals, name: &[u8], code: &[u8]) -> Result<(), NoMemory> {
    let name = text(alloc, name)?;
    globals.declare(alloc, &name, ty(alloc, code)?)
}

fn declare_all(alloc: Global, globals: &mut Globals) -> Result<(), NoMemory> {
    for (name, code) in GLOBALS {
        declare(alloc, globals, name, code)?;
    }
    Ok(())
}

fn put_settings(out: &mut Vec<u8>, settings: &[Given]) -> Result<(), NoMemory> {
    for given in settings {
        put(out, given.name.as_slice())?;
        put(out, b"=")?;
        put_text(out, &given.value)?;
        put(out, b";")?;
    }
    Ok(())
}

fn put_args(out: &mut Vec<u8>, args: &[ByteText]) -> Result<(), NoMemory> {
    for word in args {
        put(out, word.as_slice())?;
        put(out, b",")?;
    }
    Ok(())
}

fn put_preset(out: &mut Vec<u8>, preset: &Preset) -> Result<(), NoMemory> {
    put_settings(out, preset.settings.as_slice())?;
    put_args(out, preset.args.as_slice())
}

fn put_fault(out: &mut Vec<u8>, fault: &WordsFault) -> Result<(), NoMemory> {
    match fault {
        WordsFault::NoVariable(name) => {
            put(out, b"no variable ")?;
            put(out, name.as_slice())
        }
        WordsFault::BadValue(name) => {
            put(out, b"bad value for ")?;
            put(out, name.as_slice())
        }
        WordsFault::NoMemory => put(out, b"no memory"),
    }
}

fn put_given(out: &mut Vec<u8>, given: Result<Preset, WordsFault>) -> Result<(), NoMemory> {
    match given {
        Ok(preset) => put_preset(out, &preset),
        Err(fault) => put_fault(out, &fault),
    }
}

fn put_words(
    alloc: Global,
    out: &mut Vec<u8>,
    globals: &mut Globals,
    words: &Texts,
) -> Result<(), NoMemory> {
    declare_all(alloc, globals)?;
    put_given(out, read_settings(alloc, globals, words))
}

fn give(alloc: Global, out: &mut Vec<u8>, words: &[&[u8]]) -> Result<(), NoMemory> {
    let words = texts(alloc, words)?;
    put_words(alloc, out, &mut Globals::new(alloc), &words)
}

/// What words give, as it is written above.
fn given(alloc: Global, words: &[&[u8]]) -> Result<ByteText, NoMemory> {
    let mut out = Vec::new(alloc);
    give(alloc, &mut out, words)?;
    Ok(Listed::from_vec(out))
}

#[test]
fn words_set_globals(rt: HostRuntime) -> Result<(), Fail> {
    for (words, wanted) in &WORDS {
        assert_eq!(rt; given(rt.alloc(), words)?.as_slice(), *wanted);
    }
    Ok(())
}
