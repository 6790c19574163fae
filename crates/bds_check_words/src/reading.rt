//! The words behind a script, read from left to right.
ghost use Rattle.std.specs.Prelude.{◌≡◌, ◌≤◌, IfOk, length};
ghost use Rattle.bds_check_words.specs.Answers.{GivesWords, OrNoMemory, PutsWord, PutsWords, PutsSetting};
ghost use Rattle.bds_check_words.specs.WordSettings.{setting, words_give};

use crate::faults::WordsFault;
use crate::kinds::kind_named;
use crate::names::name_in;
use crate::values::value_behind;
use bds_check_names::Globals;
use bds_check_typing::{Given, Settings};
use bds_value::{ByteText, Listed, NoMemory, Texts, Value, copy_text};
use std::alloc::Global;

/// What words set: values of globals in the order of the words, and the items of `args`.
#[derive(Drop)]
pub struct Preset {
    pub settings: Settings,
    pub args: Texts,
}

fn text_of(alloc: Global, bytes: &[u8]) -> Result<ByteText, NoMemory>
    ensures { IfOk result (λ text. text ≡ bytes.now) }
{
    match Vec::from_slice(alloc, bytes) {
        Ok(bytes) => Ok(Listed::from_vec(bytes)),
        Err(_) => Err(NoMemory),
    }
}

/// The value that words give the global of a name, and how many of them it takes.
fn setting(
    alloc: Global,
    globals: &Globals,
    name: &ByteText,
    words: &[ByteText],
) -> Result<(Value, usize), WordsFault>
    ensures value { OrNoMemory (setting globals.now name.now words.now) result }
    ensures within { IfOk result (λ v. v.1 ≤ length words.now) }
{
    let Some(kind) = kind_named(globals, name) else {
        return Err(WordsFault::NoVariable(copy_text(alloc, name)?));
    };
    match value_behind(alloc, kind, words)? {
        Some(value) => Ok(value),
        None => Err(WordsFault::BadValue(copy_text(alloc, name)?)),
    }
}

/// Puts the setting of a name at the end, and says how many words it takes.
fn put_setting(
    alloc: Global,
    globals: &Globals,
    preset: &mut Preset,
    name: ByteText,
    words: &[ByteText],
) -> Result<usize, WordsFault>
    ensures { PutsSetting globals.now name words.now preset.old preset.new result }
{
    let (value, count) = setting(alloc, globals, &name, words)?;
    preset.settings.push(Given { name, value })?;
    Ok(count)
}

/// Puts what a word sets at the end, or the word itself, and says how many words behind it that takes.
fn put_word(
    alloc: Global,
    globals: &Globals,
    preset: &mut Preset,
    word: &ByteText,
    behind: &[ByteText],
) -> Result<usize, WordsFault>
    ensures { PutsWord globals.now word.now behind.now preset.old preset.new result }
{
    match name_in(word.as_slice()) {
        Some(name) => put_setting(alloc, globals, preset, text_of(alloc, name)?, behind),
        None => {
            preset.args.push(copy_text(alloc, word)?)?;
            Ok(0)
        }
    }
}

fn put_words(
    alloc: Global,
    globals: &Globals,
    preset: &mut Preset,
    words: &[ByteText],
) -> Result<(), WordsFault>
    ensures { PutsWords globals.now words.now preset.old preset.new result }
{
    let mut rest = words;
    while let [word, behind @ ..] = rest {
        let taken = put_word(alloc, globals, preset, word, behind)?;
        rest = behind.split_at(taken).1;
    }
    Ok(())
}

/// What the words behind a script set that has these globals, or the first fault of a word.
pub fn read_settings(alloc: Global, globals: &Globals, words: &Texts) -> Result<Preset, WordsFault>
    ensures { GivesWords (words_give globals.now words.now) result }
{
    let mut preset = Preset {
        settings: Listed::new(alloc),
        args: Listed::new(alloc),
    };
    match put_words(alloc, globals, &mut preset, words.as_slice()) {
        Ok(()) => Ok(preset),
        Err(fault) => Err(fault),
    }
}
