//! The values that words give.
ghost use Rattle.std.specs.Prelude.{◌≡◌, ◌≤◌, IfOk, IfSome, length, map, not};
ghost use Rattle.std.specs.List.{prefix_len};
ghost use Rattle.std.specs.Option.{option_map};
ghost use Rattle.bds_lib.specs.Numbers.{number_of};
ghost use Rattle.bds_check_words.specs.WordSettings.{is_dashed, number_behind, text_behind, text_list, truth_behind, value_behind, words_before_dash};

use crate::kinds::Kind;
use crate::names::is_dashed;
use bds_lib::{LibFault, call};
use bds_value::method_numbers::PARSE_INT;
use bds_value::sharing::list_of;
use bds_value::{ByteText, Items, Listed, NoMemory, Ty, Value, copy_text};
use std::alloc::Global;

/// `true` or `false`, where that is the next word.
fn truth_behind(words: &[ByteText]) -> (Value, usize)
    ensures value { result ≡ truth_behind words.now }
    ensures within { result.1 ≤ length words.now }
{
    let [word, ..] = words else {
        return (Value::Bool(true), 0);
    };
    let word = word.as_slice();
    if word == b"true".as_slice() {
        return (Value::Bool(true), 1);
    }
    if word == b"false".as_slice() {
        return (Value::Bool(false), 1);
    }
    (Value::Bool(true), 0)
}

/// What the method `parseInt` gives of a text.
fn number_in(alloc: Global, text: ByteText) -> Result<Option<Value>, NoMemory>
    ensures { IfOk result (λ v. v ≡ option_map Value.Int (number_of text)) }
{
    match call(alloc, PARSE_INT, &Value::Text(text), &Listed::new(alloc)) {
        Ok(number) => Ok(Some(number)),
        Err(LibFault::NoMemory) => Err(NoMemory),
        Err(LibFault::NotANumber(_) | LibFault::NoIndex(_, _) | LibFault::TooLong(_)) => Ok(None),
    }
}

fn number_behind(alloc: Global, words: &[ByteText]) -> Result<Option<(Value, usize)>, NoMemory>
    ensures value { IfOk result (λ v. v ≡ number_behind words.now) }
    ensures within { IfOk result (λ v. IfSome v (λ x. x.1 ≤ length words.now)) }
{
    let [word, ..] = words else {
        return Ok(None);
    };
    match number_in(alloc, copy_text(alloc, word)?)? {
        Some(number) => Ok(Some((number, 1))),
        None => Ok(None),
    }
}

fn text_behind(alloc: Global, words: &[ByteText]) -> Result<Option<(Value, usize)>, NoMemory>
    ensures value { IfOk result (λ v. v ≡ text_behind words.now) }
    ensures within { IfOk result (λ v. IfSome v (λ x. x.1 ≤ length words.now)) }
{
    match words {
        [word, ..] => Ok(Some((Value::Text(copy_text(alloc, word)?), 1))),
        [] => Ok(None),
    }
}

/// How many words stand before the next that begins with `-`.
fn count_before_dash(words: &[ByteText]) -> usize
    ensures value { result ≡ prefix_len (λ w. not (is_dashed w)) words.now }
    ensures within { result ≤ length words.now }
{
    for (i, word) in words.iter().enumerate() {
        if is_dashed(word.as_slice()) {
            return i;
        }
    }
    words.len()
}

fn text_items(alloc: Global, words: &[ByteText]) -> Result<Items, NoMemory>
    ensures { IfOk result (λ items. items ≡ map Value.Text words.now) }
{
    let mut items = Listed::new(alloc);
    for word in words {
        items.push(Value::Text(copy_text(alloc, word)?))?;
    }
    Ok(items)
}

/// All words up to the next that begins with `-`.
fn texts_behind(alloc: Global, words: &[ByteText]) -> Result<(Value, usize), NoMemory>
    ensures value { IfOk result (λ v. v ≡ text_list (words_before_dash words.now)) }
    ensures within { IfOk result (λ v. v.1 ≤ length words.now) }
{
    let count = count_before_dash(words);
    let items = text_items(alloc, words.split_at(count).0)?;
    Ok((list_of(alloc, Ty::Text, items)?, count))
}

/// The value that words give a global, and how many of them it takes; none where it is missing or
/// can't be read.
pub fn value_behind(
    alloc: Global,
    kind: Kind,
    words: &[ByteText],
) -> Result<Option<(Value, usize)>, NoMemory>
    ensures value { IfOk result (λ v. v ≡ value_behind kind words.now) }
    ensures within { IfOk result (λ v. IfSome v (λ x. x.1 ≤ length words.now)) }
{
    match kind {
        Kind::Truth => Ok(Some(truth_behind(words))),
        Kind::Number => number_behind(alloc, words),
        Kind::Text => text_behind(alloc, words),
        Kind::Texts => Ok(Some(texts_behind(alloc, words)?)),
    }
}
