//! Lists of texts and of types, each behind its number of items.
ghost use Rattle.std.specs.Prelude.{◌≡◌, ◌++◌, ◌≤◌, OnOk, OnErr, length};
ghost use Rattle.std.specs.List.{flat_map, All};
ghost use Rattle.bds_value.specs.Fields.{AreFieldTexts, AreFieldTypes};
ghost use Rattle.bds_value.specs.Keeping.{Keeps};
ghost use Rattle.bds_value.specs.Reading.{Reads, many, text_at, ty_at, texts_at, types_at};
ghost use Rattle.bds_value.specs.Spelling.{text_field, ty_field, texts_field, types_field};
ghost use Rattle.bds_value.specs.declared.TheConstants.{MAX_COUNT, MAX_TEXT};

use crate::MAX_COUNT;
use crate::faults::FieldFault;
use crate::fields::numbers::{put_count, read_count};
use crate::fields::reading::{read_text, read_ty};
use crate::fields::writing::{put_text_field, put_ty};
use crate::listed::{Listed, NoMemory};
use crate::text::cut_back;
use crate::value::{ByteText, Input, Texts, Ty, Types};
use std::alloc::Global;

/// Reads texts behind their number.
pub fn read_texts(alloc: Global, input: &mut Input) -> Result<Texts, FieldFault>
    ensures read { Reads (texts_at input.old) input.new result }
    ensures kept { input.new.bytes ≡ input.old.bytes }
{
    let count = read_count(input, MAX_COUNT)?;
    read_counted_texts(alloc, input, count)
}

fn read_counted_texts(alloc: Global, input: &mut Input, count: u32) -> Result<Texts, FieldFault>
    ensures read { Reads (many text_at count input.old) input.new result }
    ensures kept { input.new.bytes ≡ input.old.bytes }
{
    let mut texts = Listed::new(alloc);
    for _ in 0..count {
        texts.push(read_text(alloc, input)?)?;
    }
    Ok(texts)
}

/// Reads types behind their number.
pub fn read_types(alloc: Global, input: &mut Input) -> Result<Types, FieldFault>
    ensures read { Reads (types_at input.old) input.new result }
    ensures kept { input.new.bytes ≡ input.old.bytes }
{
    let count = read_count(input, MAX_COUNT)?;
    read_counted_types(alloc, input, count)
}

fn read_counted_types(alloc: Global, input: &mut Input, count: u32) -> Result<Types, FieldFault>
    ensures read { Reads (many ty_at count input.old) input.new result }
    ensures kept { input.new.bytes ≡ input.old.bytes }
{
    let mut types = Listed::new(alloc);
    for _ in 0..count {
        types.push(read_ty(alloc, input)?)?;
    }
    Ok(types)
}

/// Puts texts at the end, behind their number. A refused call leaves `out` as it was.
pub fn put_texts(out: &mut Vec<u8>, texts: &[ByteText]) -> Result<(), NoMemory>
    requires { AreFieldTexts texts.now }
    ensures ok { OnOk result (out.new.items ≡ out.old.items ++ texts_field texts.now) }
    ensures err { OnErr result (out.new.items ≡ out.old.items) }
{
    let length = out.len();
    let put = put_counted_texts(out, texts);
    cut_back(out, length, put)
}

#[tactic(auto, using(crate::proofs::KeepLaws::keep_rules))]
fn put_counted_texts(out: &mut Vec<u8>, texts: &[ByteText]) -> Result<(), NoMemory>
    requires { AreFieldTexts texts.now }
    ensures ok { OnOk result (out.new.items ≡ out.old.items ++ texts_field texts.now) }
    ensures err { OnErr result (Keeps out.old.items out.new.items) }
{
    put_count(out, texts.len())?;
    put_each_text(out, texts)
}

#[tactic(auto, using(crate::proofs::KeepLaws::keep_rules))]
fn put_each_text(out: &mut Vec<u8>, texts: &[ByteText]) -> Result<(), NoMemory>
    requires { All (λ t. length t ≤ MAX_TEXT) texts.now }
    ensures ok { OnOk result (out.new.items ≡ out.old.items ++ flat_map text_field texts.now) }
    ensures err { OnErr result (Keeps out.old.items out.new.items) }
{
    for text in texts {
        put_text_field(out, text.as_slice())?;
    }
    Ok(())
}

/// Puts types at the end, behind their number. A refused call leaves `out` as it was.
pub fn put_types(out: &mut Vec<u8>, types: &[Ty]) -> Result<(), NoMemory>
    requires { length types.now ≤ MAX_COUNT }
    ensures ok { OnOk result (out.new.items ≡ out.old.items ++ types_field types.now) }
    ensures err { OnErr result (out.new.items ≡ out.old.items) }
{
    let length = out.len();
    let put = put_counted_types(out, types);
    cut_back(out, length, put)
}

#[tactic(auto, using(crate::proofs::KeepLaws::keep_rules))]
fn put_counted_types(out: &mut Vec<u8>, types: &[Ty]) -> Result<(), NoMemory>
    requires { length types.now ≤ MAX_COUNT }
    ensures ok { OnOk result (out.new.items ≡ out.old.items ++ types_field types.now) }
    ensures err { OnErr result (Keeps out.old.items out.new.items) }
{
    put_count(out, types.len())?;
    put_each_ty(out, types)
}

#[tactic(auto, using(crate::proofs::KeepLaws::keep_rules))]
fn put_each_ty(out: &mut Vec<u8>, types: &[Ty]) -> Result<(), NoMemory>
    ensures ok { OnOk result (out.new.items ≡ out.old.items ++ flat_map ty_field types.now) }
    ensures err { OnErr result (Keeps out.old.items out.new.items) }
{
    for ty in types {
        put_ty(out, ty)?;
    }
    Ok(())
}
