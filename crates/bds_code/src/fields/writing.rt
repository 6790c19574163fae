//! Units written as fields.
ghost use Rattle.std.specs.Prelude.{◌≡◌, ◌++◌, ◌≤◌, OnOk, OnErr, length};
ghost use Rattle.std.specs.List.{flat_map, All};
ghost use Rattle.bds_value.specs.declared.TheConstants.{MAX_COUNT, MAX_CODE};
ghost use Rattle.bds_value.specs.Spelling.{bool_field, u32_field, ty_field, types_field, list_field};
ghost use Rattle.bds_code.specs.UnitFields.{IsFieldInstr, IsFieldLabel, IsFieldFunction, IsFieldUnit};
ghost use Rattle.bds_code.specs.UnitSpelling.{tag, numbers_field, instr_field, label_field, line_field, head_field, body_field, function_field, unit_field};

use crate::instr::Instr;
use crate::shape::Shape;
use crate::unit::{Function, Unit};
use bds_value::{
    At, ByteText, NoMemory, Ty, put_bool, put_count, put_i64, put_text_field, put_texts, put_ty,
    put_types, put_u8, put_u16, put_u32,
};
use std::alloc::Global;

/// The tag of an instruction.
fn tag(instr: &Instr) -> u8
    ensures { result ≡ tag instr.now }
{
    match instr {
        Instr::PushBool(_) => 0,
        Instr::PushInt(_) => 1,
        Instr::PushText(_) => 2,
        Instr::PushDefault(_) => 3,
        Instr::Load(_) => 4,
        Instr::Store(_) => 5,
        Instr::LoadGlobal(_) => 6,
        Instr::StoreGlobal(_) => 7,
        Instr::Drop => 8,
        Instr::Add => 9,
        Instr::Sub => 10,
        Instr::Mul => 11,
        Instr::Div => 12,
        Instr::Rem => 13,
        Instr::Neg => 14,
        Instr::Not => 15,
        Instr::Show => 16,
        Instr::Blank => 17,
        Instr::Concat => 18,
        Instr::ListAdd => 19,
        Instr::ListCat => 20,
        Instr::Equal => 21,
        Instr::NotEqual => 22,
        Instr::Less => 23,
        Instr::LessEqual => 24,
        Instr::Greater => 25,
        Instr::GreaterEqual => 26,
        Instr::MakeList(..) => 27,
        Instr::MakeMap(..) => 28,
        Instr::Item => 29,
        Instr::Key => 30,
        Instr::Update(..) => 31,
        Instr::Jump(_) => 32,
        Instr::JumpUnless(_) => 33,
        Instr::Tick => 34,
        Instr::Call(_) => 35,
        Instr::Return => 36,
        Instr::Method(_) => 37,
        Instr::FileRead => 38,
        Instr::FileWrite => 39,
        Instr::FileRemove => 40,
        Instr::FileStamp(_) => 41,
        Instr::Out => 42,
        Instr::Stop => 43,
        Instr::Exit => 44,
        Instr::Sys => 45,
        Instr::OutOfDate => 46,
        Instr::NewTask => 47,
        Instr::Declare => 48,
        Instr::Goal => 49,
        Instr::Spawn(_) => 50,
        Instr::Wait => 51,
        Instr::WaitAll => 52,
        Instr::Save => 53,
        Instr::SaveHere => 54,
    }
}

fn put_kinds(out: &mut Vec<u8>, kinds: &[bool]) -> Result<(), NoMemory>
    ensures { OnOk result (out.new.items ≡ out.old.items ++ flat_map bool_field kinds.now) }
{
    for kind in kinds {
        put_bool(out, *kind)?;
    }
    Ok(())
}

fn put_sized(out: &mut Vec<u8>, ty: &Ty, count: u32) -> Result<(), NoMemory>
    ensures { OnOk result (out.new.items ≡ out.old.items ++ (ty_field ty.now ++ u32_field count)) }
{
    put_ty(out, ty)?;
    put_u32(out, count)
}

/// Puts a counted list of steps.
fn put_path(out: &mut Vec<u8>, kinds: &[bool]) -> Result<(), NoMemory>
    requires { length kinds.now ≤ MAX_COUNT }
    ensures { OnOk result (out.new.items ≡ out.old.items ++ list_field bool_field kinds.now) }
{
    put_count(out, kinds.len())?;
    put_kinds(out, kinds)
}

/// Puts what stands behind the tag.
fn put_numbers(out: &mut Vec<u8>, instr: &Instr) -> Result<(), NoMemory>
    requires { IsFieldInstr instr.now }
    ensures { OnOk result (out.new.items ≡ out.old.items ++ numbers_field instr.now) }
{
    match instr {
        Instr::PushBool(b) => put_bool(out, *b),
        Instr::PushInt(n) => put_i64(out, *n),
        Instr::PushText(text) => put_text_field(out, text.as_slice()),
        Instr::PushDefault(ty) => put_ty(out, ty),
        Instr::Load(i) | Instr::Store(i) | Instr::LoadGlobal(i) | Instr::StoreGlobal(i) => {
            put_u16(out, *i)
        }
        Instr::MakeList(ty, n) | Instr::MakeMap(ty, n) => put_sized(out, ty, *n),
        Instr::Update(global, i, kinds, what) => {
            put_bool(out, *global)?;
            put_u16(out, *i)?;
            put_path(out, kinds.as_slice())?;
            put_u8(out, *what)
        }
        Instr::Jump(n) | Instr::JumpUnless(n) | Instr::Call(n) | Instr::Spawn(n) => put_u32(
            out, *n,
        ),
        Instr::Method(n) | Instr::FileStamp(n) => put_u8(out, *n),
        _ => Ok(()),
    }
}

fn put_instr(out: &mut Vec<u8>, instr: &Instr) -> Result<(), NoMemory>
    requires { IsFieldInstr instr.now }
    ensures { OnOk result (out.new.items ≡ out.old.items ++ instr_field instr.now) }
{
    put_u8(out, tag(instr))?;
    put_numbers(out, instr)
}

/// Puts a counted list of instructions.
fn put_code(out: &mut Vec<u8>, code: &[Instr]) -> Result<(), NoMemory>
    requires few { length code.now ≤ MAX_CODE }
    requires each { All IsFieldInstr code.now }
    ensures { OnOk result (out.new.items ≡ out.old.items ++ list_field instr_field code.now) }
{
    put_count(out, code.len())?;
    put_each_instr(out, code)
}

fn put_each_instr(out: &mut Vec<u8>, code: &[Instr]) -> Result<(), NoMemory>
    requires { All IsFieldInstr code.now }
    ensures { OnOk result (out.new.items ≡ out.old.items ++ flat_map instr_field code.now) }
{
    for instr in code {
        put_instr(out, instr)?;
    }
    Ok(())
}

fn put_label(out: &mut Vec<u8>, label: &(u32, Shape)) -> Result<(), NoMemory>
    requires { IsFieldLabel label.now }
    ensures { OnOk result (out.new.items ≡ out.old.items ++ label_field label.now) }
{
    put_u32(out, label.0)?;
    put_shape(out, &label.1)
}

/// Puts the types at a label behind their number.
fn put_shape(out: &mut Vec<u8>, shape: &Shape) -> Result<(), NoMemory>
    requires { length shape.now ≤ MAX_COUNT }
    ensures { OnOk result (out.new.items ≡ out.old.items ++ types_field shape.now) }
{
    put_count(out, shape.len())?;
    put_each_ty(out, shape)
}

fn put_each_ty(out: &mut Vec<u8>, shape: &Shape) -> Result<(), NoMemory>
    ensures { OnOk result (out.new.items ≡ out.old.items ++ flat_map ty_field shape.now) }
{
    for place in 0..shape.len() {
        put_ty(out, shape.at(place))?;
    }
    Ok(())
}

/// Puts a counted list of labels.
fn put_labels(out: &mut Vec<u8>, labels: &[(u32, Shape)]) -> Result<(), NoMemory>
    requires few { length labels.now ≤ MAX_COUNT }
    requires each { All IsFieldLabel labels.now }
    ensures { OnOk result (out.new.items ≡ out.old.items ++ list_field label_field labels.now) }
{
    put_count(out, labels.len())?;
    put_each_label(out, labels)
}

fn put_each_label(out: &mut Vec<u8>, labels: &[(u32, Shape)]) -> Result<(), NoMemory>
    requires { All IsFieldLabel labels.now }
    ensures { OnOk result (out.new.items ≡ out.old.items ++ flat_map label_field labels.now) }
{
    for label in labels {
        put_label(out, label)?;
    }
    Ok(())
}

fn put_lines(out: &mut Vec<u8>, lines: &[At]) -> Result<(), NoMemory>
    ensures { OnOk result (out.new.items ≡ out.old.items ++ flat_map line_field lines.now) }
{
    for at in lines {
        put_u32(out, at.file)?;
        put_u32(out, at.line)?;
    }
    Ok(())
}

/// Puts what stands before the code of a function.
fn put_head(out: &mut Vec<u8>, function: &Function) -> Result<(), NoMemory>
    requires { IsFieldFunction function.now }
    ensures { OnOk result (out.new.items ≡ out.old.items ++ head_field function.now) }
{
    put_text_field(out, function.name.as_slice())?;
    put_types(out, function.params.as_slice())?;
    put_types(out, function.locals.as_slice())?;
    put_ty(out, &function.ret)
}

/// Puts the code of a function, with its labels and lines.
fn put_body(out: &mut Vec<u8>, function: &Function) -> Result<(), NoMemory>
    requires { IsFieldFunction function.now }
    ensures { OnOk result (out.new.items ≡ out.old.items ++ body_field function.now) }
{
    put_code(out, function.code.as_slice())?;
    put_labels(out, function.labels.as_slice())?;
    put_lines(out, function.lines.as_slice())
}

fn put_function(out: &mut Vec<u8>, function: &Function) -> Result<(), NoMemory>
    requires { IsFieldFunction function.now }
    ensures { OnOk result (out.new.items ≡ out.old.items ++ function_field function.now) }
{
    put_head(out, function)?;
    put_body(out, function)
}

/// Puts a counted list of functions.
fn put_functions(out: &mut Vec<u8>, functions: &[Function]) -> Result<(), NoMemory>
    requires few { length functions.now ≤ MAX_COUNT }
    requires each { All IsFieldFunction functions.now }
    ensures { OnOk result (out.new.items ≡ out.old.items ++ list_field function_field functions.now) }
{
    put_count(out, functions.len())?;
    put_each_function(out, functions)
}

fn put_each_function(out: &mut Vec<u8>, functions: &[Function]) -> Result<(), NoMemory>
    requires { All IsFieldFunction functions.now }
    ensures { OnOk result (out.new.items ≡ out.old.items ++ flat_map function_field functions.now) }
{
    for function in functions {
        put_function(out, function)?;
    }
    Ok(())
}

/// Puts a unit at the end: its files, the types of its globals, and its functions. After a refusal
/// `out` is open.
pub fn put_unit(out: &mut Vec<u8>, unit: &Unit) -> Result<(), NoMemory>
    requires { IsFieldUnit unit.now }
    ensures { OnOk result (out.new.items ≡ out.old.items ++ unit_field unit.now) }
{
    put_texts(out, unit.files.as_slice())?;
    put_types(out, unit.globals.as_slice())?;
    put_functions(out, unit.functions.as_slice())
}

/// Writes a unit at the end: its files, the types of its globals, and its functions. A refused call
/// leaves `out` as it was.
pub fn write_unit(alloc: Global, out: &mut ByteText, unit: &Unit) -> Result<(), NoMemory>
    requires { IsFieldUnit unit.now }
    ensures ok { OnOk result (out.new ≡ out.old ++ unit_field unit.now) }
    ensures err { OnErr result (out.new ≡ out.old) }
{
    let mut field = Vec::new(alloc);
    put_unit(&mut field, unit)?;
    out.append(field.as_slice())
}
