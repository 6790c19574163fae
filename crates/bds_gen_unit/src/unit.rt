//! The unit of a typed script.
ghost use Rattle.std.specs.Prelude.{◌≡◌, ◌≤◌, ◌++◌, ◌∷◌, [], true, OnOk, IfOk, map, reverse};
ghost use Rattle.bds_value.specs.declared.TheConstants.{MAX_CODE};
ghost use Rattle.bds_tree.specs.StmtView.{part_of};
ghost use Rattle.bds_check_typing.specs.GivenValues.{set_by};
ghost use Rattle.bds_gen_stmt.specs.UnitCode.{unit_of};
ghost use Rattle.bds_gen_stmt_code.specs.Bodies.{with_function};
ghost use Rattle.bds_gen_unit.specs.Begun.{AreParts, begins};
ghost use Rattle.bds_gen_unit.specs.Tops.{CodeWritten};
ghost use Rattle.bds_gen_unit.specs.Generated.{IsGenerated, size_for, unit_for};
ghost use Rattle.bds_verify.specs.Verified.{VerifiedUnit};

use crate::functions::{take_function, write_functions};
use crate::names::{copy_texts, first_par, first_scope, global_types};
use crate::top::write_tops;
use crate::values::write_args;
use bds_check::{Given, Typed};
use bds_code::{Functions, Unit};
use bds_gen_size::program_size;
use bds_gen_stmt::units_are_verified;
use bds_gen_stmt_code::{Body, Unfinished, begin_function, write_ending};
use bds_tree::Part;
use bds_value::{At, ByteText, Listed, MAX_CODE, NoMemory, Texts, Ty, Types};
use bds_verify::Verified;
use std::alloc::Global;
use std::mem;

/// Why a script has no unit.
#[derive(Clone, Copy, Debug, PartialEq, Eq)]
pub enum GenFault {
    /// Its unit would have more instructions than a unit may have.
    TooBig,
    NoMemory,
}

impl From<NoMemory> for GenFault {
    ghost use Rattle.std.specs.Prelude.{◌≡◌};
    ghost use Rattle.bds_gen_unit.specs.declared.unit.GenFault.TheVariants.{NoMemory};

    ghost from_gives = { λ _ e. e ≡ NoMemory };

    fn from(_fault: NoMemory) -> GenFault {
        GenFault::NoMemory
    }
}

/// Before anything is written.
fn begin(alloc: Global, parts: &[Part]) -> Result<Unfinished, NoMemory>
    ensures { IfOk result (λ u. u ≡ begins (map part_of parts.now)) }
{
    let function = begin_function(alloc, Listed::new(alloc), Listed::new(alloc), Ty::Void)?;
    let scope = first_scope(alloc, parts)?;
    let first = first_par(parts)?;
    Ok(Unfinished {
        body: Body {
            function,
            scope,
            first: 0,
            at_top: true,
            leaps: Listed::new(alloc),
        },
        finished: Listed::new(alloc),
        first,
    })
}

/// Functions in the other order.
fn turned(alloc: Global, functions: Functions) -> Result<Functions, NoMemory>
    ensures { IfOk result (λ fs. fs ≡ reverse functions) }
{
    let mut left = functions;
    let mut turned = Listed::new(alloc);
    while let Some(function) = left.pop() {
        turned.push(function)?;
    }
    Ok(turned)
}

/// Moves functions behind others.
fn append(alloc: Global, functions: &mut Functions, more: Functions) -> Result<(), NoMemory>
    ensures { OnOk result (functions.new ≡ functions.old ++ more) }
{
    let mut left = turned(alloc, more)?;
    while let Some(function) = left.pop() {
        functions.push(function)?;
    }
    Ok(())
}

/// The code of the top level, with what words set.
fn write_code(
    alloc: Global,
    unit: &mut Unfinished,
    at: At,
    parts: &[Part],
    settings: &[Given],
    args: &[ByteText],
) -> Result<(), NoMemory>
    requires { unit.old.body.at_top ≡ true }
    ensures { OnOk result (CodeWritten (set_by settings.now) args.now at (map part_of parts.now) unit.old unit.new) }
{
    write_args(alloc, &mut unit.body.function, at, args)?;
    write_tops(alloc, unit, parts, settings)?;
    write_ending(alloc, &mut unit.body.function, at)
}

/// Puts the function that is written behind others.
fn push_top(alloc: Global, unit: &mut Unfinished, functions: &mut Functions) -> Result<(), NoMemory>
    ensures functions { OnOk result (functions.new ≡ functions.old ++ unit.old.body.function ∷ []) }
    ensures others { OnOk result (unit.new ≡ with_function unit.old unit.new.body.function) }
{
    let top = take_function(alloc, unit)?;
    functions.push(top)?;
    Ok(())
}

/// Puts the functions of a script, with what words set, behind none. Gives the types of its globals.
fn fill(
    alloc: Global,
    unit: &mut Unfinished,
    functions: &mut Functions,
    at: At,
    parts: &[Part],
    settings: &[Given],
    args: &[ByteText],
) -> Result<Types, NoMemory>
    requires none { functions.old ≡ [] }
    requires begun { unit.old ≡ begins (map part_of parts.now) }
    ensures { IfOk result (λ globals. AreParts (set_by settings.now) args.now at (map part_of parts.now) globals functions.new) }
{
    write_code(alloc, unit, at, parts, settings, args)?;
    push_top(alloc, unit, functions)?;
    write_functions(alloc, unit, parts, functions)?;
    let finished = mem::replace(&mut unit.finished, Listed::new(alloc));
    append(alloc, functions, finished)?;
    global_types(alloc, unit.body.scope.globals.as_slice())
}

/// The unit of files with the parts of a script, with what words set.
fn write_begun(
    alloc: Global,
    files: Texts,
    unit: Unfinished,
    at: At,
    parts: &[Part],
    settings: &[Given],
    args: &[ByteText],
) -> Result<Unit, NoMemory>
    requires { unit ≡ begins (map part_of parts.now) }
    ensures { IfOk result (λ u. u ≡ unit_of (set_by settings.now) args.now (record { at = at; files = files; parts = map part_of parts.now })) }
{
    let mut unit = unit;
    let mut functions = Listed::new(alloc);
    match fill(alloc, &mut unit, &mut functions, at, parts, settings, args) {
        Ok(globals) => Ok(Unit {
            files,
            globals,
            functions,
        }),
        Err(NoMemory) => Err(NoMemory),
    }
}

/// The unit of the parts of a script, with what words set.
fn write_parts(
    alloc: Global,
    at: At,
    files: &[ByteText],
    parts: &[Part],
    settings: &[Given],
    args: &[ByteText],
) -> Result<Unit, NoMemory>
    ensures { IfOk result (λ u. u ≡ unit_of (set_by settings.now) args.now (record { at = at; files = files.now; parts = map part_of parts.now })) }
{
    let unit = begin(alloc, parts)?;
    match copy_texts(alloc, files) {
        Ok(files) => write_begun(alloc, files, unit, at, parts, settings, args),
        Err(NoMemory) => Err(NoMemory),
    }
}

/// The unit of a script that isn't too large.
fn write_unit(alloc: Global, typed: &Typed) -> Result<Unit, NoMemory>
    ensures { IfOk result (λ u. u ≡ unit_for typed.now) }
{
    let script = typed.script();
    let files = script.files.as_slice();
    let parts = script.parts.as_slice();
    let settings = typed.settings().as_slice();
    let args = typed.args().as_slice();
    write_parts(alloc, script.at, files, parts, settings, args)
}

/// The unit that isn't too large is verified.
fn unit_is_verified(typed: &Typed)
    requires { size_for typed.now ≤ MAX_CODE }
    ensures { VerifiedUnit (unit_for typed.now) }
{
    typed.is_typed();
    units_are_verified();
}

/// The unit of a typed script with what words set, which is verified; TooBig exactly where it would have more than `MAX_CODE`
/// instructions, before any is made.
pub fn generate(alloc: Global, typed: &Typed) -> Result<Unit, GenFault>
    ensures unit { IsGenerated result typed.now }
    ensures verified { IfOk result (λ unit. VerifiedUnit unit) }
{
    let size = program_size(alloc, typed)?;
    if size > MAX_CODE {
        return Err(GenFault::TooBig);
    }
    let unit = write_unit(alloc, typed)?;
    unit_is_verified(typed);
    Ok(unit)
}

/// The same, verified by that proof: no pass is made over it.
pub fn generate_verified(alloc: Global, typed: &Typed) -> Result<Verified, GenFault>
    ensures { IsGenerated result typed.now }
{
    let unit = generate(alloc, typed)?;
    Ok(Verified::proved(alloc, unit))
}
