//! The term in which the main thread of a typed script opens.
ghost use Rattle.std.specs.Prelude.{◌≡◌, ◌∷◌, IfOk, List, map};
ghost use Rattle.bds_value.specs.declared.value.Value.TheVariants as value;
ghost use Rattle.bds_tree.specs.StmtTree.{PartTree, a_statement};
ghost use Rattle.bds_tree.specs.StmtView.{part_of, script_of, stmt_of};
ghost use Rattle.bds_check_typing.specs.GivenValues.{set_by};
ghost use Rattle.bds_check_typing.specs.WellTypedScripts as scripts;
ghost use Rattle.bds_meaning.specs.Opening as opening;
ghost use Rattle.bds_meaning.specs.Term as meaning;
ghost use Rattle.bds_schedule.specs.Values.{of_texts};
ghost use Rattle.bds_meaning.specs.Variables as variables;
ghost use Rattle.bds_source_terms.specs.View.{term_of, then_of};

use crate::statements::stmt_term;
use bds_check::{Typed, first_names};
use bds_check_names::{Names, top};
use bds_check_typing::Given;
use bds_source_lines::go_behind_top;
use bds_source_parts::{followed, sequence};
use bds_source_terms::{Scope, Term, Terms, let_go};
use bds_tree::{Part, Script, Stmt};
use bds_value::sharing::list_of;
use bds_value::{Boxed, ByteText, Items, Listed, NoMemory, Ty, Value, copy_text};
use std::alloc::Global;

/// A statement at the top level, behind others; its names are in force behind it.
fn put_stmt(
    alloc: Global,
    settings: &[Given],
    names: &mut Names,
    stmt: &Stmt,
    terms: &mut Terms,
) -> Result<(), NoMemory>
    ensures { IfOk result (λ _. (ps : List PartTree) → then_of (map term_of terms.new) (opening.parts_term (set_by settings.now) names.new ps) ≡ then_of (map term_of terms.old) (opening.parts_term (set_by settings.now) names.old (a_statement (stmt_of stmt.now) ∷ ps))) }
{
    let site = top();
    match stmt_term(alloc, settings, names, &site, stmt) {
        Ok(term) => match terms.push(term) {
            Ok(()) => go_behind_top(alloc, names, stmt),
            Err(fault) => Err(fault),
        },
        Err(fault) => Err(fault),
    }
}

fn put_part(
    alloc: Global,
    settings: &[Given],
    names: &mut Names,
    part: &Part,
    terms: &mut Terms,
) -> Result<(), NoMemory>
    ensures { IfOk result (λ _. (ps : List PartTree) → then_of (map term_of terms.new) (opening.parts_term (set_by settings.now) names.new ps) ≡ then_of (map term_of terms.old) (opening.parts_term (set_by settings.now) names.old (part_of part.now ∷ ps))) }
{
    match part {
        Part::Function(_) => Ok(()),
        Part::Include(_) => Ok(()),
        Part::Stmt(stmt) => put_stmt(alloc, settings, names, stmt, terms),
    }
}

/// The statements of the top level, each under the names that those before it put in force.
fn put_parts(
    alloc: Global,
    settings: &[Given],
    names: &mut Names,
    parts: &[Part],
    terms: &mut Terms,
) -> Result<(), NoMemory>
    ensures { IfOk result (λ _. then_of (map term_of terms.new) meaning.Nothing ≡ then_of (map term_of terms.old) (opening.parts_term (set_by settings.now) names.old (map part_of parts.now))) }
{
    for part in parts {
        put_part(alloc, settings, names, part, terms)?;
    }
    Ok(())
}

fn put_all(
    alloc: Global,
    settings: &[Given],
    parts: &[Part],
    terms: &mut Terms,
) -> Result<(), NoMemory>
    ensures { IfOk result (λ _. then_of (map term_of terms.new) meaning.Nothing ≡ then_of (map term_of terms.old) (opening.parts_term (set_by settings.now) (scripts.first_names (map part_of parts.now)) (map part_of parts.now))) }
{
    match first_names(alloc, parts, false) {
        Ok(mut names) => put_parts(alloc, settings, &mut names, parts, terms),
        Err(fault) => Err(fault),
    }
}

/// The statements of the top level.
fn parts_term(alloc: Global, settings: &[Given], parts: &[Part]) -> Result<Term, NoMemory>
    ensures { IfOk result (λ t. term_of t ≡ opening.parts_term (set_by settings.now) (scripts.first_names (map part_of parts.now)) (map part_of parts.now)) }
{
    let mut terms = Listed::new(alloc);
    match put_all(alloc, settings, parts, &mut terms) {
        Ok(()) => sequence(alloc, terms),
        Err(fault) => Err(fault),
    }
}

/// The items of `args`.
fn items_of(alloc: Global, args: &[ByteText]) -> Result<Items, NoMemory>
    ensures { IfOk result (λ items. items ≡ map value.Text args.now) }
{
    let mut items = Listed::new(alloc);
    for arg in args {
        items.push(Value::Text(copy_text(alloc, arg)?))?;
    }
    Ok(items)
}

fn args_name(alloc: Global) -> Result<ByteText, NoMemory>
    ensures { IfOk result (λ x. x ≡ opening.args_name) }
{
    let mut name = Listed::new(alloc);
    name.append(b"args")?;
    Ok(name)
}

/// The declaration of `args`.
fn args_term(alloc: Global, args: &[ByteText]) -> Result<Term, NoMemory>
    ensures { IfOk result (λ t. term_of t ≡ meaning.Declare variables.global opening.args_name (meaning.Constant (of_texts args.now))) }
{
    let name = args_name(alloc)?;
    match args_value(alloc, args) {
        Ok(value) => match Boxed::of(alloc, Term::Constant(value)) {
            Ok(value) => Ok(Term::Declare(Scope::Global, name, value)),
            Err(fault) => Err(fault),
        },
        Err(fault) => Err(fault),
    }
}

/// The value of `args`.
fn args_value(alloc: Global, args: &[ByteText]) -> Result<Value, NoMemory>
    ensures { IfOk result (λ v. v ≡ of_texts args.now) }
{
    let items = items_of(alloc, args)?;
    list_of(alloc, Ty::Text, items)
}

/// The term in which the main thread opens.
fn script_term(
    alloc: Global,
    settings: &[Given],
    args: &[ByteText],
    script: &Script,
) -> Result<Term, NoMemory>
    ensures { IfOk result (λ t. term_of t ≡ opening.source_term (set_by settings.now) args.now (script_of script.now)) }
{
    match parts_term(alloc, settings, script.parts.as_slice()) {
        Ok(rest) => match args_term(alloc, args) {
            Ok(args) => followed(alloc, args, rest),
            Err(fault) => {
                let_go(rest);
                Err(fault)
            }
        },
        Err(fault) => Err(fault),
    }
}

/// The term in which the main thread of a typed script opens, with what its words set, as the meaning
/// opens it. Only want of memory refuses it.
pub fn source_of(alloc: Global, typed: &Typed) -> Result<Term, NoMemory>
    ensures { IfOk result (λ t. term_of t ≡ opening.source_term (set_by typed.now.settings) typed.now.args (script_of typed.now.script)) }
{
    script_term(
        alloc,
        typed.settings().as_slice(),
        typed.args().as_slice(),
        typed.script(),
    )
}
