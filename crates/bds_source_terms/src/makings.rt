//! What calls, literals and prefixes make of their operands.
ghost use Rattle.std.specs.Prelude.{◌≡◌, IfOk};
ghost use Rattle.bds_value.specs.Methods.{signature_of};
ghost use Rattle.bds_value.specs.Types.{list_item, map_item};
ghost use Rattle.bds_tree.specs.Tree.{type_of};
ghost use Rattle.bds_tree.specs.View.{tree_of, trees_of};
ghost use Rattle.bds_check_names.specs.Types.{or_void};
ghost use Rattle.bds_meaning.specs.OpeningExpressions as expressions;
ghost use Rattle.bds_meaning.specs.OpeningTexts as texts;
ghost use Rattle.bds_meaning.specs.Term as meaning;
ghost use Rattle.bds_source_terms.specs.View.{term_of};

use crate::parts::{computed, let_go, one};
use crate::term::{Computation, Term};
use bds_check_names::{list_part, map_part};
use bds_tree::{Expr, PrefixOp};
use bds_value::{At, Boxed, ByteText, Method, NoMemory, Ty, copy_text, signature};
use std::alloc::Global;

pub fn call(alloc: Global, name: &ByteText, at: At, operands: Term) -> Result<Term, NoMemory>
    ensures { IfOk result (λ t. term_of t ≡ meaning.Call name.now at (term_of operands)) }
{
    match copy_text(alloc, name) {
        Ok(name) => match Boxed::of(alloc, operands) {
            Ok(operands) => Ok(Term::Call(name, at, operands)),
            Err(fault) => Err(fault),
        },
        Err(fault) => {
            let_go(operands);
            Err(fault)
        }
    }
}

/// A list of this type.
pub fn list_made(alloc: Global, ty: &Ty, at: At, operands: Term) -> Result<Term, NoMemory>
    ensures { IfOk result (λ t. term_of t ≡ meaning.Compute (meaning.ListMade (or_void (list_item ty.now))) at (term_of operands)) }
{
    match list_part(alloc, ty) {
        Ok(item) => computed(alloc, Computation::ListMade(item), at, operands),
        Err(fault) => {
            let_go(operands);
            Err(fault)
        }
    }
}

/// A map of this type.
pub fn map_made(alloc: Global, ty: &Ty, at: At, operands: Term) -> Result<Term, NoMemory>
    ensures { IfOk result (λ t. term_of t ≡ meaning.Compute (meaning.MapMade (or_void (map_item ty.now))) at (term_of operands)) }
{
    match map_part(alloc, ty) {
        Ok(value) => computed(alloc, Computation::MapMade(value), at, operands),
        Err(fault) => {
            let_go(operands);
            Err(fault)
        }
    }
}

pub fn prefixed(alloc: Global, op: PrefixOp, at: At, operand: Term) -> Result<Term, NoMemory>
    ensures { IfOk result (λ t. term_of t ≡ meaning.Compute (meaning.Prefixed op) at (texts.one (term_of operand))) }
{
    match one(alloc, operand) {
        Ok(operand) => computed(alloc, Computation::Prefixed(op), at, operand),
        Err(fault) => Err(fault),
    }
}

/// The method of a receiver.
pub fn method_of(receiver: &Expr, name: &ByteText, arguments: &[Expr]) -> Option<Method>
    ensures { result ≡ signature_of (type_of (tree_of receiver.now)) name.now (expressions.count (trees_of arguments.now)) }
{
    signature(&receiver.ty, name, arguments.len() as u64)
}
