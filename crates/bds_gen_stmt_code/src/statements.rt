//! The code of a statement, and of a block that is the body of a function.
ghost use Rattle.std.specs.Prelude.{◌≡◌, false, OnOk};
ghost use Rattle.bds_tree.specs.StmtView.{stmt_of, block_of};
ghost use Rattle.bds_gen_stmt_code.specs.Written.{StmtWritten, BlockWritten};

use crate::body::Unfinished;
use crate::stmts::{write_block, write_stmt};
use bds_tree::{Block, Stmt};
use bds_value::NoMemory;
use std::alloc::Global;

/// Puts the code of a statement behind what the function has, and finishes the functions of the `par`
/// blocks in it. After a refused call nothing is said of the unit.
pub fn gen_stmt(alloc: Global, unit: &mut Unfinished, stmt: &Stmt) -> Result<(), NoMemory>
    ensures { OnOk result (StmtWritten (stmt_of stmt.now) unit.old unit.new) }
{
    write_stmt(alloc, unit, stmt)
}

/// Puts the code of a block behind what the function has, and finishes the functions of the `par`
/// blocks in it. After a refused call nothing is said of the unit.
pub fn gen_block(alloc: Global, unit: &mut Unfinished, block: &Block) -> Result<(), NoMemory>
    requires { unit.old.body.at_top ≡ false }
    ensures { OnOk result (BlockWritten (block_of block.now) unit.old unit.new) }
{
    write_block(alloc, unit, block)
}
