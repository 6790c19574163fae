//! The number of a file at each node of a part of a script.
ghost use Rattle.std.specs.Prelude.{◌≡◌};
ghost use Rattle.bds_tree.specs.StmtView.{function_of, part_of};
ghost use Rattle.bds_check_typing.specs.Numbered.{in_file, kept_ty, part_in};
ghost use Rattle.bds_check_typing.specs.Remade.{remade_function};

use crate::exprs::number_at;
use crate::stmts::{number_block, number_stmt};
use bds_tree::{Function, Part};

fn number_function(file: u32, function: &mut Function)
    ensures { function_of function.new ≡ remade_function (in_file file) kept_ty (function_of function.old) }
{
    number_at(file, &mut function.at);
    number_block(file, &mut function.body);
}

/// Puts the number of its file at each node of a part of a script.
pub fn number_part(file: u32, part: &mut Part)
    ensures { part_of part.new ≡ part_in file (part_of part.old) }
{
    match part {
        Part::Function(function) => number_function(file, function),
        Part::Include(include) => number_at(file, &mut include.at),
        Part::Stmt(stmt) => number_stmt(file, stmt),
    }
}
