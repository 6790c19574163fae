//! Whether what is behind a statement is never reached.
ghost use Rattle.std.specs.Prelude.{◌≡◌};
ghost use Rattle.bds_tree.specs.StmtView.{stmt_of, block_of, stmts_of, line_of};
ghost use Rattle.bds_check_rules.specs.Ends as ends;

use bds_tree::{Block, Line, Stmt, StmtForm};

fn line_ends(line: &Line) -> bool
    ensures { result ≡ ends.line_ends (line_of line.now) }
{
    match line {
        Line::Return(_) => true,
        Line::Error(_) => true,
        Line::Exit(_) => true,
        _ => false,
    }
}

/// No `return` is missing behind the statement.
#[cycle(ends)]
pub fn ends(stmt: &Stmt) -> bool
    ensures { result ≡ ends.ends (stmt_of stmt.now) }
{
    match &stmt.form {
        StmtForm::Block(block) => block_ends(block),
        StmtForm::Line(line) => line_ends(line),
        StmtForm::If(_, then_part, Some(else_part)) => {
            ends(then_part.get()) && ends(else_part.get())
        }
        _ => false,
    }
}

/// Its last statement ends.
#[cycle(ends)]
pub fn block_ends(block: &Block) -> bool
    ensures { result ≡ ends.block_ends (block_of block.now) }
{
    last_ends(block.stmts.as_slice())
}

#[cycle(ends)]
fn last_ends(stmts: &[Stmt]) -> bool
    ensures { result ≡ ends.last_ends (stmts_of stmts.now) }
{
    match stmts {
        [.., last] => ends(last),
        [] => false,
    }
}
