//! Whether the last token of a line is a block `}`.

ghost use Rattle.std.specs.Prelude.{◌≡◌};
ghost use Rattle.bds_tree.specs.StmtView.{line_of, right_of, act_of, stmt_of};
ghost use Rattle.bds_tree.specs.StmtSpelling;
ghost use Rattle.bds_tree.specs.StmtShape.{is_empty_stmt};

use bds_tree::{Act, ActForm, Body, Line, RightSide, Stmt, StmtForm};

fn body_ends_in_brace(body: &Body) -> bool
    ensures { result ≡ StmtSpelling.body_ends_in_brace body.now }
{
    matches!(body, Body::Block(_))
}

fn act_ends_in_brace(act: &Act) -> bool
    ensures { result ≡ StmtSpelling.act_ends_in_brace (act_of act.now) }
{
    match &act.form {
        ActForm::Task(_, body) | ActForm::Dep(_, body) => body_ends_in_brace(body),
        ActForm::ParBlock(_) => true,
        _ => false,
    }
}

fn right_ends_in_brace(right: &RightSide) -> bool
    ensures { result ≡ StmtSpelling.right_ends_in_brace (right_of right.now) }
{
    match right {
        RightSide::Expr(_) => false,
        RightSide::Act(act) => act_ends_in_brace(act),
    }
}

pub fn line_ends_in_brace(line: &Line) -> bool
    ensures { result ≡ StmtSpelling.line_ends_in_brace (line_of line.now) }
{
    match line {
        Line::Declare(_, _, Some(right)) | Line::Return(Some(right)) => right_ends_in_brace(right),
        Line::Infer(_, right) | Line::Assign(_, right) | Line::Update(_, _, right) => {
            right_ends_in_brace(right)
        }
        Line::Alone(act) => act_ends_in_brace(act),
        _ => false,
    }
}

pub fn is_empty(stmt: &Stmt) -> bool
    ensures { result ≡ is_empty_stmt (stmt_of stmt.now) }
{
    matches!(&stmt.form, StmtForm::Empty)
}
