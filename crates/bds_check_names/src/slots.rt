//! How many slots and globals statements take.
ghost use Rattle.std.specs.Prelude.{◌≡◌, ℕ, ◌+◌, min, map};
ghost use Rattle.std.specs.Option.{option_map};
ghost use Rattle.bds_tree.specs.StmtView.{stmt_of, block_of, stmts_of, cases_of, part_of, small_of, line_of};
ghost use Rattle.bds_check_names.specs.Slots as slots;

use crate::locals::Locals;
use bds_tree::{Block, Case, Line, Part, Small, SmallForm, Stmt, StmtForm};
use bds_value::{Boxed, MAX_SLOTS};

/// Past this number all counts are one.
const MOST: u32 = 1_000_000;

/// How many slots locals may take, since each function needs eight besides.
const MOST_LOCALS: u32 = MAX_SLOTS - 8;

fn add(a: u32, b: u32) -> u32
    ensures { result ≡ min (a + b) 1000000 }
{
    let sum = a.saturating_add(b);
    if sum < MOST { sum } else { MOST }
}

fn line_slots(line: &Line) -> u32
    ensures { result ≡ slots.line_slots (line_of line.now) }
{
    match line {
        Line::Declare(_, _, _) => 1,
        Line::Infer(_, _) => 1,
        _ => 0,
    }
}

fn small_slots(small: &Option<Boxed<Small>>) -> u32
    ensures { result ≡ slots.small_slots (option_map small_of small.now) }
{
    match small {
        None => 0,
        Some(small) => match &small.get().form {
            SmallForm::Declare(_, _, _) => 1,
            SmallForm::Infer(_, _) => 1,
            _ => 0,
        },
    }
}

/// One for each local, two more for each list loop, and one for each `switch`.
#[cycle(slots)]
pub fn slots(stmt: &Stmt) -> u32
    ensures { result ≡ min (slots.slots (stmt_of stmt.now)) 1000000 }
{
    match &stmt.form {
        StmtForm::Block(block) => block_slots(block),
        StmtForm::Empty => 0,
        StmtForm::Line(line) => line_slots(line),
        StmtForm::If(_, then_part, else_part) => {
            let first = slots(then_part.get());
            match else_part {
                Some(else_part) => add(first, slots(else_part.get())),
                None => first,
            }
        }
        StmtForm::While(_, body) => slots(body.get()),
        StmtForm::For(first, _, step, body) => {
            add(
                small_slots(first),
                add(small_slots(step), slots(body.get())),
            )
        }
        StmtForm::Each(_, _, _, body) => add(slots(body.get()), 3),
        StmtForm::Switch(_, cases) => add(cases_slots(cases.as_slice()), 1),
    }
}

#[cycle(slots)]
fn cases_slots(cases: &[Case]) -> u32
    ensures { result ≡ min (slots.cases_slots (cases_of cases.now)) 1000000 }
{
    let mut sum = 0;
    for case in cases {
        sum = add(sum, stmts_slots(case.stmts.as_slice()));
    }
    sum
}

#[cycle(slots)]
pub fn block_slots(block: &Block) -> u32
    ensures { result ≡ min (slots.block_slots (block_of block.now)) 1000000 }
{
    stmts_slots(block.stmts.as_slice())
}

#[cycle(slots)]
fn stmts_slots(stmts: &[Stmt]) -> u32
    ensures { result ≡ min (slots.stmts_slots (stmts_of stmts.now)) 1000000 }
{
    let mut sum = 0;
    for stmt in stmts {
        sum = add(sum, slots(stmt));
    }
    sum
}

/// A declaration at the top level makes a global.
fn top_slots(stmt: &Stmt) -> u32
    ensures { result ≡ min (slots.top_slots (stmt_of stmt.now)) 1000000 }
{
    match &stmt.form {
        StmtForm::Line(_) => 0,
        _ => slots(stmt),
    }
}

fn top_globals(stmt: &Stmt) -> u32
    ensures { result ≡ slots.top_globals (stmt_of stmt.now) }
{
    match &stmt.form {
        StmtForm::Line(line) => line_slots(line),
        _ => 0,
    }
}

/// The slots of the code at the top level.
pub fn parts_slots(parts: &[Part]) -> u32
    ensures { result ≡ min (slots.parts_slots (map part_of parts.now)) 1000000 }
{
    let mut sum = 0;
    for part in parts {
        if let Part::Stmt(stmt) = part {
            sum = add(sum, top_slots(stmt));
        }
    }
    sum
}

/// How many globals the parts declare.
pub fn parts_globals(parts: &[Part]) -> u32
    ensures { result ≡ min (slots.parts_globals (map part_of parts.now)) 1000000 }
{
    let mut sum = 0;
    for part in parts {
        if let Part::Stmt(stmt) = part {
            sum = add(sum, top_globals(stmt));
        }
    }
    sum
}

/// With these locals and so many slots besides there are too many.
pub fn are_too_many(locals: usize, others: u32) -> bool
    ensures { (n : ℕ) → others ≡ min n 1000000 → result ≡ slots.are_too_many (locals + n) }
{
    locals > MOST_LOCALS as usize || locals as u64 + others as u64 > MOST_LOCALS as u64
}

/// A `par` block has too many slots, with these locals in force.
pub fn has_too_many(locals: &Locals, block: &Block) -> bool
    ensures { result ≡ slots.are_too_many (slots.visible locals.now + slots.block_slots (block_of block.now)) }
{
    are_too_many(locals.visible(), block_slots(block))
}
