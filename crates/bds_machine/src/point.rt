//! The points at which a thread leaves the machine, and the answers that it is given.
ghost use Rattle.std.specs.Prelude.{◌≡◌, Some, IfOk};

use bds_host::{Ask, RunFault};
use bds_rules::Rule;
use bds_tasks::TaskNew;
use bds_value::{At, Boxed, ByteText, Items, NoMemory, Texts};
use std::alloc::Global;

/// Why a thread leaves the machine, and what it needs.
#[derive(Drop)]
pub enum Point {
    /// A contact with the outside. One about a file's stamp doesn't say what is asked of it.
    Asks(Ask),
    /// Whether the first files are out of date against the second.
    Old(Texts, Texts),
    /// A task is to be made; its maker is 0 here.
    Task(TaskNew),
    /// A rule is to be declared.
    Declare(Rule),
    /// Files that are to be made by rules.
    Goal(Texts),
    /// A thread is to be made that runs a function with these arguments.
    Spawn(u32, Items),
    /// Ids of tasks and threads whose ends are waited for.
    Wait(Texts),
    WaitAll,
    /// A checkpoint at a path, or else beside the script.
    Save(Option<ByteText>),
    /// The program ends with a status.
    Exit(u8),
    /// The program ends with a fault, at a line.
    Stop(RunFault, At),
    /// The code of the thread has ended.
    Finished,
    /// No tick was left.
    Spent,
}

/// What a thread that has left the machine is given.
#[derive(Drop)]
pub enum Answer {
    Nothing,
    Bool(bool),
    Int(i64),
    Text(ByteText),
    Texts(Texts),
}

/// Leaves the machine at a point. It stands in a box, so that what each row answers is small.
#[inline(never)]
pub(crate) fn leave_at(alloc: Global, point: Point) -> Result<Option<Boxed<Point>>, NoMemory>
    ensures { IfOk result (λ p. p ≡ Some point) }
{
    Ok(Some(Boxed::of(alloc, point)?))
}
