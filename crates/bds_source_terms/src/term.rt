//! Terms of the source meaning: what is left of a thread's code.

use bds_tree::PrefixOp;
use bds_value::{At, Boxed, ByteText, Items, Listed, Op, Pairs, Ty, Value};

/// Terms one behind another.
pub type Terms = Listed<Term>;

/// The steps to a part of a variable.
pub type Ways = Listed<Way>;

/// Where a variable is found.
#[derive(Clone, Copy, PartialEq, Eq)]
pub enum Scope {
    Local,
    Global,
}

/// What values are made into.
#[derive(Drop)]
pub enum Computation {
    Prefixed(PrefixOp),
    Operated(Op),
    /// The text of a value.
    Shown,
    /// The text that a value has as a piece.
    Pieced,
    ItemTaken,
    KeyTaken,
    /// A method by its number.
    MethodCalled(u8),
    /// A list of items of a type.
    ListMade(Ty),
    /// A map of values of a type.
    MapMade(Ty),
}

/// What is asked of a file.
#[derive(Clone, Copy, PartialEq, Eq)]
pub enum Question {
    IsThere,
    IsEmpty,
    SizeOf,
}

/// What is asked for with values.
#[derive(Clone, Copy, PartialEq, Eq)]
pub enum Action {
    Printed,
    FileRead,
    FileWritten,
    FileRemoved,
    FileStamped(Question),
    /// `sys`
    CommandRun,
    /// `<-`
    Compared,
    Achieved,
    IdsAwaited,
    AllAwaited,
    Saved,
    SavedHere,
}

/// How a part of a variable changes.
#[derive(Clone, Copy, PartialEq, Eq)]
pub enum Change {
    Replaced,
    /// `+=`
    Increased,
    /// The other operators with `=`.
    Reckoned(Op),
    /// A method that changes, by its number.
    Mutated(u8),
}

/// A step into a value.
#[derive(Clone, Copy, PartialEq, Eq)]
pub enum Way {
    ByIndex,
    ByKey,
}

/// What a command is for.
#[derive(Clone, Copy, PartialEq, Eq)]
pub enum Making {
    AsTask,
    AsRule,
}

/// What an option sets.
#[derive(Clone, Copy, PartialEq, Eq)]
pub enum Choice {
    Outputs,
    Inputs,
    Processors,
    CanFail,
    Retries,
    TaskName,
    /// It sets nothing, but the task is needed only where it is true.
    Condition,
}

/// The values of the options so far, and whether the task is needed.
#[derive(Drop)]
pub struct Work {
    pub outs: Value,
    pub ins: Value,
    pub cpus: Value,
    pub can_fail: Value,
    pub retry: Value,
    pub name: Value,
    pub needed: bool,
}

/// Options with their values.
pub type Choices = Listed<(Choice, Term)>;

/// The cases of a `switch`, each with its label and its statements; `default` has no label.
pub type Branches = Listed<(Option<Term>, Term)>;

/// A term. Parts that may be many stand in lists, so that a term is no deeper than its source nests.
#[derive(Drop)]
pub enum Term {
    /// A reduced part: the values that it gave, the last first.
    Reduced(Items),
    Constant(Value),
    Variable(Scope, ByteText),
    Compute(Computation, At, Boxed<Term>),
    /// Parts of a text, each joined to those before it.
    Joined(At, Terms),
    Does(Action, At, Boxed<Term>),
    Nothing,
    /// Parts, and what is behind them.
    More(Terms, Boxed<Term>),
    Choose(Boxed<Term>, Boxed<Term>, Boxed<Term>),
    /// A call, by the function's name.
    Call(ByteText, At, Boxed<Term>),
    /// A call that runs, with its own locals and the rest of its code.
    Frame(Pairs, Boxed<Term>),
    /// Statements, and what is behind them.
    Then(Terms, Boxed<Term>),
    Block(Boxed<Term>),
    /// A block that runs, with the number of locals in force around it.
    Inside(u64, Boxed<Term>),
    Declare(Scope, ByteText, Boxed<Term>),
    /// The part of a variable that these steps lead to changes; the values of the steps come first.
    Update(At, Scope, ByteText, Ways, Change, Boxed<Term>),
    /// A loop: its test, its body and what is done behind each turn.
    While(Boxed<Term>, Boxed<Term>, Boxed<Term>),
    Each(ByteText, Boxed<Term>, Boxed<Term>),
    /// A list loop that runs, with the place of its next item and its list.
    Items(ByteText, u64, Value, Boxed<Term>),
    /// A turn of a loop, with the number of locals in force around it, and how the loop goes on.
    Turn(u64, Boxed<Term>, Boxed<Term>),
    /// A `switch`: its value, and its cases.
    Switch(Boxed<Term>, Branches),
    /// A label is evaluated: the value of the `switch`, the label, the statements of its case, the cases
    /// behind it, and the cases that run where no label is equal.
    Tries(Value, Boxed<Term>, Boxed<Term>, Branches, Branches),
    /// Statements of a `switch` that run, with the number of locals in force around it.
    Within(u64, Boxed<Term>),
    Break,
    Continue,
    Return(Boxed<Term>),
    Error(At, Boxed<Term>),
    Exit(Boxed<Term>),
    /// Options of a task or a rule, the last first, and what is behind them.
    Settle(Choices, Boxed<Term>),
    /// Whether the outputs are out of date against the inputs is a condition.
    Weigh(At, Boxed<Term>),
    /// A task or a rule is made of its command.
    Make(Making, At, Work, Boxed<Term>),
    /// `par name(arguments)`
    SpawnCall(ByteText, At, Boxed<Term>),
    /// `par { .. }`
    SpawnBlock(At, Boxed<Term>),
}
