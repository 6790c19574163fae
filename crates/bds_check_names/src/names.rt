//! The names in force at a node, and what is asked of a node and known of its site.
use crate::functions::Functions;
use crate::globals::Globals;
use crate::locals::Locals;
use bds_value::{ByteText, Texts, Ty, Types};

/// A variable, and its type; `Void` is a type that isn't known.
#[derive(Drop)]
pub struct Variable {
    pub name: ByteText,
    pub ty: Ty,
}

/// What a call of a function needs to know of it.
#[derive(Drop)]
pub struct Head {
    pub name: ByteText,
    pub parameters: Types,
    /// `Void` where the function has none.
    pub result: Ty,
}

/// The names in force; of locals the innermost stands last.
#[derive(Drop)]
pub struct Names {
    pub functions: Functions,
    pub globals: Globals,
    pub locals: Locals,
    /// The types of globals are still being found, and a global without a type can't be named.
    pub finding: bool,
}

/// What is asked of an expression.
#[derive(Drop)]
pub enum Asked {
    /// It is a whole statement, and no value is needed.
    Whole,
    /// A value of any type.
    Value,
    /// A value, and of an empty literal this type.
    This(Ty),
}

/// Where a statement stands.
#[derive(Drop)]
pub struct Site {
    /// At the top level, where variables are globals.
    pub at_top: bool,
    /// How many locals were in force where its block began.
    pub start: usize,
    /// In a loop of the same function or `par` block.
    pub in_loop: bool,
    /// In a loop or a `switch` of the same function or `par` block.
    pub may_break: bool,
    /// The result of the function around it, `Void` where that has none.
    pub returns: Option<Ty>,
}

/// The options of a task or a `dep` that were seen.
#[derive(Drop)]
pub struct Seen {
    pub names: Texts,
    pub dependency: bool,
}
