//! Statements and scripts.

use crate::expr::{Expr, Exprs};
use crate::token::Pieces;
use bds_value::{At, Boxed, ByteText, Listed, Texts, Ty};

pub type Parts = Listed<Part>;

pub type Parameters = Listed<Parameter>;

pub type Stmts = Listed<Stmt>;

pub type Cases = Listed<Case>;

pub type Suffixes = Listed<Suffix>;

pub type Options = Listed<Setting>;

pub type Commands = Listed<Command>;

/// A script; the path of each file is in the place of its number.
#[derive(Drop)]
pub struct Script {
    pub at: At,
    pub files: Texts,
    pub parts: Parts,
}

#[derive(Drop)]
pub enum Part {
    Function(Function),
    Include(Include),
    Stmt(Stmt),
}

/// `include 'path'`, where the text has no pieces of variables.
#[derive(Drop)]
pub struct Include {
    pub at: At,
    pub path: Pieces,
}

/// The declaration of a function; the result is `Void` for `void`.
#[derive(Drop)]
pub struct Function {
    pub at: At,
    pub result: Ty,
    pub name: ByteText,
    pub parameters: Parameters,
    pub body: Block,
}

#[derive(Drop)]
pub struct Parameter {
    pub ty: Ty,
    pub name: ByteText,
}

/// Statements between block braces.
#[cycle(statements)]
#[derive(Drop)]
pub struct Block {
    pub at: At,
    pub stmts: Stmts,
}

#[cycle(statements)]
#[derive(Drop)]
pub struct Stmt {
    pub at: At,
    pub form: StmtForm,
}

#[cycle(statements)]
#[derive(Drop)]
pub enum StmtForm {
    Block(Block),
    /// `;`
    Empty,
    Line(Line),
    /// `if (condition) yes else no`
    If(Expr, Boxed<Stmt>, Option<Boxed<Stmt>>),
    /// `while (condition) body`
    While(Expr, Boxed<Stmt>),
    /// `for (first; condition; step) body`
    For(Option<Boxed<Small>>, Option<Expr>, Option<Boxed<Small>>, Boxed<Stmt>),
    /// `for (type name : list) body`
    Each(Ty, ByteText, Expr, Boxed<Stmt>),
    /// `switch (value) { cases }`
    Switch(Expr, Cases),
}

/// A case of a `switch`; `default` has no label.
#[cycle(statements)]
#[derive(Drop)]
pub struct Case {
    pub at: At,
    pub label: Option<Expr>,
    pub stmts: Stmts,
}

#[cycle(statements)]
#[derive(Drop)]
pub enum Line {
    /// `type name = value`
    Declare(Ty, ByteText, Option<RightSide>),
    /// `name := value`
    Infer(ByteText, RightSide),
    /// `place = value`
    Assign(Place, RightSide),
    /// `place += value`
    Update(Place, UpdateOp, RightSide),
    Step(Step),
    /// A call of a function or of a method.
    Call(Expr),
    Print(Expr),
    Println(Option<Expr>),
    Error(Expr),
    Exit(Expr),
    Break,
    Continue,
    Return(Option<RightSide>),
    Wait(Option<Expr>),
    Checkpoint(Option<Expr>),
    /// An act that stands alone.
    Alone(Act),
}

/// What stands on the right of a declaration, an assignment, an update or a `return`.
#[cycle(statements)]
#[derive(Drop)]
pub enum RightSide {
    Expr(Expr),
    Act(Act),
}

#[cycle(statements)]
#[derive(Drop)]
pub struct Act {
    pub at: At,
    pub form: ActForm,
}

#[cycle(statements)]
#[derive(Drop)]
pub enum ActForm {
    Sys(Pieces),
    Task(Option<Options>, Body),
    Dep(Options, Body),
    Goal(Expr),
    /// `par name(arguments)`
    ParCall(ByteText, Exprs),
    /// `par { .. }`
    ParBlock(Block),
}

/// A part of the head of a `for` with two `;`.
#[derive(Drop)]
pub struct Small {
    pub at: At,
    pub form: SmallForm,
}

#[derive(Drop)]
pub enum SmallForm {
    /// `type name = value`
    Declare(Ty, ByteText, Option<Expr>),
    /// `name := value`
    Infer(ByteText, Expr),
    /// `place = value`
    Assign(Place, Expr),
    /// `place += value`
    Update(Place, UpdateOp, Expr),
    Step(Step),
    /// A call of a function or of a method.
    Call(Expr),
}

#[derive(Drop)]
pub enum Step {
    /// `place++` or `place--`
    After(Place, StepOp),
    /// `++place` or `--place`
    Before(StepOp, Place),
}

#[derive(Clone, Copy, Debug, PartialEq, Eq)]
pub enum StepOp {
    Increment,
    Decrement,
}

/// The operator of an update, as in `+=`.
#[derive(Clone, Copy, Debug, PartialEq, Eq)]
pub enum UpdateOp {
    Add,
    Sub,
    Mul,
    Div,
    Rem,
}

/// A variable, or a part of one.
#[derive(Drop)]
pub struct Place {
    pub at: At,
    pub name: ByteText,
    pub suffixes: Suffixes,
}

#[derive(Drop)]
pub enum Suffix {
    /// `[index]`
    Item(Expr),
    /// `{key}`
    Key(Expr),
}

/// An option of a `task` or a `dep`.
#[derive(Drop)]
pub struct Setting {
    pub at: At,
    pub form: SettingForm,
}

#[derive(Drop)]
pub enum SettingForm {
    /// `name := value`
    Named(ByteText, Expr),
    Plain(Expr),
}

/// The commands of a `task` or a `dep`.
#[derive(Drop)]
pub enum Body {
    Sys(Command),
    /// Commands between block braces.
    Block(Commands),
}

/// A `sys` in a body.
#[derive(Drop)]
pub struct Command {
    pub at: At,
    pub text: Pieces,
}
