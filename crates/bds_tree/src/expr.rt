//! Expressions.

use crate::token::Pieces;
use bds_value::{At, Boxed, ByteText, Listed, Ty};

pub type Exprs = Listed<Expr>;

/// The keys and values of a map literal.
pub type ExprPairs = Listed<(Expr, Expr)>;

/// An expression; its type is `Void` until checking.
#[cycle(expressions)]
#[derive(Drop)]
pub struct Expr {
    pub at: At,
    pub ty: Ty,
    pub form: Form,
}

/// The form of an expression, with its parts in the order of the text.
#[cycle(expressions)]
#[derive(Drop)]
pub enum Form {
    Number(i64),
    Text(Pieces),
    Bool(bool),
    Name(ByteText),
    /// `name(arguments)`
    Call(ByteText, Exprs),
    /// `(inner)`
    Group(Boxed<Expr>),
    /// `[item, item]`
    List(Exprs),
    /// `{ key => value, key => value }`
    Map(ExprPairs),
    /// `list[index]`
    Item(Boxed<Expr>, Boxed<Expr>),
    /// `map{key}`
    Key(Boxed<Expr>, Boxed<Expr>),
    /// `receiver.name(arguments)`
    Method(Boxed<Expr>, ByteText, Exprs),
    Prefix(PrefixOp, Boxed<Expr>),
    Binary(Boxed<Expr>, BinaryOp, Boxed<Expr>),
    /// `condition ? yes : no`
    Choice(Boxed<Expr>, Boxed<Expr>, Boxed<Expr>),
    /// `outputs <- inputs`: whether the outputs are out of date.
    Dependency(Boxed<Expr>, Boxed<Expr>),
}

/// An operator before an expression.
#[derive(Clone, Copy, Debug, PartialEq, Eq)]
pub enum PrefixOp {
    Neg,
    Not,
}

/// An operator between two expressions.
#[derive(Clone, Copy, Debug, PartialEq, Eq)]
pub enum BinaryOp {
    Or,
    And,
    Equal,
    NotEqual,
    Less,
    AtMost,
    Greater,
    AtLeast,
    Add,
    Sub,
    Mul,
    Div,
    Rem,
}
