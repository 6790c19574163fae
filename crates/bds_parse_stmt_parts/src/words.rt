//! What a word says of what begins with it.

ghost use Rattle.std.specs.Prelude.{◌≡◌};
ghost use Rattle.bds_parse_stmt_parts.specs.Words.{is_sign, is_stop, ends_stmts, is_act, head_kind, place_sign, line_kind, stmt_kind};

use bds_tree::{StepOp, UpdateOp, Word};

/// A sign that must stand somewhere.
#[derive(Clone, Copy, PartialEq, Eq)]
pub enum Sign {
    OpenRound,
    CloseRound,
    CloseSquare,
    CloseValue,
    OpenBlock,
    CloseBlock,
    Comma,
    Semicolon,
    Colon,
    CaseColon,
    Assign,
    Else,
    Case,
    Default,
}

pub fn is_sign(sign: Sign, word: &Word) -> bool
    ensures { result ≡ is_sign sign word.now }
{
    match sign {
        Sign::OpenRound => matches!(word, Word::OpenRound),
        Sign::CloseRound => matches!(word, Word::CloseRound),
        Sign::CloseSquare => matches!(word, Word::CloseSquare),
        Sign::CloseValue => matches!(word, Word::CloseValue),
        Sign::OpenBlock => matches!(word, Word::OpenBlock),
        Sign::CloseBlock => matches!(word, Word::CloseBlock),
        Sign::Comma => matches!(word, Word::Comma),
        Sign::Semicolon => matches!(word, Word::Semicolon),
        Sign::Colon => matches!(word, Word::Colon),
        Sign::CaseColon => matches!(word, Word::CaseColon),
        Sign::Assign => matches!(word, Word::Assign),
        Sign::Else => matches!(word, Word::Else),
        Sign::Case => matches!(word, Word::Case),
        Sign::Default => matches!(word, Word::Default),
    }
}

/// Whether a word may stand behind a line, or behind a part of the head of a `for`.
pub fn is_stop(word: &Word) -> bool
    ensures { result ≡ is_stop word.now }
{
    matches!(word, Word::Semicolon | Word::CloseRound | Word::Else)
}

/// Whether the statements of a block or of a case end before a word.
pub fn ends_stmts(word: &Word) -> bool
    ensures { result ≡ ends_stmts word.now }
{
    matches!(word, Word::CloseBlock | Word::Case | Word::Default)
}

pub fn is_act(word: &Word) -> bool
    ensures { result ≡ is_act word.now }
{
    matches!(
        word,
        Word::Sys(_) | Word::Task | Word::Dep | Word::Goal | Word::Par
    )
}

/// What a word begins that may begin a line and a part of the head of a `for` alike.
#[derive(Clone, Copy, PartialEq, Eq)]
pub enum HeadKind {
    Type,
    Step(StepOp),
    Name,
    Other,
}

pub fn head_kind(word: &Word) -> HeadKind
    ensures { result ≡ head_kind word.now }
{
    match word {
        Word::Bool | Word::Int | Word::String => HeadKind::Type,
        Word::Increment => HeadKind::Step(StepOp::Increment),
        Word::Decrement => HeadKind::Step(StepOp::Decrement),
        Word::Name(_) => HeadKind::Name,
        _ => HeadKind::Other,
    }
}

/// What is done with a place, by the sign behind it.
#[derive(Clone, Copy, PartialEq, Eq)]
pub enum PlaceSign {
    Infer,
    Assign,
    Update(UpdateOp),
    Step(StepOp),
    Other,
}

pub fn place_sign(word: &Word) -> PlaceSign
    ensures { result ≡ place_sign word.now }
{
    match word {
        Word::Declare => PlaceSign::Infer,
        Word::Assign => PlaceSign::Assign,
        Word::AddAssign => PlaceSign::Update(UpdateOp::Add),
        Word::SubAssign => PlaceSign::Update(UpdateOp::Sub),
        Word::MulAssign => PlaceSign::Update(UpdateOp::Mul),
        Word::DivAssign => PlaceSign::Update(UpdateOp::Div),
        Word::RemAssign => PlaceSign::Update(UpdateOp::Rem),
        Word::Increment => PlaceSign::Step(StepOp::Increment),
        Word::Decrement => PlaceSign::Step(StepOp::Decrement),
        _ => PlaceSign::Other,
    }
}

/// The line that a word begins.
#[derive(Clone, Copy, PartialEq, Eq)]
pub enum LineKind {
    Print,
    Println,
    Error,
    Exit,
    Break,
    Continue,
    Return,
    Wait,
    Checkpoint,
    Act,
    Head,
}

pub fn line_kind(word: &Word) -> LineKind
    ensures { result ≡ line_kind word.now }
{
    match word {
        Word::Print => LineKind::Print,
        Word::Println => LineKind::Println,
        Word::Error => LineKind::Error,
        Word::Exit => LineKind::Exit,
        Word::Break => LineKind::Break,
        Word::Continue => LineKind::Continue,
        Word::Return => LineKind::Return,
        Word::Wait => LineKind::Wait,
        Word::Checkpoint => LineKind::Checkpoint,
        Word::Sys(_) | Word::Task | Word::Dep | Word::Goal | Word::Par => LineKind::Act,
        _ => LineKind::Head,
    }
}

/// The statement that a word begins.
#[derive(Clone, Copy, PartialEq, Eq)]
pub enum StmtKind {
    Block,
    Empty,
    If,
    While,
    For,
    Switch,
    Line,
}

pub fn stmt_kind(word: &Word) -> StmtKind
    ensures { result ≡ stmt_kind word.now }
{
    match word {
        Word::OpenBlock => StmtKind::Block,
        Word::Semicolon => StmtKind::Empty,
        Word::If => StmtKind::If,
        Word::While => StmtKind::While,
        Word::For => StmtKind::For,
        Word::Switch => StmtKind::Switch,
        _ => StmtKind::Line,
    }
}
