//! The tokens that a tree spells.

ghost use Rattle.std.specs.Prelude.{◌≡◌, ◌++◌, ◌∷◌, [], OnOk, true};
ghost use Rattle.bds_tree.specs.declared.token.Word.TheVariants as word;
ghost use Rattle.bds_tree.specs.Spelling.{sign_before, sign_of, word_of_bool};
ghost use Rattle.bds_tree.specs.View.{tree_of, trees_of, pairs_of};
ghost use Rattle.bds_tree.specs.Words.{words};
ghost use Rattle.bds_spell.specs.ExprWords.{close_of, comma_unless, expr_words, all_words, pair_words};

use bds_tree::{BinaryOp, Expr, Form, Pieces, PrefixOp, Token, Tokens, Word, copy_pieces};
use bds_value::{ByteText, NoMemory, copy_text};
use std::alloc::Global;

fn word_before(op: PrefixOp) -> Word
    ensures { result ≡ sign_before op }
{
    match op {
        PrefixOp::Neg => Word::Minus,
        PrefixOp::Not => Word::Not,
    }
}

fn word_between(op: BinaryOp) -> Word
    ensures { result ≡ sign_of op }
{
    match op {
        BinaryOp::Or => Word::Or,
        BinaryOp::And => Word::And,
        BinaryOp::Equal => Word::Equal,
        BinaryOp::NotEqual => Word::NotEqual,
        BinaryOp::Less => Word::Less,
        BinaryOp::AtMost => Word::AtMost,
        BinaryOp::Greater => Word::Greater,
        BinaryOp::AtLeast => Word::AtLeast,
        BinaryOp::Add => Word::Plus,
        BinaryOp::Sub => Word::Minus,
        BinaryOp::Mul => Word::Star,
        BinaryOp::Div => Word::Slash,
        BinaryOp::Rem => Word::Percent,
    }
}

fn word_of_bool(value: bool) -> Word
    ensures { result ≡ word_of_bool value }
{
    if value { Word::True } else { Word::False }
}

/// Puts a token at the end.
pub fn put(out: &mut Tokens, line: u32, word: Word) -> Result<(), NoMemory>
    ensures { OnOk result (words out.new ≡ words out.old ++ word ∷ []) }
{
    out.push(Token { line, word })
}

pub fn put_name(alloc: Global, out: &mut Tokens, line: u32, name: &ByteText) -> Result<(), NoMemory>
    ensures { OnOk result (words out.new ≡ words out.old ++ word.Name name.now ∷ []) }
{
    let name = copy_text(alloc, name)?;
    put(out, line, Word::Name(name))
}

pub fn put_text(alloc: Global, out: &mut Tokens, line: u32, pieces: &Pieces) -> Result<(), NoMemory>
    ensures { OnOk result (words out.new ≡ words out.old ++ word.Text pieces.now ∷ []) }
{
    let pieces = copy_pieces(alloc, pieces)?;
    put(out, line, Word::Text(pieces))
}

/// A comma, unless it is the first.
pub fn put_comma(out: &mut Tokens, line: u32, first: bool) -> Result<(), NoMemory>
    ensures { OnOk result (words out.new ≡ words out.old ++ comma_unless first) }
{
    if first {
        Ok(())
    } else {
        put(out, line, Word::Comma)
    }
}

fn close_word(square: bool) -> Word
    ensures { result ≡ close_of square }
{
    if square {
        Word::CloseSquare
    } else {
        Word::CloseRound
    }
}

#[cycle(expressions)]
pub fn put_expr(expr: &Expr, alloc: Global, out: &mut Tokens) -> Result<(), NoMemory>
    ensures { OnOk result (words out.new ≡ words out.old ++ expr_words (tree_of expr.now)) }
{
    let line = expr.at.line;
    match &expr.form {
        Form::Number(value) => put(out, line, Word::Number(*value)),
        Form::Text(pieces) => put_text(alloc, out, line, pieces),
        Form::Bool(value) => put(out, line, word_of_bool(*value)),
        Form::Name(name) => put_name(alloc, out, line, name),
        Form::Call(name, arguments) => {
            put_name(alloc, out, line, name)?;
            put(out, line, Word::OpenRound)?;
            put_all(arguments.as_slice(), alloc, out, line, false)
        }
        Form::Group(inner) => {
            put(out, line, Word::OpenRound)?;
            put_expr(inner.get(), alloc, out)?;
            put(out, line, Word::CloseRound)
        }
        Form::List(items) => {
            put(out, line, Word::OpenSquare)?;
            put_all(items.as_slice(), alloc, out, line, true)
        }
        Form::Map(pairs) => {
            put(out, line, Word::OpenValue)?;
            put_pairs(pairs.as_slice(), alloc, out, line)
        }
        Form::Item(list, index) => {
            put_expr(list.get(), alloc, out)?;
            put(out, line, Word::OpenSquare)?;
            put_expr(index.get(), alloc, out)?;
            put(out, line, Word::CloseSquare)
        }
        Form::Key(map, key) => {
            put_expr(map.get(), alloc, out)?;
            put(out, line, Word::OpenValue)?;
            put_expr(key.get(), alloc, out)?;
            put(out, line, Word::CloseValue)
        }
        Form::Method(receiver, name, arguments) => {
            put_expr(receiver.get(), alloc, out)?;
            put(out, line, Word::Dot)?;
            put_name(alloc, out, line, name)?;
            put(out, line, Word::OpenRound)?;
            put_all(arguments.as_slice(), alloc, out, line, false)
        }
        Form::Prefix(op, inner) => {
            put(out, line, word_before(*op))?;
            put_expr(inner.get(), alloc, out)
        }
        Form::Binary(left, op, right) => {
            put_expr(left.get(), alloc, out)?;
            put(out, line, word_between(*op))?;
            put_expr(right.get(), alloc, out)
        }
        Form::Choice(condition, yes, no) => {
            put_expr(condition.get(), alloc, out)?;
            put(out, line, Word::Question)?;
            put_expr(yes.get(), alloc, out)?;
            put(out, line, Word::Colon)?;
            put_expr(no.get(), alloc, out)
        }
        Form::Dependency(outputs, inputs) => {
            put_expr(outputs.get(), alloc, out)?;
            put(out, line, Word::From)?;
            put_expr(inputs.get(), alloc, out)
        }
    }
}

/// Expressions with commas between, and the sign that closes them.
#[cycle(expressions)]
pub fn put_all(
    exprs: &[Expr],
    alloc: Global,
    out: &mut Tokens,
    line: u32,
    square: bool,
) -> Result<(), NoMemory>
    ensures { OnOk result (words out.new ≡ words out.old ++ all_words true (close_of square) (trees_of exprs.now)) }
{
    let mut first = true;
    for expr in exprs {
        put_comma(out, line, first)?;
        put_expr(expr, alloc, out)?;
        first = false;
    }
    put(out, line, close_word(square))
}

#[cycle(expressions)]
fn put_pairs(
    pairs: &[(Expr, Expr)],
    alloc: Global,
    out: &mut Tokens,
    line: u32,
) -> Result<(), NoMemory>
    ensures { OnOk result (words out.new ≡ words out.old ++ pair_words true (pairs_of pairs.now)) }
{
    let mut first = true;
    for pair in pairs {
        put_comma(out, line, first)?;
        put_expr(&pair.0, alloc, out)?;
        put(out, line, Word::Arrow)?;
        put_expr(&pair.1, alloc, out)?;
        first = false;
    }
    put(out, line, Word::CloseValue)
}
