//! The tokens in front of the statements and right sides that a statement holds.

ghost use Rattle.std.specs.Prelude.{◌≡◌, ◌++◌, ◌∷◌, [], OnOk, true};
ghost use Rattle.std.specs.Option.{option_map};
ghost use Rattle.bds_tree.specs.declared.token.Word.TheVariants as w;
ghost use Rattle.bds_tree.specs.View.{tree_of, trees_of};
ghost use Rattle.bds_tree.specs.StmtView.{small_of, place_of, settings_of};
ghost use Rattle.bds_tree.specs.Words.{words};
ghost use Rattle.bds_spell.specs.ExprWords.{expr_words};
ghost use Rattle.bds_spell.specs.StmtWords.{type_words, name_words, maybe_words, place_words, update_op_words, head_words, for_words, each_words, label_words, task_words, dep_words, par_call_words};

use crate::spell_expr::{put, put_all, put_expr, put_name};
use crate::spell_parts::{
    put_body, put_maybe, put_maybe_settings, put_place, put_settings, put_small, put_type,
    update_word,
};
use bds_tree::{
    Body, Expr, Exprs, Options, Pieces, Place, Small, Tokens, UpdateOp, Word, copy_pieces,
};
use bds_value::{Boxed, ByteText, NoMemory, Ty};
use std::alloc::Global;

/// `word (condition)`
pub fn put_head(
    condition: &Expr,
    alloc: Global,
    out: &mut Tokens,
    line: u32,
    word: Word,
) -> Result<(), NoMemory>
    ensures { OnOk result (words out.new ≡ words out.old ++ head_words word (expr_words (tree_of condition.now))) }
{
    put(out, line, word)?;
    put(out, line, Word::OpenRound)?;
    put_expr(condition, alloc, out)?;
    put(out, line, Word::CloseRound)
}

/// `for (first; condition; next)`
pub fn put_for(
    first: &Option<Boxed<Small>>,
    condition: &Option<Expr>,
    next: &Option<Boxed<Small>>,
    alloc: Global,
    out: &mut Tokens,
    line: u32,
) -> Result<(), NoMemory>
    ensures { OnOk result (words out.new ≡ words out.old ++ for_words (option_map small_of first.now) (option_map tree_of condition.now) (option_map small_of next.now)) }
{
    put(out, line, Word::For)?;
    put(out, line, Word::OpenRound)?;
    put_small(first, alloc, out)?;
    put(out, line, Word::Semicolon)?;
    put_maybe(condition, alloc, out)?;
    put(out, line, Word::Semicolon)?;
    put_small(next, alloc, out)?;
    put(out, line, Word::CloseRound)
}

/// `for (type name : list)`
pub fn put_each(
    ty: &Ty,
    name: &ByteText,
    list: &Expr,
    alloc: Global,
    out: &mut Tokens,
    line: u32,
) -> Result<(), NoMemory>
    ensures { OnOk result (words out.new ≡ words out.old ++ each_words ty.now name.now (tree_of list.now)) }
{
    put(out, line, Word::For)?;
    put(out, line, Word::OpenRound)?;
    put_type(ty, out, line)?;
    put_name(alloc, out, line, name)?;
    put(out, line, Word::Colon)?;
    put_expr(list, alloc, out)?;
    put(out, line, Word::CloseRound)
}

/// `case label`, or `default`
pub fn put_label(
    label: &Option<Expr>,
    alloc: Global,
    out: &mut Tokens,
    line: u32,
) -> Result<(), NoMemory>
    ensures { OnOk result (words out.new ≡ words out.old ++ label_words (option_map tree_of label.now)) }
{
    match label {
        None => put(out, line, Word::Default),
        Some(label) => {
            put(out, line, Word::Case)?;
            put_expr(label, alloc, out)
        }
    }
}

/// A word and a value.
pub fn put_valued(
    value: &Expr,
    alloc: Global,
    out: &mut Tokens,
    line: u32,
    word: Word,
) -> Result<(), NoMemory>
    ensures { OnOk result (words out.new ≡ words out.old ++ ((word ∷ []) ++ expr_words (tree_of value.now))) }
{
    put(out, line, word)?;
    put_expr(value, alloc, out)
}

/// A word and a value, if there is one.
pub fn put_maybe_valued(
    value: &Option<Expr>,
    alloc: Global,
    out: &mut Tokens,
    line: u32,
    word: Word,
) -> Result<(), NoMemory>
    ensures { OnOk result (words out.new ≡ words out.old ++ ((word ∷ []) ++ maybe_words (option_map tree_of value.now))) }
{
    put(out, line, word)?;
    put_maybe(value, alloc, out)
}

/// `type name`
pub fn put_typed(
    ty: &Ty,
    name: &ByteText,
    alloc: Global,
    out: &mut Tokens,
    line: u32,
) -> Result<(), NoMemory>
    ensures { OnOk result (words out.new ≡ words out.old ++ (type_words ty.now ++ name_words name.now)) }
{
    put_type(ty, out, line)?;
    put_name(alloc, out, line, name)
}

/// `name :=`
pub fn put_inferred(
    name: &ByteText,
    alloc: Global,
    out: &mut Tokens,
    line: u32,
) -> Result<(), NoMemory>
    ensures { OnOk result (words out.new ≡ words out.old ++ (name_words name.now ++ w.Declare ∷ [])) }
{
    put_name(alloc, out, line, name)?;
    put(out, line, Word::Declare)
}

/// `place =`
pub fn put_assigned(
    place: &Place,
    alloc: Global,
    out: &mut Tokens,
    line: u32,
) -> Result<(), NoMemory>
    ensures { OnOk result (words out.new ≡ words out.old ++ (place_words (place_of place.now) ++ w.Assign ∷ [])) }
{
    put_place(place, alloc, out)?;
    put(out, line, Word::Assign)
}

/// `place +=`
pub fn put_updated(
    place: &Place,
    op: UpdateOp,
    alloc: Global,
    out: &mut Tokens,
    line: u32,
) -> Result<(), NoMemory>
    ensures { OnOk result (words out.new ≡ words out.old ++ (place_words (place_of place.now) ++ update_op_words op)) }
{
    put_place(place, alloc, out)?;
    put(out, line, update_word(op))
}

pub fn put_sys_act(
    pieces: &Pieces,
    alloc: Global,
    out: &mut Tokens,
    line: u32,
) -> Result<(), NoMemory>
    ensures { OnOk result (words out.new ≡ words out.old ++ w.Sys pieces.now ∷ []) }
{
    let text = copy_pieces(alloc, pieces)?;
    put(out, line, Word::Sys(text))
}

pub fn put_task(
    settings: &Option<Options>,
    body: &Body,
    alloc: Global,
    out: &mut Tokens,
    line: u32,
) -> Result<(), NoMemory>
    ensures { OnOk result (words out.new ≡ words out.old ++ task_words (option_map settings_of settings.now) body.now) }
{
    put(out, line, Word::Task)?;
    put_maybe_settings(settings, alloc, out, line)?;
    put_body(body, alloc, out, line)
}

pub fn put_dep(
    settings: &Options,
    body: &Body,
    alloc: Global,
    out: &mut Tokens,
    line: u32,
) -> Result<(), NoMemory>
    ensures { OnOk result (words out.new ≡ words out.old ++ dep_words (settings_of settings.now) body.now) }
{
    put(out, line, Word::Dep)?;
    put(out, line, Word::OpenRound)?;
    put_settings(settings.as_slice(), alloc, out, line)?;
    put_body(body, alloc, out, line)
}

pub fn put_par_call(
    name: &ByteText,
    arguments: &Exprs,
    alloc: Global,
    out: &mut Tokens,
    line: u32,
) -> Result<(), NoMemory>
    ensures { OnOk result (words out.new ≡ words out.old ++ par_call_words name.now (trees_of arguments.now)) }
{
    put(out, line, Word::Par)?;
    put_name(alloc, out, line, name)?;
    put(out, line, Word::OpenRound)?;
    put_all(arguments.as_slice(), alloc, out, line, false)
}
