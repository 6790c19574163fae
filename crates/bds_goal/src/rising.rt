//! Texts in rising order, each once.
ghost use Rattle.std.specs.Prelude.{◌≡◌, [], IfOk, OnOk, OnErr};
ghost use Rattle.std.specs.List.Sorted.{IsPermutation, IsSortedBy};
ghost use Rattle.bds_value.specs.Order.{is_before};
ghost use Rattle.bds_goal.specs.Collected.{is_behind, last_text, unrepeated};
ghost use Rattle.bds_goal.specs.Rising.{AreRising};

use bds_value::{ByteText, Listed, NoMemory, Texts, copy_text, is_before};
use std::alloc::Global;

/// Puts texts in order.
fn sort(texts: &mut Vec<ByteText>) -> Result<(), NoMemory>
    ensures moved { IsPermutation texts.old.items texts.new.items }
    ensures sorted { OnOk result (IsSortedBy is_before texts.new.items) }
{
    texts.sort_by(|a, b| a.as_slice().cmp(&b.as_slice()))?;
    Ok(())
}

/// A text comes behind the last of others, where there is one.
#[tactic(auto, using(crate::proofs::LastLaws::last_text_rules))]
fn is_behind(texts: &Texts, text: &ByteText) -> bool
    ensures { result ≡ is_behind (last_text texts.now) text.now }
{
    match texts.as_slice().last() {
        Some(last) => is_before(last, text),
        None => true,
    }
}

/// Texts in order, each once.
fn unrepeated(alloc: Global, texts: &[ByteText]) -> Result<Texts, NoMemory>
    ensures { IfOk result (λ out. out ≡ unrepeated [] texts.now) }
{
    let mut out = Listed::new(alloc);
    for text in texts {
        if is_behind(&out, text) {
            out.push(copy_text(alloc, text)?)?;
        }
    }
    Ok(out)
}

/// The texts in rising order, each once.
pub(crate) fn rising(alloc: Global, texts: Texts) -> Result<Texts, NoMemory>
    ensures { IfOk result (λ out. AreRising texts out) }
{
    let mut texts = texts.into_vec();
    sort(&mut texts)?;
    unrepeated(alloc, &texts)
}
