//! The canonical text of a script, within the limit of a text.
ghost use Rattle.bds_fmt.specs.Formats.{Formats};
ghost use Rattle.bds_fmt.specs.Law.{CanonicalLaw};

use crate::fault::FormatFault;
use crate::first_line::put_kept_line;
use crate::laying::{is_beyond, put_tokens};
use bds_tree::Tokens;
use bds_value::{ByteText, MAX_TEXT};
use std::alloc::Global;

fn canonical_of(alloc: Global, text: &[u8], tokens: &Tokens) -> Result<ByteText, FormatFault>
    ensures { Formats text.now tokens.now result }
{
    let mut out = ByteText::new(alloc);
    put_kept_line(&mut out, text)?;
    put_tokens(alloc, &mut out, tokens.as_slice(), MAX_TEXT)?;
    if is_beyond(&out, MAX_TEXT) {
        Err(FormatFault::TooLong)
    } else {
        Ok(out)
    }
}

/// The canonical text of a text with these tokens, or that it is too long; no more of it is made than a text may hold, and one token.
/// That of a script spells the script in all but lines, and is its own canonical text.
pub fn canonical_text(
    alloc: Global,
    text: &ByteText,
    tokens: &Tokens,
) -> Result<ByteText, FormatFault>
    ensures value { Formats text.now tokens.now result }
    ensures law { CanonicalLaw text.now tokens.now }
{
    canonical_of(alloc, text.as_slice(), tokens)
}
