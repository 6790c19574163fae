//! Typed scripts with what words set in them.
ghost use Rattle.std.specs.Prelude.{◌≤◌, length};
ghost use Rattle.bds_value.specs.declared.TheConstants.{MAX_ITEMS};
ghost use Rattle.bds_tree.specs.StmtView.{script_of};
ghost use Rattle.bds_check.specs.SetWords.{IsSet};
ghost use Rattle.bds_check_typing.specs.Texts.{AreShortTexts};
ghost use Rattle.bds_check_typing.specs.WellTypedScripts.{globals_in};
ghost use Rattle.bds_check_words.specs.WordSettings.{words_give};

use crate::checking::Typed;
use bds_check_words::{Preset, WordsFault, read_settings};
use bds_value::Texts;
use std::alloc::Global;

/// The typed script with what the words behind it set, in the place of what was set before; or the
/// fault of the first word that sets nothing. The script is dropped then.
pub fn with_words(alloc: Global, typed: Typed, words: &Texts) -> Result<Typed, WordsFault>
    requires few { length words.now ≤ MAX_ITEMS }
    requires short { AreShortTexts words.now }
    ensures { IsSet typed (words_give (globals_in (script_of typed.script)) words.now) result }
{
    match read_settings(alloc, typed.globals(), words) {
        Ok(Preset { settings, args }) => Ok(typed.set(settings, args)),
        Err(fault) => Err(fault),
    }
}
