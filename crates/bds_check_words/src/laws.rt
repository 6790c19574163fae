//! Laws on what words give, each the clause of a function.
ghost use Rattle.std.specs.Prelude.{◌≡◌, ◌≤◌, List, ℕ, Ok, length};
ghost use Rattle.bds_value.specs.declared.TheConstants.{MAX_ITEMS};
ghost use Rattle.bds_tree.specs.StmtTree.{ScriptTree};
ghost use Rattle.bds_check_size.specs.ScriptSize.{Settings};
ghost use Rattle.bds_check_typing.specs.Texts.{AreShortTexts};
ghost use Rattle.bds_check_typing.specs.Typed.{IsTyped, IsTypedWith};
ghost use Rattle.bds_check_typing.specs.WellTypedScripts.{globals_in};
ghost use Rattle.bds_check_words.specs.WordSettings.{words_give};

/// What words give fits a typed script that has these globals, where there are no more words than a
/// list may have items, and each is within the limit of a text.
pub fn given_values_fit()
    ensures { (s : ScriptTree) (words : List (List ℕ)) (settings : Settings) (args : List (List ℕ)) → IsTyped s → length words ≤ MAX_ITEMS → AreShortTexts words
        → words_give (globals_in s) words ≡ Ok (settings, args) → IsTypedWith s settings args }
{}
