//! Laws on the words of a call, each the clause of a function.
ghost use Rattle.std.specs.Prelude.{List};
ghost use Rattle.clap.specs.Words.{Text};
ghost use Rattle.bds_app_words.specs.Alone.{IsNoOption, IsRunAlone};
ghost use Rattle.bds_app_words.specs.Ranges.{IsShort};
ghost use Rattle.bds_app_words.specs.Understood.{IsUnderstood};

/// Words that are neither too many nor too long, and in which `clap` finds no fault, ask for something,
/// or their options for the host clash.
#[tactic(auto, using(crate::proofs::Understood::understood))]
pub fn accepted_words_ask_for_something()
    ensures { (words : List Text) → IsUnderstood words }
{}

/// A path that isn't too long and is no option is run with the defaults, where it stands alone behind `run`.
#[tactic(auto, using(crate::proofs::Alone::alone))]
pub fn a_path_alone_is_run()
    ensures { (path : Text) → IsNoOption path → IsShort path → IsRunAlone path }
{}
