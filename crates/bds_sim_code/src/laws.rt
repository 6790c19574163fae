//! Laws of generated units.
ghost use Rattle.bds_sim_code.specs.CheckpointLaw.{ScriptHistoriesGoOn};
ghost use Rattle.bds_sim_code.specs.Law.{MainThreadsStand, TypedScriptsAreHere, UnitsHaveCode};
ghost use Rattle.bds_sim_code.specs.OpeningLaw.{BegunStatesStand, UnitsRunAsScripts};
ghost use Rattle.bds_code.specs.declared.unit.Unit.{Unit as CodeUnit};
ghost use Rattle.bds_meaning.specs.Run.{Conf};
ghost use Rattle.bds_sim_terms.specs.steps.Stands.{Source};
ghost use Rattle.bds_sim_code.specs.Checkpoints.{HistoriesGoOn};

use bds_ckpt::states_are_read_back;
use bds_sim_terms::{opening_stands, runs_agree};

/// The unit of a script has the code of the script's program: each function that a name calls has
/// that of the program's function of the name.
pub fn units_have_code()
    ensures { UnitsHaveCode }
{}

/// The main thread with which a run begins stands for the script's code.
pub fn main_threads_stand()
    ensures { MainThreadsStand }
{}

/// A typed script has what the laws on units ask, with what words set in it.
pub fn typed_scripts_are_here()
    ensures { TypedScriptsAreHere }
{}

/// The state with which the run of a script's unit begins stands for the configuration in which the
/// script opens.
pub fn begun_states_stand()
    ensures { BegunStatesStand }
{
    main_threads_stand();
    opening_stands();
}

/// The machine's run of a typed script's unit from its beginning is the script's: the same asks but
/// for images, and the same end, whatever is replied.
pub fn units_run_as_scripts()
    ensures { UnitsRunAsScripts }
{
    begun_states_stand();
    typed_scripts_are_here();
    units_have_code();
    runs_agree();
}

/// Where a unit has the code of a program, the program's history goes on by a run of the unit, and
/// each save is a checkpoint of it: bytes from which a state is loaded that stands for the
/// configuration behind the save. From any checkpoint the history goes on by a restart.
pub fn histories_go_on()
    ensures { (o : Source) → (u : CodeUnit) → (opening : Conf) → HistoriesGoOn o u opening }
{
    runs_agree();
    states_are_read_back();
}

/// What the run of a typed script's unit saves are checkpoints of the script's history, and from each
/// one the history goes on by a restart, with the same end and further checkpoints.
pub fn script_histories_go_on()
    ensures { ScriptHistoriesGoOn }
{
    begun_states_stand();
    typed_scripts_are_here();
    units_have_code();
    histories_go_on();
}
