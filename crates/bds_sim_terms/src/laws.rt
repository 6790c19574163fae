//! Runs of the machine are runs of the program.
ghost use Rattle.std.specs.Prelude.{ℕ, List};
ghost use Rattle.bds_code.specs.declared.unit.Unit.{Unit as CodeUnit};
ghost use Rattle.bds_sim_terms.specs.steps.Stands.{Source};
ghost use Rattle.bds_sim_terms.specs.Law.{Agrees, OpeningStands};
ghost use Rattle.bds_sim.specs.MachineRun.{State};
ghost use Rattle.bds_sim_terms.specs.steps.Law.{TurnsAgree};

/// A thread that runs to a point has taken the turn of the source's thread for which it stood: the same request, fault,
/// status or end, with as many ticks left.
pub fn turns_agree()
    ensures { (o : Source) → (u : CodeUnit) → TurnsAgree o u }
{}

/// From a state of the machine that stands for a configuration of a program, the machine's run is
/// the program's: the same asks but for images, and the same end; also behind a restart.
pub fn runs_agree()
    ensures { (o : Source) → (u : CodeUnit) → (files : List (List ℕ)) → (image : State → List ℕ) → Agrees o u files image }
{}

/// The machine's opening state stands for the opening configuration.
pub fn opening_stands()
    ensures { (o : Source) → (u : CodeUnit) → (files : List (List ℕ)) → (image : State → List ℕ) → OpeningStands o u files image }
{}
