//! What a call runs is the run of the machine.
ghost use Rattle.std.specs.Prelude.{ℕ, List};
ghost use Rattle.bds_code.specs.declared.unit.Unit.{Unit as CodeUnit};
ghost use Rattle.bds_sim.specs.MachineRun.{State};
ghost use Rattle.bds_sim.specs.Turns.{CallsAreRuns};

/// What a call runs of a valid thread, up to a point, are steps of the machine's run.
pub fn calls_are_runs()
    ensures { (u : CodeUnit) → (files : List (List ℕ)) → (image : State → List ℕ) → CallsAreRuns u files image }
{}
