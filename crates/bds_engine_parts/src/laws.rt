//! Laws of runs, which do nothing.
ghost use Rattle.std.specs.Prelude.{◌≡◌, ℕ};
ghost use Rattle.bds_host.specs.Host.{Log};
ghost use Rattle.bds_schedule.specs.Configuration.{Mode};
ghost use Rattle.bds_state.specs.Parts.{Parts};
ghost use Rattle.bds_state.specs.Valid.{IsValid};
ghost use Rattle.bds_engine_parts.specs.Image.{state_of};
ghost use Rattle.bds_engine_parts.specs.Look.{LooksSame};
ghost use Rattle.bds_engine_parts.specs.Run.{Causes};
ghost use Rattle.bds_engine_parts.specs.Seen.{seen};

/// The replies of a run determine its end, which is a fault of the device exactly where one of them
/// is a fault.
pub fn ends_have_causes()
    ensures { (s : Parts) → (cpus : ℕ) → (budget : ℕ) → (before : Log) → (after : Log) → Causes s cpus budget before after }
{}

/// The bytes that are saved are those of the state from which the configuration is seen.
pub fn states_are_saved_as_they_are()
    ensures { (s : Parts) → IsValid s → (cpus : ℕ) → (budget : ℕ) → (used : ℕ) → (mode : Mode) → state_of s.unit (seen s cpus budget used mode) ≡ s }
{}

/// What is told of a valid state is what the schedule asks of its configuration.
pub fn states_look_the_same()
    ensures { (s : Parts) → IsValid s → (cpus : ℕ) → (budget : ℕ) → (used : ℕ) → (mode : Mode) → LooksSame s cpus budget used mode }
{}
