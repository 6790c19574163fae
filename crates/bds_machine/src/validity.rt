//! What rows of the table do to valid threads, and which operands methods take.
ghost use Rattle.std.specs.Prelude.{◌≡◌, ◌≢◌, ℕ, List, [], slice_get, IsSome, Some, Ok};
ghost use Rattle.bds_value.specs.declared.value.Ty.{Ty};
ghost use Rattle.bds_value.specs.declared.value.Value.{Value};
ghost use Rattle.bds_code.specs.declared.unit.Unit.{Unit as CodeUnit};
ghost use Rattle.bds_code.specs.MethodRows.{method};
ghost use Rattle.bds_code_frames.specs.Stack.{Stack};
ghost use Rattle.bds_verify.specs.Threads.{AreLive};
ghost use Rattle.bds_verify.specs.Verified.{VerifiedUnit};
ghost use Rattle.bds_machine.specs.Calls.{On};
ghost use Rattle.bds_machine.specs.MethodOperands.{IsMethod};
ghost use Rattle.bds_machine.specs.Table.{step};
ghost use Rattle.bds_machine_values.specs.Values.{argument_counts};

/// In a verified unit a valid thread has a next row, and where that goes on the thread is valid behind
/// it: each operand, slot and global that a row meets is there and has its type.
pub fn rows_keep_threads_valid()
    ensures { (u : CodeUnit) → VerifiedUnit u → (g : List Value) → (s : Stack) → (t : ℕ) → AreLive u g s → s ≢ [] → IsSome (step u g s t)
        × ((g' : List Value) → (s' : Stack) → (t' : ℕ) → step u g s t ≡ Some (On g' s' t') → AreLive u g' s' × (s' ≢ [])) }
{}

/// A method whose effect on the types of the operands is given takes the receiver and the arguments of
/// a row in the table of methods, as many as the machine takes, and gives what that row says: a law,
/// which does nothing.
pub fn methods_take_their_rows()
    ensures { (m : ℕ) → (shape : List Ty) → (next : List Ty) → method m shape ≡ Ok next
        → (n : ℕ) × (slice_get argument_counts m ≡ Some n) × IsMethod m n shape next }
{}
