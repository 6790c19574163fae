//! What is shown of the flow of operands.

ghost use Rattle.bds_gen_flow.specs.Laws.{ExpressionsRun, FunctionsHaveShapes};

/// The code of each well-typed expression has its size, finds the operands that it takes, and leaves one
/// more, of its type.
pub fn expressions_run()
    ensures { ExpressionsRun }
{}

/// Where operands go through all marks of a function, the verifier's lists of operand types are there.
pub fn functions_have_shapes()
    ensures { FunctionsHaveShapes }
{}
