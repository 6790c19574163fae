//! What is shown of statements that are written in order.
ghost use Rattle.bds_gen_stmt_code.specs.Laws.{StatementsAreWritten, BlocksAreWritten};

/// What is written for a statement, jumps first without their places, is the code that the definitions
/// give it where it stands, with the functions of its `par` blocks.
pub fn statements_are_written()
    ensures { StatementsAreWritten }
{}

/// The same of a block that is the body of a function.
pub fn blocks_are_written()
    ensures { BlocksAreWritten }
{}
