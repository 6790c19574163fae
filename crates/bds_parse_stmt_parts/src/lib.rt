//! What stands within a line: signs, types, places, options, commands and the heads of lines, read off the front of the tokens.
#![tactic(auto)]

mod acts;
pub mod build;
mod heads;
mod places;
mod signs;
mod smalls;
mod types;
mod words;

pub use acts::{body, settings};
pub use heads::{Head, head_at};
pub use signs::{behind, end_ahead, line_end, nothing_ahead, sign_ahead};
pub use smalls::{maybe_expr, maybe_small};
pub use types::{result_at, type_at};
pub use words::{LineKind, Sign, StmtKind, is_act, line_kind, stmt_kind};
