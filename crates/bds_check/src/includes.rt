//! Whether a script holds an include.
ghost use Rattle.std.specs.Prelude.{◌≡◌, map};
ghost use Rattle.std.specs.List.{list_any};
ghost use Rattle.bds_tree.specs.StmtView.{part_of, script_of};
ghost use Rattle.bds_check_typing.specs.Program as program;

use bds_tree::{Part, Script};

fn is_include(part: &Part) -> bool
    ensures { result ≡ program.is_include (part_of part.now) }
{
    match part {
        Part::Include(_) => true,
        Part::Function(_) => false,
        Part::Stmt(_) => false,
    }
}

fn any_include(parts: &[Part]) -> bool
    ensures { result ≡ list_any program.is_include (map part_of parts.now) }
{
    for part in parts {
        if is_include(part) {
            return true;
        }
    }
    false
}

/// Whether a script includes another file.
pub fn holds_include(script: &Script) -> bool
    ensures { result ≡ program.holds_include (script_of script.now) }
{
    any_include(script.parts.as_slice())
}
