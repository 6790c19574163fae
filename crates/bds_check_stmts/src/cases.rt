//! The walk through the cases of a `switch`.
ghost use Rattle.std.specs.Prelude.{◌≡◌};
ghost use Rattle.bds_tree.specs.StmtView.{case_of, cases_of};
ghost use Rattle.bds_check_typing.specs.StmtWalk as walk;
ghost use Rattle.bds_check_stmts.specs.InPlace.{bare_case, bare_cases, LeavesCase, LeavesCases};

use crate::stmts::walk_within;
use bds_check_names::{Names, Site, in_switch};
use bds_check_rules::CheckFault;
use bds_check_stmt_parts::walk_maybe;
use bds_tree::{Case, Cases};
use std::alloc::Global;

/// The cases of a `switch`.
#[cycle(statements)]
pub fn walk_cases(
    alloc: Global,
    names: &mut Names,
    site: &Site,
    cases: &mut Cases,
) -> Result<(), CheckFault>
    ensures fits { LeavesCases result (cases_of cases.new) (walk.judge_cases (cases_of cases.old) names.old site.now) }
    ensures kept { bare_cases (cases_of cases.new) ≡ bare_cases (cases_of cases.old) }
    ensures same { names.new ≡ names.old }
{
    for i in 0..cases.len() {
        walk_case(alloc, names, site, cases.at_mut(i))?;
    }
    Ok(())
}

/// A case: its label, and then its statements, which are a block.
#[cycle(statements)]
fn walk_case(
    alloc: Global,
    names: &mut Names,
    site: &Site,
    case: &mut Case,
) -> Result<(), CheckFault>
    ensures fits { LeavesCase result (case_of case.new) (walk.judge_case (case_of case.old) names.old site.now) }
    ensures kept { bare_case (case_of case.new) ≡ bare_case (case_of case.old) }
    ensures same { names.new ≡ names.old }
{
    let within = in_switch(alloc, names, site)?;
    walk_maybe(alloc, names, &mut case.label)?;
    walk_within(alloc, names, &within, &mut case.stmts)
}
