//! Laws on how many instructions a script has, each the clause of a function.
ghost use Rattle.std.specs.Prelude.{◌≤◌, ◌+◌, ◌*◌, List, Option, ℕ};
ghost use Rattle.bds_value.specs.declared.value.Ty.{Ty};
ghost use Rattle.bds_tree.specs.StmtTree.{ScriptTree, StmtTree};
ghost use Rattle.bds_tree.specs.Tree.{Tree};
ghost use Rattle.bds_check_size.specs.ExprSize.{expr_size};
ghost use Rattle.bds_check_size.specs.Known.{Known};
ghost use Rattle.bds_check_size.specs.Nodes.{expr_nodes, stmt_nodes};
ghost use Rattle.bds_check_size.specs.ParSize.{pars_size, par_locals};
ghost use Rattle.bds_check_size.specs.ScriptSize.{AreDistinct, Settings, global_names, program_bound, program_size};
ghost use Rattle.bds_check_size.specs.StmtSize.{stmt_size};

/// An expression has at most 32 instructions for each of its nodes and for each piece of its texts.
pub fn expressions_are_small()
    ensures { (types : List ℕ → Option Ty) (e : Tree) → expr_size types e ≤ 32 * expr_nodes e }
{}

/// So has a statement, with the functions of the `par` blocks in it and one more for each local in force
/// at each of these blocks.
pub fn statements_are_small()
    ensures { (s : StmtTree) (k : Known) → stmt_size s k + pars_size s k ≤ 32 * stmt_nodes s + par_locals s k }
{}

/// Where no global is declared twice, a script has at most 64 instructions, 32 for each node and piece,
/// one for each local in force at each `par` block, and one for each item that words give.
pub fn scripts_are_small()
    ensures { (settings : Settings) (args : List (List ℕ)) (s : ScriptTree) → AreDistinct (global_names s.parts) → program_size settings args s ≤ program_bound settings args s }
{}
