//! Laws on the checker and on typed scripts, each the clause of a function.
ghost use Rattle.std.specs.Prelude.{◌≡◌, ◌<◌, List, length, ℕ, Option, Some, None, true};
ghost use Rattle.bds_value.specs.Fields.{is_solid};
ghost use Rattle.bds_tree.specs.declared.token.Token.{Token};
ghost use Rattle.bds_tree.specs.ScriptTexts.{Spells};
ghost use Rattle.bds_tree.specs.StmtShape.{IsLegal};
ghost use Rattle.bds_tree.specs.StmtTree.{PlaceTree, ScriptTree};
ghost use Rattle.bds_tree.specs.Tree.{Tree};
ghost use Rattle.bds_check_names.specs.declared.names.Asked.{Asked};
ghost use Rattle.bds_check_names.specs.declared.names.Names.{Names};
ghost use Rattle.bds_check_names.specs.Scopes.{is_value};
ghost use Rattle.bds_check_rules.specs.StmtBreaks.{place_ty};
ghost use Rattle.bds_check_typing.specs.Known.{AreNamesWritten, HasWrittenTypes, IsAskedWritten, IsFullyTyped, IsValueWritten};
ghost use Rattle.bds_check_typing.specs.Files.{IsProgramOf};
ghost use Rattle.bds_check_laws.specs.FirstBroken.{IsFirstBroken};
ghost use Rattle.bds_check_typing.specs.Program.{first_broken, IsAccepted, typed};
ghost use Rattle.bds_check_typing.specs.Proper.{IsProgram};
ghost use Rattle.bds_check_typing.specs.Texts.{HasShortTexts};
ghost use Rattle.bds_check_typing.specs.Typed.{IsTyped};
ghost use Rattle.bds_check_typing.specs.Walk.{Broken, judge};
ghost use Rattle.bds_check_typing.specs.WellTyped.{IsWellTyped};
ghost use Rattle.bds_check_typing.specs.WellTypedParts.{IsWellTypedPlace};
ghost use Rattle.bds_check_typing.specs.WellTypedScripts.{globals_in, IsWellTypedFrom, IsWellTypedUnder};

/// Where the walk of an expression meets no broken node, each node has its type and breaks no rule. In an
/// expression of which that holds the walk meets no broken node, and leaves it as it is.
pub fn expressions_are_well_typed()
    ensures { ((e : Tree) (names : Names) (asked : Asked) → (judge e names asked).broken ≡ None → IsWellTyped (judge e names asked).tree names asked)
        × ((e : Tree) (names : Names) (asked : Asked) → IsWellTyped e names asked → ((judge e names asked).tree ≡ e) × ((judge e names asked).broken ≡ None)) }
{}

/// Each node of a typed script has its type and breaks no rule under the names in force there. Functions
/// see the globals that are found in the source: those that the top level declares, in its order, each with
/// its type there or with none. Where the types written in a script can be written, and it is well typed
/// with the globals that its top level declares, it is accepted and has its types already.
pub fn scripts_are_well_typed()
    ensures { ((source : ScriptTree) → IsAccepted source → IsWellTypedFrom source (typed source))
        × ((s : ScriptTree) → HasWrittenTypes s → IsWellTypedUnder s (globals_in s) → IsAccepted s × (typed s ≡ s)) }
{}

/// Where the names in force have types, and what is asked is one or none, a well-typed value has a type,
/// and so has each value in it. A well-typed place has one too.
pub fn expressions_have_types()
    ensures { ((e : Tree) (names : Names) (asked : Asked) → AreNamesWritten names → IsAskedWritten asked → is_value asked ≡ true → IsWellTyped e names asked → IsValueWritten e)
        × ((p : PlaceTree) (names : Names) → AreNamesWritten names → IsWellTypedPlace p names → is_solid (place_ty names p) ≡ true) }
{}

/// Each value of a typed script has a type, and functions see just the globals that the top level
/// declares, with their types. So it is behind checking in every accepted script whose written types can
/// be written.
pub fn values_have_types()
    ensures { ((s : ScriptTree) → IsTyped s → IsFullyTyped s)
        × ((source : ScriptTree) → HasWrittenTypes source → IsAccepted source → IsFullyTyped (typed source)) }
{}

/// A typed script breaks no rule, and checking gives it back.
pub fn typed_scripts_are_checked()
    ensures { (s : ScriptTree) → IsTyped s → IsAccepted s × (typed s ≡ s) }
{}

/// The walk finds a broken node exactly where it is the first: all nodes before it break no rule, in the
/// order of the text, and it breaks this rule and none before it in the list.
pub fn broken_nodes_are_first()
    ensures { (s : ScriptTree) (b : Broken) → (first_broken s ≡ Some b → IsFirstBroken s b) × (IsFirstBroken s b → first_broken s ≡ Some b) }
{}

/// The broken node that is told stands in one of the program's files.
pub fn broken_nodes_are_in_files()
    ensures { (s : ScriptTree) (b : Broken) → IsProgram s → first_broken s ≡ Some b → b.at.file < length s.files }
{}

/// A script that a text spells has no name above the limit of a text, and no piece that is above it as
/// it is written.
pub fn spelled_scripts_have_short_texts()
    ensures { (text : List ℕ) (tokens : List Token) (script : ScriptTree) → Spells text tokens script → HasShortTexts script }
{}

/// Files that may be written, none of whose names and pieces is above the limit of a text, make a program.
pub fn files_make_programs()
    ensures { (tree_of : List ℕ → Option ScriptTree) → ((path : List ℕ) (tree : ScriptTree) → tree_of path ≡ Some tree → IsLegal tree × HasShortTexts tree)
        → (path : List ℕ) (program : ScriptTree) (beyond : List (List ℕ)) → IsProgramOf (λ p tree. tree_of p ≡ Some tree) path program beyond → IsProgram program }
{}
