//! Laws on the rules, each the clause of a function.
ghost use Rattle.std.specs.Prelude.{◌≡◌, false};
ghost use Rattle.bds_tree.specs.declared.token.Piece.{Piece};
ghost use Rattle.bds_check_names.specs.declared.names.Names.{Names};
ghost use Rattle.bds_check_names.specs.PieceKinds.{is_unread};
ghost use Rattle.bds_check_names.specs.Scopes.{found, is_missing};
ghost use Rattle.bds_check_rules.specs.Pieces.{any_name};

/// A name that a piece looks for isn't in force exactly where the piece is one of a variable and is plain
/// as it is written.
pub fn missing_names_are_as_written()
    ensures { (names : Names) (p : Piece) → names.finding ≡ false → any_name (is_missing names.finding) names p ≡ is_unread (λ x. found x names) p }
{}
