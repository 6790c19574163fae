//! Expressions with their heights.

ghost use Rattle.std.specs.Prelude.{◌≡◌};
ghost use Rattle.bds_tree.specs.Shape;
ghost use Rattle.bds_tree.specs.View.{tree_of, trees_of, pairs_of};

use bds_tree::{Expr, ExprPairs, Exprs};

/// An expression, and how many expressions lie above the deepest one within.
#[derive(Drop)]
pub struct Tall {
    pub expr: Expr,
    pub height: u32,
    ghost is_height: { height ≡ Shape.height (tree_of expr) },
}

/// Several expressions, with the height of a form that holds them.
#[derive(Drop)]
pub struct TallExprs {
    pub items: Exprs,
    pub height: u32,
    ghost is_height: { height ≡ Shape.heights (trees_of items) },
}

/// The same of the pairs of a map.
#[derive(Drop)]
pub struct TallPairs {
    pub items: ExprPairs,
    pub height: u32,
    ghost is_height: { height ≡ Shape.pair_heights (pairs_of items) },
}
