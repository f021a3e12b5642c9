//! The trees of scripts as values that compute, so that what a script means can be tried on one.
//!
//! They have the parts of the trees that the parser makes, and the definitions of specs/ make one of the other.
#![tactic(auto)]

ghost use Rattle.syntax_trees.specs.Layers.{ClassesByLayer, ExprsByLayer, KindsByLayer, PatternKindsByLayer};
ghost use Rattle.syntax_trees.specs.Layers.{PatternsByLayer, StmtKindsByLayer, StmtsByLayer};

/// Each layer of the parser's tree gives one layer of the tree, of the trees of its parts.
pub fn layers()
    ensures expressions { ExprsByLayer }
    ensures kinds { KindsByLayer }
    ensures statements { StmtsByLayer }
    ensures statement_kinds { StmtKindsByLayer }
    ensures patterns { PatternsByLayer }
    ensures pattern_kinds { PatternKindsByLayer }
    ensures classes { ClassesByLayer }
{}
