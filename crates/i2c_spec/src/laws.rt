//! Laws of the definitions.

ghost use Rattle.i2c_base.specs.Board.{BoardView};
ghost use Rattle.i2c_spec.specs.Plain.{IsPlainBoard};
ghost use Rattle.i2c_spec.specs.Rules.{MeetsRules};
ghost use Rattle.i2c_spec.specs.TreeFacts.{IsTree};

/// An accepted board is a tree: each bus has one way up to one root, every hop is what the board says of its
/// mux, and no address stands on two targets of which one's bus lies on the other's path.
pub fn an_accepted_board_is_a_tree()
    ensures { (b : BoardView) → IsPlainBoard b → MeetsRules b → IsTree b }
{}
