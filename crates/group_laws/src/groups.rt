//! Groups of callers that share no root: their journals, one after the other, are one.
ghost use Rattle.std.specs.Prelude.{◌≡◌, ℕ, ◌<◌, Bool, true, List, None};
ghost use Rattle.i2c_base.specs.Board.{BoardView};
ghost use Rattle.i2c_base.specs.declared.entry.Entry.{Entry};
ghost use Rattle.i2c_base.specs.Transfer.{TransferView};
ghost use Rattle.i2c_spec.specs.Plain.{IsPlainBoard};
ghost use Rattle.i2c_spec.specs.Rules.{MeetsRules};
ghost use Rattle.i2c_spec.specs.Tree.{buses, root_of};
ghost use Rattle.i2c_spec.specs.History.{Asks};
ghost use Rattle.bus_spec.specs.Grammar.{walk_for};
ghost use Rattle.bus_spec.specs.Past.{now, opening};
ghost use Rattle.bus_spec.specs.Stepwise.{IsStepwise};
ghost use Rattle.group_laws.specs.Groups.{StaysIn, IsGroup, IsAlike, GoesOn, Part, ArePartsApart, AreParts, AreJoined};

use i2c_spec::an_accepted_board_is_a_tree;

/// The walk of a transfer looks at, locks, sends on and marks buses of its own root alone.
pub fn each_walk_stays_in_its_roots()
    ensures { (b : BoardView) (roots : ℕ → Bool) (t : TransferView) → IsPlainBoard b → MeetsRules b
        → (t.bus < buses b → roots (root_of b t.bus) ≡ true) → StaysIn b roots (walk_for b t) }
{
    an_accepted_board_is_a_tree();
}

/// A journal of a group may stand behind any past that left the group's callers and roots as at the opening: each entry
/// might come there too; of the group all is as its own journal tells; and what stands apart from it stays.
///
/// Where the past left a settle due, or two groups had a root in common, an entry might not come.
pub fn a_group_goes_on_by_itself()
    ensures { (b : BoardView) (callers : ℕ) (all own : Asks) (roots who : ℕ → Bool) (before mine : List Entry) → IsPlainBoard b → MeetsRules b
        → IsGroup b all own roots who → IsAlike b roots who (now b all before) (opening b) → (now b all before).due ≡ None
        → IsStepwise b callers all before → IsStepwise b callers own mine → GoesOn b callers all own roots who before mine }
{
    an_accepted_board_is_a_tree();
}

/// The journals of groups that have no root and no caller in common, one after the other, are one journal of all of them:
/// each entry might come where it stands, no settle is due, and of each group all stands as its own journal tells.
///
/// Groups with a root in common could each hold its lock, and would find its devices otherwise.
pub fn journals_of_groups_are_one()
    ensures { (b : BoardView) (callers : ℕ) (all : Asks) (parts : List Part) → IsPlainBoard b → MeetsRules b
        → AreParts b callers all parts → ArePartsApart parts → AreJoined b callers all parts }
{
    an_accepted_board_is_a_tree();
}
