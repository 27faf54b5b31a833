//! Worked examples: the journals of small scripts on small boards keep every rule.
ghost use Rattle.std.specs.Prelude.{◌++◌, [], ◌∷◌, replicate};
ghost use Rattle.bus_spec.specs.Play.{played, transfers_of, fails_at};
ghost use Rattle.bus_spec.specs.Rows as row;
ghost use Rattle.journal_laws.specs.Worked.{IsWorkedOut};

use bus_spec::{
    a_failed_close_fails_its_transfer, a_failed_deselect_is_mended_by_a_close,
    a_failed_select_forgets_the_channel, a_failed_way_marks_both_muxes,
    a_held_arbitrator_is_given_up_after_eight_polls, a_kept_channel_is_not_selected_again,
    a_mux_locked_read_lets_another_in, a_parent_locked_read_lets_nobody_in,
    an_absent_inner_mux_settles_at_its_select, an_arbitrator_is_found_free_at_the_eighth_poll,
    two_muxes_keep_their_channels,
};
use i2c_spec::an_accepted_board_is_a_tree;

/// Each worked journal is legal and complete for its scripts, and follows its schedule: two callers that come in between
/// each other or wait, a mux that is absent, an arbitrator that is found free or held, muxes that keep their channels, and
/// port calls that fail.
///
/// None of them has a premise.
pub fn the_worked_journals_keep_every_rule()
    ensures mux_locked { IsWorkedOut row.mux_locked ((row.read 1 0x30 0 ∷ []) ∷ (row.read 0 0x20 5 ∷ []) ∷ []) (replicate 4 0 ++ replicate 4 1) row.mux_locked_journal }
    ensures parent_locked { IsWorkedOut row.parent_locked ((row.read 1 0x30 0 ∷ []) ∷ (row.read 0 0x20 5 ∷ []) ∷ []) (replicate 4 0 ++ replicate 4 1) row.parent_locked_journal }
    ensures absent_inner { IsWorkedOut row.absent_inner ((row.read 9 0x20 0 ∷ []) ∷ []) [] row.absent_inner_journal }
    ensures found_free { IsWorkedOut (row.arbitrator 7) ((row.read 1 0x20 5 ∷ []) ∷ []) [] row.arbitrator_journal }
    ensures held { IsWorkedOut (row.arbitrator 8) ((row.read 1 0x20 5 ∷ []) ∷ []) [] row.held_journal }
    ensures failed_deselect { IsWorkedOut row.parent_locked ((row.read 1 0x30 0 ∷ row.read 2 0x31 0 ∷ []) ∷ []) [] row.failed_deselect_journal }
    ensures failed_close { IsWorkedOut row.parent_locked ((row.read 1 0x30 0 ∷ row.read 2 0x31 0 ∷ []) ∷ []) [] row.failed_close_journal }
    ensures two_marks { IsWorkedOut row.absent_outer ((row.read 9 0x20 0 ∷ row.read 9 0x20 0 ∷ []) ∷ []) [] row.two_marks_journal }
    ensures failed_way { IsWorkedOut row.chain ((row.read 13 0x40 0 ∷ []) ∷ []) []
        (played row.chain (transfers_of ((row.read 13 0x40 0 ∷ []) ∷ [])) (fails_at 0 18) (replicate 60 0)) }
    ensures kept { IsWorkedOut (row.keeping row.parent) ((row.read 1 0x30 0 ∷ row.read 1 0x30 0 ∷ row.read 2 0x31 0 ∷ []) ∷ []) [] row.kept_journal }
    ensures beside { IsWorkedOut row.three_beside ((row.read 1 0x30 0 ∷ row.read 9 0x31 0 ∷ row.read 13 0x32 0 ∷ row.read 1 0x30 0 ∷ row.read 9 0x30 0 ∷ []) ∷ []) [] row.beside_journal }
    ensures forgotten { IsWorkedOut (row.keeping row.parent) ((row.read 1 0x30 0 ∷ row.read 2 0x31 0 ∷ row.read 1 0x30 0 ∷ []) ∷ []) [] row.forgotten_journal }
{
    an_accepted_board_is_a_tree();
    a_mux_locked_read_lets_another_in();
    a_parent_locked_read_lets_nobody_in();
    an_absent_inner_mux_settles_at_its_select();
    an_arbitrator_is_found_free_at_the_eighth_poll();
    a_held_arbitrator_is_given_up_after_eight_polls();
    a_failed_deselect_is_mended_by_a_close();
    a_failed_close_fails_its_transfer();
    a_failed_way_marks_both_muxes();
    a_kept_channel_is_not_selected_again();
    two_muxes_keep_their_channels();
    a_failed_select_forgets_the_channel();
}
