//! What the laws of the bus say of each run: it keeps the rules, its report tells its journal, and where its ports count nothing,
//! nothing of it failed.
ghost use Rattle.std.specs.Prelude.{◌≡◌, ℕ, ◌≤◌, List, [], Option, All, length, reverse, Some, slice_get};
ghost use Rattle.bus_laws.specs.Reach.{AsksForMessages, AsksWithinLimits, KeepsPathsOpen};
ghost use Rattle.bus_spec.specs.Legal.{KeepsWhole, Reaches};
ghost use Rattle.bus_spec.specs.Readings.{replies};
ghost use Rattle.i2c_base.specs.Board.{BoardView};
ghost use Rattle.i2c_base.specs.declared.entry.Entry.{Entry};
ghost use Rattle.i2c_base.specs.declared.port.PortCall.{PortCall};
ghost use Rattle.i2c_spec.specs.Targets.{TargetState};
ghost use Rattle.i2c_top.specs.Runs.{HasRun, HasRunTold, asks_by};
ghost use Rattle.bus_spec.specs.Faults.{faults_in};
ghost use Rattle.journal_laws.specs.Counts.{failed_on, failures, remotes};
ghost use Rattle.journal_laws.specs.Faulty.{KeepsCuts};
ghost use Rattle.journal_laws.specs.Selected.{GoesThroughSelected};
ghost use Rattle.journal_laws.specs.Spent.{IsWithinCost, KeepsFits, cost_from, its_bytes, its_calls, of_caller, one_entry};

use bus_journal::a_report_tells_its_journal;
use bus_laws::{
    each_message_finds_its_path_open, each_message_reaches_its_target,
    no_message_stands_inside_a_transfer,
};
use caller_core::{no_section_has_a_journal_line, scripts_are_fair};
use i2c_spec::an_accepted_board_is_a_tree;
use journal_laws::{
    a_cut_is_of_a_step_on_the_way, a_legal_journal_is_stepwise, each_fault_is_a_failed_entry,
    each_message_goes_through_selected_muxes, each_reply_fits_its_transfer,
    no_caller_exceeds_its_cost, one_failure_fails_one_reply_at_most,
};

/// Each transfer that a script asks for has a message and is within the limits of a transfer, whatever its text, its board, and the
/// replies before.
///
/// So each law over journals of callers that ask so is one over the journals of scripts, also over those that are not complete.
pub fn scripts_ask_for_messages()
    ensures messages { (b : BoardView) (texts : List (List ℕ)) → AsksForMessages (asks_by b texts) }
    ensures limits { (b : BoardView) (texts : List (List ℕ)) → AsksWithinLimits (asks_by b texts) }
{
    scripts_are_fair();
}

/// Each run keeps the rules of the bus, with a schedule or without one, whichever calls of its ports fail, and whatever is told of its
/// journal.
///
/// Each message reached the device that its bus and address name, or nobody. Each mux on its way was open, with the lock of the root and
/// of each other bus there taken by its caller; and it was selected last for this way, with no deselect or close since, by this caller
/// where it disconnects when idle. No message stands between those of another transfer on its root. A settle tells a cut, and
/// EREMOTEIO, exactly where a step on the way failed by the port. There are no more such replies than entries that failed, and on each
/// root as many of these as faults in the log of its port. Each reply fits its transfer, and no caller spends more than what it asked
/// for costs.
///
/// Of a call that ends in an error, and has no run, it says nothing.
pub fn a_run_keeps_the_rules_of_the_bus()
    ensures reached { (told : List Entry → List ℕ) (b : BoardView) (texts : List (List ℕ)) (words : Option (List ℕ)) (x : List ℕ)
        (logs : List (List PortCall)) (states : List TargetState) (counts : List ℕ) → (run : HasRunTold told b texts words x logs states counts)
        → Reaches b (asks_by b texts) (reverse run.journal) }
    ensures path { (told : List Entry → List ℕ) (b : BoardView) (texts : List (List ℕ)) (words : Option (List ℕ)) (x : List ℕ)
        (logs : List (List PortCall)) (states : List TargetState) (counts : List ℕ) → (run : HasRunTold told b texts words x logs states counts)
        → KeepsPathsOpen b (asks_by b texts) (reverse run.journal) }
    ensures selected { (told : List Entry → List ℕ) (b : BoardView) (texts : List (List ℕ)) (words : Option (List ℕ)) (x : List ℕ)
        (logs : List (List PortCall)) (states : List TargetState) (counts : List ℕ) → (run : HasRunTold told b texts words x logs states counts)
        → GoesThroughSelected b (asks_by b texts) (reverse run.journal) }
    ensures whole { (told : List Entry → List ℕ) (b : BoardView) (texts : List (List ℕ)) (words : Option (List ℕ)) (x : List ℕ)
        (logs : List (List PortCall)) (states : List TargetState) (counts : List ℕ) → (run : HasRunTold told b texts words x logs states counts)
        → KeepsWhole b (reverse run.journal) }
    ensures cuts { (told : List Entry → List ℕ) (b : BoardView) (texts : List (List ℕ)) (words : Option (List ℕ)) (x : List ℕ)
        (logs : List (List PortCall)) (states : List TargetState) (counts : List ℕ) → (run : HasRunTold told b texts words x logs states counts)
        → KeepsCuts b (asks_by b texts) (reverse run.journal) }
    ensures remote { (told : List Entry → List ℕ) (b : BoardView) (texts : List (List ℕ)) (words : Option (List ℕ)) (x : List ℕ)
        (logs : List (List PortCall)) (states : List TargetState) (counts : List ℕ) → (run : HasRunTold told b texts words x logs states counts)
        → remotes (reverse run.journal) ≤ failures (reverse run.journal) }
    ensures faults { (told : List Entry → List ℕ) (b : BoardView) (texts : List (List ℕ)) (words : Option (List ℕ)) (x : List ℕ)
        (logs : List (List PortCall)) (states : List TargetState) (counts : List ℕ) → (run : HasRunTold told b texts words x logs states counts)
        → (r : ℕ) (log : List PortCall) → slice_get logs r ≡ Some log → faults_in log ≡ failed_on b r (reverse run.journal) }
    ensures fits { (told : List Entry → List ℕ) (b : BoardView) (texts : List (List ℕ)) (words : Option (List ℕ)) (x : List ℕ)
        (logs : List (List PortCall)) (states : List TargetState) (counts : List ℕ) → (run : HasRunTold told b texts words x logs states counts)
        → KeepsFits (asks_by b texts) (reverse run.journal) }
    ensures costs { (told : List Entry → List ℕ) (b : BoardView) (texts : List (List ℕ)) (words : Option (List ℕ)) (x : List ℕ)
        (logs : List (List PortCall)) (states : List TargetState) (counts : List ℕ) → (run : HasRunTold told b texts words x logs states counts)
        → (c : ℕ) → IsWithinCost (cost_from b (asks_by b texts c) [] (replies (reverse run.journal) c)) (of_caller one_entry (reverse run.journal) c)
        (of_caller its_bytes (reverse run.journal) c) (of_caller (its_calls b (asks_by b texts)) (reverse run.journal) c) }
{
    scripts_ask_for_messages();
    a_legal_journal_is_stepwise();
    each_message_reaches_its_target();
    each_message_finds_its_path_open();
    each_message_goes_through_selected_muxes();
    no_message_stands_inside_a_transfer();
    a_cut_is_of_a_step_on_the_way();
    one_failure_fails_one_reply_at_most();
    each_fault_is_a_failed_entry();
    each_reply_fits_its_transfer();
    no_caller_exceeds_its_cost();
}

/// A report tells its run: two runs whose reports are the same bytes have the same journal, entry by entry, whatever boards, scripts and
/// schedules they are of.
///
/// It says nothing of these boards, scripts and schedules, nor of the summaries of generated runs.
pub fn a_report_tells_its_run()
    ensures { (b other : BoardView) (texts more : List (List ℕ)) (words turns : Option (List ℕ)) (x y : List ℕ) (logs others : List (List PortCall))
        (states ends : List TargetState) (counts rises : List ℕ) → (one : HasRun b texts words x logs states counts)
        → (two : HasRun other more turns y others ends rises) → x ≡ y → one.journal ≡ two.journal }
{
    a_report_tells_its_journal();
    no_section_has_a_journal_line();
}

/// Where no port of a run counted a call that failed, no entry of its journal failed by the port, and so no reply of it is EREMOTEIO.
///
/// A port that counted one may still have no fault in its log, so of the other direction nothing is said.
pub fn a_run_where_no_port_counts_has_no_failed_entry()
    ensures entries { (told : List Entry → List ℕ) (b : BoardView) (texts : List (List ℕ)) (words : Option (List ℕ)) (x : List ℕ)
        (logs : List (List PortCall)) (states : List TargetState) (counts : List ℕ) → (run : HasRunTold told b texts words x logs states counts)
        → All (λ n. n ≡ 0) counts → failures (reverse run.journal) ≡ 0 }
    ensures remote { (told : List Entry → List ℕ) (b : BoardView) (texts : List (List ℕ)) (words : Option (List ℕ)) (x : List ℕ)
        (logs : List (List PortCall)) (states : List TargetState) (counts : List ℕ) → (run : HasRunTold told b texts words x logs states counts)
        → All (λ n. n ≡ 0) counts → remotes (reverse run.journal) ≡ 0 }
{
    scripts_ask_for_messages();
    an_accepted_board_is_a_tree();
    a_legal_journal_is_stepwise();
    each_fault_is_a_failed_entry();
    a_run_keeps_the_rules_of_the_bus();
}
