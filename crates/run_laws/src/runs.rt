//! One report at most: what the files and the failures of the ports leave open of a run.
ghost use Rattle.std.specs.Prelude.{◌≡◌, ℕ, All, List, Option, None, Some, length, map, reverse, slice_get};
ghost use Rattle.addr_atr.specs.Lowering.{IsMap};
ghost use Rattle.addr_atr.specs.Maps.{MapView};
ghost use Rattle.addr_atr.specs.Runs.{AsksBehind};
ghost use Rattle.bus_spec.specs.Readings.{order};
ghost use Rattle.i2c_base.specs.Board.{BoardView};
ghost use Rattle.i2c_base.specs.declared.entry.Entry.{Entry};
ghost use Rattle.i2c_base.specs.declared.port.PortCall.{PortCall};
ghost use Rattle.i2c_base.specs.declared.reply.Reply.{Reply};
ghost use Rattle.i2c_base.specs.Transfer.{TransferView};
ghost use Rattle.i2c_gen.specs.declared.plan.Plan.{Plan};
ghost use Rattle.i2c_spec.specs.History.{history};
ghost use Rattle.i2c_spec.specs.Plain.{IsPlainBoard};
ghost use Rattle.i2c_spec.specs.Rules.{MeetsRules};
ghost use Rattle.i2c_spec.specs.Targets.{TargetState, opening_state};
ghost use Rattle.i2c_spec.specs.Tree.{of_device};
ghost use Rattle.i2c_top.specs.Checked.{checked_on};
ghost use Rattle.i2c_top.specs.Files.{Files};
ghost use Rattle.i2c_top.specs.Runs.{HasRun, HasRunTold, asks_by};
ghost use Rattle.i2c_top.specs.MapFiles.{HasAtrRun};
ghost use Rattle.i2c_top.specs.forms.Extras.{ExtraNames, HasExtraReport};
ghost use Rattle.i2c_top.specs.forms.Generations.{HasSummary};
ghost use Rattle.i2c_top.specs.forms.Replays.{Names, HasReport};
ghost use Rattle.i2c_top.specs.forms.Verifies.{HasVerdict};
ghost use Rattle.journal_check.specs.Faults.{IsVerified};
ghost use Rattle.i2c_lab.specs.Faults.{HasFailedAsListed, list_row};
ghost use Rattle.run_laws.specs.Alike.{ComesToTheSame, FaultsAlike, IsTheReplay, beside, steps_of};

use addr_atr::{
    a_history_behind_translators_is_the_same, a_lowered_board_opens_the_same,
    a_translated_transfer_does_the_same,
};
use caller_core::scripts_are_fair;
use i2c_spec::an_accepted_board_is_a_tree;
use journal_laws::{a_legal_journal_is_stepwise, a_schedule_has_one_legal_journal};

/// A replay is a function of its files and of which calls of its ports fail. Two runs of one board, scripts and schedule, in which of the
/// calls that both make the same fail, are the same bytes, whatever is told of their journals: their reports are, and the summaries of a generated
/// run. They have the same calls on each port and the same devices left.
///
/// Under another schedule others step first, and without one, as in `run`, the order is free. Where other calls fail a message
/// may end otherwise, and a reply with it. What the ports counted is left open: they may count more than failed.
pub fn a_replay_has_one_report()
    ensures run { (told : List Entry → List ℕ) (b : BoardView) (texts : List (List ℕ)) (words x y : List ℕ) (logs others : List (List PortCall))
        (states ends : List TargetState) (counts rises : List ℕ) → HasRunTold told b texts (Some words) x logs states counts
        → HasRunTold told b texts (Some words) y others ends rises → FaultsAlike logs others → ComesToTheSame x y logs others states ends }
    ensures report { (file : Files) (names : Names) (schedule x y : List ℕ) (logs others : List (List PortCall))
        (states ends : List TargetState) (counts rises : List ℕ) → names.schedule ≡ Some schedule → HasReport file names x logs states counts
        → HasReport file names y others ends rises → FaultsAlike logs others → ComesToTheSame x y logs others states ends }
    ensures summary { (plan : Plan) (x y : List ℕ) (logs others : List (List PortCall)) (states ends : List TargetState)
        (counts rises : List ℕ) → HasSummary plan x logs states counts → HasSummary plan y others ends rises
        → FaultsAlike logs others → ComesToTheSame x y logs others states ends }
{
    a_legal_journal_is_stepwise();
    a_schedule_has_one_legal_journal();
    an_accepted_board_is_a_tree();
    scripts_are_fair();
}

/// A replay in which the calls fail that a list names is a function of its files, the list among them: two runs of the same files come
/// to the same bytes, logs and devices.
///
/// Each makes its own calls, and that a call failed is said of those alone that it made. A list of more calls may have the same runs.
pub fn a_run_in_which_listed_calls_fail_is_a_function_of_its_files()
    ensures { (file : Files) (names : ExtraNames) (x y : List ℕ) (logs others : List (List PortCall)) (states ends : List TargetState)
        (counts rises : List ℕ) → HasExtraReport list_row file names x logs states counts → HasExtraReport list_row file names y others ends rises
        → HasFailedAsListed file names logs → HasFailedAsListed file names others → ComesToTheSame x y logs others states ends }
{
    a_replay_has_one_report();
}

/// The steps of a run, whose order is free, are a schedule, and its report is the one that a replay by that schedule has, where
/// the same calls of the ports fail.
///
/// Another run of the same scripts may have other steps, and then another report; and so may the replay by another schedule.
pub fn a_run_is_a_replay_of_its_own_steps()
    ensures { (b : BoardView) (texts : List (List ℕ)) (x : List ℕ) (logs : List (List PortCall)) (states : List TargetState)
        (counts : List ℕ) → (run : HasRun b texts None x logs states counts)
        → IsTheReplay b texts (steps_of run.journal) x logs states counts }
{
    a_replay_has_one_report();
    a_legal_journal_is_stepwise();
    an_accepted_board_is_a_tree();
    scripts_are_fair();
}

/// What `replay` and `run` write is verified, also where calls of their ports failed: where the report of a run of some scripts stands in a
/// file, `verify` of that file finds it to be verified, with as many entries as the run's journal has.
///
/// It needs neither the schedule nor the ports. Of a report that is changed nothing is said here.
pub fn what_a_run_reports_is_verified()
    ensures run { (b : BoardView) (texts : List (List ℕ)) (words : Option (List ℕ)) (x : List ℕ) (logs : List (List PortCall))
        (states : List TargetState) (counts : List ℕ) → (run : HasRun b texts words x logs states counts)
        → IsVerified (checked_on b texts) x (length run.journal) }
    ensures report { (file : Files) (names : Names) (journal x : List ℕ) (logs : List (List PortCall)) (states : List TargetState)
        (counts : List ℕ) → (report : HasReport file names x logs states counts) → file journal ≡ Some x
        → HasVerdict file (beside names journal) (length report.run.journal) }
{
    scripts_are_fair();
}

/// Over ports that counted no failed call, and the program's own never count one, a replay is a function of its files alone: two reports
/// of the same files are the same bytes, with the same calls on each port and the same devices left; and so are two summaries of one
/// plan.
///
/// Without a schedule, as in `run`, the order of the callers is free.
pub fn a_replay_over_ports_that_never_fail_is_a_function_of_its_files()
    ensures report { (file : Files) (names : Names) (schedule x y : List ℕ) (logs others : List (List PortCall))
        (states ends : List TargetState) (counts rises : List ℕ) → names.schedule ≡ Some schedule → HasReport file names x logs states counts
        → HasReport file names y others ends rises → All (λ n. n ≡ 0) counts → All (λ n. n ≡ 0) rises
        → ComesToTheSame x y logs others states ends }
    ensures summary { (plan : Plan) (x y : List ℕ) (logs others : List (List PortCall)) (states ends : List TargetState)
        (counts rises : List ℕ) → HasSummary plan x logs states counts → HasSummary plan y others ends rises
        → All (λ n. n ≡ 0) counts → All (λ n. n ≡ 0) rises → ComesToTheSame x y logs others states ends }
{
    a_replay_has_one_report();
}

/// A run behind address translators, of scripts that ask for paired addresses on child buses alone, is one of the board as it is written:
/// its replies, and the devices left, are those that the flat world of that board gives to the scripts' own transfers, in the order of the
/// run's settles and wherever each is cut off.
///
/// Of a script that asks for an address in no pair, or for another bus, it says nothing.
pub fn a_run_behind_translators_is_one_of_the_board_as_written()
    ensures { (m : MapView) (texts : List (List ℕ)) (words x : List ℕ) (logs : List (List PortCall)) (states : List TargetState)
        (counts : List ℕ) → IsPlainBoard m.board → MeetsRules m.board → IsMap m.board m.translators
        → AsksBehind m.board m.translators (asks_by m.board texts) → (run : HasAtrRun m texts words x logs states counts)
        → (history m.board (asks_by m.board texts) (order (reverse run.journal)) ≡ Some run.is_run.legal.replies_kept.told)
        × (states ≡ run.is_run.legal.replies_kept.told.states) }
{
    a_history_behind_translators_is_the_same();
}

/// Such a run changes no device but those on the child buses that the scripts name: any other is left as it was opened.
pub fn a_run_behind_translators_changes_no_other_device()
    ensures { (m : MapView) (texts : List (List ℕ)) (words x : List ℕ) (logs : List (List PortCall)) (states : List TargetState)
        (counts : List ℕ) → IsPlainBoard m.board → MeetsRules m.board → IsMap m.board m.translators
        → AsksBehind m.board m.translators (asks_by m.board texts) → HasAtrRun m texts words x logs states counts → (d : ℕ)
        → ((c : ℕ) (rs : List Reply) (t : TransferView) → asks_by m.board texts c rs ≡ Some t
        → of_device (λ y. Some y.bus) None m.board d ≡ Some t.bus → ⊥)
        → slice_get states d ≡ slice_get (map opening_state m.board.devices) d }
{
    a_translated_transfer_does_the_same();
    a_lowered_board_opens_the_same();
}
