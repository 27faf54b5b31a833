//! Journals that break a rule: that each is refused is computed by the checker.
ghost use Rattle.std.specs.Prelude.{ℕ, ◌<◌, ◌++◌, [], replicate};
ghost use Rattle.i2c_base.specs.declared.board.MuxKind.TheVariants.{Pca9548};
ghost use Rattle.i2c_spec.specs.History.{Asks};
ghost use Rattle.bus_spec.specs.Legal.{IsLegal};
ghost use Rattle.bus_spec.specs.Rows as row;
ghost use Rattle.bus_spec.specs.Schedule.{Follows};
ghost use Rattle.bus_spec.specs.Past.{now};
ghost use Rattle.bus_spec.specs.Stepwise.{IsNext, IsStepwise};
ghost use Rattle.bus_spec.specs.Walk.{Close, Send, SwitchOff};
ghost use Rattle.journal_laws.specs.Wrong as wrong;

/// A lock is not taken towards the leaves: the mux's lock after the root's.
pub fn locks_are_taken_towards_the_root()
    ensures { (callers : ℕ) (asks : Asks) → IsLegal row.parent_locked callers asks wrong.towards_the_leaves → ⊥ }
{}

/// A lock that a caller has is not taken by another.
pub fn a_lock_is_taken_by_one_caller()
    ensures { (callers : ℕ) (asks : Asks) → IsLegal row.one_device callers asks wrong.taken_twice → ⊥ }
{}

/// Another caller's message does not stand between the two of a register read.
pub fn another_message_stands_outside()
    ensures { (callers : ℕ) (asks : Asks) → IsLegal row.one_device callers asks wrong.another_inside → ⊥ }
{}

/// A settle does not come a step late.
pub fn a_settle_comes_at_once()
    ensures { (callers : ℕ) → IsLegal row.one_device callers wrong.one_asks wrong.settled_late → ⊥ }
{}

/// No other caller's entry stands between a message and the settle that it decides.
pub fn nobody_steps_before_a_settle()
    ensures { (callers : ℕ) → IsLegal row.one_device callers wrong.one_asks wrong.another_before_the_settle → ⊥ }
{}

/// No message is heard behind a channel that is closed.
pub fn a_closed_channel_lets_nothing_through()
    ensures { (callers : ℕ) (asks : Asks) → IsLegal row.parent_locked callers asks wrong.heard_on_a_closed_channel → ⊥ }
{}

/// The root's lock is not freed before the mux is deselected (Linux i2c-topology): that is no step of the walk.
pub fn a_mux_is_deselected()
    ensures legal { (callers : ℕ) → IsLegal row.parent_locked callers wrong.deep_asks wrong.not_deselected → ⊥ }
    ensures stepwise { (callers : ℕ) → IsStepwise row.parent_locked callers wrong.deep_asks wrong.not_deselected → ⊥ }
{}

/// After a deselect that failed, the close of the marked mux comes next, and no select.
pub fn a_marked_mux_is_closed_first()
    ensures { IsNext row.parent_locked wrong.two_asks (now row.parent_locked wrong.two_asks wrong.behind_a_failed_deselect) 0 (Send (SwitchOff (Close 0 0 Pca9548)) 0) }
{}

/// After a deselect that failed, no channel of the marked mux is selected before its close: the next byte that the
/// mux is sent is the one that closes it.
pub fn no_select_before_the_close()
    ensures { (callers byte : ℕ) → 0 < byte → IsLegal row.parent_locked callers wrong.two_asks (wrong.select_over_the_mark byte) → ⊥ }
{}

/// A mark that a failed deselect left is not forgotten: the next transfer does not go straight to its select and its
/// messages.
pub fn a_forgotten_mark()
    ensures { (callers : ℕ) → IsLegal row.parent_locked callers wrong.two_asks wrong.mark_forgotten → ⊥ }
{}

/// Where a mux that stays as it is keeps another channel, no message goes out before a select: the channel that was kept
/// before isn't kept any more.
pub fn another_channel_is_selected_first()
    ensures { (callers : ℕ) → IsLegal wrong.kept_board callers wrong.keep_asks wrong.select_left_out → ⊥ }
{}

/// A channel that was kept is forgotten where a select of its mux fails by the port: no message goes out over the mark, nor
/// straight after the close.
pub fn a_failed_select_forgets_what_was_kept()
    ensures mark { (callers : ℕ) → IsLegal wrong.kept_board callers wrong.keep_asks wrong.kept_over_the_mark → ⊥ }
    ensures close { (callers : ℕ) → IsLegal wrong.kept_board callers wrong.keep_asks wrong.kept_over_the_close → ⊥ }
{}

/// A mux that stays as it is is left alone: its kept channel isn't selected again, and it isn't deselected.
pub fn a_mux_that_stays_is_left_alone()
    ensures again { (callers : ℕ) → IsLegal wrong.kept_board callers wrong.same_asks wrong.selected_again → ⊥ }
    ensures deselected { (callers : ℕ) → IsLegal wrong.kept_board callers wrong.same_asks wrong.deselected → ⊥ }
{}

/// A message to one device is not told as one to its neighbour, though the neighbour would have heard it.
pub fn a_message_tells_its_target()
    ensures { (callers : ℕ) → IsLegal wrong.neighbours callers wrong.one_asks wrong.another_target → ⊥ }
{}

/// A message is not told as another part of another transfer.
pub fn a_message_tells_its_part()
    ensures { (callers : ℕ) → IsLegal row.one_device callers wrong.silent_asks wrong.another_part → ⊥ }
{}

/// A failed message is not told as a later part: its transfer's cut would be a later one, and its reply another.
pub fn a_failed_message_tells_its_part()
    ensures { (callers : ℕ) → IsLegal row.one_device callers wrong.top_asks wrong.cut_at_another_part → ⊥ }
{}

/// A line step tells its mux and its level.
pub fn a_line_tells_its_mux()
    ensures mux { (callers : ℕ) → IsLegal row.gpio callers wrong.line_asks wrong.another_line → ⊥ }
    ensures level { (callers : ℕ) → IsLegal row.gpio callers wrong.line_asks wrong.another_level → ⊥ }
{}

/// A write is not told as a read.
pub fn a_message_tells_its_direction()
    ensures { (callers : ℕ) → IsLegal row.one_device callers wrong.one_asks wrong.another_direction → ⊥ }
{}

/// The root's lock is not freed between the messages of a transfer (UM10204 section 3.1.10).
pub fn the_lock_is_held_through_a_transfer()
    ensures { (callers : ℕ) → IsLegal row.one_device callers wrong.one_asks wrong.unlocked_early → ⊥ }
{}

/// A select is a transfer of its own: it is not joined to the caller's messages (Linux i2c-topology).
pub fn a_select_is_a_transfer_of_its_own()
    ensures { (callers : ℕ) → IsLegal row.parent_locked callers wrong.deep_asks wrong.select_joined → ⊥ }
{}

/// After the select of a mux-locked mux the root's lock is freed: the chain isn't held as for a parent-locked one
/// (Linux i2c-topology).
pub fn a_mux_locked_mux_frees_its_root()
    ensures { (callers : ℕ) → IsLegal row.mux_locked callers wrong.deep_asks wrong.held_as_parent_locked → ⊥ }
{}

/// A schedule is not ignored: a journal of one caller after the other doesn't follow a schedule in which they alternate, nor
/// does one in which they alternate follow the empty schedule, where always the least caller steps that can.
pub fn a_schedule_is_not_ignored()
    ensures serial { Follows (replicate 4 0 ++ replicate 4 1) wrong.one_after_the_other → ⊥ }
    ensures alternating { Follows [] row.mux_locked_journal → ⊥ }
{}
