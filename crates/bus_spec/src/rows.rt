//! Worked examples, computed by the checker itself: each function has an empty body, and its clause is the journal
//! that small scripts make on a small board.
ghost use Rattle.std.specs.Prelude.{◌≡◌, ◌++◌, [], ◌∷◌, Some, None, replicate, true, length, reverse, take, option_map};
ghost use Rattle.i2c_base.specs.declared.errno.Errno.TheVariants.{Eremoteio};
ghost use Rattle.i2c_base.specs.declared.reply.Reply.TheVariants as reply;
ghost use Rattle.i2c_base.specs.declared.reply.Cut.TheVariants as cut;
ghost use Rattle.i2c_spec.specs.History.{history};
ghost use Rattle.i2c_base.specs.declared.ids.LockId.TheVariants as lock;
ghost use Rattle.bus_spec.specs.Readings.{holder, order};
ghost use Rattle.bus_spec.specs.Places.{kept_left};
ghost use Rattle.bus_spec.specs.Play.{played, transfers_of, none_fails, fails_at};
ghost use Rattle.bus_spec.specs.Rows as row;

/// A register read on a root bus: the lock, two messages, the settle, the lock.
pub fn a_read_takes_the_wires_once()
    ensures { played row.one_device (transfers_of ((row.read 0 0x20 5 ∷ []) ∷ [])) none_fails (replicate 8 0) ≡ row.one_read }
{}

/// Behind a parent-locked mux the whole chain is held from the select to the deselect.
pub fn a_parent_locked_read_lets_nobody_in()
    ensures { played row.parent_locked (transfers_of ((row.read 1 0x30 0 ∷ []) ∷ (row.read 0 0x20 5 ∷ []) ∷ [])) none_fails
        (replicate 4 0 ++ replicate 4 1 ++ replicate 4 0 ++ replicate 4 1) ≡ row.parent_locked_journal }
{}

/// Behind a mux-locked mux the root's lock is free between the select and the message.
pub fn a_mux_locked_read_lets_another_in()
    ensures { played row.mux_locked (transfers_of ((row.read 1 0x30 0 ∷ []) ∷ (row.read 0 0x20 5 ∷ []) ∷ [])) none_fails
        (replicate 4 0 ++ replicate 4 1 ++ replicate 9 0) ≡ row.mux_locked_journal }
{}

/// Nobody acknowledges the select of an absent inner mux, and the outer one is closed on the way back.
pub fn an_absent_inner_mux_settles_at_its_select()
    ensures { played row.absent_inner (transfers_of ((row.read 9 0x20 0 ∷ []) ∷ [])) none_fails (replicate 12 0)
        ≡ row.absent_inner_journal }
{}

/// Eight polls are enough for an arbitrator that is found taken seven times.
pub fn an_arbitrator_is_found_free_at_the_eighth_poll()
    ensures { played (row.arbitrator 7) (transfers_of ((row.read 1 0x20 5 ∷ []) ∷ [])) none_fails (replicate 20 0)
        ≡ row.arbitrator_journal }
{}

/// An arbitrator that stays with its other controller is given up after eight polls.
pub fn a_held_arbitrator_is_given_up_after_eight_polls()
    ensures { played (row.arbitrator 8) (transfers_of ((row.read 1 0x20 5 ∷ []) ∷ [])) none_fails (replicate 20 0)
        ≡ row.held_journal }
{}

/// A gpio mux is switched by its line, which needs no message.
pub fn a_gpio_mux_is_switched_by_its_line()
    ensures { played row.gpio (transfers_of ((row.read 2 0x20 5 ∷ []) ∷ [])) none_fails (replicate 12 0) ≡ row.gpio_journal }
{}

/// A deselect that fails changes no reply, and the next transfer closes the mux first.
pub fn a_failed_deselect_is_mended_by_a_close()
    ensures { played row.parent_locked (transfers_of ((row.read 1 0x30 0 ∷ row.read 2 0x31 0 ∷ []) ∷ [])) (fails_at 0 10)
        (replicate 20 0) ≡ row.failed_deselect_journal }
{}

/// A close that fails too keeps the mark, and its transfer fails on the way.
pub fn a_failed_close_fails_its_transfer()
    ensures { played row.parent_locked (transfers_of ((row.read 1 0x30 0 ∷ row.read 2 0x31 0 ∷ []) ∷ [])) row.fails_twice
        (replicate 20 0) ≡ row.failed_close_journal }
{}

/// A select that fails marks its own mux and the one whose select it is on the way of.
pub fn a_failed_way_marks_both_muxes()
    ensures { played row.absent_outer (transfers_of ((row.read 9 0x20 0 ∷ row.read 9 0x20 0 ∷ []) ∷ [])) (fails_at 0 0)
        (replicate 20 0) ≡ row.two_marks_journal }
{}

/// The effect of a message that went through stays where a later one of its transfer is not acknowledged.
pub fn an_effect_before_a_failure_stays()
    ensures { played row.one_device (transfers_of ((row.write_and_read 0 0x20 5 0x21 ∷ []) ∷ (row.receive 0 0x20 ∷ []) ∷ [])) none_fails
        (replicate 4 0 ++ replicate 3 1) ≡ row.effect_journal }
{}

/// One failing call of a port fails at most the transfer under way; the next one closes a mux that may be open.
///
/// It fails on the way where the call is one of the select, in the message whose call it is, and not at all in the
/// deselect.
pub fn one_failing_call_fails_at_most_its_transfer()
    ensures way { row.settles (row.two_reads (fails_at 0 1)) ≡ row.fails 0 Eremoteio cut.Way ∷ row.gave 0 0x11 ∷ [] }
    ensures way_closed { row.switched (row.two_reads (fails_at 0 1)) ≡ [] ∷ (0 ∷ []) ∷ (1 ∷ []) ∷ (0 ∷ []) ∷ [] }
    ensures message { row.settles (row.two_reads (fails_at 0 4)) ≡ row.fails 0 Eremoteio (cut.At 0 1) ∷ row.gave 0 0x11 ∷ [] }
    ensures message_not_closed { row.switched (row.two_reads (fails_at 0 4)) ≡ (1 ∷ []) ∷ (0 ∷ []) ∷ (1 ∷ []) ∷ (0 ∷ []) ∷ [] }
    ensures deselect { row.settles (row.two_reads (fails_at 0 9)) ≡ row.gave 0 0x11 ∷ row.gave 0 0x11 ∷ [] }
    ensures deselect_closed { row.switched (row.two_reads (fails_at 0 9)) ≡ (1 ∷ []) ∷ [] ∷ (0 ∷ []) ∷ (1 ∷ []) ∷ (0 ∷ []) ∷ [] }
{}

/// A call that fails on the way of a deselect changes no reply.
pub fn a_failed_way_of_a_deselect_keeps_the_reply()
    ensures entries { length (played row.chain (transfers_of ((row.read 13 0x40 0 ∷ []) ∷ [])) (fails_at 0 18) (replicate 60 0)) ≡ 39 }
    ensures reply { row.settles (played row.chain (transfers_of ((row.read 13 0x40 0 ∷ []) ∷ [])) (fails_at 0 18) (replicate 60 0)) ≡ row.gave 0 0x22 ∷ [] }
{}

/// In the flat world the same transfers, one at a time in the order of their settles, have the replies of the journal.
pub fn a_mux_locked_journal_settles_as_the_flat_world()
    ensures first { option_map (λ h. h.replies 0) (history row.mux_locked (transfers_of ((row.read 1 0x30 0 ∷ []) ∷ (row.read 0 0x20 5 ∷ []) ∷ []))
        (order (reverse row.mux_locked_journal))) ≡ Some (reply.Read (0x11 ∷ []) ∷ []) }
    ensures second { option_map (λ h. h.replies 1) (history row.mux_locked (transfers_of ((row.read 1 0x30 0 ∷ []) ∷ (row.read 0 0x20 5 ∷ []) ∷ []))
        (order (reverse row.mux_locked_journal))) ≡ Some (reply.Read (0x7e ∷ []) ∷ []) }
{}

/// A lock belongs to the caller of its last take that no free follows: of the same journal, after the select, while the
/// other caller reads, and at the end.
pub fn a_lock_belongs_to_the_caller_of_its_last_take()
    ensures root_taken { holder (reverse (take 2 row.mux_locked_journal)) (lock.Bus 0) ≡ Some 0 }
    ensures root_freed { holder (reverse (take 4 row.mux_locked_journal)) (lock.Bus 0) ≡ None }
    ensures other_caller { holder (reverse (take 8 row.mux_locked_journal)) (lock.Bus 0) ≡ Some 1 }
    ensures muxes_held { holder (reverse (take 8 row.mux_locked_journal)) (lock.Mux 0) ≡ Some 0 }
    ensures all_freed { holder (reverse row.mux_locked_journal) (lock.Mux 0) ≡ None }
{}

/// A mux that stays as it is isn't selected again where its channel is kept, and never deselected.
pub fn a_kept_channel_is_not_selected_again()
    ensures { played (row.keeping row.parent) (transfers_of ((row.read 1 0x30 0 ∷ row.read 1 0x30 0 ∷ row.read 2 0x31 0 ∷ []) ∷ [])) none_fails
        (replicate 24 0) ≡ row.kept_journal }
{}

/// Two muxes on one bus keep a channel each, beside one that disconnects; an address behind a kept channel is busy elsewhere.
pub fn two_muxes_keep_their_channels()
    ensures { played row.three_beside (transfers_of ((row.read 1 0x30 0 ∷ row.read 9 0x31 0 ∷ row.read 13 0x32 0 ∷ row.read 1 0x30 0 ∷ row.read 9 0x30 0 ∷ []) ∷ [])) none_fails
        (replicate 40 0) ≡ row.beside_journal }
{}

/// A select that fails forgets the channel: the mux is closed and selected again.
pub fn a_failed_select_forgets_the_channel()
    ensures { played (row.keeping row.parent) (transfers_of ((row.read 1 0x30 0 ∷ row.read 2 0x31 0 ∷ row.read 1 0x30 0 ∷ []) ∷ [])) (fails_at 0 9)
        (replicate 30 0) ≡ row.forgotten_journal }
{}

/// A mux keeps the channel of its last select, until another channel is selected, the mux is closed, or a select fails or
/// isn't acknowledged.
///
/// Each mux on a bus keeps a channel of its own. That of a gpio mux is told by the level of its line. A poll opens none.
pub fn a_mux_keeps_the_channel_of_its_last_select()
    ensures each { (kept_left row.three_beside (reverse row.beside_journal) 0 ∷ kept_left row.three_beside (reverse row.beside_journal) 1 ∷ kept_left row.three_beside (reverse row.beside_journal) 2 ∷ [])
        ≡ Some 0 ∷ Some 0 ∷ None ∷ [] }
    ensures selected { kept_left row.three_beside (reverse (take 19 row.beside_journal)) 2 ≡ Some 0 }
    ensures another { kept_left (row.keeping row.parent) (reverse row.kept_journal) 0 ≡ Some 1 }
    ensures failed { kept_left (row.keeping row.parent) (reverse (take 11 row.forgotten_journal)) 0 ≡ None }
    ensures mended { kept_left (row.keeping row.parent) (reverse row.forgotten_journal) 0 ≡ Some 0 }
    ensures nobody { (kept_left row.absent_inner (reverse (take 5 row.absent_inner_journal)) 0 ∷ kept_left row.absent_inner (reverse (take 5 row.absent_inner_journal)) 1 ∷ []) ≡ Some 0 ∷ None ∷ [] }
    ensures line { (kept_left row.gpio (reverse (take 3 row.gpio_journal)) 0 ∷ kept_left row.gpio (reverse row.gpio_journal) 0 ∷ []) ≡ Some 1 ∷ None ∷ [] }
    ensures polled { (kept_left (row.arbitrator 7) (reverse (take 10 row.arbitrator_journal)) 0 ∷ kept_left (row.arbitrator 7) (reverse (take 11 row.arbitrator_journal)) 0 ∷ []) ≡ None ∷ Some 0 ∷ [] }
{}
