//! A script as a caller of the bus: it asks for what its commands ask for, takes the replies, and prints the answers.

ghost use Rattle.std.specs.Prelude.{◌≡◌, ◌+◌, ◌≤◌, ◌^◌, ◌++◌, [], length, drop, Ok, IfSome, IsSome, IfOk, IfErr, OnOk};
ghost use Rattle.tools.specs.Dialogues.{AreReplies};
ghost use Rattle.caller_core.specs.Runs.{command_dialogue};
ghost use Rattle.caller_core.specs.Callers.{IsOpened, ScriptsAreFair};
ghost use Rattle.caller_core.specs.Reach.{IsReachOf};
ghost use Rattle.caller_core.specs.Roots.{HasRoots};
ghost use Rattle.caller_core.specs.Sections.{SectionsHaveNoJournalLine};
ghost use Rattle.caller_core.specs.View.{script_on};
ghost use Rattle.caller_core.specs.Scripts.{script_read, commands_of, cost_of_script, ScriptFaultIs, command_text, front_room, room_of, quiet_text, section_text};
ghost use Rattle.caller_core.specs.Turns.{quiet_front};

use crate::commands::Commands;
use crate::reach::Reach;
use crate::run::CommandRun;
use crate::script::{ReadScript, ScriptFault, read_script};
use crate::totals::{Totals, front_room, room_from, totals_of};
use i2c_base::{Caller, NoMemory, ReplyHead, Transfer, TransferKind};
use i2c_board::Accepted;
use packed::Packed;
use std::alloc::Global;
use std::marker::Model;
use std::snapshot::Snapshot;
use tools::{Text, Window};

/// What a script is opened with, as contracts see it: the board and the text. No value of it is made.
pub struct ScriptData {}

impl Model for ScriptData {
    ghost use Rattle.std.specs.Prelude.{[]};
    ghost use Rattle.caller_core.specs.View.{ScriptView};

    ghost Value = { ScriptView };

    ghost view = { λ s. record { board = record { version = 1; roots = []; muxes = []; devices = [] }; text = [] } };
}

/// A caller that asks for what the commands of a script ask for, one after the other, and prints their answers. A
/// contract sees the board and the text that it was opened with, the replies that it took, and the room for more, which it has once
/// that was reserved.
#[derive(Drop)]
pub struct Script {
    board: Snapshot<Accepted>,
    text: Snapshot<Vec<u8>>,
    commands: Commands,
    totals: Totals,
    reach: Reach,
    taken: Packed<ReplyHead>,
    printed: Text,
    /// There is room for all replies, and for what is printed of them.
    is_ready: bool,
    /// Whose turn it is, where the replies of that command begin, and the place to which it has come.
    turn: usize,
    from: usize,
    place: u16,
}

impl Model for Script {
    ghost use Rattle.tools.specs.Replies.{replies_of};
    ghost use Rattle.caller_core.specs.View.{CallerView};
    ghost use Rattle.std.specs.Prelude.{if◌then◌else◌};
    ghost use Rattle.caller_core.specs.Kept.{IsCaller, IsReady};
    ghost use Rattle.caller_core.specs.Reach.{IsReachOf};

    ghost Value = { CallerView };

    ghost view = { λ s. record { script = record { board = s.board.value; text = s.text.value.items }; taken = replies_of s.taken.items; spare = record { replies = if s.is_ready then s.taken.room else 0; bytes = s.printed.room } } };

    ghost invariant = { λ s. IsCaller (record { board = s.board.value; text = s.text.value.items }) s.commands s.taken.items s.printed.bytes s.turn s.from s.place s.totals
        × IsReady s.commands s.taken s.printed s.turn s.is_ready
        × IsReachOf (record { board = s.board.value; text = s.text.value.items }) s.reach };
}

impl Script {
    /// Opens the script of a text over a board. `Bad` comes exactly at its first line that isn't in the grammar. The commands
    /// at its front that ask for nothing are over at once.
    pub fn open(alloc: Global, board: &Accepted, text: Vec<u8>) -> Result<Self, ScriptFault>
        requires { length text.items ≤ 2 ^ 28 }
        ensures ok { IfOk result (IsOpened board.now text.items) }
        ensures read { OnOk result (script_read (script_on board.now text.items) ≡ Ok (commands_of (script_on board.now text.items))) }
        ensures fault { IfErr result (ScriptFaultIs (script_read (script_on board.now text.items))) }
    {
        let ReadScript { commands, reach } = read_script(alloc, board, text.as_slice())?;
        let totals = totals_of(board, &commands);
        let taken = Packed::with_room(alloc, 0, 0)?;
        let mut printed = Text::new(alloc);
        make_room(front_room(&commands), &mut printed)?;
        let turn = push_quiet(&commands, 0, &taken, &mut printed);
        Ok(Script {
            board: Snapshot::of(board),
            text: Snapshot::of(&text),
            commands,
            totals,
            reach,
            taken,
            printed,
            is_ready: false,
            turn,
            from: 0,
            place: 0,
        })
    }

    /// How many steps its commands can take, all together.
    pub fn cost(&self) -> u64
        ensures value { result ≡ cost_of_script self.now.script }
        ensures small { result ≤ 2 ^ 53 }
    {
        self.totals.cost
    }

    /// A bit for each root that its transfers name.
    pub fn roots(&self) -> u8
        ensures { HasRoots self.now.script.board (commands_of self.now.script) result }
    {
        self.totals.roots
    }

    /// What its lines may reach by force, and which devices they write.
    pub fn reach(&self) -> &Reach
        ensures { IsReachOf self.now.script result.now }
    {
        &self.reach
    }

    /// What it has printed: each command that is over, and its answer.
    pub fn text(&self) -> &[u8]
        ensures { result.now ≡ section_text (commands_of self.now.script) self.now.taken }
    {
        self.printed.as_slice()
    }
}

// Makes room for so many replies, and for their bytes.
fn make_room_for_replies(totals: &Totals, taken: &mut Packed<ReplyHead>) -> Result<(), NoMemory>
    ensures stays { taken.new.items ≡ taken.old.items }
    ensures ok { OnOk result ((totals.now.replies ≤ taken.new.room) × (totals.now.bytes ≤ taken.new.room_bytes)) }
{
    if totals.bytes > u64::from(u32::MAX) {
        return Err(NoMemory);
    }
    taken.reserve(totals.replies as usize, totals.bytes as u32)?;
    Ok(())
}

// Makes room for so many bytes, where a number holds them.
fn make_room(bytes: Option<usize>, out: &mut Text) -> Result<(), NoMemory>
    ensures stays { out.new.bytes ≡ out.old.bytes }
    ensures ok { OnOk result (IfSome bytes (λ n. n ≤ out.new.room)) }
    ensures some { OnOk result (IsSome bytes) }
{
    let room = bytes.ok_or(NoMemory)?;
    out.reserve(room)
}

// Prints a command with these words, which is over, and its answer.
#[inline(always)]
fn push_command(out: &mut Text, echo: &[u8], run: &CommandRun, replies: Window<'_>)
    requires replies { AreReplies (command_dialogue run.now) 0 replies }
    requires room { room_of (record { echo = echo.now; run = run.now }) ≤ out.old.room }
    ensures bytes { out.new.bytes ≡ out.old.bytes ++ command_text (record { command = record { echo = echo.now; run = run.now }; replies = replies.entry }) }
    ensures room { out.old.room ≤ out.new.room + room_of (record { echo = echo.now; run = run.now }) }
{
    out.push_byte(b'>');
    out.push_byte(b' ');
    out.push(echo);
    out.push_byte(b'\n');
    run.print(replies, out);
}

// The replies after all that are kept: none.
fn no_replies(taken: &Packed<ReplyHead>) -> Window<'_>
    ensures { result ≡ [] }
{
    Window {
        replies: taken,
        from: taken.len(),
    }
}

// Prints the commands from a place on that ask for nothing. Tells the place after them.
#[inline(always)]
fn push_quiet(commands: &Commands, turn: usize, taken: &Packed<ReplyHead>, out: &mut Text) -> usize
    requires within { turn ≤ length commands.now }
    requires room { front_room (drop turn commands.now) ≤ out.old.room }
    ensures behind { result ≡ turn + quiet_front (drop turn commands.now) }
    ensures bytes { out.new.bytes ≡ out.old.bytes ++ quiet_text (drop turn commands.now) }
    ensures room { out.old.room ≤ out.new.room + front_room (drop turn commands.now) }
{
    let mut at = turn;
    while at < commands.len() {
        let (run, echo) = commands.get(at);
        if run.places() > 0 {
            return at;
        }
        push_command(out, echo, run, no_replies(taken));
        at += 1;
    }
    at
}

impl Caller for Script {
    ghost use Rattle.caller_core.specs.Callers.{board_of, owed_by};
    ghost use Rattle.caller_core.specs.View.{script_on};
    ghost use Rattle.caller_core.specs.Scripts.{asked_by, left_of};

    type Script = ScriptData;

    ghost script = { λ s. s.script };

    ghost board = { board_of };

    ghost taken = { λ s. s.taken };

    ghost asked = { asked_by };

    ghost left = { left_of };

    ghost owed = { owed_by };

    ghost spare = { λ s. s.spare };

    fn next(&self) -> Option<Transfer> {
        let mut transfer = Transfer::new(0, TransferKind::Smbus, false);
        if !self.refill(&mut transfer) {
            return None;
        }
        Some(transfer)
    }

    #[inline(always)]
    fn refill(&self, transfer: &mut Transfer) -> bool {
        if self.turn >= self.commands.len() {
            return false;
        }
        let (run, _) = self.commands.get(self.turn);
        run.put(self.place, transfer);
        true
    }

    fn reserve(&mut self) -> Result<(), NoMemory> {
        if self.is_ready {
            return Ok(());
        }
        make_room_for_replies(&self.totals, &mut self.taken)?;
        make_room(room_from(&self.commands, self.turn), &mut self.printed)?;
        self.is_ready = true;
        Ok(())
    }

    #[inline(always)]
    fn take(&mut self, head: ReplyHead, bytes: &[u8]) {
        self.taken.push(head, bytes);
        let (run, echo) = self.commands.get(self.turn);
        let place = run.behind(self.place, head);
        if place < run.places() {
            self.place = place;
        } else {
            let replies = Window {
                replies: &self.taken,
                from: self.from,
            };
            push_command(&mut self.printed, echo, run, replies);
            self.turn = push_quiet(
                &self.commands,
                self.turn + 1,
                &self.taken,
                &mut self.printed,
            );
            self.from = self.taken.len();
            self.place = 0;
        }
    }
}

/// Scripts are fair callers, whatever board and text they are opened with.
pub fn scripts_are_fair()
    ensures { ScriptsAreFair }
{}

/// No text that a script prints has a line `journal`, so that the bytes of a report determine its journal.
pub fn no_section_has_a_journal_line()
    ensures { SectionsHaveNoJournalLine }
{}
