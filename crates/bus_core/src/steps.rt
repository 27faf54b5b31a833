//! One step of a caller: a lock, a message, a line or a settle.
ghost use Rattle.std.specs.Prelude.{◌≡◌, ◌<◌, ◌≤◌, ℕ, length, None};
ghost use Rattle.i2c_base.specs.Limits.{MOST_LENGTH};
ghost use Rattle.i2c_base.specs.declared.ids.LockId.{LockId};
ghost use Rattle.bus_journal.specs.Borrowed.{entry_seen, most_bytes};
ghost use Rattle.bus_spec.specs.Walk as act;
ghost use Rattle.core_laws.specs.Behind.{message_entry as entry_of};
ghost use Rattle.seg_locks.specs.Locks.{holder_in};
ghost use Rattle.bus_core.specs.Kept.{IsResting, ComesAt, HasMadeStep, HasMessage, HasShift, HasStepped};
ghost use Rattle.bus_core.specs.Steps.{IsBlockedAt, HasEndedAt};
ghost use Rattle.bus_core.specs.declared.steps.StepAnswer.TheVariants as answer;

use crate::marks::set_marks;
use crate::parts::CoreInside;
use bus_journal::{EntryRef, Head};
use bus_message::{MsgResult, send_next, shift_line};
use i2c_base::{Caller, Errno, LockId, MuxId};
use mux_plan::{Action, NextMsg};
use ports::Port;

// The entry of a message, of which this came.
fn message_entry<'a>(caller: u8, next: &NextMsg, msg: &MsgResult, bytes: &'a [u8]) -> EntryRef<'a>
    requires { length bytes.now ≤ MOST_LENGTH }
    ensures seen { entry_seen result ≡ entry_of caller next.now bytes.now msg.now }
    ensures bytes { result.bytes.now ≡ bytes.now }
    ensures few { length result.bytes.now ≤ most_bytes result.head }
{
    EntryRef {
        head: Head::Message {
            caller,
            bus: next.bus,
            purpose: next.purpose,
            part: next.part,
            parts: next.parts,
            addr: msg.addr,
            reading: msg.reading,
            heard: msg.heard,
            end: msg.end,
        },
        bytes,
    }
}

// Takes the lock that comes next, which is free.
fn take<P: Port, C: Caller>(parts: &mut CoreInside<'_, P, C>, place: usize, lock: &LockId)
    requires rests { IsResting P.Port C.Caller parts.old }
    requires next { ComesAt parts.old place (act.Take lock.now) }
    requires free { holder_in parts.old.locks lock.now ≡ None }
    ensures { HasMadeStep P.Port C.Caller place parts.old parts.new }
{
    let seat = &mut parts.seats[place];
    seat.lock_done(&parts.board, &parts.locks);
    let caller = seat.number;
    parts.journal.push(&EntryRef {
        head: Head::Take {
            caller,
            lock: *lock,
        },
        bytes: &[],
    });
    let _ = parts.locks.take(caller, *lock);
}

// Frees the lock that comes next. Where that ends the walk, the reply is handed over, and the next transfer is loaded.
fn free<P: Port, C: Caller>(parts: &mut CoreInside<'_, P, C>, place: usize, lock: &LockId)
    requires rests { IsResting P.Port C.Caller parts.old }
    requires next { ComesAt parts.old place (act.Free lock.now) }
    ensures { HasMadeStep P.Port C.Caller place parts.old parts.new }
{
    let seat = &mut parts.seats[place];
    seat.free_done(&mut parts.board, &parts.locks, parts.ports.as_slice());
    let caller = seat.number;
    parts.journal.push(&EntryRef {
        head: Head::Free {
            caller,
            lock: *lock,
        },
        bytes: &[],
    });
    parts.locks.free(caller, *lock);
}

// Sends the message that comes next, with its entry, and the settle that it decides.
fn send_and_record<P: Port, C: Caller>(
    parts: &mut CoreInside<'_, P, C>,
    place: usize,
    next: &NextMsg,
)
    requires rests { IsResting P.Port C.Caller parts.old }
    requires next { HasMessage parts.old place next.now }
    ensures { HasMadeStep P.Port C.Caller place parts.old parts.new }
{
    let seat = &mut parts.seats[place];
    let cursor = seat.cursor(&parts.board, next);
    let port = &mut parts.ports[seat.port].1;
    let msg = send_next(&parts.board, port, &cursor, next, &mut parts.bytes);
    let bytes = parts.bytes.as_slice();
    parts
        .journal
        .push(&message_entry(seat.number, next, &msg, bytes));
    seat.message_done(next, &msg, bytes, &mut parts.updates);
    set_marks(&mut parts.locks, seat.number, parts.updates.as_slice());
    seat.look(&parts.board, &parts.locks);
    seat.settle(&parts.board, &parts.locks, &mut parts.journal);
}

// Makes the line step that comes next, with its entry, and the settle that it decides where it fails.
fn switch<P: Port, C: Caller>(parts: &mut CoreInside<'_, P, C>, place: usize, mux: MuxId, level: u8)
    requires rests { IsResting P.Port C.Caller parts.old }
    requires next { HasShift parts.old place mux level }
    ensures { HasMadeStep P.Port C.Caller place parts.old parts.new }
{
    let seat = &mut parts.seats[place];
    let failed = shift_line(&mut parts.ports[seat.port].1, mux, level);
    let caller = seat.number;
    parts.journal.push(&EntryRef {
        head: Head::Line {
            caller,
            mux,
            level,
            failed,
        },
        bytes: &[],
    });
    seat.line_done(failed, &mut parts.updates);
    set_marks(&mut parts.locks, caller, parts.updates.as_slice());
    seat.look(&parts.board, &parts.locks);
    seat.settle(&parts.board, &parts.locks, &mut parts.journal);
}

// Settles the refused transfer of the caller at a place, and loads its next one. A settle without an error stands
// directly after its message, so none comes by itself.
fn refuse<P: Port, C: Caller>(
    parts: &mut CoreInside<'_, P, C>,
    place: usize,
    verdict: Option<Errno>,
)
    requires rests { IsResting P.Port C.Caller parts.old }
    requires next { ComesAt parts.old place (act.Settle verdict) }
    ensures { HasMadeStep P.Port C.Caller place parts.old parts.new }
{
    if let Some(errno) = verdict {
        parts.seats[place].refuse(
            &mut parts.board,
            &parts.locks,
            parts.ports.as_slice(),
            &mut parts.journal,
            errno,
        );
    }
}

/// What came of a step.
#[derive(Clone, Copy)]
pub enum StepAnswer {
    Stepped,
    /// Another caller has the lock that comes next.
    Blocked { lock: LockId, holder: u8 },
    /// The script is used up.
    Finished,
}

/// Makes the next step of the caller at a place: takes or frees a lock, sends a message or sets a line, with the settle
/// that it decides, or settles a transfer that is refused. Nothing is done where it is blocked, or its script is used
/// up.
pub fn step<P: Port, C: Caller>(parts: &mut CoreInside<'_, P, C>, place: usize) -> StepAnswer
    requires rests { IsResting P.Port C.Caller parts.old }
    requires there { place < length parts.old.seats.items }
    ensures rests { IsResting P.Port C.Caller parts.new }
    ensures stepped { result ≡ answer.Stepped → HasStepped P.Port C.Caller place parts.old parts.new }
    ensures blocked { (l : LockId) (h : ℕ) → result ≡ answer.Blocked l h → (parts.new ≡ parts.old) × IsBlockedAt parts.old place l h }
    ensures finished { result ≡ answer.Finished → (parts.new ≡ parts.old) × HasEndedAt parts.old place }
{
    let next = parts.seats[place].next();
    match &next {
        Action::Done => return StepAnswer::Finished,
        Action::Take(lock) => {
            if let Some(holder) = parts.locks.holder(*lock) {
                return StepAnswer::Blocked {
                    lock: *lock,
                    holder,
                };
            }
            take(parts, place, lock);
        }
        Action::Free(lock) => free(parts, place, lock),
        Action::Send(next) => send_and_record(parts, place, next),
        Action::Line { mux, level } => switch(parts, place, *mux, *level),
        Action::Settle(verdict) => refuse(parts, place, *verdict),
    }
    StepAnswer::Stepped
}
