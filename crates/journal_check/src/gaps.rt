//! Which calls of each root's port the entries of a journal tell to have failed.
ghost use Rattle.std.specs.Prelude.{◌≡◌, ◌≤◌, ◌++◌, ◌∷◌, List, [], OnOk, IfOk, length};
ghost use Rattle.i2c_base.specs.Board.{BoardView};
ghost use Rattle.i2c_base.specs.declared.entry.Entry.{Entry};
ghost use Rattle.bus_journal.specs.Borrowed.{entry_seen, most_bytes};
ghost use Rattle.i2c_spec.specs.Tree.{home_of_mux};
ghost use Rattle.check_laws.specs.Failed.{call_failed, calls_made, calls_told, gap_told, since_told};
ghost use Rattle.journal_check.specs.Gaps.{AreGapsOf, root_told};

use bus_journal::{EntryRef, Head};
use i2c_base::{End, MuxId, NoMemory, Purpose, SegId};
use i2c_board::Accepted;
use std::alloc::Global;

/// The gaps of one root: so many calls went through since the last one that failed, and the gaps before that.
#[derive(Drop)]
pub struct RootGaps {
    since: u32,
    gaps: Vec<u32>,
}

// How many calls a message made, by its end and how many bytes it moved, where a stop is due or not.
fn calls_told(last: bool, end: End, bytes: u32) -> u32
    requires { bytes ≤ 512 }
    ensures { result ≡ calls_told last end bytes }
{
    match end {
        End::Ok => 1 + bytes + u32::from(last),
        End::Nack | End::Slow | End::Proto => bytes + 2,
        End::Refused => bytes + 3,
        End::Cut(calls) => u32::from(calls) + 1,
    }
}

// How many calls an entry made on the port of its root.
fn calls_made(entry: &EntryRef<'_>) -> u32
    requires { length entry.now.bytes.now ≤ most_bytes entry.now.head }
    ensures { result ≡ calls_made (entry_seen entry.now) }
{
    match entry.head {
        Head::Line { .. } => 1,
        Head::Message {
            purpose,
            part,
            parts,
            end,
            ..
        } => {
            let last = match purpose {
                Purpose::Call => part == parts,
                Purpose::Control(_) => true,
            };
            calls_told(last, end, entry.bytes.len() as u32)
        }
        _ => 0,
    }
}

// Which of them failed, if one did.
fn call_failed(entry: &EntryRef<'_>) -> Option<u16>
    ensures { result ≡ call_failed (entry_seen entry.now) }
{
    match entry.head {
        Head::Line { failed, .. } => { if failed { Some(0) } else { None } }
        Head::Message { end, .. } => match end {
            End::Cut(calls) => Some(calls),
            _ => None,
        },
        _ => None,
    }
}

// The bus that a mux stands on, 0 of one that isn't there.
fn home_of(board: &Accepted, mux: MuxId) -> SegId
    ensures { result ≡ home_of_mux board.now mux }
{
    let muxes = board.board().muxes();
    let place = usize::from(mux.0);
    if place < muxes.len() {
        muxes[place].bus
    } else {
        SegId(0)
    }
}

// The root on whose port an entry makes calls, if it makes any.
fn root_told(board: &Accepted, entry: &EntryRef<'_>) -> Option<SegId>
    ensures { result ≡ root_told board.now (entry_seen entry.now) }
{
    match entry.head {
        Head::Message { bus, .. } => Some(board.board().layout().root(bus)),
        Head::Line { mux, .. } => Some(board.board().layout().root(home_of(board, mux))),
        _ => None,
    }
}

impl RootGaps {
    // Of no entry yet.
    fn new(alloc: Global) -> Self
        ensures since { result.since ≡ 0 }
        ensures gaps { result.gaps.items ≡ [] }
    {
        RootGaps {
            since: 0,
            gaps: Vec::new(alloc),
        }
    }

    /// The gaps before each call that failed, the first one first.
    pub fn into_gaps(self) -> Vec<u32>
        ensures { result.items ≡ self.gaps.items }
    {
        self.gaps
    }

    // An entry on this root more.
    fn add(&mut self, entry: &EntryRef<'_>) -> Result<(), NoMemory>
        requires { length entry.now.bytes.now ≤ most_bytes entry.now.head }
        ensures gaps { OnOk result (self.new.gaps.items ≡ self.old.gaps.items ++ gap_told self.old.since (call_failed (entry_seen entry.now))) }
        ensures since { OnOk result (self.new.since ≡ since_told self.old.since (calls_made (entry_seen entry.now)) (call_failed (entry_seen entry.now))) }
    {
        match call_failed(entry) {
            Some(call) => {
                let gap = self.since.checked_add(u32::from(call)).ok_or(NoMemory)?;
                self.gaps.push(gap)?;
                self.since = 0;
            }
            None => {
                self.since = self.since.checked_add(calls_made(entry)).ok_or(NoMemory)?;
            }
        }
        Ok(())
    }
}

/// The gaps of so many roots, of no entry yet.
pub fn no_gaps(alloc: Global, roots: usize) -> Result<Vec<RootGaps>, NoMemory>
    ensures count { IfOk result (λ gaps. length gaps.items ≡ roots) }
    ensures none { IfOk result (λ gaps. (b : BoardView) → AreGapsOf b [] gaps.items) }
{
    let mut gaps = Vec::with_capacity(alloc, roots)?;
    for _ in 0..roots {
        gaps.push(RootGaps::new(alloc))?;
    }
    Ok(gaps)
}

/// An entry more.
pub fn add_entry(
    board: &Accepted,
    roots: &mut [RootGaps],
    entry: &EntryRef<'_>,
) -> Result<(), NoMemory>
    requires { length entry.now.bytes.now ≤ most_bytes entry.now.head }
    ensures count { length roots.new ≡ length roots.old }
    ensures more { OnOk result ((es : List Entry) → AreGapsOf board.now es roots.old → AreGapsOf board.now (es ++ entry_seen entry.now ∷ []) roots.new) }
{
    if let Some(root) = root_told(board, entry) {
        let place = usize::from(root.0);
        if place < roots.len() {
            roots[place].add(entry)?;
        }
    }
    Ok(())
}
