//! Two callers by every short schedule, with each call of the port failing in turn, and as running threads, beside the flat
//! world.

use crate::asker::Asker;
use crate::case::{Call, Case, Files};
use crate::on_wires::WiredCall;
use crate::verified::is_verified;
use bus_journal::{entry_text, read_entry};
use case_parts::{Page, board_of, same_devices};
use flat_world::Flat;
use i2c_base::{Cut, Entry, Reply};
use i2c_board::Accepted;
use i2c_top::Status;
use std::alloc::Global;
use std::collections::BTreeSet;
use std::sync::Wait;
use std::thread::Threads;

/// The numbers below this one, from 2 on, have each schedule of 1 to 12 words of two callers: as the binary digits after
/// their first one.
const SCHEDULES: u16 = 8192;

/// Those of 1 to 9 words are below this one: by these the callers run over two wires too, and `verify` is asked of the reports.
const WIRED_SCHEDULES: u16 = 1024;

/// How many binary digits such a number has at most.
const DIGITS: u8 = 13;

/// No run makes so many calls on a port.
const MANY_CALLS: u32 = 1000;

/// Two callers over a board: their call, whose words are `replay` and the names of the files of the board, of the schedule
/// and of the two scripts, `atr` and those names with a map's after the board's, or `run` and those without a schedule's; and
/// what fails in it.
#[derive(Drop)]
struct Race {
    board: Accepted,
    files: Files,
    case: Case,
    call: Call,
}

/// What came of some runs.
#[derive(Drop)]
struct Tally {
    runs: u64,
    sections: BTreeSet<String>,
    journals: BTreeSet<String>,
    replies: u64,
    /// How many of the runs aren't those of the flat world, or differ over two wires.
    differ: u64,
    /// Of how many of the runs `verify` says that their reports are verified, of those that it was asked of.
    verified: u64,
}

/// The text of a file, empty where there is none.
fn text_of<'f>(files: &'f Files, name: &str) -> &'f str {
    match files.get(name) {
        Some(bytes) => str::from_utf8(bytes.as_slice()).unwrap_or(""),
        None => "",
    }
}

/// Adds the number of a caller, of the first or the second one.
fn add_caller(words: &mut Vec<u8>, is_second: bool) -> Option<()> {
    let word = if is_second { b"1 " } else { b"0 " };
    words.extend_from_slice(word).ok()
}

/// Puts the words of the schedule of a number in the place of these, the last one first.
fn put_schedule(words: &mut Vec<u8>, number: u16) -> Option<()> {
    words.clear();
    let mut rest = number;
    for _ in 0..DIGITS {
        if rest > 1 {
            add_caller(words, rest % 2 == 1)?;
        }
        rest /= 2;
    }
    Some(())
}

/// The line of a settle is this one.
fn is_settle(alloc: Global, caller: u8, reply: Reply, cut: Cut, line: &str) -> bool {
    match entry_text(alloc, &Entry::Settle { caller, reply, cut }) {
        Ok(text) => text.as_slice() == line.as_bytes(),
        Err(_) => false,
    }
}

/// Does the next transfer of a caller in the flat world, where it has one, and gives the reply.
fn reply_of(
    alloc: Global,
    flat: &mut Flat<'_>,
    askers: &mut [Asker<'_>],
    caller: u8,
    cut: Cut,
) -> Option<Reply> {
    let Some(asker) = askers.get_mut(usize::from(caller)) else {
        return None;
    };
    let Some(transfer) = asker.next(alloc) else {
        return None;
    };
    let reply = flat.apply(&transfer, cut);
    asker.take(alloc, &reply);
    Some(reply)
}

/// Does what a line of a journal settles in the flat world too. Whether the line is the one of that reply; of other lines,
/// whether they tell an entry.
fn follow_line(alloc: Global, flat: &mut Flat<'_>, askers: &mut [Asker<'_>], line: &str) -> bool {
    match read_entry(alloc, line.as_bytes()) {
        Ok(Entry::Settle { caller, cut, .. }) => match reply_of(alloc, flat, askers, caller, cut) {
            Some(reply) => is_settle(alloc, caller, reply, cut, line),
            None => false,
        },
        Ok(_) => true,
        Err(_) => false,
    }
}

/// Does what a journal settles. Whether each of its lines is as it is due.
fn follow(alloc: Global, flat: &mut Flat<'_>, askers: &mut [Asker<'_>], journal: &str) -> bool {
    for line in journal.lines() {
        if !follow_line(alloc, flat, askers, line) {
            return false;
        }
    }
    true
}

/// No caller has a transfer left to ask for.
fn are_over(alloc: Global, askers: &[Asker<'_>]) -> bool {
    for asker in askers {
        if asker.next(alloc).is_some() {
            return false;
        }
    }
    true
}

impl Race {
    /// A race over these files, on the board of a call. None where there is no memory, as in each of these.
    fn open(alloc: Global, files: &Files, call: &Call) -> Option<Self> {
        Some(Race {
            board: board_of(alloc, text_of(files, call.word(1)).as_bytes())?,
            files: files.clone().ok()?,
            case: Case::new(alloc),
            call: Call::new(alloc)?,
        })
    }

    /// Makes the call.
    fn run<H: Threads + Wait + Sync>(&mut self, rt: &H, alloc: Global) -> Option<()> {
        self.call.make(rt, alloc, &self.case, &self.files)
    }

    /// Makes the call over two wires too. Whether it leaves the same.
    fn is_same_on_wires<H: Threads + Wait + Sync>(&self, rt: &H, alloc: Global) -> Option<bool> {
        let words = self.call.words.as_slice();
        let wired = WiredCall::make(rt, alloc, &self.case, &self.files, words)?;
        Some(wired.is_as(alloc, &self.call))
    }

    /// Whether `verify` says that the report is verified.
    fn is_verified<H: Threads + Wait + Sync>(&self, rt: &H, alloc: Global) -> Option<bool> {
        is_verified(rt, alloc, &self.files, &self.call)
    }

    /// Makes the call by the schedule of a number.
    fn run_schedule<H: Threads + Wait + Sync>(
        &mut self,
        rt: &H,
        alloc: Global,
        number: u16,
    ) -> Option<()> {
        let name = self.call.word(self.call.schedule());
        put_schedule(self.files.get_mut(name)?, number)?;
        self.run(rt, alloc)
    }

    /// Makes the call with this call on the first port failing.
    fn run_failing<H: Threads + Wait + Sync>(
        &mut self,
        rt: &H,
        alloc: Global,
        number: u32,
    ) -> Option<()> {
        self.case.fail_at(number)?;
        self.run(rt, alloc)
    }

    /// The sections and the journal of the report, empty where there is none.
    fn report(&self) -> (&str, &str) {
        self.call.report().unwrap_or(("", ""))
    }

    fn journal(&self) -> &str {
        let (_, journal) = self.report();
        journal
    }

    /// A script of the two, which was asked for nothing yet.
    fn asker(&self, caller: usize) -> Asker<'_> {
        let place = self.call.first_script().saturating_add(caller);
        let script = text_of(&self.files, self.call.word(place));
        Asker::of(script, &self.board)
    }

    /// Whether the replies of a run are those of the flat world, its devices are left as there, and no transfer is left.
    fn is_followed(&self, alloc: Global, flat: &mut Flat<'_>) -> bool {
        let mut askers = [self.asker(0), self.asker(1)];
        matches!(self.call.status, Status::Ok)
            && follow(alloc, flat, &mut askers, self.journal())
            && are_over(alloc, &askers)
            && same_devices(alloc, flat.states(), self.call.outside.rig.states())
    }

    /// The run is that of the flat world.
    fn agrees(&self, alloc: Global) -> bool {
        match Flat::open(alloc, &self.board) {
            Ok(mut flat) => self.is_followed(alloc, &mut flat),
            Err(_) => false,
        }
    }
}

impl Tally {
    fn new(alloc: Global) -> Self {
        Tally {
            runs: 0,
            sections: BTreeSet::new(alloc),
            journals: BTreeSet::new(alloc),
            replies: 0,
            differ: 0,
            verified: 0,
        }
    }

    /// Counts a run, which is the same over two wires or isn't.
    fn add(&mut self, alloc: Global, race: &Race, is_same: bool) -> Option<()> {
        self.count(race.journal(), is_same && race.agrees(alloc));
        let (sections, journal) = race.report();
        self.sections
            .insert(String::from_str(alloc, sections).ok()?)
            .ok()?;
        self.journals
            .insert(String::from_str(alloc, journal).ok()?)
            .ok()?;
        Some(())
    }

    fn count(&mut self, journal: &str, agrees: bool) {
        for line in journal.lines() {
            if line.starts_with("settle ") {
                self.replies = self.replies.saturating_add(1);
            }
        }
        self.runs = self.runs.saturating_add(1);
        if !agrees {
            self.differ = self.differ.saturating_add(1);
        }
    }

    /// Asks `verify` of the report of a run, but for one behind translators, and counts whether it is verified.
    fn verify<H: Threads + Wait + Sync>(
        &mut self,
        rt: &H,
        alloc: Global,
        race: &Race,
    ) -> Option<()> {
        if race.call.has_reported() && race.is_verified(rt, alloc)? {
            self.verified = self.verified.saturating_add(1);
        }
        Some(())
    }

    fn put(&self, page: &mut Page, what: &str) {
        page.put_number("", self.runs);
        page.put(what);
        page.put_number(": ", self.journals.len() as u64);
        page.put_number(" journals, ", self.replies);
        page.put_number(" replies, ", self.differ);
        page.put_number(" differ, ", self.verified);
        page.put(" verified");
    }

    /// The runs in a line; of callers that share no device with the number of kinds of their sections.
    fn put_again(&self, page: &mut Page, is_apart: bool) {
        page.put_number("", self.runs);
        page.put_number(" runs: ", self.replies);
        page.put_number(" replies, ", self.differ);
        page.put(" differ");
        if is_apart {
            page.put_number("; kinds of sections: ", self.sections.len() as u64);
        }
        page.put("\n");
    }
}

/// Runs the callers by each short schedule; by the shortest over two wires too, with `verify` asked of each report.
fn each_schedule<H: Threads + Wait + Sync>(
    rt: &H,
    alloc: Global,
    race: &mut Race,
    tally: &mut Tally,
) -> Option<()> {
    for number in 2..SCHEDULES {
        race.run_schedule(rt, alloc, number)?;
        if number < WIRED_SCHEDULES {
            tally.add(alloc, race, race.is_same_on_wires(rt, alloc)?)?;
            tally.verify(rt, alloc, race)?;
        } else {
            tally.add(alloc, race, true)?;
        }
    }
    Some(())
}

/// Runs the callers with each call on the first port failing in turn, up to the first that isn't made: of a call that was,
/// an entry tells. `verify` is asked of each report.
fn each_failing_call<H: Threads + Wait + Sync>(
    rt: &H,
    alloc: Global,
    race: &mut Race,
    tally: &mut Tally,
) -> Option<()> {
    for number in 0..MANY_CALLS {
        race.run_failing(rt, alloc, number)?;
        if !race.journal().contains(" cut") {
            break;
        }
        tally.add(alloc, race, true)?;
        tally.verify(rt, alloc, race)?;
    }
    Some(())
}

/// Runs the callers by their own schedule with each call failing, and then by each short one.
fn run_all<H: Threads + Wait + Sync>(
    rt: &H,
    alloc: Global,
    race: &mut Race,
    failing: &mut Tally,
    scheduled: &mut Tally,
) -> Option<()> {
    each_failing_call(rt, alloc, race, failing)?;
    race.case = Case::new(alloc);
    each_schedule(rt, alloc, race, scheduled)
}

/// Puts in a line what came of all runs of a race.
fn put_runs<H: Threads + Wait + Sync>(rt: &H, page: &mut Page, alloc: Global, race: &mut Race) {
    let mut failing = Tally::new(alloc);
    let mut scheduled = Tally::new(alloc);
    page.require(run_all(rt, alloc, race, &mut failing, &mut scheduled).is_some());
    scheduled.put(page, " schedules");
    page.put("; ");
    failing.put(page, " failing calls");
    page.put("\n");
}

/// Runs the two callers of a call by each short schedule, and by its own one with each call on the first port failing in turn,
/// and puts in a line how many of the runs aren't those of the flat world.
pub fn put_interleavings<H: Threads + Wait + Sync>(
    rt: &H,
    page: &mut Page,
    alloc: Global,
    files: &Files,
    call: &Call,
) {
    match Race::open(alloc, files, call) {
        Some(mut race) => {
            page.require(race.call.copy_words(alloc, call).is_some());
            put_runs(rt, page, alloc, &mut race);
        }
        None => page.require(false),
    }
}

/// Runs the callers so many times.
fn run_again<H: Threads + Wait + Sync>(
    rt: &H,
    alloc: Global,
    race: &mut Race,
    tally: &mut Tally,
    times: u32,
) -> Option<()> {
    for _ in 0..times {
        race.run(rt, alloc)?;
        tally.add(alloc, race, true)?;
    }
    Some(())
}

/// Puts in a line what came of so many runs of a race.
fn put_race<H: Threads + Wait + Sync>(
    rt: &H,
    page: &mut Page,
    alloc: Global,
    race: &mut Race,
    times: u32,
    is_apart: bool,
) {
    let mut tally = Tally::new(alloc);
    page.require(run_again(rt, alloc, race, &mut tally, times).is_some());
    tally.put_again(page, is_apart);
}

/// Runs the two callers of a call so many times, and puts in a line how many of the runs aren't those of the flat world; and
/// where the callers share no device, of how many kinds their sections are.
pub fn put_again<H: Threads + Wait + Sync>(
    rt: &H,
    page: &mut Page,
    alloc: Global,
    files: &Files,
    call: &Call,
    times: u32,
    is_apart: bool,
) {
    match Race::open(alloc, files, call) {
        Some(mut race) => {
            page.require(race.call.copy_words(alloc, call).is_some());
            put_race(rt, page, alloc, &mut race, times, is_apart);
        }
        None => page.require(false),
    }
}
