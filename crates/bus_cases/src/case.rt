//! A case: what fails outside of the program, and a call that is made with it.
ghost use Rattle.std.specs.Prelude.{◌≡◌, ◌++◌, ◌∷◌, [], Some, map, string_bytes, IfOk, IfSome, OnOk, OnSome};
ghost use Rattle.i2c_outside.specs.Shelves.{held};
ghost use Rattle.i2c_physics.specs.SimRigs.{kept_states};
ghost use Rattle.i2c_physics.specs.FailPorts.{counts_given, logs_given};
ghost use Rattle.i2c_top.specs.forms.{Replay, request_in};
ghost use Rattle.i2c_top.specs.forms.Replays.{Names, HasReplayed};
ghost use Rattle.i2c_top.specs.declared.status.Status.TheVariants as status;

use case_parts::parted;
use i2c_base::SegId;
use i2c_outside::{Gate, MapShelf, OpenGate, VecSink};
use i2c_physics::FailRig;
use i2c_top::{Status, top};
use std::alloc::{AllocError, Global};
use std::collections::BTreeMap;
use std::sync::Wait;
use std::thread::Threads;

/// Files by their names.
pub type Files = BTreeMap<String, Vec<u8>>;

/// What fails in a call, and how many bytes its output has room for.
#[derive(Drop)]
pub struct Case {
    reads: Vec<u32>,
    writes: Vec<u32>,
    room: usize,
    is_stuck: bool,
    /// The calls on the ports, by root and number.
    fails: Vec<(SegId, u32)>,
}

/// What a call finds outside of the program.
#[derive(Drop)]
pub struct Outside {
    pub shelf: MapShelf,
    pub sink: VecSink,
    pub rig: FailRig,
}

/// A call: its words, and what it left the last time that it was made.
#[derive(Drop)]
pub struct Call {
    pub words: Vec<String>,
    pub status: Status,
    pub outside: Outside,
}

impl Case {
    /// Nothing fails.
    pub fn new(alloc: Global) -> Self {
        Case {
            reads: Vec::new(alloc),
            writes: Vec::new(alloc),
            room: 4096,
            is_stuck: false,
            fails: Vec::new(alloc),
        }
    }

    /// Of the calls on ports this one fails alone, on the first port. None where there is no memory.
    pub fn fail_at(&mut self, number: u32) -> Option<()> {
        self.fails.clear();
        self.fails.push((SegId(0), number)).ok()
    }

    /// Adds reads, writes or calls on ports that fail, sets the room, or else that the rig is stuck. None where a number is
    /// not one, or there is no memory.
    pub fn set(&mut self, what: &str, value: &str) -> Option<()> {
        match what {
            "reads" => add_numbers(&mut self.reads, value),
            "writes" => add_numbers(&mut self.writes, value),
            "fails" => add_calls(&mut self.fails, value),
            "room" => self.set_room(value),
            _ => {
                self.is_stuck = true;
                Some(())
            }
        }
    }

    /// No call on a port fails, and no plug.
    pub fn has_sound_ports(&self) -> bool {
        self.fails.is_empty() && !self.is_stuck
    }

    fn set_room(&mut self, value: &str) -> Option<()> {
        self.room = value.parse().ok()?;
        Some(())
    }
}

fn add_numbers(numbers: &mut Vec<u32>, text: &str) -> Option<()> {
    for word in text.split_whitespace() {
        numbers.push(word.parse().ok()?).ok()?;
    }
    Some(())
}

// The call on a port that a word names, by its root and number with a point between them.
fn call_of(word: &str) -> Option<(SegId, u32)> {
    let (root, number) = parted(word, '.');
    Some((SegId(root.parse().ok()?), number.parse().ok()?))
}

fn add_calls(calls: &mut Vec<(SegId, u32)>, text: &str) -> Option<()> {
    for word in text.split_whitespace() {
        calls.push(call_of(word)?).ok()?;
    }
    Some(())
}

/// Adds a word.
pub fn add_word(words: &mut Vec<String>, alloc: Global, word: &str) -> Result<(), AllocError>
    ensures { OnOk result (map string_bytes words.new.items ≡ map string_bytes words.old.items ++ word.now ∷ []) }
{
    words.push(String::from_str(alloc, word)?)?;
    Ok(())
}

/// Adds words.
pub fn add_each(words: &mut Vec<String>, alloc: Global, others: &[String]) -> Result<(), AllocError>
    ensures { OnOk result (map string_bytes words.new.items ≡ map string_bytes words.old.items ++ map string_bytes others.now) }
{
    for word in others {
        add_word(words, alloc, word.as_str())?;
    }
    Ok(())
}

// Adds the words of a text.
fn add_words(words: &mut Vec<String>, alloc: Global, text: &str) -> Result<(), AllocError> {
    for word in text.split_whitespace() {
        add_word(words, alloc, word)?;
    }
    Ok(())
}

// The same words again.
fn copied(alloc: Global, words: &[String]) -> Result<Vec<String>, AllocError>
    ensures { IfOk result (λ v. map string_bytes v.items ≡ map string_bytes words.now) }
{
    let mut copy = Vec::new(alloc);
    add_each(&mut copy, alloc, words)?;
    Ok(copy)
}

/// A shelf over these words and files.
pub fn shelf_of(alloc: Global, case: &Case, files: &Files, words: &[String]) -> Option<MapShelf>
    ensures { IfSome result (λ s. map string_bytes s.words.items ≡ map string_bytes words.now) }
{
    let fails = case.reads.clone().ok()?;
    let files = files.clone().ok()?;
    Some(MapShelf::new(copied(alloc, words).ok()?, files, fails))
}

/// An output with the room of a case, of which its writes fail.
pub fn sink_of(alloc: Global, case: &Case) -> Option<VecSink> {
    VecSink::open(alloc, case.room, case.writes.clone().ok()?).ok()
}

fn rig_of(case: &Case) -> Option<FailRig> {
    Some(FailRig::new(case.is_stuck, case.fails.clone().ok()?))
}

impl Outside {
    // With no words and no files.
    fn new(alloc: Global) -> Option<Self> {
        Some(Outside {
            sink: VecSink::open(alloc, 0, Vec::new(alloc)).ok()?,
            shelf: MapShelf::new(Vec::new(alloc), BTreeMap::new(alloc), Vec::new(alloc)),
            rig: FailRig::new(false, Vec::new(alloc)),
        })
    }

    // As it is before a call with these words.
    fn reset(&mut self, alloc: Global, case: &Case, files: &Files, words: &[String]) -> Option<()>
        ensures { OnSome result (map string_bytes self.new.shelf.words.items ≡ map string_bytes words.now) }
    {
        self.rig = rig_of(case)?;
        self.sink = sink_of(alloc, case)?;
        self.shelf = shelf_of(alloc, case, files, words)?;
        Some(())
    }
}

// Calls the top with these words over their outside; each step of a running thread passes the gate.
fn call_over<H: Threads + Wait + Sync, G: Gate + Sync>(
    rt: &H,
    alloc: Global,
    words: &[String],
    outside: &mut Outside,
    gate: &G,
) -> Status
    requires { map string_bytes outside.old.shelf.words.items ≡ map string_bytes words.now }

    // What is in memory tells what it holds, so each premise of the headline is met, and this is so of every success.
    ensures replayed { (names : Names) → request_in (map string_bytes words.now) ≡ Some (Replay names) → result ≡ status.Ok
        → HasReplayed (held outside.old.shelf.files) names outside.old.sink.bytes outside.new.sink.bytes
        (logs_given outside.new.rig.given) (kept_states outside.new.rig.sim.kept) (counts_given outside.new.rig.given) }
{
    top(
        rt,
        alloc,
        words,
        &mut outside.shelf,
        &mut outside.sink,
        &mut outside.rig,
        gate,
    )
}

impl Call {
    /// A call with no words, which wasn't made. None where there is no memory, as in each of these.
    pub fn new(alloc: Global) -> Option<Self> {
        Some(Call {
            outside: Outside::new(alloc)?,
            status: Status::Ok,
            words: Vec::new(alloc),
        })
    }

    /// Has the words of this text.
    pub fn read_words(&mut self, alloc: Global, text: &str) -> Option<()> {
        self.words.clear();
        add_words(&mut self.words, alloc, text).ok()
    }

    /// Has the words of another call.
    pub fn copy_words(&mut self, alloc: Global, other: &Call) -> Option<()> {
        self.words = copied(alloc, other.words.as_slice()).ok()?;
        Some(())
    }

    /// Calls the top over these files.
    pub fn make<H: Threads + Wait + Sync>(
        &mut self,
        rt: &H,
        alloc: Global,
        case: &Case,
        files: &Files,
    ) -> Option<()> {
        self.make_under(rt, alloc, case, files, &OpenGate)
    }

    /// .. and has each step of a running thread pass a gate.
    pub fn make_under<H: Threads + Wait + Sync, G: Gate + Sync>(
        &mut self,
        rt: &H,
        alloc: Global,
        case: &Case,
        files: &Files,
        gate: &G,
    ) -> Option<()> {
        self.outside
            .reset(alloc, case, files, self.words.as_slice())?;
        self.status = call_over(rt, alloc, self.words.as_slice(), &mut self.outside, gate);
        Some(())
    }

    /// The word at a place, empty where there is none.
    pub fn word(&self, place: usize) -> &str {
        match self.words.as_slice().get(place) {
            Some(word) => word.as_str(),
            None => "",
        }
    }

    /// The words from a place on, none where there are fewer.
    pub fn words_from(&self, place: usize) -> &[String] {
        match self.words.as_slice().get(place..) {
            Some(words) => words,
            None => &[],
        }
    }

    /// The place of the schedule among the words, of `atr` or else of `replay`.
    pub fn schedule(&self) -> usize {
        if self.word(0) == "atr" { 3 } else { 2 }
    }

    /// The place of the first script, of `run`, of `atr` or else of `replay`.
    pub fn first_script(&self) -> usize {
        if self.word(0) == "run" {
            2
        } else if self.word(0) == "atr" {
            4
        } else {
            3
        }
    }

    /// It was one of `run` or `replay`, and wrote a report to the end.
    pub fn has_reported(&self) -> bool {
        matches!(self.status, Status::Ok) && (self.word(0) == "run" || self.word(0) == "replay")
    }

    /// The report that was written: the sections of the callers, and the lines of the journal.
    pub fn report(&self) -> Option<(&str, &str)> {
        let report = str::from_utf8(self.outside.sink.bytes()).ok()?;
        let (sections, journal) = report.split_once("\njournal\n")?;
        Some((sections, journal.strip_suffix("end\n")?))
    }

    // It was cut off by an output of this room, which holds a front of what was due.
    fn is_front(&self, room: usize, due: &[u8]) -> bool {
        let written = self.outside.sink.bytes();
        matches!(self.status, Status::Write)
            && self.outside.sink.faults() == 1
            && written.len() == room
            && due.starts_with(written)
    }

    /// Makes the call again for each output smaller than what was due, up to the first one with which it isn't cut off
    /// after the front of that. The case is left with the room of the last one.
    pub fn first_other<H: Threads + Wait + Sync>(
        &mut self,
        rt: &H,
        alloc: Global,
        case: &mut Case,
        files: &Files,
        due: &[u8],
    ) -> Option<usize> {
        for room in 0..due.len() {
            case.room = room;
            if self.make(rt, alloc, case, files).is_none() || !self.is_front(room, due) {
                return Some(room);
            }
        }
        None
    }
}
