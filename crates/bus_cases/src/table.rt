//! The table of cases, read line by line.
use crate::behind::put_behind;
use crate::case::{Call, Case, Files};
use crate::entries::put_entry;
use crate::holds::put_holds;
use crate::interleavings::{put_again, put_interleavings};
use crate::mute::put_mute;
use crate::on_wires::WiredCall;
use crate::replayed::put_replayed;
use crate::show::{put_answers, put_call, put_calls};
use crate::turns::put_turns;
use crate::verified::is_verified;
use case_parts::{Page, parted};
use std::alloc::{AllocError, Global};
use std::collections::BTreeMap;
use std::sync::Wait;
use std::thread::Threads;

/// A table that is read line by line: the files so far, the case, and its last call.
#[derive(Drop)]
pub struct Table {
    files: Files,
    /// The file whose lines come.
    file: Option<String>,
    case: Case,
    call: Call,
    is_called: bool,
    /// How often SCL rose in the last call, where it was made over two wires.
    edges: u64,
}

// Adds a line to a file.
fn add_line(bytes: &mut Vec<u8>, line: &str) -> Result<(), AllocError> {
    bytes.extend_from_slice(line.as_bytes())?;
    bytes.push(b'\n')?;
    Ok(())
}

impl Table {
    /// None where there is no memory.
    pub fn new(alloc: Global) -> Option<Self> {
        Some(Table {
            call: Call::new(alloc)?,
            files: BTreeMap::new(alloc),
            file: None,
            case: Case::new(alloc),
            is_called: false,
            edges: 0,
        })
    }

    /// Takes a line, and does what it asks for.
    pub fn take<H: AllocGlobal + Threads + Wait + Sync>(
        &mut self,
        rt: &H,
        page: &mut Page,
        line: &str,
    ) {
        if self.file.is_some() {
            self.take_file_line(page, line);
        } else if !line.is_empty() && !line.starts_with('#') {
            self.take_command(rt, page, rt.alloc(), line);
        }
    }

    fn take_file_line(&mut self, page: &mut Page, line: &str) {
        if line == "." {
            self.file = None;
        } else {
            page.require(self.has_added(line));
        }
    }

    // Adds a line to the file whose lines come.
    fn has_added(&mut self, line: &str) -> bool {
        match &self.file {
            Some(name) => match self.files.get_mut(name.as_str()) {
                Some(bytes) => add_line(bytes, line).is_ok(),
                None => false,
            },
            None => false,
        }
    }

    fn take_command<H: Threads + Wait + Sync>(
        &mut self,
        rt: &H,
        page: &mut Page,
        alloc: Global,
        line: &str,
    ) {
        let (command, rest) = parted(line, ' ');
        match command {
            "file" => page.require(self.begin_file(alloc, rest).is_some()),
            "case" => self.begin_case(page, alloc, rest),
            "call" => self.make_call(rt, page, alloc, rest),
            "words" => self.read_words(page, alloc, rest),
            "turns" => self.put_turns(rt, page, alloc, rest),
            "holds" => self.put_holds(rt, page, alloc, rest),
            "behind" => self.put_behind(rt, page, alloc, rest),
            "mute" => put_mute(page),
            "entry" => put_entry(page, alloc, rest),
            "reads" | "writes" | "fails" | "room" | "stuck" => {
                page.require(self.case.set(command, rest).is_some())
            }
            _ => self.show(rt, page, alloc, command, rest),
        }
    }

    fn begin_file(&mut self, alloc: Global, name: &str) -> Option<()> {
        self.file = Some(String::from_str(alloc, name).ok()?);
        self.files
            .insert(String::from_str(alloc, name).ok()?, Vec::new(alloc))
            .ok()?;
        Some(())
    }

    fn begin_case(&mut self, page: &mut Page, alloc: Global, name: &str) {
        self.case = Case::new(alloc);
        self.is_called = false;
        page.put("== ");
        page.put_line(name);
    }

    fn make_call<H: Threads + Wait + Sync>(
        &mut self,
        rt: &H,
        page: &mut Page,
        alloc: Global,
        words: &str,
    ) {
        self.is_called = self.has_called(rt, alloc, words).is_some();
        page.require(self.is_called);
        put_call(page, &self.call);
        if self.call.has_reported() {
            let put = self.put_verified(rt, page, alloc);
            page.require(put.is_some());
        }
        if self.case.has_sound_ports() {
            let put = self.put_wired(rt, page, alloc);
            page.require(put.is_some());
        }
    }

    // Asks `verify` of the report that was written, and says so where it isn't verified.
    fn put_verified<H: Threads + Wait + Sync>(
        &self,
        rt: &H,
        page: &mut Page,
        alloc: Global,
    ) -> Option<()> {
        if !is_verified(rt, alloc, &self.files, &self.call)? {
            page.put_line("its report isn't verified");
        }
        Some(())
    }

    // Makes the same call over two wires, and says so where it leaves anything else.
    fn put_wired<H: Threads + Wait + Sync>(
        &mut self,
        rt: &H,
        page: &mut Page,
        alloc: Global,
    ) -> Option<()> {
        let words = self.call.words.as_slice();
        let wired = WiredCall::make(rt, alloc, &self.case, &self.files, words)?;
        self.edges = wired.edges();
        if !wired.is_as(alloc, &self.call) {
            page.put_line("over two wires it is another");
        }
        Some(())
    }

    fn put_edges(&self, page: &mut Page) {
        page.put_number("SCL rose ", self.edges);
        page.put_line(" times");
    }

    fn has_called<H: Threads + Wait + Sync>(
        &mut self,
        rt: &H,
        alloc: Global,
        words: &str,
    ) -> Option<()> {
        self.call.read_words(alloc, words)?;
        self.call.make(rt, alloc, &self.case, &self.files)
    }

    // Has the words of a call that isn't made yet.
    fn read_words(&mut self, page: &mut Page, alloc: Global, words: &str) {
        self.is_called = self.call.read_words(alloc, words).is_some();
        page.require(self.is_called);
    }

    // Makes the call with callers of these two numbers that take turns.
    fn put_turns<H: Threads + Wait + Sync>(
        &mut self,
        rt: &H,
        page: &mut Page,
        alloc: Global,
        numbers: &str,
    ) {
        let (held, other) = parted(numbers, ' ');
        match (held.parse(), other.parse()) {
            (Ok(held), Ok(other)) => {
                put_turns(rt, page, alloc, &self.files, &mut self.call, held, other)
            }
            _ => page.require(false),
        }
    }

    // Makes the call over a rig whose ports of these two roots wait for each other.
    fn put_holds<H: Threads + Wait + Sync>(
        &self,
        rt: &H,
        page: &mut Page,
        alloc: Global,
        numbers: &str,
    ) {
        let (held, other) = parted(numbers, ' ');
        match (held.parse(), other.parse()) {
            (Ok(held), Ok(other)) => {
                let words = self.call.words.as_slice();
                let put = put_holds(rt, page, alloc, &self.files, words, held, other);
                page.require(put.is_some());
            }
            _ => page.require(false),
        }
    }

    // Makes the call so many times, of which the first so many callers come first.
    fn put_behind<H: Threads + Wait + Sync>(
        &mut self,
        rt: &H,
        page: &mut Page,
        alloc: Global,
        numbers: &str,
    ) {
        let (many, times) = parted(numbers, ' ');
        match (many.parse(), times.parse()) {
            (Ok(many), Ok(times)) => {
                put_behind(rt, page, alloc, &self.files, &mut self.call, many, times)
            }
            _ => page.require(false),
        }
    }

    // Makes the call so many times.
    fn put_again<H: Threads + Wait + Sync>(
        &self,
        rt: &H,
        page: &mut Page,
        alloc: Global,
        times: &str,
        is_apart: bool,
    ) {
        match times.parse() {
            Ok(times) => put_again(rt, page, alloc, &self.files, &self.call, times, is_apart),
            Err(_) => page.require(false),
        }
    }

    // Puts what the last call left.
    fn show<H: Threads + Wait + Sync>(
        &mut self,
        rt: &H,
        page: &mut Page,
        alloc: Global,
        command: &str,
        rest: &str,
    ) {
        page.require(self.is_called);
        match command {
            "interleavings" => put_interleavings(rt, page, alloc, &self.files, &self.call),
            "again" => self.put_again(rt, page, alloc, rest, false),
            "apart" => self.put_again(rt, page, alloc, rest, true),
            "fronts" => self.put_fronts(rt, page, alloc),
            "calls" => put_calls(page, &self.call),
            "device" => put_answers(page, alloc, &self.call, rest),
            "edges" => self.put_edges(page),
            "replayed" => {
                let put = put_replayed(rt, page, alloc, &self.case, &self.files, &mut self.call);
                page.require(put.is_some());
            }
            _ => page.require(false),
        }
    }

    // The first smaller output that doesn't hold the front of what a call wrote, or that there is none.
    fn put_fronts<H: Threads + Wait + Sync>(&mut self, rt: &H, page: &mut Page, alloc: Global) {
        match Vec::from_slice(alloc, self.call.outside.sink.bytes()) {
            Ok(due) => self.put_first_other(rt, page, alloc, due.as_slice()),
            Err(_) => page.require(false),
        }
    }

    fn put_first_other<H: Threads + Wait + Sync>(
        &mut self,
        rt: &H,
        page: &mut Page,
        alloc: Global,
        due: &[u8],
    ) {
        match self
            .call
            .first_other(rt, alloc, &mut self.case, &self.files, due)
        {
            None => page.put_line("each smaller output holds the front"),
            Some(room) => {
                page.put_number("an output with no such front: ", room as u64);
                page.put("\n");
            }
        }
    }
}
