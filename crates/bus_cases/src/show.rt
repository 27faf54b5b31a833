//! What a call left, as text: its status, its output, what was counted, the ports' logs and the devices.
use crate::case::Call;
use case_parts::{Page, parted};
use i2c_base::{Answer, Event, PortCall, Target};
use std::alloc::Global;
use targets::DeviceState;

/// The most places of a command line.
const PLACES: u8 = 16;

/// Puts the lines of a text, each after two spaces.
pub fn put_lines(page: &mut Page, text: &str) {
    for line in text.lines() {
        page.put("  ");
        page.put_line(line);
    }
}

// A count of faults, where there are any.
fn put_faults(page: &mut Page, what: &str, count: u64) {
    if count != 0 {
        page.put("faults ");
        page.put_number(what, count);
        page.put("\n");
    }
}

// The faults of the shelf at each place.
fn put_shelf(page: &mut Page, call: &Call) {
    for place in 0..PLACES {
        put_place(page, place, call.outside.shelf.faults(place));
    }
}

// The faults of a place, where there are any.
fn put_place(page: &mut Page, place: u8, count: u64) {
    if count != 0 {
        page.put_number("faults at place ", u64::from(place));
        page.put_number(": ", count);
        page.put("\n");
    }
}

// What was counted: the faults, and the plugs of the rig.
fn put_counts(page: &mut Page, call: &Call) {
    put_shelf(page, call);
    put_faults(page, "of the output: ", call.outside.sink.faults());
    put_faults(page, "of the rig: ", call.outside.rig.faults());
    page.put_number("plugs ", call.outside.rig.plugs());
    page.put_number(", unplugs ", call.outside.rig.unplugs());
    page.put("\n");
}

/// How a call ended, what was written, and what was counted.
pub fn put_call(page: &mut Page, call: &Call) {
    let written = call.outside.sink.bytes();
    page.put_number("status ", u64::from(call.status.code()));
    page.put_number(", ", written.len() as u64);
    page.put_line(" bytes");
    put_lines(page, str::from_utf8(written).unwrap_or("no text"));
    put_counts(page, call);
}

// A call on a port.
fn put_port_call(page: &mut Page, call: PortCall) {
    match call {
        PortCall::Start(addr, reading) => {
            page.put(if reading { "start r 0x" } else { "start w 0x" });
            page.put_byte(addr.get());
        }
        PortCall::Put(byte) => {
            page.put("put 0x");
            page.put_byte(byte);
        }
        PortCall::Get(ack) => page.put(if ack { "get" } else { "get the last" }),
        PortCall::Stop => page.put("stop"),
        PortCall::Line(mux, level) => {
            page.put_number("line ", u64::from(mux.0));
            page.put_number(" ", u64::from(level));
        }
        PortCall::Fault => page.put("fault"),
    }
}

fn put_port(page: &mut Page, calls: &[PortCall]) {
    for call in calls {
        page.put("  ");
        put_port_call(page, *call);
        page.put("\n");
    }
}

/// The calls on each port.
pub fn put_calls(page: &mut Page, call: &Call) {
    for (port, calls) in call.outside.rig.logs().iter().enumerate() {
        page.put_number("port ", port as u64);
        page.put("\n");
        put_port(page, calls.as_slice());
    }
}

// The event of a word.
fn event_of(word: &str) -> Option<Event> {
    match word {
        "start" => Some(Event::Start { reading: true }),
        "put" => Some(Event::Put(1)),
        "get" => Some(Event::Get { ack: true }),
        "stop" => Some(Event::Stop),
        _ => None,
    }
}

// What a device answers to an event.
fn put_answer(page: &mut Page, answer: Answer) {
    match answer {
        Answer::Ack => page.put("ack"),
        Answer::Nack => page.put("nack"),
        Answer::Slow => page.put("slow"),
        Answer::Byte(byte) => {
            page.put("0x");
            page.put_byte(byte);
        }
        Answer::Nothing => page.put("nothing"),
    }
}

// What a device answers to the event of each word.
fn put_each(page: &mut Page, device: &mut DeviceState, words: &str) {
    for word in words.split_whitespace() {
        page.put("  ");
        page.put(word);
        page.put(": ");
        match event_of(word) {
            Some(event) => put_answer(page, device.on(event)),
            None => page.put("no event"),
        }
        page.put("\n");
    }
}

fn device_of<'c>(call: &'c Call, number: &str) -> Option<&'c DeviceState> {
    call.outside.rig.states().get(number.parse::<usize>().ok()?)
}

// What a copy of a device answers.
fn put_copied(page: &mut Page, alloc: Global, device: &DeviceState, words: &str) {
    match device.copied(alloc) {
        Ok(mut copy) => put_each(page, &mut copy, words),
        Err(_) => page.require(false),
    }
}

/// What the device of a number answers to the events of the words after it, one after the other.
pub fn put_answers(page: &mut Page, alloc: Global, call: &Call, words: &str) {
    let (number, words) = parted(words, ' ');
    page.put("device ");
    page.put_line(number);
    match device_of(call, number) {
        Some(device) => put_copied(page, alloc, device, words),
        None => page.put_line("  not there"),
    }
}
