//! Worked examples of mux chips, event by event.
use case_parts::{Page, byte, put_said};
use i2c_base::{Addr, Event, Idle, LockMode, MuxKind, MuxSpec, SegId, Target};
use targets::Chip;

// The kind of a chip, and how many channels it has.
fn kind_of(name: &str) -> Option<(MuxKind, u8)> {
    match name {
        "pca9548" => Some((MuxKind::Pca9548, 8)),
        "pca9546" => Some((MuxKind::Pca9546, 4)),
        "pca9544" => Some((MuxKind::Pca9544, 4)),
        "pca9541" => Some((MuxKind::Pca9541, 1)),
        "gpio" => Some((MuxKind::Gpio, 3)),
        _ => None,
    }
}

// The chip `KIND`, or `pca9541 N`, which is found N times with its other controller, and 8 times for good.
fn open(subject: &str) -> Option<Chip> {
    let (name, times) = subject.split_once(' ').unwrap_or((subject, "0"));
    let (kind, channels) = kind_of(name)?;
    Some(Chip::open(&MuxSpec {
        bus: SegId(0),
        kind,
        addr: Addr::new(0x70),
        channels,
        lock: LockMode::Parent,
        absent: false,
        foreign: times.parse().ok()?,
        idle: Idle::Disconnect,
    }))
}

/// Answers words about a chip, which is named as `open` tells. `w` and `r` are a start with the chip's address, to write
/// and to read, `o` a start for another, `+` and `-` a read that is acknowledged or isn't, `.` a stop, two hexadecimal
/// digits a byte that is put, and `=N` the level N of a line. `?` asks which channels are open.
pub fn answer_all(page: &mut Page, subject: &str, words: &str) {
    match open(subject) {
        Some(mut chip) => answer_each(page, &mut chip, words),
        None => page.put(" no chip"),
    }
}

fn answer_each(page: &mut Page, chip: &mut Chip, words: &str) {
    for word in words.split_whitespace() {
        page.put(" ");
        answer(page, chip, word);
    }
}

fn answer(page: &mut Page, chip: &mut Chip, word: &str) {
    if word == "?" {
        put_channels(page, chip);
    } else if let Some(level) = word.strip_prefix('=') {
        set_level(page, chip, level);
    } else {
        match event_of(word) {
            Some(event) => put_said(page, chip.on(event)),
            None => page.put("no event"),
        }
    }
}

fn event_of(word: &str) -> Option<Event> {
    match word {
        "w" => Some(Event::Start { reading: false }),
        "r" => Some(Event::Start { reading: true }),
        "o" => Some(Event::Other),
        "+" => Some(Event::Get { ack: true }),
        "-" => Some(Event::Get { ack: false }),
        "." => Some(Event::Stop),
        _ => Some(Event::Put(byte(word)?)),
    }
}

// Sets the line to a level.
fn set_level(page: &mut Page, chip: &mut Chip, level: &str) {
    match byte(level) {
        Some(level) => {
            chip.set_level(level);
            page.put(".");
        }
        None => page.put("no level"),
    }
}

// The channels that are open, of the nine that are counted from 0 to 8.
fn put_channels(page: &mut Page, chip: &Chip) {
    page.put("open");
    for channel in 0..9u8 {
        if chip.is_open(channel) {
            page.put_number(",", u64::from(channel));
        }
    }
}
