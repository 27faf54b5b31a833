//! Register devices at one address, by their table alone, on two wires of no board: they may hold the clock for longer than
//! the devices of a board do.
ghost use Rattle.std.specs.Prelude.{[], false, IfSome};
ghost use Rattle.wire_spec.specs.Bus.{bus_of};
ghost use Rattle.i2c_bits.specs.Wiring.{AreLetGo};

use crate::driver::Driver;
use crate::wires::call_of;
use bus_lines::WireState;
use case_parts::{Page, put_said};
use i2c_base::{Answer, Event, MuxId, Target};
use i2c_bits::{BitPort, ByteLines, Lines};
use std::alloc::Global;
use std::marker::Model;
use targets::Regs;
use tgt_bits::{BitTarget, Wired};

/// The address of each of the devices.
const ADDRESS: u8 = 0x20;

/// A register device of no board.
#[derive(Drop)]
struct Held {
    regs: Regs,
}

impl Model for Held {
    ghost use Rattle.i2c_spec.specs.Targets.RegsDevice.{RegsView};

    ghost Value = { RegsView };

    ghost view = { λ h. h.regs };
}

impl Target for Held {
    ghost use Rattle.i2c_spec.specs.Targets.RegsDevice.{regs_table};

    ghost table = { regs_table };

    fn on(&mut self, event: Event) -> Answer {
        self.regs.on(event)
    }
}

impl Wired for Held {
    ghost use Rattle.i2c_spec.proofs.StateLemmas.RegsLemmas.{regs_fair};

    ghost fair = { regs_fair };

    fn sends(&self) -> u8 {
        self.regs.sends()
    }

    fn hold(&self) -> u8 {
        self.regs.hold()
    }
}

/// Two wires with such devices, each of which sees each edge.
#[derive(Drop)]
struct HeldLines {
    targets: Vec<BitTarget<Held>>,
    wire: WireState,
}

impl HeldLines {
    /// A device for each of these words, which holds the clock for so many looks. None where one is no number, or memory is
    /// wanting.
    fn open(alloc: Global, holds: &str) -> Option<Self>
        ensures { IfSome result (λ lines. AreLetGo lines.wire) }
    {
        let mut targets = Vec::new(alloc);
        for hold in holds.split_whitespace() {
            let regs = Regs::open(hold.parse().ok()?, &[]);
            targets
                .push(BitTarget::released(ADDRESS, true, Held { regs }))
                .ok()?;
        }
        Some(HeldLines {
            targets,
            wire: WireState::free(),
        })
    }

    // The levels of SCL and SDA: true is high.
    fn levels(&self) -> (bool, bool) {
        let clock_low = self.wire.pulls_clock() || self.targets.iter().any(BitTarget::holds_clock);
        let data_low = self.wire.pulls_data() || self.targets.iter().any(BitTarget::pulls_data);
        (!clock_low, !data_low)
    }
}

// Each device sees what became of the levels.
fn tell(targets: &mut Vec<BitTarget<Held>>, was: (bool, bool), now: (bool, bool)) {
    for target in targets.iter_mut() {
        match (was, now) {
            ((false, _), (true, level)) => target.on_rise(level),
            ((true, _), (false, _)) => target.on_fall(),
            ((true, true), (true, false)) => target.on_begin(),
            ((true, false), (true, true)) => target.on_finish(),
            _ => {}
        }
    }
}

// SCL was looked at and was low.
fn tick(targets: &mut Vec<BitTarget<Held>>) {
    for target in targets.iter_mut() {
        target.on_tick();
    }
}

impl Lines for HeldLines {
    ghost tells = { false };

    ghost wire = { λ l. l.wire };

    ghost board = { λ l. record { board = record { version = 1; roots = []; muxes = []; devices = [] }; root = 0 } };

    ghost bus = { λ l. bus_of false false [] [] };

    fn pull(&mut self, scl: bool, sda: bool) {
        let was = self.levels();
        self.wire.pull(scl, sda);
        let now = self.levels();
        tell(&mut self.targets, was, now);
    }

    fn look(&mut self) -> (bool, bool) {
        let was = self.levels();
        self.wire.look(was.0, was.1);
        if !was.0 {
            tick(&mut self.targets);
            let now = self.levels();
            tell(&mut self.targets, was, now);
        }
        was
    }

    fn line(&mut self, _mux: MuxId, _level: u8) {}
}

impl ByteLines for HeldLines {}

/// Answers the words of `wires::answer_all` by a port over two wires with register devices at 0x20, each of which holds the
/// clock for as many looks as one of the numbers says.
pub fn answer_all(page: &mut Page, alloc: Global, holds: &str, words: &str) {
    match port_of(alloc, holds) {
        Some(mut driver) => answer_each(page, &mut driver, words),
        None => page.require(false),
    }
}

// A port over them.
fn port_of(alloc: Global, holds: &str) -> Option<Driver<HeldLines>> {
    Some(Driver::of(BitPort::open(HeldLines::open(alloc, holds)?)))
}

fn answer_each(page: &mut Page, driver: &mut Driver<HeldLines>, words: &str) {
    for word in words.split_whitespace() {
        page.put(" ");
        match call_of(word) {
            Some(call) => match driver.make(call) {
                Some(answer) => put_said(page, answer),
                None => page.put("no answer"),
            },
            None => page.put("no call"),
        }
    }
}
