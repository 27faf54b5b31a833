//! The targets of a root, on its two lines.
ghost use Rattle.std.specs.Prelude.{◌≡◌, ◌⊎◌, ◌==◌, IfOk, false, [], ◌∷◌, cond, map, min, not};
ghost use Rattle.bus_lines.specs.Numbers.{AreNumbers};
ghost use Rattle.ports.specs.Causes.{MOST};
ghost use Rattle.wire_spec.specs.Wires.{rise, fall, tick, begin, finish};
ghost use Rattle.wire_spec.specs.Roots.{some_one, pulls_line, where_joined, and_all};
ghost use Rattle.wire_spec.specs.Bus.{holds_line, Level, Started, Stopped, edges_in, flips_in, rejoined};
ghost use Rattle.wire_spec.specs.Sites.{node_table, mask_of};
ghost use Rattle.i2c_bits.specs.Wiring.{levelled_bits};
ghost use Rattle.wire_spec.specs.Calls.{byte_seen};
ghost use Rattle.bus_lines.specs.declared.edges.Edge.TheVariants as the;
ghost use Rattle.bus_lines.specs.Edges.{seen, acks_put, gives_get};
ghost use Rattle.bus_lines.specs.Aparts.{apart_of};
ghost use Rattle.bus_lines.specs.LinesViews.{IsAddressed, rise_if};
ghost use Rattle.bus_lines.specs.Opens.{opened_targets};

use crate::counter::Counter;
use crate::edges::{Edge, enter_all, get_all, put_all, some_pulls, some_slow, tell};
use crate::index::Index;
use crate::joining::{list_joined, refresh_all, rejoin, set_level};
use crate::message::{call, leave, spread, stop};
use crate::numbers::TargetNumbers;
use crate::opening::{add_chips, add_devices, all_places};
use crate::place::WirePlace;
use crate::register::Register;
use crate::{Apart, WireTarget};
use i2c_base::{MuxId, NoMemory, SegId};
use i2c_board::Accepted;
use std::alloc::Global;
use std::marker::Model;
use std::snapshot::Snapshot;
use tgt_bits::BitTarget;

/// The targets of a root: a chip for each mux of the board, and then each of its devices, by number. Those of another root, and
/// absent chips, are never joined, and nothing is kept of another root's devices. Whether a target is joined is kept of those that
/// a message has reached, and read anew of those that an address names. A contract sees all of them as they are joined, with the
/// board and the root, and what the lines have shown.
#[derive(Drop)]
pub struct RootTargets {
    board: Snapshot<Accepted>,
    root: SegId,
    places: Vec<WirePlace>,
    bits: Vec<BitTarget<WireTarget>>,
    /// Who is at each address.
    at: Index,
    /// What has come of an address byte: all that is joined has this of it, and stands as it does where none comes in.
    address: Register,
    /// All that aren't out of the message: no edge and no look is anything to another.
    live: TargetNumbers,
    /// All that a message has reached since their last stop: another's start, and a stop, are nothing to others.
    started: TargetNumbers,
    /// Those that the last address byte named, of who is joined.
    called: TargetNumbers,
    /// Someone holds SCL low.
    held: bool,
    counter: Counter,
}

impl Model for RootTargets {
    ghost use Rattle.std.specs.Prelude.{map};
    ghost use Rattle.bus_lines.specs.LinesViews.{TargetsView};
    ghost use Rattle.bus_lines.specs.Away.{whole_on};
    ghost use Rattle.bus_lines.specs.Known.{AreListed, known_on};
    ghost use Rattle.bus_lines.specs.Units.{shared};

    ghost Value = { TargetsView };

    ghost view = { λ t. record { rooted = record { board = t.board.value; root = t.root }; bits = map (shared t.address.left t.address.value) (whole_on t.board.value t.places.items (known_on t.places.items t.bits.items)); shown = t.counter } };

    ghost invariant = { λ t. AreListed (record { board = t.board.value; root = t.root }) t.places.items t.held t.address t.live t.started t.called t.at t.bits.items };
}

/// Those that an edge within a message is told to: all that are in it, and nobody while an address comes in.
#[inline(always)]
fn told<'a>(address: &Register, live: &'a TargetNumbers) -> &'a [u16]
    ensures value { result.now ≡ cond (not (address.now.left == 0)) [] live.now.items }
    ensures numbers { AreNumbers live.now.room result.now }
{
    if address.is_coming() {
        &[]
    } else {
        live.as_slice()
    }
}

impl RootTargets {
    /// The targets of this root as the board is opened.
    pub fn open(alloc: Global, board: &Accepted, root: SegId) -> Result<Self, NoMemory>
        ensures { IfOk result (λ targets. targets ≡ opened_targets board.now root) }
    {
        let layout = board.board().layout();
        let places = all_places(alloc, layout, root)?;
        let mut bits = Vec::new(alloc);
        add_chips(layout, &mut bits)?;
        add_devices(alloc, layout, root, &mut bits)?;
        let at = Index::of(alloc, bits.as_slice())?;
        let live = TargetNumbers::with_room(alloc, bits.len())?;
        let started = TargetNumbers::with_room(alloc, bits.len())?;
        let called = TargetNumbers::with_room(alloc, bits.len())?;
        let held = rejoin(&mut bits, places.as_slice());
        Ok(RootTargets {
            board: Snapshot::of(board),
            root,
            places,
            bits,
            at,
            address: Register::none(),
            live,
            started,
            called,
            held,
            counter: Counter::none(),
        })
    }

    /// The targets, off the lines.
    pub fn apart(self) -> Apart
        ensures { result ≡ apart_of self.rooted self.bits }
    {
        let RootTargets {
            board,
            root,
            places,
            mut bits,
            ..
        } = self;
        refresh_all(&mut bits, places.as_slice());
        Apart::of(board, root, places, bits)
    }

    /// Someone holds SCL low.
    #[inline(always)]
    pub fn holds_clock(&self) -> bool
        ensures { result ≡ some_one holds_line self.now.bits }
    {
        self.held
    }

    /// Someone pulls SDA low.
    pub fn pulls_data(&self) -> bool
        ensures { result ≡ some_one (pulls_line node_table) self.now.bits }
    {
        some_pulls(self.bits.as_slice(), told(&self.address, &self.live))
    }

    /// How often SCL rose, up to 2^64 - 1.
    pub fn edges(&self) -> u64
        ensures { result ≡ min (edges_in self.now.shown) MOST }
    {
        self.counter.edges()
    }

    /// How often there was a start or a stop, up to 2^64 - 1.
    pub fn flips(&self) -> u64
        ensures { result ≡ min (flips_in self.now.shown) MOST }
    {
        self.counter.flips()
    }

    /// SCL rises, with SDA at this level, since nobody holds it. Who pulls SDA stays: that changes only while SCL is low (UM10204
    /// section 3.1.3).
    #[inline(always)]
    pub fn rise(&mut self, level: bool)
        requires { some_one holds_line self.old.bits ≡ false }
        ensures { self.new ≡ record self.old { bits = map (where_joined (λ b. rise node_table b level)) self.old.bits; shown = Level level ∷ self.old.shown } }
    {
        self.counter.add_rise(level);
        if !self.address.is_coming() {
            tell(&mut self.bits, self.live.as_slice(), Edge::Rise(level));
        } else if let Some(byte) = self.address.take(level) {
            list_joined(
                &mut self.bits,
                self.places.as_slice(),
                self.at.at(byte / 2),
                &mut self.called,
            );
            call(
                &mut self.bits,
                &self.at,
                self.called.as_slice(),
                &mut self.live,
                &mut self.started,
                byte,
            );
        }
    }

    /// SCL rises, where that is so, with SDA at this level, and is nothing to the targets: before a repeated start, and before a stop.
    #[inline(always)]
    pub fn show_rise(&mut self, rises: bool, level: bool)
        ensures { self.new ≡ record self.old { shown = rise_if rises level self.old.shown } }
    {
        if rises {
            self.counter.add_rise(level);
        }
    }

    /// An address byte with its acknowledge clock, all nine clocks at once, where an address comes in. Whether it is acknowledged;
    /// nothing happens where someone at the address would hold the clock for too long.
    #[inline(always)]
    pub fn address(&mut self, byte: u8) -> Option<bool>
        ensures { IsAddressed byte result self.old self.new }
    {
        if !self.address.is_coming() {
            return None;
        }
        list_joined(
            &mut self.bits,
            self.places.as_slice(),
            self.at.at(byte / 2),
            &mut self.called,
        );
        if some_slow(self.bits.as_slice(), self.called.as_slice()) {
            return None;
        }
        self.address = Register::none();
        call(
            &mut self.bits,
            &self.at,
            self.called.as_slice(),
            &mut self.live,
            &mut self.started,
            byte,
        );
        let acked = enter_all(&mut self.bits, self.live.as_slice());
        self.counter.add_byte(byte, acked);
        Some(acked)
    }

    /// A byte with its acknowledge clock, all nine clocks at once. Whether it is acknowledged.
    #[inline(always)]
    pub fn put(&mut self, byte: u8) -> bool
        ensures acked { result ≡ some_one (acks_put byte) self.old.bits }
        ensures after { self.new ≡ record self.old { bits = map (where_joined (seen (the.Put byte))) self.old.bits; shown = byte_seen byte result self.old.shown } }
    {
        let acked = put_all(&mut self.bits, told(&self.address, &self.live), byte);
        self.counter.add_byte(byte, acked);
        acked
    }

    /// A byte is read with the controller's answer, all nine clocks at once. The AND of what is sent.
    #[inline(always)]
    pub fn get(&mut self, ack: bool) -> u8
        ensures byte { result ≡ and_all (map gives_get self.old.bits) }
        ensures after { self.new ≡ record self.old { bits = map (where_joined (seen (the.Get ack))) self.old.bits; shown = byte_seen result ack self.old.shown } }
    {
        let byte = get_all(&mut self.bits, told(&self.address, &self.live), ack);
        self.counter.add_byte(byte, ack);
        byte
    }

    /// SCL falls, or was looked at and was low.
    #[inline(always)]
    fn see_low(&mut self, edge: Edge)
        requires { (edge ≡ the.Fall) ⊎ (edge ≡ the.Tick) }
        ensures { self.new ≡ record self.old { bits = map (where_joined (seen edge)) self.old.bits } }
    {
        self.held = tell(&mut self.bits, told(&self.address, &self.live), edge);
    }

    /// SCL falls.
    #[inline(always)]
    pub fn fall(&mut self)
        ensures { self.new ≡ record self.old { bits = map (where_joined fall) self.old.bits } }
    {
        self.see_low(Edge::Fall);
    }

    /// SCL was looked at and was low.
    pub fn tick(&mut self)
        ensures { self.new ≡ record self.old { bits = map (where_joined tick) self.old.bits } }
    {
        self.see_low(Edge::Tick);
    }

    /// A start: SDA falls while SCL is high.
    pub fn start_condition(&mut self)
        ensures { self.new ≡ record self.old { bits = map (where_joined begin) self.old.bits; shown = Started ∷ self.old.shown } }
    {
        self.counter.add_start();
        leave(&mut self.bits, &mut self.live);
        self.address = Register::whole();
        self.held = false;
    }

    /// A stop: SDA rises while SCL is high. Who is joined then is read anew of all at once only where it missed someone.
    #[inline(always)]
    pub fn stop_condition(&mut self)
        ensures { self.new ≡ record self.old { bits = rejoined (mask_of self.old.rooted.board self.old.rooted.root) (map (where_joined (finish node_table)) self.old.bits); shown = Stopped ∷ self.old.shown } }
    {
        self.counter.add_stop();
        self.address = Register::none();
        if stop(&mut self.bits, &mut self.live, &mut self.started) {
            self.held = false;
        } else {
            self.held = rejoin(&mut self.bits, self.places.as_slice());
        }
    }

    /// The line of a gpio mux is set, and who is joined is read anew.
    pub fn set_line(&mut self, mux: MuxId, level: u8)
        ensures { self.new ≡ record self.old { bits = rejoined (mask_of self.old.rooted.board self.old.rooted.root) (levelled_bits mux level self.old.bits) } }
    {
        refresh_all(&mut self.bits, self.places.as_slice());
        spread(
            &mut self.bits,
            &mut self.live,
            &mut self.started,
            &mut self.address,
        );
        set_level(&mut self.bits, mux, level);
        self.held = rejoin(&mut self.bits, self.places.as_slice());
    }
}
