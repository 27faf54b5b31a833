//! The two lines of a root with its targets on them.
ghost use Rattle.std.specs.Prelude.{◌≡◌, Bool, false, true, cond, min, [], IfOk};
ghost use Rattle.ports.specs.Causes.{MOST};
ghost use Rattle.i2c_spec.specs.World.{opening_world};
ghost use Rattle.wire_spec.specs.Bus.{edge, edges_in, flips_in, each, rises, scl_level, sda_level};
ghost use Rattle.wire_spec.specs.Wires.{tick};
ghost use Rattle.wire_spec.specs.Sites.{node_table, mask_of};
ghost use Rattle.i2c_bits.specs.Wiring.{AreLetGo};
ghost use Rattle.bus_lines.specs.Aparts.{world_apart};
ghost use Rattle.i2c_bits.specs.Stands.{IsFree, world_at};

use crate::Apart;
use crate::root_targets::RootTargets;
use crate::wire_state::WireState;
use i2c_base::{Answer, MuxId, NoMemory, SegId};
use i2c_bits::{ByteLines, Lines, SclTimeout, address};
use i2c_board::Accepted;
use std::alloc::Global;
use std::marker::Model;
use wire_spec::{
    a_byte_that_is_put_is_one_event, a_byte_that_is_read_is_one_event,
    a_repeated_start_calls_all_that_is_joined, a_start_calls_all_that_is_joined,
    a_stop_frees_the_lines, an_address_byte_is_one_event, chips_stand_before_devices,
    the_sites_of_a_board_are_its_worlds,
};

/// The two lines of a root, SCL and SDA, with its targets on them: a line is low exactly where the controller or a target pulls
/// it (UM10204 section 3.1.1). A contract sees the board and the root, the lines, and what the pulls and looks have come to.
#[derive(Drop)]
pub struct BusLines {
    targets: RootTargets,
    wire: WireState,
}

impl Model for BusLines {
    ghost use Rattle.bus_lines.specs.LinesViews.{LinesView, lines_of};

    ghost Value = { LinesView };

    ghost view = { λ l. lines_of l.targets l.wire };
}

impl BusLines {
    /// The lines of this root as the board is opened: both are free, nobody is in a message, and nothing has happened on them.
    pub fn open(alloc: Global, board: &Accepted, root: SegId) -> Result<Self, NoMemory>
        ensures rooted { IfOk result (λ lines. lines.rooted ≡ record { board = board.now; root = root }) }
        ensures let_go { IfOk result (λ lines. AreLetGo lines.wire) }
        ensures free { IfOk result (λ lines. IsFree lines.rooted lines.bus) }
        ensures world { IfOk result (λ lines. world_at lines.rooted false lines.bus ≡ opening_world board.now root) }
        ensures seen { IfOk result (λ lines. lines.bus.seen ≡ []) }
    {
        board.board().roots();
        chips_stand_before_devices();
        the_sites_of_a_board_are_its_worlds();
        Ok(BusLines {
            targets: RootTargets::open(alloc, board, root)?,
            wire: WireState::free(),
        })
    }

    /// The targets, taken off the lines: the world that they are stays.
    pub fn apart(self) -> Apart
        ensures { (busy : Bool) → world_apart busy result ≡ world_at self.rooted busy self.bus }
    {
        self.targets.apart()
    }

    /// How often SCL rose, up to 2^64 - 1.
    pub fn edges(&self) -> u64
        ensures { result ≡ min (edges_in self.now.bus.seen) MOST }
    {
        self.targets.edges()
    }

    /// How often SDA changed while SCL was high, a start or a stop each (UM10204 section 3.1.4), up to 2^64 - 1.
    pub fn flips(&self) -> u64
        ensures { result ≡ min (flips_in self.now.bus.seen) MOST }
    {
        self.targets.flips()
    }

    /// The levels of SCL and SDA, as a probe has them: true is high. Nobody who holds SCL low has a look less to go.
    pub fn levels(&self) -> (bool, bool)
        ensures clock { result.0 ≡ scl_level self.now.bus }
        ensures data { result.1 ≡ sda_level node_table self.now.bus }
    {
        (self.clock_high(), self.data_high())
    }

    /// The level of SCL: true is high.
    #[inline(always)]
    fn clock_high(&self) -> bool
        ensures { result ≡ scl_level self.now.bus }
    {
        !self.wire.pulls_clock() && !self.targets.holds_clock()
    }

    /// The level of SDA: true is high.
    #[inline(always)]
    fn data_high(&self) -> bool
        ensures { result ≡ sda_level node_table self.now.bus }
    {
        !self.wire.pulls_data() && !self.targets.pulls_data()
    }

    /// The levels have changed, from these: the targets see it.
    #[inline(always)]
    fn change(&mut self, clock_was: bool, data_was: bool)
        ensures { self.new ≡ record self.old { bus = edge node_table (mask_of self.old.rooted.board self.old.rooted.root) clock_was data_was self.old.bus } }
    {
        let clock = self.clock_high();
        let data = self.data_high();
        if !clock_was {
            if clock {
                self.targets.rise(data);
            }
        } else if !clock {
            self.targets.fall();
        } else if data_was && !data {
            self.targets.start_condition();
        } else if !data_was && data {
            self.targets.stop_condition();
        }
    }

    /// SCL was looked at and was low: who holds it has a look less to go, and SCL rises where that was the last.
    #[inline(never)]
    fn tick(&mut self)
        ensures { self.new ≡ record self.old { bus = cond (scl_level (each tick self.old.bus)) (rises node_table (each tick self.old.bus)) (each tick self.old.bus) } }
    {
        self.targets.tick();
        if self.clock_high() {
            let data = self.data_high();
            self.targets.rise(data);
        }
    }
}

impl Lines for BusLines {
    ghost tells = { true };

    ghost wire = { λ l. l.wire };

    ghost board = { λ l. l.rooted };

    ghost bus = { λ l. l.bus };

    #[inline(always)]
    fn pull(&mut self, scl: bool, sda: bool) {
        let clock_was = self.clock_high();
        let data_was = self.data_high();
        self.wire.pull(scl, sda);
        self.change(clock_was, data_was);
    }

    #[inline(always)]
    fn look(&mut self) -> (bool, bool) {
        let clock = self.clock_high();
        let data = self.data_high();
        self.wire.look(clock, data);
        if !clock {
            self.tick();
        }
        (clock, data)
    }

    fn line(&mut self, mux: MuxId, level: u8) {
        self.targets.set_line(mux, level);
    }
}

impl ByteLines for BusLines {
    #[inline(always)]
    fn start(&mut self, busy: bool) -> Result<(), SclTimeout> {
        a_start_calls_all_that_is_joined();
        a_repeated_start_calls_all_that_is_joined();
        self.targets.show_rise(busy, true);
        self.targets.start_condition();
        self.wire.begun(busy);
        Ok(())
    }

    #[inline(always)]
    fn stop(&mut self) -> Result<(), SclTimeout> {
        a_stop_frees_the_lines();
        self.targets.show_rise(true, false);
        self.targets.stop_condition();
        self.wire.ended();
        Ok(())
    }

    #[inline(always)]
    fn send_byte(&mut self, byte: u8) -> Result<bool, SclTimeout> {
        a_byte_that_is_put_is_one_event();
        let acked = self.targets.put(byte);
        self.wire.nine(false, !acked);
        Ok(acked)
    }

    #[inline(always)]
    fn receive_byte(&mut self, ack: bool) -> Result<u8, SclTimeout> {
        a_byte_that_is_read_is_one_event();
        let byte = self.targets.get(ack);
        self.wire.nine(ack, !ack);
        Ok(byte)
    }

    fn address_byte(&mut self, byte: u8) -> Result<Answer, SclTimeout> {
        an_address_byte_is_one_event();
        match self.targets.address(byte) {
            Some(acked) => {
                self.wire.nine(false, !acked);
                Ok(if acked { Answer::Ack } else { Answer::Nack })
            }
            None => address(self, byte),
        }
    }
}
