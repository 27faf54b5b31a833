//! A port on the two wires of a root, as a type of its own.
ghost use Rattle.std.specs.Prelude.{◌≡◌, ◌<◌, ◌++◌, [], ◌∷◌, true, IfOk, IsOk, length};
ghost use Rattle.i2c_base.specs.Limits.{MOST_CALLS};
ghost use Rattle.i2c_base.specs.Phases.{MayStart, MayPut, MayGet, MayStop, MayLine, AnswersStart, phase_started, phase_put, phase_got};
ghost use Rattle.i2c_base.specs.declared.port.Phase.{Phase};
ghost use Rattle.i2c_base.specs.declared.port.PortCall.TheVariants as call;
ghost use Rattle.i2c_spec.specs.World.{after, answer, takes, gives};
ghost use Rattle.ports.specs.LineCalls.{HasLine};
ghost use Rattle.wire_spec.specs.Calls.{byte_seen};
ghost use Rattle.i2c_bits.specs.Showing.{address_byte, StartShows, StopShows};
ghost use Rattle.i2c_bits.specs.PortViews as view;
ghost use Rattle.i2c_bits.specs.Stands.{world_at};
ghost use Rattle.i2c_physics.specs.BitRigs.{opening_wired, wired};
ghost use Rattle.i2c_physics.specs.Shows.{ShowsCalls};

use crate::RootLines;
use i2c_base::{Addr, Answer, MuxId, NoMemory, SegId};
use i2c_bits::{BitPort, ClosedPort};
use i2c_board::Accepted;
use ports::{Failed, Port};
use std::alloc::Global;
use std::marker::Model;

/// The port of one root of a board that drives its two wires, bit by bit, with the board's targets on them. By its type no call of it
/// has failed, and its wires have shown what its calls show.
#[derive(Drop)]
pub struct WirePort<L: RootLines> {
    port: BitPort<L>,
}

impl<L: RootLines> Model for WirePort<L> {
    ghost use Rattle.i2c_bits.specs.PortViews.{BitPortView};
    ghost use Rattle.i2c_physics.specs.BitRigs.{IsWirePort};

    ghost Value = { BitPortView };

    ghost view = { λ p. p.port };

    ghost invariant = { λ p. IsWirePort p.port };
}

impl<L: RootLines> WirePort<L> {
    /// The port of this root, in the root's opening world, on wires that haven't changed yet.
    pub(crate) fn open(alloc: Global, board: &Accepted, root: SegId) -> Result<Self, NoMemory>
        ensures { IfOk result (λ port. wired port ≡ opening_wired board.now root) }
    {
        L::tell();
        let lines = L::open(alloc, board, root)?;
        Ok(WirePort {
            port: BitPort::open(lines),
        })
    }

    /// Its lines. Their board and root are those of its world.
    pub fn lines(&self) -> &L
        ensures world { world_at (L.board result.now) (view.is_busy self.now.phase) (L.bus result.now) ≡ self.now.world }
        ensures seen { (L.bus result.now).seen ≡ self.now.seen }
        ensures shows { ShowsCalls self.now }
    {
        self.port.lines()
    }

    /// Its lines, and whether a message was in progress on them.
    pub(crate) fn into_parts(self) -> ClosedPort<L>
        ensures world { world_at (L.board result.lines) result.busy (L.bus result.lines) ≡ self.world }
        ensures seen { (L.bus result.lines).seen ≡ self.seen }
        ensures faults { self.faults ≡ 0 }
    {
        self.port.into_parts()
    }
}

impl<L: RootLines + Send> Port for WirePort<L> {
    ghost tells = { true };

    ghost world = { λ p. p.world };

    ghost log = { λ p. p.log };

    ghost phase = { λ p. p.phase };

    ghost faults = { λ p. p.faults };

    ghost setup = { λ p. [] };

    /// It is answered, and shows its address byte and the answer; of one that is too slow a ninth rise of SCL isn't told.
    #[inline(always)]
    fn start(&mut self, addr: Addr, reading: bool) -> Result<Answer, Failed>
        requires phase { MayStart self.old.phase }
        requires room { length self.old.log < MOST_CALLS }
        ensures ok { IsOk result }
        ensures faults { self.new.faults ≡ self.old.faults }
        ensures answers { IfOk result AnswersStart }
        ensures answer { IfOk result (λ a. a ≡ answer self.old.world addr reading) }
        ensures phase { IfOk result (λ a. self.new.phase ≡ phase_started reading a) }
        ensures world { self.new.world ≡ after self.old.world (call.Start addr reading) }
        ensures log { self.new.log ≡ self.old.log ++ call.Start addr reading ∷ [] }
        ensures seen { IfOk result (λ a. StartShows (view.is_busy self.old.phase) (address_byte addr reading) a self.old.seen self.new.seen) }
    {
        L::tell();
        self.port.start(addr, reading)
    }

    /// It is answered, and shows the byte and the answer.
    #[inline(always)]
    fn put(&mut self, byte: u8) -> Result<bool, Failed>
        requires phase { MayPut self.old.phase }
        requires room { length self.old.log < MOST_CALLS }
        ensures ok { IsOk result }
        ensures faults { self.new.faults ≡ self.old.faults }
        ensures answer { IfOk result (λ acked. acked ≡ takes self.old.world byte) }
        ensures phase { IfOk result (λ acked. self.new.phase ≡ phase_put acked) }
        ensures world { self.new.world ≡ after self.old.world (call.Put byte) }
        ensures log { self.new.log ≡ self.old.log ++ call.Put byte ∷ [] }
        ensures seen { IfOk result (λ acked. self.new.seen ≡ byte_seen byte acked self.old.seen) }
    {
        L::tell();
        self.port.put(byte)
    }

    /// It gives a byte, and shows it and the controller's answer.
    #[inline(always)]
    fn get(&mut self, ack: bool) -> Result<u8, Failed>
        requires phase { MayGet self.old.phase }
        requires room { length self.old.log < MOST_CALLS }
        ensures ok { IsOk result }
        ensures faults { self.new.faults ≡ self.old.faults }
        ensures answer { IfOk result (λ byte. byte ≡ gives self.old.world) }
        ensures phase { self.new.phase ≡ phase_got ack }
        ensures world { self.new.world ≡ after self.old.world (call.Get ack) }
        ensures log { self.new.log ≡ self.old.log ++ call.Get ack ∷ [] }
        ensures seen { IfOk result (λ byte. self.new.seen ≡ byte_seen byte ack self.old.seen) }
    {
        L::tell();
        self.port.get(ack)
    }

    /// It frees the lines, and shows a stop. SCL rises once before it, but for a start that was too slow.
    #[inline(always)]
    fn stop(&mut self) -> Result<(), Failed>
        requires phase { MayStop self.old.phase }
        requires room { length self.old.log < MOST_CALLS }
        ensures ok { IsOk result }
        ensures faults { self.new.faults ≡ self.old.faults }
        ensures phase { self.new.phase ≡ Phase.Idle }
        ensures world { self.new.world ≡ after self.old.world call.Stop }
        ensures log { self.new.log ≡ self.old.log ++ call.Stop ∷ [] }
        ensures seen { StopShows (view.is_late self.old.phase) self.old.seen self.new.seen }
    {
        L::tell();
        self.port.stop()
    }

    /// It sets the line, and neither wire changes.
    fn line(&mut self, mux: MuxId, level: u8) -> Result<(), Failed>
        requires phase { MayLine self.old.phase }
        requires has { HasLine self.old.world mux level }
        requires room { length self.old.log < MOST_CALLS }
        ensures ok { IsOk result }
        ensures faults { self.new.faults ≡ self.old.faults }
        ensures phase { self.new.phase ≡ Phase.Idle }
        ensures world { self.new.world ≡ after self.old.world (call.Line mux level) }
        ensures log { self.new.log ≡ self.old.log ++ call.Line mux level ∷ [] }
        ensures seen { self.new.seen ≡ self.old.seen }
    {
        L::tell();
        self.port.line(mux, level)
    }
}
