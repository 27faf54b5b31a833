//! A port over two lines.
ghost use Rattle.std.specs.Prelude.{◌≡◌, false, ◌<◌, ◌≤◌, ◌++◌, [], ◌∷◌, OnOk, OnErr, IfOk, IsOk, IsTrue, length};
ghost use Rattle.i2c_base.specs.Limits.{MOST_CALLS};
ghost use Rattle.i2c_base.specs.Phases.{MayStart, MayPut, MayGet, MayStop, MayLine, AnswersStart, phase_started, phase_put, phase_got};
ghost use Rattle.i2c_base.specs.declared.port.Phase.{Phase};
ghost use Rattle.i2c_base.specs.declared.port.PortCall.TheVariants as call;
ghost use Rattle.i2c_spec.specs.World.{after, answer, takes, gives};
ghost use Rattle.ports.specs.Causes.{HasCause, counted};
ghost use Rattle.ports.specs.LineCalls.{HasLine};
ghost use Rattle.wire_spec.specs.Calls.{byte_seen};
ghost use Rattle.i2c_bits.specs.Wiring.{AreLetGo, LooksTell, StartLooksTell, StopLooksTell};
ghost use Rattle.i2c_bits.specs.Showing.{address_byte, StartShows, StopShows};
ghost use Rattle.i2c_bits.specs.Stands.{IsFree, world_at};
ghost use Rattle.i2c_bits.specs.PortViews as view;
ghost use Rattle.i2c_bits.specs.PortViews.{FaultsTell, port_of};

use crate::bytes::{get_byte, put_byte};
use crate::call_log::CallLog;
use crate::lines::ByteLines;
use crate::messages::{set_line, start_message, stop_message};
use crate::phases::{is_busy, is_late, started};
use i2c_base::{Addr, Answer, MuxId, Phase, PortCall};
use ports::{Failed, Port};
use std::marker::Model;

/// A port over the two lines of a root, bit by bit. A contract sees the calls that were made on it, of which it keeps none.
#[derive(Drop)]
pub struct BitPort<L: ByteLines> {
    lines: L,
    log: CallLog,
    phase: Phase,
    faults: u64,
}

impl<L: ByteLines> Model for BitPort<L> {
    ghost use Rattle.i2c_bits.specs.CallLogs.{calls_of};
    ghost use Rattle.i2c_bits.specs.PortViews.{BitPortView, IsBitPort, port_of};

    ghost Value = { BitPortView };

    ghost view = { λ p. port_of (L.board p.lines) (L.bus p.lines) (L.wire p.lines) (calls_of p.log) p.phase p.faults };

    ghost invariant = { λ p. IsBitPort L.tells p.phase (L.board p.lines) (L.bus p.lines) (L.wire p.lines) };
}

/// What a port was made of.
#[derive(Drop)]
pub struct ClosedPort<L> {
    pub lines: L,
    /// A message was in progress.
    pub busy: bool,
}

impl<L: ByteLines> BitPort<L> {
    /// A port over free lines, on which nobody is in a message.
    pub fn open(lines: L) -> Self
        requires let_go { AreLetGo (L.wire lines) }
        requires free { IsTrue L.tells → IsFree (L.board lines) (L.bus lines) }
        ensures { result ≡ port_of (L.board lines) (L.bus lines) (L.wire lines) [] Phase.Idle 0 }
    {
        BitPort {
            lines,
            log: CallLog::none(),
            phase: Phase::Idle,
            faults: 0,
        }
    }

    /// What its wires have come to since the last stop.
    pub fn phase(&self) -> Phase
        ensures { result ≡ self.now.phase }
    {
        self.phase
    }

    /// Its lines.
    pub fn lines(&self) -> &L
        ensures world { world_at (L.board result.now) (view.is_busy self.now.phase) (L.bus result.now) ≡ self.now.world }
        ensures seen { (L.bus result.now).seen ≡ self.now.seen }
        ensures wire { L.wire result.now ≡ self.now.wire }
    {
        &self.lines
    }

    /// Its lines, and whether a message was in progress on them.
    pub fn into_parts(self) -> ClosedPort<L>
        ensures world { world_at (L.board result.lines) result.busy (L.bus result.lines) ≡ self.world }
        ensures seen { (L.bus result.lines).seen ≡ self.seen }
    {
        ClosedPort {
            busy: is_busy(&self.phase),
            lines: self.lines,
        }
    }

    /// A call fails: it ends the message, with both lines let go.
    fn fail(&mut self) -> Failed
        requires let_go { AreLetGo self.old.wire }
        requires untold { IsTrue L.tells → ⊥ }
        ensures phase { self.new.phase ≡ Phase.Idle }
        ensures faults { self.new.faults ≡ counted self.old.faults }
        ensures wire { self.new.wire ≡ self.old.wire }
    {
        self.log.add(PortCall::Fault);
        self.phase = Phase::Idle;
        self.faults = self.faults.saturating_add(1);
        Failed
    }
}

impl<L: ByteLines + Send> Port for BitPort<L> {
    ghost tells = { L.tells };

    ghost world = { λ p. p.world };

    ghost log = { λ p. p.log };

    ghost phase = { λ p. p.phase };

    ghost faults = { λ p. p.faults };

    ghost setup = { λ p. [] };

    /// It fails exactly where SCL, once let go, looked low 65 times in a row, but in the acknowledge clock, where that is Slow.
    #[inline(always)]
    fn start(&mut self, addr: Addr, reading: bool) -> Result<Answer, Failed>
        requires phase { MayStart self.old.phase }
        requires room { IsTrue L.tells → length self.old.log < MOST_CALLS }
        ensures cause { HasCause self.old.faults self.new.faults result }
        ensures later { self.old.faults ≤ self.new.faults }
        ensures answers { IfOk result AnswersStart }
        ensures phase { IfOk result (λ a. self.new.phase ≡ phase_started reading a) }
        ensures failed { OnErr result (self.new.phase ≡ Phase.Idle) }
        ensures answer { IsTrue L.tells → IfOk result (λ a. a ≡ answer self.old.world addr reading) }
        ensures world { IsTrue L.tells → OnOk result (self.new.world ≡ after self.old.world (call.Start addr reading)) }
        ensures log { IsTrue L.tells → OnOk result (self.new.log ≡ self.old.log ++ call.Start addr reading ∷ []) }
        ensures world_failed { IsTrue L.tells → OnErr result (self.new.world ≡ after self.old.world call.Fault) }
        ensures log_failed { IsTrue L.tells → OnErr result (self.new.log ≡ self.old.log ++ call.Fault ∷ []) }
        ensures faults { FaultsTell L.tells result self.old.faults self.new.faults }
        ensures looks { StartLooksTell result self.old.wire self.new.wire }
        ensures seen { IsTrue L.tells
            → IfOk result (λ a. StartShows (view.is_busy self.old.phase) (address_byte addr reading) a self.old.seen self.new.seen) }
    {
        let byte = 2 * addr.get() + u8::from(reading);
        let busy = is_busy(&self.phase);
        match start_message(&mut self.lines, busy, byte) {
            Ok(answer) => {
                self.log.add(PortCall::Start(addr, reading));
                self.phase = started(reading, &answer);
                Ok(answer)
            }
            Err(_) => Err(self.fail()),
        }
    }

    /// It fails exactly where SCL, once let go, looked low 65 times in a row.
    #[inline(always)]
    fn put(&mut self, byte: u8) -> Result<bool, Failed>
        requires phase { MayPut self.old.phase }
        requires room { IsTrue L.tells → length self.old.log < MOST_CALLS }
        ensures cause { HasCause self.old.faults self.new.faults result }
        ensures later { self.old.faults ≤ self.new.faults }
        ensures phase { IfOk result (λ acked. self.new.phase ≡ phase_put acked) }
        ensures failed { OnErr result (self.new.phase ≡ Phase.Idle) }
        ensures answer { IsTrue L.tells → IfOk result (λ acked. acked ≡ takes self.old.world byte) }
        ensures world { IsTrue L.tells → OnOk result (self.new.world ≡ after self.old.world (call.Put byte)) }
        ensures log { IsTrue L.tells → OnOk result (self.new.log ≡ self.old.log ++ call.Put byte ∷ []) }
        ensures world_failed { IsTrue L.tells → OnErr result (self.new.world ≡ after self.old.world call.Fault) }
        ensures log_failed { IsTrue L.tells → OnErr result (self.new.log ≡ self.old.log ++ call.Fault ∷ []) }
        ensures faults { FaultsTell L.tells result self.old.faults self.new.faults }
        ensures looks { LooksTell result self.old.wire self.new.wire }
        ensures seen { IsTrue L.tells → IfOk result (λ acked. self.new.seen ≡ byte_seen byte acked self.old.seen) }
    {
        match put_byte(&mut self.lines, byte) {
            Ok(acked) => {
                self.log.add(PortCall::Put(byte));
                self.phase = if acked {
                    Phase::Writing
                } else {
                    Phase::PutRefused
                };
                Ok(acked)
            }
            Err(_) => Err(self.fail()),
        }
    }

    /// It fails exactly where SCL, once let go, looked low 65 times in a row.
    #[inline(always)]
    fn get(&mut self, ack: bool) -> Result<u8, Failed>
        requires phase { MayGet self.old.phase }
        requires room { IsTrue L.tells → length self.old.log < MOST_CALLS }
        ensures cause { HasCause self.old.faults self.new.faults result }
        ensures later { self.old.faults ≤ self.new.faults }
        ensures phase { OnOk result (self.new.phase ≡ phase_got ack) }
        ensures failed { OnErr result (self.new.phase ≡ Phase.Idle) }
        ensures answer { IsTrue L.tells → IfOk result (λ byte. byte ≡ gives self.old.world) }
        ensures world { IsTrue L.tells → OnOk result (self.new.world ≡ after self.old.world (call.Get ack)) }
        ensures log { IsTrue L.tells → OnOk result (self.new.log ≡ self.old.log ++ call.Get ack ∷ []) }
        ensures world_failed { IsTrue L.tells → OnErr result (self.new.world ≡ after self.old.world call.Fault) }
        ensures log_failed { IsTrue L.tells → OnErr result (self.new.log ≡ self.old.log ++ call.Fault ∷ []) }
        ensures faults { FaultsTell L.tells result self.old.faults self.new.faults }
        ensures looks { LooksTell result self.old.wire self.new.wire }
        ensures seen { IsTrue L.tells → IfOk result (λ byte. self.new.seen ≡ byte_seen byte ack self.old.seen) }
    {
        match get_byte(&mut self.lines, ack) {
            Ok(byte) => {
                self.log.add(PortCall::Get(ack));
                self.phase = if ack { Phase::Reading } else { Phase::LastRead };
                Ok(byte)
            }
            Err(_) => Err(self.fail()),
        }
    }

    /// It fails exactly where SCL, once let go, looked low 255 times in a row.
    #[inline(always)]
    fn stop(&mut self) -> Result<(), Failed>
        requires phase { MayStop self.old.phase }
        requires room { IsTrue L.tells → length self.old.log < MOST_CALLS }
        ensures cause { HasCause self.old.faults self.new.faults result }
        ensures later { self.old.faults ≤ self.new.faults }
        ensures phase { self.new.phase ≡ Phase.Idle }
        ensures world { IsTrue L.tells → OnOk result (self.new.world ≡ after self.old.world call.Stop) }
        ensures log { IsTrue L.tells → OnOk result (self.new.log ≡ self.old.log ++ call.Stop ∷ []) }
        ensures world_failed { IsTrue L.tells → OnErr result (self.new.world ≡ after self.old.world call.Fault) }
        ensures log_failed { IsTrue L.tells → OnErr result (self.new.log ≡ self.old.log ++ call.Fault ∷ []) }
        ensures faults { FaultsTell L.tells result self.old.faults self.new.faults }
        ensures looks { StopLooksTell result self.old.wire self.new.wire }
        ensures seen { IsTrue L.tells → OnOk result (StopShows (view.is_late self.old.phase) self.old.seen self.new.seen) }
    {
        let late = is_late(&self.phase);
        match stop_message(&mut self.lines, late) {
            Ok(()) => {
                self.log.add(PortCall::Stop);
                self.phase = Phase::Idle;
                Ok(())
            }
            Err(_) => Err(self.fail()),
        }
    }

    /// It never fails.
    fn line(&mut self, mux: MuxId, level: u8) -> Result<(), Failed>
        requires phase { MayLine self.old.phase }
        requires has { IsTrue L.tells → HasLine self.old.world mux level }
        requires room { IsTrue L.tells → length self.old.log < MOST_CALLS }
        ensures cause { HasCause self.old.faults self.new.faults result }
        ensures later { self.old.faults ≤ self.new.faults }
        ensures phase { self.new.phase ≡ Phase.Idle }
        ensures world { IsTrue L.tells → OnOk result (self.new.world ≡ after self.old.world (call.Line mux level)) }
        ensures log { IsTrue L.tells → OnOk result (self.new.log ≡ self.old.log ++ call.Line mux level ∷ []) }
        ensures world_failed { IsTrue L.tells → OnErr result (self.new.world ≡ after self.old.world call.Fault) }
        ensures log_failed { IsTrue L.tells → OnErr result (self.new.log ≡ self.old.log ++ call.Fault ∷ []) }
        ensures faults { FaultsTell L.tells result self.old.faults self.new.faults }
        ensures ok { IsOk result }
        ensures wire { self.new.wire ≡ self.old.wire }
        ensures seen { IsTrue L.tells → self.new.seen ≡ self.old.seen }
    {
        set_line(&mut self.lines, mux, level);
        self.log.add(PortCall::Line(mux, level));
        self.phase = Phase::Idle;
        Ok(())
    }
}
