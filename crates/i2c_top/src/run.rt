//! Callers over the ports of a rig, which is plugged before them and unplugged after.
ghost use Rattle.std.specs.Prelude.{◌≡◌, ◌<◌, ◌≤◌, ◌⊎◌, ℕ, List, [], false, true, None, Some, Err, IfOk, OnOk, IfErr, OnErr, IsTrue, All, length, map, flat_map, vec_capacity};
ghost use Rattle.i2c_base.specs.Board.{BoardView};
ghost use Rattle.i2c_base.specs.Limits.{MOST_CALLERS};
ghost use Rattle.i2c_spec.specs.Fair.{IsFairCaller};
ghost use Rattle.ports.specs.Causes.{Rose, counted};
ghost use Rattle.bus_groups.specs.Rounds.{one_of};
ghost use Rattle.bus_journal.specs.Ranges.{IsEntry};
ghost use Rattle.bus_spec.specs.Report.{report_lines};
ghost use Rattle.bus_spec.specs.Schedule.{Follows};
ghost use Rattle.caller_core.specs.View.{CallerView};
ghost use Rattle.i2c_top.specs.Callers.{AreReady, left_in, scripts_in, asks_in, printed_in, HasRunBy, HasRunOfAny};
ghost use Rattle.i2c_top.specs.Cores.{AreFresh, AreGivenBack, HasRunOver, HaveJournal, IsLeftOf};
ghost use Rattle.i2c_top.specs.Faults.{AccountsForFaults};
ghost use Rattle.i2c_top.specs.Traces.{AreReturned, IsAtMostOnce, IsRunOver, IsUnplugged, rig_view};
ghost use Rattle.i2c_top.specs.Runs.{AreOpened, texts_of, cost_of_texts, MOST_COST, HasRun, HasRunTold, script_row};
ghost use Rattle.i2c_top.specs.forms.Generations.{summary_of};
ghost use Rattle.i2c_top.specs.declared.status.Status.TheVariants as status;

use crate::Status;
use crate::callers::{finished, followed, run_threads};
use crate::cost::limit_of;
use crate::counted_port::CountedPort;
use crate::printer::Printer;
use crate::report::report_of_callers;
use crate::summary::summary_of;
use crate::text::ReportText;
use bus_core::{ClosedCore, Seat};
use bus_groups::Ran;
use bus_journal::Journal;
use caller_core::{Script, scripts_are_fair};
use i2c_base::{NoMemory, SegId};
use i2c_board::Accepted;
use i2c_gen::Plan;
use i2c_outside::{Gate, Rig, RigFail};
use ports::Port;
use std::alloc::Global;
use std::sync::Wait;
use std::thread::Threads;

// The ports alone, in a list that has room for them.
fn alone<P: Port>(ports: Vec<(SegId, CountedPort<P>)>, room: Vec<P>) -> Vec<P>
    requires empty { room.items ≡ [] }
    requires room { length ports.items ≤ vec_capacity room }
    ensures ports { result.items ≡ map (λ p. p.1) ports.items }
    ensures accounts { All (AccountsForFaults P.Port) result.items }
{
    let mut alone = room;
    for (_, port) in ports {
        alone.push_reserved(port.into_port());
    }
    alone
}

/// Plugs a rig: its ports, and room for as many. It answers `Rig` where the rig counted a fault in its one plug, and else fails only
/// when out of memory; a rig that was plugged then is unplugged.
pub fn plugged<R: Rig>(
    alloc: Global,
    board: &Accepted,
    rig: &mut R,
) -> Result<(Vec<R::P>, Vec<R::P>), Status>
    ensures fresh { IfOk result (λ p. AreFresh R.P.Port board.now p.0.items) }
    ensures room { IfOk result (λ p. (p.1.items ≡ []) × (length p.0.items ≤ vec_capacity p.1)) }
    ensures board { OnOk result ((R.plugged rig.new ≡ true) × (R.board_of rig.new ≡ board.now)) }
    ensures setups { IsTrue R.tells → IfOk result (λ p. map R.P.setup p.0.items ≡ R.setups rig.old board.now) }
    ensures failed { IfErr result (λ e. (e ≡ status.Rig) ⊎ (e ≡ status.Memory)) }
    ensures rig { result ≡ Err status.Rig → Rose (R.faults rig.old) (R.faults rig.new) }
    ensures later { R.faults rig.old ≤ R.faults rig.new }
    ensures plugs { R.plugs rig.new ≡ counted (R.plugs rig.old) }
    ensures unplugs { OnOk result (R.unplugs rig.new ≡ R.unplugs rig.old) }
    ensures none { result ≡ Err status.Rig → R.unplugs rig.new ≡ R.unplugs rig.old }
    ensures once { IsAtMostOnce (R.unplugs rig.old) (R.unplugs rig.new) }
    ensures unplugged { OnErr result (R.plugged rig.new ≡ false) }
{
    let ports = match rig.plug(alloc, board) {
        Ok(ports) => ports,
        Err(RigFail::Failed) => return Err(Status::Rig),
        Err(RigFail::Memory) => return Err(Status::Memory),
    };
    let Ok(room) = Vec::with_capacity(alloc, ports.len()) else {
        rig.unplug(ports);
        return Err(Status::Memory);
    };
    Ok((ports, room))
}

// Each field of the entries of journals is within the range of its type.
fn are_in_range(journals: &[Journal])
    ensures { All IsEntry (flat_map (λ j. j.entries) journals.now) }
{
    for journal in journals {
        journal.entries_are_in_range();
    }
}

// Gives the ports that are left of a run back to their rig.
fn given_back<R: Rig>(ports: Vec<(SegId, CountedPort<R::P>)>, room: Vec<R::P>, rig: &mut R)
    requires plugged { R.plugged rig.old ≡ true }
    requires empty { room.items ≡ [] }
    requires room { length ports.items ≤ vec_capacity room }
    ensures given { IsTrue R.tells → IsTrue R.P.tells → AreGivenBack (R.board_of rig.old) (map (λ p. R.P.world p.1) ports.items) (map (λ p. R.P.log p.1) ports.items) (R.logs rig.new) (R.states rig.new) (R.port_faults rig.new) }
    ensures returned { IsTrue R.tells → R.returned rig.new ≡ map (λ p. R.P.setup p.1) ports.items }
    ensures rig { IsUnplugged (rig_view R.Rig R.P.tells rig.old) (rig_view R.Rig R.P.tells rig.new) }
{
    rig.unplug(alone(ports, room));
}

/// What is left of a run: its ports, each at the number of its root, and its report, where there was memory for it.
#[derive(Drop)]
pub struct RunLeft<P> {
    pub ports: Vec<P>,
    pub report: Result<ReportText, Status>,
}

// The report of what is left of callers, which fails only when out of memory.
fn report_of<C: Printer>(
    alloc: Global,
    seats: &[Seat<C>],
    journals: Vec<Journal>,
) -> Result<ReportText, Status>
    ensures text { IfOk result (λ text. text ≡ report_lines (map (λ s. C.printed (C.script s.caller) (C.taken s.caller)) seats.now) (flat_map (λ j. j.entries) journals.items)) }
    ensures failed { IfErr result (λ e. e ≡ status.Memory) }
{
    Ok(report_of_callers(alloc, seats, journals)?)
}

// The ports that are left of a run, and its report.
fn left_of_run<C: Printer, P: Port>(
    alloc: Global,
    ran: Result<Ran<CountedPort<P>, C>, NoMemory>,
    room: Vec<P>,
) -> RunLeft<P>
    requires empty { room.items ≡ [] }
    requires room { IfOk ran (λ x. length x.ports.items ≤ vec_capacity room) }
    requires fair { IsFairCaller C.asked C.left C.board }
    ensures run { IsTrue P.tells → (b : BoardView) (callers : List C) (ports : List _) → IfOk ran (λ x. IsLeftOf P.Port C.Caller b callers ports (one_of x))
        → IfOk result.report (λ text. HasRunOver P.Port b result.ports.items (HasRunBy b (length (scripts_in C.Caller callers)) (asks_in C.asked (scripts_in C.Caller callers)) (printed_in C.printed (scripts_in C.Caller callers)) (HaveJournal ran) text)) }
    ensures setups { (setups : List (List ℕ)) → IfOk ran (λ x. map (λ p. P.setup p.1) x.ports.items ≡ setups) → OnOk result.report (map P.setup result.ports.items ≡ setups) }
    ensures failed { IfErr result.report (λ e. e ≡ status.Memory) }
{
    let Ok(ran) = ran else {
        return RunLeft {
            ports: room,
            report: Err(Status::Memory),
        };
    };
    let Ran {
        ports,
        seats,
        journals,
    } = ran;
    are_in_range(journals.as_slice());
    let ports = alone(ports, room);
    let report = report_of(alloc, seats.as_slice(), journals);
    RunLeft { ports, report }
}

// Makes the report of a run, and gives the ports that are left of it back to their rig.
fn report_of_run<C: Printer, R: Rig>(
    alloc: Global,
    ran: Result<Ran<CountedPort<R::P>, C>, NoMemory>,
    room: Vec<R::P>,
    rig: &mut R,
) -> Result<ReportText, Status>
    requires plugged { R.plugged rig.old ≡ true }
    requires empty { room.items ≡ [] }
    requires room { IfOk ran (λ x. length x.ports.items ≤ vec_capacity room) }
    requires fair { IsFairCaller C.asked C.left C.board }
    ensures run { IsTrue R.tells → IsTrue R.P.tells → (callers : List C) (ports : List _) → IfOk ran (λ x. IsLeftOf R.P.Port C.Caller (R.board_of rig.old) callers ports (one_of x))
        → IfOk result (λ text. HasRunBy (R.board_of rig.old) (length (scripts_in C.Caller callers)) (asks_in C.asked (scripts_in C.Caller callers)) (printed_in C.printed (scripts_in C.Caller callers)) (HaveJournal ran) text (R.logs rig.new) (R.states rig.new) (R.port_faults rig.new)) }
    ensures returned { IsTrue R.tells → (setups : List (List ℕ)) → IfOk ran (λ x. map (λ p. R.P.setup p.1) x.ports.items ≡ setups) → OnOk result (R.returned rig.new ≡ setups) }
    ensures failed { IfErr result (λ e. e ≡ status.Memory) }
    ensures rig { IsUnplugged (rig_view R.Rig R.P.tells rig.old) (rig_view R.Rig R.P.tells rig.new) }
{
    let RunLeft { ports, report } = left_of_run(alloc, ran, room);
    rig.unplug(ports);
    report
}

// The same, and makes the summary of a plan.
fn summed<R: Rig>(
    alloc: Global,
    ran: Result<ClosedCore<CountedPort<R::P>, Script>, NoMemory>,
    plan: &Plan,
    room: Vec<R::P>,
    rig: &mut R,
) -> Result<ReportText, Status>
    requires plugged { R.plugged rig.old ≡ true }
    requires empty { room.items ≡ [] }
    requires room { IfOk ran (λ x. length x.ports.items ≤ vec_capacity room) }
    ensures run { IsTrue R.tells → IsTrue R.P.tells → (scripts : List CallerView) (ports : List _) (words : List ℕ) → AreOpened (R.board_of rig.old) scripts
        → IfOk ran (IsLeftOf R.P.Port script_row (R.board_of rig.old) scripts ports) → IfOk ran (λ x. Follows words x.journal.entries)
        → IfOk result (λ text. HasRunTold (summary_of plan.now) (R.board_of rig.old) (texts_of scripts) (Some words) text (R.logs rig.new) (R.states rig.new) (R.port_faults rig.new)) }
    ensures failed { IfErr result (λ e. e ≡ status.Memory) }
    ensures rig { IsUnplugged (rig_view R.Rig R.P.tells rig.old) (rig_view R.Rig R.P.tells rig.new) }
{
    let Ok(parts) = ran else {
        rig.unplug(room);
        return Err(Status::Memory);
    };
    let ClosedCore {
        ports,
        seats: _,
        journal,
    } = parts;
    journal.entries_are_in_range();
    given_back(ports, room, rig);
    Ok(ReportText::whole(alloc, summary_of(alloc, plan, &journal)?))
}

/// Runs callers over the ports of a rig, by a schedule that names those that are to step, and gives the report. They have at most so
/// many steps left. A rig that was plugged is unplugged, whatever came of it. It answers `Rig` where the rig counted a fault in its
/// one plug, and else fails only when out of memory.
pub fn run_callers<C: Printer, R: Rig>(
    alloc: Global,
    board: &Accepted,
    callers: Vec<C>,
    limit: u32,
    words: &[u8],
    rig: &mut R,
) -> Result<ReportText, Status>
    requires ready { AreReady C.Caller board.now callers.items }
    requires fair { IsFairCaller C.asked C.left C.board }
    requires few { length callers.items ≤ MOST_CALLERS }
    requires named { All (λ c. c < length callers.items) words.now }
    requires covered { left_in C.Caller callers.items ≤ limit }
    requires cheap { limit ≤ MOST_COST }
    ensures run { IsTrue R.tells → IsTrue R.P.tells → IfOk result (λ text. HasRunOfAny C.asked C.printed board.now (scripts_in C.Caller callers.items) words.now text (R.logs rig.new) (R.states rig.new) (R.port_faults rig.new)) }
    ensures returned { AreReturned R.Rig board.now rig.old rig.new result }
    ensures rig { IsRunOver (rig_view R.Rig R.P.tells rig.old) (rig_view R.Rig R.P.tells rig.new) result }
{
    let (ports, room) = plugged(alloc, board, rig)?;
    let ran = finished(alloc, board, callers, limit, words, ports);
    report_of_run(alloc, ran, room, rig)
}

/// The same of scripts, with what they cost as the limit. The report is that of their texts.
pub fn run_scripts<R: Rig>(
    alloc: Global,
    board: &Accepted,
    scripts: Vec<Script>,
    words: &[u8],
    rig: &mut R,
) -> Result<ReportText, Status>
    requires opened { AreOpened board.now scripts.items }
    requires few { length scripts.items ≤ MOST_CALLERS }
    requires named { All (λ c. c < length scripts.items) words.now }
    requires cheap { cost_of_texts board.now (texts_of scripts.items) ≤ MOST_COST }
    ensures run { IsTrue R.tells → IsTrue R.P.tells → IfOk result (λ text. HasRun board.now (texts_of scripts.items) (Some words.now) text (R.logs rig.new) (R.states rig.new) (R.port_faults rig.new)) }
    ensures returned { AreReturned R.Rig board.now rig.old rig.new result }
    ensures rig { IsRunOver (rig_view R.Rig R.P.tells rig.old) (rig_view R.Rig R.P.tells rig.new) result }
{
    scripts_are_fair();
    let limit = limit_of(board, scripts.as_slice());
    run_callers(alloc, board, scripts, limit, words, rig)
}

/// The same of scripts over the ports of a rig that was plugged, with room for as many, and leaves the ports.
pub fn run_ports<P: Port>(
    alloc: Global,
    board: &Accepted,
    scripts: Vec<Script>,
    words: &[u8],
    ports: Vec<P>,
    room: Vec<P>,
) -> RunLeft<P>
    requires opened { AreOpened board.now scripts.items }
    requires few { length scripts.items ≤ MOST_CALLERS }
    requires named { All (λ c. c < length scripts.items) words.now }
    requires cheap { cost_of_texts board.now (texts_of scripts.items) ≤ MOST_COST }
    requires fresh { AreFresh P.Port board.now ports.items }
    requires room { (room.items ≡ []) × (length ports.items ≤ vec_capacity room) }
    ensures run { IsTrue P.tells → IfOk result.report (λ text. HasRunOver P.Port board.now result.ports.items (HasRun board.now (texts_of scripts.items) (Some words.now) text)) }
    ensures failed { IfErr result.report (λ e. e ≡ status.Memory) }
{
    scripts_are_fair();
    let limit = limit_of(board, scripts.as_slice());
    let ran = finished(alloc, board, scripts, limit, words, ports);
    left_of_run(alloc, ran, room)
}

/// Runs generated scripts by their schedule, and gives the summary of their plan.
pub fn run_generated<R: Rig>(
    alloc: Global,
    board: &Accepted,
    scripts: Vec<Script>,
    words: &[u8],
    plan: &Plan,
    rig: &mut R,
) -> Result<ReportText, Status>
    requires opened { AreOpened board.now scripts.items }
    requires few { length scripts.items ≤ MOST_CALLERS }
    requires named { All (λ c. c < length scripts.items) words.now }
    requires cheap { cost_of_texts board.now (texts_of scripts.items) ≤ MOST_COST }
    ensures run { IsTrue R.tells → IsTrue R.P.tells → IfOk result (λ text. HasRunTold (summary_of plan.now) board.now (texts_of scripts.items) (Some words.now) text (R.logs rig.new) (R.states rig.new) (R.port_faults rig.new)) }
    ensures rig { IsRunOver (rig_view R.Rig R.P.tells rig.old) (rig_view R.Rig R.P.tells rig.new) result }
{
    scripts_are_fair();
    let limit = limit_of(board, scripts.as_slice());
    let (ports, room) = plugged(alloc, board, rig)?;
    let ran = followed(alloc, board, scripts, limit, words, ports);
    summed(alloc, ran, plan, room, rig)
}

/// Runs scripts as `run_scripts` does, but without a schedule, each on a thread of its own.
pub fn run_at_once<H: Threads + Wait + Sync, R: Rig, G: Gate + Sync>(
    rt: &H,
    alloc: Global,
    board: &Accepted,
    scripts: Vec<Script>,
    gate: &G,
    rig: &mut R,
) -> Result<ReportText, Status>
    requires opened { AreOpened board.now scripts.items }
    requires few { length scripts.items ≤ MOST_CALLERS }
    requires cheap { cost_of_texts board.now (texts_of scripts.items) ≤ MOST_COST }
    ensures run { IsTrue R.tells → IsTrue R.P.tells → IfOk result (λ text. HasRun board.now (texts_of scripts.items) None text (R.logs rig.new) (R.states rig.new) (R.port_faults rig.new)) }
    ensures rig { IsRunOver (rig_view R.Rig R.P.tells rig.old) (rig_view R.Rig R.P.tells rig.new) result }
{
    scripts_are_fair();
    let (ports, room) = plugged(alloc, board, rig)?;
    let ran = run_threads(rt, alloc, board, scripts, gate, ports);
    report_of_run(alloc, ran, room, rig)
}
