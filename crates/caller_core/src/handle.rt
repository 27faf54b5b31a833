//! The lines of handles as they run: answers that are known at once, or what the handle is used for.

ghost use Rattle.std.specs.Prelude.{◌≡◌, ℕ, ◌+◌, ◌<◌, ◌≤◌, Ok, length, IfOk, OnOk};
ghost use Rattle.bus_journal.specs.Reports.{IsLine};
ghost use Rattle.dev_handle.specs.Handles.{AreOnBoard, MOST_HANDLES, open_answer, opened};
ghost use Rattle.tools.specs.Combined.{AreMessages, IsOpInRange};
ghost use Rattle.tools.specs.HandleLines.{IsHandleInRange};
ghost use Rattle.caller_core.specs.HandleRuns.{run_by_answer, call_by_handle, done_text, fault_text, handle_run, handles_after, message_by_handle, messages_at, number_text, says_line};

use bus_journal::{errno_name, push_bytes, push_number};
use dev_handle::{HandleFault, Handles, Slave};
use i2c_base::NoMemory;
use i2c_board::Accepted;
use std::alloc::Global;
use tools::{
    Callee, Combined, Desc, DescOp, Descs, HandleCmd, HeldBlock, HeldCall, HeldOp, KnownLines,
    Messages, ToolRun,
};

// Says one line.
fn says_line(alloc: Global, line: &[u8]) -> Result<ToolRun, NoMemory>
    requires { IsLine line.now }
    ensures { IfOk result (λ r. r ≡ says_line line.now) }
{
    let mut lines = KnownLines::new(alloc);
    lines.push(line)?;
    Ok(ToolRun::Says(lines))
}

// Says why there is no answer. Being out of memory isn't said.
fn refused(alloc: Global, fault: HandleFault) -> Result<ToolRun, NoMemory>
    ensures { IfOk result (λ r. r ≡ says_line (fault_text fault)) }
{
    match fault {
        HandleFault::Errno(errno) => says_line(alloc, errno_name(errno)),
        HandleFault::Memory => Err(NoMemory),
    }
}

// Says that it is done, or why it isn't.
fn done(alloc: Global, answer: Result<(), HandleFault>) -> Result<ToolRun, NoMemory>
    ensures { IfOk result (λ r. r ≡ says_line (done_text answer)) }
{
    match answer {
        Ok(()) => says_line(alloc, b"ok"),
        Err(fault) => refused(alloc, fault),
    }
}

// Says that a handle with this number was opened.
fn numbered(alloc: Global, number: u32) -> Result<ToolRun, NoMemory>
    ensures { IfOk result (λ r. r ≡ says_line (number_text (Ok number))) }
{
    let mut line = Vec::new(alloc);
    push_bytes(&mut line, b"handle ")?;
    push_number(&mut line, u64::from(number))?;
    says_line(alloc, line.as_slice())
}

// Opens a handle on a bus, and says its number, or why there is none.
fn opens(
    alloc: Global,
    board: &Accepted,
    handles: &mut Handles,
    bus: u16,
) -> Result<ToolRun, NoMemory>
    requires few { length handles.old < MOST_HANDLES }
    requires on_board { AreOnBoard board.now handles.old }
    ensures run { IfOk result (λ r. r ≡ says_line (number_text (open_answer board.now handles.old bus))) }
    ensures handles { OnOk result (handles.new ≡ opened board.now handles.old bus) }
    ensures count { length handles.new ≤ length handles.old + 1 }
    ensures on_board { AreOnBoard board.now handles.new }
{
    match handles.open(board, bus) {
        Ok(number) => numbered(alloc, number),
        Err(HandleFault::Errno(errno)) => says_line(alloc, errno_name(errno)),
        Err(HandleFault::Memory) => Err(NoMemory),
    }
}

// Sends messages on the bus of a handle.
fn sends(
    alloc: Global,
    place: Result<(u16, bool), HandleFault>,
    messages: Descs,
) -> Result<ToolRun, NoMemory>
    requires { AreMessages messages }
    ensures { IfOk result (λ r. r ≡ run_by_answer (messages_at messages) place) }
{
    match place {
        Ok((bus, force)) => Ok(ToolRun::Transfers(Messages::new(Combined {
            force,
            bus,
            messages,
        }))),
        Err(fault) => refused(alloc, fault),
    }
}

// Sends one message to whom a handle reaches.
fn sends_one(
    alloc: Global,
    target: Result<Slave, HandleFault>,
    op: DescOp,
) -> Result<ToolRun, NoMemory>
    requires { IsOpInRange op }
    ensures { IfOk result (λ r. r ≡ run_by_answer (message_by_handle op) target) }
{
    match target {
        Ok(
            Slave {
                bus,
                addr,
                force,
                ..
            },
        ) => {
            let mut messages = Descs::new(alloc);
            messages.push(Desc { addr, op })?;
            sends(alloc, Ok((bus, force)), messages)
        }
        Err(fault) => refused(alloc, fault),
    }
}

// Makes a call to whom a handle reaches.
fn calls(alloc: Global, target: Result<Slave, HandleFault>, op: HeldOp) -> Result<ToolRun, NoMemory>
    ensures { IfOk result (λ r. r ≡ run_by_answer (call_by_handle op) target) }
{
    match target {
        Ok(slave) => {
            let to = Callee {
                bus: slave.bus,
                addr: slave.addr,
                force: slave.force,
                pec: slave.pec,
            };
            Ok(ToolRun::Calls(HeldCall { to, op }))
        }
        Err(fault) => refused(alloc, fault),
    }
}

/// The line of a handle over a board, with the handles that are open before it, which become those behind it.
pub fn open_handle(
    alloc: Global,
    board: &Accepted,
    handles: &mut Handles,
    line: HandleCmd,
) -> Result<ToolRun, NoMemory>
    requires range { (limit : ℕ) × IsHandleInRange limit line }
    requires few { length handles.old < MOST_HANDLES }
    requires on_board { AreOnBoard board.now handles.old }
    ensures run { IfOk result (λ r. r ≡ handle_run board.now handles.old line) }
    ensures handles { OnOk result (handles.new ≡ handles_after board.now handles.old line) }
    ensures count { length handles.new ≤ length handles.old + 1 }
    ensures on_board { AreOnBoard board.now handles.new }
{
    match line {
        HandleCmd::Open(bus) => opens(alloc, board, handles, bus),
        HandleCmd::Slave(handle, addr, force) => {
            done(alloc, handles.slave(board, u32::from(handle), addr, force))
        }
        HandleCmd::Pec(handle, on) => done(alloc, handles.set_pec(u32::from(handle), on)),
        HandleCmd::Read(handle, count) => {
            sends_one(
                alloc,
                handles.target(u32::from(handle)),
                DescOp::Read(count),
            )
        }
        HandleCmd::Write(handle, bytes) => {
            sends_one(
                alloc,
                handles.target(u32::from(handle)),
                DescOp::Write(bytes),
            )
        }
        HandleCmd::Rdwr(handle, messages) => {
            sends(alloc, handles.place(u32::from(handle)), messages)
        }
        HandleCmd::Proc(handle, reg, word) => {
            calls(
                alloc,
                handles.target(u32::from(handle)),
                HeldOp::ProcCall(reg, word),
            )
        }
        HandleCmd::Bproc(handle, reg, bytes) => {
            let op = HeldOp::BlockProc(reg, HeldBlock::new(bytes));
            calls(alloc, handles.target(u32::from(handle)), op)
        }
        HandleCmd::Close(handle) => done(alloc, handles.close(u32::from(handle))),
    }
}
