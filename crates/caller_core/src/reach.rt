//! What the lines of a script may reach by force, and which sensors they write.

ghost use Rattle.std.specs.Prelude.{◌≡◌, ℕ, ◌<◌, ◌==◌, ◌&&◌, List, [], ◌∷◌, Some, slice_get};
ghost use Rattle.std.specs.List.{list_any};
ghost use Rattle.i2c_base.specs.Limits.{MOST_DEVICES};
ghost use Rattle.i2c_base.specs.Board.{BoardView, DeviceView};
ghost use Rattle.caller_core.specs.Reach.{addrs_of, forced_if, is_forced_by, is_write_to, stands_at, writes_device, AreMarked, HasReach};
ghost use Rattle.tools.specs.declared.command.Cmd.{Cmd};
ghost use Rattle.tools.specs.declared.command.Cmd.TheVariants.{Tool, Handle, Driver};

use i2c_base::{Addr, DevId, DeviceSpec};
use i2c_board::Board;
use tools::{Cmd, Desc, DriverCmd, HandleCmd, ToolCmd};

/// What the lines of a script name: each address that one of them may reach by force, and each device that one writes as a
/// temperature sensor.
#[derive(Clone, Copy)]
pub struct Reach {
    forced: [bool; 128],
    written: [bool; 128],
}

// The device stands at the address of the bus.
fn is_at(device: &DeviceSpec, bus: u16, addr: Addr) -> bool
    ensures { result ≡ ((bus == device.now.bus) && (addr == device.now.addr)) }
{
    bus == device.bus.0 && addr == device.addr
}

impl Reach {
    /// Of no line.
    pub const NONE: Reach = Reach {
        forced: [false; 128],
        written: [false; 128],
    };

    /// Of no line, over a board.
    pub fn of_no_line(board: &Board) -> Self
        ensures { HasReach board.now [] result }
    {
        // The list is of few devices, so that each has its mark.
        let _few = board.devices();
        Reach::NONE
    }

    /// A line may reach the address by force.
    pub fn forces(&self, addr: Addr) -> bool
        ensures { (b : BoardView) (cs : List Cmd) → HasReach b cs self.now → result ≡ list_any (λ c. is_forced_by c addr) cs }
    {
        self.forced[usize::from(addr.get())]
    }

    /// A line writes the device of this number as a sensor.
    pub fn writes(&self, device: DevId) -> bool
        requires { device < MOST_DEVICES }
        ensures { (b : BoardView) (cs : List Cmd) (v : DeviceView) → HasReach b cs self.now → slice_get b.devices device ≡ Some v
            → result ≡ list_any (is_write_to v.bus v.addr) cs }
    {
        self.written[usize::from(device.0)]
    }

    // Marks the address of each message.
    fn force_all(&mut self, messages: &[Desc])
        ensures forced { AreMarked (λ addr. list_any (λ a. a == addr) (addrs_of messages.now)) self.old.forced self.new.forced }
        ensures written { self.new.written ≡ self.old.written }
    {
        for message in messages {
            self.forced[usize::from(message.addr.get())] = true;
        }
    }

    // Marks the devices at an address of a bus.
    fn write_at(&mut self, board: &Board, bus: u16, addr: Addr)
        ensures forced { self.new.forced ≡ self.old.forced }
        ensures written { AreMarked (stands_at board.now bus addr) self.old.written self.new.written }
    {
        for (number, device) in board.devices().iter().enumerate() {
            if is_at(device, bus, addr) {
                self.written[number] = true;
            }
        }
    }

    // Marks an address where a line forces its transfer.
    fn force_if(&mut self, force: bool, addr: Addr)
        ensures forced { AreMarked (λ a. list_any (λ x. x == a) (forced_if force (addr ∷ []))) self.old.forced self.new.forced }
        ensures written { self.new.written ≡ self.old.written }
    {
        if force {
            self.forced[usize::from(addr.get())] = true;
        }
    }

    fn mark_tool(&mut self, tool: &ToolCmd)
        ensures forced { AreMarked (is_forced_by (Tool tool.now)) self.old.forced self.new.forced }
        ensures written { self.new.written ≡ self.old.written }
    {
        match tool {
            ToolCmd::Get(get) => self.force_if(get.force, get.addr),
            ToolCmd::Set(set) => self.force_if(set.force, set.addr),
            ToolCmd::Combined(combined) => {
                if combined.force {
                    self.force_all(combined.messages.as_slice());
                }
            }
            ToolCmd::Dump(dump) => self.force_if(dump.force, dump.addr),
            ToolCmd::List | ToolCmd::Detect(_) => {}
        }
    }

    fn mark_handle(&mut self, line: &HandleCmd)
        ensures forced { AreMarked (is_forced_by (Handle line.now)) self.old.forced self.new.forced }
        ensures written { self.new.written ≡ self.old.written }
    {
        match line {
            HandleCmd::Slave(_, addr, force) => self.force_if(*force, *addr),
            HandleCmd::Rdwr(_, messages) => self.force_all(messages.as_slice()),
            _ => {}
        }
    }

    fn mark_driver(&mut self, board: &Board, line: &DriverCmd)
        ensures forced { self.new.forced ≡ self.old.forced }
        ensures written { AreMarked (writes_device board.now (Driver line.now)) self.old.written self.new.written }
    {
        match line {
            DriverCmd::Lm75Write(write) => self.write_at(board, write.bus, write.addr),
            _ => {}
        }
    }

    /// Marks what a further command reaches.
    pub fn mark(&mut self, board: &Board, cmd: &Cmd)
        ensures forced { AreMarked (is_forced_by cmd.now) self.old.forced self.new.forced }
        ensures written { AreMarked (writes_device board.now cmd.now) self.old.written self.new.written }
    {
        match cmd {
            Cmd::Tool(tool) => self.mark_tool(tool),
            Cmd::Handle(line) => self.mark_handle(line),
            Cmd::Driver(line) => self.mark_driver(board, line),
        }
    }
}

/// Of no line.
impl Default for Reach {
    fn default() -> Self {
        Reach::NONE
    }
}
