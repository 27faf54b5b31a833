//! The world of one root: its chips and devices, and what its wires have come to.
ghost use Rattle.std.specs.Prelude.{◌≡◌, ◌<◌, true, IsSome, map, IfOk};
ghost use Rattle.i2c_base.specs.declared.port.PortCall.TheVariants as call;
ghost use Rattle.i2c_spec.specs.Chips.{chip_opening};
ghost use Rattle.i2c_board.specs.Layouts.{board_of};
ghost use Rattle.i2c_spec.specs.Plain.{IsPlainBoard, IsPlainDevice};
ghost use Rattle.i2c_spec.specs.World as world;
ghost use Rattle.i2c_physics.specs.Answering.{chips_say, devices_say};
ghost use Rattle.bus_lines.specs.Owned.{own_device, owns, without};
ghost use Rattle.i2c_physics.specs.SimWorlds.{opened_on};

use crate::device_slot::DeviceSlot;
use crate::reach::Reach;
use crate::sites::{Sites, is_wired};
use crate::wired_and::{WiredAnd, answer_of, begin, deliver, end};
use i2c_base::{Addr, Answer, DeviceSpec, Event, MuxId, MuxSpec, SegId};
use i2c_board::{Accepted, Layout};
use i2c_spec::{chips_are_fair, openings_are_quiet};
use std::alloc::{AllocError, Global};
use std::marker::Model;
use std::snapshot::Snapshot;
use targets::{Chip, DeviceState};

/// The world of a root: the chips and devices of the whole board, by number, and what the wires have come to. A
/// contract sees the record of these parts. A call tells only those that it can matter to: a target that wasn't started
/// since its last stop is quiet, so neither another's start nor a stop would change it.
///
/// No call matters to a device of another root. It isn't opened here, so that a board takes the memory of its devices
/// once, whatever number of roots it has.
#[derive(Drop)]
pub struct SimWorld {
    board: Snapshot<Accepted>,
    root: SegId,
    mux_places: Sites,
    device_places: Sites,
    chips: Vec<Chip>,
    /// The place of one of another root is empty. A contract sees that device as it was opened.
    devices: Vec<DeviceSlot>,
    /// Which chips, and which devices, a message has reached.
    chip_reach: Reach,
    device_reach: Reach,
    busy: bool,
}

impl Model for SimWorld {
    ghost use Rattle.i2c_spec.specs.World.{World};
    ghost use Rattle.i2c_physics.specs.Heard.{nodes_of};
    ghost use Rattle.i2c_physics.specs.SimWorlds.{IsSimWorld, seen_on};

    ghost Value = { World };

    ghost view = { λ w. record { board = w.board.value; root = w.root; chips = w.chips.items; devices = seen_on w.board.value w.root w.board.value.devices w.devices.items; hearing = nodes_of w.chip_reach.hearing w.device_reach.hearing; busy = w.busy } };

    ghost invariant = { λ w. IsSimWorld w.board.value w.root w.mux_places w.device_places w.chips.items w.devices.items w.chip_reach w.device_reach };
}

impl SimWorld {
    /// The world of this root as it is opened.
    pub fn open(alloc: Global, board: &Accepted, root: SegId) -> Result<Self, AllocError>
        ensures { IfOk result (λ w. w ≡ world.opening_world board.now root) }
    {
        let layout = board.board().layout();
        openings_are_quiet();
        let mux_places = Sites::of_muxes(alloc, layout, root)?;
        let device_places = Sites::of_devices(alloc, layout, root)?;
        let chips = open_chips(alloc, layout.muxes)?;
        let devices = open_devices(alloc, layout, root)?;
        Ok(SimWorld {
            board: Snapshot::of(board),
            root,
            mux_places,
            device_places,
            chips,
            devices,
            chip_reach: Reach::none(),
            device_reach: Reach::none(),
            busy: false,
        })
    }

    /// Takes out the device of this number, as the world has it, where it is of this root.
    pub fn take_device(&mut self, number: usize) -> Option<DeviceState>
        ensures value { result ≡ own_device self.old number }
        ensures has { owns self.old number ≡ true → IsSome result }
        ensures after { self.new ≡ without self.old number }
    {
        if !is_wired(self.device_places.as_slice(), number) {
            return None;
        }
        Some(self.devices[number].take())
    }

    /// A start goes out. What it is answered.
    pub fn start(&mut self, addr: Addr, reading: bool) -> Answer
        ensures answer { result ≡ world.answer self.old addr reading }
        ensures after { self.new ≡ world.after self.old (call.Start addr reading) }
    {
        // What is joined is taken from the chips as they are before any of them has its event.
        let chips = self.chips.as_slice();
        self.chip_reach.call(chips, &self.mux_places, addr);
        self.device_reach.call(chips, &self.device_places, addr);
        let chips = begin(&mut self.chips, &mut self.chip_reach, reading);
        let devices = begin(&mut self.devices, &mut self.device_reach, reading);
        self.busy = true;
        answer_of(chips, devices)
    }

    /// A byte is put. Whether someone acknowledges it.
    pub fn put(&mut self, byte: u8) -> bool
        ensures taken { result ≡ world.takes self.old byte }
        ensures after { self.new ≡ world.after self.old (call.Put byte) }
    {
        let (chips, devices) = self.send(Event::Put(byte));
        chips.acked || devices.acked
    }

    /// A byte is read, and acknowledged or not.
    pub fn get(&mut self, ack: bool) -> u8
        ensures given { result ≡ world.gives self.old }
        ensures after { self.new ≡ world.after self.old (call.Get ack) }
    {
        let (chips, devices) = self.send(Event::Get { ack });
        chips.byte & devices.byte
    }

    /// A stop goes to all that is joined: those that weren't started since their last one are quiet.
    pub fn stop(&mut self)
        ensures { self.new ≡ world.after self.old call.Stop }
    {
        let chips = self.chips.as_slice();
        self.chip_reach.part(chips, &self.mux_places);
        self.device_reach.part(chips, &self.device_places);
        end(&mut self.chips, &mut self.chip_reach);
        end(&mut self.devices, &mut self.device_reach);
        self.busy = false;
        // What was stopped is quiet, as is what is opened.
        chips_are_fair();
    }

    /// The line of a gpio mux is set to a level.
    pub fn set_line(&mut self, mux: MuxId, level: u8)
        ensures { self.new ≡ world.after self.old (call.Line mux level) }
    {
        set_level(&mut self.chips, mux, level);
    }

    /// Tells those who have heard the start of the message of an event. What chips and devices answer.
    #[inline(always)]
    fn send(&mut self, event: Event) -> (WiredAnd, WiredAnd)
        ensures chips { result.0 ≡ chips_say self.old event }
        ensures devices { result.1 ≡ devices_say self.old event }
        ensures small { result.1.byte < 256 }
        ensures after { self.new ≡ world.sent_on self.old event }
    {
        let chips = deliver(&mut self.chips, &mut self.chip_reach, event);
        let devices = deliver(&mut self.devices, &mut self.device_reach, event);
        (chips, devices)
    }
}

fn set_level(chips: &mut Vec<Chip>, mux: MuxId, level: u8)
    ensures { chips.new.items ≡ world.set_level chips.old.items mux level }
{
    if let Some(chip) = chips.get_mut(usize::from(mux.0)) {
        chip.set_level(level);
    }
}

fn open_chips(alloc: Global, muxes: &[MuxSpec]) -> Result<Vec<Chip>, AllocError>
    ensures { IfOk result (λ chips. chips.items ≡ map chip_opening muxes.now) }
{
    muxes.iter().map(Chip::open).collect(alloc)
}

/// The devices of this root as they are opened, by number: the places of the others are empty.
fn open_devices(
    alloc: Global,
    layout: Layout<'_>,
    root: SegId,
) -> Result<Vec<DeviceSlot>, AllocError>
    requires { IsPlainBoard (board_of layout) }
    ensures { IfOk result (λ devices. devices.items ≡ map (opened_on (board_of layout.entry) root) layout.entry.devices.now) }
{
    let mut devices = Vec::with_capacity(alloc, layout.devices.len())?;
    for device in layout.devices {
        devices.push_reserved(open_device(alloc, layout, root, device)?);
    }
    Ok(devices)
}

/// The device as it is opened, where it is of this root.
fn open_device(
    alloc: Global,
    layout: Layout<'_>,
    root: SegId,
    device: &DeviceSpec,
) -> Result<DeviceSlot, AllocError>
    requires board { IsPlainBoard (board_of layout) }
    requires device { IsPlainDevice device.now }
    ensures { IfOk result (λ device_slot. device_slot ≡ opened_on (board_of layout.entry) root device.now) }
{
    if layout.root(device.bus) != root {
        return Ok(DeviceSlot::empty());
    }
    DeviceSlot::open(alloc, device)
}
