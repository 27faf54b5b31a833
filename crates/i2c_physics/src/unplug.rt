//! What a rig holds after an unplug, and the room for it.
ghost use Rattle.std.specs.Prelude.{◌≡◌, ◌<◌, ◌≤◌, ◌+◌, ◌++◌, ℕ, true, map, length, slice_index, vec_len, vec_capacity, IfOk, IsSome, Some};
ghost use Rattle.i2c_base.specs.Board.{BoardView};
ghost use Rattle.i2c_spec.specs.World.{World, AreWorldsOf, devices_of};
ghost use Rattle.i2c_physics.specs.SimPorts.{PortView};
ghost use Rattle.bus_lines.specs.Owned.{own_device, owns, without};
ghost use Rattle.i2c_physics.specs.SimRigs.{state_at, states_from, taken_out, IsThere};
ghost use Rattle.i2c_board.specs.Layouts.{board_of};
ghost use Rattle.i2c_spec.specs.Plain.{IsPlainBoard};
ghost use Rattle.i2c_spec.specs.Tree.{root_of};

use i2c_base::{PortCall, SegId};
use i2c_board::{Accepted, Layout};
use std::alloc::{AllocError, Global};
use std::marker::Model;
use std::snapshot::Snapshot;
use targets::DeviceState;

/// A port that is given back to its rig.
pub trait Returned: Drop {
    /// The port of its root that it is, or stands for.
    ghost port: { Self → PortView };

    /// Takes out the device of this number, as the port has it, where it is of the port's root.
    fn take_device(&mut self, number: usize) -> Option<DeviceState>
        ensures value { result ≡ own_device (port self.old).world number }
        ensures has { owns (port self.old).world number ≡ true → IsSome result }
        ensures world { (port self.new).world ≡ without (port self.old).world number }
        ensures log { (port self.new).log ≡ (port self.old).log };
}

/// A port that is given back with the calls that were made on it.
pub trait Logged: Returned {
    /// The calls.
    fn into_log(self) -> Vec<PortCall>
        ensures { result.items ≡ (Self.port self).log };
}

/// What a rig holds after an unplug.
#[derive(Drop)]
pub struct Unplugged {
    pub states: Vec<DeviceState>,
    pub logs: Vec<Vec<PortCall>>,
}

/// The room for it, which a plug takes. A contract sees the board.
#[derive(Drop)]
pub struct UnplugBuffer {
    board: Snapshot<Accepted>,
    /// The root of each device's bus.
    homes: Vec<SegId>,
    states: Vec<DeviceState>,
    logs: Vec<Vec<PortCall>>,
}

impl Model for UnplugBuffer {
    ghost use Rattle.std.specs.Prelude.{vec_len, vec_capacity};
    ghost use Rattle.i2c_base.specs.Board.{BoardView};
    ghost use Rattle.i2c_physics.specs.SimRigs.{IsRoom};

    ghost Value = { BoardView };

    ghost view = { λ r. r.board.value };

    ghost invariant = { λ r. IsRoom r.board.value r.homes.items (vec_len r.states) (vec_len r.logs) (vec_capacity r.states) (vec_capacity r.logs) };
}

impl UnplugBuffer {
    /// The room for the devices and the logs of this board.
    pub fn open(alloc: Global, board: &Accepted) -> Result<Self, AllocError>
        ensures { IfOk result (λ room. room ≡ board.now) }
    {
        let logs = Vec::with_capacity(alloc, board.board().roots().len())?;
        let homes = homes(alloc, board.board().layout())?;
        let states = Vec::with_capacity(alloc, homes.len())?;
        Ok(UnplugBuffer {
            board: Snapshot::of(board),
            homes,
            states,
            logs,
        })
    }

    /// Keeps the devices as these ports have them, each as the port of its root has it.
    pub fn keep_devices<P: Returned>(self, mut ports: Vec<P>) -> Unplugged
        ensures states { AreWorldsOf self (map (λ p. (P.port p).world) ports.items) → result.states.items ≡ devices_of self (map (λ p. (P.port p).world) ports.items) }
    {
        let UnplugBuffer {
            board: _,
            homes,
            mut states,
            logs,
        } = self;
        keep_states(&mut states, &homes, &mut ports);
        Unplugged { states, logs }
    }

    /// .. and their logs too.
    pub fn keep<P: Logged>(self, mut ports: Vec<P>) -> Unplugged
        ensures states { AreWorldsOf self (map (λ p. (P.port p).world) ports.items) → result.states.items ≡ devices_of self (map (λ p. (P.port p).world) ports.items) }
        ensures logs { AreWorldsOf self (map (λ p. (P.port p).world) ports.items) → map (λ log. log.items) result.logs.items ≡ map (λ p. (P.port p).log) ports.items }
    {
        let UnplugBuffer {
            board: _,
            homes,
            mut states,
            mut logs,
        } = self;
        keep_states(&mut states, &homes, &mut ports);
        keep_logs(&mut logs, ports);
        Unplugged { states, logs }
    }
}

/// The root of each device's bus.
fn homes(alloc: Global, layout: Layout<'_>) -> Result<Vec<SegId>, AllocError>
    requires { IsPlainBoard (board_of layout) }
    ensures { IfOk result (λ homes. homes.items ≡ map (λ d. root_of (board_of layout.entry) d.bus) layout.entry.devices.now) }
{
    let mut homes = Vec::with_capacity(alloc, layout.devices.len())?;
    for device in layout.devices {
        homes.push_reserved(layout.root(device.bus));
    }
    Ok(homes)
}

/// Keeps each device as the port of its root has it.
fn keep_states<P: Returned>(states: &mut Vec<DeviceState>, homes: &Vec<SegId>, ports: &mut Vec<P>)
    requires { vec_len states.old + vec_len homes.now ≤ vec_capacity states.old }
    ensures kept { states.new.items ≡ states.old.items ++ states_from 0 homes.now.items (map (λ p. (P.port p).world) ports.old.items) }
    ensures there { (k : ℕ) → k < vec_len homes.now → IsThere (map (λ p. (P.port p).world) ports.old.items) (slice_index homes.now.items k) k }
    ensures logs { map (λ p. (P.port p).log) ports.new.items ≡ map (λ p. (P.port p).log) ports.old.items }
{
    for (number, home) in homes.iter().enumerate() {
        if let Some(state) = take_from(ports, *home, number) {
            states.push_reserved(state);
        }
    }
}

/// Takes out the device of this number, as the port of this bus has it.
fn take_from<P: Returned>(ports: &mut Vec<P>, home: SegId, number: usize) -> Option<DeviceState>
    ensures value { result ≡ state_at (map (λ p. (P.port p).world) ports.old.items) home number }
    ensures there { IsThere (map (λ p. (P.port p).world) ports.old.items) home number }
    ensures worlds { map (λ p. (P.port p).world) ports.new.items ≡ taken_out (map (λ p. (P.port p).world) ports.old.items) home number }
    ensures logs { map (λ p. (P.port p).log) ports.new.items ≡ map (λ p. (P.port p).log) ports.old.items }
{
    let home = usize::from(home.0);
    if home >= ports.len() {
        return None;
    }
    ports[home].take_device(number)
}

/// Keeps the logs of these ports, as far as there is room.
fn keep_logs<P: Logged>(logs: &mut Vec<Vec<PortCall>>, ports: Vec<P>)
    ensures { vec_len logs.old + vec_len ports ≤ vec_capacity logs.old → map (λ log. log.items) logs.new.items ≡ map (λ log. log.items) logs.old.items ++ map (λ p. (P.port p).log) ports.items }
{
    for port in ports {
        let _ = logs.push(port.into_log());
    }
}
