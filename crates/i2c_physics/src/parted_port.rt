//! A port on two wires that was taken apart, and the room for one of each root.
ghost use Rattle.std.specs.Prelude.{◌≡◌, ◌<◌, ◌≤◌, ◌+◌, ◌++◌, [], ◌∷◌, All, length, map, min, vec_len, vec_capacity, IfOk};
ghost use Rattle.ports.specs.Causes.{MOST};
ghost use Rattle.wire_spec.specs.Bus.{edges_in};
ghost use Rattle.i2c_physics.specs.BitRigs.{edges_of, parted};

use crate::unplug::Returned;
use crate::{RootLines, WirePort};
use bus_lines::Apart;
use i2c_board::Accepted;
use std::alloc::{AllocError, Global};
use std::marker::Model;
use std::snapshot::Snapshot;
use targets::DeviceState;

/// The targets of a port on two wires, off the lines. A contract sees the world that they are, and no calls.
#[derive(Drop)]
pub struct PartedPort {
    targets: Apart,
    busy: bool,
}

impl Model for PartedPort {
    ghost use Rattle.std.specs.Prelude.{[]};
    ghost use Rattle.i2c_base.specs.declared.port.Phase.TheVariants.{Idle};
    ghost use Rattle.bus_lines.specs.Aparts.{world_apart};
    ghost use Rattle.i2c_physics.specs.SimPorts.{PortView};

    ghost Value = { PortView };

    ghost view = { λ p. record { world = world_apart p.busy p.targets; log = []; phase = Idle } };
}

impl Returned for PartedPort {
    ghost port = { λ p. p };

    fn take_device(&mut self, number: usize) -> Option<DeviceState> {
        self.targets.take_device(number)
    }
}

/// Room for the ports of a board that are taken apart. A contract sees the board.
#[derive(Drop)]
pub struct PartsBuffer {
    board: Snapshot<Accepted>,
    ports: Vec<PartedPort>,
}

impl Model for PartsBuffer {
    ghost use Rattle.std.specs.Prelude.{vec_len, vec_capacity};
    ghost use Rattle.i2c_base.specs.Board.{BoardView};
    ghost use Rattle.i2c_physics.specs.BitRigs.{HasRoomFor};

    ghost Value = { BoardView };

    ghost view = { λ b. b.board.value };

    ghost invariant = { λ b. HasRoomFor b.board.value (vec_len b.ports) (vec_capacity b.ports) };
}

/// Ports that were taken apart, and how often SCL rose on them, up to 2^64 - 1.
#[derive(Drop)]
pub struct PartedPorts {
    pub ports: Vec<PartedPort>,
    pub edges: u64,
}

impl PartsBuffer {
    /// Room for a port of each root of this board.
    pub fn open(alloc: Global, board: &Accepted) -> Result<Self, AllocError>
        ensures { IfOk result (λ buffer. buffer ≡ board.now) }
    {
        Ok(PartsBuffer {
            board: Snapshot::of(board),
            ports: Vec::with_capacity(alloc, board.board().roots().len())?,
        })
    }

    /// Takes these ports apart, in order.
    pub fn fill<L: RootLines>(self, ports: Vec<WirePort<L>>) -> PartedPorts
        ensures ports { length ports.items ≤ length self.roots → result.ports.items ≡ map parted ports.items }
        ensures edges { result.edges ≡ edges_of ports.items }
        ensures faults { All (λ p. p.faults ≡ 0) ports.items }
    {
        let mut parted = self.ports;
        let edges = take_apart(&mut parted, ports);
        PartedPorts {
            ports: parted,
            edges,
        }
    }
}

/// Takes these ports apart after others, as far as there is room. How often SCL rose on them, up to 2^64 - 1.
fn take_apart<L: RootLines>(done: &mut Vec<PartedPort>, ports: Vec<WirePort<L>>) -> u64
    ensures ports { vec_len done.old + vec_len ports ≤ vec_capacity done.old → done.new.items ≡ done.old.items ++ map parted ports.items }
    ensures edges { result ≡ edges_of ports.items }
    ensures faults { All (λ p. p.faults ≡ 0) ports.items }
{
    let mut edges: u64 = 0;
    for port in ports {
        edges = edges.saturating_add(take_one(done, port));
    }
    edges
}

/// Takes this port apart after others, where there is room. How often SCL rose on it, up to 2^64 - 1.
fn take_one<L: RootLines>(done: &mut Vec<PartedPort>, port: WirePort<L>) -> u64
    ensures port { vec_len done.old < vec_capacity done.old → done.new.items ≡ done.old.items ++ parted port ∷ [] }
    ensures room { vec_capacity done.old ≤ vec_capacity done.new }
    ensures edges { result ≡ min (edges_in port.seen) MOST }
    ensures faults { port.faults ≡ 0 }
{
    let parts = port.into_parts();
    let lines = parts.lines.into_lines();
    let edges = lines.edges();
    let _ = done.push(PartedPort {
        targets: lines.apart(),
        busy: parts.busy,
    });
    edges
}
