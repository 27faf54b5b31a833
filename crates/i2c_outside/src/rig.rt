//! The trait of a rig, which gives the ports of a board and takes them back.
ghost use Rattle.std.specs.Prelude.{◌≡◌, ℕ, ◌≤◌, [], true, false, Bool, List, Err, OnOk, OnErr, IfOk, IsTrue, All, length, map, vec_len};
ghost use Rattle.i2c_base.specs.Board.{BoardView};
ghost use Rattle.i2c_spec.specs.Targets.{TargetState};
ghost use Rattle.i2c_spec.specs.World.{World, AreWorldsOf, openings, devices_of};
ghost use Rattle.ports.specs.Causes.{Rose, counted};
ghost use Rattle.i2c_base.specs.declared.port.Phase.{Phase};
ghost use Rattle.i2c_base.specs.declared.port.PortCall.{PortCall};

use crate::RigFail;
use i2c_board::Accepted;
use ports::Port;
use std::alloc::Global;

/// Where the ports of a board come from and go back to.
pub trait Rig {
    type P: Port;

    /// It tells what it holds after an unplug.
    ghost tells: { Bool };

    ghost faults: { Self → ℕ };

    /// How many plugs, failed ones included, and how many unplugs were made.
    ghost plugs: { Self → ℕ };

    ghost unplugs: { Self → ℕ };

    /// The last plug went through, and no unplug followed it.
    ghost plugged: { Self → Bool };

    /// The board of the last plug that went through.
    ghost board_of: { Self → BoardView };

    /// The devices and the ports' logs after an unplug, and none before.
    ghost states: { Self → List TargetState };

    ghost logs: { Self → List (List PortCall) };

    /// The counts of the ports that were last given back.
    ghost port_faults: { Self → List ℕ };

    /// How it sets up the ports of a board, one for each root in order, which no plug and no unplug changes.
    ghost setups: { Self → BoardView → List (List ℕ) };

    /// How the ports that were last given back were set up.
    ghost returned: { Self → List (List ℕ) };

    /// Gives one port for each root of the board, in order, each in its opening world with an empty log.
    fn plug(&mut self, alloc: Global, board: &Accepted) -> Result<Vec<Self::P>, RigFail>
        ensures later { faults self.old ≤ faults self.new }
        ensures cause { result ≡ Err RigFail.Failed → Rose (faults self.old) (faults self.new) }
        ensures plugs { plugs self.new ≡ counted (plugs self.old) }
        ensures unplugs { unplugs self.new ≡ unplugs self.old }
        ensures plugged { OnOk result (plugged self.new ≡ true) }
        ensures unplugged { OnErr result (plugged self.new ≡ false) }
        ensures count { IfOk result (λ ports. vec_len ports ≡ length board.now.roots) }
        ensures idle { IfOk result (λ ports. All (λ p. Self.P.phase p ≡ Phase.Idle) ports.items) }
        ensures fresh { IfOk result (λ ports. All (λ p. Self.P.faults p ≡ 0) ports.items) }
        ensures empty { IsTrue Self.P.tells → IfOk result (λ ports. All (λ p. Self.P.log p ≡ []) ports.items) }
        ensures worlds { IsTrue Self.P.tells → IfOk result (λ ports. map Self.P.world ports.items ≡ openings board.now) }
        ensures board { OnOk result (board_of self.new ≡ board.now) }
        ensures setups { IsTrue tells → IfOk result (λ ports. map Self.P.setup ports.items ≡ setups self.old board.now) }
        ensures settled { setups self.new ≡ setups self.old };

    /// Takes the ports back. Where they are one for each root of the board, in order, the rig then holds the
    /// devices as they left them, and their logs.
    fn unplug(&mut self, ports: Vec<Self::P>)
        requires { plugged self.old ≡ true }
        ensures plugged { plugged self.new ≡ false }
        ensures plugs { plugs self.new ≡ plugs self.old }
        ensures unplugs { unplugs self.new ≡ counted (unplugs self.old) }
        ensures later { faults self.old ≤ faults self.new }
        ensures counts { IsTrue tells → port_faults self.new ≡ map Self.P.faults ports.items }
        ensures returned { IsTrue tells → returned self.new ≡ map Self.P.setup ports.items }
        ensures settled { setups self.new ≡ setups self.old }
        ensures states { IsTrue tells → IsTrue Self.P.tells → AreWorldsOf (board_of self.old) (map Self.P.world ports.items)
            → states self.new ≡ devices_of (board_of self.old) (map Self.P.world ports.items) }
        ensures logs { IsTrue tells → IsTrue Self.P.tells → AreWorldsOf (board_of self.old) (map Self.P.world ports.items)
            → logs self.new ≡ map Self.P.log ports.items };
}
