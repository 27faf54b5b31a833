//! A rig of one's own: a port on which nobody answers for each root of a board.
ghost use Rattle.std.specs.Prelude.{◌≡◌, ◌≢◌, true, false, [], Err, IfOk, OnErr, OnOk, length, replicate};
ghost use Rattle.ports.specs.Causes.{counted};
ghost use Rattle.i2c_outside.specs.declared.failed.RigFail.{RigFail};
ghost use Rattle.examples_rig.specs.QuietRigs.{board_of};
ghost use Rattle.i2c_base.specs.declared.port.Phase.TheVariants as phase;

use crate::quiet_port::QuietPort;
use i2c_board::Accepted;
use i2c_outside::{Rig, RigFail};
use std::alloc::{AllocError, Global};
use std::snapshot::Snapshot;

/// Where buses without targets come from. It tells no devices and no logs.
#[derive(Drop)]
pub struct QuietRig {
    plugs: u64,
    unplugs: u64,
    plugged: bool,
    board: Option<Snapshot<Accepted>>,
}

impl QuietRig {
    /// It wasn't plugged yet.
    pub fn new() -> Self
        ensures counts { (result.plugs ≡ 0) × (result.unplugs ≡ 0) }
        ensures unplugged { result.plugged ≡ false }
    {
        QuietRig {
            plugs: 0,
            unplugs: 0,
            plugged: false,
            board: None,
        }
    }
}

// So many ports.
fn ports_of(alloc: Global, count: usize) -> Result<Vec<QuietPort>, AllocError>
    ensures { IfOk result (λ ports. ports.items ≡ replicate count (record { phase = phase.Idle })) }
{
    let ports = vec![in alloc; QuietPort::new(); count]?;
    Ok(ports)
}

impl Rig for QuietRig {
    type P = QuietPort;

    ghost tells = { false };

    ghost faults = { λ r. 0 };

    ghost plugs = { λ r. r.plugs };

    ghost unplugs = { λ r. r.unplugs };

    ghost plugged = { λ r. r.plugged };

    ghost board_of = { board_of };

    ghost states = { λ r. [] };

    ghost logs = { λ r. [] };

    ghost port_faults = { λ r. [] };

    ghost setups = { λ r b. [] };

    ghost returned = { λ r. [] };

    fn plug(&mut self, alloc: Global, board: &Accepted) -> Result<Vec<QuietPort>, RigFail>
        ensures plugs { self.new.plugs ≡ counted self.old.plugs }
        ensures unplugs { self.new.unplugs ≡ self.old.unplugs }
        ensures plugged { OnOk result (self.new.plugged ≡ true) }
        ensures unplugged { OnErr result (self.new.plugged ≡ false) }
        ensures never { result ≢ Err RigFail.Failed }
        ensures ports { IfOk result (λ ports. ports.items ≡ replicate (length board.now.roots) (record { phase = phase.Idle })) }
        ensures board { OnOk result (board_of self.new ≡ board.now) }
    {
        self.plugs = self.plugs.saturating_add(1);
        self.plugged = false;
        let ports = ports_of(alloc, board.board().roots().len())?;
        self.board = Some(Snapshot::of(board));
        self.plugged = true;
        Ok(ports)
    }

    fn unplug(&mut self, ports: Vec<QuietPort>)
        ensures plugged { self.new.plugged ≡ false }
        ensures plugs { self.new.plugs ≡ self.old.plugs }
        ensures unplugs { self.new.unplugs ≡ counted self.old.unplugs }
    {
        self.unplugs = self.unplugs.saturating_add(1);
        self.plugged = false;
        drop(ports);
    }
}
