//! A board: its roots, muxes and devices, with their limits.

ghost use Rattle.std.specs.Prelude.{◌≡◌, ◌≤◌, IfOk, List};
ghost use Rattle.i2c_base.specs.declared.board.RootSpec.{RootSpec};
ghost use Rattle.i2c_base.specs.declared.board.MuxSpec.{MuxSpec};

use crate::by_bus::{hops_by_bus, some_stays};
use crate::{Hop, Layout};
use i2c_base::{BLOCK_LIMIT, DeviceSpec, MuxSpec, RootSpec, limit_of};
use std::alloc::{AllocError, Global};
use std::marker::Model;

/// A board: root buses, the muxes that hang below them, and the devices on their buses. A contract sees its
/// parts as plain lists.
///
/// Its type keeps that its version is one of those that there are, that it has 1 to `MOST_ROOTS` roots, at most `MOST_MUXES`
/// muxes and `MOST_DEVICES` devices, that each part has only what its kind allows, and that each mux and device stands on a
/// bus that is there. Beside them it keeps the tree, so that no call searches the muxes for it.
#[derive(Drop)]
pub struct Board {
    version: u8,
    roots: Vec<RootSpec>,
    muxes: Vec<MuxSpec>,
    devices: Vec<DeviceSpec>,
    by_bus: Vec<Hop>,
    stays: bool,
}

impl Model for Board {
    ghost use Rattle.i2c_base.specs.Board.{BoardView};

    ghost Value = { BoardView };

    ghost use Rattle.i2c_board.specs.Boards.{parts_of, IsBoard};

    ghost view = { parts_of };

    ghost invariant = { IsBoard };
}

impl Board {
    ghost use Rattle.i2c_board.specs.Layouts.{board_of};
    ghost use Rattle.i2c_spec.specs.Flat.{block_limit};
    ghost use Rattle.i2c_spec.specs.Plain.{IsPlainBoard};

    /// The board of this version and these parts, which fit each other. Only its tree takes memory; `Err` is want of that.
    pub fn new(
        alloc: Global,
        version: u8,
        roots: Vec<RootSpec>,
        muxes: Vec<MuxSpec>,
        devices: Vec<DeviceSpec>,
    ) -> Result<Self, AllocError>
        requires { IsPlainBoard (record { version = version; roots = roots.items; muxes = muxes.items; devices = devices.items }) }
        ensures { IfOk result (λ b. b ≡ record { version = version; roots = roots.items; muxes = muxes.items; devices = devices.items }) }
    {
        let by_bus = hops_by_bus(alloc, roots.len() as u16, &muxes)?;
        let stays = some_stays(&muxes);
        Ok(Board {
            version,
            roots,
            muxes,
            devices,
            by_bus,
            stays,
        })
    }

    /// The most bytes of a block, which its version tells.
    pub fn limit(&self) -> u8
        ensures value { result ≡ block_limit self.now }
        ensures some { 1 ≤ result }
    {
        limit_of(self.version).unwrap_or(BLOCK_LIMIT)
    }

    /// Its root buses, in file order.
    pub fn roots(&self) -> &[RootSpec]
        ensures value { result.now ≡ self.now.roots }
        ensures plain { IsPlainBoard self.now }
    {
        self.roots.as_slice()
    }

    /// Its muxes, in file order.
    pub fn muxes(&self) -> &[MuxSpec]
        ensures value { result.now ≡ self.now.muxes }
        ensures plain { IsPlainBoard self.now }
    {
        self.muxes.as_slice()
    }

    /// Its devices, in file order.
    pub fn devices(&self) -> &[DeviceSpec]
        ensures value { result.now ≡ self.now.devices }
        ensures plain { IsPlainBoard self.now }
    {
        self.devices.as_slice()
    }

    /// Its parts, borrowed.
    pub fn layout(&self) -> Layout<'_>
        ensures value { board_of result ≡ self.now }
        ensures plain { IsPlainBoard self.now }
    {
        Layout {
            version: self.version,
            roots: self.roots(),
            muxes: self.muxes(),
            devices: self.devices(),
            by_bus: self.by_bus.as_slice(),
            stays: self.stays,
        }
    }
}
