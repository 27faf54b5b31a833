//! The open handles, and the calls on them.

ghost use Rattle.std.specs.Prelude.{◌≡◌, ⊤, ◌<◌, ◌≤◌, [], Ok, Err, IfOk, IfErr, OnErr, Some, None, length, slice_set};
ghost use Rattle.i2c_base.specs.Board.{BoardView};
ghost use Rattle.i2c_base.specs.declared.errno.Errno.TheVariants.{Ebadf, Enodev};
ghost use Rattle.i2c_spec.specs.Tree.{buses};
ghost use Rattle.dev_handle.specs.Handles.{AreOnBoard, IsOpen, MOST_HANDLES, UnlessNoMemory, answer_by_handle, changed, handle_at};
ghost use Rattle.dev_handle.specs.Handles.{open_answer, opened, bus_and_force, slave_answer, slaved, target_of, with_pec};
ghost use Rattle.dev_handle.specs.declared.fault.HandleFault.TheVariants as fault;

use crate::stored::{Numbered, handle_at, write_at};
use crate::{HandleFault, OpenHandle, Slave};
use i2c_base::{Addr, Errno, Grant, SegId};
use i2c_board::Accepted;
use slab::Slab;
use std::alloc::Global;
use std::marker::Model;

/// The open handles. A contract sees what stands under each number that was given out, none where it was closed.
#[derive(Drop)]
pub struct Handles {
    slab: Slab<Numbered>,
    // The key of each number.
    keys: Vec<usize>,
}

impl Model for Handles {
    ghost use Rattle.dev_handle.specs.Handles.{HandlesView};
    ghost use Rattle.dev_handle.specs.Stored.{stored};

    ghost Value = { HandlesView };

    ghost view = { λ h. stored h.slab h.keys.items };
}

impl Handles {
    /// None is open, and no number was given out.
    pub fn new(alloc: Global) -> Self
        ensures none { result ≡ [] }
        ensures on_board { (b : BoardView) → AreOnBoard b result }
    {
        Handles {
            slab: Slab::new(alloc),
            keys: Vec::new(alloc),
        }
    }

    /// Opens a handle on a bus of the board, under the next number. ENODEV says that the board has no such bus; it uses up
    /// no number.
    #[tactic(auto, using(crate::proofs::StoredLemmas::length_stored))]
    pub fn open(&mut self, board: &Accepted, bus: u16) -> Result<u32, HandleFault>
        requires { length self.old < MOST_HANDLES }
        ensures answer { UnlessNoMemory result (result ≡ open_answer board.now self.old bus) }
        ensures after { UnlessNoMemory result (self.new ≡ opened board.now self.old bus) }

        // Being out of memory isn't told of a bus that is missing.
        ensures missing { buses board.now ≤ bus → result ≡ Err (fault.Errno Enodev) }
        ensures err { OnErr result (self.new ≡ self.old) }
        ensures on_board { AreOnBoard board.now self.old → AreOnBoard board.now self.new }
    {
        if board.board().seg(bus).is_none() {
            return Err(HandleFault::Errno(Errno::Enodev));
        }
        self.keys.reserve(1)?;
        self.slab.reserve(1)?;
        let number = self.keys.len() as u32;
        let handle = OpenHandle {
            bus,
            addr: None,
            force: false,
            pec: false,
        };
        let key = self.slab.insert_reserved(Numbered { number, handle });
        self.keys.push_reserved(key);
        Ok(number)
    }

    /// Sets the address that a handle reaches (i2c-dev: `I2C_SLAVE`, and `I2C_SLAVE_FORCE` with `force`). EBADF says that no
    /// open handle has this number, EBUSY that the address is taken on its bus (`Board::grant`).
    pub fn slave(
        &mut self,
        board: &Accepted,
        handle: u32,
        addr: Addr,
        force: bool,
    ) -> Result<(), HandleFault>
        requires { AreOnBoard board.now self.old }
        ensures answer { result ≡ answer_by_handle self.old handle (slave_answer board.now addr force) }
        ensures after { self.new ≡ changed self.old handle (slaved board.now addr force) }
        ensures err { OnErr result (self.new ≡ self.old) }
        ensures count { length self.new ≡ length self.old }
        ensures on_board { (b : BoardView) → AreOnBoard b self.old → AreOnBoard b self.new }
    {
        let found = *self.find(handle)?;
        match board.board().grant(SegId(found.bus), addr, force) {
            Grant::Busy => Err(HandleFault::Errno(Errno::Ebusy)),
            Grant::Named(_) | Grant::Nobody => {
                let set = OpenHandle {
                    addr: Some(addr),
                    force,
                    ..found
                };
                self.put(handle, set);
                Ok(())
            }
        }
    }

    /// Turns the error codes of a handle on or off (i2c-dev: `I2C_PEC`). EBADF says that no open handle has this number.
    pub fn set_pec(&mut self, handle: u32, on: bool) -> Result<(), HandleFault>
        ensures answer { result ≡ answer_by_handle self.old handle (λ h. Ok tt) }
        ensures after { self.new ≡ changed self.old handle (with_pec on) }
        ensures err { OnErr result (self.new ≡ self.old) }
        ensures count { length self.new ≡ length self.old }
        ensures on_board { (b : BoardView) → AreOnBoard b self.old → AreOnBoard b self.new }
    {
        let found = *self.find(handle)?;
        self.put(handle, OpenHandle { pec: on, ..found });
        Ok(())
    }

    /// Whom a handle reaches. EBADF says that no open handle has this number, EINVAL that no address was set.
    pub fn target(&self, handle: u32) -> Result<Slave, HandleFault>
        ensures { result ≡ answer_by_handle self.now handle target_of }
    {
        let found = self.find(handle)?;
        let Some(addr) = found.addr else {
            return Err(HandleFault::Errno(Errno::Einval));
        };
        Ok(Slave {
            bus: found.bus,
            addr,
            force: found.force,
            pec: found.pec,
        })
    }

    /// The bus of a handle, and its force: that of the last `slave` that set its address. EBADF says that no open handle
    /// has this number.
    pub fn place(&self, handle: u32) -> Result<(u16, bool), HandleFault>
        ensures { result ≡ answer_by_handle self.now handle bus_and_force }
    {
        let found = self.find(handle)?;
        Ok((found.bus, found.force))
    }

    /// Closes a handle. Its number never comes again. EBADF says that no open handle has this number.
    pub fn close(&mut self, handle: u32) -> Result<(), HandleFault>
        ensures answer { result ≡ answer_by_handle self.old handle (λ h. Ok tt) }
        ensures after { self.new ≡ changed self.old handle (λ h. None) }
        ensures err { OnErr result (self.new ≡ self.old) }
        ensures count { length self.new ≡ length self.old }
        ensures on_board { (b : BoardView) → AreOnBoard b self.old → AreOnBoard b self.new }
    {
        self.find(handle)?;
        self.remove(handle);
        Ok(())
    }

    // The open handle of this number, else EBADF.
    #[tactic(auto, using(crate::proofs::StoredLemmas::handle_at_stored))]
    fn find(&self, handle: u32) -> Result<&OpenHandle, HandleFault>
        ensures found { IfOk result (λ h. handle_at self.now handle ≡ Some h.now) }
        ensures closed { IfErr result (λ e. (e ≡ fault.Errno Ebadf) × (handle_at self.now handle ≡ None)) }
    {
        handle_at(&self.slab, self.keys.as_slice(), handle).ok_or(HandleFault::Errno(Errno::Ebadf))
    }

    // Writes over an open handle.
    #[tactic(auto, using(crate::proofs::StoredLemmas::changes))]
    fn put(&mut self, number: u32, handle: OpenHandle)
        requires { IsOpen self.old number }
        ensures { self.new ≡ slice_set self.old number (Some handle) }
    {
        let key = self.keys[number as usize];
        write_at(&mut self.slab, key, Numbered { number, handle });
    }

    // Takes an open handle away.
    #[tactic(auto, using(crate::proofs::StoredLemmas::changes))]
    fn remove(&mut self, number: u32)
        requires { IsOpen self.old number }
        ensures { self.new ≡ slice_set self.old number None }
    {
        self.slab.try_remove(self.keys[number as usize]);
    }
}
