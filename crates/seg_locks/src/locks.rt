//! The lock words of a board.
ghost use Rattle.std.specs.Prelude.{◌≡◌, ◌<◌, ◌≤◌, All, None, Some, IfOk, IfErr, OnOk, OnErr};
ghost use Rattle.i2c_base.specs.Limits.{MOST_CALLERS};
ghost use Rattle.seg_locks.specs.Locks.{opened, IsDepth, IsLockIn, IsMuxLock, IsBelowHeld, holder_in, mark_at, kept_by, rank_in, with_holder, with_mark, with_kept};

use i2c_base::{LockId, MuxId, NoMemory};
use std::alloc::Global;
use std::marker::Model;

/// Another caller has the lock.
#[derive(Clone, Copy)]
pub struct Held {
    pub holder: u8,
}

/// The lock words of a board. A contract sees who has each lock, the mark of each bus, and what each mux has open.
#[derive(Drop)]
pub struct Locks {
    depths: Vec<u8>,
    roots: Vec<Option<u8>>,
    buses: Vec<Option<u8>>,
    marks: Vec<Option<MuxId>>,
    kept: Vec<Option<u8>>,
}

impl Model for Locks {
    ghost use Rattle.std.specs.Prelude.{◌≡◌, vec_len};
    ghost use Rattle.std.specs.List.{All};
    ghost use Rattle.seg_locks.specs.Locks.{LocksView, IsDepth};

    ghost Value = { LocksView };

    ghost view = { λ l. record { depths = l.depths.items; roots = l.roots.items; buses = l.buses.items; marks = l.marks.items; kept = l.kept.items } };

    ghost invariant = { λ l. (vec_len l.buses ≡ vec_len l.depths) × (vec_len l.marks ≡ vec_len l.depths) × All IsDepth l.depths.items };
}

impl Locks {
    /// The locks of a board with so many roots and muxes, whose buses have so many muxes over them. Nobody has one.
    pub fn open(alloc: Global, depths: &[u8], roots: u8, muxes: u8) -> Result<Self, NoMemory>
        requires deep { All IsDepth depths.now }
        ensures { IfOk result (λ l. l ≡ opened depths.now roots muxes) }
    {
        Ok(Locks {
            depths: depths.to_vec(alloc)?,
            roots: vec![in alloc; None; usize::from(roots)]?,
            buses: vec![in alloc; None; depths.len()]?,
            marks: vec![in alloc; None; depths.len()]?,
            kept: vec![in alloc; None; usize::from(muxes)]?,
        })
    }

    /// The caller who has the lock.
    pub fn holder(&self, lock: LockId) -> Option<u8>
        requires { IsLockIn self.now lock }
        ensures { result ≡ holder_in self.now lock }
    {
        match lock {
            LockId::Bus(root) => self.roots[usize::from(root.0)],
            LockId::Mux(bus) => self.buses[usize::from(bus.0)],
        }
    }

    /// The mux that may be open, which stands on the bus of the lock. The lock of a root has none.
    pub fn mark(&self, lock: LockId) -> Option<MuxId>
        requires { IsLockIn self.now lock }
        ensures { result ≡ mark_at self.now lock }
    {
        match lock {
            LockId::Bus(_) => None,
            LockId::Mux(bus) => self.marks[usize::from(bus.0)],
        }
    }

    /// The channel that a mux keeps open. A mux that the board doesn't have keeps none.
    pub fn kept(&self, mux: MuxId) -> Option<u8>
        ensures { result ≡ kept_by self.now mux }
    {
        self.kept.get(usize::from(mux.0)).copied().flatten()
    }

    /// The channel that each mux keeps open.
    pub fn kept_channels(&self) -> &[Option<u8>]
        ensures { result.now ≡ self.now.kept }
    {
        self.kept.as_slice()
    }

    /// The mark of each bus.
    pub fn marks(&self) -> &[Option<MuxId>]
        ensures { result.now ≡ self.now.marks }
    {
        self.marks.as_slice()
    }

    /// A caller takes its locks in falling rank.
    pub fn rank(&self, lock: LockId) -> u8
        requires { IsLockIn self.now lock }
        ensures { result ≡ rank_in self.now lock }
    {
        match lock {
            LockId::Bus(_) => 0,
            LockId::Mux(bus) => self.depths[usize::from(bus.0)] + 1,
        }
    }

    /// Gives a free lock to the caller, and answers its mark; or tells who has it.
    pub fn take(&mut self, caller: u8, lock: LockId) -> Result<Option<MuxId>, Held>
        requires there { IsLockIn self.old lock }
        requires caller { caller < MOST_CALLERS }
        requires below { IsBelowHeld self.old caller lock }

        ensures free { OnOk result (holder_in self.old lock ≡ None) }
        ensures mark { IfOk result (λ m. m ≡ mark_at self.old lock) }
        ensures taken { OnOk result (self.new ≡ with_holder self.old lock (Some caller)) }

        // The refusal tells the holder, and leaves all locks as they were.
        ensures held { IfErr result (λ h. holder_in self.old lock ≡ Some h.holder) }
        ensures err { OnErr result (self.new ≡ self.old) }
    {
        match lock {
            LockId::Bus(root) => {
                occupy(&mut self.roots[usize::from(root.0)], caller)?;
                Ok(None)
            }
            LockId::Mux(bus) => {
                occupy(&mut self.buses[usize::from(bus.0)], caller)?;
                Ok(self.marks[usize::from(bus.0)])
            }
        }
    }

    /// The caller gives its lock back. The mark stays.
    pub fn free(&mut self, caller: u8, lock: LockId)
        requires there { IsLockIn self.old lock }
        requires caller { caller < MOST_CALLERS }
        requires held { holder_in self.old lock ≡ Some caller }
        ensures { self.new ≡ with_holder self.old lock None }
    {
        self.set_holder(lock, None);
    }

    /// The caller, who has the lock of the muxes on a bus, says which of them may be open.
    pub fn set_mark(&mut self, caller: u8, lock: LockId, mark: Option<MuxId>)
        requires there { IsLockIn self.old lock }
        requires caller { caller < MOST_CALLERS }
        requires held { holder_in self.old lock ≡ Some caller }
        requires mux { IsMuxLock lock }
        ensures { self.new ≡ with_mark self.old lock mark }
    {
        match lock {
            LockId::Bus(_) => {}
            LockId::Mux(bus) => self.marks[usize::from(bus.0)] = mark,
        }
    }

    /// The caller, who has the lock of the muxes on the bus of a mux, says which channel that one has open from now on.
    pub fn set_kept(&mut self, caller: u8, lock: LockId, mux: MuxId, channel: Option<u8>)
        requires there { IsLockIn self.old lock }
        requires caller { caller < MOST_CALLERS }
        requires held { holder_in self.old lock ≡ Some caller }
        requires mux { IsMuxLock lock }
        ensures { self.new ≡ with_kept self.old mux channel }
    {
        if let Some(word) = self.kept.get_mut(usize::from(mux.0)) {
            *word = channel;
        }
    }

    fn set_holder(&mut self, lock: LockId, holder: Option<u8>)
        requires { IsLockIn self.old lock }
        ensures { self.new ≡ with_holder self.old lock holder }
    {
        match lock {
            LockId::Bus(root) => self.roots[usize::from(root.0)] = holder,
            LockId::Mux(bus) => self.buses[usize::from(bus.0)] = holder,
        }
    }
}

// The word of a free lock names the caller from now on.
fn occupy(word: &mut Option<u8>, caller: u8) -> Result<(), Held>
    ensures free { OnOk result ((word.old ≡ None) × (word.new ≡ Some caller)) }
    ensures held { IfErr result (λ h. word.old ≡ Some h.holder) }
    ensures err { OnErr result (word.new ≡ word.old) }
{
    match *word {
        Some(holder) => Err(Held { holder }),
        None => {
            *word = Some(caller);
            Ok(())
        }
    }
}
