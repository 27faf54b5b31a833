//! An accepted board whose grants are decided once each.
ghost use Rattle.std.specs.Prelude.{◌≡◌, ◌<◌, IfOk, IfSome, vec_len, All};
ghost use Rattle.i2c_base.specs.Board.{BoardView};
ghost use Rattle.i2c_board.specs.Grants.{AreKnown};
ghost use Rattle.i2c_spec.specs.Flat as flat;
ghost use Rattle.i2c_spec.specs.Grant.{grant_of};
ghost use Rattle.i2c_spec.specs.Rules.{MeetsRules};
ghost use Rattle.i2c_spec.specs.Tree.{buses};

use crate::refusals::bus_refusal;
use crate::{Accepted, Board};
use i2c_base::{Addr, Errno, Grant, NoMemory, SegId, Transfer};
use std::alloc::Global;
use std::marker::Model;

/// How many grants are kept.
const CELLS: usize = 512;

/// A grant that was asked for: that of an address on a bus, forced or not.
#[derive(Clone, Copy)]
pub struct Known {
    bus: u16,
    addr: Addr,
    force: bool,
    grant: Grant,
}

/// An accepted board that keeps the grants of the transfers that it was asked about: each is the board's, and stays until
/// another comes to its place. A contract sees the board.
#[derive(Drop)]
pub struct CachedBoard<'b> {
    board: &'b Accepted,
    known: Vec<Option<Known>>,
}

impl<'b> Model for CachedBoard<'b> {
    ghost use Rattle.std.specs.Prelude.{vec_len, ◌≡◌};
    ghost use Rattle.std.specs.List.{All};
    ghost use Rattle.i2c_base.specs.Board.{BoardView};
    ghost use Rattle.i2c_board.specs.Grants.{AreKnown};

    ghost Value = { BoardView };

    ghost view = { λ c. c.board.now };

    ghost invariant = { λ c. (vec_len c.known ≡ 512) × All (AreKnown c.board.now) c.known.items };
}

// The cell of an address on a bus: the 128 addresses of a bus have cells in a row, and those of a bus and of the next two
// share none.
#[inline(always)]
fn cell_of(bus: u16, addr: Addr) -> usize
    ensures { result < 512 }
{
    usize::from(bus.wrapping_mul(131).wrapping_add(u16::from(addr.get())) % 512)
}

// Puts a grant at a place.
#[tactic(auto, using(crate::proofs::KnownLemmas::all_set))]
fn put(
    known: &mut Vec<Option<Known>>,
    place: usize,
    bus: u16,
    addr: Addr,
    force: bool,
    grant: Grant,
)
    requires { place < vec_len known.old }
    ensures len { vec_len known.new ≡ vec_len known.old }
    ensures kept { (b : BoardView) → grant ≡ grant_of b bus addr force → All (AreKnown b) known.old.items → All (AreKnown b) known.new.items }
{
    let it = Known {
        bus,
        addr,
        force,
        grant,
    };
    known[place] = Some(it);
}

impl<'b> CachedBoard<'b> {
    /// No grant was asked for yet. From here on it takes no memory.
    pub fn open(alloc: Global, board: &'b Accepted) -> Result<Self, NoMemory>
        ensures { IfOk result (λ c. c ≡ board.now) }
    {
        // The kit plans a generic call at `Known` only where it meets each type that it is made of.
        let _made_of: Option<(Addr, Grant)> = None;
        let nothing: Option<Known> = None;
        let known = vec![in alloc; nothing; CELLS]?;
        Ok(CachedBoard { board, known })
    }

    /// The board.
    pub fn accepted(&self) -> &'b Accepted
        ensures { result.now ≡ self.now }
    {
        self.board
    }

    /// .. and its parts and tree.
    pub fn board(&self) -> &'b Board
        ensures value { result.now ≡ self.now }
        ensures rules { MeetsRules self.now }
    {
        self.board.board()
    }

    // The grant at a place, where it is the one of this address.
    #[inline(always)]
    fn kept(&self, place: usize, bus: u16, addr: Addr, force: bool) -> Option<Grant>
        requires { place < 512 }
        ensures { IfSome result (λ g. g ≡ grant_of self.now bus addr force) }
    {
        let known = self.known[place]?;
        if known.bus == bus && known.addr == addr && known.force == force {
            Some(known.grant)
        } else {
            None
        }
    }

    /// To whom an address on a bus leads.
    #[inline(always)]
    pub fn grant(&self, bus: u16, addr: Addr, force: bool) -> Grant
        requires { bus < buses self.now }
        ensures { result ≡ grant_of self.now bus addr force }
    {
        match self.kept(cell_of(bus, addr), bus, addr, force) {
            Some(grant) => grant,
            None => self.board().grant(SegId(bus), addr, force),
        }
    }

    // Decides a grant, and keeps it at a place.
    #[inline(never)]
    fn decide(&mut self, place: usize, bus: u16, addr: Addr, force: bool) -> Grant
        requires place { place < 512 }
        requires bus { bus < buses self.old }
        ensures grant { result ≡ grant_of self.old bus addr force }
        ensures board { self.new ≡ self.old }
    {
        let grant = self.board.board().grant(SegId(bus), addr, force);
        let same = grant;
        put(&mut self.known, place, bus, addr, force, same);
        grant
    }

    // To whom an address on a bus leads, kept from now on.
    #[inline(always)]
    fn learn(&mut self, bus: u16, addr: Addr, force: bool) -> Grant
        requires { bus < buses self.old }
        ensures grant { result ≡ grant_of self.old bus addr force }
        ensures board { self.new ≡ self.old }
    {
        let place = cell_of(bus, addr);
        match self.kept(place, bus, addr, force) {
            Some(grant) => grant,
            None => self.decide(place, bus, addr, force),
        }
    }

    // The address of one of the messages of a transfer is busy.
    fn is_any_busy(&mut self, transfer: &Transfer) -> bool
        requires { transfer.now.bus < buses self.old }
        ensures value { result ≡ flat.is_any_busy self.old transfer.now }
        ensures board { self.new ≡ self.old }
    {
        let bus = transfer.bus();
        let force = transfer.force();
        for msg in transfer.msgs() {
            if matches!(self.learn(bus, msg.addr, force), Grant::Busy) {
                return true;
            }
        }
        false
    }

    /// Why a transfer is refused without any step on the bus: ENODEV where the board lacks its bus, EOPNOTSUPP where it is
    /// plain and its root offers SMBus calls alone, EBUSY where the address of one of its messages is busy; else none.
    pub fn refusal(&mut self, transfer: &Transfer) -> Option<Errno>
        ensures value { result ≡ flat.refusal self.old transfer.now }
        ensures board { self.new ≡ self.old }
    {
        if let Some(errno) = bus_refusal(&self.board.board().layout(), transfer) {
            return Some(errno);
        }
        self.is_any_busy(transfer).then_some(Errno::Ebusy)
    }
}
