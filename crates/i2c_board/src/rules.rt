//! The topology rules of a board, and its acceptance: the board, or the first rule that it breaks.

ghost use Rattle.std.specs.Prelude.{◌≡◌, ◌↔◌, IsOk, IfOk, IfErr};
ghost use Rattle.i2c_spec.specs.Rules.{MeetsRules, TellsBroken};

use crate::{Accepted, Board};
use i2c_base::RuleBroken;

/// The same board, accepted; or the first rule that it breaks, with the two items at fault. The rules are asked
/// in this order, after the warnings of Linux i2c-topology. Items are the muxes in file order, then the devices.
///
/// 1. No address stands twice on one bus, nor on a bus and on one above it. The chip of a mux counts, one that is
///    absent too. Told are the two that clash: the pair with the least first item, then with the least second.
/// 2. No bus has more than 4 muxes over it. Told is the first mux whose channels have, twice.
/// 3. No parent-locked mux stands below a mux-locked one, which would not hold the root for it over select, transfer
///    and deselect. Told are the mux-locked mux nearest the root, and the first parent-locked one that stands below one.
/// 4. Gpio muxes and arbitrators are parent-locked. Told is the first one that isn't, twice.
/// 5. A mux that stays as it is when idle is a pca9548, pca9546 or pca9544, and no item below it, on a bus behind its
///    channels or under such a bus, has the address of an item of the same root that isn't: its channel may be open while
///    that one is spoken to. Told is the first one that breaks this; with it the mux again where its kind is another, else
///    the first item below it whose address stands outside.
///
/// It takes no memory. A refused board is dropped.
#[tactic(auto, using(crate::proofs::BrokenLemmas::broken_breaks))]
pub fn accept(board: Board) -> Result<Accepted, RuleBroken>
    ensures accepted { IsOk result ↔ MeetsRules board }
    ensures same { IfOk result (λ a. a ≡ board) }
    ensures broken { IfErr result (λ r. TellsBroken board r) }
{
    match board.layout().first_broken() {
        Some(broken) => Err(broken),
        None => Ok(Accepted::seal(board)),
    }
}
