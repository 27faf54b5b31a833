//! Whether translators are a map of a board: the first fault, translator by translator.
ghost use Rattle.std.specs.Prelude.{◌≡◌, ◌&&◌, ◌||◌, ◌==◌, not, [], ◌≤◌, length};
ghost use Rattle.std.specs.List.{list_all, list_any};
ghost use Rattle.i2c_spec.specs.Tree.{buses};
ghost use Rattle.addr_atr.specs.Lowering.{is_gpio, is_smbus, is_child, is_single, is_named, is_parent_bus, may_translate, is_paired, are_distinct, has_child, is_served, are_pairs_of, fault_after};

use crate::fault::MapFault;
use crate::map::Translator;
use i2c_base::{Addr, AliasPair, DeviceKind, DeviceSpec, MuxId, MuxKind, SegId};
use i2c_board::Board;

fn is_gpio(kind: MuxKind) -> bool
    ensures { result ≡ is_gpio kind }
{
    matches!(kind, MuxKind::Gpio)
}

fn is_smbus(kind: DeviceKind) -> bool
    ensures { result ≡ is_smbus kind }
{
    matches!(kind, DeviceKind::Smbus { .. })
}

// A bus is a child of the mux.
fn is_child(board: &Board, mux: MuxId, seg: SegId) -> bool
    ensures { result ≡ is_child board.now mux seg }
{
    match board.layout().over(seg) {
        Some(hop) => hop.mux == mux,
        None => false,
    }
}

// The mux is a gpio with one channel.
fn is_single(board: &Board, mux: MuxId) -> bool
    ensures { result ≡ is_single board.now mux }
{
    match board.muxes().get(usize::from(mux.0)) {
        Some(spec) => is_gpio(spec.kind) && spec.channels == 1,
        None => false,
    }
}

// One of these translators is of the mux.
fn is_named(before: &[Translator], mux: MuxId) -> bool
    ensures { result ≡ is_named before.now mux }
{
    before.iter().any(|translator| translator.mux == mux)
}

// A mux stands on a child of the mux.
fn is_parent_bus(board: &Board, mux: MuxId) -> bool
    ensures { result ≡ is_parent_bus board.now mux }
{
    board
        .muxes()
        .iter()
        .any(|spec| is_child(board, mux, spec.bus))
}

fn may_translate(board: &Board, before: &[Translator], mux: MuxId) -> bool
    ensures { result ≡ may_translate board.now before.now mux }
{
    is_single(board, mux) && !is_named(before, mux) && !is_parent_bus(board, mux)
}

fn is_paired(pairs: &[AliasPair], addr: Addr) -> bool
    ensures { result ≡ is_paired pairs.now addr }
{
    pairs.iter().any(|pair| pair.addr == addr)
}

// No address stands in two of the pairs.
#[tactic(auto, using(crate::proofs::CheckLemmas::distinct_more))]
fn are_distinct(pairs: &[AliasPair]) -> bool
    ensures { result ≡ are_distinct pairs.now }
{
    for index in 0..pairs.len() {
        if is_paired(&pairs[index + 1..], pairs[index].addr) {
            return false;
        }
    }
    true
}

// A device on a child of the mux has the address.
fn has_child(board: &Board, mux: MuxId, addr: Addr) -> bool
    ensures { result ≡ has_child board.now mux addr }
{
    board.devices().iter().any(|device| is_child(board, mux, device.bus) && device.addr == addr)
}

// The device isn't on a child of the mux, or it has a pair and keeps no address of its own.
fn is_served(board: &Board, translator: &Translator, device: &DeviceSpec) -> bool
    ensures { result ≡ is_served board.now translator.now device.now }
{
    !is_child(board, translator.mux, device.bus)
        || (is_paired(&translator.pairs, device.addr) && !is_smbus(device.kind))
}

fn each_has_child(board: &Board, translator: &Translator) -> bool
    ensures { result ≡ list_all (λ p. has_child board.now translator.now.mux p.addr) translator.now.pairs }
{
    translator
        .pairs
        .iter()
        .all(|pair| has_child(board, translator.mux, pair.addr))
}

fn each_is_served(board: &Board, translator: &Translator) -> bool
    ensures { result ≡ list_all (is_served board.now translator.now) board.now.devices }
{
    board
        .devices()
        .iter()
        .all(|device| is_served(board, translator, device))
}

// The addresses of its pairs are those of the devices on the child bus, each once, and none of these is an smbus device.
fn are_pairs_of(board: &Board, translator: &Translator) -> bool
    ensures { result ≡ are_pairs_of board.now translator.now }
{
    each_has_child(board, translator)
        && each_is_served(board, translator)
        && are_distinct(&translator.pairs)
}

/// The first fault of these translators as a map of the board.
#[tactic(auto, using(crate::proofs::CheckLemmas::fault_more))]
pub(crate) fn map_fault(board: &Board, translators: &[Translator]) -> Option<MapFault>
    requires few { length translators.now ≤ 32 }
    ensures { result ≡ fault_after board.now [] translators.now }
{
    for index in 0..translators.len() {
        let translator = &translators[index];
        if !may_translate(board, &translators[..index], translator.mux) {
            return Some(MapFault::Mux(index as u16));
        }
        if !are_pairs_of(board, translator) {
            return Some(MapFault::Pairs(index as u16));
        }
    }
    None
}
