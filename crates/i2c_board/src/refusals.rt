//! Why a transfer is refused without any step on the bus.
ghost use Rattle.std.specs.Prelude.{◌≡◌, ◌<◌, OnSome, Some, None, if◌then◌else◌};
ghost use Rattle.i2c_base.specs.declared.errno.Errno.TheVariants as errno;
ghost use Rattle.i2c_spec.specs.Flat as spec;
ghost use Rattle.i2c_spec.specs.Grant.{is_busy};
ghost use Rattle.i2c_board.specs.Layouts.{board_of};
ghost use Rattle.i2c_spec.specs.Plain.{IsPlainBoard};
ghost use Rattle.i2c_spec.specs.Tree.{buses};

use crate::Layout;
use i2c_base::{Errno, Grant, SegId, Transfer, TransferKind};

/// Why a transfer is refused without any step on the bus: ENODEV where the board lacks its bus, EOPNOTSUPP where it is
/// plain and its root offers SMBus calls alone, EBUSY where the address of one of its messages is busy; else none.
pub fn refusal(layout: &Layout<'_>, transfer: &Transfer) -> Option<Errno>
    requires { IsPlainBoard (board_of layout.now) }
    ensures { result ≡ spec.refusal (board_of layout.now) transfer.now }
{
    if let Some(errno) = bus_refusal(layout, transfer) {
        return Some(errno);
    }
    is_any_busy(layout, transfer).then_some(Errno::Ebusy)
}

/// Why it is refused whatever its addresses are: ENODEV and EOPNOTSUPP; else none.
pub fn bus_refusal(layout: &Layout<'_>, transfer: &Transfer) -> Option<Errno>
    requires { IsPlainBoard (board_of layout.now) }
    ensures some { OnSome result (spec.refusal (board_of layout.now) transfer.now ≡ result) }
    ensures on_bus { result ≡ None → transfer.now.bus < buses (board_of layout.now) }
    ensures none { result ≡ None → spec.refusal (board_of layout.now) transfer.now ≡ (if spec.is_any_busy (board_of layout.now) transfer.now then Some errno.Ebusy else None) }
{
    if transfer.bus() >= layout.buses() {
        return Some(Errno::Enodev);
    }
    if matches!(transfer.kind(), TransferKind::Plain)
        && is_smbus_only(layout, layout.root(SegId(transfer.bus())))
    {
        return Some(Errno::Eopnotsupp);
    }
    None
}

// The root offers SMBus calls alone.
fn is_smbus_only(layout: &Layout<'_>, root: SegId) -> bool
    ensures { result ≡ spec.is_smbus_only (board_of layout.now) root }
{
    match layout.roots.get(root.0 as usize) {
        Some(spec) => spec.smbus_only,
        None => false,
    }
}

// The address of one of the messages is busy.
fn is_any_busy(layout: &Layout<'_>, transfer: &Transfer) -> bool
    requires { IsPlainBoard (board_of layout.now) }
    ensures { result ≡ spec.is_any_busy (board_of layout.now) transfer.now }
{
    let bus = SegId(transfer.bus());
    let force = transfer.force();
    transfer
        .msgs()
        .iter()
        .any(|msg| is_busy(layout.grant(bus, msg.addr, force)))
}

fn is_busy(grant: Grant) -> bool
    ensures { result ≡ is_busy grant }
{
    match grant {
        Grant::Busy => true,
        Grant::Named(_) | Grant::Nobody => false,
    }
}
