//! Which register of a device a transfer reads or writes.
ghost use Rattle.std.specs.Prelude.{◌≡◌};
ghost use Rattle.cache_laws.specs.Cache as cache;
ghost use Rattle.cache_laws.specs.Cache.{is_kept, writes_just, reads_just};

use cache_laws::{Access, Pair};
use i2c_base::{Msg, Transfer};

// The register is one of those that are kept.
fn is_kept(register: u8) -> bool
    ensures { result ≡ cache.is_kept register }
{
    register == 2 || register == 3
}

// It writes so many bytes.
fn writes_just(count: u16, msg: &Msg) -> bool
    ensures { result ≡ cache.writes_just count msg.now }
{
    !msg.is_read() && msg.len == count
}

// It reads so many bytes.
fn reads_just(count: u16, msg: &Msg) -> bool
    ensures { result ≡ cache.reads_just count msg.now }
{
    msg.is_read() && (!msg.is_counted() && msg.len == count)
}

/// The register that a transfer reads or writes, if it does no more than that.
pub fn access_of(transfer: &Transfer) -> Option<Access>
    ensures { result ≡ cache.access_of transfer.now }
{
    if !transfer.force() {
        return None;
    }
    match transfer.msgs() {
        [write] => match transfer.out() {
            [register, high, low] => {
                if writes_just(3, write) && is_kept(*register) {
                    Some(Access {
                        bus: transfer.bus(),
                        addr: write.addr,
                        register: *register,
                        sent: Some(Pair {
                            high: *high,
                            low: *low,
                        }),
                    })
                } else {
                    None
                }
            }
            _ => None,
        },
        [write, read] => match transfer.out() {
            [register] => {
                if writes_just(1, write)
                    && (reads_just(2, read) && (write.addr == read.addr && is_kept(*register)))
                {
                    Some(Access {
                        bus: transfer.bus(),
                        addr: write.addr,
                        register: *register,
                        sent: None,
                    })
                } else {
                    None
                }
            }
            _ => None,
        },
        _ => None,
    }
}
