//! The handles as they are stored: a slab of them, in which each has its number, and the key of each number.

ghost use Rattle.std.specs.Prelude.{◌≡◌, Some, option_copied, slice_get};
ghost use Rattle.slab.specs.Slab.{ContainsKey, Updates};
ghost use Rattle.dev_handle.specs.Stored.{at_key};

use crate::OpenHandle;
use slab::Slab;

/// A handle and its number. The slab gives the key of a closed handle to the next one, and the number tells them apart.
#[derive(Clone, Copy)]
pub struct Numbered {
    pub number: u32,
    pub handle: OpenHandle,
}

/// The handle that was opened under this number and is open still.
pub fn handle_at<'a>(
    slab: &'a Slab<Numbered>,
    keys: &[usize],
    number: u32,
) -> Option<&'a OpenHandle>
    ensures { option_copied result ≡ at_key number slab.now.slots (slice_get keys.now number) }
{
    let key = keys.get(number as usize)?;
    let found = slab.get(*key)?;
    if found.number == number {
        Some(&found.handle)
    } else {
        None
    }
}

/// Writes over what the slab has at a key.
pub fn write_at(slab: &mut Slab<Numbered>, key: usize, value: Numbered)
    requires { ContainsKey slab.old key }
    ensures { Updates slab.old slab.new key (Some value) }
{
    if let Some(place) = slab.get_mut(key) {
        *place = value;
    }
}
