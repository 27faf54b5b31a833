//! How a list with a fixed room is emptied.
ghost use Rattle.std.specs.Prelude.{◌≡◌, []};

use arrayvec::ArrayVec;

/// Empties a list. One element is taken off by itself, which costs less than to clear a stretch of them.
#[inline(always)]
pub fn empty<T: Copy + Default, const N: usize>(list: &mut ArrayVec<T, N>)
    ensures { list.new.items ≡ [] }
{
    if list.len() > 1 {
        list.clear();
    } else {
        let _ = list.pop();
    }
}
