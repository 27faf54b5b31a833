//! Which roots and callers belong together.
ghost use Rattle.std.specs.Prelude.{◌≡◌, ℕ, ◌<◌, ◌≤◌, List, length, map};
ghost use Rattle.std.specs.List.{range_with_len};
ghost use Rattle.bus_groups.specs.Homes.{names, names_home, least_home, brought, homes_of, caller_home, AreHomes};

use arrayvec::ArrayVec;

/// For each root, and for each caller, its home: the least root of its group.
#[derive(Drop)]
pub struct Homes {
    pub roots: ArrayVec<u8, 8>,
    pub callers: ArrayVec<u8, 8>,
}

/// The homes part the roots: roots that a caller names, also through others, have one home, and no parting is finer.
pub fn homes_part_the_roots()
    ensures { (roots : ℕ) (masks : List ℕ) → AreHomes roots masks (homes_of roots masks) }
{}

// Whether a caller whose roots are these bits names this root.
fn names(mask: u8, root: usize) -> bool
    requires { root < 8 }
    ensures { result ≡ names mask root }
{
    (mask >> root) % 2 == 1
}

// Whether it names a root of this home.
fn names_home(homes: &[u8], mask: u8, home: u8) -> bool
    requires { length homes.now ≤ 8 }
    ensures { result ≡ names_home homes.now mask home }
{
    for root in 0..homes.len() {
        if names(mask, root) && homes[root] == home {
            return true;
        }
    }
    false
}

// The least home of the roots that it names; the number of all roots where it names none.
fn least_home(homes: &[u8], mask: u8) -> u8
    requires { length homes.now ≤ 8 }
    ensures { result ≡ least_home homes.now mask }
{
    let mut low = homes.len() as u8;
    for root in 0..homes.len() {
        if names(mask, root) && homes[root] < low {
            low = homes[root];
        }
    }
    low
}

// The homes when it has brought all that it names under the least of them.
fn brought(homes: &[u8], mask: u8) -> ArrayVec<u8, 8>
    requires { length homes.now ≤ 8 }
    ensures { result.items ≡ brought homes.now mask }
{
    let low = least_home(homes, mask);
    let mut new = ArrayVec::new();
    for home in homes {
        new.push(if names_home(homes, mask, *home) {
            low
        } else {
            *home
        });
    }
    new
}

// The caller's home: that of its roots, or 0 where it names none.
fn caller_home(homes: &[u8], mask: u8) -> u8
    requires { length homes.now ≤ 8 }
    ensures { result ≡ caller_home homes.now mask }
{
    let low = least_home(homes, mask);
    if usize::from(low) < homes.len() {
        low
    } else {
        0
    }
}

// So many roots, each its own home.
fn own_homes(roots: u8) -> ArrayVec<u8, 8>
    requires { roots ≤ 8 }
    ensures { result.items ≡ range_with_len 0 roots }
{
    let mut homes = ArrayVec::new();
    for root in 0..roots {
        homes.push(root);
    }
    homes
}

/// The homes of so many roots, and of callers that name the roots whose bits their masks have. It takes no memory.
pub fn groups(roots: u8, masks: &[u8]) -> Homes
    requires few_roots { roots ≤ 8 }
    requires few { length masks.now ≤ 8 }
    ensures roots { result.roots.items ≡ homes_of roots masks.now }
    ensures callers { result.callers.items ≡ map (caller_home (homes_of roots masks.now)) masks.now }
{
    let mut homes = own_homes(roots);
    for mask in masks {
        homes = brought(&homes, *mask);
    }
    let mut callers = ArrayVec::new();
    for mask in masks {
        callers.push(caller_home(&homes, *mask));
    }
    Homes {
        roots: homes,
        callers,
    }
}
