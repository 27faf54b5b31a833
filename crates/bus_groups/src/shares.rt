//! A list parted by the homes of its places, and put together again.
ghost use Rattle.std.specs.Prelude.{◌≡◌, ℕ, ◌<◌, ◌≤◌, List, [], length, map, sum_by, All, IfOk, vec_capacity};
ghost use Rattle.i2c_base.specs.Limits.{MOST_CALLS};
ghost use Rattle.bus_groups.specs.Shares.{cost_of_home, parts_by, joined_by};

use i2c_base::NoMemory;
use std::alloc::Global;

/// Parting a list and putting its parts together again gives the list: nothing is lost or moved.
pub fn parting_is_undone()
    ensures { (homes xs : List ℕ) (many : ℕ) → length xs ≡ length homes → All (λ h. h < many) homes → joined_by homes (parts_by homes many xs) ≡ xs }
{}

/// What the elements of a home cost, all together, by the homes and the costs of all places.
#[tactic(auto, using(crate::proofs::ShareLemmas::cost_within, crate::proofs::ShareLemmas::cost_here, crate::proofs::ShareLemmas::cost_elsewhere, crate::proofs::ShareLemmas::cost_over))]
pub fn cost_of_home(homes: &[u8], home: u8, costs: &[u32]) -> u32
    requires count { length costs.now ≡ length homes.now }
    requires fits { sum_by (λ n. n) costs.now ≤ MOST_CALLS }
    ensures { result ≡ cost_of_home homes.now home costs.now }
{
    let mut all = 0;
    for place in 0..costs.len() {
        if homes[place] == home {
            all += costs[place];
        }
    }
    all
}

// So many empty lists, with room for so many elements in each.
fn lists<X: Drop>(alloc: Global, many: usize, room: usize) -> Result<Vec<Vec<X>>, NoMemory>
    ensures count { IfOk result (λ parts. length parts.items ≡ many) }
    ensures empty { IfOk result (λ parts. All (λ part. part.items ≡ []) parts.items) }
    ensures room { IfOk result (λ parts. All (λ part. room ≤ vec_capacity part) parts.items) }
{
    let mut parts = Vec::with_capacity(alloc, many)?;
    for _part in 0..many {
        parts.push_reserved(Vec::with_capacity(alloc, room)?);
    }
    Ok(parts)
}

/// The elements of each of so many homes, by the homes of their places, in their order.
pub fn parted<X: Drop>(
    alloc: Global,
    homes: &[u8],
    many: usize,
    items: Vec<X>,
) -> Result<Vec<Vec<X>>, NoMemory>
    requires count { length items.items ≡ length homes.now }
    requires below { All (λ h. h < many) homes.now }
    ensures { IfOk result (λ parts. map (λ part. part.items) parts.items ≡ parts_by homes.now many items.items) }
{
    let mut parts = lists(alloc, many, homes.len())?;
    let mut place = 0;
    for item in items {
        let part = &mut parts[usize::from(homes[place])];
        part.push_reserved(item);
        place += 1;
    }
    Ok(parts)
}

/// The elements of the parts, each place's from the part of its home, in a list that has room for them. It takes no memory.
pub fn rejoined<X: Drop>(homes: &[u8], parts: Vec<Vec<X>>, room: Vec<X>) -> Vec<X>
    requires empty { room.items ≡ [] }
    requires room { length homes.now ≤ vec_capacity room }
    requires below { All (λ h. h < length parts.items) homes.now }
    ensures { result.items ≡ joined_by homes.now (map (λ part. part.items) parts.items) }
{
    let mut parts = parts;
    let mut all = room;
    for home in homes {
        let part = &mut parts[usize::from(*home)];
        if !part.is_empty() {
            all.push_reserved(part.remove(0));
        }
    }
    all
}
