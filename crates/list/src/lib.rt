// The list of a stop: at most k places, sorted, from an index of the three slices on. There are three, and not one of
// places, since C lends them so.
#![tactic(auto)]

pub mod clear;

ghost use Rattle.std.specs.Prelude.{◌≡◌, List, [], ◌∷◌, ℕ, ◌+◌, ◌<◌, ◌≤◌, length};
ghost use Rattle.search.specs.Inner.Cut.{last_ahead};
ghost use Rattle.list.specs.Slices.{lists, place_at};
ghost use Rattle.list.specs.Inner.Keeping.{places, put, with_place, Ready, Adds};

use search::{Place, ahead_of_key, ranks_before};

// The place at index i.
fn place_at(dist: &[u64], site: &[u32], cue: &[u32], i: usize) -> Place
    requires { (i < length dist.now) × (i < length site.now) × (i < length cue.now) }
    ensures { result ≡ place_at (lists dist.now site.now cue.now) i }
{
    Place {
        dist: dist[i],
        site: site[i],
        cue: cue[i],
    }
}

// Of n sorted places from index at on, moves those one up that do not rank before x: where it leaves the gap for x.
fn make_gap(
    dist: &mut [u64],
    site: &mut [u32],
    cue: &mut [u32],
    at: usize,
    n: usize,
    x: Place,
) -> usize
    requires { Ready (lists dist.old site.old cue.old) at n (n + 1) }
    ensures gap { result ≤ n }
    ensures filled { put (lists dist.new site.new cue.new) (at + result) x
        ≡ with_place (lists dist.old site.old cue.old) at n x }
{
    for left in (0..n).rev() {
        let i = at + left;
        let y = place_at(dist, site, cue, i);
        if ranks_before(y, x) {
            return left + 1;
        }
        dist[i + 1] = y.dist;
        site[i + 1] = y.site;
        cue[i + 1] = y.cue;
    }
    0
}

// Puts x into n sorted places from index at on, which become n + 1.
fn put_place(dist: &mut [u64], site: &mut [u32], cue: &mut [u32], at: usize, n: usize, x: Place)
    requires { Ready (lists dist.old site.old cue.old) at n (n + 1) }
    ensures { lists dist.new site.new cue.new
        ≡ with_place (lists dist.old site.old cue.old) at n x }
{
    let gap = make_gap(dist, site, cue, at, n, x);
    let i = at + gap;
    dist[i] = x.dist;
    site[i] = x.site;
    cue[i] = x.cue;
}

// Puts x into the used places of a sorted list of at most k from index at on: the number of places used then. A full
// list whose last place ranks before x stays as it is, and else its last place falls off.
pub fn insert_place(
    dist: &mut [u64],
    site: &mut [u32],
    cue: &mut [u32],
    at: usize,
    used: usize,
    k: usize,
    x: Place,
) -> usize
    requires { Ready (lists dist.old site.old cue.old) at used k }
    ensures { Adds (lists dist.old site.old cue.old) at used k (x ∷ []) result
        (lists dist.new site.new cue.new) }
{
    if used < k {
        put_place(dist, site, cue, at, used, x);
        return used + 1;
    }
    let others = k - 1;
    let last = place_at(dist, site, cue, at + others);
    if ranks_before(last, x) {
        return used;
    }
    put_place(dist, site, cue, at, others, x);
    used
}

// The list is full, and its last place is ahead of the key of a tile: its least distance, then its number.
pub fn last_ahead(
    dist: &[u64],
    site: &[u32],
    at: usize,
    used: usize,
    k: usize,
    least: u64,
    tile: u32,
) -> bool
    requires { (0 < k) × (used ≤ k) × (at + k ≤ length dist.now) × (at + k ≤ length site.now) }
    ensures { (cs : List ℕ) → result
        ≡ last_ahead k (places (lists dist.now site.now cs) at used) least tile }
{
    if used < k {
        return false;
    }
    let last = at + (k - 1);
    let x = Place {
        dist: dist[last],
        site: site[last],
        cue: 0,
    };
    ahead_of_key(x, least, tile)
}
