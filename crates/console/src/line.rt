// The lines of the program's output. A number takes at most 20 bytes: a place at most 44, a stop 27 and its places.
ghost use Rattle.std.specs.Prelude.{◌+◌, ◌*◌, ◌≤◌, length};
ghost use Rattle.base.specs.Tabulate.{joined};
ghost use Rattle.search.specs.Limits.{max_k};
ghost use Rattle.console.specs.Inner.Room.{distance_room, place_room, counts_room, words_room, stop_room};
ghost use Rattle.console.specs.Inner.Room.{refused_room};
ghost use Rattle.console.specs.Line.{separator, place_text, places_text, stop_line, counts_line, refused_line};
ghost use Rattle.console.specs.Text.{labelled, Wrote};

use crate::text::{put_labelled, put_text};

// The distance of place j, after what parts it from the place before.
#[tactic(auto, using(crate::proofs::TextLaws::room_64))]
fn put_distance(out: &mut [u8], at: usize, j: usize, dist: u64) -> usize
    requires { at + distance_room ≤ length out.old }
    ensures text { Wrote out.old at (labelled (separator j) dist) out.new result }
    ensures end { result ≤ at + distance_room }
{
    if j == 0 {
        return put_labelled(out, at, b" ", dist);
    }
    put_labelled(out, at, b"; ", dist)
}

#[tactic(auto, using(crate::proofs::TextLaws::room_32))]
fn put_place(out: &mut [u8], at: usize, j: usize, dist: u64, site: u32, cue: u32) -> usize
    requires { at + place_room ≤ length out.old }
    ensures text { Wrote out.old at (place_text j dist site cue) out.new result }
    ensures end { result ≤ at + place_room }
{
    let after_dist = put_distance(out, at, j, dist);
    let after_site = put_labelled(out, after_dist, b" ", site as u64);
    put_labelled(out, after_site, b" ", cue as u64)
}

// The places of a stop, from an index of the three slices on.
fn put_places(
    out: &mut [u8],
    at: usize,
    dist: &[u64],
    site: &[u32],
    cue: &[u32],
    from: usize,
    used: usize,
) -> usize
    requires used_in_bounds { at + place_room * used ≤ length out.old }
    requires used_in_bounds_2 { (from + used ≤ length dist.now) × (from + used ≤ length site.now)
        × (from + used ≤ length cue.now) }
    ensures text { Wrote out.old at (places_text dist.now site.now
        cue.now from used) out.new result }
    ensures end { result ≤ at + place_room * used }
{
    let mut next = at;
    for j in 0..used {
        next = put_place(out, next, j, dist[from + j], site[from + j], cue[from + j]);
    }
    next
}

#[tactic(auto, using(crate::proofs::TextLaws::room_64))]
fn put_stop(
    out: &mut [u8],
    at: usize,
    dist: &[u64],
    site: &[u32],
    cue: &[u32],
    k: usize,
    used: usize,
    i: usize,
) -> usize
    requires used_in_bounds { at + words_room + place_room * used ≤ length out.old }
    requires used_in_bounds_2 { (i * k + used ≤ length dist.now) × (i * k + used ≤ length site.now)
        × (i * k + used ≤ length cue.now) }
    ensures text { Wrote out.old at (stop_line dist.now site.now
        cue.now k used i) out.new result }
    ensures end { result ≤ at + words_room + place_room * used }
{
    let after_number = put_labelled(out, at, b"stop ", i as u64);
    let after_colon = put_text(out, after_number, b":");
    let after_places = put_places(out, after_colon, dist, site, cue, i * k, used);
    put_text(out, after_places, b"\n")
}

// A line for each of n stops.
pub fn put_stops(
    out: &mut [u8],
    at: usize,
    dist: &[u64],
    site: &[u32],
    cue: &[u32],
    k: usize,
    used: usize,
    n: usize,
) -> usize
    requires n_in_bounds { (at + stop_room * n ≤ length out.old) × (used ≤ max_k) × (used ≤ k) }
    requires k_in_bounds { (n * k ≤ length dist.now) × (n * k ≤ length site.now) × (n * k ≤ length cue.now) }
    ensures text { Wrote out.old
        at (joined (stop_line dist.now site.now cue.now k used) 0 n)
        out.new result }
    ensures end { result ≤ at + stop_room * n }
{
    let mut next = at;
    for i in 0..n {
        next = put_stop(out, next, dist, site, cue, k, used, i);
    }
    next
}

#[tactic(auto, using(crate::proofs::TextLaws::room_32))]
pub fn put_counts(out: &mut [u8], at: usize, tiles: u32, opened: u32, pruned: u32) -> usize
    requires { at + counts_room ≤ length out.old }
    ensures text { Wrote out.old at (counts_line tiles opened pruned) out.new result }
    ensures end { result ≤ at + counts_room }
{
    let after_tiles = put_labelled(out, at, b"tiles ", tiles as u64);
    let after_opened = put_labelled(out, after_tiles, b" opened ", opened as u64);
    let after_pruned = put_labelled(out, after_opened, b" struck ", pruned as u64);
    put_text(out, after_pruned, b"\n")
}

#[tactic(auto, using(crate::proofs::TextLaws::room_32))]
pub fn put_refused(out: &mut [u8], at: usize, number: u32, block: u32) -> usize
    requires { at + refused_room ≤ length out.old }
    ensures text { Wrote out.old at (refused_line number block) out.new result }
    ensures end { result ≤ at + refused_room }
{
    let after_number = put_labelled(out, at, b"refused ", number as u64);
    let after_block = put_labelled(out, after_number, b" block ", block as u64);
    put_text(out, after_block, b"\n")
}
