// Opening a tile, and its sites, read in place.
ghost use Rattle.std.specs.Prelude.{◌≡◌, ◌+◌, ◌*◌, ◌<◌, ◌≤◌, length, take};
ghost use Rattle.base.specs.Answer.{outcome_of};
ghost use Rattle.base.specs.Refusal.{accepted};
ghost use Rattle.base.specs.Every.{every};
ghost use Rattle.codec.specs.Number.{limit16};
ghost use Rattle.geometry.specs.Axes.{KnownAxes};
ghost use Rattle.blocks.specs.Layout.{block_size, payload_at, site_size, max_sites};
ghost use Rattle.blocks.specs.Directory.{directory};
ghost use Rattle.tiles.specs.Tile.{site_offset, site_in, tile_padding, site_inside, tile_block, tile_position};
ghost use Rattle.tiles.specs.Tile.{muted_in, open_tile};

use base::{Reason, Refusal, both};
use blocks::header::Header;
use blocks::{block, directory, layout};
use codec::reading::{i32_at, u16_at, u32_at, zeros};
use geometry::limits::inside;

// The cue of a muted site: 02.1 has it as this number, in the bytes of the file.
pub const MUTED_CUE: u32 = 0;

#[tactic(auto, unfolding(crate::specs::Tile::site_offset))]
pub fn site_offset(axes: usize, slot: usize) -> usize
    requires { KnownAxes axes × (slot ≤ max_sites axes) }
    ensures { (result ≡ site_offset axes slot) × (result ≡ payload_at + site_size axes * slot) }
{
    layout::PAYLOAD_AT + layout::site_size(axes) * slot
}

// The point of the site of a slot of a tile's block: its first axes count.
pub fn point_in(axes: usize, s: &[u8], slot: usize) -> [i32; 3]
    requires { KnownAxes axes × (slot < max_sites axes) × (length s.now ≡ block_size) }
    ensures { take axes result ≡ (site_in axes s.now slot).point }
{
    let at = site_offset(axes, slot);
    let x = i32_at(s, at);
    let y = i32_at(s, at + 4);
    if axes == layout::HEIGHT {
        [x, y, i32_at(s, at + 8)]
    } else {
        [x, y, 0]
    }
}

// The cue of the site of a slot.
#[tactic(auto, unfolding(crate::specs::Tile::site_in))]
pub fn cue_in(axes: usize, s: &[u8], slot: usize) -> u32
    requires { KnownAxes axes × (slot < max_sites axes) × (length s.now ≡ block_size) }
    ensures { result ≡ (site_in axes s.now slot).cue }
{
    u32_at(s, site_offset(axes, slot) + layout::cue_offset(axes))
}

// How many of the first n sites are muted, counted without a branch.
fn muted_in(axes: usize, s: &[u8], n: usize) -> usize
    requires { KnownAxes axes × (n ≤ max_sites axes) × (length s.now ≡ block_size) }
    ensures { result ≡ muted_in axes s.now n }
{
    let mut muted: usize = 0;
    for slot in 0..n {
        muted += (cue_in(axes, s, slot) == MUTED_CUE) as usize;
    }
    muted
}

// Test 8, of a tile with n sites.
#[tactic(auto, unfolding(crate::specs::Tile::tile_padding))]
fn tile_padding(axes: usize, s: &[u8], n: usize) -> bool
    requires { KnownAxes axes × (n ≤ max_sites axes) × (length s.now ≡ block_size) }
    ensures { result ≡ tile_padding axes s.now n }
{
    let used = site_offset(axes, n);
    both(
        zeros(s, layout::TILES_AT, layout::PAYLOAD_AT),
        zeros(s, used, layout::CHECK_AT),
    )
}

// Test 10 of one site.
#[tactic(auto, unfolding(crate::specs::Tile::site_inside))]
fn site_inside(axes: usize, bounds: [[i32; 2]; 3], s: &[u8], slot: usize) -> bool
    requires { KnownAxes axes × (slot < max_sites axes) × (length s.now ≡ block_size) }
    ensures { result ≡ site_inside axes (take axes bounds) s.now slot }
{
    inside(axes, bounds, point_in(axes, s, slot))
}

#[tactic(auto, unfolding(base::specs::Every::every))]
fn sites_inside(axes: usize, bounds: [[i32; 2]; 3], s: &[u8], n: usize) -> bool
    requires { KnownAxes axes × (n ≤ max_sites axes) × (length s.now ≡ block_size) }
    ensures { result ≡ every (site_inside axes (take axes bounds) s.now) n }
{
    let mut all = true;
    for slot in 0..n {
        all = both(all, site_inside(axes, bounds, s, slot));
    }
    all
}

// A tile's block, by box, count and muted number of its entry: the first test that fails decides.
fn tile_block(
    axes: usize,
    s: &[u8],
    p: usize,
    bounds: [[i32; 2]; 3],
    count: usize,
    muted: usize,
) -> Result<usize, Refusal>
    requires { KnownAxes axes × (length s.now ≡ block_size) × (p < limit16) × (count ≤ max_sites axes) }
    ensures { outcome_of result ≡ tile_block axes s.now p (take axes bounds) count muted }
{
    if let Err(reason) = block::start_tests(s, layout::tile_kind(axes)) {
        return Err(reason.at(p));
    }
    if u16_at(s, layout::POSITION_AT) != p {
        return Err(Reason::Position.at(p));
    }
    if u16_at(s, layout::ENTRIES_AT) != count {
        return Err(Reason::Entries.at(p));
    }
    if !tile_padding(axes, s, count) {
        return Err(Reason::Padding.at(p));
    }
    if !sites_inside(axes, bounds, s, count) {
        return Err(Reason::Stray.at(p));
    }
    if muted_in(axes, s, count) != muted {
        return Err(Reason::Muted.at(p));
    }
    Ok(count)
}

// Where tile t stands, of a file whose directory is accepted.
pub fn tile_position(f: &[u8], h: Header, t: usize) -> usize
    requires { (directory f.now ≡ accepted h) × (t < h.tiles) }
    ensures { (result ≡ tile_position h t) × (result < limit16) × (block_size * result + block_size ≤ length f.now) }
{
    directory::directory_blocks(h) + t
}

// Opens tile t of a file whose directory is accepted: the number of its sites, or the first refusal.
pub fn open_tile(f: &[u8], h: Header, t: usize) -> Result<usize, Refusal>
    requires { (directory f.now ≡ accepted h) × (t < h.tiles) }
    ensures { outcome_of result ≡ open_tile f.now h t }
{
    let p = tile_position(f, h, t);
    let bounds = directory::box_at(f, h, t);
    let count = directory::count_at(f, h, t);
    let muted = directory::muted_at(f, h, t);
    tile_block(h.axes, block::block_at(f, p), p, bounds, count, muted)
}
