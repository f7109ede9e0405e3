// The sites of a tile: how many rank, its opening, its block in place, the place of a slot, and whether it ranks.
ghost use Rattle.std.specs.Prelude.{true, ◌≡◌, ◌<◌, ◌≤◌, length, take};
ghost use Rattle.base.specs.Answer.{outcome_of};
ghost use Rattle.base.specs.Refusal.{accepted, and_then};
ghost use Rattle.blocks.specs.Layout.{block_size, max_sites};
ghost use Rattle.geometry.specs.Axes.{KnownAxes};
ghost use Rattle.geometry.specs.Box.{valid_point};
ghost use Rattle.search.specs.Plan.{slots, ranked};
ghost use Rattle.tiles.specs.Tile.{site_in};
ghost use Rattle.plan.specs.FilePlan.{cue_ranks, entries, opening_of, town_of};
ghost use Rattle.plan.specs.Inner.Seam.{TileOf, stop_of, ValidStop, Opens, Sited, BlockOf, site_place};

use crate::region::Stop;
use base::Refusal;
use blocks::header::Header;
use blocks::layout::{HEIGHT, PLAN};
use blocks::{block, directory};
use geometry::distance::squared_dist;
use search::Place;
use tiles::tile;

// How many sites of tile t rank.
pub fn ranked(f: &[u8], h: Header, t: usize) -> usize
    requires { TileOf f.now h t }
    ensures { (result ≡ ranked (entries f.now h) t) × (result ≤ slots) }
{
    directory::count_at(f, h, t) - directory::muted_at(f, h, t)
}

// How many sites tile t has.
pub fn count(f: &[u8], h: Header, t: usize) -> usize
    requires { TileOf f.now h t }
    ensures { (result ≡ length (town_of f.now h t)) × (result ≤ slots) }
{
    directory::count_at(f, h, t)
}

// Opens tile t: the number of its sites, or the first refusal.
pub fn open_tile(f: &[u8], h: Header, t: usize) -> Result<usize, Refusal>
    requires { TileOf f.now h t }
    ensures { outcome_of result ≡ and_then (opening_of f.now h t) (λ l. accepted (length l)) }
{
    tile::open_tile(f, h, t)
}

// The block of tile t, which opens, in place.
pub fn block_of(f: &[u8], h: Header, t: usize) -> &[u8]
    requires { TileOf f.now h t × Opens f.now h t }
    ensures { BlockOf f.now h t result.now (length (town_of f.now h t)) }
{
    block::block_at(f, tile::tile_position(f, h, t))
}

// The place of the site of a slot of a tile's block, under its number, for the stop p.
fn place_on(axes: usize, s: &[u8], slot: usize, number: u32, p: Stop) -> Place
    requires { KnownAxes axes × (slot < max_sites axes) × (length s.now ≡ block_size)
        × (valid_point (take axes p) ≡ true)
        × (valid_point (site_in axes s.now slot).point ≡ true) }
    ensures { result ≡ site_place (take axes p) number (site_in axes s.now slot) }
{
    let point = tile::point_in(axes, s, slot);
    let cue = tile::cue_in(axes, s, slot);
    Place {
        dist: squared_dist(axes, p, point),
        site: number,
        cue,
    }
}

// The same, of a block with n sites: compiled code has it twice, each with the number of axes as a constant.
pub fn place_in(h: Header, s: &[u8], n: usize, slot: usize, number: u32, p: Stop) -> Place
    requires { Sited h s.now n × (slot < n) × ValidStop h (stop_of h p) }
    ensures { result ≡ site_place (stop_of h p) number (site_in h.axes s.now slot) }
{
    if h.axes == HEIGHT {
        place_on(HEIGHT, s, slot, number, p)
    } else {
        place_on(PLAN, s, slot, number, p)
    }
}

// Whether a site with this cue ranks.
pub fn ranks(cue: u32) -> bool
    ensures { result ≡ cue_ranks cue }
{
    cue != tile::MUTED_CUE
}
