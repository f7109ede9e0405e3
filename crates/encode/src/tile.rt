// The tiles: their blocks in order, each written once.
ghost use Rattle.std.specs.Prelude.{[], ◌∷◌, ◌≡◌, ℕ, ◌+◌, ◌*◌, ◌<◌, ◌≤◌, length, take};
ghost use Rattle.base.specs.Over.{over};
ghost use Rattle.base.specs.Tabulate.{joined};
ghost use Rattle.geometry.specs.Axes.{KnownAxes};
ghost use Rattle.blocks.specs.Directory.{directory_blocks};
ghost use Rattle.blocks.specs.Layout.{block_size, site_size, max_sites, max_tiles};
ghost use Rattle.encode.specs.Encode.{site_bytes, tile_bytes, tile_bytes_of, file_length};
ghost use Rattle.encode.specs.Supply.{header_of, count_of, site_total};

use crate::head::{put_checksum, put_head};
use crate::lists::header_of;
use blocks::directory::directory_blocks;
use blocks::layout;
use codec::writing::{put_i32, put_u32, put_zeros};
use tiles::tile::site_offset;

// The site lists, a column for each axis. Of plan towns the third column is not looked at; it is as long as the others.
#[derive(Clone, Copy)]
struct Sites<'a> {
    xs: &'a [i32],
    ys: &'a [i32],
    zs: &'a [i32],
    cues: &'a [u32],
}

// Site i of the lists.
fn put_site(d: &mut [u8], at: usize, axes: usize, sites: Sites, i: usize)
    requires { KnownAxes axes × (at + site_size axes ≤ length d.old) × (i < length sites.xs.now)
        × (i < length sites.ys.now) × (i < length sites.zs.now) × (i < length sites.cues.now) }
    ensures { let s = sites.entry in
        d.new ≡ over d.old at
        (site_bytes axes (take axes (s.xs.now ∷ s.ys.now ∷ s.zs.now ∷ [])) s.cues.now i) }
{
    put_i32(d, at, sites.xs[i]);
    put_i32(d, at + 4, sites.ys[i]);
    if axes == layout::HEIGHT {
        put_i32(d, at + 8, sites.zs[i]);
        put_u32(d, at + 12, sites.cues[i]);
    } else {
        put_u32(d, at + 8, sites.cues[i]);
    }
}

// n sites of the lists from site `first` on.
#[tactic(auto, using(base::proofs::Joined::joined_end))]
fn put_sites(d: &mut [u8], start: usize, axes: usize, sites: Sites, first: usize, n: usize)
    requires { KnownAxes axes × (start + site_size axes * n ≤ length d.old) × (first + n ≤ length sites.xs.now)
        × (first + n ≤ length sites.ys.now) × (first + n ≤ length sites.zs.now) × (first + n ≤ length sites.cues.now) }
    ensures { let s = sites.entry in
        d.new ≡ over d.old start
        (joined (site_bytes axes (take axes (s.xs.now ∷ s.ys.now ∷ s.zs.now ∷ [])) s.cues.now) first n) }
{
    let size = layout::site_size(axes);
    for i in 0..n {
        let at = start + size * i;
        put_site(d, at, axes, sites, first + i);
    }
}

// A tile's block at position p, with n sites of the lists from site `first` on.
#[tactic(auto, using(tiles::proofs::TileLaws::sites_end))]
fn put_tile(d: &mut [u8], p: usize, axes: usize, sites: Sites, first: usize, n: usize)
    requires { KnownAxes axes × (block_size * p + block_size ≤ length d.old) × (n ≤ max_sites axes)
        × (first + n ≤ length sites.xs.now) × (first + n ≤ length sites.ys.now) × (first + n ≤ length sites.zs.now)
        × (first + n ≤ length sites.cues.now) }
    ensures { let s = sites.entry in
        d.new ≡ over d.old (block_size * p)
        (tile_bytes axes (take axes (s.xs.now ∷ s.ys.now ∷ s.zs.now ∷ [])) s.cues.now p first n) }
{
    let at = layout::BLOCK_SIZE * p;
    let used = site_offset(axes, n);
    put_head(d, at, layout::tile_kind(axes), p, n, 0);
    put_zeros(d, at + layout::RESERVED_AT, at + layout::PAYLOAD_AT);
    put_sites(d, at + layout::PAYLOAD_AT, axes, sites, first, n);
    put_zeros(d, at + used, at + layout::CHECK_AT);
    put_checksum(d, at);
}

// All tiles, after the directory.
#[tactic(auto, using(base::proofs::Joined::joined_end), unfolding(crate::specs::Supply::offset))]
pub fn put_tiles(
    d: &mut [u8],
    axes: usize,
    counts: &[u32],
    xs: &[i32],
    ys: &[i32],
    zs: &[i32],
    cues: &[u32],
)
    requires { KnownAxes axes × (file_length (header_of axes counts.now) ≤ length d.old)
        × (length counts.now ≤ max_tiles)
        × ((t : ℕ) → t < length counts.now → count_of counts.now t ≤ max_sites axes)
        × (length xs.now ≡ site_total counts.now) × (length ys.now ≡ site_total counts.now)
        × (length zs.now ≡ site_total counts.now) × (length cues.now ≡ site_total counts.now) }
    ensures { d.new ≡ over d.old (block_size * directory_blocks (header_of axes counts.now))
        (joined (tile_bytes_of axes counts.now
        (take axes (xs.now ∷ ys.now ∷ zs.now ∷ [])) cues.now) 0
        (length counts.now)) }
{
    let blocks = directory_blocks(header_of(axes, counts));
    let sites = Sites { xs, ys, zs, cues };
    let mut first = 0;
    for t in 0..counts.len() {
        let n = counts[t] as usize;
        put_tile(d, blocks + t, axes, sites, first, n);
        first += n;
    }
}
