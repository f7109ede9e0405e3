// The directory: its blocks in order, each written once.
ghost use Rattle.std.specs.Prelude.{◌≡◌, ◌+◌, ◌*◌, ◌<◌, ◌≤◌, length};
ghost use Rattle.base.specs.Over.{over};
ghost use Rattle.base.specs.Tabulate.{joined};
ghost use Rattle.geometry.specs.Axes.{KnownAxes};
ghost use Rattle.blocks.specs.Directory.{directory_blocks, entries_due};
ghost use Rattle.blocks.specs.Layout.{block_size, entry_size, count_offset, entries_per_block, max_tiles};
ghost use Rattle.encode.specs.Encode.{box_bytes, entry_bytes, directory_bytes};
ghost use Rattle.encode.specs.Supply.{header_of, numbers_per_box, offset, site_total};

use crate::head::{put_checksum, put_head};
use crate::lists::{header_of, muted_from, numbers_per_box};
use blocks::directory::{directory_blocks, entries_due};
use blocks::entry::entry_offset;
use blocks::layout;
use codec::writing::{put_i32, put_u16, put_zeros};

// The lists that the directory is made of.
#[derive(Clone, Copy)]
struct Lists<'a> {
    boxes: &'a [i32],
    counts: &'a [u32],
    cues: &'a [u32],
}

// The numbers of tile t's box.
#[tactic(auto, using(base::proofs::Joined::joined_end), unfolding(crate::specs::Encode::box_bytes))]
fn put_box(d: &mut [u8], start: usize, axes: usize, boxes: &[i32], t: usize)
    requires { KnownAxes axes × (start + count_offset axes ≤ length d.old)
        × (numbers_per_box axes * t + numbers_per_box axes ≤ length boxes.now) }
    ensures { d.new ≡ over d.old start (box_bytes axes boxes.now t) }
{
    let n = numbers_per_box(axes);
    for i in 0..n {
        put_i32(d, start + layout::NUMBER_SIZE * i, boxes[n * t + i]);
    }
}

// The entry of tile t, whose sites stand in the lists from site `site` on; gives where those of the next tile start.
fn put_entry(d: &mut [u8], at: usize, axes: usize, lists: Lists, t: usize, site: usize) -> usize
    requires { KnownAxes axes × (at + entry_size axes ≤ length d.old)
        × (numbers_per_box axes * t + numbers_per_box axes ≤ length lists.boxes.now)
        × (t < length lists.counts.now) × (length lists.cues.now ≡ site_total lists.counts.now)
        × (site ≡ offset lists.counts.now t) }
    ensures { let l = lists.entry in
        (d.new ≡ over d.old at (entry_bytes axes l.boxes.now l.counts.now l.cues.now t))
        × (result ≡ offset l.counts.now (t + 1)) }
{
    let n = lists.counts[t] as usize;
    put_box(d, at, axes, lists.boxes, t);
    put_u16(d, at + layout::count_offset(axes), n);
    put_u16(
        d,
        at + layout::muted_offset(axes),
        muted_from(lists.cues, site, n),
    );
    site + n
}

// The entries of n tiles from tile `first` on, whose sites start at `site`; gives where those of the next tile start.
#[tactic(auto, using(base::proofs::Joined::joined_end))]
fn put_entries(
    d: &mut [u8],
    start: usize,
    axes: usize,
    lists: Lists,
    first: usize,
    n: usize,
    site: usize,
) -> usize
    requires { KnownAxes axes × (start + entry_size axes * n ≤ length d.old)
        × (numbers_per_box axes * (first + n) ≤ length lists.boxes.now)
        × (first + n ≤ length lists.counts.now) × (length lists.cues.now ≡ site_total lists.counts.now)
        × (site ≡ offset lists.counts.now first) }
    ensures { let l = lists.entry in
        (d.new ≡ over d.old start (joined (entry_bytes axes l.boxes.now l.counts.now l.cues.now) first n))
        × (result ≡ offset l.counts.now (first + n)) }
{
    let size = layout::entry_size(axes);
    let mut next = site;
    for i in 0..n {
        let at = start + size * i;
        next = put_entry(d, at, axes, lists, first + i, next);
    }
    next
}

// The directory block at position p, the sites of whose first tile start at `site`; gives where those of the next
// block's first tile start.
#[tactic(auto, using(blocks::proofs::DirectoryLaws::entries_end, blocks::proofs::DirectoryLaws::first_few))]
fn put_directory_block(d: &mut [u8], axes: usize, lists: Lists, p: usize, site: usize) -> usize
    requires { KnownAxes axes × (block_size * p + block_size ≤ length d.old)
        × (length lists.boxes.now ≡ numbers_per_box axes * length lists.counts.now)
        × (length lists.counts.now ≤ max_tiles) × (p < directory_blocks (header_of axes lists.counts.now))
        × (length lists.cues.now ≡ site_total lists.counts.now)
        × (site ≡ offset lists.counts.now (entries_per_block axes * p)) }
    ensures { let l = lists.entry in
        (d.new ≡ over d.old (block_size * p) (directory_bytes axes l.boxes.now l.counts.now l.cues.now p))
        × (result ≡ offset l.counts.now (entries_per_block axes * p + entries_due (header_of axes l.counts.now) p)) }
{
    let at = layout::BLOCK_SIZE * p;
    let n = entries_due(header_of(axes, lists.counts), p);
    let used = entry_offset(axes, n);
    let tiles = lists.counts.len();
    put_head(d, at, layout::directory_kind(axes), p, n, tiles);
    put_zeros(d, at + layout::RESERVED_AT, at + layout::PAYLOAD_AT);
    let next = put_entries(
        d,
        at + layout::PAYLOAD_AT,
        axes,
        lists,
        layout::entries_per_block(axes) * p,
        n,
        site,
    );
    put_zeros(d, at + used, at + layout::CHECK_AT);
    put_checksum(d, at);
    next
}

// All directory blocks.
#[tactic(auto, using(base::proofs::Joined::joined_end), unfolding(crate::specs::Supply::offset))]
pub fn put_directory(d: &mut [u8], axes: usize, boxes: &[i32], counts: &[u32], cues: &[u32])
    requires { KnownAxes axes × (block_size * directory_blocks (header_of axes counts.now) ≤ length d.old)
        × (length boxes.now ≡ numbers_per_box axes * length counts.now) × (length counts.now ≤ max_tiles)
        × (length cues.now ≡ site_total counts.now) }
    ensures { d.new ≡ over d.old 0
        (joined (directory_bytes axes boxes.now counts.now cues.now) 0
        (directory_blocks (header_of axes counts.now))) }
{
    let lists = Lists {
        boxes,
        counts,
        cues,
    };
    let mut site = 0;
    for p in 0..directory_blocks(header_of(axes, counts)) {
        site = put_directory_block(d, axes, lists, p, site);
    }
}
