// The tests of the writer's lists, in their order.
ghost use Rattle.std.specs.Prelude.{[], ◌∷◌, ◌≡◌, ℕ, ◌+◌, ◌*◌, ◌<◌, ◌≤◌, pos, get_or, length, take};
ghost use Rattle.base.specs.Answer.{tested_at};
ghost use Rattle.blocks.specs.Layout.{max_sites, max_tiles};
ghost use Rattle.base.specs.Every.{every};
ghost use Rattle.encode.specs.Supply.{supply, numbers_per_box, box_of, count_of, site_total};
ghost use Rattle.encode.specs.Encode.{file_length};
ghost use Rattle.geometry.specs.Around.{row};
ghost use Rattle.geometry.specs.Axes.{KnownAxes, Columns};
ghost use Rattle.geometry.specs.Box.{inside};
ghost use Rattle.writer.specs.Write.{tiles_fit, entry_fits, lists_fit, sites_fit, tile_fits, write_tests};

use base::{Reason, both};
use blocks::directory::directory_blocks;
use blocks::header::Header;
use blocks::layout;
use encode::lists::{header_of, numbers_per_box};
use geometry::limits::{inside, valid_box};

// The low and the high end of an axis, of the numbers of the boxes.
fn axis_of(boxes: &[i32], low: usize, high: usize) -> [i32; 2]
    requires { (low < length boxes.now) × (high < length boxes.now) }
    ensures { result ≡ get_or boxes.now low (pos 0) ∷ get_or boxes.now high (pos 0) ∷ [] }
{
    [boxes[low], boxes[high]]
}

// The box of tile t: its first axes count.
fn box_of(axes: usize, boxes: &[i32], t: usize) -> [[i32; 2]; 3]
    requires { KnownAxes axes × (numbers_per_box axes * t + numbers_per_box axes ≤ length boxes.now) }
    ensures { take axes result ≡ box_of axes boxes.now t }
{
    let b = numbers_per_box(axes) * t;
    if axes == layout::HEIGHT {
        [
            axis_of(boxes, b, b + 3),
            axis_of(boxes, b + 1, b + 4),
            axis_of(boxes, b + 2, b + 5),
        ]
    } else {
        [
            axis_of(boxes, b, b + 2),
            axis_of(boxes, b + 1, b + 3),
            [0, 0],
        ]
    }
}

// Test 6.
#[tactic(auto, unfolding(crate::specs::Write::tiles_fit))]
fn tiles_fit(t: usize) -> bool
    ensures { result ≡ tiles_fit t }
{
    both(1 <= t, t <= layout::MAX_TILES)
}

// Test 9 of tile t.
#[tactic(auto, unfolding(crate::specs::Write::entry_fits))]
fn entry_fits(axes: usize, boxes: &[i32], counts: &[u32], t: usize) -> bool
    requires { KnownAxes axes × (numbers_per_box axes * t + numbers_per_box axes ≤ length boxes.now)
        × (t < length counts.now) }
    ensures { result ≡ entry_fits axes boxes.now counts.now t }
{
    both(
        valid_box(axes, box_of(axes, boxes, t)),
        counts[t] as usize <= layout::max_sites(axes),
    )
}

fn entries_fit(axes: usize, boxes: &[i32], counts: &[u32]) -> bool
    requires { KnownAxes axes × (length boxes.now ≡ numbers_per_box axes * length counts.now) }
    ensures { result ≡ every (entry_fits axes boxes.now counts.now) (length counts.now) }
{
    (0..counts.len()).all(|t| entry_fits(axes, boxes, counts, t))
}

// The sum of counts that passed test 9.
fn sum_of(axes: usize, counts: &[u32]) -> usize
    requires { KnownAxes axes × (length counts.now ≤ max_tiles)
        × ((t : ℕ) → t < length counts.now → count_of counts.now t ≤ max_sites axes) }
    ensures { result ≡ site_total counts.now }
{
    let mut sum = 0;
    for n in counts {
        sum += *n as usize;
    }
    sum
}

// Test 15 of the site lists. Of a plan town the third column is the second again.
fn lists_fit(axes: usize, sum: usize, xs: &[i32], ys: &[i32], zs: &[i32], cues: &[u32]) -> bool
    requires { Columns axes ys.now zs.now }
    ensures { result ≡ lists_fit sum (take axes (xs.now ∷ ys.now ∷ zs.now ∷ [])) cues.now }
{
    both(
        both(xs.len() == sum, both(ys.len() == sum, zs.len() == sum)),
        cues.len() == sum,
    )
}

// Test 10 of site i of the lists.
fn site_fits(
    axes: usize,
    bounds: [[i32; 2]; 3],
    xs: &[i32],
    ys: &[i32],
    zs: &[i32],
    i: usize,
) -> bool
    requires { KnownAxes axes × (i < length xs.now) × (i < length ys.now) × (i < length zs.now) }
    ensures { result ≡ inside (take axes bounds)
        (row (take axes (xs.now ∷ ys.now ∷ zs.now ∷ [])) i) }
{
    let x = xs[i];
    let y = ys[i];
    let z = zs[i];
    inside(axes, bounds, [x, y, z])
}

// Test 10 of n sites of the lists from site `first` on. Every site is looked at, without a branch.
#[tactic(auto, unfolding(crate::specs::Write::sites_fit, base::specs::Every::every))]
fn sites_fit(
    axes: usize,
    bounds: [[i32; 2]; 3],
    xs: &[i32],
    ys: &[i32],
    zs: &[i32],
    first: usize,
    n: usize,
) -> bool
    requires { KnownAxes axes × (first + n ≤ length xs.now) × (first + n ≤ length ys.now)
        × (first + n ≤ length zs.now) }
    ensures { result ≡ sites_fit (take axes bounds)
        (take axes (xs.now ∷ ys.now ∷ zs.now ∷ [])) first n }
{
    let mut all = true;
    for i in 0..n {
        all = both(all, site_fits(axes, bounds, xs, ys, zs, first + i));
    }
    all
}

// Test 10.
fn tiles_inside(
    axes: usize,
    boxes: &[i32],
    counts: &[u32],
    xs: &[i32],
    ys: &[i32],
    zs: &[i32],
) -> bool
    requires { KnownAxes axes × (length boxes.now ≡ numbers_per_box axes * length counts.now)
        × (length xs.now ≡ site_total counts.now) × (length ys.now ≡ site_total counts.now)
        × (length zs.now ≡ site_total counts.now) }
    ensures { result ≡ every (tile_fits axes boxes.now counts.now
        (take axes (xs.now ∷ ys.now ∷ zs.now ∷ [])))
        (length counts.now) }
{
    let mut first = 0;
    for t in 0..counts.len() {
        let n = counts[t] as usize;
        if !sites_fit(axes, box_of(axes, boxes, t), xs, ys, zs, first, n) {
            return false;
        }
        first += n;
    }
    true
}

// The file's length in bytes.
#[tactic(auto, unfolding(encode::specs::Encode::file_length))]
pub fn file_length(h: Header) -> usize
    requires { KnownAxes h.axes × (h.tiles ≤ max_tiles) }
    ensures { result ≡ file_length h }
{
    layout::BLOCK_SIZE * (directory_blocks(h) + h.tiles)
}

// The tests of the lists and of an output slice of this length, in their order: the reason is that of the first one
// failed.
pub fn tests(
    axes: usize,
    boxes: &[i32],
    counts: &[u32],
    xs: &[i32],
    ys: &[i32],
    zs: &[i32],
    cues: &[u32],
    room: usize,
) -> Result<(), Reason>
    requires { Columns axes ys.now zs.now }
    ensures { tested_at 0 result ≡ write_tests
        (supply boxes.now counts.now
        (take axes (xs.now ∷ ys.now ∷ zs.now ∷ [])) cues.now)
        room }
{
    if !tiles_fit(counts.len()) {
        return Err(Reason::Tiles);
    }
    if boxes.len() != numbers_per_box(axes) * counts.len() {
        return Err(Reason::Supply);
    }
    if !entries_fit(axes, boxes, counts) {
        return Err(Reason::Box);
    }
    if !lists_fit(axes, sum_of(axes, counts), xs, ys, zs, cues) {
        return Err(Reason::Supply);
    }
    let inside = tiles_inside(axes, boxes, counts, xs, ys, zs);
    let fits = file_length(header_of(axes, counts)) <= room;
    if !inside {
        return Err(Reason::Stray);
    }
    if !fits {
        return Err(Reason::Short);
    }
    Ok(())
}
