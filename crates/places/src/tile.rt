// The sites of an opened tile that rank put into the list of a stop.
ghost use Rattle.std.specs.Prelude.{[], ◌∷◌, ◌+◌, ◌<◌, ◌≤◌, ◌^◌, length};
ghost use Rattle.base.specs.Tabulate.{tabulate};
ghost use Rattle.list.specs.Inner.Keeping.{Ready, Adds};
ghost use Rattle.list.specs.Slices.{lists};
ghost use Rattle.plan.specs.FilePlan.{space, town_of};
ghost use Rattle.plan.specs.Inner.Seam.{TileOf, stop_of, ValidStop, Opens, Sited, site_in};
ghost use Rattle.search.specs.Run.{listing, tile_places};
ghost use Rattle.places.specs.Inner.Adding.{Farther, Skipped};

use blocks::header::Header;
use list::insert_place;
use plan::region::Stop;
use plan::sites;
use search::SLOTS;

// Whose list it is: a stop, where its list stands in the slices, and how many places it may have.
#[derive(Clone, Copy, Debug, PartialEq, Eq)]
pub struct Target {
    pub stop: Stop,
    pub at: usize,
    pub k: usize,
}

// From a slot on, the first one whose site is no farther from p than the bound; n if there is none.
fn next_within(h: Header, s: &[u8], n: usize, from: usize, p: Stop, bound: u64) -> usize
    requires { Sited h s.now n × (from ≤ n) × ValidStop h (stop_of h p) }
    ensures { (from ≤ result) × (result ≤ n) × Farther h s.now (stop_of h p) bound from result }
{
    for i in from..n {
        let x = sites::place_in(h, s, n, i, 0, p);
        if x.dist <= bound {
            return i;
        }
    }
    n
}

// From a slot on, the first one whose site is near enough for the list: of a full list, no farther than its last place.
fn next_slot(
    h: Header,
    s: &[u8],
    n: usize,
    from: usize,
    target: Target,
    used: usize,
    dist: &[u64],
) -> usize
    requires { Sited h s.now n × (from ≤ n) × ValidStop h (stop_of h target.stop)
        × (0 < target.k) × (target.at + target.k ≤ length dist.now) }
    ensures { Skipped h s.now n from target used dist.now result }
{
    let p = target.stop;
    let at = target.at;
    let k = target.k;
    if used < k {
        return from;
    }
    next_within(h, s, n, from, p, dist[at + (k - 1)])
}

// The site of a slot, if it ranks, put into the list; the sites are numbered from first on.
fn add_site(
    h: Header,
    s: &[u8],
    n: usize,
    slot: usize,
    first: u32,
    target: Target,
    used: usize,
    dist: &mut [u64],
    site: &mut [u32],
    cue: &mut [u32],
) -> usize
    requires { Sited h s.now n × (slot < n) × (first + n < 2 ^ 32) × ValidStop h (stop_of h target.stop)
        × Ready (lists dist.old site.old cue.old) target.at used target.k }
    ensures { Adds (lists dist.old site.old cue.old)
        target.at used target.k (listing space (stop_of h target.stop) (first + slot)
        (site_in h.axes s.now slot ∷ []))
        result (lists dist.new site.new cue.new) }
{
    let p = target.stop;
    let at = target.at;
    let k = target.k;
    let number = first + (slot as u32);
    let x = sites::place_in(h, s, n, slot, number, p);
    if !sites::ranks(x.cue) {
        return used;
    }
    insert_place(dist, site, cue, at, used, k, x)
}

// Of the n sites of a tile's block, in slot order, numbered from first on, those that rank put into the list.
fn add_sites(
    h: Header,
    s: &[u8],
    n: usize,
    first: u32,
    target: Target,
    used: usize,
    dist: &mut [u64],
    site: &mut [u32],
    cue: &mut [u32],
) -> usize
    requires { Sited h s.now n × (first + n < 2 ^ 32) × ValidStop h (stop_of h target.stop)
        × Ready (lists dist.old site.old cue.old) target.at used target.k }
    ensures { Adds (lists dist.old site.old cue.old)
        target.at used target.k (listing space (stop_of h target.stop) first
        (tabulate (site_in h.axes s.now) 0 n)) result
        (lists dist.new site.new cue.new) }
{
    let mut m = used;
    // A `while`, since the next slot is the next one found.
    let mut slot = next_slot(h, s, n, 0, target, m, dist);
    while slot < n {
        m = add_site(h, s, n, slot, first, target, m, dist, site, cue);
        slot = next_slot(h, s, n, slot + 1, target, m, dist);
    }
    m
}

// The sites that rank of tile t of a file, which opens, put into the list of a stop: the number of places used then.
pub fn add_tile(
    f: &[u8],
    h: Header,
    t: usize,
    target: Target,
    used: usize,
    dist: &mut [u64],
    site: &mut [u32],
    cue: &mut [u32],
) -> usize
    requires { TileOf f.now h t × Opens f.now h t × ValidStop h (stop_of h target.stop)
        × Ready (lists dist.old site.old cue.old) target.at used target.k }
    ensures { Adds (lists dist.old site.old cue.old)
        target.at used target.k (tile_places space (stop_of h target.stop) t (town_of f.now h t)) result
        (lists dist.new site.new cue.new) }
{
    let n = sites::count(f, h, t);
    let first = (t as u32) * SLOTS;
    add_sites(
        h,
        sites::block_of(f, h, t),
        n,
        first,
        target,
        used,
        dist,
        site,
        cue,
    )
}
