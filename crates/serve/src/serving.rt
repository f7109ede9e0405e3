// Serving the stops: for each, the waiting tiles by key, until its list is full ahead of the next key.
ghost use Rattle.std.specs.Prelude.{map, ◌≡◌, length};
ghost use Rattle.base.specs.Lists.{All};
ghost use Rattle.base.specs.Answer.{outcome_of};
ghost use Rattle.base.specs.Refusal.{accepted, and_then};
ghost use Rattle.list.specs.Slices.{lent};
ghost use Rattle.plan.specs.FilePlan.{opening_of};
ghost use Rattle.plan.specs.Inner.Seam.{stop_of};
ghost use Rattle.serve.specs.Inner.Serving.{TileReady, with_sites, after_tile};
ghost use Rattle.serve.specs.Inner.Serving.{StopReady, StopServed, walk_of, StopsReady, Serves};

use crate::marks::open_once;
use base::Refusal;
use blocks::header::Header;
use blocks::layout::MAX_TILES;
use list::clear::clear_places;
use list::last_ahead;
use places::tile::{Target, add_tile};
use plan::measure::NONE;
use plan::region::{Stop, stop_in};
use queue::gather::gather;
use queue::keys::{fill_keys, next_key};

// Takes tile t for a stop: opens it, once a run, and puts its sites that rank into the list. The places used then.
fn take_tile(
    f: &[u8],
    h: Header,
    t: usize,
    target: Target,
    used: usize,
    dist: &mut [u64],
    site: &mut [u32],
    cue: &mut [u32],
    marks: &mut [u8],
) -> Result<usize, Refusal>
    requires { TileReady f.now h t target used (lent dist.old site.old cue.old marks.old) }
    ensures result_value { outcome_of result ≡ and_then (opening_of f.now h t)
        (λ l. accepted (length (with_sites h t target used l
        (lent dist.old site.old cue.old marks.old).lists))) }
    ensures marks_after { lent dist.new site.new cue.new marks.new
        ≡ after_tile h t target used (opening_of f.now h t)
        (lent dist.old site.old cue.old marks.old) }
{
    open_once(f, h, t, marks)?;
    Ok(add_tile(f, h, t, target, used, dist, site, cue))
}

// Serves one stop, over the waiting tiles: its list. The places used by it.
fn serve_stop(
    f: &[u8],
    h: Header,
    order: &[usize],
    target: Target,
    keys: &mut [u64],
    dist: &mut [u64],
    site: &mut [u32],
    cue: &mut [u32],
    marks: &mut [u8],
) -> Result<usize, Refusal>
    requires { StopReady f.now h order.now target keys.old
        (lent dist.old site.old cue.old marks.old) }
    ensures { StopServed f.now h
        (walk_of f.now h order.now (stop_of h target.stop) target.k) target.k target.at
        (lent dist.old site.old cue.old marks.old) (outcome_of result)
        (lent dist.new site.new cue.new marks.new) }
{
    let p = target.stop;
    let at = target.at;
    let k = target.k;
    fill_keys(f, h, order, p, keys);
    let mut used: usize = 0;
    let mut from: usize = 0;
    let mut bound: u64 = 0;
    while let Some(least) = next_key(keys, order.len(), from, bound) {
        let j = least.at;
        let key = least.key;
        let t = order[j];
        if last_ahead(dist, site, at, used, k, key, t as u32) {
            return Ok(used);
        }
        used = take_tile(f, h, t, target, used, dist, site, cue, marks)?;
        keys[j] = NONE;
        from = j + 1;
        bound = key;
    }
    Ok(used)
}

// Serves the stops in turn, over the tiles that neither the marks nor the directory rule out: the list of stop i from
// index i × k on. The places used by the last stop; where an opening refuses, the places of all stops and the marks are
// left zero.
pub fn serve(
    f: &[u8],
    h: Header,
    stops: &[Stop],
    k: usize,
    dist: &mut [u64],
    site: &mut [u32],
    cue: &mut [u32],
    marks: &mut [u8],
) -> Result<usize, Refusal>
    requires { All (λ p. length p ≡ 3) stops.now
        × StopsReady f.now h (map (stop_of h) stops.now) k (lent dist.old site.old cue.old marks.old) }
    ensures { Serves f.now h (map (stop_of h) stops.now) k
        (lent dist.old site.old cue.old marks.old) (outcome_of result)
        (lent dist.new site.new cue.new marks.new) }
{
    let mut order = [0usize; MAX_TILES];
    let mut keys = [0u64; MAX_TILES];
    let m = gather(f, h, marks, &mut order);
    let mut at: usize = 0;
    let mut used: usize = 0;
    for i in 0..stops.len() {
        let stop = stop_in(stops, i);
        let target = Target { stop, at, k };
        let served = serve_stop(f, h, &order[..m], target, &mut keys, dist, site, cue, marks);
        let Ok(n) = served else {
            clear_places(dist, site, cue, stops.len() * k);
            marks[..h.tiles].fill(0);
            return served;
        };
        used = n;
        at += k;
    }
    Ok(used)
}
