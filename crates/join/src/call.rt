// The call of document 01, "The join".
ghost use Rattle.std.specs.Prelude.{[], ◌∷◌, ◌≡◌, take};
ghost use Rattle.base.specs.Answer.{outcome_of};
ghost use Rattle.geometry.specs.Axes.{Columns};
ghost use Rattle.list.specs.Slices.{lent};
ghost use Rattle.join.specs.Join.{join_end, run_end};
ghost use Rattle.join.specs.Inner.Running.{RunReady};

use base::Refusal;
use blocks::directory::read_directory;
use blocks::header::Header;
use blocks::layout::{HEIGHT, PLAN};
use list::clear::clear_places;
use plan::region::ORIGIN;
use prune::marking::mark_pruned;
use search::MAX_STOPS;
use serve::marks::count_opened;
use serve::serving::serve;
use stops::arguments::{Lengths, check_arguments};
use stops::around::around;
use stops::stop::gather_stops;

// What a join carries: places used for each stop, T, and how many tiles were opened and pruned.
#[derive(Clone, Copy, Debug, PartialEq, Eq)]
pub struct Joined {
    pub used: u32,
    pub tiles: u32,
    pub opened: u32,
    pub pruned: u32,
}

// The run: places cleared, tiles pruned, the stops gathered as points and served, and the opened tiles counted. Of a
// plan town the third column is the second again, and nothing depends on it.
fn run(
    f: &[u8],
    h: Header,
    xs: &[i32],
    ys: &[i32],
    zs: &[i32],
    k: usize,
    dist: &mut [u64],
    site: &mut [u32],
    cue: &mut [u32],
    marks: &mut [u8],
) -> Result<Joined, Refusal>
    requires { Columns h.axes ys.now zs.now
        × RunReady f.now h (take h.axes (xs.now ∷ ys.now ∷ zs.now ∷ [])) k
        (lent dist.old site.old cue.old marks.old) }
    ensures { record {
      outcome = outcome_of result;
      slices = lent dist.new site.new cue.new marks.new;
    }
        ≡ run_end f.now h (take h.axes (xs.now ∷ ys.now ∷ zs.now ∷ [])) k
        (lent dist.old site.old cue.old marks.old) }
{
    let n = xs.len();
    clear_places(dist, site, cue, n * k);
    let pruned = mark_pruned(f, h, around(xs, ys, zs), k, marks);
    let mut stops = [ORIGIN; MAX_STOPS];
    gather_stops(xs, ys, zs, &mut stops);
    // By `match` and no `?`: an edit replaces what is passed on, and nothing else.
    let used = match serve(f, h, &stops[..n], k, dist, site, cue, marks) {
        Ok(used) => used,
        Err(refusal) => return Err(refusal),
    };
    let opened = count_opened(marks, h);
    Ok(Joined {
        used: used as u32,
        tiles: h.tiles as u32,
        opened: opened as u32,
        pruned: pruned as u32,
    })
}

// The call for a number of axes.
fn join_columns(
    f: &[u8],
    axes: usize,
    xs: &[i32],
    ys: &[i32],
    zs: &[i32],
    k: u32,
    dist: &mut [u64],
    site: &mut [u32],
    cue: &mut [u32],
    marks: &mut [u8],
) -> Result<Joined, Refusal>
    requires { Columns axes ys.now zs.now }
    ensures { record {
      outcome = outcome_of result;
      slices = lent dist.new site.new cue.new marks.new;
    }
        ≡ join_end f.now (take axes (xs.now ∷ ys.now ∷ zs.now ∷ [])) k
        (lent dist.old site.old cue.old marks.old) }
{
    let h = read_directory(f)?;
    let lengths = Lengths {
        dist: dist.len(),
        site: site.len(),
        cue: cue.len(),
        marks: marks.len(),
    };
    if let Err(reason) = check_arguments(h, axes, xs, ys, zs, k, lengths) {
        return Err(reason.at(0));
    }
    run(f, h, xs, ys, zs, k as usize, dist, site, cue, marks)
}

// For a plan town.
pub fn join(
    f: &[u8],
    xs: &[i32],
    ys: &[i32],
    k: u32,
    dist: &mut [u64],
    site: &mut [u32],
    cue: &mut [u32],
    marks: &mut [u8],
) -> Result<Joined, Refusal>
    ensures { record {
      outcome = outcome_of result;
      slices = lent dist.new site.new cue.new marks.new;
    }
        ≡ join_end f.now (xs.now ∷ ys.now ∷ []) k
        (lent dist.old site.old cue.old marks.old) }
{
    join_columns(f, PLAN, xs, ys, ys, k, dist, site, cue, marks)
}

// For a town with height. A call of its own: an array of N columns, with N a parameter, gets no proof.
pub fn join3(
    f: &[u8],
    xs: &[i32],
    ys: &[i32],
    zs: &[i32],
    k: u32,
    dist: &mut [u64],
    site: &mut [u32],
    cue: &mut [u32],
    marks: &mut [u8],
) -> Result<Joined, Refusal>
    ensures { record {
      outcome = outcome_of result;
      slices = lent dist.new site.new cue.new marks.new;
    }
        ≡ join_end f.now (xs.now ∷ ys.now ∷ zs.now ∷ []) k
        (lent dist.old site.old cue.old marks.old) }
{
    join_columns(f, HEIGHT, xs, ys, zs, k, dist, site, cue, marks)
}
