// The keys of the waiting tiles for a stop, and the next of them. A taken tile has the key NONE, above every distance,
// and no Option in its place: so one comparison of numbers passes over it, and the slice stays as small.
ghost use Rattle.std.specs.Prelude.{◌≡◌, map, ◌-◌, ◌<◌, ◌≤◌, length};
ghost use Rattle.base.specs.Over.{over};
ghost use Rattle.base.specs.Refusal.{accepted};
ghost use Rattle.blocks.specs.Directory.{directory};
ghost use Rattle.plan.specs.FilePlan.{entries};
ghost use Rattle.plan.specs.Inner.Seam.{stop_of, ValidStop};
ghost use Rattle.search.specs.Lists.{All};
ghost use Rattle.search.specs.Plan.{near};
ghost use Rattle.queue.specs.Inner.Keys.{least_key, some_key, Passed};

use blocks::header::Header;
use plan::measure;
use plan::measure::NONE;
use plan::region::Stop;

// The key of each waiting tile, for the stop p.
pub fn fill_keys(f: &[u8], h: Header, order: &[usize], p: Stop, keys: &mut [u64])
    requires { (directory f.now ≡ accepted h) × ValidStop h (stop_of h p) × All (λ t. t < h.tiles) order.now
        × (length order.now ≤ length keys.old) }
    ensures { keys.new
        ≡ over keys.old 0 (map (near (entries f.now h) (stop_of h p)) order.now) }
{
    for (j, t) in order.iter().enumerate() {
        keys[j] = measure::near(f, h, *t, p);
    }
}

#[derive(Clone, Copy, Debug, PartialEq, Eq)]
pub struct Least {
    pub at: usize,
    pub key: u64,
}

// The least of the first m keys, and the first place where it stands, where `found` is that of the keys from `from` on.
fn earlier_key(keys: &[u64], m: usize, from: usize, found: Least) -> Least
    requires { (m ≤ length keys.now) × (from ≤ m) × (found ≡ least_key keys.now from (m - from)) }
    ensures { result ≡ least_key keys.now 0 m }
{
    let mut at = found.at;
    let mut key = found.key;
    for j in (0..from).rev() {
        if keys[j] <= key {
            at = j;
            key = keys[j];
        }
    }
    Least { at, key }
}

// The least of the first m keys, and the first place where it stands; none if all are NONE. The key taken last was
// `bound`, just before index `from`: another one like it comes next, and then the other keys need not be looked at.
pub fn next_key(keys: &[u64], m: usize, from: usize, bound: u64) -> Option<Least>
    requires { (m ≤ length keys.now) × Passed keys.now m from bound }
    ensures { result ≡ some_key (least_key keys.now 0 m) }
{
    let mut at: usize = from;
    let mut key: u64 = NONE;
    for j in from..m {
        if keys[j] == bound {
            return Some(Least { at: j, key: bound });
        }
        if keys[j] < key {
            at = j;
            key = keys[j];
        }
    }
    let least = earlier_key(keys, m, from, Least { at, key });
    if least.key < NONE { Some(least) } else { None }
}
