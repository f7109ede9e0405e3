// The tiles that wait: those neither pruned nor without sites that rank, gathered once a run.
ghost use Rattle.std.specs.Prelude.{◌≡◌, ◌≤◌, length};
ghost use Rattle.base.specs.Refusal.{accepted};
ghost use Rattle.blocks.specs.Directory.{directory};
ghost use Rattle.plan.specs.FilePlan.{entries};
ghost use Rattle.plan.specs.Inner.Seam.{TileOf};
ghost use Rattle.queue.specs.Inner.Keys.{waits, Gathers};

use base::both;
use blocks::header::Header;
use plan::sites;
use search::PRUNED;

// Whether tile t waits, by the marks.
fn waits(f: &[u8], h: Header, marks: &[u8], t: usize) -> bool
    requires { TileOf f.now h t × (h.tiles ≤ length marks.now) }
    ensures { result ≡ waits (entries f.now h) marks.now t }
{
    both(marks[t] != PRUNED, 0 < sites::ranked(f, h, t))
}

// The waiting tiles in their order, at the front of `order`; gives their number.
pub fn gather(f: &[u8], h: Header, marks: &[u8], order: &mut [usize]) -> usize
    requires { (directory f.now ≡ accepted h)
        × (h.tiles ≤ length marks.now) × (h.tiles ≤ length order.old) }
    ensures { Gathers (waits (entries f.now h) marks.now) h.tiles
        order.old result order.new }
{
    let mut m: usize = 0;
    for t in 0..h.tiles {
        order[m] = t;
        m += waits(f, h, marks, t) as usize;
    }
    m
}
