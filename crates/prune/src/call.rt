// The call of document 01, "Striking".
ghost use Rattle.std.specs.Prelude.{◌≡◌};
ghost use Rattle.base.specs.Answer.{outcome_of};
ghost use Rattle.prune.specs.Prune.{prune_call, marks_after};

use crate::marking;
use base::{Reason, Refusal};
use blocks::directory::read_directory;
use geometry::limits;
use geometry::padding::{HasAxes, Town, pad_box};

// What the answer carries: T, and the number pruned.
#[derive(Clone, Copy, Debug, PartialEq, Eq)]
pub struct Pruned {
    pub tiles: u32,
    pub pruned: u32,
}

// For a town of N axes.
pub fn prune<const N: usize>(
    f: &[u8],
    o: [[i32; 2]; N],
    k: u32,
    marks: &mut [u8],
) -> Result<Pruned, Refusal>
where
    Town: HasAxes<N>,
    ensures result_value { outcome_of result ≡ prune_call f.now o.entry k marks.old }
    ensures marks_after { marks.new
        ≡ marks_after f.now o.entry k marks.old (prune_call f.now o.entry k marks.old) }
{
    let h = read_directory(f)?;
    let region = pad_box(o);
    if !search::valid_k(k) {
        return Err(Reason::K.at(0));
    }
    if h.axes != N {
        return Err(Reason::Axes.at(0));
    }
    if !limits::valid_box(N, region) {
        return Err(Reason::Box.at(0));
    }
    if marks.len() < h.tiles {
        return Err(Reason::Short.at(0));
    }
    let count = marking::mark_pruned(f, h, region, k as usize, marks);
    let tiles = h.tiles as u32;
    let pruned = count as u32;
    Ok(Pruned { tiles, pruned })
}
