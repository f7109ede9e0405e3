// The marks of a run: a tile is opened once and marked, and at the end the opened are counted.
ghost use Rattle.std.specs.Prelude.{◌≡◌, ◌≤◌, eqb, length, take};
ghost use Rattle.base.specs.Answer.{outcome_of};
ghost use Rattle.base.specs.Refusal.{accepted, and_then};
ghost use Rattle.plan.specs.FilePlan.{opening_of};
ghost use Rattle.plan.specs.Inner.Seam.{TileOf};
ghost use Rattle.search.specs.Lists.{count};
ghost use Rattle.search.specs.Run.{opened_mark};
ghost use Rattle.serve.specs.Inner.Marks.{mark_from, OpenedOpen};

use base::Refusal;
use blocks::header::Header;
use plan::sites;
use search::OPENED;

// Opens tile t, once a run: one that is marked was opened before. The number of its sites, or the first refusal.
pub fn open_once(f: &[u8], h: Header, t: usize, marks: &mut [u8]) -> Result<usize, Refusal>
    requires { TileOf f.now h t × (h.tiles ≤ length marks.old) × OpenedOpen f.now h marks.old }
    ensures result_value { outcome_of result ≡ and_then (opening_of f.now h t) (λ l. accepted (length l)) }
    ensures marks_after { marks.new ≡ mark_from (opening_of f.now h t) marks.old t }
{
    if marks[t] == OPENED {
        return Ok(sites::count(f, h, t));
    }
    // Taken apart by `let .. else` and no `?`: document 01 names the form.
    let answer = sites::open_tile(f, h, t);
    let Ok(n) = answer else {
        return answer;
    };
    marks[t] = OPENED;
    Ok(n)
}

// How many of the first T tiles are marked as opened.
pub fn count_opened(marks: &[u8], h: Header) -> usize
    requires { h.tiles ≤ length marks.now }
    ensures { (result ≡ count (λ m. eqb m opened_mark) (take h.tiles marks.now)) × (result ≤ h.tiles) }
{
    let mut opened: usize = 0;
    for t in 0..h.tiles {
        opened += (marks[t] == OPENED) as usize;
    }
    opened
}
