// The writer's call.
ghost use Rattle.std.specs.Prelude.{[], ◌∷◌, ◌≡◌, length, take};
ghost use Rattle.base.specs.Answer.{outcome_of};
ghost use Rattle.encode.specs.Supply.{supply};
ghost use Rattle.geometry.specs.Axes.{Columns};
ghost use Rattle.writer.specs.Write.{write_call, write_exit};

use crate::supply::{file_length, tests};
use base::Refusal;
use blocks::layout::{HEIGHT, PLAN};
use encode::directory::put_directory;
use encode::lists::header_of;
use encode::tile::put_tiles;

// Writes the file of a town of any number of axes: of a plan town the third column is the second again, and not looked
// at.
#[tactic(auto, using(crate::proofs::WriteLaws::call_refused, crate::proofs::WriteLaws::exit_refused))]
fn write_columns(
    axes: usize,
    boxes: &[i32],
    counts: &[u32],
    xs: &[i32],
    ys: &[i32],
    zs: &[i32],
    cues: &[u32],
    out: &mut [u8],
) -> Result<usize, Refusal>
    requires { Columns axes ys.now zs.now }
    ensures answer { outcome_of result ≡ write_call
        (supply boxes.now counts.now
        (take axes (xs.now ∷ ys.now ∷ zs.now ∷ [])) cues.now)
        (length out.old) }
    ensures output { out.new ≡ write_exit
        (supply boxes.now counts.now
        (take axes (xs.now ∷ ys.now ∷ zs.now ∷ [])) cues.now)
        out.old }
{
    // By `if let` and no `?`: an edit passes over some refusals, and changes nothing else.
    if let Err(reason) = tests(axes, boxes, counts, xs, ys, zs, cues, out.len()) {
        return Err(reason.at(0));
    }
    put_directory(out, axes, boxes, counts, cues);
    put_tiles(out, axes, counts, xs, ys, zs, cues);
    Ok(file_length(header_of(axes, counts)))
}

// Writes the file of a plan town: four numbers of a box and a count for each tile, and the sites in tile order. The
// answer is the file's length in bytes, or the first refusal.
pub fn write(
    boxes: &[i32],
    counts: &[u32],
    xs: &[i32],
    ys: &[i32],
    cues: &[u32],
    out: &mut [u8],
) -> Result<usize, Refusal>
    ensures answer { outcome_of result ≡ write_call
        (supply boxes.now counts.now (xs.now ∷ ys.now ∷ []) cues.now)
        (length out.old) }
    ensures output { out.new ≡ write_exit
        (supply boxes.now counts.now (xs.now ∷ ys.now ∷ []) cues.now)
        out.old }
{
    write_columns(PLAN, boxes, counts, xs, ys, ys, cues, out)
}

// Writes the file of a town with height: six numbers of a box. A call of its own: an array of N lists, with N a
// parameter, gets no proof.
pub fn write3(
    boxes: &[i32],
    counts: &[u32],
    xs: &[i32],
    ys: &[i32],
    zs: &[i32],
    cues: &[u32],
    out: &mut [u8],
) -> Result<usize, Refusal>
    ensures answer { outcome_of result ≡ write_call
        (supply boxes.now counts.now
        (xs.now ∷ ys.now ∷ zs.now ∷ []) cues.now)
        (length out.old) }
    ensures output { out.new ≡ write_exit
        (supply boxes.now counts.now
        (xs.now ∷ ys.now ∷ zs.now ∷ []) cues.now)
        out.old }
{
    write_columns(HEIGHT, boxes, counts, xs, ys, zs, cues, out)
}
