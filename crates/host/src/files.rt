// The calls on files, for hosts and tests in C: each gives its answer as a report, by value. C has no generic
// calls: those with a 3 are for towns with height.
ghost use Rattle.std.specs.Prelude.{[], ◌∷◌, ◌≡◌, length};
ghost use Rattle.encode.specs.Supply.{supply};
ghost use Rattle.join.specs.Join.{join_end};
ghost use Rattle.list.specs.Slices.{lent};
ghost use Rattle.prune.specs.Prune.{prune_call, marks_after};
ghost use Rattle.stream.specs.Stream.{stream_call, order_after};
ghost use Rattle.tiles.specs.Validate.{validate};
ghost use Rattle.writer.specs.Write.{write_call, write_exit};
ghost use Rattle.host.specs.Cab.{box_from, box_from3};
ghost use Rattle.host.specs.Reports.{join_report, prune_report, stream_report, validate_report, write_report};

use crate::cab::{box_of, box3_of};
use crate::reports::{
    JoinReport, PruneReport, StreamReport, ValidateReport, WriteReport, report_validate,
};
use join::call as join_call;
use prune::call as prune_call;
use stream::call as stream_call;
use tiles::validate;
use writer::write;

#[unsafe(no_mangle)]
pub extern "C" fn nearby_join(
    file: &[u8],
    xs: &[i32],
    ys: &[i32],
    k: u32,
    dist: &mut [u64],
    site: &mut [u32],
    cue: &mut [u32],
    marks: &mut [u8],
) -> JoinReport
    ensures answer { result ≡ join_report (join_end file.now (xs.now ∷ ys.now ∷ []) k
        (lent dist.old site.old cue.old marks.old)).outcome }
    ensures slices { lent dist.new site.new cue.new marks.new
        ≡ (join_end file.now (xs.now ∷ ys.now ∷ []) k
        (lent dist.old site.old cue.old marks.old)).slices }
{
    join_call::join(file, xs, ys, k, dist, site, cue, marks).into()
}

#[unsafe(no_mangle)]
pub extern "C" fn nearby_join3(
    file: &[u8],
    xs: &[i32],
    ys: &[i32],
    zs: &[i32],
    k: u32,
    dist: &mut [u64],
    site: &mut [u32],
    cue: &mut [u32],
    marks: &mut [u8],
) -> JoinReport
    ensures answer { result ≡ join_report (join_end file.now
        (xs.now ∷ ys.now ∷ zs.now ∷ []) k
        (lent dist.old site.old cue.old marks.old)).outcome }
    ensures slices { lent dist.new site.new cue.new marks.new
        ≡ (join_end file.now (xs.now ∷ ys.now ∷ zs.now ∷ []) k
        (lent dist.old site.old cue.old marks.old)).slices }
{
    join_call::join3(file, xs, ys, zs, k, dist, site, cue, marks).into()
}

// O as low x, high x, low y, high y.
#[unsafe(no_mangle)]
pub extern "C" fn nearby_prune(
    file: &[u8],
    x0: i32,
    x1: i32,
    y0: i32,
    y1: i32,
    k: u32,
    marks: &mut [u8],
) -> PruneReport
    ensures answer { result ≡ prune_report (prune_call file.now (box_from x0 x1 y0 y1) k marks.old) }
    ensures marks { marks.new ≡ marks_after file.now (box_from x0 x1 y0 y1) k marks.old
        (prune_call file.now (box_from x0 x1 y0 y1) k marks.old) }
{
    let o = box_of(x0, x1, y0, y1);
    prune_call::prune(file, o, k, marks).into()
}

// O with low z, high z after them.
#[unsafe(no_mangle)]
pub extern "C" fn nearby_prune3(
    file: &[u8],
    x0: i32,
    x1: i32,
    y0: i32,
    y1: i32,
    z0: i32,
    z1: i32,
    k: u32,
    marks: &mut [u8],
) -> PruneReport
    ensures answer { result ≡ prune_report (prune_call file.now (box_from3 x0 x1 y0 y1 z0 z1) k marks.old) }
    ensures marks { marks.new ≡ marks_after file.now (box_from3 x0 x1 y0 y1 z0 z1) k marks.old
        (prune_call file.now (box_from3 x0 x1 y0 y1 z0 z1) k marks.old) }
{
    prune_call::prune(file, box3_of(x0, x1, y0, y1, z0, z1), k, marks).into()
}

// O as low x, high x, low y, high y.
#[unsafe(no_mangle)]
pub extern "C" fn nearby_stream_order(
    file: &[u8],
    x0: i32,
    x1: i32,
    y0: i32,
    y1: i32,
    order: &mut [u32],
) -> StreamReport
    ensures answer { result ≡ stream_report (stream_call file.now (box_from x0 x1 y0 y1) order.old) }
    ensures order { order.new ≡ order_after file.now (box_from x0 x1 y0 y1) order.old
        (stream_call file.now (box_from x0 x1 y0 y1) order.old) }
{
    stream_call::stream_order(file, box_of(x0, x1, y0, y1), order).into()
}

// O with low z, high z after them.
#[unsafe(no_mangle)]
pub extern "C" fn nearby_stream_order3(
    file: &[u8],
    x0: i32,
    x1: i32,
    y0: i32,
    y1: i32,
    z0: i32,
    z1: i32,
    order: &mut [u32],
) -> StreamReport
    ensures answer { result ≡ stream_report (stream_call file.now (box_from3 x0 x1 y0 y1 z0 z1) order.old) }
    ensures order { order.new ≡ order_after file.now (box_from3 x0 x1 y0 y1 z0 z1) order.old
        (stream_call file.now (box_from3 x0 x1 y0 y1 z0 z1) order.old) }
{
    stream_call::stream_order(file, box3_of(x0, x1, y0, y1, z0, z1), order).into()
}

#[unsafe(no_mangle)]
pub extern "C" fn nearby_validate(file: &[u8]) -> ValidateReport
    ensures { result ≡ validate_report (validate file.now) }
{
    report_validate(validate::validate(file))
}

#[unsafe(no_mangle)]
pub extern "C" fn nearby_write(
    boxes: &[i32],
    counts: &[u32],
    xs: &[i32],
    ys: &[i32],
    cues: &[u32],
    out: &mut [u8],
) -> WriteReport
    ensures answer { result ≡ write_report (write_call
        (supply boxes.now counts.now (xs.now ∷ ys.now ∷ []) cues.now)
        (length out.old)) }
    ensures output { out.new ≡ write_exit
        (supply boxes.now counts.now (xs.now ∷ ys.now ∷ []) cues.now)
        out.old }
{
    write::write(boxes, counts, xs, ys, cues, out).into()
}

#[unsafe(no_mangle)]
pub extern "C" fn nearby_write3(
    boxes: &[i32],
    counts: &[u32],
    xs: &[i32],
    ys: &[i32],
    zs: &[i32],
    cues: &[u32],
    out: &mut [u8],
) -> WriteReport
    ensures answer { result ≡ write_report (write_call
        (supply boxes.now counts.now
        (xs.now ∷ ys.now ∷ zs.now ∷ []) cues.now)
        (length out.old)) }
    ensures output { out.new ≡ write_exit
        (supply boxes.now counts.now
        (xs.now ∷ ys.now ∷ zs.now ∷ []) cues.now)
        out.old }
{
    write::write3(boxes, counts, xs, ys, zs, cues, out).into()
}
