// The call of 02.5, "A sequence for streaming".
ghost use Rattle.std.specs.Prelude.{◌≡◌};
ghost use Rattle.base.specs.Answer.{outcome_of};
ghost use Rattle.stream.specs.Stream.{stream_call, order_after};

use crate::taking::put_order;
use base::{Reason, Refusal};
use blocks::directory::read_directory;
use geometry::limits;
use geometry::padding::{HasAxes, Town, pad_box};

// For a town of N axes: T.
pub fn stream_order<const N: usize>(
    f: &[u8],
    o: [[i32; 2]; N],
    order: &mut [u32],
) -> Result<u32, Refusal>
where
    Town: HasAxes<N>,
    ensures result_value { outcome_of result ≡ stream_call f.now o.entry order.old }
    ensures order_after { order.new ≡ order_after f.now o.entry order.old
        (stream_call f.now o.entry order.old) }
{
    let h = read_directory(f)?;
    let region = pad_box(o);
    if h.axes != N {
        return Err(Reason::Axes.at(0));
    }
    if !limits::valid_box(N, region) {
        return Err(Reason::Box.at(0));
    }
    if order.len() < h.tiles {
        return Err(Reason::Short.at(0));
    }
    put_order(f, h, region, order);
    let tiles = h.tiles as u32;
    Ok(tiles)
}
