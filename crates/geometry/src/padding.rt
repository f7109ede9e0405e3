// Boxes and points of N axes, 2 or 3, among those of three. Inner code is written once for both numbers of axes: it takes
// arrays for three, with `axes`, 2 or 3, and looks at the first `axes` entries alone. The entry past them is padding:
// here zeros, but nothing depends on what it holds. Tests and sums name the axes one by one, with no loop and no closure
// over them: compiled code then asks once whether there is height.
ghost use Rattle.std.specs.Prelude.{◌≡◌, refl, take};
ghost use Rattle.std.proofs.lemmas.Bool.{leb-true};
ghost use Rattle.geometry.specs.Axes.{KnownAxes};

// The axes of a town on the plan, and of one with height.
pub const PLAN: usize = 2;

pub const HEIGHT: usize = 3;

// A town, for the bound `Town: HasAxes<N>` of the calls over N axes: it has two or three, and no other N compiles.
pub struct Town;

pub trait HasAxes<const N: usize> {
    ghost known: { KnownAxes N };
}

impl HasAxes<PLAN> for Town {
    ghost known = { (leb-true 2 2 refl, leb-true 2 3 refl) };
}

impl HasAxes<HEIGHT> for Town {
    ghost known = { (leb-true 2 3 refl, leb-true 3 3 refl) };
}

pub fn pad_box<const N: usize>(b: [[i32; 2]; N]) -> [[i32; 2]; 3]
where
    Town: HasAxes<N>,
    ensures { take N result ≡ b.entry }
{
    let x = b[0];
    let y = b[1];
    if N == HEIGHT {
        [x, y, b[2]]
    } else {
        [x, y, [0, 0]]
    }
}

pub fn pad_point<const N: usize>(p: [i32; N]) -> [i32; 3]
where
    Town: HasAxes<N>,
    ensures { take N result ≡ p.entry }
{
    let x = p[0];
    let y = p[1];
    if N == HEIGHT { [x, y, p[2]] } else { [x, y, 0] }
}
