// The corners of a box, by number.
ghost use Rattle.std.specs.Prelude.{◌≡◌};
ghost use Rattle.geometry.specs.Corners.{end_at, corner};

fn end_at(s: [i32; 2], c: usize) -> i32
    ensures { result ≡ end_at s c }
{
    s[c % 2]
}

// Bit i of c chooses the end on axis i, 0 the low one. All three axes: those of a town on the plan are the first two.
pub fn corner(o: [[i32; 2]; 3], c: usize) -> [i32; 3]
    ensures { result ≡ corner o c }
{
    [end_at(o[0], c), end_at(o[1], c / 2), end_at(o[2], c / 4)]
}
