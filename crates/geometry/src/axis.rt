// One axis: the square of a distance, the closest point, the farther end. Within the limits no difference overflows.
ghost use Rattle.std.specs.Prelude.{true, ◌≡◌, ◌*◌, nat_abs};
ghost use Rattle.geometry.specs.Box.{within_limits, valid_axis};
ghost use Rattle.geometry.specs.Distance.{square, closest, farthest};

// The square of a difference, whatever its sign.
fn squared(d: i32) -> u64
    ensures { result ≡ nat_abs d * nat_abs d }
{
    let w = d as i64;
    (w * w) as u64
}

pub fn square(x: i32, y: i32) -> u64
    requires { (within_limits x ≡ true) × (within_limits y ≡ true) }
    ensures { result ≡ square x y }
{
    squared(x - y)
}

pub fn closest(s: [i32; 2], x: i32) -> i32
    ensures { result ≡ closest s x }
{
    let l = s[0];
    let h = s[1];
    if x < l {
        return l;
    }
    if h < x {
        return h;
    }
    x
}

// The two differences together are the axis, so that the larger one is never below 0.
pub fn farthest(s: [i32; 2], x: i32) -> i32
    requires { (valid_axis s ≡ true) × (within_limits x ≡ true) }
    ensures { result ≡ farthest s x }
{
    let l = s[0];
    let h = s[1];
    if x - l < h - x { h } else { l }
}

// The square from x to the point of an axis closest to it.
pub fn min_square(s: [i32; 2], x: i32) -> u64
    requires { (valid_axis s ≡ true) × (within_limits x ≡ true) }
    ensures { result ≡ square x (closest s x) }
{
    squared(x - closest(s, x))
}

// The square from x to the end of an axis farther from it: of the larger of the two differences.
pub fn max_square(s: [i32; 2], x: i32) -> u64
    requires { (valid_axis s ≡ true) × (within_limits x ≡ true) }
    ensures { result ≡ square x (farthest s x) }
{
    let a = x - s[0];
    let b = s[1] - x;
    if a < b { squared(b) } else { squared(a) }
}
