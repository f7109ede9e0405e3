// Numbers put into rising order, nearly: a comb sort. Nothing rests on the order. What is proved is that no number is
// lost and none is new. It is no sort of the library: that one calls itself, and no function that C calls into does.
ghost use Rattle.std.specs.Prelude.{◌≤◌, length};
ghost use Rattle.arrange.specs.Inner.Places.{SameElements};

// Each of the first n numbers compared with the one a gap before it, and exchanged if it is less.
fn comb(a: &mut [u64], n: usize, gap: usize)
    requires { n ≤ length a.old }
    ensures { SameElements n a.old a.new }
{
    for i in gap..n {
        if a[i] < a[i - gap] {
            a.swap(i - gap, i);
        }
    }
}

// The first n numbers.
pub fn sort(a: &mut [u64], n: usize)
    requires { n ≤ length a.old }
    ensures { SameElements n a.old a.new }
{
    let mut gap = n;
    while 1 < gap {
        gap = gap.saturating_mul(10) / 13;
        comb(a, n, gap);
    }
}
