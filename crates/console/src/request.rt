// What the program reads: k, n, n stops, then a file.
ghost use Rattle.std.specs.Prelude.{◌++◌, ◌≡◌, ◌+◌, ◌*◌, ◌≤◌, length, drop};
ghost use Rattle.console.specs.Limits.{request_stops};
ghost use Rattle.console.specs.Request.{stops_asked, coordinates, head_length, well_formed};

use codec::reading::{i32_at, u32_at};

// The most bytes that are read, and the most stops.
pub const MAX_INPUT: usize = 65536;

pub const REQUEST_STOPS: usize = 128;

#[tactic(auto, unfolding(crate::specs::Request::stops_asked))]
pub fn stop_count(input: &[u8]) -> usize
    requires { 8 ≤ length input.now }
    ensures { result ≡ stops_asked input.now }
{
    u32_at(input, 4) as usize
}

// Where the stops end.
#[tactic(auto, unfolding(crate::specs::Request::head_length))]
pub fn head_length(n: usize) -> usize
    requires { n ≤ request_stops }
    ensures { result ≡ head_length n }
{
    8 + 8 * n
}

#[tactic(auto, using(crate::proofs::RequestLaws::limits), unfolding(crate::specs::Request::well_formed))]
pub fn well_formed(input: &[u8]) -> bool
    ensures { result ≡ well_formed input.now }
{
    if input.len() < 8 || MAX_INPUT < input.len() {
        return false;
    }
    let n = stop_count(input);
    n <= REQUEST_STOPS && head_length(n) <= input.len()
}

// One number of each of n stops, the first of them at an index, to the front of a slice.
pub fn read_coordinates(input: &[u8], at: usize, n: usize, out: &mut [i32])
    requires { (at + 8 * n ≤ length input.now + 4) × (n ≤ length out.old) }
    ensures { out.new ≡ coordinates input.now at n ++ drop n out.old }
{
    for i in 0..n {
        out[i] = i32_at(input, at + 8 * i);
    }
}
