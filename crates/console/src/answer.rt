// The program's answer to what it read.
ghost use Rattle.std.specs.Prelude.{◌≡◌, true, [], ◌∷◌, ◌≤◌, length};
ghost use Rattle.base.specs.Answer.{outcome_of};
ghost use Rattle.join.specs.Join.{join_end};
ghost use Rattle.list.specs.Slices.{lists};
ghost use Rattle.console.specs.Inner.Room.{output_room, Printable};
ghost use Rattle.console.specs.Limits.{request_stops};
ghost use Rattle.console.specs.Output.{answer_text, end_text, end_of, output, empty_slices};
ghost use Rattle.console.specs.Request.{stops_asked, k_of, well_formed};
ghost use Rattle.console.specs.Text.{Wrote};

use crate::line::{put_counts, put_refused, put_stops};
use crate::request;
use crate::text::put_text;
use base::Refusal;
use blocks::layout::MAX_TILES;
use codec::reading::u32_at;
use join::call::{Joined, join};

// Room for every output: a line of counts and a line for each stop, none longer than this.
const COUNTS_ROOM: usize = 53;

const STOP_ROOM: usize = 27 + 44 * (search::MAX_K as usize);

pub const ROOM: usize = COUNTS_ROOM + request::REQUEST_STOPS * STOP_ROOM;

// Places that a request can ask for.
const PLACES: usize = request::REQUEST_STOPS * (search::MAX_K as usize);

fn put_answer(
    out: &mut [u8],
    n: usize,
    k: usize,
    answer: Result<Joined, Refusal>,
    dist: &[u64],
    site: &[u32],
    cue: &[u32],
) -> usize
    requires output_room_in_bounds { output_room ≤ length out.old }
    requires printable { Printable n k (lists dist.now site.now cue.now) (outcome_of answer) }
    ensures text { Wrote out.old 0
        (answer_text n k (lists dist.now site.now cue.now) (outcome_of answer))
        out.new result }
    ensures end { result ≤ output_room }
{
    match answer {
        Ok(joined) => {
            let next = put_counts(out, 0, joined.tiles, joined.opened, joined.pruned);
            put_stops(out, next, dist, site, cue, k, joined.used as usize, n)
        }
        Err(refusal) => put_refused(out, 0, refusal.reason.number(), refusal.block),
    }
}

// Joins in slices of its own, and writes the answer.
fn put_join(file: &[u8], xs: &[i32], ys: &[i32], k: u32, out: &mut [u8]) -> usize
    requires { (length xs.now ≤ request_stops) × (output_room ≤ length out.old) }
    ensures text { Wrote out.old 0
        (end_text (length xs.now) k
        (join_end file.now (xs.now ∷ ys.now ∷ []) k empty_slices)) out.new result }
    ensures end { result ≤ output_room }
{
    let mut dist = [0u64; PLACES];
    let mut site = [0u32; PLACES];
    let mut cue = [0u32; PLACES];
    let mut marks = [0u8; MAX_TILES];
    let answer = join(file, xs, ys, k, &mut dist, &mut site, &mut cue, &mut marks);
    put_answer(out, xs.len(), k as usize, answer, &dist, &site, &cue)
}

#[tactic(auto, using(crate::proofs::RequestLaws::requests), unfolding(crate::specs::Request::head_length))]
fn put_request(input: &[u8], out: &mut [u8]) -> usize
    requires { (well_formed input.now ≡ true) × (output_room ≤ length out.old) }
    ensures text { Wrote out.old 0
        (end_text (stops_asked input.now) (k_of input.now) (end_of input.now))
        out.new result }
    ensures end { result ≤ output_room }
{
    let n = request::stop_count(input);
    let k = u32_at(input, 0);
    let mut xs = [0i32; request::REQUEST_STOPS];
    let mut ys = [0i32; request::REQUEST_STOPS];
    request::read_coordinates(input, 8, n, &mut xs);
    request::read_coordinates(input, 12, n, &mut ys);
    let start = request::head_length(n);
    put_join(&input[start..], &xs[..n], &ys[..n], k, out)
}

// The whole of the program but for reading and writing: puts the output for an input at the start of out, and gives its
// length.
pub fn respond(input: &[u8], out: &mut [u8; ROOM]) -> usize
    ensures text { Wrote out.old 0 (output input.now) out.new result }
    ensures end { result ≤ length out.new }
{
    if request::well_formed(input) {
        return put_request(input, out);
    }
    put_text(out, 0, b"input\n")
}
