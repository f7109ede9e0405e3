// Runs cases 1 to 8 of document 01 through the public calls: a line for each, `ok` where the call gives what the paper
// says. The same cases are proved of the definitions in console's theorem `twelve_cases`; this shows the compiled
// code. Then cases 3 and 7 with a third axis (02.2), which adds its own term, and a bad box and a bad point.
#![tactic(auto)]

use base::Refusal;
use geometry::distance::{max_dist, min_dist};
use geometry::margin;
use geometry::padding::{HasAxes, Town};
use std::io;

// The margin without its points.
fn margin<const N: usize>(
    o: [[i32; 2]; N],
    e: [[i32; 2]; N],
    b: [[i32; 2]; N],
) -> Result<i64, Refusal>
where
    Town: HasAxes<N>,
{
    Ok(margin::margin(o, e, b)?.margin)
}

// A refusal as the number and the block that the paper gives.
fn numbered(answer: Result<u64, Refusal>) -> Result<u64, (u32, u32)> {
    answer.map_err(|refusal| (refusal.reason.number(), refusal.block))
}

fn say(rt: &impl Print, name: &str, holds: bool) -> io::Result<()> {
    let verdict = if holds { "ok" } else { "bad" };
    println!(rt; "{name} {verdict}")
}

fn say_margins(rt: &impl Print) -> io::Result<()> {
    let o = [[0, 10], [0, 0]];
    let e = [[20, 30], [0, 0]];
    say(
        rt,
        "case 1: margin -2100",
        margin(o, e, [[60, 70], [0, 0]]) == Ok(-2100),
    )?;
    say(
        rt,
        "case 2: margin 0",
        margin(o, e, [[30, 70], [0, 0]]) == Ok(0),
    )?;
    say(
        rt,
        "case 3: margin -41",
        margin(o, e, [[31, 70], [0, 0]]) == Ok(-41),
    )?;
    say(
        rt,
        "case 4: margin -25",
        margin([[0, 10], [0, 4]], [[20, 30], [0, 4]], [[31, 70], [0, 4]]) == Ok(-25),
    )?;
    say(
        rt,
        "case 5: margin 8",
        margin([[0, 10], [0, 7]], [[20, 30], [0, 7]], [[31, 70], [0, 7]]) == Ok(8),
    )?;
    say(
        rt,
        "case 6: margin 75",
        margin(o, [[0, 0], [0, 0]], [[15, 15], [0, 0]]) == Ok(75),
    )
}

fn say_distances(rt: &impl Print) -> io::Result<()> {
    let b = [[10, 20], [0, 4]];
    say(
        rt,
        "case 7: near 26, far 250",
        min_dist(b, [5, 5]) == Ok(26) && max_dist(b, [5, 5]) == Ok(250),
    )?;
    let b = [[-3, 4], [-2, 2]];
    say(
        rt,
        "case 8: near 0, far 20",
        min_dist(b, [0, 0]) == Ok(0) && max_dist(b, [0, 0]) == Ok(20),
    )?;
    say(
        rt,
        "bad box: 9",
        numbered(max_dist([[5, 4], [-2, 2]], [0, 0])) == Err((9, 0)),
    )?;
    say(
        rt,
        "bad box and bad point: 9",
        numbered(min_dist([[5, 4], [-2, 2]], [0, 1_000_001])) == Err((9, 0)),
    )?;
    say(
        rt,
        "bad point: 13",
        numbered(max_dist([[4, 4], [-2, 2]], [0, 1_000_001])) == Err((13, 0)),
    )
}

fn say_with_height(rt: &impl Print) -> io::Result<()> {
    // The margin of case 3, -41, with E 6 above O and B: z adds 6 x 6.
    let o = [[0, 10], [0, 0], [0, 0]];
    let e = [[20, 30], [0, 0], [6, 6]];
    say(
        rt,
        "with height: margin -5",
        margin(o, e, [[31, 70], [0, 0], [0, 0]]) == Ok(-5),
    )?;
    // The distances of case 7, 26 and 250: z adds 2 x 2 and 8 x 8.
    let b = [[10, 20], [0, 4], [3, 9]];
    let p = [5, 5, 1];
    say(rt, "with height: near 30", min_dist(b, p) == Ok(30))?;
    say(rt, "with height: far 314", max_dist(b, p) == Ok(314))?;
    say(
        rt,
        "with height, bad box: 9",
        numbered(min_dist([[10, 20], [0, 4], [9, 3]], p)) == Err((9, 0)),
    )?;
    say(
        rt,
        "with height, bad point: 13",
        numbered(max_dist(b, [5, 5, -1_000_001])) == Err((13, 0)),
    )
}

fn main(rt: HostRuntime) -> io::Result<()> {
    say_margins(&rt)?;
    say_distances(&rt)?;
    say_with_height(&rt)
}
