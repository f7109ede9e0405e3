// The program of document 01: standard input to standard output. All that it computes is `console::answer::respond`;
// here is only what an operating system can refuse.
#![tactic(auto)]

ghost use Rattle.std.specs.Prelude.{◌≤◌, length, IfOk};

use console::answer::{ROOM, respond};
use console::request::MAX_INPUT;
use std::io::{self, Read, Write};

// Reads until the end of the input, or until the buffer is full. An error is not taken for the end of the input. A
// `while`: how much a read gives shows only then.
fn read_all<R: Read>(source: &mut R, buf: &mut [u8]) -> io::Result<usize>
    ensures { IfOk result (λ n. n ≤ length buf.new) }
{
    let mut done: usize = 0;
    while done < buf.len() {
        let got = source.read(&mut buf[done..])?;
        if got == 0 {
            return Ok(done);
        }
        done += got;
    }
    Ok(done)
}

fn main(rt: HostRuntime) {
    // One byte more than is taken, so that a longer input is seen.
    let mut input = [0u8; MAX_INPUT + 1];
    let Ok(n) = read_all(&mut rt.stdin(), &mut input) else {
        let _ = rt
            .stderr()
            .write_all(b"nearby: standard input cannot be read\n");
        return;
    };
    let mut out = [0u8; ROOM];
    let length = respond(&input[..n], &mut out);
    if rt.stdout().write_all(&out[..length]).is_err() {
        let _ = rt
            .stderr()
            .write_all(b"nearby: standard output cannot be written\n");
    }
}
