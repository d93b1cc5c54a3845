// The text program: a request on standard input, its answer on standard output.
#![tactic(auto)]

ghost use Rattle.std.specs.Prelude.{◌≤◌, length, IfOk};

use std::io;
use std::io::Read;

// Reads until the buffer is full or the input ends: input may come in pieces. No `for`: only a read says how far it came.
fn read_input(input: &mut impl Read, buffer: &mut [u8]) -> io::Result<usize>
    ensures { IfOk result (λ n. n ≤ length buffer.old) }
{
    let mut done = 0;
    while done < buffer.len() {
        match input.read(&mut buffer[done..])? {
            0 => break,
            got => done += got,
        }
    }
    Ok(done)
}

// A line on standard error: what failed, and why. Where that cannot be written either, nothing is left to say it on.
fn fail(rt: &impl Eprint, what: &str, e: io::Error) {
    let _ = eprintln!(rt; "prefixsets: {what}: {e}");
}

// Answers an input, or says that it cannot be written. There is room for any answer.
fn reply(rt: &(impl Print + Eprint), input: &[u8]) {
    let mut out = [0; 65536];
    let written = answer::answer(input, &mut out);
    if let Err(e) = rt.write_all(&out[..written]) {
        fail(rt, "standard output", e);
    }
}

// A failed read gives no answer at all, and a line on standard error. There is room for one byte more than a good input
// has, so that a longer one is seen.
fn main(rt: HostRuntime) {
    let mut buffer = [0; 65537];
    match read_input(&mut rt.stdin(), &mut buffer) {
        Ok(n) => reply(&rt, &buffer[..n]),
        Err(e) => fail(&rt, "standard input", e),
    }
}
