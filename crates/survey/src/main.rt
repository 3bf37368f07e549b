// The survey program (document 01, section 6): a plate's text from standard input, the answer to
// standard output. The buffer is longer than the longest text, so that what it holds is enough to tell
// a text that is too long. What was read before an input ended or failed is taken for the text.
#![tactic(auto)]

ghost use Rattle.std.specs.Prelude.{◌≡◌, ◌≤◌, length};

use std::io::{self, Read, Write};
use surveying::MAX_OUTPUT;

fn main(rt: HostRuntime) -> io::Result<()> {
    let mut text = [0u8; 65536];
    let got = read_full(&mut rt.stdin(), &mut text);
    let mut out = answer_buffer();
    let written = surveying::survey(&text[..got], &mut out);
    io::writer(&rt).write_all(&out[..written])
}

// How many bytes were read before the buffer was full, or the input ended or failed. By hand: read_exact
// does not tell how many it read of a shorter input, and read_to_end wants a heap.
fn read_full<R: Read>(from: &mut R, to: &mut [u8]) -> usize
    ensures { result ≤ length to.new }
{
    let mut done = 0;
    while done < to.len() {
        let n = from.read(&mut to[done..]).unwrap_or(0);
        if n == 0 {
            break;
        }
        done += n;
    }
    done
}

// What is in it before the answer is free, so that its length is all that is said.
fn answer_buffer() -> [u8; MAX_OUTPUT]
    ensures { 16384 ≡ length result }
{
    [0; MAX_OUTPUT]
}
