// The batch program: a schedule and an image from standard input, the report or the line of a refusal to standard output.
#![tactic(auto)]

ghost use Rattle.std.specs.Prelude.{◌≤◌, ◌<◌, length, take, IfOk, OnOk, IfSome};
ghost use Rattle.std.specs.Io.KnownBytes.{Appends, Consumes, IsAtEnd};
ghost use Rattle.report.specs.Report.{output_of};

use std::io;
use std::io::{Read, Write};

// An input that fills it is refused for its length, whatever follows.
const INPUT_ROOM: usize = batch::MOST_INPUT + 1;

// Reads until the buffer is full or the input ends. The answer is how many bytes were read, which lie at the buffer's front. The loop is written out,
// since std has no method that stops at the input's end and says how much of a lent buffer it filled.
fn read_full<R: Read>(input: &mut R, buffer: &mut [u8]) -> io::Result<usize>
    ensures fits { IfOk result (λ n. n ≤ length buffer.new) }
    ensures bytes { IfOk result (λ n. Consumes (R.remaining input.old) (R.remaining input.new) (take n buffer.new)) }
    ensures end { IfOk result (λ n. n < length buffer.new → IsAtEnd (R.remaining input.new)) }
{
    let mut done = 0;
    while done < buffer.len() {
        let n = input.read(&mut buffer[done..])?;
        if n == 0 {
            break;
        }
        done += n;
    }
    Ok(done)
}

// Writes the output of the whole input, of which it reads no more than the output depends on.
fn answer<R: Read, W: Write>(input: &mut R, output: &mut W) -> io::Result<()>
    ensures { OnOk result (IfSome (R.remaining input.old) (λ xs. Appends (W.contents output.old) (W.contents output.new) (output_of xs))) }
{
    let mut bytes = [0; INPUT_ROOM];
    let n = read_full(input, &mut bytes)?;
    let mut out = batch::output_buffer();
    let k = batch::batch(&bytes[..n], &mut out);
    output.write_all(&out[..k])
}

fn main(rt: HostRuntime) -> io::Result<()> {
    answer(&mut rt.stdin(), &mut rt.stdout())
}
