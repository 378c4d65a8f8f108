// Impulse (document 01, 'Checked figures'): reads `code rate frames` and prints the voice's response, or why there is none. A line that asks for a
// response has 29 bytes at most, so 64 are enough to tell; the longest answer, 4,096 frames, has 56,234.
#![tactic(auto)]

ghost use Rattle.std.specs.Prelude.{◌≡◌, IfOk, IfSome, OnOk, length, take};
ghost use Rattle.std.specs.Io.{ReadsAtMost};
ghost use Rattle.std.specs.Io.BufRead.{take_through};
ghost use Rattle.std.specs.Io.KnownBytes.{Appends, Consumes};
ghost use Rattle.impulses.specs.Impulse.{impulse_text};
ghost use Rattle.impulse.specs.Line.{Takes};

use std::io;
use std::io::{Read, Write};

// The next byte of the input; none at its end.
fn next_byte<R: Read>(input: &mut R) -> io::Result<Option<u8>>
    ensures { IfOk result (Takes (R.remaining input.old) (R.remaining input.new)) }
{
    let mut one = [0u8; 1];
    if input.read(&mut one)? == 0 {
        return Ok(None);
    }
    Ok(Some(one[0]))
}

// Reads a line into `buf`, up to its newline, the input's end or the end of `buf`, and answers the number of its bytes. Byte by byte, so
// that nothing after the newline is waited for or taken from the next reader.
fn read_line<R: Read>(input: &mut R, buf: &mut [u8]) -> io::Result<usize>
    ensures count { ReadsAtMost result buf.new }
    ensures line { IfOk result (λ n. IfSome (R.remaining input.old)
        (λ xs. take n buf.new ≡ take (length buf.new) (take_through 10 xs))) }
    ensures no_more { IfOk result (λ n. Consumes (R.remaining input.old) (R.remaining input.new) (take n buf.new)) }
{
    for n in 0..buf.len() {
        let Some(b) = next_byte(input)? else {
            return Ok(n);
        };
        buf[n] = b;
        if b == b'\n' {
            return Ok(n + 1);
        }
    }
    Ok(buf.len())
}

// Reads a line and writes its answer, which is the whole input's.
fn answer<R: Read, W: Write>(input: &mut R, output: &mut W) -> io::Result<()>
    ensures line { OnOk result (IfSome (R.remaining input.old)
        (λ xs. Consumes (R.remaining input.old) (R.remaining input.new) (take 64 (take_through 10 xs)))) }
    ensures text { OnOk result (IfSome (R.remaining input.old)
        (λ xs. Appends (W.contents output.old) (W.contents output.new) (take 65536 (impulse_text xs)))) }
{
    let mut line = [0u8; 64];
    let n = read_line(input, &mut line)?;
    let mut out = [0u8; 65536];
    let m = impulses::put_impulse(&mut out, &line[..n]);
    output.write_all(&out[..m])
}

fn main(rt: HostRuntime) -> io::Result<()> {
    answer(&mut rt.stdin(), &mut rt.stdout())
}
