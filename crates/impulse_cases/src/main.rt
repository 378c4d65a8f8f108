// Tries Impulse on stored inputs. Each line `< input` of standard input is written again; \n, \r, \t, \0 and \\ in it stand for bytes. After it comes
// what the program prints for that input, each line after `> `.
#![tactic(auto)]

ghost use Rattle.std.specs.Prelude.{◌≤◌, length};

use std::io;
use std::io::Write;

// The byte that a letter stands for after a backslash.
fn escaped(letter: u8) -> u8 {
    match letter {
        b'n' => b'\n',
        b'r' => b'\r',
        b't' => b'\t',
        b'0' => 0,
        _ => letter,
    }
}

// The input that a line spells, written to `out`, and its length.
fn unescape(line: &[u8], out: &mut [u8]) -> usize
    ensures { result ≤ length out.new }
{
    let mut at = 0;
    let mut after = false;
    for b in line {
        if after {
            at = text::put_byte(out, at, escaped(*b));
            after = false;
        } else if *b == b'\\' {
            after = true;
        } else {
            at = text::put_byte(out, at, *b);
        }
    }
    at
}

// Writes a line after `front`.
fn write_line<W: Write>(output: &mut W, front: &[u8], line: &[u8]) -> io::Result<()> {
    output.write_all(front)?;
    output.write_all(line)?;
    output.write_all(b"\n")
}

// One case: the line after `< `, and the lines of its answer.
fn try_case<W: Write>(output: &mut W, case: &[u8]) -> io::Result<()> {
    let mut input = [0u8; 64];
    let n = unescape(case, &mut input);
    let mut out = [0u8; 65536];
    let m = impulses::put_impulse(&mut out, &input[..n]);
    for line in out[..m].split_inclusive(|b| *b == b'\n') {
        write_line(output, b"> ", line.strip_suffix(b"\n").unwrap_or(line))?;
    }
    Ok(())
}

// Every line of the cases.
fn try_cases<W: Write>(output: &mut W, cases: &[u8]) -> io::Result<()> {
    for line in cases.split_inclusive(|b| *b == b'\n') {
        let line = line.strip_suffix(b"\n").unwrap_or(line);
        write_line(output, b"", line)?;
        if let Some(case) = line.get(2..) {
            try_case(output, case)?;
        }
    }
    Ok(())
}

fn main(rt: HostRuntime) -> io::Result<()> {
    let mut cases = [0u8; 65536];
    let n = inputs::read_full(&mut rt.stdin(), &mut cases)?;
    try_cases(&mut rt.stdout(), &cases[..n])
}
