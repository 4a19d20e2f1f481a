// Prints the tables of the permutation as their generators make them (02, N8): the starting words in word order, then the round constants.
// The stored output was written by the Rust reference (tests/reference, print_constants), by its own Keccak.
#![tactic(auto)]

ghost use Rattle.std.specs.Prelude.{◌≡◌, ◌<◌};
ghost use Rattle.print_constants.specs.Text.{hex_line, number_on};
ghost use Rattle.print_constants.specs.Text.{glyph as Text·glyph, text as Text·text};

use std::io;

type State = [[u64; 5]; 4];

// 16 digits and a line end, in ASCII.
type Line = [u8; 17];

// A hex digit in ASCII: 48 is 0, and 55 + 10 is A. It isn't left to {:016X}: text's contract names each byte, and of a format only a String on the heap would.
fn glyph(d: u64) -> u8
    requires { d < 16 }
    ensures { result ≡ Text·glyph d }
{
    if d < 10 { 48 + d as u8 } else { 55 + d as u8 }
}

// w as its digits and the line's end, which is 10 in ASCII.
fn hex_line(w: u64) -> Line
    ensures { result ≡ hex_line w }
{
    let mut line = [10; 17];
    for k in 0..16 {
        line[k] = glyph((w >> (60 - 4 * k)) % 16);
    }
    line
}

// The number on line k: word number k of s below 20, then a constant.
fn number_on(s: State, c: [u64; 12], k: usize) -> u64
    requires { k < 32 }
    ensures { result ≡ number_on s c k }
{
    if k < 20 { s[k % 4][k / 4] } else { c[k - 20] }
}

// All 32 lines.
fn text() -> [Line; 32]
    ensures { result ≡ Text·text }
{
    let s = constants::starting_words();
    let c = constants::round_constants();
    let mut lines = [[0; 17]; 32];
    for (k, line) in lines.iter_mut().enumerate() {
        *line = hex_line(number_on(s, c, k));
    }
    lines
}

fn print_line(rt: &impl Print, line: Line) -> io::Result<()> {
    rt.write_all(&line)
}

fn main(rt: HostRuntime) -> io::Result<()> {
    for line in text() {
        print_line(&rt, line)?;
    }
    Ok(())
}
