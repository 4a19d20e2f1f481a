// Judges the round log on standard input (02, N9), and prints the verdict in one line.
#![tactic(auto)]

ghost use Rattle.std.specs.Prelude.{◌≡◌, ◌++◌, ◌+◌, ◌≤◌, length};
ghost use Rattle.bytes_le.specs.Bytes.{put_bytes};
ghost use Rattle.plain_text.specs.Text.{max_digits, field};
ghost use Rattle.round_log.specs.Findings.{answered};
ghost use Rattle.check_round_log.specs.Line.{line, line_room};

use permutation::MAX_ROUNDS;
use refusals::Refusal;
use round_log::Finding;
use state_bytes::STATE_BYTES;
use std::io;

// Bytes of the longest log.
const LONGEST: usize = STATE_BYTES * (1 + MAX_ROUNDS);

// Every line has room in so many bytes.
const LINE_ROOM: usize = 36;

// Puts a word, a number and more words at the front of out; returns their length.
fn put_words(out: &mut [u8], word: &[u8], n: u32, rest: &[u8]) -> usize
    requires { length word.now + (max_digits + length rest.now) ≤ length out.old }
    ensures { (result ≡ length (field word.now n ++ rest.now))
        × (out.new ≡ put_bytes out.old 0 (field word.now n ++ rest.now)) }
{
    let i = plain_text::put_field(out, 0, word, n as u64);
    bytes_le::put_bytes(out, i, rest)
}

// Puts the line of what was answered of a log at the front of out; returns its length.
fn put_line(out: &mut [u8], answer: Result<Finding, Refusal>) -> usize
    requires { line_room ≤ length out.old }
    ensures { (result ≡ length (line (answered answer))) × (out.new ≡ put_bytes out.old 0 (line (answered answer))) }
{
    match answer {
        Ok(Finding::AllAgree(r)) => put_words(out, b"agrees, ", r, b" rounds\n"),
        Ok(Finding::FirstDiffers(i)) => put_words(out, b"round ", i, b" differs\n"),
        Err(refusal) => put_words(out, b"refused ", refusal.number(), b"\n"),
    }
}

fn main(rt: HostRuntime) -> io::Result<()> {
    // One byte more than the longest log has, to see that an input is longer.
    let mut log = [0u8; LONGEST + 1];
    let n = input::read_full(&mut rt.reader(), &mut log)?;
    let answer = round_log::check_log(&log[..n]);
    let mut text = [0u8; LINE_ROOM];
    let count = put_line(&mut text, answer);
    rt.write_all(&text[..count])
}
