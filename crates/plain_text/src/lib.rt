// Words and decimal numbers, put into a lent buffer as text in ASCII. Internal: only crates of ours call these functions.
#![tactic(auto)]

ghost use Rattle.std.specs.Prelude.{◌≡◌, ◌+◌, ◌≤◌, length};
ghost use Rattle.bytes_le.specs.Bytes.{put_bytes};
ghost use Rattle.plain_text.specs.Text.{max_digits, field};

use itoa::Buffer;

// Puts a word and a number into out from index at on; returns the index behind them.
pub fn put_field(out: &mut [u8], at: usize, word: &[u8], n: u64) -> usize
    requires { at + (length word.now + max_digits) ≤ length out.old }
    ensures { (result ≡ at + length (field word.now n)) × (out.new ≡ put_bytes out.old at (field word.now n)) }
{
    let i = bytes_le::put_bytes(out, at, word);
    let mut digits = Buffer::new();
    bytes_le::put_bytes(out, i, digits.format(n).as_bytes())
}
