// Bytes put into a lent buffer, and numbers as little-endian bytes. Internal: only crates of ours call these functions.
#![tactic(auto)]

ghost use Rattle.std.specs.Prelude.{◌≡◌, ◌+◌, ◌≤◌, ◌<◌, ◌^◌, length, take, drop};
ghost use Rattle.bytes_le.specs.Bytes.{put_bytes, le, unle, le_at};

// Buffer and index, and no cursor: callers put at the offsets of a layout, which their contracts name.
// Copies all of src into out from index at on; returns the index behind it.
pub fn put_bytes(out: &mut [u8], at: usize, src: &[u8]) -> usize
    requires { at + length src.now ≤ length out.old }
    ensures { (result ≡ at + length src.now) × (out.new ≡ put_bytes out.old at src.now) }
{
    // copy_from_slice is a call of memmove where the compiler does not see that the two are apart, and the libraries link only memcpy and memset.
    for (i, byte) in src.iter().enumerate() {
        out[at + i] = *byte;
    }
    at + src.len()
}

// All eight bytes of a word: one store, and one load. By load_le twelve rounds forward in a call of core_c take 4,187 instructions, and may take 3,900.
pub fn store_u64(out: &mut [u8], at: usize, x: u64) -> usize
    requires { at + 8 ≤ length out.old }
    ensures { (result ≡ at + 8) × (out.new ≡ put_bytes out.old at (le 8 x)) }
{
    out[at..at + 8].copy_from_slice(&x.to_le_bytes());
    at + 8
}

pub fn load_u64(b: &[u8], at: usize) -> u64
    requires { at + 8 ≤ length b.now }
    ensures { (result ≡ unle (take 8 (drop at b.now))) × (le 8 result ≡ take 8 (drop at b.now)) }
{
    let b = &b[at..at + 8];
    u64::from_le_bytes([b[0], b[1], b[2], b[3], b[4], b[5], b[6], b[7]])
}

// Puts the n low bytes of x into out from index at on; returns the index behind them. A loop: n has no bound here, and to_le_bytes gives eight bytes.
pub fn store_le(out: &mut [u8], at: usize, n: usize, x: u64) -> usize
    requires { at + n ≤ length out.old }
    ensures { (result ≡ at + n) × (out.new ≡ put_bytes out.old at (le n x)) }
{
    let mut rest = x;
    for byte in out[at..at + n].iter_mut() {
        *byte = (rest % 256) as u8;
        rest = rest / 256;
    }
    at + n
}

// The number whose n bytes stand in b from index at on.
pub fn load_le(b: &[u8], at: usize, n: usize) -> u64
    requires { (n ≤ 8) × (at + n ≤ length b.now) }
    ensures { (result ≡ le_at n b.now at) × (le n result ≡ take n (drop at b.now)) × (result < 256 ^ n) }
{
    let mut bytes = [0; 8];
    bytes[..n].copy_from_slice(&b[at..at + n]);
    u64::from_le_bytes(bytes)
}
