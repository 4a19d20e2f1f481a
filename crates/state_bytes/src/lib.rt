// The state of ICEPOLE: its words, read and written one by one, with contracts that speak of its bytes. Internal: only crates of ours call these functions.
#![tactic(auto)]

ghost use Rattle.std.specs.Prelude.{◌≡◌, ◌+◌, ◌*◌, ◌≤◌, ◌<◌, length, take, drop, min};
ghost use Rattle.bytes_le.specs.Bytes.{le, le_at, put_bytes};
ghost use Rattle.state_bytes.specs.StateBytes.{state_words, state_length, bytes_of, state_of, permuted, start_bytes};

type State = [[u64; 5]; 4];

// Words and bytes of a state.
const STATE_WORDS: usize = 20;

pub const STATE_BYTES: usize = 8 * STATE_WORDS;

// Word number w.
pub fn word(s: &State, w: usize) -> u64
    requires { w < state_words }
    ensures { le 8 result ≡ take 8 (drop (8 * w) (bytes_of s.now)) }
{
    s[w % 4][w / 4]
}

pub fn set_word(s: &mut State, w: usize, x: u64)
    requires { w < state_words }
    ensures { bytes_of s.new ≡ put_bytes (bytes_of s.old) (8 * w) (le 8 x) }
{
    let column = &mut s[w % 4];
    column[w / 4] = x;
}

// The state whose bytes stand at the front of b.
pub fn load_state(s: &mut State, b: &[u8])
    requires { state_length ≤ length b.now }
    ensures { bytes_of s.new ≡ take state_length b.now }
{
    for w in 0..STATE_WORDS {
        set_word(s, w, bytes_le::load_u64(b, 8 * w));
    }
}

// Word number w of the state whose bytes stand in b from index at on.
fn word_in(b: &[u8], at: usize, w: usize) -> u64
    requires { (w < state_words) × (at + state_length ≤ length b.now) }
    ensures { result ≡ le_at 8 (take state_length (drop at b.now)) (8 * w) }
{
    bytes_le::load_u64(b, at + 8 * w)
}

// The state whose bytes stand in b from index at on, by value.
pub fn state_in(b: &[u8], at: usize) -> State
    requires { at + state_length ≤ length b.now }
    ensures { result ≡ state_of (take state_length (drop at b.now)) }
{
    let mut s = [[0; 5]; 4];
    for w in 0..STATE_WORDS {
        s[w % 4][w / 4] = word_in(b, at, w);
    }
    s
}

// Puts the bytes of a state at the front of b.
pub fn store_state(s: &State, b: &mut [u8])
    requires { state_length ≤ length b.old }
    ensures { b.new ≡ put_bytes b.old 0 (bytes_of s.now) }
{
    for w in 0..STATE_WORDS {
        bytes_le::store_u64(b, 8 * w, word(s, w));
    }
}

// The state before key and nonce.
pub fn start(s: &mut State)
    ensures { bytes_of s.new ≡ start_bytes }
{
    *s = permutation::start_state();
}

// P6 is permute::<6>, and P12 permute::<12>.
pub fn permute<const N: usize>(s: &mut State)
    ensures { bytes_of s.new ≡ permuted (min N 12) (bytes_of s.old) }
{
    permutation::permute::<N>(s);
}
