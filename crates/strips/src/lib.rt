// A message sealed in strips under ICEPOLE-128 (01, "Afterwards"): start, then strips of message, then the end. For every cutting the bytes equal whole
// sealing.
#![tactic(auto)]

ghost use Rattle.std.specs.Prelude.{◌≡◌, ◌+◌, ◌≤◌, length, drop};
ghost use Rattle.refusals.specs.Numbers.{number_of, mark_of};
ghost use Rattle.bytes_le.specs.Bytes.{put_bytes};
ghost use Rattle.blocks.specs.Contexts.{associated};
ghost use Rattle.icepole.specs.declared.Variant.TheVariants.{Icepole128};
ghost use Rattle.icepole.specs.Answers.{unless};
ghost use Rattle.icepole.specs.Variants.{sizes};
ghost use Rattle.state_bytes.specs.StateBytes.{bytes_of};
ghost use Rattle.strips.specs.Machine.{held, fed, fed_bytes, fill_of};
ghost use Rattle.strips.specs.Answers.{block, start_number, strip_number, end_number, call_as, answered_as, not_started, start_answer, start_output, strip_answer, strip_output, end_answer, end_output};

use blocks::{BLOCK_BYTES, BLOCK_WORDS};
use icepole::{Context, Lengths, MAX_LENGTH, SECRET_BYTES, TAG_BYTES, Variant};
use refusals::Refusal;
use state_bytes::STATE_BYTES;

type State = [[u64; 5]; 4];

// A state's bytes.
type StateBytes = [u8; STATE_BYTES];

// Between two strips: the state's bytes, with the block that waits xored in, and how many bytes of the message came. It may be made by anybody. The end marks it
// finished (01, "Afterwards") and leaves the count, so that the mark is a field: the theorems of StripLists (`claims`) speak of both.
#[derive(Clone, Copy)]
pub struct StripState {
    pub bytes: StateBytes,
    pub count: usize,
    pub finished: bool,
}

// What each call answers: the count of bytes written, and the state for the next call. A call turned down returns the state it was given; a start, a finished
// one.
#[derive(Clone, Copy)]
pub struct StripOutcome {
    pub written: Result<usize, Refusal>,
    pub state: StripState,
}

// ---- whether a call is turned down, from the lengths of what is lent
// A start is turned down as sealing no message is, but needs no room for the tag. An output longer than the secret number is as good as one of that length, to
// which the tag's can be added without wrapping.
pub fn may_start(l: Lengths, secret: usize, out: usize) -> Result<(), Refusal>
    ensures number { number_of result ≡ start_number (sizes Icepole128) l.key l.nonce secret (l.first + l.second) out }
    ensures mark { mark_of result ≡ 0 }
{
    let room = out.min(SECRET_BYTES);
    icepole::may_seal(Variant::Icepole128, l, secret, 0, room + TAG_BYTES)
}

fn may_strip(finished: bool, count: usize, message: usize, out: usize) -> Result<(), Refusal>
    ensures number { number_of result ≡ strip_number finished count message out }
    ensures mark { mark_of result ≡ 0 }
{
    if finished {
        return Err(Refusal::StripState);
    }
    if count > MAX_LENGTH {
        return Err(Refusal::StripState);
    }
    if message > MAX_LENGTH - count {
        return Err(Refusal::DataTooLong);
    }
    if out < message {
        return Err(Refusal::OutputTooShort);
    }
    Ok(())
}

fn may_end(finished: bool, count: usize, out: usize) -> Result<(), Refusal>
    ensures number { number_of result ≡ end_number finished count out }
    ensures mark { mark_of result ≡ 0 }
{
    if finished {
        return Err(Refusal::StripState);
    }
    if count > MAX_LENGTH {
        return Err(Refusal::StripState);
    }
    if out < TAG_BYTES {
        return Err(Refusal::OutputTooShort);
    }
    Ok(())
}

// ---- the bytes
// That an output has room for the part that is sealed into it stands in each contract: a struct of both slices would be made for these four functions alone.
// How many bytes of the block that waits came, of so many in all.
fn fill_of(count: usize) -> usize
    ensures { (result ≡ fill_of block count) × (result ≤ block) }
{
    if count == 0 {
        return 0;
    }
    (count - 1) % BLOCK_BYTES + 1
}

// Seals m within the block that waits, into out at its front.
fn feed_block(b: &mut StateBytes, fill: usize, m: &[u8], out: &mut [u8])
    requires { (fill + length m.now ≤ block) × (length m.now ≤ length out.old) }
    ensures { (held b.new (fill + length m.now) ≡ fed block (held b.old fill) m.now)
        × (out.new ≡ put_bytes out.old 0 (fed_bytes block (held b.old fill) m.now)) }
{
    for (j, x) in m.iter().enumerate() {
        let c = b[fill + j] ^ x;
        b[fill + j] = c;
        out[j] = c;
    }
}

// Seals the bytes of m from index at on, at most a block, where one begins. The block waits: b gets the state's bytes with it. An index and no slice: the words of
// `blocks` are put at an index of out too.
fn feed_last(s: &mut State, m: &[u8], at: usize, out: &mut [u8], b: &mut StateBytes)
    requires { (at ≤ length m.now) × (length m.now ≤ at + block) × (length m.now ≤ length out.old) }
    ensures { (b.new ≡ (fed block (held (bytes_of s.old) 0) (drop at m.now)).state)
        × (out.new ≡ put_bytes out.old at (fed_bytes block (held (bytes_of s.old) 0) (drop at m.now))) }
{
    // With a count of words that the compiler knows, the words of a full block go to b at once.
    if m.len() - at == BLOCK_BYTES {
        blocks::encrypt_words(s, m, at, BLOCK_WORDS, out, at);
        return state_bytes::store_state(s, b);
    }
    blocks::encrypt_bytes(s, m, at, m.len() - at, out, at);
    state_bytes::store_state(s, b)
}

// The same for any number of bytes, word by word.
fn feed_blocks(s: &mut State, m: &[u8], from: usize, out: &mut [u8], b: &mut StateBytes)
    requires { (from ≤ length m.now) × (length m.now ≤ length out.old) }
    ensures { (b.new ≡ (fed block (held (bytes_of s.old) 0) (drop from m.now)).state)
        × (out.new ≡ put_bytes out.old from (fed_bytes block (held (bytes_of s.old) 0) (drop from m.now))) }
{
    let mut at = from;
    // No `for` is plainer: the last block, full or not, waits, and begins at the index that the loop ends with.
    while BLOCK_BYTES < m.len() - at {
        blocks::encrypt_words(s, m, at, BLOCK_WORDS, out, at);
        blocks::finish(s, BLOCK_BYTES, 1);
        at += BLOCK_BYTES;
    }
    feed_last(s, m, at, out, b)
}

// A strip is sealed into out, at its front; b has the state's bytes, and fill those of the block that waits.
fn feed(b: &mut StateBytes, fill: usize, m: &[u8], out: &mut [u8])
    requires { (fill ≤ block) × (length m.now ≤ length out.old) }
    ensures { (b.new ≡ (fed block (held b.old fill) m.now).state)
        × (out.new ≡ put_bytes out.old 0 (fed_bytes block (held b.old fill) m.now)) }
{
    let room = BLOCK_BYTES - fill;
    if m.len() <= room {
        return feed_block(b, fill, m, out);
    }
    feed_block(b, fill, &m[..room], out);
    let mut s = [[0u64; 5]; 4];
    state_bytes::load_state(&mut s, b);
    blocks::finish(&mut s, BLOCK_BYTES, 1);
    feed_blocks(&mut s, m, room, out, b)
}

// A strip in place: where it is not turned down, the state's bytes after it in b, and the strip in out at its front, sealed. Internal: `strip` and the C call of
// a strip are made of it, and that call has the state in a lent slice, in parts.
pub fn strip_in(
    b: &mut StateBytes,
    count: usize,
    finished: bool,
    message: &[u8],
    out: &mut [u8],
) -> Result<(), Refusal>
    ensures number { number_of result ≡ strip_number finished count (length message.now) (length out.old) }
    ensures mark { mark_of result ≡ 0 }
    ensures state { b.new ≡ unless (number_of result) b.old (fed block (held b.old (fill_of block count)) message.now).state }
    ensures output { out.new ≡ unless (number_of result) out.old
        (put_bytes out.old 0 (fed_bytes block (held b.old (fill_of block count)) message.now)) }
{
    may_strip(finished, count, message.len(), out.len())?;
    feed(b, fill_of(count), message, out);
    Ok(())
}

// ---- the calls, with the state lent: the count of bytes written
fn start_into(
    x: Context<'_>,
    secret: &[u8],
    out: &mut [u8],
    state: &mut StripState,
) -> Result<usize, Refusal>
    requires { state.old ≡ not_started }
    ensures answer { call_as result state.new ≡ start_answer x.entry.key.now x.entry.nonce.now secret.now (associated x.entry) out.old }
    ensures output { out.new ≡ start_output x.entry.key.now x.entry.nonce.now secret.now (associated x.entry) out.old }
{
    may_start(x.lengths(), secret.len(), out.len())?;
    let q = icepole::sizes_of(Variant::Icepole128);
    let mut ready = [[0u64; 5]; 4];
    blocks::seal_ready(&mut ready, q, x, secret, out);
    state_bytes::store_state(&ready, &mut state.bytes);
    state.finished = false;
    Ok(q.secret)
}

fn strip_into(state: &mut StripState, message: &[u8], out: &mut [u8]) -> Result<usize, Refusal>
    ensures answer { call_as result state.new ≡ strip_answer state.old message.now out.old }
    ensures output { out.new ≡ strip_output state.old message.now out.old }
{
    strip_in(&mut state.bytes, state.count, state.finished, message, out)?;
    state.count += message.len();
    Ok(message.len())
}

fn end_into(state: &mut StripState, out: &mut [u8]) -> Result<usize, Refusal>
    ensures answer { call_as result state.new ≡ end_answer state.old out.old }
    ensures output { out.new ≡ end_output state.old out.old }
{
    may_end(state.finished, state.count, out.len())?;
    let mut last = [[0u64; 5]; 4];
    state_bytes::load_state(&mut last, &state.bytes);
    blocks::finish(&mut last, fill_of(state.count), 0);
    blocks::put_tag(&last, out, 0);
    state.finished = true;
    Ok(TAG_BYTES)
}

// ---- the calls
// The sealed secret number is written; strips may follow.
pub fn start(x: Context<'_>, secret: &[u8], out: &mut [u8]) -> StripOutcome
    ensures answer { answered_as result ≡ start_answer x.entry.key.now x.entry.nonce.now secret.now (associated x.entry)
        out.old }
    ensures output { out.new ≡ start_output x.entry.key.now x.entry.nonce.now secret.now (associated x.entry)
        out.old }
{
    let mut state = StripState {
        bytes: [0u8; STATE_BYTES],
        count: 0,
        finished: true,
    };
    let written = start_into(x, secret, out, &mut state);
    StripOutcome { written, state }
}

// A strip of message, of any length, is written, sealed.
pub fn strip(s: StripState, message: &[u8], out: &mut [u8]) -> StripOutcome
    ensures answer { answered_as result ≡ strip_answer s message.now out.old }
    ensures output { out.new ≡ strip_output s message.now out.old }
{
    let mut state = s;
    let written = strip_into(&mut state, message, out);
    StripOutcome { written, state }
}

// The tag is written, and the state is finished.
pub fn end(s: StripState, out: &mut [u8]) -> StripOutcome
    ensures answer { answered_as result ≡ end_answer s out.old }
    ensures output { out.new ≡ end_output s out.old }
{
    let mut state = s;
    let written = end_into(&mut state, out);
    StripOutcome { written, state }
}
