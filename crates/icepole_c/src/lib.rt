// The calls of the camera's main firmware, which is in C: sealing, opening and opening in place under a variant, and strips of 128. Each returns the refusal
// number, 0 when done, and takes what it is lent apart, as C lends it. The crate `icepole_lib` gives them to C under the names of include/icepole.h, sealing and
// opening once for each variant.
#![tactic(auto)]

ghost use Rattle.std.specs.Prelude.{◌≡◌, ◌++◌, ◌+◌, ◌≤◌, length};
ghost use Rattle.bytes_le.specs.Bytes.{put_bytes};
ghost use Rattle.blocks.specs.Lengths.{max_secret};
ghost use Rattle.icepole.specs.Answers.{opened_as};
ghost use Rattle.icepole_c.specs.Calls.{info_after, SealContract, OpenContract, InPlaceContract};
ghost use Rattle.icepole_c.specs.Strips.{strip_state_length, strip_state_bytes, strip_state_in, StartContract, StripContract, EndContract};

use icepole::{Context, Released, Variant};
use refusals::Refusal;
use state_bytes::STATE_BYTES;
use strips::StripState;

pub fn seal(
    v: Variant,
    key: &[u8],
    nonce: &[u8],
    secret: &[u8],
    first: &[u8],
    second: &[u8],
    message: &[u8],
    out: &mut [u8],
) -> u32
    ensures { SealContract v key.now nonce.now secret.now
        (first.now ++ second.now) message.now out.old result out.new }
{
    let context = Context {
        key,
        nonce,
        first,
        second,
    };
    let sealed = icepole::seal(v, context, secret, message, out);
    refusals::number_of(&sealed)
}

// Where the secret number stands in what opening puts into info, behind the message's length.
const SECRET_AT: usize = 8;

// What opening answered, for C: where it was not turned down, the message's length and the secret number, n bytes, are put at the front of info.
fn put_info(opened: &Result<Released, Refusal>, n: usize, info: &mut [u8])
    requires { (n ≤ max_secret) × (8 + n ≤ length info.old) }
    ensures { info.new ≡ info_after (opened_as opened.now) n info.old }
{
    if let Ok(released) = opened {
        bytes_le::store_u64(info, 0, released.length as u64);
        bytes_le::put_bytes(info, SECRET_AT, &released.secret[0..n]);
    }
}

// `open` and `open_in_place` stay two: one function over a closure that opens would have to say of the closure what their contracts say, and is no shorter.
pub fn open(
    v: Variant,
    key: &[u8],
    nonce: &[u8],
    first: &[u8],
    second: &[u8],
    sealed: &[u8],
    out: &mut [u8],
    info: &mut [u8],
) -> u32
    ensures { OpenContract v key.now nonce.now
        (first.now ++ second.now) sealed.now out.old info.old result out.new info.new }
{
    let context = Context {
        key,
        nonce,
        first,
        second,
    };
    let n = icepole::sizes_of(v).secret;
    if info.len() < SECRET_AT + n {
        return refusals::number_of(&icepole::may_open(v, context.lengths(), sealed.len(), false));
    }
    let opened = icepole::open_message(v, context, sealed, out);
    put_info(&opened, n, info);
    refusals::number_of(&opened)
}

pub fn open_in_place(
    v: Variant,
    key: &[u8],
    nonce: &[u8],
    first: &[u8],
    second: &[u8],
    buffer: &mut [u8],
    info: &mut [u8],
) -> u32
    ensures { InPlaceContract v key.now nonce.now
        (first.now ++ second.now) buffer.old info.old result buffer.new info.new }
{
    let context = Context {
        key,
        nonce,
        first,
        second,
    };
    let secret_length = icepole::sizes_of(v).secret;
    if info.len() < SECRET_AT + secret_length {
        return refusals::number_of(&icepole::may_open(v, context.lengths(), buffer.len(), false));
    }
    let opened = icepole::open_in_place(v, context, buffer);
    put_info(&opened, secret_length, info);
    refusals::number_of(&opened)
}

// ---- strips of 128
// A strip state that is lent: the state's bytes, the count (8 bytes), and whether it is finished (1 byte).
const COUNT_AT: usize = STATE_BYTES;

const FINISHED_AT: usize = COUNT_AT + 8;

const STRIP_STATE_LENGTH: usize = FINISHED_AT + 1;

// The strip state that stands at the front of b. No `From`: where it stands is the C interface's, and the type is another crate's.
fn strip_state_in(b: &[u8]) -> StripState
    requires { strip_state_length ≤ length b.now }
    ensures { result ≡ strip_state_in b.now }
{
    let mut bytes = [0u8; STATE_BYTES];
    bytes.copy_from_slice(&b[0..STATE_BYTES]);
    let count = bytes_le::load_le(b, COUNT_AT, 8);
    StripState {
        bytes,
        count: count as usize,
        finished: b[FINISHED_AT] != 0,
    }
}

fn put_strip_state(s: StripState, b: &mut [u8])
    requires { strip_state_length ≤ length b.old }
    ensures { b.new ≡ put_bytes b.old 0 (strip_state_bytes s) }
{
    let bytes = s.bytes;
    let i = bytes_le::put_bytes(b, 0, &bytes);
    let j = bytes_le::store_le(b, i, 8, s.count as u64);
    bytes_le::store_le(b, j, 1, u64::from(s.finished));
}

pub fn start(
    key: &[u8],
    nonce: &[u8],
    secret: &[u8],
    first: &[u8],
    second: &[u8],
    out: &mut [u8],
    state: &mut [u8],
) -> u32
    ensures { StartContract key.now nonce.now secret.now
        (first.now ++ second.now) out.old state.old result out.new state.new }
{
    let context = Context {
        key,
        nonce,
        first,
        second,
    };
    if state.len() < STRIP_STATE_LENGTH {
        let may = strips::may_start(context.lengths(), secret.len(), out.len());
        if let Err(refusal) = may {
            return refusal.number();
        }
        return Refusal::OutputTooShort.number();
    }
    let started = strips::start(context, secret, out);
    put_strip_state(started.state, state);
    refusals::number_of(&started.written)
}

pub fn strip(state: &mut [u8], message: &[u8], out: &mut [u8]) -> u32
    ensures { StripContract state.old message.now out.old result state.new out.new }
{
    if state.len() < STRIP_STATE_LENGTH {
        return Refusal::OutputTooShort.number();
    }
    let count = bytes_le::load_u64(state, COUNT_AT) as usize;
    let finished = state[FINISHED_AT] != 0;
    let Some(bytes) = state.first_chunk_mut::<STATE_BYTES>() else {
        return Refusal::OutputTooShort.number();
    };
    let fed = strips::strip_in(bytes, count, finished, message, out);
    if let Err(refusal) = fed {
        return refusal.number();
    }
    bytes_le::store_u64(state, COUNT_AT, (count + message.len()) as u64);
    0
}

pub fn end(state: &mut [u8], out: &mut [u8]) -> u32
    ensures { EndContract state.old out.old result state.new out.new }
{
    if state.len() < STRIP_STATE_LENGTH {
        return Refusal::OutputTooShort.number();
    }
    let ended = strips::end(strip_state_in(state), out);
    match ended.written {
        Ok(_) => {
            put_strip_state(ended.state, state);
            0
        }
        Err(refusal) => refusal.number(),
    }
}
