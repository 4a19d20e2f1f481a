// ICEPOLE-128, 128a and 256a (003, 2.2, 2.10 and 2.11): the calls that seal, verify and open, what they turn down, and what they answer. The work on blocks is
// done by the crate `blocks`.
#![tactic(auto)]

ghost use Rattle.std.specs.Prelude.{◌≡◌, true, ◌+◌, ◌-◌, leb};
ghost use Rattle.refusals.specs.Numbers.{number_of, mark_of};
ghost use Rattle.state_bytes.specs.StateBytes.{bytes_of};
ghost use Rattle.blocks.specs.Contexts.{associated};
ghost use Rattle.blocks.specs.Lengths.{tag_length};
ghost use Rattle.blocks.specs.Sealing.{ready_of};
ghost use Rattle.blocks.specs.Bounds.{Bounded};
ghost use Rattle.icepole.specs.Variants.{sizes};
ghost use Rattle.icepole.specs.Answers.{seal_number, open_number, sealed_as, seal_answer, seal_output, opened_as, open_answer, open_output, fits_output};

use blocks::Sizes;
pub use blocks::{Context, Lengths};
use refusals::Refusal;

#[derive(Clone, Copy, Debug, PartialEq, Eq)]
pub enum Variant {
    Icepole128,
    Icepole128a,
    Icepole256a,
}

// Associated data and message are at most so many bytes each.
pub const MAX_LENGTH: usize = 67108864;

// Bytes of the tag, under every variant.
pub const TAG_BYTES: usize = blocks::TAG_BYTES;

// Bytes of key, nonce and secret number under ICEPOLE-128. Its nonce and its secret number are the longest.
pub const KEY_BYTES: usize = 16;

pub const NONCE_BYTES: usize = 16;

pub const SECRET_BYTES: usize = 16;

// What opening releases: the message's length and the secret number. Bytes past the secret number are zero: no heap, and room for the longest.
#[derive(Clone, Copy)]
pub struct Released {
    pub length: usize,
    pub secret: [u8; SECRET_BYTES],
}

type State = [[u64; 5]; 4];

pub fn sizes_of(v: Variant) -> Sizes
    ensures { result ≡ sizes v }
{
    match v {
        Variant::Icepole128 => Sizes {
            key: KEY_BYTES,
            nonce: NONCE_BYTES,
            secret: SECRET_BYTES,
            block: blocks::BLOCK_BYTES,
        },
        Variant::Icepole128a => Sizes {
            key: 16,
            nonce: 12,
            secret: 0,
            block: blocks::BLOCK_BYTES,
        },
        Variant::Icepole256a => Sizes {
            key: 32,
            nonce: 12,
            secret: 0,
            block: blocks::SHORT_BLOCK_BYTES,
        },
    }
}

// ---- the calls
// Whether sealing is turned down, from the lengths of what is lent.
pub fn may_seal(
    v: Variant,
    l: Lengths,
    secret: usize,
    message: usize,
    out: usize,
) -> Result<(), Refusal>
    ensures number { number_of result ≡ seal_number (sizes v) l.key l.nonce secret (l.first + l.second) message out }
    ensures mark { mark_of result ≡ 0 }
{
    let q = sizes_of(v);
    if l.key != q.key {
        return Err(Refusal::KeyLength);
    }
    if l.nonce != q.nonce {
        return Err(Refusal::NonceLength);
    }
    if secret != q.secret {
        return Err(Refusal::SecretLength);
    }
    if l.first > MAX_LENGTH {
        return Err(Refusal::DataTooLong);
    }
    if l.second > MAX_LENGTH - l.first {
        return Err(Refusal::DataTooLong);
    }
    if message > MAX_LENGTH {
        return Err(Refusal::DataTooLong);
    }
    if out < q.secret + (message + TAG_BYTES) {
        return Err(Refusal::OutputTooShort);
    }
    Ok(())
}

// Whether opening is turned down where the tag agrees, from the lengths of what is lent, and whether the answer fits.
pub fn may_open(v: Variant, l: Lengths, sealed: usize, fits: bool) -> Result<(), Refusal>
    ensures number { number_of result ≡ open_number (sizes v) l.key l.nonce (l.first + l.second) sealed fits true }
    ensures mark { mark_of result ≡ 0 }
{
    let q = sizes_of(v);
    if l.key != q.key {
        return Err(Refusal::KeyLength);
    }
    if l.nonce != q.nonce {
        return Err(Refusal::NonceLength);
    }
    if l.first > MAX_LENGTH {
        return Err(Refusal::DataTooLong);
    }
    if l.second > MAX_LENGTH - l.first {
        return Err(Refusal::DataTooLong);
    }
    let over = q.secret + TAG_BYTES;
    if sealed > MAX_LENGTH + over {
        return Err(Refusal::DataTooLong);
    }
    if sealed < over {
        return Err(Refusal::SealedTooShort);
    }
    if !fits {
        return Err(Refusal::OutputTooShort);
    }
    Ok(())
}

// Whether the message that a sealed message of so many bytes implies fits into out bytes.
fn message_fits(q: Sizes, sealed: usize, out: usize) -> bool
    requires { Bounded q }
    ensures { result ≡ leb (sealed - (q.secret + tag_length)) out }
{
    let over = q.secret + TAG_BYTES;
    if sealed < over {
        return true;
    }
    sealed - over <= out
}

// Sealing: the count of bytes written at the front of out.
pub fn seal(
    v: Variant,
    x: Context<'_>,
    secret: &[u8],
    message: &[u8],
    out: &mut [u8],
) -> Result<usize, Refusal>
    ensures answer { sealed_as result ≡ seal_answer v x.entry.key.now x.entry.nonce.now secret.now
        (associated x.entry) message.now out.old }
    ensures output { out.new ≡ seal_output v x.entry.key.now x.entry.nonce.now secret.now
        (associated x.entry) message.now out.old }
{
    let q = sizes_of(v);
    may_seal(v, x.lengths(), secret.len(), message.len(), out.len())?;
    blocks::seal_into(q, x, secret, message, out);
    Ok(q.secret + (message.len() + TAG_BYTES))
}

// All of opening but the message: the answer, where fits says whether what is lent is long enough for it. Where it is not turned down, the state after the
// associated data is left in state; else what is left there is of no use.
fn open_verified(
    v: Variant,
    x: Context<'_>,
    sealed: &[u8],
    fits: bool,
    state: &mut State,
) -> Result<Released, Refusal>
    ensures answer { opened_as result ≡ open_answer v x.entry.key.now x.entry.nonce.now (associated x.entry) sealed.now fits }
    ensures ready { number_of result ≡ 0 → bytes_of state.new
        ≡ ready_of (sizes v) x.entry.key.now x.entry.nonce.now (associated x.entry) sealed.now }
{
    let q = sizes_of(v);
    may_open(v, x.lengths(), sealed.len(), fits)?;
    let mut secret = [0u8; SECRET_BYTES];
    let agrees = blocks::verify_sealed(state, q, x, sealed, &mut secret);
    if !agrees {
        return Err(Refusal::TagDiffers(0));
    }
    Ok(Released {
        length: sealed.len() - (q.secret + TAG_BYTES),
        secret,
    })
}

// Opening without a message: whether the tag agrees, the message's length and the secret number. It writes nothing.
pub fn verify(v: Variant, x: Context<'_>, sealed: &[u8]) -> Result<Released, Refusal>
    ensures { opened_as result ≡ open_answer v x.entry.key.now x.entry.nonce.now (associated x.entry) sealed.now true }
{
    let mut state = [[0u64; 5]; 4];
    open_verified(v, x, sealed, true, &mut state)
}

// Opening. The message is written only after the tag was found to agree.
pub fn open_message(
    v: Variant,
    x: Context<'_>,
    sealed: &[u8],
    out: &mut [u8],
) -> Result<Released, Refusal>
    ensures answer { opened_as result ≡ open_answer v x.entry.key.now x.entry.nonce.now (associated x.entry) sealed.now
        (fits_output v sealed.now out.old) }
    ensures output { out.new ≡ open_output v x.entry.key.now x.entry.nonce.now (associated x.entry) sealed.now
        (fits_output v sealed.now out.old) out.old }
{
    let q = sizes_of(v);
    let fits = message_fits(q, sealed.len(), out.len());
    let mut state = [[0u64; 5]; 4];
    let released = open_verified(v, x, sealed, fits, &mut state)?;
    blocks::decrypt_message(
        &mut state,
        q.block / 8,
        sealed,
        q.secret,
        released.length,
        out,
    );
    Ok(released)
}

// Opening in place (02, N6): all of buffer is the sealed message, and the message is put at its front. It is written only after the tag was found to agree; until
// then the buffer is only read.
pub fn open_in_place(v: Variant, x: Context<'_>, buffer: &mut [u8]) -> Result<Released, Refusal>
    ensures answer { opened_as result ≡ open_answer v x.entry.key.now x.entry.nonce.now (associated x.entry) buffer.old true }
    ensures output { buffer.new ≡ open_output v x.entry.key.now x.entry.nonce.now (associated x.entry) buffer.old true
        buffer.old }
{
    let q = sizes_of(v);
    let mut state = [[0u64; 5]; 4];
    let released = open_verified(v, x, buffer, true, &mut state)?;
    blocks::decrypt_in_place(&mut state, q.block / 8, buffer, q.secret, released.length);
    Ok(released)
}
