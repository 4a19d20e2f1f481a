// The blocks of ICEPOLE (003, 2.6 to 2.9): words and bytes of a block, runs of blocks, the keyed state, the tag, and whole messages whose sizes fit.
// Every function here is internal: only crates of ours call them, and each has tested before what a `requires` here wants. The calls that test are those of the
// crates `icepole` and `strips`. A state is worked on in place; the contracts speak of its bytes.
#![tactic(auto)]

ghost use Rattle.std.specs.Prelude.{◌≡◌, ◌++◌, ◌+◌, ◌*◌, ◌^◌, ◌%◌, ◌≤◌, ◌<◌, ℕ, length, take, drop};
ghost use Rattle.bits.specs.Bits.{word_range};
ghost use Rattle.bytes_le.specs.Bytes.{Bytes, le, put_bytes, same};
ghost use Rattle.state_bytes.specs.StateBytes.{state_words, state_length, bytes_of};
ghost use Rattle.blocks.specs.Contexts.{associated, lengths_of};
ghost use Rattle.blocks.specs.Lengths.{tag_length, max_key, max_nonce, max_length};
ghost use Rattle.blocks.specs.Sealing.{◌⊕₈◌, xor_with, keyed, finish, absorb_associated, absorb_message, encrypt, decrypt};
ghost use Rattle.blocks.specs.Sealing.{ready, sealed, secret_of, ready_of, expected_tag, tag, message_part, tag_part};
ghost use Rattle.blocks.specs.Ways.{Takes, Puts, Room, taken_by, put_by};
ghost use Rattle.blocks.specs.WayLaws.{seal_takes, open_takes, written_puts, nowhere_puts};
ghost use Rattle.blocks.specs.Bounds.{Bounded};

// The sizes of a variant, in bytes. `Bounded` is no invariant of it: the definitions make sizes as plain records, and each would need the proof.
#[derive(Clone, Copy)]
pub struct Sizes {
    pub key: usize,
    pub nonce: usize,
    pub secret: usize,
    pub block: usize,
}

// What a message is sealed and opened under: key, nonce, and associated data in two parts, which mean their joining (01, "Sealing and opening").
#[derive(Clone, Copy)]
pub struct Context<'a> {
    pub key: &'a [u8],
    pub nonce: &'a [u8],
    pub first: &'a [u8],
    pub second: &'a [u8],
}

// The lengths of a context's parts.
#[derive(Clone, Copy)]
pub struct Lengths {
    pub key: usize,
    pub nonce: usize,
    pub first: usize,
    pub second: usize,
}

impl Context<'_> {
    pub fn lengths(self) -> Lengths
        ensures { result ≡ lengths_of self.entry }
    {
        Lengths {
            key: self.key.len(),
            nonce: self.nonce.len(),
            first: self.first.len(),
            second: self.second.len(),
        }
    }
}

// Bytes of the tag, under every variant.
pub const TAG_BYTES: usize = 16;

// Bytes and words of a block: of 128 and 128a, and of 256a.
pub const BLOCK_BYTES: usize = 128;

pub const SHORT_BLOCK_BYTES: usize = 120;

pub const BLOCK_WORDS: usize = BLOCK_BYTES / 8;

const SHORT_BLOCK_WORDS: usize = SHORT_BLOCK_BYTES / 8;

type State = [[u64; 5]; 4];

// ---- what the bytes of a block come from
// Bytes that are read as numbers, up to eight at a time. They may be those of out, into which the bytes of the block go.
trait Source: Copy {
    // The bytes, where those of out are given.
    ghost bytes: { Self → Bytes → Bytes };

    // The number of the l bytes from index at on.
    fn load(self, out: &[u8], at: usize, l: usize) -> u64
        requires { (l ≤ 8) × (at + l ≤ length (bytes self out.now)) × (at + l < word_range) }
        ensures { (le l result ≡ take l (drop at (bytes self out.now))) × (result < 256 ^ l) };
}

impl<'a> Source for &'a [u8] {
    ghost bytes = { λ d o. d.now };

    fn load(self, _out: &[u8], at: usize, l: usize) -> u64 {
        bytes_le::load_le(self, at, l)
    }
}

// Two parts, one behind the other.
#[derive(Clone, Copy)]
struct Joined<'a> {
    first: &'a [u8],
    second: &'a [u8],
}

impl<'a> Source for Joined<'a> {
    ghost bytes = { λ d o. d.first.now ++ d.second.now };

    fn load(self, _out: &[u8], at: usize, l: usize) -> u64 {
        if at + l <= self.first.len() {
            return bytes_le::load_le(self.first, at, l);
        }
        if self.first.len() <= at {
            return bytes_le::load_le(self.second, at - self.first.len(), l);
        }
        across(self.first, self.second, at, l)
    }
}

// Those of out itself.
#[derive(Clone, Copy)]
struct InPlace;

impl Source for InPlace {
    ghost bytes = { λ d o. o };

    fn load(self, out: &[u8], at: usize, l: usize) -> u64 {
        bytes_le::load_le(out, at, l)
    }
}

// The number of the l bytes from index at on of two parts, where they lie across both.
fn across(first: &[u8], second: &[u8], at: usize, l: usize) -> u64
    requires { (l ≤ 8) × (at < length first.now) × (length first.now ≤ at + l) × (at + l ≤ length first.now + length second.now) }
    ensures { (le l result ≡ take l (drop at (first.now ++ second.now))) × (result < 256 ^ l) }
{
    let n = first.len() - at;
    let mut b = [0u8; 8];
    bytes_le::put_bytes(&mut b, 0, &first[at..]);
    bytes_le::put_bytes(&mut b, n, &second[..l - n]);
    bytes_le::load_le(&b, 0, l)
}

// ---- where the bytes of a block xored with the state go
trait Sink {
    // How many bytes out has at least, where so many are put into it.
    ghost needs: { ℕ → ℕ };

    // What out is then, after bytes are put into it from an index on.
    ghost put: { Bytes → ℕ → Bytes → Bytes };

    // Puts the l low bytes of x into out from index to on.
    fn put(out: &mut [u8], to: usize, l: usize, x: u64)
        requires { needs (to + l) ≤ length out.old }
        ensures { out.new ≡ put out.old to (le l x) };

    ghost laws: { Puts needs put };
}

struct Written;

impl Sink for Written {
    ghost needs = { λ n. n };

    ghost put = { put_bytes };

    ghost laws = { written_puts };

    fn put(out: &mut [u8], to: usize, l: usize, x: u64) {
        bytes_le::store_le(out, to, l, x);
    }
}

struct Nowhere;

impl Sink for Nowhere {
    ghost needs = { λ n. 0 };

    ghost put = { λ o to b. o };

    ghost laws = { nowhere_puts };

    fn put(_out: &mut [u8], _to: usize, _l: usize, _x: u64) {}
}

// ---- what of the bytes of a block is xored into the state
trait Way {
    // At the state v, of the bytes b.
    ghost taken: { Bytes → Bytes → Bytes };

    // At word z, of the l bytes of k.
    fn taken(z: u64, k: u64, l: usize) -> u64
        requires { (l ≤ 8) × (k < 256 ^ l) }
        ensures { (le l result ≡ taken (le 8 z) (le l k)) × (result < 256 ^ l) };

    ghost laws: { Takes taken };
}

// The bytes themselves: those of a message.
struct Seal;

impl Way for Seal {
    ghost taken = { λ v b. b };

    ghost laws = { seal_takes };

    fn taken(_z: u64, k: u64, _l: usize) -> u64 {
        k
    }
}

// What the state deciphers them to: they are those of a ciphertext, which stands in the state then.
struct Open;

impl Way for Open {
    ghost taken = { ◌⊕₈◌ };

    ghost laws = { open_takes };

    fn taken(z: u64, k: u64, l: usize) -> u64 {
        low_bytes(z ^ k, l)
    }
}

// The number of the l low bytes of x.
fn low_bytes(x: u64, l: usize) -> u64
    requires { l ≤ 8 }
    ensures { result ≡ x % 256 ^ l }
{
    if l == 8 {
        return x;
    }
    x % (1 << 8 * l)
}

// ---- the bytes of a block, by all three: they are read in d from index at on, and put into out from index to on
// l of them, at word w.
fn take_word<A: Way, K: Sink, S: Source>(
    s: &mut State,
    w: usize,
    d: S,
    at: usize,
    l: usize,
    out: &mut [u8],
    to: usize,
)
    requires { (w < state_words) × (l ≤ 8) × Room (S.bytes d) K.needs K.put at l out.old to }
    ensures { (bytes_of s.new ≡ put_bytes (bytes_of s.old) (8 * w)
        (drop (8 * w) (bytes_of s.old) ⊕₈ A.taken (drop (8 * w) (bytes_of s.old)) (take l (drop at (S.bytes d out.old)))))
        × (out.new ≡ K.put out.old to (drop (8 * w) (bytes_of s.old) ⊕₈ take l (drop at (S.bytes d out.old)))) }
{
    let k = d.load(out, at, l);
    let z = state_bytes::word(s, w);
    K::put(out, to, l, z ^ k);
    let x = A::taken(z, k, l);
    state_bytes::set_word(s, w, z ^ x);
}

// n whole words, from word 0 on.
fn take_words<A: Way, K: Sink, S: Source>(
    s: &mut State,
    d: S,
    at: usize,
    n: usize,
    out: &mut [u8],
    to: usize,
)
    requires { (n < state_words) × Room (S.bytes d) K.needs K.put at (8 * n) out.old to }
    ensures { (bytes_of s.new ≡ xor_with (bytes_of s.old) (A.taken (bytes_of s.old) (take (8 * n) (drop at (S.bytes d out.old)))))
        × (out.new ≡ K.put out.old to (bytes_of s.old ⊕₈ take (8 * n) (drop at (S.bytes d out.old)))) }
{
    for w in 0..n {
        take_word::<A, K, _>(s, w, d, at + 8 * w, 8, out, to + 8 * w);
    }
}

// The same, with the count of words known to the compiler where it is that of a variant.
fn take_full<A: Way, K: Sink, S: Source>(
    s: &mut State,
    d: S,
    at: usize,
    n: usize,
    out: &mut [u8],
    to: usize,
)
    requires { (n < state_words) × Room (S.bytes d) K.needs K.put at (8 * n) out.old to }
    ensures { (bytes_of s.new ≡ xor_with (bytes_of s.old) (A.taken (bytes_of s.old) (take (8 * n) (drop at (S.bytes d out.old)))))
        × (out.new ≡ K.put out.old to (bytes_of s.old ⊕₈ take (8 * n) (drop at (S.bytes d out.old)))) }
{
    if n == BLOCK_WORDS {
        return take_words::<A, K, _>(s, d, at, BLOCK_WORDS, out, to);
    }
    if n == SHORT_BLOCK_WORDS {
        return take_words::<A, K, _>(s, d, at, SHORT_BLOCK_WORDS, out, to);
    }
    take_words::<A, K, _>(s, d, at, n, out, to)
}

// n bytes, from byte 0 on: whole words, then what is left.
fn take_bytes<A: Way, K: Sink, S: Source>(
    s: &mut State,
    d: S,
    at: usize,
    n: usize,
    out: &mut [u8],
    to: usize,
)
    requires { (n < state_length) × Room (S.bytes d) K.needs K.put at n out.old to }
    ensures { (bytes_of s.new ≡ xor_with (bytes_of s.old) (A.taken (bytes_of s.old) (take n (drop at (S.bytes d out.old)))))
        × (out.new ≡ K.put out.old to (bytes_of s.old ⊕₈ take n (drop at (S.bytes d out.old)))) }
{
    let w = n / 8;
    take_words::<A, K, _>(s, d, at, w, out, to);
    take_word::<A, K, _>(s, w, d, at + 8 * w, n % 8, out, to + 8 * w);
}

// The bytes of a message are xored in; the ciphertext, which stands in the state then, is put into out from index to on. First whole words, then any bytes.
pub fn encrypt_words(s: &mut State, m: &[u8], at: usize, n: usize, out: &mut [u8], to: usize)
    requires { (n < state_words) × (at + 8 * n ≤ length m.now) × (to + 8 * n ≤ length out.old) }
    ensures { (bytes_of s.new ≡ xor_with (bytes_of s.old) (take (8 * n) (drop at m.now)))
        × (out.new ≡ put_bytes out.old to (bytes_of s.old ⊕₈ take (8 * n) (drop at m.now))) }
{
    take_words::<Seal, Written, _>(s, m, at, n, out, to)
}

pub fn encrypt_bytes(s: &mut State, m: &[u8], at: usize, n: usize, out: &mut [u8], to: usize)
    requires { (n < state_length) × (at + n ≤ length m.now) × (to + n ≤ length out.old) }
    ensures { (bytes_of s.new ≡ xor_with (bytes_of s.old) (take n (drop at m.now)))
        × (out.new ≡ put_bytes out.old to (bytes_of s.old ⊕₈ take n (drop at m.now))) }
{
    take_bytes::<Seal, Written, _>(s, m, at, n, out, to)
}

// The end of a block of n bytes: the frame bit and the 1 are added, then P6.
pub fn finish(s: &mut State, n: usize, frame: u64)
    requires { (n < state_length) × (frame < 2) }
    ensures { bytes_of s.new ≡ finish (bytes_of s.old) n frame }
{
    let w = n / 8;
    let z = state_bytes::word(s, w);
    let padding = frame + 2;
    state_bytes::set_word(s, w, z ^ (padding << 8 * (n % 8)));
    state_bytes::permute::<6>(s);
}

// ---- the keyed state and the tag
// The state after key and nonce. The zero bytes after a nonce of 12 change nothing, and are not xored in.
fn keyed_state(s: &mut State, x: Context<'_>)
    requires { (length x.key.now ≤ max_key) × (length x.nonce.now ≤ max_nonce) }
    ensures { bytes_of s.new ≡ keyed x.entry.key.now x.entry.nonce.now }
{
    state_bytes::start(s);
    let d = Joined {
        first: x.key,
        second: x.nonce,
    };
    take_bytes::<Seal, Nowhere, _>(s, d, 0, x.key.len() + x.nonce.len(), &mut [], 0);
    state_bytes::permute::<12>(s);
}

// Whether the tag of s stands in c from index at on. All differences are gathered before the one test, since an == may end where the first difference stands: tags
// are compared whole.
fn tag_matches(s: &State, c: &[u8], at: usize) -> bool
    requires { at + tag_length ≤ length c.now }
    ensures { result ≡ same (tag (bytes_of s.now)) (take tag_length (drop at c.now)) }
{
    let a = state_bytes::word(s, 0) ^ bytes_le::load_u64(c, at);
    let b = state_bytes::word(s, 1) ^ bytes_le::load_u64(c, at + 8);
    (a | b) == 0
}

// Puts the tag of s into out from index at on.
pub fn put_tag(s: &State, out: &mut [u8], at: usize)
    requires { at + tag_length ≤ length out.old }
    ensures { out.new ≡ put_bytes out.old at (tag (bytes_of s.now)) }
{
    let a = state_bytes::word(s, 0);
    let b = state_bytes::word(s, 1);
    bytes_le::store_u64(out, at, a);
    bytes_le::store_u64(out, at + 8, b);
}

// ---- data in blocks of n words
// The l bytes of d from index from on, block by block; each but the last is finished with the frame bit more. Returns how many bytes the last has.
fn take_blocks<A: Way, K: Sink, S: Source>(
    s: &mut State,
    n: usize,
    more: u64,
    d: S,
    from: usize,
    l: usize,
    out: &mut [u8],
    to: usize,
) -> usize
    requires { (0 < n) × (n < state_words) × (more < 2) × Room (S.bytes d) K.needs K.put from l out.old to }
    ensures { (result ≤ 8 * n)
        × ((end : ℕ) → finish (bytes_of s.new) result end ≡ taken_by (8 * n) A.taken more end (bytes_of s.old) (take l (drop from (S.bytes d out.old))))
        × (out.new ≡ K.put out.old to (put_by (8 * n) A.taken more (bytes_of s.old) (take l (drop from (S.bytes d out.old))))) }
{
    let block = 8 * n;
    let mut at: usize = 0;
    // A `while`: how many blocks stand before the last is a division, and our libraries have none.
    while block < l - at {
        take_full::<A, K, _>(s, d, from + at, n, out, to + at);
        finish(s, block, more);
        at += block;
    }
    take_bytes::<A, K, _>(s, d, from + at, l - at, out, to + at);
    l - at
}

// The state after associated data.
fn absorb_associated(s: &mut State, n: usize, x: Context<'_>)
    requires { (0 < n) × (n < state_words) × (length x.first.now + length x.second.now ≤ max_length) }
    ensures { bytes_of s.new ≡ absorb_associated (8 * n) (bytes_of s.old) (associated x.entry) }
{
    let d = Joined {
        first: x.first,
        second: x.second,
    };
    let last = take_blocks::<Seal, Nowhere, _>(
        s,
        n,
        0,
        d,
        0,
        x.first.len() + x.second.len(),
        &mut [],
        0,
    );
    finish(s, last, 1);
}

// The state after a message, whose ciphertext is put into out from index to on.
fn encrypt_message(s: &mut State, n: usize, m: &[u8], out: &mut [u8], to: usize)
    requires { (0 < n) × (n < state_words) × (to + length m.now ≤ length out.old) }
    ensures { (bytes_of s.new ≡ absorb_message (8 * n) (bytes_of s.old) m.now)
        × (out.new ≡ put_bytes out.old to (encrypt (8 * n) (bytes_of s.old) m.now)) }
{
    let last = take_blocks::<Seal, Written, _>(s, n, 1, m, 0, m.len(), out, to);
    finish(s, last, 0);
}

// The state after the message of a ciphertext.
fn verify_message(s: &mut State, n: usize, c: &[u8])
    requires { (0 < n) × (n < state_words) }
    ensures { bytes_of s.new ≡ absorb_message (8 * n) (bytes_of s.old) (decrypt (8 * n) (bytes_of s.old) c.now) }
{
    let end = take_blocks::<Open, Nowhere, _>(s, n, 1, c, 0, c.len(), &mut [], 0);
    finish(s, end, 0);
}

// The message of l bytes of ciphertext from index from on is put into out, at its front. What is left of the state is of no use.
pub fn decrypt_message(s: &mut State, n: usize, c: &[u8], from: usize, l: usize, out: &mut [u8])
    requires { (0 < n) × (n < state_words) × (from + l ≤ length c.now) × (l ≤ length out.old) }
    ensures { out.new ≡ put_bytes out.old 0 (decrypt (8 * n) (bytes_of s.old) (take l (drop from c.now))) }
{
    take_blocks::<Open, Written, _>(s, n, 1, c, from, l, out, 0);
}

// The same where the ciphertext stands in out itself, here b. A word's message stands `from` bytes before its ciphertext, so that it is put over none that is not yet
// read.
pub fn decrypt_in_place(s: &mut State, n: usize, b: &mut [u8], from: usize, l: usize)
    requires { (0 < n) × (n < state_words) × (from + l ≤ length b.old) }
    ensures { b.new ≡ put_bytes b.old 0 (decrypt (8 * n) (bytes_of s.old) (take l (drop from b.old))) }
{
    take_blocks::<Open, Written, _>(s, n, 1, InPlace, from, l, b, 0);
}

// ---- whole messages, whose sizes fit
// The state after the secret number, which is read in d and put into out, at the front of each, and the associated data.
fn ready<A: Way>(s: &mut State, q: Sizes, x: Context<'_>, d: &[u8], out: &mut [u8])
    requires { Bounded q × (length x.key.now ≡ q.key) × (length x.nonce.now ≡ q.nonce)
        × (length x.first.now + length x.second.now ≤ max_length) × (q.secret ≤ length d.now) × (q.secret ≤ length out.old) }
    ensures { (bytes_of s.new ≡ ready q.block (keyed x.entry.key.now x.entry.nonce.now)
        (A.taken (keyed x.entry.key.now x.entry.nonce.now) (take q.secret d.now)) (associated x.entry))
        × (out.new ≡ put_bytes out.old 0 (keyed x.entry.key.now x.entry.nonce.now ⊕₈ take q.secret d.now)) }
{
    let n = q.secret;
    keyed_state(s, x);
    take_bytes::<A, Written, _>(s, d, 0, n, out, 0);
    finish(s, n, 0);
    absorb_associated(s, q.block / 8, x);
}

// The state after the secret number, which is put into out at its front, sealed, and the associated data.
pub fn seal_ready(s: &mut State, q: Sizes, x: Context<'_>, secret: &[u8], out: &mut [u8])
    requires { Bounded q × (length x.key.now ≡ q.key) × (length x.nonce.now ≡ q.nonce) × (length secret.now ≡ q.secret)
        × (length x.first.now + length x.second.now ≤ max_length) × (q.secret ≤ length out.old) }
    ensures { (bytes_of s.new ≡ ready q.block (keyed x.entry.key.now x.entry.nonce.now) secret.now
        (associated x.entry))
        × (out.new ≡ put_bytes out.old 0 (keyed x.entry.key.now x.entry.nonce.now ⊕₈ secret.now)) }
{
    ready::<Seal>(s, q, x, secret, out);
}

// Writes the sealed message at the front of out.
pub fn seal_into(q: Sizes, x: Context<'_>, secret: &[u8], message: &[u8], out: &mut [u8])
    requires { Bounded q × (length x.key.now ≡ q.key) × (length x.nonce.now ≡ q.nonce) × (length secret.now ≡ q.secret)
        × (length x.first.now + length x.second.now ≤ max_length) × (q.secret + (length message.now + tag_length) ≤ length out.old) }
    ensures { out.new ≡ put_bytes out.old 0
        (sealed q x.entry.key.now x.entry.nonce.now secret.now (associated x.entry) message.now) }
{
    let n = q.secret;
    let mut s = [[0u64; 5]; 4];
    seal_ready(&mut s, q, x, secret, out);
    encrypt_message(&mut s, q.block / 8, message, out, n);
    put_tag(&s, out, n + message.len());
}

// Whether the tag agrees, of a sealed message after whose associated data the state is u.
fn tag_agrees(q: Sizes, u: &State, c: &[u8]) -> bool
    requires { Bounded q × (q.secret + tag_length ≤ length c.now) }
    ensures { result ≡ same (tag (absorb_message q.block (bytes_of u.now)
        (decrypt q.block (bytes_of u.now) (message_part q c.now))))
        (tag_part c.now) }
{
    let from = q.secret;
    let n = c.len() - (from + TAG_BYTES);
    let mut s = *u;
    verify_message(&mut s, q.block / 8, &c[from..from + n]);
    tag_matches(&s, c, from + n)
}

// Whether the tag of a sealed message agrees. Its secret number is put into secret, and the state after the associated data is left in s.
pub fn verify_sealed(s: &mut State, q: Sizes, x: Context<'_>, c: &[u8], secret: &mut [u8]) -> bool
    requires { Bounded q × (length x.key.now ≡ q.key) × (length x.nonce.now ≡ q.nonce)
        × (length x.first.now + length x.second.now ≤ max_length) × (q.secret + tag_length ≤ length c.now) × (q.secret ≤ length secret.old) }
    ensures { (result ≡ same (expected_tag q x.entry.key.now x.entry.nonce.now (associated x.entry) c.now)
        (tag_part c.now))
        × (bytes_of s.new ≡ ready_of q x.entry.key.now x.entry.nonce.now (associated x.entry) c.now)
        × (secret.new ≡ put_bytes secret.old 0 (secret_of q x.entry.key.now x.entry.nonce.now c.now)) }
{
    ready::<Open>(s, q, x, c, secret);
    tag_agrees(q, s, c)
}
