// Sizing up a burst before the trigger (02, N4): its file's length and how often the permutation runs, from the lengths of its pictures. And the card line on the
// carton (02, N2): how many full bursts a card holds.
#![tactic(auto)]

ghost use Rattle.std.specs.Prelude.{◌≡◌, false, ◌+◌, ◌≤◌, ltb, length};
ghost use Rattle.refusals.specs.Numbers.{number_of, mark_of};
ghost use Rattle.burst.specs.Editions.{Known, max_entries};
ghost use Rattle.burst.specs.Layout.{max_picture};
ghost use Rattle.sizing.specs.Sizing.{too_long, size_number, estimate_as, size_answer};
ghost use Rattle.sizing.specs.Cards.{full_length, card_number, capacity_as, card_answer};
ghost use Rattle.sizing.specs.Sums.{first_sums, with_shot, with_shots, max_record, max_blocks, After};

use burst::{ENTRY_LENGTH, Edition, MAX_PICTURE, Place, SEAL_LENGTH};
use icepole::KEY_BYTES;
use refusals::Refusal;

// What sizing up answers: the file's length, and how often the permutation runs with twelve and with six rounds.
#[derive(Clone, Copy)]
pub struct Estimate {
    pub file_length: u64,
    pub p12: u64,
    pub p6: u64,
}

// What is added up: the bytes of header and records, the next picture's place, and the padded blocks of the records.
#[derive(Clone, Copy)]
struct Sums {
    used: u64,
    kept: Place,
    blocks: u64,
}

// Whether a picture of n bytes is longer than any that can be kept.
fn too_long(n: u64) -> bool
    ensures { result ≡ ltb max_picture n }
{
    n > MAX_PICTURE as u64
}

// The whole list is judged for 9 before a length is looked at.
fn may_size_up(e: Edition, lengths: &[u64]) -> Result<(), Refusal>
    ensures number { number_of result ≡ size_number e lengths.now }
    ensures mark { mark_of result ≡ 0 }
{
    if lengths.len() > e.shots as usize {
        return Err(Refusal::BurstFull);
    }
    if lengths.iter().any(|n| too_long(*n)) {
        return Err(Refusal::PictureLength);
    }
    Ok(())
}

// The sums after one more shot, whose picture has n bytes, or none where it is dropped.
fn with_shot(e: Edition, s: Sums, n: u64) -> Sums
    requires { (n ≤ max_picture) × After max_entries s }
    ensures { (result ≡ with_shot e s n) × (result.used ≤ s.used + max_record) × (result.kept.0 ≤ s.kept.0 + 1) × (result.blocks ≤ s.blocks + max_blocks) }
{
    if n == 0 {
        return s;
    }
    let blocks = burst::part_blocks(e, ENTRY_LENGTH, n as usize);
    Sums {
        used: s.used + n + SEAL_LENGTH as u64,
        kept: Place(s.kept.0 + 1),
        blocks: s.blocks + blocks as u64,
    }
}

// The sums of all shots.
fn sums_of(e: Edition, lengths: &[u64]) -> Sums
    requires { Known e × (length lengths.now ≤ e.shots) × (too_long lengths.now ≡ false) }
    ensures { (result ≡ with_shots e (first_sums e) lengths.now) × After (length lengths.now) result }
{
    let mut s = Sums {
        used: e.header as u64,
        kept: Place(0),
        blocks: 0,
    };
    for n in lengths {
        s = with_shot(e, s, *n);
    }
    s
}

pub fn size_up(lengths: &[u64]) -> Result<Estimate, Refusal>
    ensures { estimate_as result ≡ size_answer lengths.now }
{
    let e = burst::edition_written(KEY_BYTES);
    may_size_up(e, lengths)?;
    let s = sums_of(e, lengths);
    let index = burst::index_length(s.kept);
    let closing = burst::part_blocks(e, e.header as usize + index, 0);
    Ok(Estimate {
        file_length: s.used + index as u64 + SEAL_LENGTH as u64,
        p12: s.kept.0 as u64 + 1,
        p6: s.blocks + closing as u64,
    })
}

// What the card line answers: how many full bursts the card holds, and the bytes left.
#[derive(Clone, Copy)]
pub struct Capacity {
    pub bursts: u64,
    pub left: u64,
}

// Both are judged as they come, at 64 bits.
fn may_print(e: Edition, shots: u64, picture: u64) -> Result<(), Refusal>
    ensures number { number_of result ≡ card_number e shots picture }
    ensures mark { mark_of result ≡ 0 }
{
    if shots == 0 {
        return Err(Refusal::ShotCount);
    }
    if shots > e.shots as u64 {
        return Err(Refusal::ShotCount);
    }
    if picture < 1 {
        return Err(Refusal::PictureLength);
    }
    if too_long(picture) {
        return Err(Refusal::PictureLength);
    }
    Ok(())
}

// Bytes of the file of a full burst: header, records, index and closing seal.
fn full_length(e: Edition, shots: u64, picture: u64) -> u64
    requires { Known e × (card_number e shots picture ≡ 0) }
    ensures { (result ≡ full_length e shots picture) × (1 ≤ result) }
{
    let records = shots * (picture + SEAL_LENGTH as u64);
    let index = burst::index_length(Place(shots as u16));
    e.header as u64 + records + index as u64 + SEAL_LENGTH as u64
}

pub fn card_line(card: u64, shots: u64, picture: u64) -> Result<Capacity, Refusal>
    ensures { capacity_as result ≡ card_answer card shots picture }
{
    let e = burst::edition_written(KEY_BYTES);
    may_print(e, shots, picture)?;
    let each = full_length(e, shots, picture);
    Ok(Capacity {
        bursts: card / each,
        left: card % each,
    })
}
