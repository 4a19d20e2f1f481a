// The C calls of include/burst.h and include/card.h. Each answers a refusal number, 0 when done, and writes the rest into what is lent: the C interface.
#![tactic(auto)]

ghost use Rattle.std.specs.Prelude.{◌≡◌, cond, ◌≤◌, length, Ok};
ghost use Rattle.refusals.specs.Numbers.{number_of, mark_of, value_or};
ghost use Rattle.bytes_le.specs.Bytes.{put_bytes};
ghost use Rattle.reader.specs.Reader.{summary_as, picture_as, check_mark, record_refusal, record_offset, record_bytes_in};
ghost use Rattle.listing.specs.Listing.{list_refusal, list_answer, list_output};
ghost use Rattle.sizing.specs.Sizing.{size_answer};
ghost use Rattle.sizing.specs.Cards.{card_answer};
ghost use Rattle.replay.specs.Replay.{list_of, whole_script, Replayed};
ghost use Rattle.burst_c.specs.Calls.{check_info_length, checked_bytes, fetch_info_length, fetched_bytes, check_call_refusal};
ghost use Rattle.burst_c.specs.Calls.{check_call_info, place_of, fetch_call_refusal, fetch_call_output, fetch_call_info};
ghost use Rattle.burst.specs.Layout.{identified};

use burst::{
    BURST_NUMBER_WIDTH, CAMERA_WIDTH, COUNT_WIDTH, MARK_BYTES, OFFSET_WIDTH, Place, SEAL_LENGTH,
};
use reader::{Picture, Summary};
use refusals::Refusal;

// Bytes of what check and fetch put into the info.
const CHECK_INFO: usize = BURST_NUMBER_WIDTH + MARK_BYTES + 3 * COUNT_WIDTH + CAMERA_WIDTH;

const FETCH_INFO: usize = COUNT_WIDTH + OFFSET_WIDTH + MARK_BYTES;

pub fn burst_replay(
    key: &[u8],
    burst_number: u64,
    camera: u32,
    site_mark: &[u8],
    script: &[u8],
    buffer: &mut [u8],
    answers: &mut [u8],
    whole: &mut u32,
) -> usize
    ensures { Replayed
        (list_of key.now (identified burst_number camera site_mark.now) (length buffer.old) (length answers.old) script.now)
        answers.old answers.new buffer.old buffer.new result ×
        (whole.new ≡ cond (whole_script (length answers.old) script.now) 1 0) }
{
    let p = replay::replay(
        key,
        burst_number,
        camera,
        site_mark,
        script,
        buffer,
        answers,
    );
    *whole = u32::from(p.whole);
    p.count
}

fn put_summary(s: Summary, info: &mut [u8])
    requires { check_info_length ≤ length info.old }
    ensures { info.new ≡ put_bytes info.old 0 (checked_bytes (summary_as (Ok s))) }
{
    let i = bytes_le::store_le(info, 0, BURST_NUMBER_WIDTH, s.burst_number);
    let j = bytes_le::put_bytes(info, i, &s.site_mark);
    let k = bytes_le::store_le(info, j, COUNT_WIDTH, s.taken.0 as u64);
    let l = bytes_le::store_le(info, k, COUNT_WIDTH, s.kept.0 as u64);
    let m = bytes_le::store_le(info, l, COUNT_WIDTH, s.dropped as u64);
    bytes_le::store_le(info, m, CAMERA_WIDTH, s.camera as u64);
}

// Check, with what the file says put into the info.
fn check_into(key: &[u8], file: &[u8], info: &mut [u8]) -> Result<(), Refusal>
    ensures number { number_of result ≡ check_call_refusal key.now file.now info.old }
    ensures mark { mark_of result ≡ check_mark key.now file.now }
    ensures info { info.new ≡ check_call_info key.now file.now info.old }
{
    let summary = reader::check(key, file)?;
    if info.len() < CHECK_INFO {
        return Err(Refusal::OutputTooShort);
    }
    put_summary(summary, info);
    Ok(())
}

pub fn burst_check(key: &[u8], file: &[u8], mark: &mut u32, info: &mut [u8]) -> u32
    ensures { (result ≡ check_call_refusal key.now file.now info.old) ×
        (mark.new ≡ check_mark key.now file.now) ×
        (info.new ≡ check_call_info key.now file.now info.old) }
{
    let answer = check_into(key, file, info);
    *mark = refusals::mark_of(&answer);
    refusals::number_of(&answer)
}

// A place as the reader takes it: a larger one than 16 bits hold becomes the largest, which is not below kept either.
fn place_of(place: usize) -> Place
    ensures { result.0 ≡ place_of place }
{
    Place(u16::try_from(place).unwrap_or(u16::MAX))
}

fn put_picture(p: Picture, info: &mut [u8])
    requires { fetch_info_length ≤ length info.old }
    ensures { info.new ≡ put_bytes info.old 0 (fetched_bytes (picture_as (Ok p))) }
{
    let i = bytes_le::store_le(info, 0, COUNT_WIDTH, p.shot.0 as u64);
    let j = bytes_le::store_le(info, i, OFFSET_WIDTH, p.length as u64);
    bytes_le::put_bytes(info, j, &p.stamp);
}

// Fetch, with what goes with the picture put into the info. The info is judged after the place and before the output.
fn fetch_into(
    key: &[u8],
    file: &[u8],
    place: usize,
    out: &mut [u8],
    info: &mut [u8],
) -> Result<(), Refusal>
    ensures number { number_of result ≡ fetch_call_refusal key.now file.now place out.old info.old }
    ensures mark { mark_of result ≡ check_mark key.now file.now }
    ensures output { out.new ≡ fetch_call_output key.now file.now place out.old info.old }
    ensures info { info.new ≡ fetch_call_info key.now file.now place out.old info.old }
{
    let at = place_of(place);
    if info.len() < FETCH_INFO {
        reader::locate(key, file, at)?;
        return Err(Refusal::OutputTooShort);
    }
    let picture = reader::fetch(key, file, at, out)?;
    put_picture(picture, info);
    Ok(())
}

pub fn burst_fetch(
    key: &[u8],
    file: &[u8],
    place: usize,
    out: &mut [u8],
    mark: &mut u32,
    info: &mut [u8],
) -> u32
    ensures { (result ≡ fetch_call_refusal key.now file.now place out.old info.old) ×
        (mark.new ≡ check_mark key.now file.now) ×
        (out.new ≡ fetch_call_output key.now file.now place out.old info.old) ×
        (info.new ≡ fetch_call_info key.now file.now place out.old info.old) }
{
    let answer = fetch_into(key, file, place, out, info);
    *mark = refusals::mark_of(&answer);
    refusals::number_of(&answer)
}

// Where the sealed record of a place stands in the file.
#[derive(Clone, Copy)]
struct Stretch {
    offset: u32,
    size: u32,
}

fn stretch_of(key: &[u8], file: &[u8], place: usize) -> Result<Stretch, Refusal>
    ensures number { number_of result ≡ record_refusal key.now file.now place }
    ensures mark { mark_of result ≡ check_mark key.now file.now }
    ensures offset { value_or (λ s. s.offset) 0 result ≡ record_offset key.now file.now place }
    ensures size { value_or (λ s. s.size) 0 result ≡ length (record_bytes_in key.now file.now place) }
{
    let position = reader::locate(key, file, place_of(place))?;
    let e = reader::entry_at(file, position);
    Ok(Stretch {
        offset: e.offset,
        size: e.length + SEAL_LENGTH,
    })
}

pub fn burst_record(
    key: &[u8],
    file: &[u8],
    place: usize,
    mark: &mut u32,
    offset: &mut u32,
    size: &mut u32,
) -> u32
    ensures { (result ≡ record_refusal key.now file.now place) ×
        (mark.new ≡ check_mark key.now file.now) ×
        (offset.new ≡ record_offset key.now file.now place) ×
        (size.new ≡ length (record_bytes_in key.now file.now place)) }
{
    let answer = stretch_of(key, file, place);
    *mark = refusals::mark_of(&answer);
    match answer {
        Ok(stretch) => {
            *offset = stretch.offset;
            *size = stretch.size;
            0
        }
        Err(refusal) => {
            *offset = 0;
            *size = 0;
            refusal.number()
        }
    }
}

pub fn burst_list(file: &[u8], text: &mut [u8], size: &mut u32) -> u32
    ensures { (result ≡ list_refusal file.now text.old) ×
        (text.new ≡ list_output file.now text.old) ×
        (size.new ≡ (list_answer file.now text.old).length) }
{
    match listing::list_front(file, text) {
        Ok(count) => {
            *size = count as u32;
            0
        }
        Err(refusal) => {
            *size = 0;
            refusal.number()
        }
    }
}

pub fn burst_size_up(lengths: &[u64], file_length: &mut u64, p12: &mut u64, p6: &mut u64) -> u32
    ensures { (result ≡ (size_answer lengths.now).refusal) ×
        (file_length.new ≡ (size_answer lengths.now).file_length) ×
        (p12.new ≡ (size_answer lengths.now).p12) ×
        (p6.new ≡ (size_answer lengths.now).p6) }
{
    match sizing::size_up(lengths) {
        Ok(estimate) => {
            *file_length = estimate.file_length;
            *p12 = estimate.p12;
            *p6 = estimate.p6;
            0
        }
        Err(refusal) => {
            *file_length = 0;
            *p12 = 0;
            *p6 = 0;
            refusal.number()
        }
    }
}

pub fn burst_card_line(card: u64, shots: u64, picture: u64, bursts: &mut u64, left: &mut u64) -> u32
    ensures { (result ≡ (card_answer card shots picture).refusal) ×
        (bursts.new ≡ (card_answer card shots picture).bursts) ×
        (left.new ≡ (card_answer card shots picture).left) }
{
    match sizing::card_line(card, shots, picture) {
        Ok(capacity) => {
            *bursts = capacity.bursts;
            *left = capacity.left;
            0
        }
        Err(refusal) => {
            *bursts = 0;
            *left = 0;
            refusal.number()
        }
    }
}
