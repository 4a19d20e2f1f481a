// The reader of bursts (01, "Reader"; 02, N1): check, fetch by place, and the sealed record of a place.
#![tactic(auto)]

ghost use Rattle.std.specs.Prelude.{◌≡◌, ◌==◌, true, ◌+◌, ◌*◌, ◌≤◌, ◌<◌, [], ◌∷◌, length, take, drop};
ghost use Rattle.std.specs.List.{list_all};
ghost use Rattle.bytes_le.specs.Bytes.{le_at, put_bytes};
ghost use Rattle.burst.specs.Fields.{count_width, offset_width, fields_length, entry_length};
ghost use Rattle.burst.specs.Editions.{max_entries, max_header, Known};
ghost use Rattle.burst.specs.Parts.{seal_length, key_length};
ghost use Rattle.burst.specs.Index.{index_rules};
ghost use Rattle.reader.specs.Front.{header_in, kept_in, index_offset_in, position_of, entry_at, entries_at, edition_in, camera_of, name_in, rest_rules, front_rules};
ghost use Rattle.icepole.specs.Answers.{opened_as};
ghost use Rattle.reader.specs.Reader.{closing_part, record_part, record_parts, agrees, answer_in, mark_in, body_in, verdict_on, fetched_as};
ghost use Rattle.reader.specs.Reader.{summary_as, position_as, picture_as, check_mark, check_answer, locate_answer, record_refusal, record_offset, record_bytes_in, fetch_answer, fetch_output};
ghost use Rattle.reader.specs.Verdicts.{tested};

use burst::{
    BURST_NUMBER_AT, BURST_NUMBER_WIDTH, CAMERA_AT, CLOSING_OFFSET_AT, COUNT_WIDTH, DROPPED_AT,
    EDITION_AT, ENTRY_LENGTH, Edition, Entry, FIELDS_LENGTH, INDEX_OFFSET_AT, KEPT_AT, MARK_BYTES,
    MAX_ENTRIES, Name, OFFSET_WIDTH, PICTURE_LENGTH_AT, PICTURE_OFFSET_AT, Place, RECORD_OFFSET_AT,
    SEAL_LENGTH, Shot, TAKEN_AT, TOTAL_AT, ZEROS_AT,
};
use icepole::{KEY_BYTES, Released};
use refusals::Refusal;

// What a file that check accepts says.
#[derive(Clone, Copy)]
pub struct Summary {
    pub burst_number: u64,
    pub site_mark: [u8; MARK_BYTES],
    pub taken: Shot,
    pub kept: Place,
    pub dropped: u16,
    // 0 in a file of edition 1
    pub camera: u32,
}

// What goes with a picture that fetch wrote.
#[derive(Clone, Copy)]
pub struct Picture {
    pub shot: Shot,
    pub stamp: [u8; MARK_BYTES],
    pub length: u32,
}

// A count of the file, and an offset or a length of it: two widths and two types, for which one generic function would need a trait of its own.
fn count_at(f: &[u8], at: usize) -> u16
    requires { at + count_width ≤ length f.now }
    ensures { result ≡ le_at count_width f.now at }
{
    bytes_le::load_le(f, at, COUNT_WIDTH) as u16
}

fn offset_at(f: &[u8], at: usize) -> u32
    requires { at + offset_width ≤ length f.now }
    ensures { result ≡ le_at offset_width f.now at }
{
    bytes_le::load_le(f, at, OFFSET_WIDTH) as u32
}

// The entry that stands at a position of the file.
pub fn entry_at(f: &[u8], position: usize) -> Entry
    requires { position + entry_length ≤ length f.now }
    ensures { result ≡ entry_at f.now position }
{
    Entry {
        shot: Shot(count_at(f, position)),
        zeros: count_at(f, position + ZEROS_AT),
        offset: offset_at(f, position + RECORD_OFFSET_AT),
        length: offset_at(f, position + PICTURE_LENGTH_AT),
    }
}

// The sealed record of an entry, as that part of the file.
fn sealed_of<'a>(f: &'a [u8], x: Entry) -> &'a [u8]
    requires { x.offset + (x.length + seal_length) ≤ length f.now }
    ensures { (result.now ≡ take (x.length + seal_length) (drop x.offset f.now)) ×
        (result.ref_ptr.0 ≡ f.entry.ref_ptr.0) × (result.ref_ptr.1 ≡ f.entry.ref_ptr.1 + x.offset) }
{
    let start = x.offset as usize;
    let end = start + (x.length as usize + SEAL_LENGTH as usize);
    &f[start..end]
}

// Reads the entries from a position of the file on, as many as are wanted.
fn read_entries(f: &[u8], start: usize, entries: &mut [Entry])
    requires { start + entry_length * length entries.old ≤ length f.now }
    ensures { entries.new ≡ entries_at (length entries.old) start f.now }
{
    for (i, x) in entries.iter_mut().enumerate() {
        *x = entry_at(f, start + ENTRY_LENGTH * i);
    }
}

// Whether the entries from a position of the file on obey the index rules.
fn index_ok(f: &[u8], e: Edition, kept: Place, start: u32, taken: Shot) -> bool
    requires { (start + entry_length * kept.0 ≤ length f.now) × (kept.0 ≤ max_entries) × (e.header ≤ max_header) }
    ensures { result ≡ index_rules 0 e.header taken.0 start (entries_at kept.0 start f.now) }
{
    // no heap: room for the most entries of any edition
    let mut room = [burst::no_entry(); MAX_ENTRIES];
    let entries = &mut room[..kept.0 as usize];
    read_entries(f, start as usize, entries);
    burst::entries_ok(entries, e.header, taken, start)
}

// The numbers of the header's nine fields.
#[derive(Clone, Copy)]
pub struct Header {
    pub edition: u16,
    pub taken: Shot,
    pub kept: Place,
    pub dropped: u16,
    pub burst_number: u64,
    pub pictures: u32,
    pub index: u32,
    pub closing: u32,
    pub total: u32,
}

pub fn header_in(f: &[u8]) -> Header
    requires { fields_length ≤ length f.now }
    ensures { result ≡ header_in f.now }
{
    Header {
        edition: count_at(f, EDITION_AT),
        taken: Shot(count_at(f, TAKEN_AT)),
        kept: Place(count_at(f, KEPT_AT)),
        dropped: count_at(f, DROPPED_AT),
        burst_number: bytes_le::load_le(f, BURST_NUMBER_AT, BURST_NUMBER_WIDTH),
        pictures: offset_at(f, PICTURE_OFFSET_AT),
        index: offset_at(f, INDEX_OFFSET_AT),
        closing: offset_at(f, CLOSING_OFFSET_AT),
        total: offset_at(f, TOTAL_AT),
    }
}

// The edition of a file: the row of its number.
fn edition_in(f: &[u8]) -> Edition
    requires { fields_length ≤ length f.now }
    ensures { (result ≡ edition_in f.now) × Known result }
{
    let h = header_in(f);
    burst::edition_numbered(h.edition)
}

// The camera number in a file of an edition, 0 where it has none.
fn camera_in(e: Edition, f: &[u8]) -> u32
    requires { Known e × (e.header ≤ length f.now) }
    ensures { result ≡ camera_of e f.now }
{
    let camera = bytes_le::load_le(f, CAMERA_AT, e.camera as usize);
    camera as u32
}

// The name of a file's burst.
fn name_in(f: &[u8]) -> Name
    requires { (edition_in f.now).header ≤ length f.now }
    ensures { result ≡ name_in f.now }
{
    let h = header_in(f);
    let e = burst::edition_numbered(h.edition);
    let camera = camera_in(e, f);
    Name {
        burst_number: h.burst_number,
        camera,
    }
}

fn all_zero(bytes: &[u8]) -> bool
    ensures { result ≡ list_all (λ x. x == 0) bytes.now }
{
    bytes.iter().all(|x| *x == 0)
}

// The rules of the header's bytes behind its nine fields: a camera number is not 0, and the bytes behind it are zero.
fn rest_ok(e: Edition, f: &[u8]) -> bool
    requires { Known e × (e.header ≤ length f.now) }
    ensures { result ≡ rest_rules e f.now }
{
    let camera = camera_in(e, f);
    if burst::no_camera(e, camera) {
        return false;
    }
    let start = CAMERA_AT + e.camera as usize;
    let end = e.header as usize;
    all_zero(&f[start..end])
}

// The front rules. Sums are of wider numbers, so none wraps.
pub fn front_ok(f: &[u8]) -> bool
    ensures { result ≡ front_rules f.now }
{
    if f.len() < FIELDS_LENGTH {
        return false;
    }
    let h = header_in(f);
    let e = edition_in(f);
    if f.len() < (e.header + SEAL_LENGTH) as usize {
        return false;
    }
    if h.edition != e.number {
        return false;
    }
    if h.pictures != e.header {
        return false;
    }
    if h.taken.0 > e.shots {
        return false;
    }
    let kept = h.kept.0 as usize;
    if h.taken.0 as usize != kept + h.dropped as usize {
        return false;
    }
    let index = h.index as usize;
    let closing = h.closing as usize;
    if closing != index + burst::index_length(h.kept) {
        return false;
    }
    if h.total as usize != closing + SEAL_LENGTH as usize {
        return false;
    }
    if h.total as usize != f.len() {
        return false;
    }
    if !rest_ok(e, f) {
        return false;
    }
    index_ok(f, e, h.kept, h.index, h.taken)
}

// A file whose front rules hold, with the key of its sealed parts, and what its front says.
#[derive(Clone, Copy)]
struct Reading<'a> {
    key: &'a [u8],
    f: &'a [u8],
    h: Header,
    e: Edition,
    name: Name,
    ghost keyed: { length key.now ≡ key_length },
    ghost ruled: { front_rules f.now ≡ true },
    ghost header: { h ≡ header_in f.now },
    ghost edition: { e ≡ edition_in f.now },
    ghost named: { name ≡ name_in f.now },
}

impl<'a> Reading<'a> {
    fn of(key: &'a [u8], f: &'a [u8]) -> Self
        requires { (length key.now ≡ key_length) × (front_rules f.now ≡ true) }
        ensures { (result.key.now ≡ key.now) × (result.f.now ≡ f.now) }
    {
        Reading {
            key,
            f,
            h: header_in(f),
            e: edition_in(f),
            name: name_in(f),
        }
    }

    // Where the entry of a place stands in the file.
    fn position(&self, place: Place) -> usize
        ensures { result ≡ position_of self.now.f.now place.0 }
    {
        self.h.index as usize + burst::index_length(place)
    }

    // Verifies the record of a place.
    fn verify_record(&self, place: Place) -> Result<(), Refusal>
        requires { place.0 < kept_in self.now.f.now }
        ensures { result ≡ tested (verdict_on self.now.key.now self.now.f.now (record_part self.now.f.now (position_of self.now.f.now place.0) ∷ [])) }
    {
        let f = self.f;
        let position = self.position(place);
        let x = entry_at(f, position);
        let next = position + ENTRY_LENGTH;
        let answer = burst::verify_part(
            self.e,
            self.key,
            self.name,
            x.shot,
            &f[position..next],
            &[],
            sealed_of(f, x),
        );
        answer.map_err(|_| Refusal::TagDiffers(x.shot.0))?;
        Ok(())
    }

    // Verifies the records of all places, in order.
    fn verify_records(&self) -> Result<(), Refusal>
        ensures { result ≡ tested (verdict_on self.now.key.now self.now.f.now (record_parts (kept_in self.now.f.now) (index_offset_in self.now.f.now) self.now.f.now)) }
    {
        for place in 0..self.h.kept.0 {
            self.verify_record(Place(place))?;
        }
        Ok(())
    }

    // Opens the record of a place, whose tag agrees: the picture is written to the front of out.
    fn open_record(&self, place: Place, out: &mut [u8]) -> Result<Picture, Refusal>
        requires { (place.0 < kept_in self.now.f.now)
            × (agrees self.now.key.now self.now.f.now (record_part self.now.f.now (position_of self.now.f.now place.0)) ≡ true)
            × ((entry_at self.now.f.now (position_of self.now.f.now place.0)).length ≤ length out.old) }
        ensures { (picture_as result ≡ fetched_as (entry_at self.now.f.now (position_of self.now.f.now place.0))
            (mark_in self.now.key.now self.now.f.now (record_part self.now.f.now (position_of self.now.f.now place.0)))) ×
            (out.new ≡ put_bytes out.old 0 (body_in self.now.key.now self.now.f.now (record_part self.now.f.now (position_of self.now.f.now place.0)))) }
    {
        let f = self.f;
        let position = self.position(place);
        let x = entry_at(f, position);
        let next = position + ENTRY_LENGTH;
        let got = burst::open_part(
            self.e,
            self.key,
            self.name,
            x.shot,
            &f[position..next],
            &[],
            sealed_of(f, x),
            out,
        )?;
        let stamp = got.secret;
        Ok(Picture {
            shot: x.shot,
            stamp,
            length: x.length,
        })
    }

    // Verifies the closing seal; header, then index, are its associated data.
    fn verify_closing(&self) -> Result<Released, Refusal>
        ensures { opened_as result ≡ answer_in self.now.key.now self.now.f.now (closing_part self.now.f.now) }
    {
        let f = self.f;
        let n = self.e.header as usize;
        let start = self.h.index as usize;
        let end = self.h.closing as usize;
        burst::verify_part(
            self.e,
            self.key,
            self.name,
            Shot(0),
            &f[..n],
            &f[start..end],
            &f[end..],
        )
    }
}

pub fn check(key: &[u8], f: &[u8]) -> Result<Summary, Refusal>
    ensures { summary_as result ≡ check_answer key.now f.now }
{
    if key.len() != KEY_BYTES {
        return Err(Refusal::KeyLength);
    }
    if !front_ok(f) {
        return Err(Refusal::FrontBroken);
    }
    let file = Reading::of(key, f);
    let closing = file.verify_closing()?;
    file.verify_records()?;
    let site_mark = closing.secret;
    Ok(Summary {
        burst_number: file.h.burst_number,
        site_mark,
        taken: file.h.taken,
        kept: file.h.kept,
        dropped: file.h.dropped,
        camera: file.name.camera,
    })
}

// Does all of check, and says where the entry of a place stands.
pub fn locate(key: &[u8], f: &[u8], place: Place) -> Result<usize, Refusal>
    ensures { position_as result ≡ locate_answer key.now f.now place.0 }
{
    let c = check(key, f)?;
    if place.0 >= c.kept.0 {
        return Err(Refusal::NoSuchPlace);
    }
    let h = header_in(f);
    Ok(h.index as usize + burst::index_length(place))
}

pub fn fetch(key: &[u8], f: &[u8], place: Place, out: &mut [u8]) -> Result<Picture, Refusal>
    ensures { (picture_as result ≡ fetch_answer key.now f.now place.0 out.old) ×
        (out.new ≡ fetch_output key.now f.now place.0 out.old) }
{
    let position = locate(key, f, place)?;
    let x = entry_at(f, position);
    if out.len() < x.length as usize {
        return Err(Refusal::OutputTooShort);
    }
    Reading::of(key, f).open_record(place, out)
}

// The sealed record of a place, as that part of the file; empty where the call is refused. The file comes first, since the part is lent from it.
// Document 01 gives the call this form ("two numbers lent for that"), so that it answers no Result.
pub fn record<'a>(
    f: &'a [u8],
    key: &[u8],
    place: Place,
    refusal: &mut u32,
    mark: &mut u32,
) -> &'a [u8]
    ensures { (result.now ≡ record_bytes_in key.now f.now place.0) ×
        (result.ref_ptr.0 ≡ f.entry.ref_ptr.0) × (result.ref_ptr.1 ≡ f.entry.ref_ptr.1 + record_offset key.now f.now place.0) ×
        (refusal.new ≡ record_refusal key.now f.now place.0) ×
        (mark.new ≡ check_mark key.now f.now) }
{
    let located = locate(key, f, place);
    *refusal = refusals::number_of(&located);
    *mark = refusals::mark_of(&located);
    let Ok(position) = located else {
        return &f[..0];
    };
    sealed_of(f, entry_at(f, position))
}
