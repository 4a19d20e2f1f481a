// The burst file: its editions, its sealed parts, and the recorder (01, "The burst file", "Recorder"; 02, N1).
#![tactic(auto)]

ghost use Rattle.std.specs.Prelude.{◌≡◌, ◌++◌, ◌+◌, ◌-◌, ◌*◌, ◌≤◌, ◌<◌, ◌^◌, length, take, replicate};
ghost use Rattle.refusals.specs.Numbers.{number_of, mark_of};
ghost use Rattle.bytes_le.specs.Bytes.{Bytes, put_bytes};
ghost use Rattle.icepole.specs.Answers.{opened_as};
ghost use Rattle.burst.specs.Fields.{offset_width, entry_length};
ghost use Rattle.burst.specs.Editions.{Known, numbered, written, no_camera, max_entries, max_header};
ghost use Rattle.burst.specs.Parts.{seal_length, nonce_of, part_blocks, seal_part, part_answer, part_output, key_length, mark_length};
ghost use Rattle.burst.specs.Layout.{identified, max_picture, max_index, record_bytes, closing_seal};
ghost use Rattle.burst.specs.Numbers.{begin_number};
ghost use Rattle.burst.specs.Index.{entry_of, entry_rules, index_rules, bytes_of_entry};
ghost use Rattle.burst.specs.Recorder.{edition_of, name_of, identity_of, is_sound, new_recorder, no_recorder, begun_as, begin_answer, begin_buffer};
ghost use Rattle.burst.specs.Recorder.{shot_as, drop_refusal, drop_answer, keep_refusal, after_keep, keep_answer, keep_buffer};
ghost use Rattle.burst.specs.Recorder.{recorder_header, recorder_index, closed_as, close_refusal, close_answer, close_buffer};

use icepole::{Context, KEY_BYTES, NONCE_BYTES, Released, SECRET_BYTES, TAG_BYTES, Variant};
use refusals::Refusal;

// A shot number (01): counts firings from 1.
#[derive(Clone, Copy, Debug, PartialEq, Eq, PartialOrd, Ord)]
pub struct Shot(pub u16);

// A place (01): counts kept pictures from 0.
#[derive(Clone, Copy, Debug, PartialEq, Eq, PartialOrd, Ord)]
pub struct Place(pub u16);

// ---- the fields of header and index entry
// Bytes of a count (an edition, a shot number, taken, kept, dropped), of an offset or a length, of a burst number, and of a camera number.
pub const COUNT_WIDTH: usize = 2;

pub const OFFSET_WIDTH: usize = 4;

pub const BURST_NUMBER_WIDTH: usize = 8;

pub const CAMERA_WIDTH: usize = 4;

// Where the header's nine fields stand, with which it starts in every edition.
pub const EDITION_AT: usize = 0;

pub const TAKEN_AT: usize = EDITION_AT + COUNT_WIDTH;

pub const KEPT_AT: usize = TAKEN_AT + COUNT_WIDTH;

pub const DROPPED_AT: usize = KEPT_AT + COUNT_WIDTH;

pub const BURST_NUMBER_AT: usize = DROPPED_AT + COUNT_WIDTH;

pub const PICTURE_OFFSET_AT: usize = BURST_NUMBER_AT + BURST_NUMBER_WIDTH;

pub const INDEX_OFFSET_AT: usize = PICTURE_OFFSET_AT + OFFSET_WIDTH;

pub const CLOSING_OFFSET_AT: usize = INDEX_OFFSET_AT + OFFSET_WIDTH;

pub const TOTAL_AT: usize = CLOSING_OFFSET_AT + OFFSET_WIDTH;

// They have so many bytes.
pub const FIELDS_LENGTH: usize = TOTAL_AT + OFFSET_WIDTH;

// Behind them, in an edition that has one, the camera number.
pub const CAMERA_AT: usize = FIELDS_LENGTH;

// Where an entry's fields stand, from its first byte on: the shot number at 0, then
pub const ZEROS_AT: usize = COUNT_WIDTH;

pub const RECORD_OFFSET_AT: usize = ZEROS_AT + COUNT_WIDTH;

pub const PICTURE_LENGTH_AT: usize = RECORD_OFFSET_AT + OFFSET_WIDTH;

pub const ENTRY_LENGTH: usize = PICTURE_LENGTH_AT + OFFSET_WIDTH;

// ---- the editions
// The facts of an edition: its number in the header, the bytes of its header, its most shots, and the bytes of its camera number. What holds of the table's rows
// is `Known` in the contracts: as a ghost field it would ask a proof of every row that a spec makes, and the theorems would speak of fewer rows.
#[derive(Clone, Copy, Debug, PartialEq, Eq)]
pub struct Edition {
    pub number: u16,
    pub header: u32,
    pub shots: u16,
    // a count of bytes: 4, or 0 where the edition has no camera number
    pub camera: u32,
}

// Edition 1.
const NUMBER_1: u16 = 1;

const HEADER_1: u32 = FIELDS_LENGTH as u32;

const SHOTS_1: u16 = 60;

// Edition 2 (02, N1): a camera number, and four zeros behind it.
const NUMBER_2: u16 = 2;

const HEADER_2: u32 = 40;

const SHOTS_2: u16 = 60;

// The editions, a row each.
const EDITION_COUNT: usize = 2;

const EDITIONS: [Edition; EDITION_COUNT] = [
    Edition {
        number: NUMBER_1,
        header: HEADER_1,
        shots: SHOTS_1,
        camera: 0,
    },
    Edition {
        number: NUMBER_2,
        header: HEADER_2,
        shots: SHOTS_2,
        camera: CAMERA_WIDTH as u32,
    },
];

// The number of the edition that the writer makes.
const WRITTEN: u16 = NUMBER_2;

// Bytes of the longest header of any row.
pub const MAX_HEADER: usize = HEADER_2 as usize;

pub const MAX_PICTURE: u32 = 1048576;

// Entries of a recorder, the most shots of any row, and bytes of an index of so many entries.
pub const MAX_ENTRIES: usize = SHOTS_2 as usize;

pub const MAX_INDEX: usize = ENTRY_LENGTH * MAX_ENTRIES;

// Bytes of a mark: of a stamp, or of the site mark.
pub const MARK_BYTES: usize = SECRET_BYTES;

// Bytes by which sealing lengthens, and bytes of a closing seal.
pub const SEAL_LENGTH: u32 = (MARK_BYTES + TAG_BYTES) as u32;

// What names a burst under its key: its number, and the camera's, 0 in an edition that has none. No Option: the nonce has its four bytes in every edition.
#[derive(Clone, Copy, Debug, PartialEq, Eq)]
pub struct Name {
    pub burst_number: u64,
    pub camera: u32,
}

// An index entry: the record's offset in the file and the picture's length. `zeros` is the entry's field that is always zero.
#[derive(Clone, Copy, Debug, PartialEq, Eq)]
pub struct Entry {
    pub shot: Shot,
    pub zeros: u16,
    pub offset: u32,
    pub length: u32,
}

// What a burst is recorded with. No Debug and no ==: it holds the key.
#[derive(Clone, Copy)]
pub struct Recorder {
    pub key: [u8; KEY_BYTES],
    pub burst_number: u64,
    pub site_mark: [u8; MARK_BYTES],
    // the latest shot, 0 before the first
    pub taken: Shot,
    // the next picture's place
    pub kept: Place,
    // bytes of header and records
    pub used: u32,
    // room for 60, of which the first `kept` count: "It holds .. 60 entries" (01), with no heap
    pub entries: [Entry; MAX_ENTRIES],
    // no enum: a closed recorder keeps its other fields, which close returns (01), and anybody may make one
    pub closed: bool,
    pub camera: u32,
}

// What a call answers, and the recorder that goes to the next call. A keep, drop or close that is turned down returns the recorder it was given, a begin a closed
// one, otherwise zero (01).
#[derive(Clone, Copy)]
pub struct Outcome<T> {
    pub answer: Result<T, Refusal>,
    pub recorder: Recorder,
}

// Whether an entry obeys the index rules, after one of shot number `last`, and with its record at `offset`.
fn entry_ok(last: Shot, offset: u32, taken: Shot, x: Entry) -> bool
    ensures { result ≡ entry_rules last.0 offset taken.0 x }
{
    if x.shot <= last {
        return false;
    }
    if x.shot > taken {
        return false;
    }
    if x.zeros != 0 {
        return false;
    }
    if x.offset != offset {
        return false;
    }
    if x.length < 1 {
        return false;
    }
    x.length <= MAX_PICTURE
}

// Whether entries obey the index rules: their records go from `start` to `end`.
pub fn entries_ok(entries: &[Entry], start: u32, taken: Shot, end: u32) -> bool
    requires { (length entries.now ≤ max_entries) × (start ≤ max_header) }
    ensures { result ≡ index_rules 0 start taken.0 end entries.now }
{
    let mut last = Shot(0);
    let mut offset = start;
    for x in entries {
        if !entry_ok(last, offset, taken, *x) {
            return false;
        }
        offset = offset + x.length + SEAL_LENGTH;
        last = x.shot;
    }
    offset == end
}

// An entry of zeros.
pub fn no_entry() -> Entry
    ensures { result ≡ entry_of 0 0 0 }
{
    Entry {
        shot: Shot(0),
        zeros: 0,
        offset: 0,
        length: 0,
    }
}

// The row of an edition number; a number that no row has gives edition 1.
pub fn edition_numbered(number: u16) -> Edition
    ensures { (result ≡ numbered number) × Known result }
{
    for e in EDITIONS {
        if e.number == number {
            return e;
        }
    }
    EDITIONS[0]
}

// The row that the writer makes, from the key's length.
pub fn edition_written(key: usize) -> Edition
    ensures { (result ≡ written key) × Known result }
{
    edition_numbered(WRITTEN)
}

fn new_recorder(
    key: [u8; KEY_BYTES],
    name: Name,
    site_mark: [u8; MARK_BYTES],
    used: u32,
    closed: bool,
) -> Recorder
    ensures { result ≡ new_recorder key (record { name = name; site_mark = site_mark }) used closed }
{
    let none = no_entry();
    Recorder {
        key,
        burst_number: name.burst_number,
        site_mark,
        taken: Shot(0),
        kept: Place(0),
        used,
        entries: [none; MAX_ENTRIES],
        closed,
        camera: name.camera,
    }
}

// Whether a camera number is wanted and 0 was given.
pub fn no_camera(e: Edition, camera: u32) -> bool
    ensures { result ≡ no_camera e camera }
{
    if e.camera == 0 {
        return false;
    }
    camera == 0
}

// Whether begin is turned down, from the camera number and the lengths of what is lent.
fn may_begin(key: usize, site_mark: usize, camera: u32, buffer: usize) -> Result<(), Refusal>
    ensures number { number_of result ≡ begin_number (written key) key site_mark camera buffer }
    ensures mark { mark_of result ≡ 0 }
{
    if key != KEY_BYTES {
        return Err(Refusal::KeyLength);
    }
    if site_mark != MARK_BYTES {
        return Err(Refusal::SecretLength);
    }
    let e = edition_written(key);
    if no_camera(e, camera) {
        return Err(Refusal::NoCameraNumber);
    }
    if buffer < (e.header + SEAL_LENGTH) as usize {
        return Err(Refusal::BufferTooShort);
    }
    Ok(())
}

// What a begin that is turned down returns.
fn no_recorder() -> Recorder
    ensures { result ≡ no_recorder }
{
    let name = Name {
        burst_number: 0,
        camera: 0,
    };
    new_recorder([0u8; KEY_BYTES], name, [0u8; MARK_BYTES], 0, true)
}

pub fn begin(
    key: &[u8],
    burst_number: u64,
    camera: u32,
    site_mark: &[u8],
    buffer: &mut [u8],
) -> Outcome<()>
    ensures answer { begun_as result ≡ begin_answer key.now (identified burst_number camera site_mark.now) buffer.old }
    ensures output { buffer.new ≡ begin_buffer key.now (identified burst_number camera site_mark.now) buffer.old }
{
    if let Err(refusal) = may_begin(key.len(), site_mark.len(), camera, buffer.len()) {
        return Outcome {
            answer: Err(refusal),
            recorder: no_recorder(),
        };
    }
    let e = edition_written(key.len());
    let zeros = [0u8; MAX_HEADER];
    let n = e.header as usize;
    bytes_le::put_bytes(buffer, 0, &zeros[..n]);
    let k: [u8; KEY_BYTES] = key.try_into().unwrap();
    let m: [u8; MARK_BYTES] = site_mark.try_into().unwrap();
    let name = Name {
        burst_number,
        camera,
    };
    Outcome {
        answer: Ok(()),
        recorder: new_recorder(k, name, m, e.header, false),
    }
}

// The nonce of a shot; shot number 0 is the closing seal's.
fn nonce_of(e: Edition, name: Name, shot: Shot) -> [u8; NONCE_BYTES]
    ensures { result ≡ nonce_of e name shot.0 }
{
    let mut a = [0u8; NONCE_BYTES];
    let i = bytes_le::store_le(&mut a, 0, BURST_NUMBER_WIDTH, name.burst_number);
    let j = bytes_le::store_le(&mut a, i, COUNT_WIDTH, shot.0 as u64);
    bytes_le::store_le(&mut a, j, CAMERA_WIDTH, name.camera as u64);
    a
}

// ---- sealed parts: the one place of recorder and reader where the cipher is chosen. Every length is right, so that only a tag can be refused.
// Edition, key, name and shot go in one by one, and each states the bound on the associated data: every call has another shot and other data, so that a struct of
// them would be made for one call, here and in the reader.
// Seals a part at the front of out.
fn seal_part(
    e: Edition,
    key: &[u8; KEY_BYTES],
    name: Name,
    shot: Shot,
    mark: &[u8],
    first: &[u8],
    second: &[u8],
    body: &[u8],
    out: &mut [u8],
)
    requires { (length mark.now ≡ mark_length) × (length first.now + length second.now ≤ max_header + max_index)
        × (length body.now ≤ max_picture) × (length body.now + seal_length ≤ length out.old) }
    ensures { out.new ≡ put_bytes out.old 0
        (seal_part e key.now name shot.0 mark.now (first.now ++ second.now) body.now) }
{
    let nonce = nonce_of(e, name, shot);
    let context = Context {
        key,
        nonce: &nonce,
        first,
        second,
    };
    icepole::seal(Variant::Icepole128, context, mark, body, out).unwrap();
}

// How many padded blocks sealing a part absorbs, from the lengths of its associated data and its body (02, N4).
pub fn part_blocks(e: Edition, associated: usize, body: usize) -> usize
    requires { (associated ≤ max_header + max_index) × (body ≤ max_picture) }
    ensures { ((mark ad m : Bytes) → length ad ≡ associated → length m ≡ body → result ≡ part_blocks e mark ad m)
        × (result ≤ associated + body + 3) }
{
    let q = icepole::sizes_of(Variant::Icepole128);
    padded_blocks::seal_blocks(q.block, associated, body)
}

// Verifies a part: its mark and the length of its body, or 7. It writes nothing.
pub fn verify_part(
    e: Edition,
    key: &[u8],
    name: Name,
    shot: Shot,
    first: &[u8],
    second: &[u8],
    sealed: &[u8],
) -> Result<Released, Refusal>
    requires { (length key.now ≡ key_length) × (length first.now + length second.now ≤ max_header + max_index)
        × (seal_length ≤ length sealed.now) × (length sealed.now ≤ max_picture + seal_length) }
    ensures { opened_as result ≡ part_answer e key.now name shot.0 (first.now ++ second.now) sealed.now }
{
    let nonce = nonce_of(e, name, shot);
    let context = Context {
        key,
        nonce: &nonce,
        first,
        second,
    };
    icepole::verify(Variant::Icepole128, context, sealed)
}

// Opens a part: its body is written to the front of out once the tag was found to agree.
pub fn open_part(
    e: Edition,
    key: &[u8],
    name: Name,
    shot: Shot,
    first: &[u8],
    second: &[u8],
    sealed: &[u8],
    out: &mut [u8],
) -> Result<Released, Refusal>
    requires { (length key.now ≡ key_length) × (length first.now + length second.now ≤ max_header + max_index)
        × (seal_length ≤ length sealed.now) × (length sealed.now ≤ max_picture + seal_length)
        × (length sealed.now ≤ length out.old + seal_length) }
    ensures answer { opened_as result ≡ part_answer e key.now name shot.0 (first.now ++ second.now) sealed.now }
    ensures output { out.new ≡ part_output e key.now name shot.0 (first.now ++ second.now) sealed.now out.old }
{
    let nonce = nonce_of(e, name, shot);
    let context = Context {
        key,
        nonce: &nonce,
        first,
        second,
    };
    icepole::open_message(Variant::Icepole128, context, sealed, out)
}

// Puts an entry's bytes into out from index at on; returns the index behind them. The layout is the file's (01), which no conversion of the library has.
fn put_entry(out: &mut [u8], at: usize, x: Entry) -> usize
    requires { at + entry_length ≤ length out.old }
    ensures { (result ≡ at + entry_length) × (out.new ≡ put_bytes out.old at (bytes_of_entry x)) }
{
    let i = bytes_le::store_le(out, at, COUNT_WIDTH, x.shot.0 as u64);
    let j = bytes_le::store_le(out, i, COUNT_WIDTH, x.zeros as u64);
    let k = bytes_le::store_le(out, j, OFFSET_WIDTH, x.offset as u64);
    bytes_le::store_le(out, k, OFFSET_WIDTH, x.length as u64)
}

fn entry_bytes(x: Entry) -> [u8; ENTRY_LENGTH]
    ensures { result ≡ bytes_of_entry x }
{
    let mut a = [0u8; ENTRY_LENGTH];
    put_entry(&mut a, 0, x);
    a
}

// Bytes of the entries before a place: with kept for the place, those of the whole index. No count of shots can be handed in.
pub fn index_length(kept: Place) -> usize
    ensures { result ≡ entry_length * kept.0 }
{
    ENTRY_LENGTH * (kept.0 as usize)
}

// What a recorder tells of its burst, and what it writes.
impl Recorder {
    // The row of its burst.
    fn edition(&self) -> Edition
        ensures { (result ≡ edition_of self.now) × Known result }
    {
        edition_written(self.key.len())
    }

    // The name of its burst.
    fn name(&self) -> Name
        ensures { result ≡ name_of self.now }
    {
        Name {
            burst_number: self.burst_number,
            camera: self.camera,
        }
    }

    fn is_sound(&self) -> bool
        ensures { result ≡ is_sound (edition_of self.now) self.now }
    {
        let e = self.edition();
        if self.closed {
            return false;
        }
        if self.taken.0 > e.shots {
            return false;
        }
        if self.kept.0 > self.taken.0 {
            return false;
        }
        entries_ok(
            &self.entries[..self.kept.0 as usize],
            e.header,
            self.taken,
            self.used,
        )
    }

    // Whether a drop, a keep or a close is turned down.
    fn may_drop(&self) -> Result<(), Refusal>
        ensures number { number_of result ≡ drop_refusal self.now }
        ensures mark { mark_of result ≡ 0 }
    {
        if !self.is_sound() {
            return Err(Refusal::NotSound);
        }
        if self.taken.0 >= self.edition().shots {
            return Err(Refusal::BurstFull);
        }
        Ok(())
    }

    fn may_keep(&self, stamp: &[u8], picture: &[u8], buffer: &[u8]) -> Result<(), Refusal>
        ensures number { number_of result ≡ keep_refusal self.now stamp.now picture.now buffer.now }
        ensures mark { mark_of result ≡ 0 }
    {
        if !self.is_sound() {
            return Err(Refusal::NotSound);
        }
        if stamp.len() != MARK_BYTES {
            return Err(Refusal::SecretLength);
        }
        if self.taken.0 >= self.edition().shots {
            return Err(Refusal::BurstFull);
        }
        let count = picture.len();
        if count < 1 {
            return Err(Refusal::PictureLength);
        }
        if count > MAX_PICTURE as usize {
            return Err(Refusal::PictureLength);
        }
        let used = self.used as usize + count + SEAL_LENGTH as usize;
        let end = used + index_length(Place(self.kept.0 + 1));
        if buffer.len() < end + SEAL_LENGTH as usize {
            return Err(Refusal::BufferTooShort);
        }
        Ok(())
    }

    fn may_close(&self, buffer: &[u8]) -> Result<(), Refusal>
        ensures number { number_of result ≡ close_refusal self.now buffer.now }
        ensures mark { mark_of result ≡ 0 }
    {
        if !self.is_sound() {
            return Err(Refusal::NotSound);
        }
        let end = self.used as usize + index_length(self.kept);
        if buffer.len() < end + SEAL_LENGTH as usize {
            return Err(Refusal::BufferTooShort);
        }
        Ok(())
    }

    // The entry of the next picture, which has so many bytes.
    fn next_entry(&self, count: u32) -> Entry
        requires { self.now.taken.0 < max_entries }
        ensures { result ≡ entry_of (self.now.taken.0 + 1) self.now.used count }
    {
        Entry {
            shot: Shot(self.taken.0 + 1),
            zeros: 0,
            offset: self.used,
            length: count,
        }
    }

    // Seals the next picture into the buffer, behind the records before it.
    fn put_record(&self, stamp: &[u8], picture: &[u8], buffer: &mut [u8])
        requires { (self.now.taken.0 < max_entries) × (length stamp.now ≡ mark_length) × (length picture.now ≤ max_picture)
            × (self.now.used + length picture.now + seal_length ≤ length buffer.old) }
        ensures { buffer.new ≡ put_bytes buffer.old self.now.used
            (record_bytes (edition_of self.now) self.now.key (name_of self.now) (self.now.taken.0 + 1) self.now.used stamp.now picture.now) }
    {
        let x = self.next_entry(picture.len() as u32);
        let associated = entry_bytes(x);
        let start = self.used as usize;
        seal_part(
            self.edition(),
            &self.key,
            self.name(),
            x.shot,
            stamp,
            &associated,
            &[],
            picture,
            &mut buffer[start..],
        );
    }

    // The recorder after a picture of so many bytes.
    fn with_picture(&self, count: u32) -> Recorder
        requires { (self.now.taken.0 < max_entries) × (self.now.kept.0 < max_entries)
            × (self.now.used + count + seal_length < 256 ^ offset_width) }
        ensures { result ≡ after_keep self.now count }
    {
        let x = self.next_entry(count);
        let mut next = Recorder {
            taken: x.shot,
            kept: Place(self.kept.0 + 1),
            used: self.used + count + SEAL_LENGTH,
            ..*self
        };
        next.entries[self.kept.0 as usize] = x;
        next
    }

    // The header of the file, and zeros behind it. No heap: an array that every header has room in.
    fn header(&self) -> [u8; MAX_HEADER]
        requires { (self.now.kept.0 ≤ self.now.taken.0)
            × (self.now.used + entry_length * self.now.kept.0 + seal_length < 256 ^ offset_width) }
        ensures { result ≡ recorder_header self.now ++ replicate (max_header - (edition_of self.now).header) 0 }
    {
        let e = self.edition();
        let taken = self.taken.0;
        let kept = self.kept.0;
        let index = self.used as u64;
        let closing = index + index_length(self.kept) as u64;
        let mut h = [0u8; MAX_HEADER];
        bytes_le::store_le(&mut h, EDITION_AT, COUNT_WIDTH, e.number as u64);
        bytes_le::store_le(&mut h, TAKEN_AT, COUNT_WIDTH, taken as u64);
        bytes_le::store_le(&mut h, KEPT_AT, COUNT_WIDTH, kept as u64);
        bytes_le::store_le(&mut h, DROPPED_AT, COUNT_WIDTH, (taken - kept) as u64);
        bytes_le::store_le(
            &mut h,
            BURST_NUMBER_AT,
            BURST_NUMBER_WIDTH,
            self.burst_number,
        );
        bytes_le::store_le(&mut h, PICTURE_OFFSET_AT, OFFSET_WIDTH, e.header as u64);
        bytes_le::store_le(&mut h, INDEX_OFFSET_AT, OFFSET_WIDTH, index);
        bytes_le::store_le(&mut h, CLOSING_OFFSET_AT, OFFSET_WIDTH, closing);
        bytes_le::store_le(&mut h, TOTAL_AT, OFFSET_WIDTH, closing + SEAL_LENGTH as u64);
        bytes_le::store_le(&mut h, CAMERA_AT, e.camera as usize, self.camera as u64);
        h
    }

    // The index of the file, at the front of what is returned. No heap: an array that every index has room in.
    fn index(&self) -> [u8; MAX_INDEX]
        requires { self.now.kept.0 ≤ max_entries }
        ensures { (length result ≡ max_index) × (take (entry_length * self.now.kept.0) result ≡ recorder_index self.now) }
    {
        let n = self.kept.0 as usize;
        let mut b = [0u8; MAX_INDEX];
        let mut at = 0;
        for x in &self.entries[..n] {
            at = put_entry(&mut b, at, *x);
        }
        b
    }

    // Writes header, index and closing seal of the file, from the header's and the index's bytes.
    fn put_end(&self, header: &[u8], index: &[u8], buffer: &mut [u8])
        requires { (length header.now ≤ max_header) × (length index.now ≤ max_index) × (length header.now ≤ self.now.used)
            × (self.now.used + length index.now + seal_length ≤ length buffer.old) }
        ensures { buffer.new ≡ put_bytes (put_bytes buffer.old 0 header.now) self.now.used
            (index.now ++ closing_seal (edition_of self.now) self.now.key (identity_of self.now) header.now index.now) }
    {
        let at = self.used as usize;
        bytes_le::put_bytes(buffer, 0, header);
        let end = bytes_le::put_bytes(buffer, at, index);
        seal_part(
            self.edition(),
            &self.key,
            self.name(),
            Shot(0),
            &self.site_mark,
            header,
            index,
            &[],
            &mut buffer[end..],
        );
    }
}

pub fn drop_shot(r: Recorder) -> Outcome<Shot>
    ensures { shot_as result ≡ drop_answer r }
{
    if let Err(refusal) = r.may_drop() {
        return Outcome {
            answer: Err(refusal),
            recorder: r,
        };
    }
    let shot = Shot(r.taken.0 + 1);
    Outcome {
        answer: Ok(shot),
        recorder: Recorder { taken: shot, ..r },
    }
}

pub fn keep(r: Recorder, stamp: &[u8], picture: &[u8], buffer: &mut [u8]) -> Outcome<Shot>
    ensures answer { shot_as result ≡ keep_answer r stamp.now picture.now buffer.old }
    ensures output { buffer.new ≡ keep_buffer r stamp.now picture.now buffer.old }
{
    if let Err(refusal) = r.may_keep(stamp, picture, buffer) {
        return Outcome {
            answer: Err(refusal),
            recorder: r,
        };
    }
    r.put_record(stamp, picture, buffer);
    let next = r.with_picture(picture.len() as u32);
    Outcome {
        answer: Ok(next.taken),
        recorder: next,
    }
}

pub fn close(r: Recorder, buffer: &mut [u8]) -> Outcome<u32>
    ensures answer { closed_as result ≡ close_answer r buffer.old }
    ensures output { buffer.new ≡ close_buffer r buffer.old }
{
    if let Err(refusal) = r.may_close(buffer) {
        return Outcome {
            answer: Err(refusal),
            recorder: r,
        };
    }
    let header = r.header();
    let index = r.index();
    let n = index_length(r.kept);
    let m = r.edition().header as usize;
    r.put_end(&header[..m], &index[..n], buffer);
    let total = r.used + n as u32 + SEAL_LENGTH;
    Outcome {
        answer: Ok(total),
        recorder: Recorder { closed: true, ..r },
    }
}
