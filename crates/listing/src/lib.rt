// The text that the lister prints for a file (01, "Afterwards"; 02, N1): no key, front rules only.
#![tactic(auto)]

ghost use Rattle.std.specs.Prelude.{◌≡◌, ◌+◌, ◌*◌, ◌≤◌, [], ◌++◌, length, take};
ghost use Rattle.bytes_le.specs.Bytes.{Bytes};
ghost use Rattle.burst.specs.Fields.{entry_length};
ghost use Rattle.burst.specs.Editions.{max_entries};
ghost use Rattle.reader.specs.Front.{entries_at};
ghost use Rattle.plain_text.specs.Text.{field, max_digits};
ghost use Rattle.listing.specs.Listing.{head_lines, shot_line, shot_lines, listing, text_room, listed_as, list_answer, list_output};

use burst::{MAX_ENTRIES, Place};
use refusals::Refusal;
use std::marker::Model;

// The longest file that is listed.
pub const MAX_LISTED: usize = 65536;

// Every text has room in so many bytes: 80 for each shot of the longest burst.
pub const TEXT_ROOM: usize = 80 * MAX_ENTRIES;

// A text as far as it is made. Clauses see its bytes alone.
#[derive(Drop)]
struct Text {
    // no heap: room for every text
    room: [u8; TEXT_ROOM],
    used: usize,
}

impl Model for Text {
    ghost Value = { Bytes };

    ghost view = { λ t. take t.used t.room };

    ghost invariant = { λ t. t.used ≤ text_room };
}

impl Text {
    fn new() -> Self
        ensures { result ≡ [] }
    {
        Text {
            room: [0u8; TEXT_ROOM],
            used: 0,
        }
    }

    fn word(&mut self, word: &[u8])
        requires { length self.old + length word.now ≤ text_room }
        ensures { self.new ≡ self.old ++ word.now }
    {
        self.used = bytes_le::put_bytes(&mut self.room, self.used, word);
    }

    // A word, and a number behind it.
    fn field(&mut self, word: &[u8], n: u64)
        requires { length self.old + (length word.now + max_digits) ≤ text_room }
        ensures text { self.new ≡ self.old ++ field word.now n }
        ensures most { length self.new ≤ length self.old + (length word.now + max_digits) }
    {
        self.used = plain_text::put_field(&mut self.room, self.used, word, n);
    }

    // The lines of burst and counts.
    fn head(&mut self, burst_number: u64, taken: u64, kept: u64, dropped: u64)
        requires { length self.old + 109 ≤ text_room }
        ensures text { self.new ≡ self.old ++ head_lines burst_number taken kept dropped }
        ensures most { length self.new ≤ length self.old + 109 }
    {
        self.field(b"burst ", burst_number);
        self.field(b"\ntaken ", taken);
        self.field(b" kept ", kept);
        self.field(b" dropped ", dropped);
        self.word(b"\n");
    }

    // The line of a kept picture.
    fn shot(&mut self, shot: u64, offset: u64, count: u64)
        requires { length self.old + 78 ≤ text_room }
        ensures text { self.new ≡ self.old ++ shot_line shot offset count }
        ensures most { length self.new ≤ length self.old + 78 }
    {
        self.field(b"shot ", shot);
        self.field(b" at ", offset);
        self.field(b" length ", count);
        self.word(b"\n");
    }

    // The lines of the entries from a position of the file on.
    fn shots(&mut self, f: &[u8], kept: Place, start: usize)
        requires { (start + entry_length * kept.0 ≤ length f.now) × (kept.0 ≤ max_entries) × (length self.old + 78 * kept.0 ≤ text_room) }
        ensures { self.new ≡ self.old ++ shot_lines (entries_at kept.0 start f.now) }
    {
        for place in 0..kept.0 {
            let e = reader::entry_at(f, start + burst::index_length(Place(place)));
            self.shot(e.shot.0 as u64, e.offset as u64, e.length as u64);
        }
    }
}

// The text for a file, in an empty one that is lent: one that was returned would stand on the stack twice.
fn text_of(f: &[u8], text: &mut Text)
    requires { text.old ≡ [] }
    ensures { text.new ≡ listing f.now }
{
    if f.len() > MAX_LISTED {
        return text.word(b"front too long\n");
    }
    if !reader::front_ok(f) {
        return text.word(b"front 12\n");
    }
    let h = reader::header_in(f);
    let kept = h.kept;
    text.head(
        h.burst_number,
        h.taken.0 as u64,
        kept.0 as u64,
        h.dropped as u64,
    );
    text.shots(f, kept, h.index as usize);
}

// The listing of a file: the text's length. The text is made in an array that every text has room in.
pub fn list_front(f: &[u8], out: &mut [u8]) -> Result<usize, Refusal>
    ensures { (listed_as result ≡ list_answer f.now out.old) × (out.new ≡ list_output f.now out.old) }
{
    let mut text = Text::new();
    text_of(f, &mut text);
    let count = text.used;
    if out.len() < count {
        return Err(Refusal::OutputTooShort);
    }
    bytes_le::put_bytes(out, 0, &text.room[..count]);
    Ok(count)
}
