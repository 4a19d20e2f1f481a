// Performs a list of calls, given as bytes, on a real recorder and buffer, and writes every answer out.
#![tactic(auto)]

ghost use Rattle.std.specs.Prelude.{◌≡◌, ◌++◌, ◌+◌, ◌*◌, ◌≤◌, eqb, length};
ghost use Rattle.bytes_le.specs.Bytes.{put_bytes, le, le_at};
ghost use Rattle.trace.specs.Trace.{shot_told, answer_to, next_recorder, next_buffer, answers_from, buffer_from};
ghost use Rattle.replay.specs.Replay.{number_width, answer_length, call_as, told, first_as, first_call, script_calls, script_rest, answers_bytes, list_of, whole_script, Replayed};
ghost use Rattle.burst.specs.Layout.{identified};
ghost use Rattle.burst.specs.Recorder.{shot_as};

use burst::{Recorder, Shot};
use refusals::Refusal;

// The bytes of a script that begin a call: the C interface has them as numbers, and `first_call` reads them into the enum.
const DROP: u8 = 0;

const CLOSE: u8 = 1;

const KEEP: u8 = 2;

// Bytes of a picture's length in a script, and of each of an answer's two numbers; of a keep before its stamp; and of an answer.
const NUMBER_WIDTH: usize = 4;

const KEEP_FRONT: usize = 2 + NUMBER_WIDTH;

const ANSWER_LENGTH: usize = NUMBER_WIDTH + NUMBER_WIDTH;

// A call of a script.
#[derive(Clone, Copy)]
enum ScriptCall<'a> {
    Drop,
    Close,
    Keep { stamp: &'a [u8], picture: &'a [u8] },
}

// As `first_call`, where the first byte begins a keep.
fn first_keep(script: &[u8]) -> Option<(ScriptCall, usize)>
    requires { (1 ≤ length script.now) × (le_at 1 script.now 0 ≡ 2) }
    ensures { first_as result ≡ first_call script.now }
{
    if script.len() < KEEP_FRONT {
        return None;
    }
    let stamp = KEEP_FRONT + bytes_le::load_le(script, 1, 1) as usize;
    let end = stamp + bytes_le::load_le(script, 2, NUMBER_WIDTH) as usize;
    if script.len() < end {
        return None;
    }
    let call = ScriptCall::Keep {
        stamp: &script[KEEP_FRONT..stamp],
        picture: &script[stamp..end],
    };
    Some((call, end))
}

// The first call of a script and how many bytes it takes; none at the script's end, where a keep is cut by it, and at a byte that begins no call.
fn first_call(script: &[u8]) -> Option<(ScriptCall, usize)>
    ensures { first_as result ≡ first_call script.now }
{
    match *script.first()? {
        DROP => Some((ScriptCall::Drop, 1)),
        CLOSE => Some((ScriptCall::Close, 1)),
        KEEP => first_keep(script),
        _ => None,
    }
}

// What a keep or a drop answers, with the shot number as a plain number.
fn with_number(answer: Result<Shot, Refusal>) -> Result<u32, Refusal>
    ensures { (r : Recorder) → told result ≡ shot_told (shot_as (record { answer = answer; recorder = r })) }
{
    answer.map(|shot| u32::from(shot.0))
}

// Performs a call on the recorder: it answers a shot number, or a close the total. In place, since a recorder has some 800 bytes to copy.
fn perform(r: &mut Recorder, call: ScriptCall, buffer: &mut [u8]) -> Result<u32, Refusal>
    ensures answer { told result ≡ answer_to r.old buffer.old (call_as call.entry) }
    ensures recorder { r.new ≡ next_recorder r.old buffer.old (call_as call.entry) }
    ensures output { buffer.new ≡ next_buffer r.old buffer.old (call_as call.entry) }
{
    match call {
        ScriptCall::Drop => {
            let k = burst::drop_shot(*r);
            *r = k.recorder;
            with_number(k.answer)
        }
        ScriptCall::Close => {
            let k = burst::close(*r, buffer);
            *r = k.recorder;
            k.answer
        }
        ScriptCall::Keep { stamp, picture } => {
            let k = burst::keep(*r, stamp, picture, buffer);
            *r = k.recorder;
            with_number(k.answer)
        }
    }
}

// Writes an answer: its refusal number, 0 when done, and then its value, 0 with a refusal.
fn put_answer(answers: &mut [u8], at: usize, number: u32, value: u32)
    requires { at + answer_length ≤ length answers.old }
    ensures { answers.new ≡ put_bytes answers.old at (le number_width number ++ le number_width value) }
{
    let next = bytes_le::store_le(answers, at, NUMBER_WIDTH, number as u64);
    bytes_le::store_le(answers, next, NUMBER_WIDTH, value as u64);
}

// How many answers were written, and whether the whole script was performed: two facts, of which each is told whatever the other is.
#[derive(Clone, Copy)]
pub struct Performed {
    pub count: usize,
    pub whole: bool,
}

// What to answer where the calls end and so much of the script is left.
fn ended(count: usize, rest: &[u8]) -> Performed
    ensures { result ≡ record { count = count; whole = eqb (length rest.now) 0 } }
{
    Performed {
        count,
        whole: rest.is_empty(),
    }
}

// Performs the calls of a script, at most so many as there is room for.
fn run(
    start: Recorder,
    script: &[u8],
    room: usize,
    buffer: &mut [u8],
    answers: &mut [u8],
) -> Performed
    requires { answer_length * room ≤ length answers.old }
    ensures { (result ≡ record { count = length (script_calls room script.now); whole = eqb (length (script_rest room script.now)) 0 }) ×
        (buffer.new ≡ buffer_from start buffer.old (script_calls room script.now)) ×
        (answers.new ≡ put_bytes answers.old 0 (answers_bytes (answers_from start buffer.old (script_calls room script.now)))) }
{
    let mut r = start;
    let mut rest = script;
    for i in 0..room {
        let Some((call, taken)) = first_call(rest) else {
            return ended(i, rest);
        };
        let answer = perform(&mut r, call, buffer);
        let number = refusals::number_of(&answer);
        let value = answer.unwrap_or(0);
        put_answer(answers, ANSWER_LENGTH * i, number, value);
        rest = &rest[taken..];
    }
    ended(room, rest)
}

// Performs a begin and then a script, and writes the answers one behind the other.
pub fn replay(
    key: &[u8],
    burst_number: u64,
    camera: u32,
    site_mark: &[u8],
    script: &[u8],
    buffer: &mut [u8],
    answers: &mut [u8],
) -> Performed
    ensures { Replayed
        (list_of key.now (identified burst_number camera site_mark.now) (length buffer.old) (length answers.old) script.now)
        answers.old answers.new buffer.old buffer.new result.count ×
        (result.whole ≡ whole_script (length answers.old) script.now) }
{
    if answers.len() < ANSWER_LENGTH {
        return Performed {
            count: 0,
            whole: false,
        };
    }
    let room = answers.len() / ANSWER_LENGTH - 1;
    let b = burst::begin(key, burst_number, camera, site_mark, buffer);
    put_answer(answers, 0, refusals::number_of(&b.answer), 0);
    let p = run(
        b.recorder,
        script,
        room,
        buffer,
        &mut answers[ANSWER_LENGTH..],
    );
    Performed {
        count: 1 + p.count,
        whole: p.whole,
    }
}
