// Prints sealed messages of the three variants, of every two of ten edge lengths of message and associated data, and whether opening gives back what was sealed.
// The stored output was written by the Rust reference (tests/reference, sealing_vectors).
#![tactic(auto)]

ghost use Rattle.std.specs.Prelude.{◌≤◌, length};

use icepole::{Context, Variant};
use std::{array, io};

const VARIANTS: [Variant; 3] = [
    Variant::Icepole128,
    Variant::Icepole128a,
    Variant::Icepole256a,
];

// Around one block and two, of 120 and of 128 bytes.
const EDGES: [usize; 10] = [0, 1, 119, 120, 121, 127, 128, 129, 240, 256];

// Everything is cut from one run of bytes, at these places.
const KEY: usize = 0;

const NONCE: usize = 32;

const SECRET: usize = 48;

const ASSOCIATED: usize = 64;

const MESSAGE: usize = 320;

const RUN: usize = 576;

// What is sealed, in parts of the run.
#[derive(Clone, Copy)]
struct Case<'a> {
    variant: Variant,
    context: Context<'a>,
    secret: &'a [u8],
    message: &'a [u8],
}

// Byte i of the run is (31 i + i div 7) mod 256.
fn run() -> [u8; RUN] {
    array::from_fn(|i| ((31 * i + i / 7) % 256) as u8)
}

fn name(variant: Variant) -> &'static str {
    match variant {
        Variant::Icepole128 => "128",
        Variant::Icepole128a => "128a",
        Variant::Icepole256a => "256a",
    }
}

// The first part of a bytes of associated data, cut in one of four ways. They are numbers since the cases take them in turn, by the sum of two indices.
fn first_part(a: usize, way: usize) -> usize
    ensures { result ≤ a }
{
    match way {
        0 => 0,
        1 => a,
        2 => a / 2,
        _ => a / 3,
    }
}

// A message of m bytes and a bytes of associated data, the first s of them as the first part.
fn cut<'a>(run: &'a [u8; RUN], variant: Variant, m: usize, s: usize, a: usize) -> Case<'a>
    requires { (m ≤ 256) × (s ≤ a) × (a ≤ 256) }
    ensures { (length result.secret.now ≤ 16) × (length result.message.now ≤ 256) }
{
    let q = icepole::sizes_of(variant);
    let (first, second) = run[ASSOCIATED..ASSOCIATED + a].split_at(s);
    Case {
        variant,
        context: Context {
            key: &run[KEY..KEY + q.key],
            nonce: &run[NONCE..NONCE + q.nonce],
            first,
            second,
        },
        secret: &run[SECRET..SECRET + q.secret],
        message: &run[MESSAGE..MESSAGE + m],
    }
}

// Whether it was sealed.
fn seals(c: &Case<'_>, out: &mut [u8]) -> bool {
    icepole::seal(c.variant, c.context, c.secret, c.message, out).is_ok()
}

// Whether opening gives back message and secret number.
fn opens(c: &Case<'_>, sealed: &[u8]) -> bool {
    let mut out = [0; 256];
    let answer = icepole::open_message(c.variant, c.context, sealed, &mut out);
    match answer {
        Ok(released) => {
            released.length == c.message.len()
                && out.starts_with(c.message)
                && released.secret.starts_with(c.secret)
        }
        Err(_) => false,
    }
}

// Two hex digits for each byte.
fn print_bytes(rt: &impl Print, b: &[u8]) -> io::Result<()> {
    for byte in b {
        print!(rt; "{byte:02x}")?;
    }
    Ok(())
}

// One line: the lengths, the sealed message, and whether it was opened.
fn print_case(rt: &impl Print, c: &Case<'_>) -> io::Result<()>
    requires { (length c.now.secret.now ≤ 16) × (length c.now.message.now ≤ 256) }
{
    let (m, s, t) = (
        c.message.len(),
        c.context.first.len(),
        c.context.second.len(),
    );
    let mut out = [0; 288];
    let sealed = seals(c, &mut out);
    let written = &out[..c.secret.len() + m + 16];
    print!(rt; "{} message {m} associated {s} + {t}: ", name(c.variant))?;
    print_bytes(rt, written)?;
    if sealed && opens(c, written) {
        rt.println(" opened")
    } else {
        rt.println(" differs")
    }
}

// The parts of the associated data go through the four ways.
fn main(rt: HostRuntime) -> io::Result<()> {
    let run = run();
    for variant in VARIANTS {
        for (i, m) in EDGES.into_iter().enumerate() {
            for (j, a) in EDGES.into_iter().enumerate() {
                let s = first_part(a, (i + j) % 4);
                print_case(&rt, &cut(&run, variant, m, s, a))?;
            }
        }
    }
    Ok(())
}
