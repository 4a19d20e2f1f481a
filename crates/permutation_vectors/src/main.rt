// Prints P6 and P12 of fourteen states. The stored output was written by the Rust reference (tests/reference, permutation_vectors).
#![tactic(auto)]

use std::io;

type State = [[u64; 5]; 4];

const ZEROS: State = [[0; 5]; 4];

// One step of the generator xorshift64.
fn xorshift(v: u64) -> u64 {
    let a = v ^ (v << 13);
    let b = a ^ (a >> 7);
    b ^ (b << 17)
}

// The words, in word order, are the generator's first twenty numbers from seed on.
fn pseudorandom(seed: u64) -> State {
    let mut s = ZEROS;
    let mut v = seed;
    for y in 0..5 {
        for lanes in &mut s {
            v = xorshift(v);
            lanes[y] = v;
        }
    }
    s
}

// The states that are no seed's.
fn chosen() -> [State; 6] {
    let mut lowest_bit = ZEROS;
    lowest_bit[0][0] = 1;
    let mut highest_bit = ZEROS;
    highest_bit[3][4] = 1 << 63;
    let a = [0x5555555555555555; 5];
    let b = [0xAAAAAAAAAAAAAAAA; 5];
    [
        ZEROS,
        permutation::start_state(),
        [[u64::MAX; 5]; 4],
        lowest_bit,
        highest_bit,
        [a, b, a, b],
    ]
}

// The words in word order, a line for each y.
fn print_state(rt: &impl Print, s: State) -> io::Result<()> {
    let [a, b, c, d] = s;
    for y in 0..5 {
        println!(rt; "{:016x} {:016x} {:016x} {:016x}", a[y], b[y], c[y], d[y])?;
    }
    Ok(())
}

fn main(rt: HostRuntime) -> io::Result<()> {
    let seeded = (6..14).map(pseudorandom);
    for (k, s) in chosen().into_iter().chain(seeded).enumerate() {
        println!(rt; "state {k} rounds 6")?;
        print_state(&rt, permutation::p::<6>(s))?;
        println!(rt; "state {k} rounds 12")?;
        print_state(&rt, permutation::p::<12>(s))?;
    }
    Ok(())
}
