// Where the tables of the permutation come from (02, N8): Keccak-f[1600] of FIPS 202, whose lanes are the starting words, and a step rule that gives the round
// constants. There is no table here: the offsets of rho and the constants of iota are worked out by the standard's rules. The cipher calls nothing of this.
#![tactic(auto)]

ghost use Rattle.std.specs.Prelude.{◌≡◌, ◌<◌};
ghost use Rattle.bits.specs.Bits.{word_length};
ghost use Rattle.constants.specs.Keccak.{θ, ρ, π, χ, ι, Rnd, keccak_f, register_turn, iota_constant};
ghost use Rattle.constants.specs.Keccak.{rc as Keccak·rc};
ghost use Rattle.constants.specs.Words.{parity_word, xor_each, chi_sheet, with_bit};
ghost use Rattle.constants.specs.Tables.{starting_words, stepped, round_constants};
ghost use Rattle.constants.specs.Tables.{lane as Tables·lane};

use permutation::rotate;

// The state array A of Keccak (FIPS 202, 3.1): bit z of a[x][y] is A[x, y, z].
type Lanes = [[u64; 5]; 5];

// The five lanes of one x.
type Sheet = [u64; 5];

// C[x, z] at every z (FIPS 202, 3.2.1).
fn parity(s: Sheet) -> u64
    ensures { result ≡ parity_word s }
{
    s[0] ^ s[1] ^ s[2] ^ s[3] ^ s[4]
}

// Each lane of a sheet, xored with d.
fn xor_each(s: Sheet, d: u64) -> Sheet
    ensures { result ≡ xor_each s d }
{
    [s[0] ^ d, s[1] ^ d, s[2] ^ d, s[3] ^ d, s[4] ^ d]
}

// Loops over x and t are the standard's. With array::from_fn a proof would have to follow the closure's state from call to call, and `search` did not.
// A'[x, y, z] = A[x, y, z] ⊕ D[x, z], where D[x, z] = C[(x - 1) mod 5, z] ⊕ C[(x + 1) mod 5, (z - 1) mod w] (FIPS 202, 3.2.1).
fn theta(a: Lanes) -> Lanes
    ensures { result ≡ θ a }
{
    let mut b = a;
    for x in 0..5 {
        let d = parity(a[(x + 4) % 5]) ^ rotate(parity(a[(x + 1) % 5]), 1);
        b[x] = xor_each(a[x], d);
    }
    b
}

// A'[x, y, z] = A[x, y, (z - (t + 1)(t + 2)/2) mod w], then (x, y) = (y, (2x + 3y) mod 5), for t from 0 to 23 (FIPS 202, 3.2.2).
fn rho(a: Lanes) -> Lanes
    ensures { result ≡ ρ a }
{
    let mut b = a;
    let mut x = 1;
    let mut y = 0;
    for t in 0..24u32 {
        b[x][y] = rotate(a[x][y], (t + 1) * (t + 2) / 2 % 64);
        let next = (2 * x + 3 * y) % 5;
        x = y;
        y = next;
    }
    b
}

// A'[x, y, z] = A[(x + 3y) mod 5, x, z] (FIPS 202, 3.2.3).
fn pi(a: Lanes) -> Lanes
    ensures { result ≡ π a }
{
    let mut b = a;
    for x in 0..5 {
        b[x] = [
            a[x][x],
            a[(x + 3) % 5][x],
            a[(x + 6) % 5][x],
            a[(x + 9) % 5][x],
            a[(x + 12) % 5][x],
        ];
    }
    b
}

// A sheet of chi: p, with the two sheets after it.
fn chi_sheet(p: Sheet, q: Sheet, s: Sheet) -> Sheet
    ensures { result ≡ chi_sheet p q s }
{
    [
        p[0] ^ (!q[0] & s[0]),
        p[1] ^ (!q[1] & s[1]),
        p[2] ^ (!q[2] & s[2]),
        p[3] ^ (!q[3] & s[3]),
        p[4] ^ (!q[4] & s[4]),
    ]
}

// A'[x, y, z] = A[x, y, z] ⊕ ((A[(x + 1) mod 5, y, z] ⊕ 1) · A[(x + 2) mod 5, y, z]) (FIPS 202, 3.2.4).
fn chi(a: Lanes) -> Lanes
    ensures { result ≡ χ a }
{
    let mut b = a;
    for x in 0..5 {
        b[x] = chi_sheet(a[x], a[(x + 1) % 5], a[(x + 2) % 5]);
    }
    b
}

// R = 0 || R; R[0], R[4], R[5] and R[6] are xored with R[8]; R = Trunc8[R] (FIPS 202, 3.2.5).
fn register_turn(r: [bool; 8]) -> [bool; 8]
    ensures { result ≡ register_turn r }
{
    [
        r[7],
        r[0],
        r[1],
        r[2],
        r[3] ^ r[7],
        r[4] ^ r[7],
        r[5] ^ r[7],
        r[6],
    ]
}

// rc(t) (FIPS 202, 3.2.5).
fn rc(t: u32) -> bool
    ensures { result ≡ Keccak·rc t }
{
    let mut r = [true, false, false, false, false, false, false, false];
    for _ in 0..t % 255 {
        r = register_turn(r);
    }
    r[0]
}

// w with bit k set to b.
fn with_bit(w: u64, k: u32, b: bool) -> u64
    requires { k < word_length }
    ensures { result ≡ with_bit w k b }
{
    if b { w | (1 << k) } else { w & !(1 << k) }
}

// The index stays a number below 24, and no type of its own: the standard's formulas and the loop of keccak_f have the number.
// RC of the round with index i: RC[2^j - 1] = rc(j + 7i), for j from 0 to 6; the other bits are 0 (FIPS 202, 3.2.5).
fn iota_constant(i: u32) -> u64
    requires { i < 24 }
    ensures { result ≡ iota_constant i }
{
    let mut constant = 0;
    for j in 0..7 {
        constant = with_bit(constant, (1 << j) - 1, rc(j + 7 * i));
    }
    constant
}

// A'[0, 0, z] = A[0, 0, z] ⊕ RC[z] (FIPS 202, 3.2.5).
fn iota(a: Lanes, i: u32) -> Lanes
    requires { i < 24 }
    ensures { result ≡ ι a i }
{
    let mut b = a;
    b[0][0] = b[0][0] ^ iota_constant(i);
    b
}

// Rnd(A, i) = ι(χ(π(ρ(θ(A)))), i) (FIPS 202, 3.3).
fn round(a: Lanes, i: u32) -> Lanes
    requires { i < 24 }
    ensures { result ≡ Rnd a i }
{
    iota(chi(pi(rho(theta(a)))), i)
}

// Keccak-f[1600] (FIPS 202, 3.4).
fn keccak_f(a: Lanes) -> Lanes
    ensures { result ≡ keccak_f a }
{
    let mut b = a;
    for i in 0..24 {
        let next = round(b, i);
        b = next;
    }
    b
}

// Lane number i, "lanes numbered along the first coordinate first" (02, N8).
fn lane(a: Lanes, i: usize) -> u64
    requires { i < 25 }
    ensures { result ≡ Tables·lane a i }
{
    a[i % 5][i / 5]
}

// "One part runs Keccak-f[1600] of FIPS 202 on the zero state: the starting word S[x][y] is lane 5(x + 1) + y" (02, N8).
pub fn starting_words() -> [[u64; 5]; 4]
    ensures { result ≡ starting_words }
{
    let a = keccak_f([[0; 5]; 5]);
    let mut s = [[0; 5]; 4];
    for x in 0..4 {
        let i = 5 * (x + 1);
        s[x] = [
            lane(a, i),
            lane(a, i + 1),
            lane(a, i + 2),
            lane(a, i + 3),
            lane(a, i + 4),
        ];
    }
    s
}

// "each step shifts right by one and also sets bit 31 (one already set stays) when bits 0, 1, 3 and 4 before the shift hold an odd number of ones" (02, N8).
fn step(r: u64) -> u64
    ensures { result ≡ stepped r }
{
    let ones = r % 2 + r / 2 % 2 + r / 8 % 2 + r / 16 % 2;
    if ones % 2 == 1 {
        (r >> 1) | (1 << 31)
    } else {
        r >> 1
    }
}

// "Another makes the round constants: start at hex 0123456789ABCDEF; .. the first step gives constant 0" (02, N8).
pub fn round_constants() -> [u64; 12]
    ensures { result ≡ round_constants }
{
    let mut r = 0x0123456789ABCDEF;
    let mut table = [0; 12];
    for constant in &mut table {
        r = step(r);
        *constant = r;
    }
    table
}
