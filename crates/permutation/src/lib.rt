// The permutation P of ICEPOLE, for a reader who has the paper's section 2.5 beside it: the tables, the five steps in the order of 2.5, the round, the rounds.
// What stands in quotes is the paper's. Each step takes the state S by value and returns it; the rounds are done in place.
#![tactic(auto)]

ghost use Rattle.std.specs.Prelude.{◌≡◌, ◌≤◌, ◌<◌, get_or, min};
ghost use Rattle.bits.specs.Bits.{word_length};
ghost use Rattle.permutation.specs.Permutation.{μ, ρ, π, ψ, κ, R, P, constants, rotl, start};
ghost use Rattle.permutation.specs.Words.{twice_words, times18_words, sum_words, rotl_column, sbox_words};
ghost use Rattle.permutation.specs.Steps.{steps_of};

// Four columns of five words: the word S[x][y] is s[x][y].
type State = [[u64; 5]; 4];

// The five words of one x. In mu they are an element of GF(2^5) at each bit position, the word y holding its coefficient at a^y (a is the paper's x).
type Column = [u64; 5];

// "The rotation offsets are as follows" (003, 2.5, ρ): offsets[x][y] is OFFSETS[x][y].
const OFFSETS: [[u32; 5]; 4] = [
    [0, 36, 3, 41, 18],
    [1, 44, 10, 45, 2],
    [62, 6, 43, 15, 61],
    [28, 55, 25, 21, 56],
];

// "For implementors convenience the constant values are given in Appendix A" (003, 2.5, κ). Read as ordinary hex numbers (01),
// though the paper says "little-endian format".
const CONSTANTS: [u64; 12] = [
    0x0091A2B3C4D5E6F7,
    0x0048D159E26AF37B,
    0x002468ACF13579BD,
    0x00123456F89ABCDE,
    0x00091A2BFC4D5E6F,
    0x00048D15FE26AF37,
    0x0002468AFF13579B,
    0x000123457F89ABCD,
    0x000091A2BFC4D5E6,
    0x000048D1DFE26AF3,
    0x00002468EFF13579,
    0x00001234F7F89ABC,
];

// The table as the steps take it: by reference, so that a loop over rounds copies it once. It holds the paper's constants, by its type.
#[derive(Clone, Copy)]
pub struct RoundConstants {
    pub words: [u64; 12],
    ghost paper: { words ≡ constants },
}

pub fn constant_table() -> RoundConstants
    ensures { result.words ≡ constants }
{
    RoundConstants { words: CONSTANTS }
}

// The rounds that have a constant.
pub const MAX_ROUNDS: usize = 12;

// "The state is initialized as follows" (003, 2.6). Read as ordinary hex numbers (01), though the paper says "little-endian format".
const START: [[u64; 5]; 4] = [
    [
        0xFF97A42D7F8E6FD4,
        0x90FEE5A0A44647C4,
        0x8C5BDA0CD6192E76,
        0xAD30A6F71B19059C,
        0x30935AB7D08FFC64,
    ],
    [
        0xEB5AA93F2317D635,
        0xA9A6E6260D712103,
        0x81A57C16DBCF555F,
        0x43B831CD0347C826,
        0x01F22F1A11A5569F,
    ],
    [
        0x05E5635A21D9AE61,
        0x64BEFEF28CC970F2,
        0x613670957BC46611,
        0xB87C5A554FD00ECB,
        0x8C3EE88A1CCF32C8,
    ],
    [
        0x940C7922AE3A2614,
        0x1841F924A2C509E4,
        0x16F53526E70465C2,
        0x75F644E97F30A13B,
        0xEAF1FF7B5CECA249,
    ],
];

// "There are only three distinct terms in the chosen matrix, namely 18, 2, 1 and they correspond to the polynomials x^4 + x, x, and 1, respectively" (003, 2.5, μ).
// Times 2, that is a, at every bit position; a^5 = a^2 + 1.
fn twice(p: Column) -> Column
    ensures { result ≡ twice_words p }
{
    [p[4], p[0], p[1] ^ p[4], p[2], p[3]]
}

// Times 18, that is a^4 + a (003, 2.5, μ). It undoes times 2: 2 · 18 = 1.
fn times18(p: Column) -> Column
    ensures { result ≡ times18_words p }
{
    [p[1], p[2] ^ p[0], p[3], p[4], p[0]]
}

// "The operations are done in GF(2^5)" (003, 2.5, μ): the sum of four elements.
pub fn sum(p: Column, q: Column, t: Column, u: Column) -> Column
    ensures { result ≡ sum_words p q t u }
{
    [
        p[0] ^ q[0] ^ t[0] ^ u[0],
        p[1] ^ q[1] ^ t[1] ^ u[1],
        p[2] ^ q[2] ^ t[2] ^ u[2],
        p[3] ^ q[3] ^ t[3] ^ u[3],
        p[4] ^ q[4] ^ t[4] ^ u[4],
    ]
}

// "Formally, a column vector (Z_0, Z_1, Z_2, Z_3) is multiplied by a constant matrix producing a vector of four 5-bit words" (003, 2.5, μ), here at every bit
// position. Each line has its row of the matrix beside it. Appendix B says the same by equations; that they agree is proved (AppendixBAgrees, in crates/claims).
fn mu(s: State) -> State
    ensures { result ≡ μ s }
{
    let z0 = s[0];
    let z1 = s[1];
    let z2 = s[2];
    let z3 = s[3];
    let row0 = sum(twice(z0), z1, z2, z3); //  2  1  1  1
    let row1 = sum(z0, z1, times18(z2), twice(z3)); //  1  1 18  2
    let row2 = sum(z0, twice(z1), z2, times18(z3)); //  1  2  1 18
    let row3 = sum(z0, times18(z1), twice(z2), z3); //  1 18  2  1
    [row0, row1, row2, row3]
}

// "The bitwise rotation moves bit at position z into position (z + r_value) modulo 64" (003, 2.5, ρ): w rotated left by k.
pub fn rotate(w: u64, k: u32) -> u64
    requires { k < word_length }
    ensures { result ≡ rotl w k }
{
    w.rotate_left(k)
}

// The words of a column, each rotated left by its offset: "S[x][y] := S[x][y] <<< offsets[x][y]" for one x (003, 2.5, ρ).
pub fn rotate_column(w: Column, k: [u32; 5]) -> Column
    requires { (get_or k 0 0 < word_length) × (get_or k 1 0 < word_length) × (get_or k 2 0 < word_length) × (get_or k 3 0 < word_length) × (get_or k 4 0 < word_length) }
    ensures { result ≡ rotl_column w k }
{
    [
        rotate(w[0], k[0]),
        rotate(w[1], k[1]),
        rotate(w[2], k[2]),
        rotate(w[3], k[3]),
        rotate(w[4], k[4]),
    ]
}

// "The ρ step is the bitwise rotation applied to each of the twenty 64-bit words of the state" (003, 2.5, ρ).
fn rho(s: State) -> State
    ensures { result ≡ ρ s }
{
    let k = OFFSETS;
    [
        rotate_column(s[0], k[0]),
        rotate_column(s[1], k[1]),
        rotate_column(s[2], k[2]),
        rotate_column(s[3], k[3]),
    ]
}

// "Words are moved from S[x][y] to S[x'][y']" (003, 2.5, π), where x' = (x + y) mod 4 and y' = (x' + y + 1) mod 5. The place (x', y') below names the word that
// comes to it: y = (y' - x' - 1) mod 5, and x = (x' - y) mod 4. Written out, as the paper's places, and not one function with pi undone over a table: a table
// would be looked up as the program runs.
fn pi(s: State) -> State
    ensures { result ≡ π s }
{
    [
        [s[0][4], s[0][0], s[3][1], s[2][2], s[1][3]],
        [s[2][3], s[1][4], s[1][0], s[0][1], s[3][2]],
        [s[0][2], s[3][3], s[2][4], s[2][0], s[1][1]],
        [s[2][1], s[1][2], s[0][3], s[3][4], s[3][0]],
    ]
}

// "The S-box maps a 5-bit input vector (M_0, M_1, .., M_4) to a 5-bit output vector (Z_0, Z_1, .., Z_4)" (003, 2.5, ψ), here at every bit position of five words.
// Indices are modulo 5; AND is not written, as in the paper:
//     Z_k = M_k ⊕ (¬M_(k+1) M_(k+2)) ⊕ (M_0 M_1 M_2 M_3 M_4) ⊕ (¬M_0 ¬M_1 ¬M_2 ¬M_3 ¬M_4)
// By differences of neighbours, which is faster: ¬M_(k+1) M_(k+2) is M_(k+2) where the two differ, else 0; the last two terms together are 1 exactly where all five
// bits are the same, that is, where the first four differences are 0.
fn sbox_by_differences(m: Column) -> Column
    ensures { result ≡ sbox_words m }
{
    let d0 = m[0] ^ m[1];
    let d1 = m[1] ^ m[2];
    let d2 = m[2] ^ m[3];
    let d3 = m[3] ^ m[4];
    let d4 = m[4] ^ m[0];
    let same = !(d0 | d1 | d2 | d3);
    [
        m[0] ^ (m[2] & d1) ^ same,
        m[1] ^ (m[3] & d2) ^ same,
        m[2] ^ (m[4] & d3) ^ same,
        m[3] ^ (m[0] & d4) ^ same,
        m[4] ^ (m[1] & d0) ^ same,
    ]
}

// "In the ψ step the ICEPOLE S-box is applied to each of 256 rows of the state" (003, 2.5, ψ). A row is the five bits of one x and z; the 64 rows of an x are done
// at once. The order of the four lines takes the fewest instructions. The compiler puts it in line in one caller by itself, and round and round_at are two.
#[inline(always)]
fn psi(s: State) -> State
    ensures { result ≡ ψ s }
{
    let column1 = sbox_by_differences(s[1]);
    let column3 = sbox_by_differences(s[3]);
    let column2 = sbox_by_differences(s[2]);
    let column0 = sbox_by_differences(s[0]);
    [column0, column1, column2, column3]
}

// "In κ the 64-bit constant is xored with S[0][0]" (003, 2.5, κ): "S[0][0] := S[0][0] ⊕ constant[numberOfRound]".
pub fn kappa(s: State, constant: &RoundConstants, number: usize) -> State
    requires { number < 12 }
    ensures { result ≡ κ s number }
{
    let mut t = s;
    t[0][0] = t[0][0] ^ constant.words[number];
    t
}

// The place of the state after kappa, which is the state after the round, among those that round returns.
const AFTER_KAPPA: usize = 4;

// "Each round R consists of five steps" (003, 2.5): R = κ ∘ ψ ∘ π ∘ ρ ∘ μ. The state after each step is returned, so that the contract can speak of each.
fn round(s: State, constant: &RoundConstants, number: usize) -> [State; 5]
    requires { number < 12 }
    ensures { result ≡ steps_of s number }
{
    let after_mu = mu(s);
    let after_rho = rho(after_mu);
    let after_pi = pi(after_rho);
    let after_psi = psi(after_pi);
    let after_kappa = kappa(after_psi, constant, number);
    [after_mu, after_rho, after_pi, after_psi, after_kappa]
}

// "P is an iterated permutation and a number of rounds is a parameter of the permutation" (003, 2.5): the first n rounds, in place. The table is copied once. This
// is the only call of round, for speed. Internal, as sum, rotate_column and kappa are: only crates of ours call it.
pub fn rounds(s: &mut State, n: usize)
    requires { n ≤ 12 }
    ensures { s.new ≡ P n s.old }
{
    let constant = constant_table();
    let mut t = *s;
    for i in 0..n {
        let states = round(t, &constant, i);
        t = states[AFTER_KAPPA];
    }
    *s = t;
}

// "In the presented algorithm the 6- and 12-round variants (denoted by P_6 and P_12) are used" (003, 2.5): P_6 is permute::<6>, and P_12 permute::<12>. In place, so
// that callers copy no state. More than 12 are 12, as many as have a constant.
pub fn permute<const N: usize>(s: &mut State)
    ensures { s.new ≡ P (min N 12) s.old }
{
    rounds(s, if N > MAX_ROUNDS { MAX_ROUNDS } else { N });
}

// The same by value.
pub fn p<const N: usize>(s: State) -> State
    ensures { result ≡ P (min N 12) s }
{
    let mut t = s;
    permute::<N>(&mut t);
    t
}

// One round by itself (003, 2.5), for crates of ours that look at the states between rounds. The table is handed in, so that a loop copies it once. Not by round,
// which then has to be put in line too: a sealed block would take 1,929 instructions in place of 1,829, and its limit is 1,850.
pub fn round_at(s: State, constant: &RoundConstants, number: usize) -> State
    requires { number < 12 }
    ensures { result ≡ R s number }
{
    kappa(psi(pi(rho(mu(s)))), constant, number)
}

// "First, the state is initialized with the 1280-bit pseudorandom constant" (003, 2.6): the state before key and nonce.
pub fn start_state() -> State
    ensures { result ≡ start }
{
    START
}
