// Rounds of the core undone (02, N10), so that it can be driven to a chosen state. For a reader who has the rounds of `permutation` beside it: the inverse of each
// step, in the paper's order, then of the round and of the rounds, and the call.
#![tactic(auto)]

ghost use Rattle.std.specs.Prelude.{◌≡◌, ◌≤◌, ◌<◌, [], ◌∷◌, ℕ};
ghost use Rattle.bits.specs.Bits.{word_range};
ghost use Rattle.permutation.specs.Permutation.{max_rounds, P};
ghost use Rattle.permutation.specs.State.{at};
ghost use Rattle.state_bytes.specs.StateBytes.{Shape};
ghost use Rattle.rounds_back.specs.Inverse.{μ⁻¹, ρ⁻¹, π⁻¹, ψ⁻¹, R⁻¹, P⁻¹};
ghost use Rattle.rounds_back.specs.Driven.{ran, driven, answered};
ghost use Rattle.rounds_back.specs.Words.{times_a_plus_words, digit_times_words, row_words, sbox⁻¹Words};

use permutation::{MAX_ROUNDS, RoundConstants};
use refusals::Refusal;
use state_bytes::STATE_BYTES;

type State = [[u64; 5]; 4];

// The five words of one x. In mu_back they are an element of GF(2^5) at each bit position, the word y holding its coefficient at a^y (a is the paper's x);
// a^5 = a^2 + 1.
type Column = [u64; 5];

// What is left of 64 after the offset of each word in rho (003, 2.5): 64 - offsets[x][y], and 0 for the offset 0.
const RESTS: [[u32; 5]; 4] = [
    [0, 28, 61, 23, 46],
    [63, 20, 54, 19, 62],
    [2, 58, 21, 49, 3],
    [36, 9, 39, 43, 8],
];

// Times a at every bit position, and q added.
fn times_a_plus(p: Column, q: Column) -> Column
    ensures { result ≡ times_a_plus_words p q }
{
    [
        p[4] ^ q[0],
        p[0] ^ q[1],
        p[1] ^ p[4] ^ q[2],
        p[2] ^ q[3],
        p[3] ^ q[4],
    ]
}

// The column p where the number N has the binary digit 1 at k, else zeros.
fn digit_times<const N: u32>(k: u32, p: Column) -> Column
    requires { k < 5 }
    ensures { result ≡ digit_times_words N k p }
{
    if (N >> k) % 2 == 1 { p } else { [0; 5] }
}

// Mu undone (003, 2.5, μ), for one x: a row N0 N1 N2 N3 of the inverse matrix times the column vector, by Horner's rule from the coefficients at a^4 down. The numbers
// are the paper's for elements of GF(2^5). The compiler unrolls the loop.
fn row<const N0: u32, const N1: u32, const N2: u32, const N3: u32>(s: State) -> Column
    ensures { result ≡ row_words (N0 ∷ N1 ∷ N2 ∷ N3 ∷ []) s }
{
    let mut t = [0; 5];
    for k in (0..5).rev() {
        let q = permutation::sum(
            digit_times::<N0>(k, s[0]),
            digit_times::<N1>(k, s[1]),
            digit_times::<N2>(k, s[2]),
            digit_times::<N3>(k, s[3]),
        );
        let u = times_a_plus(t, q);
        t = u;
    }
    t
}

// Mu undone (003, 2.5, μ).
fn mu_back(s: State) -> State
    ensures { result ≡ μ⁻¹ s }
{
    [
        row::<21, 14, 14, 14>(s),
        row::<14, 4, 20, 12>(s),
        row::<14, 12, 4, 20>(s),
        row::<14, 20, 12, 4>(s),
    ]
}

// Rho undone (003, 2.5, ρ): every word is rotated on by its rest.
fn rho_back(s: State) -> State
    ensures { result ≡ ρ⁻¹ s }
{
    let k = RESTS;
    [
        permutation::rotate_column(s[0], k[0]),
        permutation::rotate_column(s[1], k[1]),
        permutation::rotate_column(s[2], k[2]),
        permutation::rotate_column(s[3], k[3]),
    ]
}

// Pi undone (003, 2.5, π): the word that pi moved from the place (x, y) to (x', y') comes back, x' = (x + y) mod 4 and y' = (x' + y + 1) mod 5. Below stands, at
// each (x, y), the word of (x', y').
fn pi_back(s: State) -> State
    ensures { result ≡ π⁻¹ s }
{
    [
        [s[0][1], s[1][3], s[2][0], s[3][2], s[0][0]],
        [s[1][2], s[2][4], s[3][1], s[0][4], s[1][1]],
        [s[2][3], s[3][0], s[0][3], s[1][0], s[2][2]],
        [s[3][4], s[0][2], s[1][4], s[2][1], s[3][3]],
    ]
}

// The inverse of psi's S-box (003, 2.5, ψ) at every bit position of five words: where all five bits agree each is negated, then
// y_k ⊕ ¬y_(k+1) (y_(k+2) ⊕ ¬y_(k+3) y_(k+4)), indices modulo 5.
fn sbox_back(z: Column) -> Column
    ensures { result ≡ sbox⁻¹Words z }
{
    let differ = (z[0] ^ z[1]) | (z[1] ^ z[2]) | (z[2] ^ z[3]) | (z[3] ^ z[4]);
    let same = !differ;
    let y0 = z[0] ^ same;
    let y1 = z[1] ^ same;
    let y2 = z[2] ^ same;
    let y3 = z[3] ^ same;
    let y4 = z[4] ^ same;
    [
        y0 ^ (!y1 & (y2 ^ (!y3 & y4))),
        y1 ^ (!y2 & (y3 ^ (!y4 & y0))),
        y2 ^ (!y3 & (y4 ^ (!y0 & y1))),
        y3 ^ (!y4 & (y0 ^ (!y1 & y2))),
        y4 ^ (!y0 & (y1 ^ (!y2 & y3))),
    ]
}

// Psi undone (003, 2.5, ψ), the 64 rows of an x at once.
fn psi_back(s: State) -> State
    ensures { result ≡ ψ⁻¹ s }
{
    [
        sbox_back(s[0]),
        sbox_back(s[1]),
        sbox_back(s[2]),
        sbox_back(s[3]),
    ]
}

// Round number `number` undone (003, 2.5): its steps undone, the last first. Kappa undoes itself.
fn round_back(s: State, constant: &RoundConstants, number: usize) -> State
    requires { number < 12 }
    ensures { result ≡ R⁻¹ s number }
{
    let before_kappa = permutation::kappa(s, constant, number);
    let before_psi = psi_back(before_kappa);
    let before_pi = pi_back(before_psi);
    let before_rho = rho_back(before_pi);
    mu_back(before_rho)
}

// The first n rounds undone, the last first.
fn back(s: State, n: usize) -> State
    requires { n ≤ max_rounds }
    ensures { result ≡ P⁻¹ n s }
{
    let constant = permutation::constant_table();
    let mut t = s;
    for i in (0..n).rev() {
        let before = round_back(t, &constant, i);
        t = before;
    }
    t
}

// Which way rounds are run.
#[derive(Clone, Copy, Debug, PartialEq, Eq)]
pub enum Direction {
    Back,
    Forward,
}

// The first n rounds, one way or the other. A match and no closure: which way is a value of the caller's, of two.
fn run(mut s: State, direction: Direction, n: usize) -> State
    requires { n ≤ max_rounds }
    ensures { result ≡ ran direction n s }
{
    match direction {
        Direction::Back => back(s, n),
        Direction::Forward => {
            permutation::rounds(&mut s, n);
            s
        }
    }
}

// Back: the one state from which r rounds, constants from 0, reach s (02, N10). Forward: the state that they reach from s, within the same limits. Given as its
// bytes in word order. `held`: what its type tells of a state, so that the claim `RoundsBack` speaks of every state that the program can hold.
pub fn drive(s: State, direction: Direction, r: u32) -> Result<[u8; STATE_BYTES], Refusal>
    ensures answer { answered result ≡ driven direction s r }
    ensures held { Shape s × ((x y : ℕ) → at s x y < word_range) }
{
    if r as usize > MAX_ROUNDS {
        return Err(Refusal::TooManyRounds);
    }
    let t = run(s, direction, r as usize);
    let mut reached = [0; STATE_BYTES];
    state_bytes::store_state(&t, &mut reached);
    Ok(reached)
}
