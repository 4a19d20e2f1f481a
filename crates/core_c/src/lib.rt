// What the C calls of include/core.h do, for those who test the hardware core. The exports of `core_lib` make their numbers of it.
#![tactic(auto)]

ghost use Rattle.std.specs.Prelude.{◌≡◌, length};
ghost use Rattle.refusals.specs.Numbers.{number_of};
ghost use Rattle.round_log.specs.RoundLog.{verdict};
ghost use Rattle.core_c.specs.Calls.{call_refusal, call_agrees, call_round, rounds_refusal, after_rounds};

use permutation::MAX_ROUNDS;
use refusals::Refusal;
use round_log::Finding;
use rounds_back::Direction;
use state_bytes::STATE_BYTES;

// A number returned and two that are written: the C interface.
pub fn icepole_check_log(log: &[u8], agrees: &mut u32, round: &mut u32) -> u32
    ensures { (result ≡ call_refusal (verdict log.now)) ×
        (agrees.new ≡ call_agrees (verdict log.now)) ×
        (round.new ≡ call_round (verdict log.now)) }
{
    let answer = round_log::check_log(log);
    (*agrees, *round) = match answer {
        Ok(Finding::AllAgree(r)) => (1, r),
        Ok(Finding::FirstDiffers(i)) => (0, i),
        Err(_) => (0, 0),
    };
    refusals::number_of(&answer)
}

// Whether rounds can be run of a state at the front of a slice of n bytes.
fn rounds_refusal(rounds: u32, n: usize) -> Result<(), Refusal>
    ensures { number_of result ≡ rounds_refusal rounds n }
{
    if rounds as usize > MAX_ROUNDS {
        return Err(Refusal::TooManyRounds);
    }
    if n < STATE_BYTES {
        return Err(Refusal::OutputTooShort);
    }
    Ok(())
}

// Rounds of the state at the front of a slice, in place, one way or the other.
pub fn run_rounds(state: &mut [u8], direction: Direction, rounds: u32) -> Result<(), Refusal>
    ensures { (number_of result ≡ rounds_refusal rounds (length state.old)) ×
        (state.new ≡ after_rounds direction rounds state.old) }
{
    rounds_refusal(rounds, state.len())?;
    let s = state_bytes::state_in(state, 0);
    let reached = rounds_back::drive(s, direction, rounds)?;
    bytes_le::put_bytes(state, 0, &reached);
    Ok(())
}
