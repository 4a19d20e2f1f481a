// The static library libcore_c.a for C: the calls of include/core.h, each under its name. A name for each direction, and a number for a refusal: the C interface.
#![tactic(auto)]

ghost use Rattle.std.specs.Prelude.{◌≡◌, length};
ghost use Rattle.round_log.specs.RoundLog.{verdict};
ghost use Rattle.rounds_back.specs.declared.Direction.TheVariants.{Back, Forward};
ghost use Rattle.core_c.specs.Calls.{call_refusal, call_agrees, call_round, rounds_refusal, after_rounds};

use refusals::number_of;
use rounds_back::Direction;

#[unsafe(no_mangle)]
pub extern "C" fn icepole_check_log(log: &[u8], agrees: &mut u32, round: &mut u32) -> u32
    ensures { (result ≡ call_refusal (verdict log.now)) ×
        (agrees.new ≡ call_agrees (verdict log.now)) ×
        (round.new ≡ call_round (verdict log.now)) }
{
    core_c::icepole_check_log(log, agrees, round)
}

#[unsafe(no_mangle)]
pub extern "C" fn icepole_rounds_back(state: &mut [u8], rounds: u32) -> u32
    ensures { (result ≡ rounds_refusal rounds (length state.old)) ×
        (state.new ≡ after_rounds Back rounds state.old) }
{
    number_of(&core_c::run_rounds(state, Direction::Back, rounds))
}

#[unsafe(no_mangle)]
pub extern "C" fn icepole_rounds_forward(state: &mut [u8], rounds: u32) -> u32
    ensures { (result ≡ rounds_refusal rounds (length state.old)) ×
        (state.new ≡ after_rounds Forward rounds state.old) }
{
    number_of(&core_c::run_rounds(state, Direction::Forward, rounds))
}
