// Round logs of the hardware core (02, N9): whether each state of a log is one round from the state before it.
#![tactic(auto)]

ghost use Rattle.std.specs.Prelude.{◌≡◌, ◌≤◌, length};
ghost use Rattle.permutation.specs.Permutation.{max_rounds};
ghost use Rattle.round_log.specs.RoundLog.{log_length, state_at, judged, verdict};
ghost use Rattle.round_log.specs.Findings.{found, answered};

use permutation::MAX_ROUNDS;
use refusals::Refusal;
use state_bytes::STATE_BYTES;

type State = [[u64; 5]; 4];

// What a log's rounds come to: that all agree, and how many there are; or the first that differs, counted from 0.
#[derive(Clone, Copy, Debug, PartialEq, Eq)]
pub enum Finding {
    AllAgree(u32),
    FirstDiffers(u32),
}

// State number i of a log.
fn state_at(log: &[u8], i: usize) -> State
    requires { log_length i ≤ length log.now }
    ensures { result ≡ state_at log.now i }
{
    state_bytes::state_in(log, STATE_BYTES * i)
}

// What a log of 1 + r states comes to. Every round starts from the state in the log.
fn judge(log: &[u8], r: usize) -> Finding
    requires { (r ≤ max_rounds) × (log_length r ≤ length log.now) }
    ensures { found result ≡ judged log.now 0 r }
{
    let constant = permutation::constant_table();
    for i in 0..r {
        let before = state_at(log, i);
        let expected = permutation::round_at(before, &constant, i);
        let after = state_at(log, i + 1);
        if expected != after {
            return Finding::FirstDiffers(i as u32);
        }
    }
    Finding::AllAgree(r as u32)
}

// The verdict on any bytes (02, N9): the length is judged before a state is looked at.
pub fn check_log(log: &[u8]) -> Result<Finding, Refusal>
    ensures { answered result ≡ verdict log.now }
{
    let n = log.len();
    if n % STATE_BYTES != 0 {
        return Err(Refusal::LogLength);
    }
    let states = n / STATE_BYTES;
    if states < 2 {
        return Err(Refusal::LogLength);
    }
    if states > 1 + MAX_ROUNDS {
        return Err(Refusal::LogLength);
    }
    Ok(judge(log, states - 1))
}
