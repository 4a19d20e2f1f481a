// Drop on a recorder that is lent and changed in place (01, "Recorder").
#![tactic(auto)]

ghost use Rattle.std.specs.Prelude.{◌≡◌};
ghost use Rattle.burst.specs.Recorder.{shot_as, drop_answer};

use burst::{Recorder, Shot};
use refusals::Refusal;

// The by-value drop, with its recorder left in the lent one. A refused drop leaves that as it was.
pub fn drop_in_place(r: &mut Recorder) -> Result<Shot, Refusal>
    ensures answer { shot_as (record { answer = result; recorder = r.new }) ≡ drop_answer r.old }
    ensures recorder { r.new ≡ (drop_answer r.old).recorder }
{
    let d = burst::drop_shot(*r);
    *r = d.recorder;
    d.answer
}
