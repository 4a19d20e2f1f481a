// The static library libcard_c.a for C: the call of include/card.h, under its name and with the contract that it has in the crate burst_c.
#![tactic(auto)]

ghost use Rattle.std.specs.Prelude.{◌≡◌};
ghost use Rattle.sizing.specs.Cards.{card_answer};

#[unsafe(no_mangle)]
pub extern "C" fn burst_card_line(
    card: u64,
    shots: u64,
    picture: u64,
    bursts: &mut u64,
    left: &mut u64,
) -> u32
    ensures { (result ≡ (card_answer card shots picture).refusal) ×
        (bursts.new ≡ (card_answer card shots picture).bursts) ×
        (left.new ≡ (card_answer card shots picture).left) }
{
    burst_c::burst_card_line(card, shots, picture, bursts, left)
}
