// For benchmarks only: verifying under ICEPOLE-128 as C can call it.
#![tactic(auto)]

ghost use Rattle.std.specs.Prelude.{◌≡◌, true, ◌++◌};
ghost use Rattle.icepole.specs.Answers.{open_refusal};

use icepole::{Context, Variant};

#[unsafe(no_mangle)]
pub extern "C" fn bench_verify128(
    key: &[u8],
    nonce: &[u8],
    first: &[u8],
    second: &[u8],
    sealed: &[u8],
) -> u32
    ensures { result ≡ open_refusal Variant.Icepole128 key.now nonce.now (first.now ++ second.now) sealed.now true }
{
    let context = Context {
        key,
        nonce,
        first,
        second,
    };
    let verified = icepole::verify(Variant::Icepole128, context, sealed);
    refusals::number_of(&verified)
}
