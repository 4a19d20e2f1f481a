// The static library libicepole_c.a for C: the calls of include/icepole.h, each under its name and with the contract that it has in the crate icepole_c.
// Sealing and opening are there once for each variant, and what they take is lent apart: the C interface has these names and parameters.
#![tactic(auto)]

ghost use Rattle.std.specs.Prelude.{◌++◌};
ghost use Rattle.icepole_c.specs.Calls.{SealContract, OpenContract, InPlaceContract};
ghost use Rattle.icepole_c.specs.Strips.{StartContract, StripContract, EndContract};

use icepole::Variant;
use icepole::Variant::{Icepole128, Icepole128a, Icepole256a};

#[unsafe(no_mangle)]
pub extern "C" fn icepole128_seal(
    key: &[u8],
    nonce: &[u8],
    secret: &[u8],
    first: &[u8],
    second: &[u8],
    message: &[u8],
    out: &mut [u8],
) -> u32
    ensures { SealContract Variant.Icepole128 key.now nonce.now secret.now
        (first.now ++ second.now) message.now out.old result out.new }
{
    icepole_c::seal(Icepole128, key, nonce, secret, first, second, message, out)
}

#[unsafe(no_mangle)]
pub extern "C" fn icepole128_open(
    key: &[u8],
    nonce: &[u8],
    first: &[u8],
    second: &[u8],
    sealed: &[u8],
    out: &mut [u8],
    info: &mut [u8],
) -> u32
    ensures { OpenContract Variant.Icepole128 key.now nonce.now
        (first.now ++ second.now) sealed.now out.old info.old result out.new info.new }
{
    icepole_c::open(Icepole128, key, nonce, first, second, sealed, out, info)
}

#[unsafe(no_mangle)]
pub extern "C" fn icepole128_open_in_place(
    key: &[u8],
    nonce: &[u8],
    first: &[u8],
    second: &[u8],
    buffer: &mut [u8],
    info: &mut [u8],
) -> u32
    ensures { InPlaceContract Variant.Icepole128 key.now nonce.now
        (first.now ++ second.now) buffer.old info.old result buffer.new info.new }
{
    icepole_c::open_in_place(Variant::Icepole128, key, nonce, first, second, buffer, info)
}

#[unsafe(no_mangle)]
pub extern "C" fn icepole128a_seal(
    key: &[u8],
    nonce: &[u8],
    secret: &[u8],
    first: &[u8],
    second: &[u8],
    message: &[u8],
    out: &mut [u8],
) -> u32
    ensures { SealContract Variant.Icepole128a key.now nonce.now secret.now
        (first.now ++ second.now) message.now out.old result out.new }
{
    icepole_c::seal(Icepole128a, key, nonce, secret, first, second, message, out)
}

#[unsafe(no_mangle)]
pub extern "C" fn icepole128a_open(
    key: &[u8],
    nonce: &[u8],
    first: &[u8],
    second: &[u8],
    sealed: &[u8],
    out: &mut [u8],
    info: &mut [u8],
) -> u32
    ensures { OpenContract Variant.Icepole128a key.now nonce.now
        (first.now ++ second.now) sealed.now out.old info.old result out.new info.new }
{
    icepole_c::open(Icepole128a, key, nonce, first, second, sealed, out, info)
}

#[unsafe(no_mangle)]
pub extern "C" fn icepole128a_open_in_place(
    key: &[u8],
    nonce: &[u8],
    first: &[u8],
    second: &[u8],
    buffer: &mut [u8],
    info: &mut [u8],
) -> u32
    ensures { InPlaceContract Variant.Icepole128a key.now nonce.now
        (first.now ++ second.now) buffer.old info.old result buffer.new info.new }
{
    icepole_c::open_in_place(Icepole128a, key, nonce, first, second, buffer, info)
}

#[unsafe(no_mangle)]
pub extern "C" fn icepole256a_seal(
    key: &[u8],
    nonce: &[u8],
    secret: &[u8],
    first: &[u8],
    second: &[u8],
    message: &[u8],
    out: &mut [u8],
) -> u32
    ensures { SealContract Variant.Icepole256a key.now nonce.now secret.now
        (first.now ++ second.now) message.now out.old result out.new }
{
    icepole_c::seal(Icepole256a, key, nonce, secret, first, second, message, out)
}

#[unsafe(no_mangle)]
pub extern "C" fn icepole256a_open(
    key: &[u8],
    nonce: &[u8],
    first: &[u8],
    second: &[u8],
    sealed: &[u8],
    out: &mut [u8],
    info: &mut [u8],
) -> u32
    ensures { OpenContract Variant.Icepole256a key.now nonce.now
        (first.now ++ second.now) sealed.now out.old info.old result out.new info.new }
{
    icepole_c::open(Icepole256a, key, nonce, first, second, sealed, out, info)
}

#[unsafe(no_mangle)]
pub extern "C" fn icepole256a_open_in_place(
    key: &[u8],
    nonce: &[u8],
    first: &[u8],
    second: &[u8],
    buffer: &mut [u8],
    info: &mut [u8],
) -> u32
    ensures { InPlaceContract Variant.Icepole256a key.now nonce.now
        (first.now ++ second.now) buffer.old info.old result buffer.new info.new }
{
    icepole_c::open_in_place(Icepole256a, key, nonce, first, second, buffer, info)
}

#[unsafe(no_mangle)]
pub extern "C" fn icepole128_start(
    key: &[u8],
    nonce: &[u8],
    secret: &[u8],
    first: &[u8],
    second: &[u8],
    out: &mut [u8],
    state: &mut [u8],
) -> u32
    ensures { StartContract key.now nonce.now secret.now
        (first.now ++ second.now) out.old state.old result out.new state.new }
{
    icepole_c::start(key, nonce, secret, first, second, out, state)
}

#[unsafe(no_mangle)]
pub extern "C" fn icepole128_strip(state: &mut [u8], message: &[u8], out: &mut [u8]) -> u32
    ensures { StripContract state.old message.now out.old result state.new out.new }
{
    icepole_c::strip(state, message, out)
}

#[unsafe(no_mangle)]
pub extern "C" fn icepole128_end(state: &mut [u8], out: &mut [u8]) -> u32
    ensures { EndContract state.old out.old result state.new out.new }
{
    icepole_c::end(state, out)
}
