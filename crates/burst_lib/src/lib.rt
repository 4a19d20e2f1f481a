// The static library libburst_c.a for C: the calls of include/burst.h, each under its name and with the contract that it has in the crate burst_c.
#![tactic(auto)]

ghost use Rattle.std.specs.Prelude.{◌≡◌, cond, length};
ghost use Rattle.reader.specs.Reader.{check_mark, record_refusal, record_offset, record_bytes_in};
ghost use Rattle.listing.specs.Listing.{list_refusal, list_answer, list_output};
ghost use Rattle.sizing.specs.Sizing.{size_answer};
ghost use Rattle.replay.specs.Replay.{list_of, whole_script, Replayed};
ghost use Rattle.burst_c.specs.Calls.{check_call_refusal, check_call_info, fetch_call_refusal, fetch_call_output, fetch_call_info};
ghost use Rattle.burst.specs.Layout.{identified};

#[unsafe(no_mangle)]
pub extern "C" fn burst_replay(
    key: &[u8],
    burst_number: u64,
    camera: u32,
    site_mark: &[u8],
    script: &[u8],
    buffer: &mut [u8],
    answers: &mut [u8],
    whole: &mut u32,
) -> usize
    ensures { Replayed
        (list_of key.now (identified burst_number camera site_mark.now) (length buffer.old) (length answers.old) script.now)
        answers.old answers.new buffer.old buffer.new result ×
        (whole.new ≡ cond (whole_script (length answers.old) script.now) 1 0) }
{
    burst_c::burst_replay(
        key,
        burst_number,
        camera,
        site_mark,
        script,
        buffer,
        answers,
        whole,
    )
}

#[unsafe(no_mangle)]
pub extern "C" fn burst_check(key: &[u8], file: &[u8], mark: &mut u32, info: &mut [u8]) -> u32
    ensures { (result ≡ check_call_refusal key.now file.now info.old) ×
        (mark.new ≡ check_mark key.now file.now) ×
        (info.new ≡ check_call_info key.now file.now info.old) }
{
    burst_c::burst_check(key, file, mark, info)
}

#[unsafe(no_mangle)]
pub extern "C" fn burst_fetch(
    key: &[u8],
    file: &[u8],
    place: usize,
    out: &mut [u8],
    mark: &mut u32,
    info: &mut [u8],
) -> u32
    ensures { (result ≡ fetch_call_refusal key.now file.now place out.old info.old) ×
        (mark.new ≡ check_mark key.now file.now) ×
        (out.new ≡ fetch_call_output key.now file.now place out.old info.old) ×
        (info.new ≡ fetch_call_info key.now file.now place out.old info.old) }
{
    burst_c::burst_fetch(key, file, place, out, mark, info)
}

#[unsafe(no_mangle)]
pub extern "C" fn burst_record(
    key: &[u8],
    file: &[u8],
    place: usize,
    mark: &mut u32,
    offset: &mut u32,
    size: &mut u32,
) -> u32
    ensures { (result ≡ record_refusal key.now file.now place) ×
        (mark.new ≡ check_mark key.now file.now) ×
        (offset.new ≡ record_offset key.now file.now place) ×
        (size.new ≡ length (record_bytes_in key.now file.now place)) }
{
    burst_c::burst_record(key, file, place, mark, offset, size)
}

#[unsafe(no_mangle)]
pub extern "C" fn burst_list(file: &[u8], text: &mut [u8], size: &mut u32) -> u32
    ensures { (result ≡ list_refusal file.now text.old) ×
        (text.new ≡ list_output file.now text.old) ×
        (size.new ≡ (list_answer file.now text.old).length) }
{
    burst_c::burst_list(file, text, size)
}

#[unsafe(no_mangle)]
pub extern "C" fn burst_size_up(
    lengths: &[u64],
    file_length: &mut u64,
    p12: &mut u64,
    p6: &mut u64,
) -> u32
    ensures { (result ≡ (size_answer lengths.now).refusal) ×
        (file_length.new ≡ (size_answer lengths.now).file_length) ×
        (p12.new ≡ (size_answer lengths.now).p12) ×
        (p6.new ≡ (size_answer lengths.now).p6) }
{
    burst_c::burst_size_up(lengths, file_length, p12, p6)
}
