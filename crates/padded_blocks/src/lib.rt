// Internal: how many padded blocks a seal absorbs, from the lengths alone (02, N4).
#![tactic(auto)]

ghost use Rattle.std.specs.Prelude.{◌≡◌, suc, ◌+◌, ◌<◌, ◌≤◌, length};
ghost use Rattle.bytes_le.specs.Bytes.{Bytes};
ghost use Rattle.blocks.specs.Lengths.{max_length};
ghost use Rattle.blocks.specs.Sealing.{blocks_before};
ghost use Rattle.padded_blocks.specs.PaddedBlocks.{seal_blocks};

// Of data of n bytes, in blocks of so many: no data is one empty block, and a positive multiple has no block more.
fn data_blocks(block: usize, n: usize) -> usize
    requires { (0 < block) × (n ≤ max_length) }
    ensures { (result ≡ suc (blocks_before block n)) × (result ≤ n + 1) }
{
    if n == 0 {
        return 1;
    }
    (n - 1) / block + 1
}

// Of a seal, for associated data and a message of so many bytes: one for the secret number, under every variant, and those of the two.
pub fn seal_blocks(block: usize, associated: usize, message: usize) -> usize
    requires { (0 < block) × (associated ≤ max_length) × (message ≤ max_length) }
    ensures { ((secret ad m : Bytes) → length ad ≡ associated → length m ≡ message → result ≡ seal_blocks block secret ad m)
        × (result ≤ associated + message + 3) }
{
    1 + data_blocks(block, associated) + data_blocks(block, message)
}
