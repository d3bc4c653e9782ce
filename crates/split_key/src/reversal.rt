//! Reverses the bits of a word, by six swaps of neighbouring groups of bits. This module knows
//! neither keys nor buckets; the `split` module uses it to make split keys. A second reversal
//! restores the word. So the modules `sort` and `bucket` use it to find the key and the bucket of a
//! split key.
ghost use Rattle.std.specs.Prelude.{◌≡◌, ℕ, ◌-◌, ◌*◌, ◌/◌, ◌%◌, ◌<◌};
ghost use Rattle.std.specs.Int.{bit_at};
ghost use Rattle.split_key.specs.Split.{reversed};
ghost use Rattle.split_key.specs.Swap.{swapped_place};

/// The word with neighbouring groups of `width` bits swapped. `low` has a 1 exactly at the bits of
/// the lower group of each pair.
fn swap_groups(word: u64, width: u32, low: u64) -> u64
    requires some { 0 < width }
    requires fits { width < 64 }
    requires groups { (place : ℕ) → place < 64 → bit_at low place ≡ 1 - place / width % 2 }
    ensures { (place : ℕ) → place < 64 →
        bit_at result place ≡ bit_at word (swapped_place width place) }
{
    (word >> width & low) | ((word & low) << width)
}

/// The word with its 64 bits in reverse order: bit `i` of the result is bit `63 - i` of the word.
/// The function swaps neighbouring bits, then pairs of bits, half bytes, bytes, pairs of bytes and
/// halves. It takes thirty operations and no branch.
pub fn reverse(word: u64) -> u64
    ensures value { result ≡ reversed word }
    ensures bits { (place : ℕ) → place < 64 → bit_at result place ≡ bit_at word (63 - place) }
    ensures again { reversed result ≡ word }
{
    let pairs = swap_groups(word, 1, 0x5555_5555_5555_5555);
    let nibbles = swap_groups(pairs, 2, 0x3333_3333_3333_3333);
    let bytes = swap_groups(nibbles, 4, 0x0f0f_0f0f_0f0f_0f0f);
    let double_bytes = swap_groups(bytes, 8, 0x00ff_00ff_00ff_00ff);
    let halves = swap_groups(double_bytes, 16, 0x0000_ffff_0000_ffff);
    swap_groups(halves, 32, 0x0000_0000_ffff_ffff)
}
