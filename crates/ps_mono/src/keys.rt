ghost use Rattle.std.specs.Prelude.{◌≡◌, ◌<◌, ◌^◌, ◌*◌, ◌/◌, ◌%◌, bit_and, bit_or};
ghost use Rattle.ps_mono.specs.Sets.{is_set};
ghost use Rattle.ps_mono.specs.Keys.{key_behind, from_word, mirror};

// The key with the variables of a word behind it, of which the first would be `start`.
#[inline]
pub fn with_word(key: u64, word: u64, start: u64) -> u64
    requires { key_behind key (from_word start word) < 2 ^ 64 }
    ensures { result ≡ key_behind key (from_word start word) }
{
    let mut key = key;
    let mut rest = word;
    while rest != 0 {
        key = key * 512 + (start + u64::from(rest.trailing_zeros()));
        rest &= rest - 1;
    }
    key
}

// The bits of which the mask has ones take the places of those that stand so many above them, and
// those theirs.
#[inline]
fn swapped(word: u64, by: u32, mask: u64) -> u64
    requires { by < 64 }
    ensures { result ≡ bit_or (bit_and (word / 2 ^ by) mask) (bit_and word mask * 2 ^ by % 2 ^ 64) }
{
    ((word >> by) & mask) | ((word & mask) << by)
}

// The word with its bits in the other order, so that the lowest is the highest.
#[inline]
pub fn mirrored(word: u64) -> u64
    ensures { result ≡ mirror (is_set word) 0 64 }
{
    let pairs = swapped(word, 1, 0x5555_5555_5555_5555);
    let fours = swapped(pairs, 2, 0x3333_3333_3333_3333);
    let bytes = swapped(fours, 4, 0x0F0F_0F0F_0F0F_0F0F);
    let shorts = swapped(bytes, 8, 0x00FF_00FF_00FF_00FF);
    let halves = swapped(shorts, 16, 0x0000_FFFF_0000_FFFF);
    swapped(halves, 32, 0x0000_0000_FFFF_FFFF)
}
