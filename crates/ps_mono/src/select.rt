ghost use Rattle.std.specs.Prelude.{◌≡◌, ◌<◌, count_ones, get_or};
ghost use Rattle.ps_mono.specs.Sets.{members, is_set};

// The bit of `word` that has `place` lower ones that are 1.
pub fn nth_one(word: u64, place: u32) -> u32
    requires { place < count_ones word }
    ensures value { result ≡ get_or (members (is_set word) 0 64) place 0 }
    ensures small { result < 64 }
{
    let mut rest = word;
    for step in 0..place {
        rest &= rest - 1;
    }
    rest.trailing_zeros()
}
