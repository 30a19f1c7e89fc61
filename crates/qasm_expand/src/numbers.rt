//! Whole numbers of any length.

ghost use Rattle.std.specs.Prelude.{◌≡◌, ◌+◌, ◌-◌, ◌*◌, ◌≤◌, true, false, min};
ghost use Rattle.qasm_lex.specs.Tokens.{is_digit_byte};
ghost use Rattle.qasm_parse.specs.Numbers.{decimal};

/// 2^32, which stands for more.
const MANY: u64 = 1 << 32;

/// A number with one more digit, or as it is at another byte.
fn with_digit(n: u64, byte: u8) -> u64
    requires { n ≤ 4294967296 }
    ensures digit { is_digit_byte byte ≡ true → result ≡ min (n * 10 + (byte - 48)) 4294967296 }
    ensures other { is_digit_byte byte ≡ false → result ≡ n }
    ensures small { result ≤ 4294967296 }
{
    if byte < b'0' || byte > b'9' {
        return n;
    }
    (n * 10 + (byte - b'0') as u64).min(MANY)
}

/// The whole number that bytes spell, or 2^32 where it is larger.
pub fn number(bytes: &[u8]) -> u64
    ensures { result ≡ min (decimal bytes.now) 4294967296 }
{
    let mut n = 0;
    for byte in bytes {
        n = with_digit(n, *byte);
    }
    n
}
