ghost use Rattle.std.specs.Prelude.{◌≡◌, ℕ, ◌+◌, ◌%◌, ◌^◌, ◌<◌, ◌≤◌, Bool, List, IsTrue, length, get_or};
ghost use Rattle.ps_mono.specs.Truth.{times};
ghost use Rattle.ps_sum.specs.Tables.{table_value, is_odd};

// Each word of the first with that of the second at its place, modulo 2^32.
fn add_words(high: &mut [u32], low: &[u32])
    requires { length low.now ≡ length high.old }
    ensures { (i : ℕ) → get_or high.new i 0 ≡ (get_or high.old i 0 + get_or low.now i 0) % 4294967296 }
{
    for i in 0..low.len() {
        high[i] = high[i].wrapping_add(low[i]);
    }
}

// Each word of the first less that of the second at its place, modulo 2^32.
fn take_words(high: &mut [u32], low: &[u32])
    requires { length low.now ≡ length high.old }
    ensures { (i : ℕ) → get_or high.old i 0 % 4294967296 ≡ (get_or high.new i 0 + get_or low.now i 0) % 4294967296 }
{
    for i in 0..low.len() {
        high[i] = high[i].wrapping_sub(low[i]);
    }
}

/// Makes the table's worth `by` at each assignment at which it is odd, and nothing at the others: the
/// half without the first variable as it is, and the half with it less the other one, of what both are
/// worth together.
pub(crate) fn transform(table: &mut [u32], count: u32, by: u32)
    requires { length table.old ≡ 2 ^ count }
    ensures { (names : List ℕ) → length names ≡ count → (a : ℕ → Bool) → table_value names table.new 0 a % 4294967296 ≡ times (is_odd (table_value names table.old 0 a)) by % 4294967296 }
{
    if count == 0 {
        table[0] = if table[0] % 2 == 1 { by } else { 0 };
        return;
    }
    let half = table.len() / 2;
    let (low, high) = table.split_at_mut(half);
    add_words(high, low);
    transform(low, count - 1, by);
    transform(high, count - 1, by);
    take_words(high, low);
}

/// Whether the words from place `from` on, `size` of them, are all 0.
pub(crate) fn is_zero(table: &[u32], from: usize, size: usize) -> bool
    requires { from + size ≤ length table.now }
    ensures { IsTrue result → (i : ℕ) → from ≤ i → i < from + size → get_or table.now i 0 ≡ 0 }
{
    for i in from..from + size {
        if table[i] != 0 {
            return false;
        }
    }
    true
}
