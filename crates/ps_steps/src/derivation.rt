//! Derivations.

ghost use Rattle.std.specs.Prelude.{◌≡◌, true};
ghost use Rattle.ps_steps.specs.Steps.{is_derivation};

use super::lines::Lines;

/// A derivation. `Head` with the number 1 is its first line and no other, and `End` its last line and
/// no other.
#[derive(Drop)]
pub struct Derivation {
    pub lines: Lines,
    pub ghost form: { is_derivation lines ≡ true },
}
