//! Names and places.
ghost use Rattle.std.specs.Prelude.{◌≡◌, ℕ, ◌<◌, ◌≤◌, false, true, length, MatchOption, nat_eq};
ghost use Rattle.std.specs.Cmp.{partial_equiv_from_equiv};
ghost use Rattle.std.specs.Cmp.Lexicographic.{pointwise};
ghost use Rattle.std.specs.Hash as fed;
ghost use Rattle.std.specs.Cmp.Rules.{hashing};
ghost use Rattle.std.proofs.Common.{rules};
ghost use Rattle.std.proofs.lemmas.Cmp.{nat_list_eq_equiv};
ghost use Rattle.std.specs.List.{list_all};
ghost use Rattle.ps_script.specs.Names.{is_name, is_lower, is_rest};

use std::hash::{Hash, Hasher};
use std::marker::Model;

/// The name of a circuit: 1 to 32 bytes, a lower-case letter and then lower-case letters, digits and `_`.
#[derive(Clone, Copy, Debug)]
pub struct Name {
    len: u8,
    bytes: [u8; 32],
}

impl Model for Name {
    ghost use Rattle.std.specs.Prelude.{List, ℕ};

    ghost Value = { List ℕ };

    ghost use Rattle.ps_script.specs.Stored.{seen, IsStored, put_back, put_back_ok};

    ghost view = { seen };

    ghost invariant = { IsStored };

    ghost inverse = { put_back };

    ghost inverse_ok = { put_back_ok };
}

impl PartialEq for Name {
    ghost eq = { pointwise nat_eq };

    ghost laws = { partial_equiv_from_equiv nat_list_eq_equiv };

    fn eq(&self, other: &Name) -> bool {
        self.as_bytes() == other.as_bytes()
    }
}

impl Eq for Name {
    ghost laws = { nat_list_eq_equiv };
}

impl Hash for Name {
    ghost hash_input = { λ n. fed.slice fed.u8 n };

    ghost respects_eq = { Prim.search (hashing, rules) };

    fn hash<H: Hasher>(&self, state: &mut H) {
        self.as_bytes().hash(state);
    }
}

impl Name {
    /// The name of this spelling, or None exactly where the bytes do not spell a name.
    pub fn of(bytes: &[u8]) -> Option<Name>
        ensures { MatchOption result (is_name bytes.now ≡ false) (λ n. (n ≡ bytes.now) × (is_name bytes.now ≡ true)) }
    {
        if !is_spelled(bytes) {
            return None;
        }
        let mut held = [0; 32];
        for i in 0..bytes.len() {
            held[i] = bytes[i];
        }
        Some(Name {
            len: bytes.len() as u8,
            bytes: held,
        })
    }

    /// The bytes of the name.
    pub fn as_bytes(&self) -> &[u8]
        ensures value { result.now ≡ self.now }
        ensures name { is_name result.now ≡ true }
    {
        &self.bytes[..self.len as usize]
    }
}

fn is_lower(byte: u8) -> bool
    ensures { result ≡ is_lower byte }
{
    byte >= b'a' && byte <= b'z'
}

fn is_rest(byte: u8) -> bool
    ensures { result ≡ is_rest byte }
{
    is_lower(byte) || (byte >= b'0' && byte <= b'9') || byte == b'_'
}

/// Whether all bytes may stand behind the first of a name.
fn are_rest(bytes: &[u8]) -> bool
    ensures { result ≡ list_all is_rest bytes.now }
{
    bytes.iter().all(|byte| is_rest(*byte))
}

/// Whether the bytes spell a name.
#[tactic(auto, using(crate::proofs::NameLemmas::spelling))]
fn is_spelled(bytes: &[u8]) -> bool
    ensures value { result ≡ is_name bytes.now }
    ensures short { result ≡ true → length bytes.now ≤ 32 }
{
    if bytes.is_empty() {
        return false;
    }
    if bytes.len() > 32 {
        return false;
    }
    is_lower(bytes[0]) && are_rest(&bytes[1..])
}

/// A version of a circuit. The versions of a circuit are numbered from 1.
#[derive(Clone, Copy, Debug, PartialEq, Eq)]
pub struct Place {
    pub name: Name,
    pub version: u32,
}
