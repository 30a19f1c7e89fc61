//! Numbers that are drawn one after another from a seed, and the applications that they choose.
ghost use Rattle.std.specs.Prelude.{◌≡◌, ◌≤◌, ◌%◌, IfOk};
ghost use Rattle.ps_gen.specs.Draws.{next_number, third_number, gate_of, chosen, applications};

use crate::applications::{Application, Gate};
use std::alloc::{AllocError, Global};

/// The number that was drawn last, or the seed.
#[derive(Clone, Copy, Debug)]
struct Draws {
    last: u32,
}

impl Draws {
    // The next number.
    #[tactic(auto, unfolding(crate::specs::Draws::next_number))]
    fn draw(&mut self) -> u32
        ensures value { result ≡ next_number self.old.last }
        ensures last { self.new.last ≡ result }
    {
        let number = (1_664_525 * u64::from(self.last) + 1_013_904_223) % 4_294_967_296;
        self.last = number as u32;
        self.last
    }

    // The application that the next three numbers choose.
    fn application(&mut self, qubits: u32) -> Application
        requires { (2 ≤ qubits) × (qubits ≤ 16) }
        ensures value { result ≡ chosen qubits self.old.last }
        ensures last { self.new.last ≡ third_number self.old.last }
    {
        let gate = gate_of((self.draw() >> 24) % 6);
        let first = (self.draw() >> 16) % qubits;
        let second = (first + 1 + (self.draw() >> 16) % (qubits - 1)) % qubits;
        Application {
            gate,
            first,
            second,
        }
    }
}

// The gate of a kind.
fn gate_of(kind: u32) -> Gate
    ensures { result ≡ gate_of kind }
{
    match kind {
        0 => Gate::X,
        1 => Gate::S,
        2 => Gate::T,
        3 => Gate::Cx,
        4 => Gate::Cz,
        _ => Gate::Swap,
    }
}

/// The applications that are drawn from a seed, in order.
///
/// `AllocError` is want of memory.
pub fn applications(
    alloc: Global,
    seed: u32,
    qubits: u32,
    items: u32,
) -> Result<Vec<Application>, AllocError>
    requires qubits { (2 ≤ qubits) × (qubits ≤ 16) }
    requires items { items ≤ 32768 }
    ensures { IfOk result (λ v. v.items ≡ applications qubits items seed) }
{
    let mut draws = Draws { last: seed };
    let mut list = Vec::with_capacity(alloc, items as usize)?;
    for _i in 0..items {
        list.push(draws.application(qubits))?;
    }
    Ok(list)
}
