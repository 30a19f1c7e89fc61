//! Why an input is refused.

ghost use Rattle.std.specs.Prelude.{◌≡◌};
ghost use Rattle.pathsum.specs.Names.{refusal_name};

use ps_reply::fault_name;
use qasm_expand::FaultName;

/// Why an input is refused.
#[derive(Clone, Copy, Debug, PartialEq, Eq)]
pub enum Refusal {
    /// A text has this fault.
    Text(FaultName),
    /// A line `====` is missing.
    Separator,
    /// The two texts have different numbers of qubits.
    Widths,
    /// A line of a script is of no form.
    Form,
    /// A line of a script is right but for the number of its session.
    Session,
    /// A line of a script is right, and its block has no end.
    Block,
}

impl Refusal {
    /// The name that is printed.
    pub fn name(self) -> &'static str
        ensures { result.now ≡ refusal_name self }
    {
        match self {
            Refusal::Text(fault) => fault_name(fault),
            Refusal::Separator => "Separator",
            Refusal::Widths => "Widths",
            Refusal::Form => "Form",
            Refusal::Session => "Session",
            Refusal::Block => "Block",
        }
    }
}
