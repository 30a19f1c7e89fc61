//! The lines of applications, and what undoes them.
ghost use Rattle.std.specs.Prelude.{◌≡◌, ◌++◌, OnOk, string_bytes};
ghost use Rattle.ps_gen.specs.Texts.{line, mirrored_gate, mirrored};

use crate::applications::{Application, Gate};
use std::alloc::AllocError;

impl Gate {
    // The gate that undoes this one.
    fn mirrored(self) -> Gate
        ensures { result ≡ mirrored_gate self }
    {
        match self {
            Gate::S => Gate::Sdg,
            Gate::Sdg => Gate::S,
            Gate::T => Gate::Tdg,
            Gate::Tdg => Gate::T,
            other => other,
        }
    }
}

impl Application {
    /// The application that undoes this one, to the same qubits.
    pub fn mirrored(self) -> Application
        ensures { result ≡ mirrored self }
    {
        Application {
            gate: self.gate.mirrored(),
            first: self.first,
            second: self.second,
        }
    }

    /// Puts the line of the application behind a text. `AllocError` is want of memory.
    pub fn push_line(self, text: &mut String) -> Result<(), AllocError>
        ensures { OnOk result (string_bytes text.new ≡ string_bytes text.old ++ line self) }
    {
        let Application {
            gate,
            first,
            second,
        } = self;
        match gate {
            Gate::X => write!(text, "x q[{first}];\n"),
            Gate::S => write!(text, "s q[{first}];\n"),
            Gate::Sdg => write!(text, "sdg q[{first}];\n"),
            Gate::T => write!(text, "t q[{first}];\n"),
            Gate::Tdg => write!(text, "tdg q[{first}];\n"),
            Gate::Cx => write!(text, "cx q[{first}],q[{second}];\n"),
            Gate::Cz => write!(text, "cz q[{first}],q[{second}];\n"),
            Gate::Swap => write!(text, "swap q[{first}],q[{second}];\n"),
        }
    }
}
