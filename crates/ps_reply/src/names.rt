//! The names of the faults of texts.

ghost use Rattle.std.specs.Prelude.{◌≡◌};
ghost use Rattle.ps_reply.specs.Names.{fault_name};

use qasm_expand::FaultName;

/// The name of a fault, as it is printed.
pub fn fault_name(fault: FaultName) -> &'static str
    ensures { result.now ≡ fault_name fault }
{
    match fault {
        FaultName::BadByte => "BadByte",
        FaultName::BadNumber => "BadNumber",
        FaultName::OpenString => "OpenString",
        FaultName::Version => "Version",
        FaultName::Syntax => "Syntax",
        FaultName::NotUnitary => "NotUnitary",
        FaultName::Include => "Include",
        FaultName::Opaque => "Opaque",
        FaultName::Deep => "Deep",
        FaultName::NotDyadic => "NotDyadic",
        FaultName::AngleRange => "AngleRange",
        FaultName::NoParameter => "NoParameter",
        FaultName::Function => "Function",
        FaultName::ByZero => "ByZero",
        FaultName::Unknown => "Unknown",
        FaultName::Arity => "Arity",
        FaultName::Redeclared => "Redeclared",
        FaultName::Range => "Range",
        FaultName::RepeatedQubit => "RepeatedQubit",
        FaultName::Sizes => "Sizes",
        FaultName::TooMany => "TooMany",
        FaultName::NoQubits => "NoQubits",
    }
}
