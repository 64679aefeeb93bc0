ghost use Rattle.std.specs.Prelude.{◌≡◌};
ghost use Rattle.ooo_value.specs.FaultNames.{fault_name};

use crate::operators::Fault;
use std::fmt;

impl Fault {
    /// The fault's name, as a report has it.
    pub fn name(self) -> &'static str
        ensures { result.now ≡ fault_name self }
    {
        match self {
            Fault::Overflow => "Overflow",
            Fault::DivideByZero => "DivideByZero",
            Fault::ShiftRange => "ShiftRange",
            Fault::IndexRange => "IndexRange",
            Fault::BadTime => "BadTime",
        }
    }
}

impl fmt::Display for Fault {
    ghost use Rattle.std.specs.Prelude.{Some};

    ghost output = { λ fault. Some (fault_name fault) };

    fn fmt<W: fmt::Write>(&self, f: &mut fmt::Formatter<W>) -> fmt::Result {
        f.write_str(self.name())
    }
}
