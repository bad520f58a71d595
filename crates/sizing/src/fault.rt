//! Why a line of a list of members is not taken.
ghost use Rattle.std.specs.Prelude.{◌≡◌, Some};
ghost use Rattle.sizing.specs.Shown.{fault_text};
ghost use Rattle.sizing.specs.declared.fault.Fault.TheVariants.{Refused};

use std::error::Error;
use std::fmt;
use terms::refusal::Refusal;
use words::form::Form;

/// Why a line is not taken. It changes nothing.
#[derive(Clone, Copy, PartialEq, Eq, Debug)]
pub enum Fault {
    /// the statement is refused
    Refused(Refusal),
    /// a statement of this form has to come before a member
    Missing(Form),
    /// the line is no statement; this form was expected of it
    Expected(Form),
}

// By hand, since the text is promised: what the library's derive of messages writes has no contract.
impl fmt::Display for Fault {
    ghost output = { λ fault. Some (fault_text fault) };

    fn fmt<W: fmt::Write>(&self, f: &mut fmt::Formatter<W>) -> fmt::Result {
        match self {
            Fault::Refused(refusal) => write!(f, "{refusal}"),
            Fault::Missing(form) => write!(f, "expected before it: {form}"),
            Fault::Expected(form) => write!(f, "expected {form}"),
        }
    }
}

impl Error for Fault {}

impl From<Refusal> for Fault {
    ghost from_gives = { λ refusal fault. fault ≡ Refused refusal };

    fn from(refusal: Refusal) -> Fault {
        Self::Refused(refusal)
    }
}
