//! What is answered to a statement that is taken.
ghost use Rattle.std.specs.Prelude.{Some};
ghost use Rattle.sizing.specs.Shown.{reply_text};

use needs::need::Need;
use std::fmt;

// Not an Option of a need: the word for nothing to say is an answer too, and prints as one.
/// What is answered to a statement of a list of members that is taken.
#[derive(Clone, Copy)]
pub enum Reply {
    /// there is nothing to say
    Noted,
    /// what the member needs by itself
    Needs(Need),
}

impl fmt::Display for Reply {
    ghost output = { λ r. Some (reply_text r) };

    fn fmt<W: fmt::Write>(&self, f: &mut fmt::Formatter<W>) -> fmt::Result {
        match self {
            Reply::Noted => write!(f, "noted"),
            Reply::Needs(need) => write!(f, "{need}"),
        }
    }
}
