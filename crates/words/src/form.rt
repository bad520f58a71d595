//! The forms of a statement.
ghost use Rattle.std.specs.Prelude.{◌≡◌, Some};
ghost use Rattle.words.specs.Forms.{expected, form_of};

use std::error::Error;
use std::fmt;

/// A form of statement, by its first word: what was expected of a line that does not read.
#[derive(Clone, Copy, PartialEq, Eq, Debug)]
pub enum Form {
    /// any of the others, since the first word is none of theirs: a form like them, since what it expects is told in words as theirs is
    Any,
    Book,
    Plates,
    Stiffeners,
    Hull,
    Enter,
}

/// The form that a first word begins.
impl From<&[u8]> for Form {
    ghost from_gives = { λ word form. form ≡ form_of word.now };

    fn from(word: &[u8]) -> Form {
        match word {
            b"book" => Form::Book,
            b"plates" => Form::Plates,
            b"stiffeners" => Form::Stiffeners,
            b"hull" => Form::Hull,
            b"enter" => Form::Enter,
            _ => Form::Any,
        }
    }
}

/// The words of the form, in their order.
impl fmt::Display for Form {
    ghost output = { λ form. Some (expected form) };

    fn fmt<W: fmt::Write>(&self, f: &mut fmt::Formatter<W>) -> fmt::Result {
        f.write_str(match self {
            Form::Any => "book, plates, stiffeners, hull or enter",
            Form::Book => "book NUMBER",
            Form::Plates => "plates FIRST STEP COUNT",
            Form::Stiffeners => "stiffeners FIRST STEP COUNT",
            Form::Hull => "hull L B D d WATER",
            Form::Enter => "enter MARK KIND PLACE NEIGHBOUR NEIGHBOUR s l P z STRENGTH AREA",
        })
    }
}

impl Error for Form {}
