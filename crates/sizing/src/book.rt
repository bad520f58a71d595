//! The rule books by their numbers.
ghost use Rattle.std.specs.Prelude.{◌≡◌};
ghost use Rattle.sizing.specs.Books.{numbered};

use aluminium::Aluminium;
use plastic::Plastic;
use steel::Steel;
use terms::book::RuleBook;
use terms::ground::Ground;
use terms::refusal::Refusal;

/// A rule book, by material.
#[derive(Clone, Copy)]
pub enum Book {
    Steel,
    Plastic,
    Aluminium,
}

/// The book of a number; refused where there is none.
impl TryFrom<u8> for Book {
    type Error = Refusal;

    ghost try_from_gives = { λ number book. book ≡ numbered number };

    fn try_from(number: u8) -> Result<Book, Refusal> {
        match number {
            Steel::NUMBER => Ok(Book::Steel),
            Plastic::NUMBER => Ok(Book::Plastic),
            Aluminium::NUMBER => Ok(Book::Aluminium),
            _ => Err(Ground::BookUnknown.at(0)),
        }
    }
}
