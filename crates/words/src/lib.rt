//! Reads one line of a text sheet.
//!
//! A sheet is a list of statements, one to a line. `#` begins a comment that goes to the end of the line. Words are
//! kept apart by blanks: spaces, tabs and carriage returns. The statements are
//!
//!     book NUMBER
//!     plates FIRST STEP COUNT
//!     stiffeners FIRST STEP COUNT
//!     hull L B D d WATER
//!     enter MARK KIND PLACE NEIGHBOUR NEIGHBOUR s l P z STRENGTH AREA
//!
//! and each number is one or more digits.
#![tactic(auto)]

ghost use Rattle.std.specs.Prelude.{◌≡◌, ◌≤◌, SomeIff};
ghost use Rattle.std.specs.Option.{option_map};
ghost use Rattle.words.specs.Numbers.{numbers_of};
ghost use Rattle.words.specs.Spelled.{ReadsBack};
ghost use Rattle.words.specs.Statements.{narrow, series_of, hull_of, entry_of, series_limits, hull_limits, entry_limits, statement_by, statement_of};

pub mod form;
mod numbers;
pub mod series;
pub mod statement;
pub mod text;

use form::Form;
use numbers::numbers;
use series::Series;
use statement::Statement;
use terms::entry::Entry;
use terms::hull::Hull;
use text::{Words, without_comment};

/// A number as one of a narrow field.
fn narrowed(number: u16) -> Option<u8>
    ensures { SomeIff result (number ≤ narrow) number }
{
    u8::try_from(number).ok()
}

fn read_book(words: Words<'_>) -> Option<u8>
    ensures { option_map Statement.Book result ≡ statement_by Form.Book words.entry }
{
    let [number] = numbers::<1>(words)?;
    narrowed(number)
}

fn read_series(words: Words<'_>) -> Option<Series>
    ensures { result ≡ option_map series_of (numbers_of series_limits words.entry) }
{
    let [first, step, count] = numbers::<3>(words)?;
    Some(Series { first, step, count })
}

fn read_hull(words: Words<'_>) -> Option<Hull>
    ensures { result ≡ option_map hull_of (numbers_of hull_limits words.entry) }
{
    let [length, breadth, depth, draught, water] = numbers::<5>(words)?;
    Some(Hull {
        length,
        breadth,
        depth,
        draught,
        water: narrowed(water)?,
    })
}

fn read_entry(words: Words<'_>) -> Option<Entry>
    ensures { result ≡ option_map entry_of (numbers_of entry_limits words.entry) }
{
    let [mark, kind, place, near, far, s, l, p, z, strength, area] = numbers::<11>(words)?;
    Some(Entry {
        mark,
        kind: narrowed(kind)?,
        place: narrowed(place)?,
        near,
        far,
        spacing: s,
        span: l,
        pressure: narrowed(p)?,
        height: z,
        strength,
        area,
    })
}

/// The statement of a form, by the words after its first.
fn read_values(form: Form, words: Words<'_>) -> Option<Statement>
    ensures { result ≡ statement_by form words.entry }
{
    match form {
        Form::Any => None,
        Form::Book => read_book(words).map(Statement::Book),
        Form::Plates => read_series(words).map(Statement::Plates),
        Form::Stiffeners => read_series(words).map(Statement::Stiffeners),
        Form::Hull => read_hull(words).map(Statement::Hull),
        Form::Enter => read_entry(words).map(Statement::Enter),
    }
}

/// What a line says, or the form of statement that was expected of it.
pub fn read_statement(line: &[u8]) -> Result<Statement, Form>
    ensures { result ≡ statement_of line.now }
{
    let mut words = Words::new(without_comment(line));
    let Some(word) = words.next() else {
        return Ok(Statement::Nothing);
    };
    let form = Form::from(word);
    read_values(form, words).ok_or(form)
}

/// A statement that is spelled in plain words, with each number in decimal after one space, is read as that statement.
/// The contract is all: there is nothing to run.
pub fn reads_back()
    ensures { ReadsBack }
{}

#[cfg(test)]
mod tests {
    use super::*;

    #[test]
    fn lines_are_read(rt: HostRuntime) {
        assert_eq!(rt;
            read_statement(b"\t # only a comment\r"),
            Ok(Statement::Nothing)
        );
        assert_eq!(rt; read_statement(b"book 003"), Ok(Statement::Book(3)));
        assert_eq!(rt;
            read_statement(b"plates 40\t5 20\r"),
            Ok(Statement::Plates(Series {
                first: 40,
                step: 5,
                count: 20,
            }))
        );
    }

    #[test]
    fn an_entry_is_read(rt: HostRuntime) {
        assert_eq!(rt;
            read_statement(b"  enter 10 41 0 0 0 300 600 20 0 125 40 # keel"),
            Ok(Statement::Enter(Entry {
                mark: 10,
                kind: 41,
                spacing: 300,
                span: 600,
                pressure: 20,
                strength: 125,
                area: 40,
                ..Entry::default()
            }))
        );
    }

    #[test]
    fn other_lines_are_refused(rt: HostRuntime) {
        assert_eq!(rt;
            read_statement(b"enter 10 41 0 0 0 300 600 256 0 125 40"),
            Err(Form::Enter)
        );
        assert_eq!(rt;
            read_statement(b"enter 10 41 0 0 0 300 600 20 0 125"),
            Err(Form::Enter)
        );
        assert_eq!(rt;
            read_statement(b"hull 9000 3000 1500 600 +1"),
            Err(Form::Hull)
        );
        assert_eq!(rt; read_statement(b"book 300"), Err(Form::Book));
        assert_eq!(rt; read_statement(b"Book 3"), Err(Form::Any));
    }
}
