//! What is answered to the statements of a list of members.
ghost use Rattle.std.specs.Prelude.{◌≡◌};
ghost use Rattle.std.specs.Result.{result_map_both};
ghost use Rattle.words.specs.declared.statement.Statement.TheVariants as statement;
ghost use Rattle.words.specs.Statements.{statement_of};
ghost use Rattle.needs.specs.Needs.{Needs};
ghost use Rattle.sizing.specs.Books.{rules_of};
ghost use Rattle.sizing.specs.Replies.{said, nothing_said, taken, Replied, Heard, stock, series, series_given};

use super::Given;
use crate::book::Book;
use crate::fault::Fault;
use crate::reply::Reply;
use aluminium::Aluminium;
use needs::need::{Need, needed};
use plastic::Plastic;
use steel::Steel;
use stocks::build_up::BuildUp;
use terms::entry::Entry;
use terms::hull::Hull;
use terms::refusal::Refusal;
use words::form::Form;
use words::read_statement;
use words::series::Series;
use words::statement::Statement;

// What a book, two stocks and a hull answer of a member: what `Given` holds, once each is there. Each arm stays, since each book has a type of its own.
fn size(
    book: Book,
    mut plates: BuildUp,
    mut stiffeners: BuildUp,
    hull: Hull,
    line: Entry,
) -> Result<Need, Refusal>
    ensures { Needs (rules_of book) (stock (series plates)) (stock (series stiffeners)) hull line result }
{
    let (plates, stiffeners) = (&mut plates, &mut stiffeners);
    match book {
        Book::Steel => needed(&mut Steel, plates, stiffeners, hull, line),
        Book::Plastic => needed(&mut Plastic, plates, stiffeners, hull, line),
        Book::Aluminium => needed(&mut Aluminium, plates, stiffeners, hull, line),
    }
}

// The stock that is built up of a series. No `TryFrom`, since neither type is of this crate.
fn build_up(of: Series) -> Result<BuildUp, Refusal>
    ensures { result_map_both series (λ refusal. refusal) result ≡ series_given of }
{
    BuildUp::new(of.first, of.step, of.count)
}

impl Given {
    /// Nothing has been said.
    pub fn new() -> Given
        ensures { said result ≡ nothing_said }
    {
        Given::default()
    }

    // What a member needs, once all that it is sized by has been said.
    fn enter(self, line: Entry) -> Result<Reply, Fault>
        ensures { Replied (said self) (statement.Enter line) result }
    {
        let book = self.book.ok_or(Fault::Missing(Form::Book))?;
        let plates = self.plates.ok_or(Fault::Missing(Form::Plates))?;
        let stiffeners = self.stiffeners.ok_or(Fault::Missing(Form::Stiffeners))?;
        let hull = self.hull.ok_or(Fault::Missing(Form::Hull))?;
        Ok(Reply::Needs(size(book, plates, stiffeners, hull, line)?))
    }

    /// Takes a statement, and answers it. One that is not taken changes nothing.
    pub fn take(&mut self, statement: Statement) -> Result<Reply, Fault>
        ensures after { said self.new ≡ taken (said self.old) statement }
        ensures reply { Replied (said self.old) statement result }
    {
        match statement {
            Statement::Nothing => {}
            Statement::Book(number) => self.book = Some(Book::try_from(number)?),
            Statement::Plates(series) => self.plates = Some(build_up(series)?),
            Statement::Stiffeners(series) => self.stiffeners = Some(build_up(series)?),
            Statement::Hull(hull) => {
                hull.check_limits()?;
                self.hull = Some(hull);
            }
            Statement::Enter(line) => return self.enter(line),
        }
        Ok(Reply::Noted)
    }

    /// Takes a line of a text sheet, and answers it. A line that is no statement changes nothing.
    pub fn hear(&mut self, line: &[u8]) -> Result<Reply, Fault>
        ensures { Heard (statement_of line.now) (said self.old) result (said self.new) }
    {
        self.take(read_statement(line).map_err(Fault::Expected)?)
    }
}
