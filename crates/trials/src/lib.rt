//! Trials on a sheet: what a check would say with another size on one line. The sheet is as before, on whatever way a trial ends.
//!
//! Book and stocks come one by one in each call, so that of each it is promised, by its name, that it means the same after. That the lines are as before stands
//! in each call too: it is what each is for, and no type can say it of what a call is lent.
#![tactic(auto)]

ghost use Rattle.std.specs.Prelude.{◌≡◌};
ghost use Rattle.design.specs.Settings.{set_by};
ghost use Rattle.sheet.specs.Sheets.{contents};
ghost use Rattle.trials.specs.Tries.{Tries, Passing, FirstPassing};

use design::verdict::Verdict;
use sheet::sheet::Sheet;
use terms::book::RuleBook;
use terms::refusal::Refusal;
use terms::stock::Stock;
use trial::{Lines, Trying};

/// What a check would say with the size on the line of the mark; refused where the size could not be laid.
pub fn verdict_with<L: Lines, B: RuleBook, P: Stock, S: Stock>(
    lines: &mut L,
    book: &mut B,
    plates: &mut P,
    stiffeners: &mut S,
    mark: u16,
    size: u16,
) -> Result<Verdict, Refusal>
    ensures value { Tries (set_by (B.RuleBook.meaning book.old) (P.Stock.members plates.old) (S.Stock.members stiffeners.old)) (L.Lines.contents lines.old) mark size result }
    ensures unchanged { lines.new ≡ lines.old }
    ensures book { B.RuleBook.meaning book.new ≡ B.RuleBook.meaning book.old }
    ensures plates { P.Stock.members plates.new ≡ P.Stock.members plates.old }
    ensures stiffeners { S.Stock.members stiffeners.new ≡ S.Stock.members stiffeners.old }
{
    lines.may_try(mark, size)?;
    let trial = lines.trial(mark, size);
    trial.check(book, plates, stiffeners)
}

/// The same on a sheet, which is exactly what it was. A function of its own, so that the promise stands on a call that takes a sheet.
pub fn sheet_verdict_with<B: RuleBook, P: Stock, S: Stock>(
    sheet: &mut Sheet<'_>,
    book: &mut B,
    plates: &mut P,
    stiffeners: &mut S,
    mark: u16,
    size: u16,
) -> Result<Verdict, Refusal>
    ensures value { Tries (set_by (B.RuleBook.meaning book.old) (P.Stock.members plates.old) (S.Stock.members stiffeners.old)) (contents sheet.old) mark size result }
    ensures unchanged { sheet.new ≡ sheet.old }
    ensures book { B.RuleBook.meaning book.new ≡ B.RuleBook.meaning book.old }
    ensures plates { P.Stock.members plates.new ≡ P.Stock.members plates.old }
    ensures stiffeners { S.Stock.members stiffeners.new ≡ S.Stock.members stiffeners.old }
{
    verdict_with(sheet, book, plates, stiffeners, mark, size)
}

// It holds a trial of its own, which a refused check leaves early: that lines are as they were on that way too is to be seen on a call that goes it.
/// Whether the design would pass with the size on the line of the mark.
pub fn passes_with<L: Lines, B: RuleBook, P: Stock, S: Stock>(
    lines: &mut L,
    book: &mut B,
    plates: &mut P,
    stiffeners: &mut S,
    mark: u16,
    size: u16,
) -> Result<bool, Refusal>
    ensures value { Passing (set_by (B.RuleBook.meaning book.old) (P.Stock.members plates.old) (S.Stock.members stiffeners.old)) (L.Lines.contents lines.old) mark size result }
    ensures unchanged { lines.new ≡ lines.old }
    ensures book { B.RuleBook.meaning book.new ≡ B.RuleBook.meaning book.old }
    ensures plates { P.Stock.members plates.new ≡ P.Stock.members plates.old }
    ensures stiffeners { S.Stock.members stiffeners.new ≡ S.Stock.members stiffeners.old }
{
    lines.may_try(mark, size)?;
    let trial = lines.trial(mark, size);
    let verdict = trial.check(book, plates, stiffeners)?;
    Ok(verdict.is_ok())
}

/// The first of some sizes for the line of the mark with which the design passes; refused where a size before it could not be laid, or the
/// design could not be checked.
pub fn first_passing<L: Lines, B: RuleBook, P: Stock, S: Stock>(
    lines: &mut L,
    book: &mut B,
    plates: &mut P,
    stiffeners: &mut S,
    mark: u16,
    sizes: &[u16],
) -> Result<Option<u16>, Refusal>
    ensures value { FirstPassing (set_by (B.RuleBook.meaning book.old) (P.Stock.members plates.old) (S.Stock.members stiffeners.old)) (L.Lines.contents lines.old) mark sizes.now result }
    ensures unchanged { lines.new ≡ lines.old }
    ensures book { B.RuleBook.meaning book.new ≡ B.RuleBook.meaning book.old }
    ensures plates { P.Stock.members plates.new ≡ P.Stock.members plates.old }
    ensures stiffeners { S.Stock.members stiffeners.new ≡ S.Stock.members stiffeners.old }
{
    // a loop, since of a closure that tries a size the proof knows nothing afterwards
    for size in sizes {
        if passes_with(lines, book, plates, stiffeners, mark, *size)? {
            return Ok(Some(*size));
        }
    }
    Ok(None)
}
