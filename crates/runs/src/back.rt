//! Lines of a settled sheet, laid back at their scheduled sizes.
ghost use Rattle.std.specs.Prelude.{◌≡◌, min, length};
ghost use Rattle.design.specs.Settings.{StillLent, set_by};
ghost use Rattle.register.specs.Keys.{place_of};
ghost use Rattle.design.specs.Lines.{mark_of};
ghost use Rattle.sheet.specs.declared.call.Call.TheVariants as asked;
ghost use Rattle.sheet.specs.Calls.{Does};
ghost use Rattle.sheet.specs.Sheets.{contents};
ghost use Rattle.runs.specs.Laws.{LaidBack};
ghost use Rattle.runs.specs.Back.{SizesTo, size_at, LaidTo};

use design::basis::{Basis, DesignBasis};
use design::line::Line;
use sheet::sheet::Sheet;
use terms::book::RuleBook;
use terms::limits::MOST_LINES;
use terms::refusal::Refusal;
use terms::stock::Stock;
use trial::Lines;

// The scheduled sizes of the first lines, by their places: written by place, since of what is written through a zip the proof knows no element. There is a place
// for as many lines as a sheet may have, and no length beside them: the place of a mark is that of a line, so that none past the lines is read.
fn scheduled_sizes(lines: &[Line]) -> [u16; MOST_LINES]
    ensures { SizesTo lines.now (min (length lines.now) 96) result }
{
    let mut sizes = [0; MOST_LINES];
    let count = lines.len().min(MOST_LINES);
    for (place, line) in lines[..count].iter().enumerate() {
        sizes[place] = line.scheduled;
    }
    sizes
}

// The size at a place, 0 for none: a number, since a lay on a mark that is not there is refused whatever the size.
fn size_at_place(sizes: &[u16], place: Option<usize>) -> u16
    ensures { result ≡ size_at sizes.now place }
{
    let size = place.and_then(|place| sizes.get(place).copied());
    size.unwrap_or(0)
}

// Lays the line of a mark at the size that stands at its place.
fn lay_one(sheet: &mut Sheet<'_>, sizes: &[u16], mark: u16) -> Result<(), Refusal>
    ensures { Does (contents sheet.old) (asked.Lay mark (size_at sizes.now (place_of mark_of mark (contents sheet.old).lines))) result (contents sheet.new) }
{
    let size = size_at_place(sizes, sheet.place_of(mark));
    sheet.lay(mark, size)
}

// Lays the lines of the marks, one after the other, at the sizes that stand at their places, and answers the first refusal.
fn lay_each(sheet: &mut Sheet<'_>, sizes: &[u16], marks: &[u16]) -> Result<(), Refusal>
    requires { SizesTo (contents sheet.old).lines (length (contents sheet.old).lines) sizes.now }
    ensures { LaidTo (contents sheet.old) marks.now result (contents sheet.new) }
{
    let mut first = Ok(());
    for mark in marks {
        first = first.and(lay_one(sheet, sizes, *mark));
    }
    first
}

fn settle_back<D: DesignBasis>(
    sheet: &mut Sheet<'_>,
    marks: &[u16],
    basis: &mut D,
) -> Result<(), Refusal>
    ensures laid { LaidBack (D.setting basis.old) (contents sheet.old) marks.now result (contents sheet.new) }
    ensures kept { StillLent D.setting D.lenders basis.old basis.new }
{
    let sizes = scheduled_sizes(sheet.lines());
    let laid = lay_each(sheet, &sizes, marks);
    let settled = sheet.settle_by(basis);
    laid.and(settled)
}

// Book and stocks come one by one, so that of each it is promised, by its name, that it means the same after; as a basis they go on from here.
/// Lays the lines of these marks back at the sizes that the sheet has scheduled for them, one after the other, and settles again by the rule book and the stocks.
/// Answers the first refusal among the calls. A sheet that the same book and stocks have settled comes out as it was, with those lines laid.
pub fn lay_back<B: RuleBook, P: Stock, S: Stock>(
    sheet: &mut Sheet<'_>,
    marks: &[u16],
    book: &mut B,
    plates: &mut P,
    stiffeners: &mut S,
) -> Result<(), Refusal>
    ensures laid { LaidBack (set_by (B.RuleBook.meaning book.old) (P.Stock.members plates.old) (S.Stock.members stiffeners.old)) (contents sheet.old) marks.now result (contents sheet.new) }
    ensures book { B.RuleBook.meaning book.new ≡ B.RuleBook.meaning book.old }
    ensures plates { P.Stock.members plates.new ≡ P.Stock.members plates.old }
    ensures stiffeners { S.Stock.members stiffeners.new ≡ S.Stock.members stiffeners.old }
{
    let mut basis = Basis {
        book,
        plates,
        stiffeners,
    };
    settle_back(sheet, marks, &mut basis)
}
