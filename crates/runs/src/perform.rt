//! Calls that are carried out one after the other.
ghost use Rattle.std.specs.Prelude.{◌≡◌, min, length, take, drop};
ghost use Rattle.design.specs.Settings.{StillLent, set_by};
ghost use Rattle.sheet.specs.Sheets.{contents};
ghost use Rattle.runs.specs.Laws.{TakenFromTheCalls, CallsFixTheRun, SettleWritesTheLeast, ASettledSheetHasTheLeast, LayingMoreLowersNothing, LayingBackChangesNothing};
ghost use Rattle.runs.specs.Runs.{Takes, Run};

use crate::step::Step;
use design::basis::{Basis, DesignBasis};
use sheet::sheet::Sheet;
use terms::book::RuleBook;
use terms::refusal::Refusal;
use terms::stock::Stock;

// Makes one call.
fn perform<D: DesignBasis>(sheet: &mut Sheet<'_>, basis: &mut D, step: Step) -> Result<(), Refusal>
    ensures takes { Takes (D.setting basis.old) (contents sheet.old) step result (contents sheet.new) }
    ensures kept { StillLent D.setting D.lenders basis.old basis.new }
{
    match step {
        Step::Change(call) => sheet.carry_out(call),
        Step::Settle => sheet.settle_by(basis),
    }
}

// Makes the calls in order, as many as there is room for answers, and says how many. Answers are written by place, since of what is written through a zip
// the proof knows no element.
fn perform_each<D: DesignBasis>(
    sheet: &mut Sheet<'_>,
    basis: &mut D,
    steps: &[Step],
    answers: &mut [Result<(), Refusal>],
) -> usize
    ensures count { result ≡ min (length steps.now) (length answers.old) }
    ensures run { Run (D.setting basis.old) (contents sheet.old) (take result steps.now) (take result answers.new) (contents sheet.new) }
    ensures rest { drop result answers.new ≡ drop result answers.old }
    ensures kept { StillLent D.setting D.lenders basis.old basis.new }
{
    let count = steps.len().min(answers.len());
    for (i, step) in steps[..count].iter().enumerate() {
        answers[i] = perform(sheet, basis, *step);
    }
    count
}

// Book and stocks come one by one, so that of each it is promised, by its name, that it means the same after; as a basis they go on from here.
/// Carries out calls in order by one rule book and two stocks, as many as there is room for answers, writes each answer, and says how many there were.
pub fn perform_all<B: RuleBook, P: Stock, S: Stock>(
    sheet: &mut Sheet<'_>,
    steps: &[Step],
    answers: &mut [Result<(), Refusal>],
    book: &mut B,
    plates: &mut P,
    stiffeners: &mut S,
) -> usize
    ensures count { result ≡ min (length steps.now) (length answers.old) }
    ensures run { Run (set_by (B.RuleBook.meaning book.old) (P.Stock.members plates.old) (S.Stock.members stiffeners.old)) (contents sheet.old) (take result steps.now) (take result answers.new) (contents sheet.new) }
    ensures rest { drop result answers.new ≡ drop result answers.old }
    ensures book { B.RuleBook.meaning book.new ≡ B.RuleBook.meaning book.old }
    ensures plates { P.Stock.members plates.new ≡ P.Stock.members plates.old }
    ensures stiffeners { S.Stock.members stiffeners.new ≡ S.Stock.members stiffeners.old }
    ensures taken { TakenFromTheCalls }
    ensures fixed { CallsFixTheRun }
    ensures least { SettleWritesTheLeast }
    ensures settled { ASettledSheetHasTheLeast }
    ensures raises { LayingMoreLowersNothing }
    ensures keeps { LayingBackChangesNothing }
{
    let mut basis = Basis {
        book,
        plates,
        stiffeners,
    };
    perform_each(sheet, &mut basis, steps, answers)
}
