//! Settling a sheet: the least lawful schedule.
ghost use Rattle.std.specs.Prelude.{◌≡◌};
ghost use Rattle.design.specs.Settings.{StillLent, set_by};
ghost use Rattle.sheet.specs.Settles.{Settles};
ghost use Rattle.sheet.specs.Sheets.{contents};

use super::Sheet;
use design::basis::{Basis, DesignBasis};
use design::check::ready_hull;
use least::least_schedule;
use terms::book::RuleBook;
use terms::ground::Ground;
use terms::refusal::Refusal;
use terms::stock::Stock;

impl Sheet<'_> {
    /// Settles by a design basis of any make.
    pub fn settle_by<D: DesignBasis>(&mut self, basis: &mut D) -> Result<(), Refusal>
        ensures settles { Settles (D.setting basis.old) (contents self.old) result (contents self.new) }
        ensures kept { StillLent D.setting D.lenders basis.old basis.new }
    {
        let hull = ready_hull(basis, self.hull(), self.lines())?;
        let found = least_schedule(basis, hull, self.lines());
        let sizes = found.ok_or(Ground::NoLawfulSchedule.at(0))?;
        self.write(&sizes);
        Ok(())
    }

    // Book and stocks come one by one, so that of each it is promised, by its name, that it means the same after; as a basis they go on from here.
    /// Writes the least lawful schedule, by a rule book and two stocks of any makes, as the scheduled sizes, and makes the sheet settled.
    pub fn settle<B: RuleBook, P: Stock, S: Stock>(
        &mut self,
        book: &mut B,
        plates: &mut P,
        stiffeners: &mut S,
    ) -> Result<(), Refusal>
        ensures settles { Settles (set_by (B.RuleBook.meaning book.old) (P.Stock.members plates.old) (S.Stock.members stiffeners.old)) (contents self.old) result (contents self.new) }
        ensures book { B.RuleBook.meaning book.new ≡ B.RuleBook.meaning book.old }
        ensures plates { P.Stock.members plates.new ≡ P.Stock.members plates.old }
        ensures stiffeners { S.Stock.members stiffeners.new ≡ S.Stock.members stiffeners.old }
    {
        let mut basis = Basis {
            book,
            plates,
            stiffeners,
        };
        self.settle_by(&mut basis)
    }
}
