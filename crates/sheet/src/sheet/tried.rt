//! The sheet, as what a trial is held on, and the check of its design.
ghost use Rattle.std.specs.Prelude.{◌≡◌, true};
ghost use Rattle.register.specs.Keys.{climbs};
ghost use Rattle.design.specs.Lines.{mark_of};
ghost use Rattle.design.specs.Settings.{set_by};
ghost use Rattle.design.specs.Verdicts.{Checks};
ghost use Rattle.sheet.specs.Laid.{Laid};
ghost use Rattle.sheet.specs.Sheets.{contents};

use super::Sheet;
use design::basis::Basis;
use design::check::check_lines;
use design::line::Line;
use design::verdict::Verdict;
use terms::book::RuleBook;
use terms::hull::Hull;
use terms::limits::LARGEST_SIZE;
use terms::refusal::Refusal;
use terms::stock::Stock;
use trial::{Key, Lines};

impl<'a> Lines for Sheet<'a> {
    ghost contents = { contents };

    ghost laid = { Laid };

    fn hull(&self) -> Option<Hull> {
        Sheet::hull(self)
    }

    fn lines(&self) -> &[Line] {
        Sheet::lines(self)
    }

    fn place_of(&self, mark: u16) -> Option<usize> {
        self.lines.place_of(mark)
    }

    fn put_at(&mut self, _: Key, place: usize, size: u16) -> u16 {
        let Some(line) = self.lines.elements().get(place).copied() else {
            return 0;
        };
        if size <= LARGEST_SIZE {
            self.put(place, Line { laid: size, ..line });
        }
        line.laid
    }
}

impl Sheet<'_> {
    // Book and stocks come one by one, so that of each it is promised, by its name, that it means the same after; as a basis they go on from here.
    // What is checked is one function, for this check and for that under a trial: a further one for both would say this contract once more, to save the basis.
    /// Reads the laid sizes as a design, by a rule book and two stocks of any makes: it passes exactly when they are a lawful schedule, and
    /// else the first failure is named, lines and neighbours by rising mark.
    pub fn check<B: RuleBook, P: Stock, S: Stock>(
        &self,
        book: &mut B,
        plates: &mut P,
        stiffeners: &mut S,
    ) -> Result<Verdict, Refusal>
        ensures value { Checks (set_by (B.RuleBook.meaning book.old) (P.Stock.members plates.old) (S.Stock.members stiffeners.old)) (contents self.now).hull (contents self.now).lines result }
        ensures rising { climbs mark_of 0 (contents self.now).lines ≡ true }
        ensures book { B.RuleBook.meaning book.new ≡ B.RuleBook.meaning book.old }
        ensures plates { P.Stock.members plates.new ≡ P.Stock.members plates.old }
        ensures stiffeners { S.Stock.members stiffeners.new ≡ S.Stock.members stiffeners.old }
    {
        let mut basis = Basis {
            book,
            plates,
            stiffeners,
        };
        check_lines(&mut basis, self.hull(), self.lines())
    }
}
