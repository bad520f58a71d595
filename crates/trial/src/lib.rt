//! A trial: a size that is laid on one line for as long as the trial is held, so that the design can be checked with it.
#![tactic(auto)]

ghost use Rattle.std.specs.Prelude.{◌≡◌, ℕ};
ghost use Rattle.register.specs.Keys.{place_of};
ghost use Rattle.design.specs.Contents.{Contents, with_lines};
ghost use Rattle.design.specs.Lines.{mark_of};
ghost use Rattle.design.specs.Settings.{set_by};
ghost use Rattle.design.specs.Verdicts.{Checks};
ghost use Rattle.trial.specs.Trials.{trial_answer, tried, lay_at, Restored, MayLay};

use design::basis::Basis;
use design::check::check_lines;
use design::line::Line;
use design::verdict::Verdict;
use terms::book::RuleBook;
use terms::ground::Ground;
use terms::hull::Hull;
use terms::limits::LARGEST_SIZE;
use terms::refusal::Refusal;
use terms::stock::Stock;

/// What holds lines, to those who hold a trial on it.
pub trait Lines {
    ghost contents: { Self → Contents };

    // The second is the first with a size laid at a place, and else the same.
    ghost laid: { Self → ℕ → ℕ → Self → Type 0 };

    /// The hull, if one is set.
    fn hull(&self) -> Option<Hull>
        ensures { result ≡ (contents self.now).hull };

    /// The lines, by rising mark.
    fn lines(&self) -> &[Line]
        ensures { result.now ≡ (contents self.now).lines };

    /// The place of the line of a mark.
    fn place_of(&self, mark: u16) -> Option<usize>
        ensures { result ≡ place_of mark_of mark (contents self.now).lines };

    // The answer is a number and no Option: a trial holds a place that is there, and wants no more of the answer than what `back` says,
    // which 0 keeps for a place past the end.
    /// Lays a size at a place, and answers what was laid there, which is 0 for a place past the end. Such a place, or a size above 60,000,
    /// changes nothing.
    fn put_at(&mut self, _: Key, place: usize, size: u16) -> u16
        ensures contents { contents self.new ≡ with_lines (contents self.old) (lay_at (contents self.old).lines place size) }
        ensures laid { laid self.old place size self.new }
        ensures back { (t : Self) → laid self.new place result t → t ≡ self.old };
}

/// Only this module makes one, so that only a trial can lay a size in passing.
#[derive(Clone, Copy)]
pub struct Key {
    of_trial: (),
}

// What lay at a place before a trial.
#[derive(Clone, Copy)]
struct Earlier {
    place: usize,
    size: u16,
}

/// A size that is laid on one line until the trial ends, on whatever way: then the earlier laid size is put back. An idle trial has laid nothing.
pub struct Trial<'t, S: Lines> {
    lines: &'t mut S,
    earlier: Option<Earlier>,
}

impl<'t, S: Lines> Drop for Trial<'t, S> {
    fn drop(self)
        ensures { Restored S.Lines.laid self.entry.lines.now self.entry.earlier self.exit.0.now }
    {
        let Trial { lines, earlier } = self;
        if let Some(Earlier { place, size }) = earlier {
            let _ = lines.put_at(Key { of_trial: () }, place, size);
        }
    }
}

// The place at which a trial of the size on the line of the mark lays it, if it may begin.
fn place_for<S: Lines>(lines: &S, mark: u16, size: u16) -> Result<usize, Refusal>
    ensures { MayLay (S.Lines.contents lines.now) mark size result }
{
    let at = usize::from(mark);
    let found = lines.place_of(mark);
    let place = found.ok_or(Ground::MarkUnknown.at(at))?;
    if size > LARGEST_SIZE {
        return Err(Ground::SizeOverLimit.at(at));
    }
    Ok(place)
}

impl<'t, S: Lines> Trial<'t, S> {
    /// The lines under the trial, by rising mark.
    pub fn lines(&self) -> &[Line]
        ensures { result.now ≡ (S.Lines.contents self.now.lines.now).lines }
    {
        self.lines.lines()
    }

    // Book and stocks come one by one, so that of each it is promised, by its name, that it means the same after; as a basis they go on from here.
    // What is checked is one function, for this check and for that of a sheet: a further one for both would say this contract once more, to save the basis.
    /// Checks the design as it stands under the trial.
    pub fn check<B: RuleBook, P: Stock, Q: Stock>(
        &self,
        book: &mut B,
        plates: &mut P,
        stiffeners: &mut Q,
    ) -> Result<Verdict, Refusal>
        ensures value { Checks (set_by (B.RuleBook.meaning book.old) (P.Stock.members plates.old) (Q.Stock.members stiffeners.old)) (S.Lines.contents self.now.lines.now).hull (S.Lines.contents self.now.lines.now).lines result }
        ensures book { B.RuleBook.meaning book.new ≡ B.RuleBook.meaning book.old }
        ensures plates { P.Stock.members plates.new ≡ P.Stock.members plates.old }
        ensures stiffeners { Q.Stock.members stiffeners.new ≡ Q.Stock.members stiffeners.old }
    {
        let mut basis = Basis {
            book,
            plates,
            stiffeners,
        };
        check_lines(&mut basis, self.lines.hull(), self.lines.lines())
    }
}

/// Trials of whatever holds lines: `sheet.trial(mark, size)`, with mark and size as a lay takes them.
pub trait Trying: Lines {
    /// Whether a trial of the size on the line of the mark may begin.
    fn may_try(&self, mark: u16, size: u16) -> Result<(), Refusal>
        ensures { result ≡ trial_answer (Self.Lines.contents self.now) mark size };

    // No Result: a trial that was begun wrongly is held like any other, and its end puts nothing back.
    /// Begins a trial, which is idle where it may not begin.
    fn trial(&mut self, mark: u16, size: u16) -> Trial<'_, Self>
    where
        Self: Sized,
        ensures name { result.lines.ghost_name ≡ self.entry.ghost_name }
        ensures tried { Self.Lines.contents result.lines.now ≡ tried (Self.Lines.contents self.old) mark size }
        ensures back { (t : Self) → Restored Self.Lines.laid result.lines.now result.earlier t → t ≡ self.old };
}

impl<S: Lines> Trying for S {
    fn may_try(&self, mark: u16, size: u16) -> Result<(), Refusal> {
        place_for(self, mark, size).map(|_| ())
    }

    fn trial(&mut self, mark: u16, size: u16) -> Trial<'_, Self> {
        let Ok(place) = place_for(&*self, mark, size) else {
            return Trial {
                lines: self,
                earlier: None,
            };
        };
        let earlier = self.put_at(Key { of_trial: () }, place, size);
        Trial {
            lines: self,
            earlier: Some(Earlier {
                place,
                size: earlier,
            }),
        }
    }
}
