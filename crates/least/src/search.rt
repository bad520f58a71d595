//! The search: sizes that are raised until every line bears the pulls on it.
ghost use Rattle.std.specs.Prelude.{◌≡◌, ◌≤◌, max, length, slice_index};
ghost use Rattle.terms.specs.Stocks.{AtLeast};
ghost use Rattle.design.specs.Jobs.{job_of, Kept};
ghost use Rattle.design.specs.Schedules.{pull};
ghost use Rattle.design.specs.Settings.{stock_for};
ghost use Rattle.least.specs.Least.{Searched};
ghost use Rattle.least.specs.Steps.{Ready, Readied, Step, Touching, AllNoted, Holds, HoldTo};

use crate::pairs::Pair;
use design::basis::DesignBasis;
use design::job::Job;
use design::line::Line;
use terms::limits::MOST_LINES;

/// A job, and the sizes of its lines so far, in an array of which only the places of lines count: sizes are written by place, and with a list of its own length
/// each clause would speak of the items of that list, and map the answer to them. That the sizes are fair once the search has begun stands in the clauses: with a
/// ghost field that says it, a loan of the job got no proof.
#[derive(Drop)]
pub(crate) struct Search<'j, D> {
    pub(crate) job: Job<'j, D>,
    pub(crate) sizes: [u16; MOST_LINES],
}

impl<D: DesignBasis> Search<'_, D> {
    // The smallest size in a line's stock that is at least its laid and its own size.
    fn first_size(&mut self, line: Line) -> Option<u16>
        ensures value { AtLeast (stock_for (D.setting self.old.job.basis.now) self.old.job.hull line.entry) (max ((D.setting self.old.job.basis.now).rules.own self.old.job.hull line.entry) line.laid) result }
        ensures kept { Kept D.setting D.lenders self.old.job self.new.job }
        ensures sizes { self.new.sizes ≡ self.old.sizes }
    {
        let hull = self.job.hull;
        let own = self.job.basis.own_size(hull, line.entry);
        let floor = own.max(line.laid);
        self.job.basis.next_size(hull, line.entry, floor)
    }

    /// Gives each line its first size, by its place, since a question may change the basis; none if a line has none.
    pub(crate) fn start(&mut self) -> Option<()>
        requires { length self.old.job.lines.now ≤ MOST_LINES }
        ensures kept { Kept D.setting D.lenders self.old.job self.new.job }
        ensures begun { Readied (job_of D.setting self.old.job) self.new.sizes result }
    {
        for (i, line) in self.job.lines.iter().enumerate() {
            self.sizes[i] = self.first_size(*line)?;
        }
        Some(())
    }

    // The pull of a pair's second line on its first, at the size that the second has so far.
    fn pull_on(&mut self, pair: Pair) -> u16
        requires pair { Touching self.old.job.lines.now pair }
        requires ready { Ready (job_of D.setting self.old.job) self.old.sizes }
        ensures value { result ≡ pull (job_of D.setting self.old.job) pair.line pair.by (slice_index self.old.sizes pair.by) }
        ensures kept { Kept D.setting D.lenders self.old.job self.new.job }
        ensures sizes { self.new.sizes ≡ self.old.sizes }
    {
        let line = self.job.lines[usize::from(pair.line)];
        let other = self.job.lines[usize::from(pair.by)];
        let size = self.sizes[usize::from(pair.by)];
        self.job.pull(line, other, size)
    }

    // Raises the size of a pair's first line to the pull of its second: whether it was below it. None if it would pass the end of its stock.
    fn lift(&mut self, pair: Pair) -> Option<bool>
        requires pair { Touching self.old.job.lines.now pair }
        requires ready { Ready (job_of D.setting self.old.job) self.old.sizes }
        ensures kept { Kept D.setting D.lenders self.old.job self.new.job }
        ensures step { Step (job_of D.setting self.old.job) (Holds pair) self.old.sizes self.new.sizes result }
    {
        let pull = self.pull_on(pair);
        let i = usize::from(pair.line);
        if pull <= self.sizes[i] {
            return Some(false);
        }
        let hull = self.job.hull;
        let line = self.job.lines[i];
        self.sizes[i] = self.job.basis.next_size(hull, line.entry, pull)?;
        Some(true)
    }

    // Goes over the pairs once: whether a size was raised. None if one would pass the end of its stock.
    // Not inlined, since made into one loop with the rounds it runs slower.
    #[inline(never)]
    fn round(&mut self, pairs: &[Pair]) -> Option<bool>
        requires pairs { AllNoted self.old.job.lines.now pairs.now }
        requires ready { Ready (job_of D.setting self.old.job) self.old.sizes }
        ensures kept { Kept D.setting D.lenders self.old.job self.new.job }
        ensures step { Step (job_of D.setting self.old.job) (HoldTo pairs.now) self.old.sizes self.new.sizes result }
    {
        let mut is_raised = false;
        for pair in pairs {
            is_raised |= self.lift(*pair)?;
        }
        Some(is_raised)
    }

    /// Goes round until no size is raised; none if one would pass the end of its stock.
    pub(crate) fn climb(&mut self, pairs: &[Pair]) -> Option<()>
        requires pairs { AllNoted self.old.job.lines.now pairs.now }
        requires ready { Ready (job_of D.setting self.old.job) self.old.sizes }
        ensures kept { Kept D.setting D.lenders self.old.job self.new.job }
        ensures least { Searched (job_of D.setting self.old.job) self.new.sizes result }
    {
        while self.round(pairs)? {}
        Some(())
    }
}
