//! Laid sizes, judged as a design.
ghost use Rattle.std.specs.Prelude.{◌≡◌, ◌<◌, ◌&&◌, length, find, nat_lt, Ok};
ghost use Rattle.terms.specs.declared.ground.Ground.TheVariants.{NeighbourMissing, LineUnfit};
ghost use Rattle.design.specs.Settings.{StillLent};
ghost use Rattle.design.specs.Jobs.{job_of, Kept};
ghost use Rattle.design.specs.Lines.{there_in};
ghost use Rattle.design.specs.Schedules.{touching, laid_sizes};
ghost use Rattle.design.specs.Verdicts.{missing, names_missing, unfit, refused_by, ready_hull, Pulled, Failing, Judged, Checks};

use crate::basis::DesignBasis;
use crate::job::Job;
use crate::line::Line;
use crate::verdict::{Failure, Shortfall, Verdict};
use terms::entry::Entry;
use terms::ground::Ground;
use terms::hull::Hull;
use terms::refusal::Refusal;

// Whether a line has the mark.
fn has_mark(lines: &[Line], mark: u16) -> bool
    ensures { result ≡ there_in mark lines.now }
{
    lines.iter().any(|line| line.entry.mark == mark)
}

// Whether a neighbour is named that is not there.
fn is_missing(lines: &[Line], mark: u16) -> bool
    ensures { result ≡ missing lines.now mark }
{
    mark != 0 && !has_mark(lines, mark)
}

fn has_missing_neighbour(lines: &[Line], line: Entry) -> bool
    ensures { result ≡ names_missing lines.now line }
{
    is_missing(lines, line.near) || is_missing(lines, line.far)
}

// The first line that names a neighbour that is not there.
fn first_without_neighbour(lines: &[Line]) -> Option<Line>
    ensures { result ≡ find (λ l. names_missing lines.now l.entry) lines.now }
{
    lines
        .iter()
        .copied()
        .find(|line| has_missing_neighbour(lines, line.entry))
}

// Refused at the mark of that line, if there is one.
fn check_neighbours(lines: &[Line]) -> Result<(), Refusal>
    ensures { result ≡ refused_by NeighbourMissing (find (λ l. names_missing lines.now l.entry) lines.now) (Ok tt) }
{
    match first_without_neighbour(lines) {
        Some(line) => Err(Ground::NeighbourMissing.at(line.entry.mark.into())),
        None => Ok(()),
    }
}

// A question may change the basis, and of a closure that does so the proof knows nothing afterwards: so there are loops here.
impl<D: DesignBasis> Job<'_, D> {
    // Refused at the mark of the first line that does not fit.
    fn check_fits(&mut self) -> Result<(), Refusal>
        ensures value { result ≡ refused_by LineUnfit (find (λ l. unfit (D.setting self.old.basis.now) self.old.hull l.entry) self.old.lines.now) (Ok tt) }
        ensures kept { Kept D.setting D.lenders self.old self.new }
    {
        for line in self.lines {
            if !self.basis.fits(self.hull, line.entry) {
                return Err(Ground::LineUnfit.at(line.entry.mark.into()));
            }
        }
        Ok(())
    }

    // Whether the line touches another, which obliges it to more than its laid size.
    fn is_below_pull(&mut self, line: Line, other: Line) -> bool
        ensures value { result ≡ (touching line.entry other.entry && nat_lt line.laid ((D.setting self.old.basis.now).rules.pull self.old.hull line.entry other.entry other.laid)) }
        ensures kept { Kept D.setting D.lenders self.old self.new }
    {
        line.touches(other) && line.laid < self.pull(line, other, other.laid)
    }

    // Fails with the mark of the first line whose pull line i does not bear: the mark alone, since line and ground are known to whoever asks.
    fn check_pulls(&mut self, i: usize) -> Result<(), u16>
        requires { i < length self.old.lines.now }
        ensures value { Pulled (job_of D.setting self.old) i result }
        ensures kept { Kept D.setting D.lenders self.old self.new }
    {
        let line = self.lines[i];
        for other in self.lines {
            if self.is_below_pull(line, *other) {
                return Err(other.entry.mark);
            }
        }
        Ok(())
    }

    // Fails where line i does, in the order of the grounds.
    fn check_line(&mut self, i: usize) -> Result<(), Failure>
        requires { i < length self.old.lines.now }
        ensures value { Failing (job_of D.setting self.old) i result }
        ensures kept { Kept D.setting D.lenders self.old self.new }
    {
        let line = self.lines[i];
        let failure = |ground, neighbour| Failure {
            mark: line.entry.mark,
            ground,
            neighbour,
        };
        if !self.basis.is_stocked(self.hull, line.entry, line.laid) {
            return Err(failure(Shortfall::NotInStock, 0));
        }
        if line.laid < self.basis.own_size(self.hull, line.entry) {
            return Err(failure(Shortfall::BelowOwnSize, 0));
        }
        self.check_pulls(i)
            .map_err(|neighbour| failure(Shortfall::BelowPull, neighbour))
    }

    // The first failure of the laid sizes, line by line: by places alone, as the lines are the job's, and it is by places that a
    // schedule is lawful.
    fn judge(&mut self) -> Verdict
        ensures value { Judged (job_of D.setting self.old) (laid_sizes (job_of D.setting self.old)) result }
        ensures kept { Kept D.setting D.lenders self.old self.new }
    {
        for i in 0..self.lines.len() {
            self.check_line(i)?;
        }
        Ok(())
    }
}

// Basis, hull and lines come one by one, and no job is answered: it would hold the loans of the basis and the lines, which the caller still needs.
/// What is asked before lines are judged or settled: the hull, where there is one, all named neighbours are there and all lines fit.
/// Else the first question with a no; for neighbours and fits at the mark of the first line that fails.
pub fn ready_hull<D: DesignBasis>(
    basis: &mut D,
    hull: Option<Hull>,
    lines: &[Line],
) -> Result<Hull, Refusal>
    ensures value { result ≡ ready_hull (D.setting basis.old) hull lines.now }
    ensures kept { StillLent D.setting D.lenders basis.old basis.new }
{
    let hull = hull.ok_or(Ground::HullMissing.at(0))?;
    check_neighbours(lines)?;
    let mut job = Job { basis, hull, lines };
    job.check_fits()?;
    Ok(hull)
}

// Basis, hull and lines come one by one, since the hull may be missing, and a job has one.
/// Reads the laid sizes as a design: it passes exactly when they are a lawful schedule, and else the first failure is named, lines and
/// neighbours in the order in which they stand.
pub fn check_lines<D: DesignBasis>(
    basis: &mut D,
    hull: Option<Hull>,
    lines: &[Line],
) -> Result<Verdict, Refusal>
    ensures value { Checks (D.setting basis.old) hull lines.now result }
    ensures kept { StillLent D.setting D.lenders basis.old basis.new }
{
    let hull = ready_hull(basis, hull, lines)?;
    let mut job = Job { basis, hull, lines };
    Ok(job.judge())
}
