//! The search for the least lawful schedule.
#![tactic(auto)]

ghost use Rattle.std.specs.Prelude.{◌≡◌};
ghost use Rattle.design.specs.Settings.{StillLent};
ghost use Rattle.design.specs.Schedules.{job};
ghost use Rattle.least.specs.Least.{ScheduledBy};

use crate::pairs::{Pairs, note_touching};
use crate::search::Search;
use design::basis::DesignBasis;
use design::job::Job;
use design::line::Line;
use terms::hull::Hull;
use terms::limits::MOST_LINES;

mod pairs;
mod search;

// Basis, hull and lines come one by one, as the caller has them, and the basis is promised to mean the same after: made into a job before, it would be the job
// of which that is said, and the caller would have to carry it over to the basis. None stands for too many lines too: a sheet, which alone asks, never has
// more, so that nobody would read an answer that tells the two apart.
/// The least lawful schedule of up to 96 lines, in the order of the lines; none where no schedule is lawful, or there are more lines.
pub fn least_schedule<D: DesignBasis>(
    basis: &mut D,
    hull: Hull,
    lines: &[Line],
) -> Option<[u16; MOST_LINES]>
    ensures kept { StillLent D.setting D.lenders basis.old basis.new }
    ensures least { ScheduledBy (job (D.setting basis.old) hull lines.now) result }
{
    if lines.len() > MOST_LINES {
        return None;
    }
    let mut pairs = Pairs::new();
    note_touching(lines, &mut pairs);
    let mut search = Search {
        job: Job { basis, hull, lines },
        sizes: [0; MOST_LINES],
    };
    search.start()?;
    search.climb(&pairs)?;
    Some(search.sizes)
}
