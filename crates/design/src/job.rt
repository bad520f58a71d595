//! A job, which is what a schedule is for.
ghost use Rattle.std.specs.Prelude.{◌≡◌};
ghost use Rattle.design.specs.Jobs.{Kept};

use crate::basis::DesignBasis;
use crate::line::Line;
use terms::hull::Hull;

/// What a schedule is for: lines, by their places from 0 on, on a hull, by a design basis that is lent. A method that asks the basis may change it, and says for
/// itself that the job is kept: a type speaks of one state, and this is of two.
#[derive(Drop)]
pub struct Job<'j, D> {
    pub basis: &'j mut D,
    pub hull: Hull,
    pub lines: &'j [Line],
}

impl<D: DesignBasis> Job<'_, D> {
    /// The size to which another line of this size obliges the line, if the two touch.
    pub fn pull(&mut self, line: Line, other: Line, size: u16) -> u16
        ensures value { result ≡ (D.setting self.old.basis.now).rules.pull self.old.hull line.entry other.entry size }
        ensures kept { Kept D.setting D.lenders self.old self.new }
    {
        self.basis.pull(self.hull, line.entry, other.entry, size)
    }
}
