//! The lines of a sheet.
ghost use Rattle.std.specs.Prelude.{◌≡◌};
ghost use Rattle.design.specs.Lines.{no_line};
ghost use Rattle.design.specs.Schedules.{naming, touching};

use register::Keyed;
use terms::entry::Entry;

/// One plate or one stiffener, in memory that its owner reads, so that numbers say what is missing: its entered values, its laid size (what is on the drawing already, 0 for nothing) and its scheduled size (0 for none).
#[derive(Clone, Copy, PartialEq, Eq, Debug, Default)]
pub struct Line {
    pub entry: Entry,
    pub laid: u16,
    pub scheduled: u16,
}

impl Line {
    /// Whether it names the other line as a neighbour. The mark 0 is no line's.
    pub fn names(self, other: Line) -> bool
        ensures { result ≡ naming self.entry other.entry }
    {
        self.entry.names(other.entry.mark) && other.entry.mark != 0
    }

    /// Whether the two touch: either names the other.
    pub fn touches(self, other: Line) -> bool
        ensures { result ≡ touching self.entry other.entry }
    {
        self.names(other) || other.names(self)
    }
}

impl Keyed for Line {
    ghost key = { λ l. l.entry.mark };

    ghost vacant = { no_line };

    fn key_of(&self) -> u16 {
        self.entry.mark
    }

    fn vacancy() -> Line {
        Line::default()
    }
}
