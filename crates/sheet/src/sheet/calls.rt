//! The calls of a sheet.
ghost use Rattle.std.specs.Prelude.{◌≡◌, min, length};
ghost use Rattle.sheet.specs.declared.call.Call.TheVariants as call;
ghost use Rattle.sheet.specs.Calls.{Does, scheduled_size};
ghost use Rattle.design.specs.Contents.{new_sheet};
ghost use Rattle.sheet.specs.Sheets.{contents, lines_of};

use super::Sheet;
use crate::call::Call;
use design::line::Line;
use register::Register;
use terms::entry::Entry;
use terms::ground::Ground;
use terms::hull::Hull;
use terms::limits::{LARGEST_SIZE, MOST_LINES};
use terms::refusal::Refusal;

impl<'a> Sheet<'a> {
    /// A sheet with no hull and no line, unsettled, over the first 96 lines of the memory, or all of it where that is shorter.
    pub fn new(memory: &'a mut [Line]) -> Sheet<'a>
        ensures { contents result ≡ new_sheet (min (length memory.old) 96) }
    {
        let room = memory.len().min(MOST_LINES);
        let (front, _) = memory.split_at_mut(room);
        let lines = Register::new(front);
        Sheet {
            lines,
            hull: None,
            settled: false,
        }
    }

    /// The lines, by rising mark.
    pub fn lines(&self) -> &[Line]
        ensures { result.now ≡ lines_of self.now }
    {
        self.lines.elements()
    }

    /// The hull, if one is set.
    pub fn hull(&self) -> Option<Hull>
        ensures { result ≡ (contents self.now).hull }
    {
        self.hull
    }

    /// Carries out one call.
    pub fn carry_out(&mut self, change: Call) -> Result<(), Refusal>
        ensures { Does (contents self.old) change result (contents self.new) }
    {
        match change {
            Call::Hull(hull) => self.set_hull(hull),
            Call::Enter(entry) => self.enter(entry),
            Call::Amend(entry) => self.amend(entry),
            Call::Strike(mark) => self.strike(mark),
            Call::Lay(mark, size) => self.lay(mark, size),
        }
    }

    /// Sets or replaces the hull.
    pub fn set_hull(&mut self, hull: Hull) -> Result<(), Refusal>
        ensures { Does (contents self.old) (call.Hull hull) result (contents self.new) }
    {
        hull.check_limits()?;
        self.hull = Some(hull);
        self.unsettle();
        Ok(())
    }

    /// Adds a line with nothing laid.
    pub fn enter(&mut self, entry: Entry) -> Result<(), Refusal>
        ensures { Does (contents self.old) (call.Enter entry) result (contents self.new) }
    {
        let at = usize::from(entry.mark);
        if entry.mark == 0 {
            return Err(Ground::MarkZero.at(at));
        }
        if self.find(entry.mark).is_ok() {
            return Err(Ground::MarkTaken.at(at));
        }
        entry.check_limits()?;
        self.add(Line {
            entry,
            ..Line::default()
        })?;
        self.unsettle();
        Ok(())
    }

    /// Replaces the entered values of a line, and leaves its laid size.
    pub fn amend(&mut self, entry: Entry) -> Result<(), Refusal>
        ensures { Does (contents self.old) (call.Amend entry) result (contents self.new) }
    {
        let (place, line) = self.find(entry.mark)?;
        entry.check_limits()?;
        self.put(place, Line { entry, ..line });
        self.unsettle();
        Ok(())
    }

    /// Removes a line; later lines move down, and the place left over is free again.
    pub fn strike(&mut self, mark: u16) -> Result<(), Refusal>
        ensures { Does (contents self.old) (call.Strike mark) result (contents self.new) }
    {
        let (place, _) = self.find(mark)?;
        self.remove(place);
        self.unsettle();
        Ok(())
    }

    // What is asked is asked of a trial too, apart: a lay wants the line, with its limits, and a trial no more than the place.
    /// Lays a size on a line, up or down; 0 takes it away.
    pub fn lay(&mut self, mark: u16, size: u16) -> Result<(), Refusal>
        ensures { Does (contents self.old) (call.Lay mark size) result (contents self.new) }
    {
        let (place, line) = self.find(mark)?;
        if size > LARGEST_SIZE {
            return Err(Ground::SizeOverLimit.at(mark.into()));
        }
        self.put(place, Line { laid: size, ..line });
        self.unsettle();
        Ok(())
    }

    /// The scheduled size of the line of a mark, once the sheet is settled.
    pub fn scheduled_size(&self, mark: u16) -> Result<u16, Refusal>
        ensures { result ≡ scheduled_size (contents self.now) mark }
    {
        if !self.settled {
            return Err(Ground::NotSettled.at(mark.into()));
        }
        let (_, line) = self.find(mark)?;
        Ok(line.scheduled)
    }
}
