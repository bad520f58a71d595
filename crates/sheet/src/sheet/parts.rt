//! What the calls of a sheet are made of.
ghost use Rattle.std.specs.Prelude.{◌≡◌, ◌<◌, true, length, None, is_ok, if◌then◌else◌, slice_index_or, slice_set};
ghost use Rattle.std.specs.List.{remove};
ghost use Rattle.register.specs.Keys.{placed};
ghost use Rattle.register.specs.Registers.{SamePlaces};
ghost use Rattle.terms.specs.Questions.{first_no, refused_at};
ghost use Rattle.design.specs.Lines.{no_line, mark_of, line_of, line_kept, scheduled_as};
ghost use Rattle.design.specs.Contents.{with_lines, unsettled, settled_at};
ghost use Rattle.least.specs.Least.{listed};
ghost use Rattle.sheet.specs.Sheets.{contents, lines_of, Found, room_questions};

use super::Sheet;
use design::line::Line;
use register::Change;
use terms::ground::Ground;
use terms::refusal::Refusal;

// Each line gets the size of its place, 0 where there is none.
#[derive(Clone, Copy)]
struct Scheduled<'s> {
    sizes: &'s [u16],
}

impl Change<Line> for Scheduled<'_> {
    ghost gives = { λ s i l. scheduled_as (listed s.sizes.now i) l };

    fn change(&self, place: usize, line: Line) -> Line {
        let size = self.sizes.get(place).copied();
        Line {
            scheduled: size.unwrap_or(0),
            ..line
        }
    }
}

impl Sheet<'_> {
    // The line of a mark, and its place. Refused at the mark where no line has it.
    pub(super) fn find(&self, mark: u16) -> Result<(usize, Line), Refusal>
        ensures { Found mark (lines_of self.now) result }
    {
        let found = self.lines.place_of(mark);
        let place = found.ok_or(Ground::MarkUnknown.at(mark.into()))?;
        Ok((place, self.lines.elements()[place]))
    }

    pub(super) fn put(&mut self, place: usize, line: Line)
        requires place { place < length (lines_of self.old) }
        requires mark { line.entry.mark ≡ mark_of (slice_index_or (lines_of self.old) place no_line) }
        requires kept { line_kept line ≡ true }
        ensures holds { contents self.new ≡ with_lines (contents self.old) (slice_set (lines_of self.old) place line) }
        ensures places { SamePlaces self.old.lines self.new.lines }
    {
        let _ = self.lines.replace(place, line);
    }

    // Refused at its mark where no place is free.
    pub(super) fn add(&mut self, line: Line) -> Result<(), Refusal>
        requires marked { 0 < line.entry.mark }
        requires kept { line_kept line ≡ true }
        requires new { line_of line.entry.mark (lines_of self.old) ≡ None }
        ensures answer { result ≡ refused_at line.entry.mark (first_no (room_questions (contents self.old))) }
        ensures holds { contents self.new ≡ (if is_ok result then with_lines (contents self.old) (placed mark_of line (lines_of self.old)) else contents self.old) }
    {
        let added = self.lines.insert(line);
        added.or(Err(Ground::SheetFull.at(line.entry.mark.into())))
    }

    pub(super) fn remove(&mut self, place: usize)
        ensures { contents self.new ≡ with_lines (contents self.old) (remove (lines_of self.old) place) }
    {
        let _ = self.lines.remove(place);
    }

    // The scheduled sizes hold no longer: none is written.
    pub(super) fn unsettle(&mut self)
        ensures { contents self.new ≡ unsettled (contents self.old) }
    {
        self.write(&[]);
        self.settled = false;
    }

    // The sizes are those of the lines as they stand.
    pub(super) fn write(&mut self, sizes: &[u16])
        ensures { contents self.new ≡ settled_at (contents self.old) (listed sizes.now) }
    {
        self.lines.change_each(&Scheduled { sizes });
        self.settled = true;
    }
}
