//! A sheet over memory that is lent to it.
ghost use Rattle.std.specs.Prelude.{◌≡◌, ◌-◌, ◌≤◌, true, length, drop, replicate};
ghost use Rattle.register.specs.Keys.{climbs, each};
ghost use Rattle.register.specs.Registers.{elements_of, room_of};
ghost use Rattle.design.specs.Lines.{no_line, mark_of, line_kept, hull_kept};

use design::line::Line;
use register::Register;
use terms::hull::Hull;

pub mod calls;
mod parts;
pub mod settling;
pub mod tried;

/// One hull and up to 96 lines by rising mark. Settled says that the scheduled sizes are those of the lines as they stand.
#[derive(Drop)]
pub struct Sheet<'a> {
    lines: Register<'a, Line>,
    hull: Option<Hull>,
    // A flag about all lines, beside their sizes, which are the caller's to read from the memory that is lent.
    settled: bool,
    ghost fits: { lines.count ≤ length lines.slots.now },
    ghost rest: { drop lines.count lines.slots.now ≡ replicate (length lines.slots.now - lines.count) no_line },
    ghost small: { room_of lines ≤ 96 },
    ghost climbing: { climbs mark_of 0 (elements_of lines) ≡ true },
    ghost proper: { hull_kept hull ≡ true },
    ghost limits: { each line_kept (elements_of lines) ≡ true },
}
