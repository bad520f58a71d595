//! A stock that is listed row by row, in memory that is lent to it.
ghost use Rattle.std.specs.Prelude.{◌≡◌, ◌-◌, ◌≤◌, true, length, drop, replicate};
ghost use Rattle.register.specs.Keys.{climbs, each};
ghost use Rattle.register.specs.Registers.{elements_of};
ghost use Rattle.stocks.specs.RowLists.{no_row, size_of, is_small};

use crate::row::Row;
use register::Register;

pub mod methods;

/// Rows by rising size, no two of one size, each from 1 to 60,000.
#[derive(Drop)]
pub struct Rows<'a> {
    rows: Register<'a, Row>,
    ghost fits: { rows.count ≤ length rows.slots.now },
    ghost rest: { drop rows.count rows.slots.now ≡ replicate (length rows.slots.now - rows.count) no_row },
    ghost climbing: { climbs size_of 0 (elements_of rows) ≡ true },
    ghost within: { each is_small (elements_of rows) ≡ true },
}
