//! What is done with a listed stock, and what it answers.
ghost use Rattle.std.specs.Prelude.{◌≡◌, [], length, is_ok, if◌then◌else◌};
ghost use Rattle.register.specs.Keys.{placed};
ghost use Rattle.terms.specs.Stocks.{AtLeast};
ghost use Rattle.stocks.specs.RowLists.{size_of, sized, add_answer};

use super::Rows;
use crate::row::Row;
use register::Register;
use terms::ground::Ground;
use terms::limits::LARGEST_SIZE;
use terms::refusal::Refusal;
use terms::stock::Stock;

impl<'a> Rows<'a> {
    ghost use Rattle.stocks.specs.RowStocks.{rows_of, room_of};

    /// A stock with no row yet, and as many free rows as the memory has.
    pub fn new(memory: &'a mut [Row]) -> Rows<'a>
        ensures rows { rows_of result ≡ [] }
        ensures room { room_of result ≡ length memory.old }
    {
        let rows = Register::new(memory);
        Rows { rows }
    }

    // Whether a row has the size.
    fn has_size(&self, size: u16) -> bool
        ensures { result ≡ sized (rows_of self.now) size }
    {
        self.rows.place_of(size).is_some()
    }

    // The smallest size at or above `floor`: the first such row has it, since sizes rise from row to row.
    fn size_from(&self, floor: u16) -> Option<u16>
        ensures { AtLeast (sized (rows_of self.now)) floor result }
    {
        self.rows.element_from(floor).map(|row| row.size)
    }

    /// Adds a row. Refused at 0, and nothing changes, where its size is not from 1 to 60,000, another row has it, or no row is free.
    pub fn add(&mut self, row: Row) -> Result<(), Refusal>
        ensures answer { result ≡ add_answer row (rows_of self.old) (room_of self.old) }
        ensures rows { rows_of self.new ≡ (if is_ok result then placed size_of row (rows_of self.old) else rows_of self.old) }
        ensures room { room_of self.new ≡ room_of self.old }
    {
        if !(1..=LARGEST_SIZE).contains(&row.size) {
            return Err(Ground::RowSizeOutOfRange.at(0));
        }
        if self.has_size(row.size) {
            return Err(Ground::RowSizeTaken.at(0));
        }
        self.rows.insert(row).map_err(|_| Ground::RowsFull.at(0))
    }
}

impl Stock for Rows<'_> {
    ghost use Rattle.stocks.specs.RowLists.{sized, sized_ranged};
    ghost use Rattle.stocks.specs.RowStocks.{rows_of};

    ghost members = { λ s. sized (rows_of s) };

    ghost ranged = { λ s. sized_ranged (rows_of s) s.climbing s.within };

    fn holds(&mut self, size: u16) -> bool {
        self.has_size(size)
    }

    fn at_least(&mut self, floor: u16) -> Option<u16> {
        self.size_from(floor)
    }
}

#[cfg(test)]
mod tests {
    use crate::row::Row;
    use crate::rows::Rows;
    use terms::stock::Stock;

    // The number and the place of the refusal of a row of the size.
    fn refusal(rows: &mut Rows<'_>, size: u16) -> Option<(u8, usize)> {
        let refusal = rows.add(Row { size, article: 7 }).err()?;
        Some((u8::from(refusal.ground), refusal.at))
    }

    #[test]
    fn lists_rows_by_size(rt: HostRuntime) {
        let mut memory = [Row {
            size: 9,
            article: 9,
        }; 3];
        let mut rows = Rows::new(&mut memory);
        assert_eq!(rt; refusal(&mut rows, 400), None);
        assert_eq!(rt; refusal(&mut rows, 300), None);
        assert_eq!(rt; refusal(&mut rows, 500), None);
        assert_eq!(rt; refusal(&mut rows, 300), Some((63, 0)));
        assert_eq!(rt; refusal(&mut rows, 0), Some((62, 0)));
        assert_eq!(rt; refusal(&mut rows, 60_001), Some((62, 0)));
        assert_eq!(rt; refusal(&mut rows, 600), Some((64, 0)));
        assert!(rt; rows.holds(400));
        assert!(rt; !rows.holds(350));
        assert_eq!(rt; rows.at_least(0), Some(300));
        assert_eq!(rt; rows.at_least(301), Some(400));
        assert_eq!(rt; rows.at_least(501), None);
    }

    #[test]
    fn keeps_within_its_memory(rt: HostRuntime) {
        let mut memory = [Row {
            size: 0,
            article: 0,
        }];
        let mut one = Rows::new(&mut memory);
        assert_eq!(rt; refusal(&mut one, 60_000), None);
        assert_eq!(rt; one.at_least(1), Some(60_000));
        let mut nothing: [Row; 0] = [];
        let mut none = Rows::new(&mut nothing);
        assert_eq!(rt; refusal(&mut none, 1), Some((64, 0)));
        assert_eq!(rt; none.at_least(1), None);
    }
}
