//! A row of a stock.
ghost use Rattle.stocks.specs.RowLists.{no_row, size_of};

use register::Keyed;

/// A size in the store, and the number of its article.
#[derive(Clone, Copy, Default, PartialEq, Eq, Debug)]
pub struct Row {
    pub size: u16,
    pub article: u32,
}

impl Keyed for Row {
    ghost key = { size_of };

    ghost vacant = { no_row };

    fn key_of(&self) -> u16 {
        self.size
    }

    fn vacancy() -> Row {
        Row::default()
    }
}
