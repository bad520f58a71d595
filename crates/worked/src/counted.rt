//! A rule book that keeps count of its questions.
use crate::said::BOAT;
use steel::Steel;
use terms::book::RuleBook;
use terms::entry::Entry;
use terms::hull::Hull;

/// A rule book that is lent, and how often it was asked: it means what the book means.
#[derive(Drop)]
pub struct Counted<'b, B> {
    pub book: &'b mut B,
    pub asked: u64,
}

impl<B: RuleBook> RuleBook for Counted<'_, B> {
    const NUMBER: u8 = B::NUMBER;

    ghost meaning = { λ c. B.RuleBook.meaning c.book.now };

    ghost law = { λ c. B.RuleBook.law c.book.now };

    fn fits(&mut self, hull: Hull, line: Entry) -> bool {
        self.asked = self.asked.saturating_add(1);
        self.book.fits(hull, line)
    }

    fn is_plate(&mut self, hull: Hull, line: Entry) -> bool {
        self.asked = self.asked.saturating_add(1);
        self.book.is_plate(hull, line)
    }

    fn own_size(&mut self, hull: Hull, line: Entry) -> u16 {
        self.asked = self.asked.saturating_add(1);
        self.book.own_size(hull, line)
    }

    fn pull(&mut self, hull: Hull, line: Entry, neighbour: Entry, size: u16) -> u16 {
        self.asked = self.asked.saturating_add(1);
        self.book.pull(hull, line, neighbour, size)
    }
}

#[test]
fn a_book_may_count(rt: HostRuntime) {
    let wall = Entry {
        mark: 1,
        kind: 4,
        ..Entry::default()
    };
    let mut book = Steel;
    let mut counted = Counted {
        book: &mut book,
        asked: 0,
    };
    assert!(rt; counted.fits(BOAT, wall));
    assert_eq!(rt; counted.own_size(BOAT, wall), 200);
    assert_eq!(rt; counted.asked, 2);
}
