//! What one member needs by itself, from any rule book and two stocks.
ghost use Rattle.std.specs.Prelude.{◌≡◌, Some};
ghost use Rattle.terms.specs.Questions.{first_no, refused_at};
ghost use Rattle.needs.specs.Shown.{need_text, size_text};
ghost use Rattle.needs.specs.Needs.{Needs, entry_questions};

use std::fmt;
use terms::book::RuleBook;
use terms::entry::Entry;
use terms::ground::Ground;
use terms::hull::Hull;
use terms::hundredths::Hundredths;
use terms::limits::LARGEST_SIZE;
use terms::refusal::Refusal;
use terms::stock::Stock;

/// A member's own size, and the size to order for it: the smallest in stock that is no less, if there is one.
#[derive(Clone, Copy)]
pub struct Need {
    pub mark: u16,
    pub own: u16,
    pub order: Option<u16>,
}

// A size that ended just above the largest is known only to be above it.
#[derive(Clone, Copy)]
struct OwnSize(u16);

impl fmt::Display for OwnSize {
    ghost output = { λ n. Some (size_text n.0) };

    fn fmt<W: fmt::Write>(&self, f: &mut fmt::Formatter<W>) -> fmt::Result {
        if self.0 > LARGEST_SIZE {
            f.write_str("above 600.00")
        } else {
            write!(f, "{}", Hundredths(self.0))
        }
    }
}

impl fmt::Display for Need {
    ghost output = { λ n. Some (need_text n) };

    fn fmt<W: fmt::Write>(&self, f: &mut fmt::Formatter<W>) -> fmt::Result {
        let mark = self.mark;
        let own = OwnSize(self.own);
        match self.order {
            Some(size) => {
                let order = Hundredths(size);
                write!(f, "{mark} own {own} order {order}")
            }
            None => write!(f, "{mark} own {own} none large enough"),
        }
    }
}

// Refused at its mark where a member is before a book is asked.
fn check_entered(line: Entry) -> Result<(), Refusal>
    ensures { result ≡ refused_at line.mark (first_no (entry_questions line)) }
{
    if line.mark == 0 {
        return Err(Ground::MarkZero.at(0));
    }
    line.check_limits()
}

// Book and stocks come one by one, so that of each it is promised, by its name, that it means the same after. They are not made a design basis, which would choose the
// stock: members need no lines, and rest on the vocabulary alone.
/// What a member needs by itself. Refused at its mark where an entered value is, or where the book has no rule for it.
pub fn needed<B: RuleBook, P: Stock, S: Stock>(
    book: &mut B,
    plates: &mut P,
    stiffeners: &mut S,
    hull: Hull,
    line: Entry,
) -> Result<Need, Refusal>
    ensures value { Needs (B.RuleBook.meaning book.old) (P.Stock.members plates.old) (S.Stock.members stiffeners.old) hull line result }
    ensures book { B.RuleBook.meaning book.new ≡ B.RuleBook.meaning book.old }
    ensures plates { P.Stock.members plates.new ≡ P.Stock.members plates.old }
    ensures stiffeners { S.Stock.members stiffeners.new ≡ S.Stock.members stiffeners.old }
{
    check_entered(line)?;
    if !book.fits(hull, line) {
        return Err(Ground::LineUnfit.at(usize::from(line.mark)));
    }
    let own = book.own_size(hull, line);
    let order = if book.is_plate(hull, line) {
        plates.at_least(own)
    } else {
        stiffeners.at_least(own)
    };
    Ok(Need {
        mark: line.mark,
        own,
        order,
    })
}
