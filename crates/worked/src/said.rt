//! What the worked cases share: a boat, lines, memory, and answers in numbers.
use design::line::Line;
use design::verdict::Verdict;
use terms::entry::Entry;
use terms::hull::Hull;
use terms::refusal::Refusal;

pub const BOAT: Hull = Hull {
    length: 10_000,
    breadth: 3_000,
    depth: 1_500,
    draught: 800,
    water: 1,
};

/// A line with spacing 600 and span 2,200.
pub fn entry(mark: u16, kind: u8, place: u8, near: u16, far: u16) -> Entry {
    Entry {
        mark,
        kind,
        place,
        near,
        far,
        spacing: 600,
        span: 2_200,
        ..Entry::default()
    }
}

/// A bottom panel of 300 by 600.
pub fn panel(mark: u16) -> Entry {
    Entry {
        spacing: 300,
        span: 600,
        pressure: 20,
        height: 100,
        strength: 125,
        area: 40,
        ..entry(mark, 41, 0, 0, 0)
    }
}

/// A place of memory that was used before.
pub fn used() -> Line {
    Line {
        entry: panel(9),
        laid: 9,
        scheduled: 9,
    }
}

/// An answer with the number and the place of a refusal.
pub fn said<T>(answer: Result<T, Refusal>) -> Result<T, (u8, usize)> {
    answer.map_err(|refusal| (u8::from(refusal.ground), refusal.at))
}

/// What is said of a design: mark, ground and neighbour of the first failure, if there is one; or the number and the place of a refusal.
pub type Judged = Result<Result<(), (u16, u8, u16)>, (u8, usize)>;

pub fn judged(answer: Result<Verdict, Refusal>) -> Judged {
    let verdict = said(answer)?;
    Ok(verdict.map_err(|failure| (failure.mark, u8::from(failure.ground), failure.neighbour)))
}
