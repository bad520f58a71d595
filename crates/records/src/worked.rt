//! A record worked out by hand, and what stands on a sheet that one is read into.
use design::line::Line;
use record::reading::read_into;
use sheet::sheet::Sheet;
use terms::entry::Entry;
use terms::refusal::Refusal;

/// Hull 10,000 by 3,000 by 1,500, draught 800, coastal; line 10 with 1,000 laid on it; line 20, amended; line 10 struck; the end. One byte follows.
pub const RECORD: [u8; 80] = [
    0x01, 0x27, 0x10, 0x0B, 0xB8, 0x05, 0xDC, 0x03, 0x20, 0x01, // hull, at 0
    0x02, 0x00, 0x0A, 0x15, 0x01, 0x00, 0x14, 0x00, 0x1E, 0x01, 0xF4, 0x07, 0xD0, 0x64, 0x01, 0x90,
    0x00, 0xEB, 0x27, 0x10, // enter 10, at 10
    0x05, 0x00, 0x0A, 0x03, 0xE8, // lay, at 30
    0x02, 0x00, 0x14, 0x16, 0x00, 0x00, 0x00, 0x00, 0x00, 0x00, 0x00, 0x00, 0x00, 0x00, 0x00, 0x00,
    0x00, 0x00, 0x00, 0x00, // enter 20, at 35
    0x03, 0x00, 0x14, 0x1D, 0x00, 0x00, 0x0A, 0x00, 0x00, 0x00, 0x00, 0x00, 0x00, 0x00, 0x00, 0x00,
    0x00, 0x00, 0x00, 0x00, // amend 20, at 55
    0x04, 0x00, 0x0A, // strike 10, at 75
    0xFF, // end, at 78
    0x0A,
];

/// How many bytes the record has without the one that follows.
pub const WHOLE: usize = 79;

/// What stands on a sheet: the hull's length, how many lines, and kind and laid size of the first.
#[derive(Clone, Copy, PartialEq, Eq, Debug)]
pub struct Stands {
    pub hull: Option<u16>,
    pub lines: usize,
    pub first: Option<(u8, u16)>,
}

pub const NOTHING: Stands = Stands {
    hull: None,
    lines: 0,
    first: None,
};

pub const HULL: Stands = Stands {
    hull: Some(10_000),
    lines: 0,
    first: None,
};

pub const ENTERED: Stands = Stands {
    hull: Some(10_000),
    lines: 1,
    first: Some((21, 0)),
};

pub const LAID: Stands = Stands {
    hull: Some(10_000),
    lines: 1,
    first: Some((21, 1_000)),
};

pub const TWO: Stands = Stands {
    hull: Some(10_000),
    lines: 2,
    first: Some((21, 1_000)),
};

pub const STRUCK: Stands = Stands {
    hull: Some(10_000),
    lines: 1,
    first: Some((29, 0)),
};

/// A line that is in memory before a sheet is opened over it.
pub fn blank() -> Line {
    Line {
        entry: Entry {
            mark: 9,
            kind: 9,
            place: 9,
            near: 9,
            far: 9,
            spacing: 9,
            span: 9,
            pressure: 9,
            height: 9,
            strength: 9,
            area: 9,
        },
        laid: 9,
        scheduled: 9,
    }
}

/// The number and the place of a refusal.
pub fn numbers(refusal: Refusal) -> (u8, usize) {
    (u8::from(refusal.ground), refusal.at)
}

/// What stands on a sheet.
pub fn standing(sheet: &Sheet<'_>) -> Stands {
    let lines = sheet.lines();
    Stands {
        hull: sheet.hull().map(|hull| hull.length),
        lines: lines.len(),
        first: lines.first().map(|line| (line.entry.kind, line.laid)),
    }
}

/// Reads bytes into a new sheet of three lines.
pub fn read(bytes: &[u8]) -> (Result<(), (u8, usize)>, Stands) {
    let mut memory = [blank(); 3];
    let mut sheet = Sheet::new(&mut memory);
    let answer = read_into(bytes, &mut sheet).map_err(numbers);
    (answer, standing(&sheet))
}
