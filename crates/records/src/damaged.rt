//! The record, cut at every length, and with one byte changed.
use crate::worked::*;
use record::reader::Reader;
use std::process::Abort;

// A command of the record: where it begins, where the next one does, and what stands before it.
struct Command {
    start: usize,
    next: usize,
    before: Stands,
}

const COMMANDS: [Command; 7] = [
    Command {
        start: 0,
        next: 10,
        before: NOTHING,
    },
    Command {
        start: 10,
        next: 30,
        before: HULL,
    },
    Command {
        start: 30,
        next: 35,
        before: ENTERED,
    },
    Command {
        start: 35,
        next: 55,
        before: LAID,
    },
    Command {
        start: 55,
        next: 75,
        before: TWO,
    },
    Command {
        start: 75,
        next: 78,
        before: TWO,
    },
    Command {
        start: 78,
        next: 79,
        before: STRUCK,
    },
];

// The record ends before the command, or in it.
fn cut_in(rt: &impl Abort, command: &Command) {
    for length in command.start..command.next {
        assert!(rt; length <= RECORD.len());
        let number = if length == command.start { 55 } else { 53 };
        assert_eq!(rt;
            read(&RECORD[0..length]),
            (Err((number, command.start)), command.before)
        );
    }
}

#[test]
fn cut_at_every_length(rt: HostRuntime) {
    for command in &COMMANDS {
        cut_in(&rt, command);
    }
    assert_eq!(rt; read(&RECORD[0..WHOLE]), (Ok(()), STRUCK));
    assert_eq!(rt; read(&RECORD), (Err((54, WHOLE)), STRUCK));
}

// One byte of the whole record is changed: number and place of the refusal, and what stands.
struct Damage {
    at: usize,
    byte: u8,
    refused: (u8, usize),
    stands: Stands,
}

const DAMAGES: [Damage; 22] = [
    // an unknown byte, the end, or another command, in place of the hull
    Damage {
        at: 0,
        byte: 0x00,
        refused: (51, 0),
        stands: NOTHING,
    },
    Damage {
        at: 0,
        byte: 0xFE,
        refused: (51, 0),
        stands: NOTHING,
    },
    Damage {
        at: 0,
        byte: 0xFF,
        refused: (52, 0),
        stands: NOTHING,
    },
    Damage {
        at: 0,
        byte: 0x05,
        refused: (52, 0),
        stands: NOTHING,
    },
    // a hull that is refused: length 16, water 2
    Damage {
        at: 1,
        byte: 0x00,
        refused: (11, 0),
        stands: NOTHING,
    },
    Damage {
        at: 9,
        byte: 0x02,
        refused: (15, 0),
        stands: NOTHING,
    },
    // a second hull, an unknown byte, and the end, after the hull
    Damage {
        at: 10,
        byte: 0x01,
        refused: (52, 10),
        stands: HULL,
    },
    Damage {
        at: 10,
        byte: 0x99,
        refused: (51, 10),
        stands: HULL,
    },
    Damage {
        at: 10,
        byte: 0xFF,
        refused: (54, 11),
        stands: HULL,
    },
    // a line at place 3, its own neighbour, under 101 kN/m², at height 4,240
    Damage {
        at: 14,
        byte: 0x03,
        refused: (24, 10),
        stands: HULL,
    },
    Damage {
        at: 16,
        byte: 0x0A,
        refused: (25, 10),
        stands: HULL,
    },
    Damage {
        at: 23,
        byte: 0x65,
        refused: (26, 10),
        stands: HULL,
    },
    Damage {
        at: 24,
        byte: 0x10,
        refused: (26, 10),
        stands: HULL,
    },
    // laid on a line that is not there, and above the largest size
    Damage {
        at: 32,
        byte: 0x0B,
        refused: (23, 30),
        stands: ENTERED,
    },
    Damage {
        at: 33,
        byte: 0xEB,
        refused: (28, 30),
        stands: ENTERED,
    },
    // a mark that is taken, and mark 0
    Damage {
        at: 37,
        byte: 0x0A,
        refused: (22, 35),
        stands: LAID,
    },
    Damage {
        at: 37,
        byte: 0x00,
        refused: (21, 35),
        stands: LAID,
    },
    // amended and struck: not there
    Damage {
        at: 57,
        byte: 0x15,
        refused: (23, 55),
        stands: TWO,
    },
    Damage {
        at: 77,
        byte: 0x0B,
        refused: (23, 75),
        stands: TWO,
    },
    // a second hull cut short is a second hull; a size laid, cut short; the end too early
    Damage {
        at: 75,
        byte: 0x01,
        refused: (52, 75),
        stands: TWO,
    },
    Damage {
        at: 75,
        byte: 0x05,
        refused: (53, 75),
        stands: TWO,
    },
    Damage {
        at: 75,
        byte: 0xFF,
        refused: (54, 76),
        stands: TWO,
    },
];

fn damaged(rt: &impl Abort, damage: &Damage) {
    let mut bytes = RECORD;
    assert!(rt; damage.at < bytes.len());
    bytes[damage.at] = damage.byte;
    assert_eq!(rt;
        read(&bytes[0..WHOLE]),
        (Err(damage.refused), damage.stands)
    );
}

#[test]
fn one_byte_changed(rt: HostRuntime) {
    for damage in &DAMAGES {
        damaged(&rt, damage);
    }
    assert_eq!(rt; read(&[0xFF]), (Err((52, 0)), NOTHING));
}

// The place of the next call, or none at the end.
fn told(reader: &mut Reader<'_>) -> Result<Option<usize>, (u8, usize)> {
    let next = reader.next_call().map_err(numbers)?;
    Ok(next.map(|placed| placed.at))
}

#[test]
fn asked_again(rt: HostRuntime) {
    let mut reader = Reader::new(&RECORD[0..33]);
    assert_eq!(rt; told(&mut reader), Ok(Some(0)));
    assert_eq!(rt; told(&mut reader), Ok(Some(10)));
    assert_eq!(rt; told(&mut reader), Err((53, 30)));
    assert_eq!(rt; told(&mut reader), Err((53, 30)));
    let mut ended = Reader::new(&[0x01, 0, 0, 0, 0, 0, 0, 0, 0, 0, 0xFF]);
    assert_eq!(rt; told(&mut ended), Ok(Some(0)));
    assert_eq!(rt; told(&mut ended), Ok(None));
    assert_eq!(rt; told(&mut ended), Ok(None));
}
