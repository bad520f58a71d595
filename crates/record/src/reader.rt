//! A reader that goes along a record.
ghost use Rattle.std.specs.Prelude.{◌≡◌, ◌+◌, ◌≤◌, length, drop, slice_index};
ghost use Rattle.record.specs.Reading.{Told, OneAnswer};
ghost use Rattle.record.specs.Parts.{Fronts, Awaits};

use crate::calls::{entry, hull, lay, strike};
use crate::command::Command;
use crate::placed::{Placed, Stage};
use sheet::call::Call;
use terms::ground::Ground;
use terms::refusal::Refusal;

/// Goes along the bytes of a record, of which it takes no copy, and gives its calls one by one. The offset stands beside the whole record, since it is the place
/// of calls and of refusals.
#[derive(Drop)]
pub struct Reader<'r> {
    bytes: &'r [u8],
    at: usize,
    stage: Stage,
    ghost within: { at ≤ length bytes.now },
}

impl<'r> Reader<'r> {
    /// A reader before the first byte of a record. What it answers, from there on, follows from the bytes alone.
    pub fn new(bytes: &'r [u8]) -> Reader<'r>
        ensures once { OneAnswer }
        ensures bytes { result.bytes.now ≡ bytes.now }
        ensures at { result.at ≡ 0 }
        ensures stage { result.stage ≡ Stage.BeforeHull }
    {
        Reader {
            bytes,
            at: 0,
            stage: Stage::BeforeHull,
        }
    }

    // The bytes that are not read yet.
    fn rest(&self) -> &'r [u8]
        ensures value { result.now ≡ drop self.now.at self.now.bytes.now }
        ensures len { length result.now + self.now.at ≡ length self.now.bytes.now }
    {
        &self.bytes[self.at..]
    }

    // Moves over a call that was read, if it was whole. The width comes beside it, since a call that was cut short has one too.
    fn step(&mut self, read: Option<Call>, width: usize) -> Result<Option<Placed>, Refusal>
        requires turn { Awaits self.old.stage (slice_index (drop self.old.at self.old.bytes.now) 0) width }
        requires read { Fronts width read (drop self.old.at self.old.bytes.now) }
        ensures same { self.new.bytes.now ≡ self.old.bytes.now }
        ensures told { Told self.old.bytes.now self.old.at self.old.stage result self.new.at self.new.stage }
    {
        let at = self.at;
        let call = read.ok_or(Ground::OperandsCutShort.at(at))?;
        self.stage = Stage::Body;
        self.at += width;
        Ok(Some(Placed { at, call }))
    }

    // Not as an iterator: a refusal leaves the reader as it was, so that a loop over one would never end.
    /// The next call of the record with its place, or none once the end has been read. A refusal leaves the reader as it was.
    pub fn next_call(&mut self) -> Result<Option<Placed>, Refusal>
        ensures same { self.new.bytes.now ≡ self.old.bytes.now }
        ensures told { Told self.old.bytes.now self.old.at self.old.stage result self.new.at self.new.stage }
    {
        if self.stage == Stage::Ended {
            return Ok(None);
        }
        let at = self.at;
        let rest = self.rest();
        let byte = rest.first().ok_or(Ground::EndMissing.at(at))?;
        let command = Command::try_from(*byte).map_err(|ground| ground.at(at))?;
        // the hull comes first, and no other one comes after it
        if (command == Command::Hull) != (self.stage == Stage::BeforeHull) {
            return Err(Ground::HullOutOfOrder.at(at));
        }
        match command {
            Command::Hull => self.step(hull(rest), 10),
            Command::Enter => self.step(entry(rest).map(Call::Enter), 20),
            Command::Amend => self.step(entry(rest).map(Call::Amend), 20),
            Command::Strike => self.step(strike(rest), 3),
            Command::Lay => self.step(lay(rest), 5),
            Command::End if rest.len() > 1 => Err(Ground::BytesAfterEnd.at(at + 1)),
            Command::End => {
                self.stage = Stage::Ended;
                self.at += 1;
                Ok(None)
            }
        }
    }
}
