//! Writing a sheet as a record, and copying it by way of one.
#![tactic(auto)]

ghost use Rattle.std.specs.Prelude.{◌≡◌, ◌+◌, ◌≤◌, [], length, Some};
ghost use Rattle.sheet.specs.declared.call.Call.TheVariants as call;
ghost use Rattle.sheet.specs.Sheets.{contents};
ghost use Rattle.record.specs.Spelling.{spelled};
ghost use Rattle.writer.specs.Putting.{Puts};
ghost use Rattle.writer.specs.Writing.{Wrote, over, record_of, line_bytes, lines_bytes};

use design::line::Line;
use record::command::Command;
use sheet::sheet::Sheet;
use terms::entry::Entry;
use terms::ground::Ground;
use terms::hull::Hull;
use terms::refusal::Refusal;

pub mod copying;

fn hull_bytes(hull: Hull) -> [u8; 10]
    ensures { result ≡ spelled (call.Hull hull) [] }
{
    let [l1, l0] = hull.length.to_be_bytes();
    let [b1, b0] = hull.breadth.to_be_bytes();
    let [d1, d0] = hull.depth.to_be_bytes();
    let [t1, t0] = hull.draught.to_be_bytes();
    let command = u8::from(Command::Hull);
    [command, l1, l0, b1, b0, d1, d0, t1, t0, hull.water]
}

fn enter_bytes(entry: Entry) -> [u8; 20]
    ensures { result ≡ spelled (call.Enter entry) [] }
{
    let [m1, m0] = entry.mark.to_be_bytes();
    let [n1, n0] = entry.near.to_be_bytes();
    let [f1, f0] = entry.far.to_be_bytes();
    let [s1, s0] = entry.spacing.to_be_bytes();
    let [l1, l0] = entry.span.to_be_bytes();
    let [z1, z0] = entry.height.to_be_bytes();
    let [t1, t0] = entry.strength.to_be_bytes();
    let [a1, a0] = entry.area.to_be_bytes();
    let Entry {
        kind,
        place,
        pressure,
        ..
    } = entry;
    let command = u8::from(Command::Enter);
    [
        command, m1, m0, kind, place, n1, n0, f1, f0, s1, s0, l1, l0, pressure, z1, z0, t1, t0, a1,
        a0,
    ]
}

fn lay_bytes(mark: u16, size: u16) -> [u8; 5]
    ensures { result ≡ spelled (call.Lay mark size) [] }
{
    let [m1, m0] = mark.to_be_bytes();
    let [s1, s0] = size.to_be_bytes();
    [u8::from(Command::Lay), m1, m0, s1, s0]
}

// Goes along bytes that are written front to back. The place stands beside the whole output: of a cursor that holds only the part which is left, and moves in it, the
// proof knows nothing afterwards.
#[derive(Drop)]
struct Cursor<'o> {
    out: &'o mut [u8],
    at: usize,
}

impl Cursor<'_> {
    // Puts bytes into the part of the output from the cursor on, and moves behind them.
    fn put(&mut self, bytes: &[u8])
        requires { self.old.at + length bytes.now ≤ length self.old.out.now }
        ensures { Puts self.old self.new bytes.now }
    {
        let end = self.at + bytes.len();
        self.out[self.at..end].copy_from_slice(bytes);
        self.at = end;
    }

    // Puts a line, and what is laid on it, if anything is.
    fn put_line(&mut self, line: &Line)
        requires { self.old.at + length (line_bytes line.now) ≤ length self.old.out.now }
        ensures { Puts self.old self.new (line_bytes line.now) }
    {
        self.put(&enter_bytes(line.entry));
        if line.laid > 0 {
            self.put(&lay_bytes(line.entry.mark, line.laid));
        }
    }
}

fn put_record(out: &mut [u8], hull: Hull, lines: &[Line])
    requires { length (lines_bytes lines.now) + 11 ≤ length out.old }
    ensures { out.new ≡ over out.old 0 (record_of (Some hull) lines.now) }
{
    let mut cursor = Cursor { out, at: 0 };
    cursor.put(&hull_bytes(hull));
    for line in lines {
        cursor.put_line(line);
    }
    cursor.put(&[u8::from(Command::End)]);
}

// How many bytes a line takes.
fn line_length(line: &Line) -> usize
    ensures value { result ≡ length (line_bytes line.now) }
    ensures small { result ≤ 25 }
{
    if line.laid == 0 { 20 } else { 25 }
}

// How many bytes the record of a sheet with lines takes.
fn record_length(lines: &[Line]) -> usize
    requires { length lines.now ≤ 96 }
    ensures { result ≡ length (lines_bytes lines.now) + 11 }
{
    11 + lines.iter().map(line_length).sum::<usize>()
}

// The place stands beside the whole buffer, since the promise is of the whole: no byte before the place or behind the record is touched.
/// Writes a sheet as a record, from a place in the buffer on and nowhere else, and answers the count of bytes. Refused, it writes none.
pub fn write_to(sheet: &Sheet<'_>, out: &mut [u8], place: usize) -> Result<usize, Refusal>
    ensures { Wrote (contents sheet.now) out.old place result out.new }
{
    let hull = sheet.hull().ok_or(Ground::HullMissing.at(0))?;
    let lines = sheet.lines();
    let count = record_length(lines);
    if out.len().saturating_sub(place) < count {
        return Err(Ground::TooFewBytes.at(0));
    }
    put_record(&mut out[place..], hull, lines);
    Ok(count)
}
