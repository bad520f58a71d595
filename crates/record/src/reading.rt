//! Reading a record into a sheet.
ghost use Rattle.sheet.specs.Sheets.{contents};
ghost use Rattle.record.specs.Obeying.{Obeyed, Read, OneReading};

use crate::placed::Placed;
use crate::reader::Reader;
use sheet::sheet::Sheet;
use terms::refusal::Refusal;

// Carries out one call of a record. A refusal gets the place of the call in the record.
fn obey(placed: Placed, sheet: &mut Sheet<'_>) -> Result<(), Refusal>
    ensures { Obeyed (contents sheet.old) placed result (contents sheet.new) }
{
    let answer = sheet.carry_out(placed.call);
    answer.map_err(|refusal| refusal.ground.at(placed.at))
}

/// Carries out the calls of a record on a sheet, in order, up to its end or its first fault. The calls before a fault stand.
pub fn read_into(bytes: &[u8], sheet: &mut Sheet<'_>) -> Result<(), Refusal>
    ensures once { OneReading }
    ensures read { Read bytes.now (contents sheet.old) result (contents sheet.new) }
{
    let mut reader = Reader::new(bytes);
    while let Some(placed) = reader.next_call()? {
        obey(placed, sheet)?;
    }
    Ok(())
}
