//! Copying a sheet by way of its record.
ghost use Rattle.sheet.specs.Sheets.{contents};
ghost use Rattle.writer.specs.Copying.{Copied, RoundTrip};

use crate::write_to;
use record::reading::read_into;
use sheet::sheet::Sheet;
use terms::refusal::Refusal;

/// Writes a sheet as a record into the buffer, and reads the record into another sheet. A new one with room enough then holds the same hull, lines and laid sizes.
pub fn copy_into(sheet: &Sheet<'_>, buffer: &mut [u8], copy: &mut Sheet<'_>) -> Result<(), Refusal>
    ensures law { RoundTrip }
    ensures copied { Copied (contents sheet.now) buffer.old (contents copy.old) result buffer.new (contents copy.new) }
{
    let count = write_to(sheet, buffer, 0)?;
    read_into(&buffer[..count], copy)
}
