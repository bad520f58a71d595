//! What can be asked of a sheet.
use terms::entry::Entry;
use terms::hull::Hull;

/// A call that changes a sheet. A value with its name and no closure, since records spell it, and what a list of calls makes of a sheet is said of the list.
#[derive(Clone, Copy)]
pub enum Call {
    /// set or replace the hull
    Hull(Hull),
    /// add a line
    Enter(Entry),
    /// replace the entered values of the line with the mark
    Amend(Entry),
    /// remove the line of a mark
    Strike(u16),
    /// lay a size on the line of a mark: two numbers, as records spell them and users say them
    Lay(u16, u16),
}
