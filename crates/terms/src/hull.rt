//! The hull of a sheet.

/// The main dimensions of a hull, in whole millimetres, and the water that it sails.
#[derive(Clone, Copy, PartialEq, Eq, Debug)]
pub struct Hull {
    /// length on the load waterline, L
    pub length: u16,
    /// breadth, B
    pub breadth: u16,
    /// depth at mid-length at the side, D
    pub depth: u16,
    /// draught at mid-length, d
    pub draught: u16,
    /// 0 calm, 1 sheltered or coastal: a number, since any other is refused by its value
    pub water: u8,
}
