//! What is entered of a line.
ghost use Rattle.std.specs.Prelude.{◌≡◌};
ghost use Rattle.terms.specs.Questions.{names};

/// The entered values of one line, a plate or a stiffener. Zero may stand in each but the mark.
#[derive(Clone, Copy, PartialEq, Eq, Debug, Default)]
pub struct Entry {
    /// the line's own number, above 0
    pub mark: u16,
    /// which member it is; a number, since each rule book names its own kinds
    pub kind: u8,
    /// where it stands: 0 elsewhere, 1 in the engine room, 2 at the engine seat; a rule book reads it in its own way or not at
    /// all, and any other number is refused by its value
    pub place: u8,
    /// the marks of two neighbours, 0 for none: a number, since it is spelled as one and refused by its value
    pub near: u16,
    pub far: u16,
    /// stiffener spacing, or a panel's short edge, s, in millimetres
    pub spacing: u16,
    /// span, or a panel's long edge, l, in millimetres
    pub span: u16,
    /// design pressure, P, in kN/m²
    pub pressure: u8,
    /// height above the baseline, z, in millimetres
    pub height: u16,
    /// strength of the material, σ, in N/mm²
    pub strength: u16,
    /// area, in dm²
    pub area: u16,
}

impl Entry {
    /// Whether the line names the mark as a neighbour.
    pub fn names(self, mark: u16) -> bool
        ensures { result ≡ names self mark }
    {
        self.near == mark || self.far == mark
    }
}
