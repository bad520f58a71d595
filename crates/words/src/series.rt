//! A run of sizes.

/// The numbers of a build-up: its first size, the step from a size to the next, and how many sizes there are. Not a build-up yet: a line may give numbers of
/// which none can be made, and is then refused by who takes it.
#[derive(Clone, Copy, PartialEq, Eq, Debug)]
pub struct Series {
    pub first: u16,
    pub step: u16,
    pub count: u16,
}
