//! The calls of a run.
use sheet::call::Call;

/// A call: one that changes the hull, the lines or the laid sizes, or settle, which is a call too and no absence of one. A value with its name and no closure,
/// since what holds of every run is said of lists of these.
#[derive(Clone, Copy)]
pub enum Step {
    Change(Call),
    Settle,
}
