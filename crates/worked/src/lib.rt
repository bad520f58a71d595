//! Sizes that were worked out by hand from the clauses.
#![tactic(auto)]

ghost use Rattle.worked.specs.Worked.{WorkedSizes};

/// The clauses give the thirteen numbers that were worked out by hand, twelve sizes and the aspect of a panel. The contract is all: there is nothing to run.
pub fn worked_sizes()
    ensures { WorkedSizes }
{}

#[cfg(test)]
mod books;
#[cfg(test)]
mod checks;
#[cfg(test)]
mod counted;
#[cfg(test)]
mod said;
#[cfg(test)]
mod settles;
#[cfg(test)]
mod sheets;
