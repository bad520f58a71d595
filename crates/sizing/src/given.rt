//! What a list of members has said so far.
use crate::book::Book;
use stocks::build_up::BuildUp;
use terms::hull::Hull;

pub mod replies;

/// The rule book, the two stocks and the hull that later members are sized by.
#[derive(Clone, Copy, Default)]
pub struct Given {
    book: Option<Book>,
    plates: Option<BuildUp>,
    stiffeners: Option<BuildUp>,
    hull: Option<Hull>,
}
