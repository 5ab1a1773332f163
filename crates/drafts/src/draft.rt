use board::Board;
use rules::book::Book;

/// A model and a book in preparation.
#[derive(Clone, Copy)]
pub struct Draft {
    pub board: Board,
    pub book: Book,
}
