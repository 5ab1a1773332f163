use crate::change::Change;
use model::store::Store;
use rules::book::Book;

// It has no `Model`: a moment holds sets of facts, which are functions and have no code, and a refused call must leave the very same engine.

/// A released model in its store, a released book, and at most one change in preparation.
pub struct Engine<S: Store> {
    pub(crate) store: S,
    pub(crate) book: Book,
    pub(crate) number: u16,
    // how many changes were opened
    pub(crate) changes: u32,
    pub(crate) change: Option<Change>,
}
