use combine_core::{Combine, Message};

/// What a board is about, which never changes.
#[derive(Drop)]
pub struct Task<C: Combine> {
    pub(crate) combiner: C,
    pub(crate) home: Vec<u32>,
    pub(crate) slots: Vec<Option<Message>>,
}
