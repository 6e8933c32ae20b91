use cstar_base::Word;

/// A call on a shelf, with the name that it was given.
#[derive(Drop)]
pub enum Call {
    Fetch(Word),
    Keep(Word),
}
