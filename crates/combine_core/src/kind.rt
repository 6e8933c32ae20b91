/// Which combiner, as data. The contracts of this crate speak of combiners by it.
#[derive(Clone, Copy)]
pub enum Kind {
    Add,
    And,
    Or,
    Xor,
    Min { signed: bool },
    Max { signed: bool },
    Last,
    First,
}
