use crate::traits::Gate;

/// A gate that does nothing.
#[derive(Clone, Copy)]
pub struct Open;

impl Gate for Open {
    fn at(&self, _block: u32) {}
}
