//! What is kept from one program of a weight to the next.
use benson_program::Kept;
use exact_field::Field;
use src_sink::Items;
use std::alloc::Global;

/// What is kept from one program of a weight to the next. It shortens the next one, and no clause
/// speaks of it: that of another problem shortens nothing.
#[derive(Drop)]
pub struct KeptWeights<F: Field> {
    /// What guesses ends.
    pub(crate) guesses: Kept<F>,
    /// The basis at which the last program ended.
    pub(crate) basis: Items<u32>,
}

impl<F: Field> KeptWeights<F> {
    /// Nothing is kept yet.
    pub fn new(alloc: Global) -> KeptWeights<F> {
        KeptWeights {
            guesses: Kept::new(alloc),
            basis: Items::new(alloc),
        }
    }
}
