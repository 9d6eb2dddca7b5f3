//! What is read off the solutions of programs: cuts and pre-images.
use src_sink::Items;

/// A cut `w . y >= gamma` of the image, with what shows it.
#[derive(Debug, Drop)]
pub struct Cut<F: Drop> {
    pub w: Items<F>,
    pub gamma: F,
    /// A multiplier of at least 0 for each side.
    pub u: Items<F>,
    /// Where the ordering cone is in dual form, the multipliers that combine its vectors to w.
    pub v: Items<F>,
}

/// What shows that a vector is in the image, or a direction in its recession cone.
#[derive(Debug, Drop)]
pub struct Preimage<F: Drop> {
    /// A feasible point, or a direction of the feasible set: a number for each variable.
    pub x: Items<F>,
    /// A multiplier for each generator of the ordering cone, or none where it is given otherwise.
    pub m: Items<F>,
}
