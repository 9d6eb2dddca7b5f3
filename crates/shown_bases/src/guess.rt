//! Guesses of ends, and optima.
use src_sink::Items;

/// A column of a basis and an equation. The column goes by its place in the list of the basis's
/// columns. Both are numbered from 1.
#[derive(Clone, Copy, Debug)]
pub struct Pair {
    pub vector: u32,
    pub place: u32,
}

/// An order in which the columns of a basis are seen to be independent: columns that leave one
/// equation each, then as many that leave equations together, and columns that leave one each
/// again. A column leaves equations if it has no entries but in them and in those that were left
/// before.
#[derive(Debug, Drop)]
pub struct Order {
    /// The first columns, each with the equation that it leaves.
    pub front: Items<Pair>,
    /// The columns that leave equations together, by their places in the list.
    pub vectors: Items<u32>,
    /// These equations, in rising order.
    pub places: Items<u32>,
    /// The last columns, each with the equation that it leaves.
    pub back: Items<Pair>,
}

/// A guess of an optimum, of which nothing is promised.
#[derive(Debug, Drop)]
pub struct Guess<F: Drop> {
    /// The columns of a basis, as many as there are equations: from 1 those of the unknowns, and
    /// after them one artificial column for each equation.
    pub columns: Items<u32>,
    /// A value for each of the columns.
    pub x: Items<F>,
    /// A multiplier for each equation.
    pub y: Items<F>,
    pub order: Order,
}

/// A guess of multipliers that show that there is no solution, of which nothing is promised.
#[derive(Debug, Drop)]
pub struct EmptyGuess<F: Drop> {
    /// The columns of a basis, as in a guess of an optimum.
    pub columns: Items<u32>,
    /// A multiplier for each equation. They make up for the first phase's cost, which is 0 for an
    /// unknown and 1 for an artificial column.
    pub y: Items<F>,
    pub order: Order,
}

/// A guess of solutions of any cost: of one, and of a direction. Nothing is promised of it.
#[derive(Debug, Drop)]
pub struct RayGuess<F: Drop> {
    /// The columns of a basis, as in a guess of an optimum.
    pub columns: Items<u32>,
    /// A value for each of the columns.
    pub x: Items<F>,
    /// The unknown that is raised by 1, numbered as the columns.
    pub col: u32,
    /// By how much each of the columns changes with it.
    pub changes: Items<F>,
    pub order: Order,
}

/// A guess of how a linear program ends.
#[derive(Debug, Drop)]
pub enum EndGuess<F: Drop> {
    /// With an optimum.
    Optimum(Guess<F>),
    /// Without a solution.
    Empty(EmptyGuess<F>),
    /// With solutions of any cost.
    Ray(RayGuess<F>),
}

/// A solution of the greatest cost, the multipliers of the equations that show it, and the basis at
/// which both are read off.
#[derive(Debug, Drop)]
pub struct Optimum<F: Drop> {
    /// A value for each unknown.
    pub x: Items<F>,
    /// A multiplier for each equation.
    pub dual: Items<F>,
    /// The column of each equation, numbered as those of a guess.
    pub basis: Items<u32>,
}

/// The multipliers of the equations that show that there is no solution (Farkas), and the basis at
/// which they are read off.
#[derive(Debug, Drop)]
pub struct Contradiction<F: Drop> {
    /// A multiplier for each equation.
    pub farkas: Items<F>,
    /// The column of each equation, numbered as those of a guess.
    pub basis: Items<u32>,
}

/// A solution, a direction in which it stays one and the cost rises, and the basis at which both
/// are read off.
#[derive(Debug, Drop)]
pub struct Ray<F: Drop> {
    /// A value for each unknown.
    pub x: Items<F>,
    /// By how much each unknown changes.
    pub ray: Items<F>,
    /// The column of each equation, numbered as those of a guess.
    pub basis: Items<u32>,
}
