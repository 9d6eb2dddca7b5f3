//! What is true of vectors, cones and hulls over the rational numbers. Each function is a law: it
//! does nothing, and its contract is the statement.
#![tactic(auto)]

ghost use Rattle.std.specs.Prelude.{List};
ghost use Rattle.exact_field.specs.Rational.{ℚ};
ghost use Rattle.polyhedra.specs.Dependence.{MoreAreDependent, CornersDetermine, Start};
ghost use Rattle.polyhedra.specs.DoubleDescription.{NewPairsAreExact, OneAddition, AdditionDescribes, MadeAreNormed};
ghost use Rattle.polyhedra.specs.Duality.{DualCones, InteriorOfGenerated, InteriorOfRows};
ghost use Rattle.polyhedra.specs.Examples.{AdditionExample, FirstExample, SquareExample, QuadrantExample};
ghost use Rattle.polyhedra.specs.Exactness.{CornerStarts, NormedArePointsOrDirections, LargestAccount, EnclosedAreRepresented, Exactness, RisingListsAreEqual, Uniqueness};
ghost use Rattle.polyhedra.specs.FirstNamed.{FirstAccount, TightSetsTellApart};
ghost use Rattle.polyhedra.specs.Farkas.{FarkasLemma, OneAlternative, WeakDuality, NoSolution, DualOfGenerated, CutHolds};
ghost use Rattle.polyhedra.specs.Generators.{AllButOneAreUncovered, DescribedAreDistinct, DescribedAreExtreme, DualOfDescribed, FewAreCovered, TightAtMeeting};
ghost use Rattle.polyhedra.specs.Image.{ImageIsConvex};
ghost use Rattle.polyhedra.specs.Linear.{ProductIsSymmetric, IsLinear, ProductOfCombination, CombinationOfCombinations, SameProducts};
ghost use Rattle.polyhedra.specs.LiveSteps.{AreLive, NumbersStay, NumbersTellApart, StepExample, StepIsAddition, ThirdByNumber};
ghost use Rattle.polyhedra.specs.LowerImage.{VerticesAreFacets, OneLowerDirection};
ghost use Rattle.polyhedra.specs.Negatives.{LowerOfNegatives, OfNegatives};
ghost use Rattle.polyhedra.specs.Sparse.{ProductOfSparse};

/// A set of vectors, and the directions in which it goes on for ever. A law over a region holds for
/// every set; a proof that needs it for a set of its own cites the lemma of the same name.
pub trait Region {
    ghost members: { List ℚ → Type 0 };

    ghost directions: { List ℚ → Type 0 };
}

/// The product of vectors is symmetric.
pub fn product_is_symmetric()
    ensures { ProductIsSymmetric }
{}

/// The product of vectors is linear.
pub fn product_is_linear()
    ensures { IsLinear }
{}

/// A row's value at a combination, from its values at the vectors.
pub fn product_of_combination()
    ensures { ProductOfCombination }
{}

/// How multipliers combine.
pub fn combination_of_combinations()
    ensures { CombinationOfCombinations }
{}

/// When two vectors are equal.
pub fn same_products()
    ensures { SameProducts }
{}

/// Farkas' lemma for a homogeneous system.
pub fn farkas_lemma()
    ensures { FarkasLemma }
{}

/// The two cases of Farkas' lemma exclude each other.
pub fn one_alternative()
    ensures { OneAlternative }
{}

/// The value of a dual vector bounds that of every feasible point.
pub fn weak_duality()
    ensures { WeakDuality }
{}

/// The witness that a system has no solution.
pub fn no_solution()
    ensures { NoSolution }
{}

/// A vector of the dual cone, tested at the generators alone.
pub fn dual_of_generated()
    ensures { DualOfGenerated }
{}

/// The bound that a dual vector proves for each point of an image.
pub fn cut_holds()
    ensures { CutHolds }
{}

/// What is dual to a cone of generators and to a cone of rows.
pub fn dual_cones()
    ensures { DualCones }
{}

/// How positive multipliers show that a vector is interior to a cone of generators.
pub fn interior_of_generated()
    ensures { InteriorOfGenerated }
{}

/// How positive values show that a vector is interior to a cone of rows.
pub fn interior_of_rows()
    ensures { InteriorOfRows }
{}

/// A sparse vector's product.
pub fn product_of_sparse()
    ensures { ProductOfSparse }
{}

/// Linear dependence of more vectors than entries.
pub fn more_are_dependent()
    ensures { MoreAreDependent }
{}

/// Rows that are positive on a diagonal are independent.
pub fn corners_determine()
    ensures { CornersDetermine }
{}

/// The first description of double description.
pub fn start()
    ensures { Start }
{}

/// The definition of the pairs, as a list, has what it is to have.
pub fn new_pairs_are_exact()
    ensures { NewPairsAreExact }
{}

/// One step of double description keeps the description of a cone: the law for any list of the
/// pairs.
pub fn one_addition()
    ensures { OneAddition }
{}

/// One step of double description keeps the description of a cone: the law for the pairs in their
/// order.
pub fn addition_describes()
    ensures { AdditionDescribes }
{}

/// The new generators of one addition are normed.
pub fn made_are_normed()
    ensures { MadeAreNormed }
{}

/// Generators with the same tight rows are the same generator.
pub fn described_are_distinct()
    ensures { DescribedAreDistinct }
{}

/// Where a row is tight at a new generator.
pub fn tight_at_meeting()
    ensures { TightAtMeeting }
{}

/// Generators with too few common tight rows are not adjacent.
pub fn few_are_covered()
    ensures { FewAreCovered }
{}

/// Generators of which one has at most one tight row that is not tight at the other are adjacent.
pub fn all_but_one_are_uncovered()
    ensures { AllButOneAreUncovered }
{}

/// The generators of a double description pair are the extreme directions of its cone.
pub fn described_are_extreme()
    ensures { DescribedAreExtreme }
{}

/// The dual of the cone of a double description pair, tested at the generators.
pub fn dual_of_described()
    ensures { DualOfDescribed }
{}

/// What a step keeps of the numbers of the live generators.
pub fn numbers_stay()
    ensures { NumbersStay }
{}

/// Live generators are told apart by number as by vector.
pub fn numbers_tell_apart()
    ensures { NumbersTellApart }
{}

/// The test for a third generator, by number and by vector.
pub fn third_by_number()
    ensures { ThirdByNumber }
{}

/// A step without its numbers.
pub fn step_is_addition()
    ensures { StepIsAddition }
{}

/// What steps from a double description pair give.
pub fn are_live()
    ensures { AreLive }
{}

/// The start at a point where as many cuts are tight as it has entries.
pub fn corner_starts()
    ensures { CornerStarts }
{}

/// A normed generator above the level 0 is a point or a direction.
pub fn points_or_directions()
    ensures { NormedArePointsOrDirections }
{}

/// The cuts with the largest sets of tight generators account for all cuts.
pub fn largest_account()
    ensures { LargestAccount }
{}

/// The first cuts with the largest sets of tight generators account for all cuts.
pub fn first_account()
    ensures { FirstAccount }
{}

/// Rows with different tight generators are different inequalities.
pub fn tight_sets_tell_apart()
    ensures { TightSetsTellApart }
{}

/// Nothing missing, nothing too much, without the facets: the points and directions of a set
/// between an outer and an inner approximation that meet are its vertices and extreme directions.
pub fn enclosed_are_represented<R: Region>()
    ensures { EnclosedAreRepresented R.members R.directions }
{}

/// Nothing missing, nothing too much: what cuts and generators show that meet the conditions on
/// tight sets.
pub fn exactness<R: Region>()
    ensures { Exactness R.members R.directions }
{}

/// The image of a polyhedron, widened by a convex cone (the members of the region), is a convex
/// region.
pub fn image_is_convex<C: Region>()
    ensures { ImageIsConvex C.members }
{}

/// Equal sets in rising order are equal lists.
pub fn rising_lists_are_equal<T>()
    ensures { RisingListsAreEqual T }
{}

/// A set has one list of vertices, one of normed extreme directions, and for each c one of facets,
/// up to order.
pub fn uniqueness<R: Region>()
    ensures { Uniqueness R.members R.directions }
{}

/// Geometric duality: the vertices of the lower image are the facets.
pub fn vertices_are_facets<R: Region>()
    ensures { VerticesAreFacets R.members }
{}

/// Geometric duality: the one extreme direction of the lower image.
pub fn one_lower_direction<R: Region>()
    ensures { OneLowerDirection R.members R.directions }
{}

/// The mirror image of a set: its vertices, extreme directions, hull and facets.
pub fn of_negatives<R: Region>()
    ensures { OfNegatives R.members }
{}

/// The mirror image of a set: its lower image.
pub fn lower_of_negatives<R: Region>()
    ensures { LowerOfNegatives R.members }
{}

/// One addition of double description, computed.
pub fn addition_example()
    ensures { AdditionExample }
{}

/// One step on numbered generators, computed.
pub fn step_example()
    ensures { StepExample }
{}

/// The first cuts with the largest sets of tight generators, computed.
pub fn first_example()
    ensures { FirstExample }
{}

/// A vertex and a facet of a square, its centre and a line at its corner.
pub fn square_example()
    ensures { SquareExample }
{}

/// The quadrant as a cone, its extreme directions and its interior, and as a region that meets the
/// conditions of exactness.
pub fn quadrant_example()
    ensures { QuadrantExample }
{}
