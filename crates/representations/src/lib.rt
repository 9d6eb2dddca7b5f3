//! What is true of the two representations of a polyhedron over the rational numbers, by
//! inequalities and by points, directions and lines. Each function is a law: it does nothing, and
//! its contract is the statement.
#![tactic(auto)]

ghost use Rattle.representations.specs.Dropped.{DroppedAreUnits};
ghost use Rattle.representations.specs.Examples.{FaceExample, LinedExample, ProjectionExample, SidesExample};
ghost use Rattle.representations.specs.Faces.{FaceOfHull};
ghost use Rattle.representations.specs.Facets.{FacetsCutOut, FacetsGenerate, WeightsAreFacets};
ghost use Rattle.representations.specs.Lined.{HullIsSides, LinedCone, PinnedStart, PinnedStep, PlacesAreReaders, SidesAreHull};
ghost use Rattle.representations.specs.Needed.{GeneratorIsNeeded, HullIsNeeded, OneListOfGenerators, SidesAreNeeded, SpannedIsNeeded};
ghost use Rattle.representations.specs.Projection.{ImageIsAbove, LinesAreInSlice, ProjectionIsSlice, SliceOfHull, VerticesAreInSlice};
ghost use Rattle.representations.specs.Scaled.{ScaledSolutions};

use polyhedra::Region;

/// A face of a hull is the hull of what lies in it.
pub fn face_of_hull()
    ensures { FaceOfHull }
{}

/// The facets generate each valid inequality.
pub fn facets_generate<R: Region>()
    ensures { FacetsGenerate R.members R.directions }
{}

/// The facets cut out their set.
pub fn facets_cut_out<R: Region>()
    ensures { FacetsCutOut R.members R.directions }
{}

/// The weights for which a member is least.
pub fn weights_are_facets<R: Region>()
    ensures { WeightsAreFacets R.members R.directions }
{}

/// The projection is a slice of the image of the associated objectives.
pub fn projection_is_slice<C: Region>()
    ensures { ProjectionIsSlice C.members }
{}

/// That image lies where the entries sum to at least 0.
pub fn image_is_above<C: Region>()
    ensures { ImageIsAbove C.members }
{}

/// The lines of that image lie in the slice.
pub fn lines_are_in_slice<C: Region>()
    ensures { LinesAreInSlice C.members }
{}

/// The vertices of that image, or of its reduced part, lie in the slice.
pub fn vertices_are_in_slice<C: Region>()
    ensures { VerticesAreInSlice C.members }
{}

/// The extreme directions of that image that do not lie in the slice.
pub fn dropped_are_units()
    ensures { DroppedAreUnits }
{}

/// The slice of a hull is the hull of the points and directions that lie in it, and of the lines.
pub fn slice_of_hull()
    ensures { SliceOfHull }
{}

/// The places of lines in reduced echelon form are read by unit vectors.
pub fn places_are_readers()
    ensures { PlacesAreReaders }
{}

/// The start of a double description in full width, beside lines.
pub fn pinned_start()
    ensures { PinnedStart }
{}

/// Beside lines a step on reduced generators is the same.
pub fn pinned_step()
    ensures { PinnedStep }
{}

/// A cone with lines is spanned by its generators and lines.
pub fn lined_cone()
    ensures { LinedCone }
{}

/// From inequalities to points, directions and lines.
pub fn sides_are_hull()
    ensures { SidesAreHull }
{}

/// From points, directions and lines to inequalities.
pub fn hull_is_sides()
    ensures { HullIsSides }
{}

/// No generator is a combination of others.
pub fn generator_is_needed()
    ensures { GeneratorIsNeeded }
{}

/// No generator is a sum of others and of lines.
pub fn spanned_is_needed()
    ensures { SpannedIsNeeded }
{}

/// No point, direction or line can be left out.
pub fn hull_is_needed()
    ensures { HullIsNeeded }
{}

/// No inequality or equation can be left out.
pub fn sides_are_needed()
    ensures { SidesAreNeeded }
{}

/// A cone has one list of normed generators beside the readers of its lines.
pub fn one_list_of_generators()
    ensures { OneListOfGenerators }
{}

/// Solutions of inequalities whose bounds are multiplied.
pub fn scaled_solutions()
    ensures { ScaledSolutions }
{}

/// A face of a triangle, sides that are tight, and for which weights a vector is least, computed.
pub fn face_example()
    ensures { FaceExample }
{}

/// A half plane as a cone with a line and its reader, computed.
pub fn lined_example()
    ensures { LinedExample }
{}

/// A half line by its sides and by its point and direction, computed.
pub fn sides_example()
    ensures { SidesExample }
{}

/// A projection, its associated objectives, and a multiple of a solution, computed.
pub fn projection_example()
    ensures { ProjectionExample }
{}
