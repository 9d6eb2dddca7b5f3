//! The lines of a convex set, and exactness for sets that have lines. Each function here is a law:
//! it does nothing, and its contract is the statement. The calls are those of `line_places`.
#![tactic(auto)]

pub mod line_places;

ghost use Rattle.lineality.specs.Examples.{FormExample, HalfPlaneExample};
ghost use Rattle.lineality.specs.Exactness.{ExactnessAlong, PartsAlongLines};
ghost use Rattle.lineality.specs.Laws.{NegativesAlong, NoLines, OneDescriptionAlong, OneListOfLines};
ghost use Rattle.lineality.specs.Steps.{CornersAlong, MeetingsWithout, NoneMarked, OpenPlaces, StepsWithout};

use polyhedra::Region;

/// A set has one list of lines.
pub fn one_list_of_lines<R: Region>()
    ensures { OneListOfLines R.directions }
{}

/// A convex set is its reduced part and all combinations of its lines.
pub fn parts_along_lines<R: Region>()
    ensures { PartsAlongLines R.members R.directions }
{}

/// Nothing missing, nothing too much, for a set with lines: what cuts and generators show that meet
/// the conditions on tight sets, and that without the entries at the places of the lines are a
/// double description pair.
pub fn exactness_along<R: Region>()
    ensures { ExactnessAlong R.members R.directions }
{}

/// A set has one description along lines, up to order.
pub fn one_description_along<R: Region>()
    ensures { OneDescriptionAlong R.members R.directions }
{}

/// A description without lines.
pub fn no_lines<R: Region>()
    ensures { NoLines R.members R.directions }
{}

/// The mirror image of a set with lines.
pub fn negatives_along<R: Region>()
    ensures { NegativesAlong R.members R.directions }
{}

/// How many entries stand beside those at the places of lines.
pub fn open_places()
    ensures { OpenPlaces }
{}

/// One step of double description without the entries at the places of lines.
pub fn steps_without()
    ensures { StepsWithout }
{}

/// The start at a reduced point where as many cuts are tight as there are entries beside the lines.
pub fn corners_along()
    ensures { CornersAlong }
{}

/// Where rows are tight at a meeting point, from a description without the entries at the places of
/// lines.
pub fn meetings_without()
    ensures { MeetingsWithout }
{}

/// Without lines no place is marked.
pub fn none_marked()
    ensures { NoneMarked }
{}

/// Lines in space, and vectors without the entries at their places, computed.
pub fn form_example()
    ensures { FormExample }
{}

/// A half plane: its line, the corner of its reduced part, and as a region that meets the
/// conditions of exactness.
pub fn half_plane_example()
    ensures { HalfPlaneExample }
{}
