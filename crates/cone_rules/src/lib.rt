//! What is wrong with an ordering cone or its duality vector, what shows it, and how ends of linear
//! programs tell. Each function is a law: it does nothing, and its contract is the statement.
#![tactic(auto)]

ghost use Rattle.cone_rules.specs.Laws.{FittingLaws, FaultsExclude, FoundProgram, GivenProgram, OppositeColumns, OrthantLaws, PointedProgram, RankLaws, RowTests, RowsProgram};

mod fault;

pub use fault::ConeFault;

/// No sound file has a fault, and two faults of a file are of one kind.
pub fn faults_exclude()
    ensures { FaultsExclude }
{}

/// The orthant is solid and pointed, and which vectors are interior to it.
pub fn orthant()
    ensures { OrthantLaws }
{}

/// What full rank says of a cone.
pub fn full_rank()
    ensures { RankLaws }
{}

/// Which vectors are interior to a cone of rows.
pub fn row_tests()
    ensures { RowTests }
{}

/// What the program of vectors that combine to 0 says.
pub fn pointed_program()
    ensures { PointedProgram }
{}

/// What the program of an interior vector of generators says where the vector is given.
pub fn given_program()
    ensures { GivenProgram }
{}

/// What it says where none is given.
pub fn found_program()
    ensures { FoundProgram }
{}

/// What the program of an interior vector of rows says.
pub fn rows_program()
    ensures { RowsProgram }
{}

/// What shows that a duality vector fits a file.
pub fn duality_shown()
    ensures { FittingLaws }
{}

/// Of two unknowns with opposite columns at most one is not 0 in a solution that is read off.
pub fn opposite_columns()
    ensures { OppositeColumns }
{}
