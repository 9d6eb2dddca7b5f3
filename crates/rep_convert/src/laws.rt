//! What is true of licences of conversions. The function is a law: it does nothing, and its
//! contract is the statement.
ghost use Rattle.rep_convert.specs.Examples.{LicenceExamples};

/// Licences of the conversion of a segment, and near ones that are none, computed.
pub fn licence_examples()
    ensures { LicenceExamples }
{}
