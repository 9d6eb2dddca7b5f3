//! A law of replies. It does nothing when it runs: its contract is the statement.
ghost use Rattle.solver.specs.Agree.{OneImage};

use benson_dual::image_parts_agree;

/// Where both ways to solve a problem tell an image by the same duality vector, their texts are
/// equal up to the witnesses.
pub fn replies_agree()
    ensures { OneImage }
{
    image_parts_agree();
}
