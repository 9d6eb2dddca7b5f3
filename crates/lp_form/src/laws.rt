//! Laws of the named programs. Each function does nothing when it runs: its contract is the law.
ghost use Rattle.lp_form.specs.Examples.{Examples};

/// The programs of a small file are these, equation by equation.
pub fn worked_programs()
    ensures { Examples }
{}
