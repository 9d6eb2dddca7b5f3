//! What the tests of an entry need of the problem and of the entries before.
ghost use Rattle.std.specs.Prelude.{List, [], ◌∷◌, ◌++◌, IfOk, OnOk, IsTrue};
ghost use Rattle.deriv_log.specs.Formed.{is_formed};
ghost use Rattle.deriv_log.specs.declared.entry.Entry.{Entry};
ghost use Rattle.cert_check.specs.Standing.{IsKnown};
ghost use Rattle.cert_check.specs.Taking.{IsTested};
ghost use Rattle.vlp_problem.specs.declared.problem.Problem.{Problem};

use crate::found::{keep_scale, keep_way};
use crate::kinds::Kinds;
use crate::shares::Shares;
use deriv_log::Entry;
use frac128::Vector;
use src_sink::{Items, NoMemory};
use std::alloc::Global;
use vlp_matrices::Matrices;
use vlp_problem::Problem;

/// The problem by rows and columns, the kinds of the entries before, the duality vector, the lines,
/// and the shared vectors.
#[derive(Debug, Drop)]
pub struct Known {
    pub matrices: Matrices,
    pub kinds: Kinds,
    pub c: Vector,
    pub lines: Items<Vector>,
    pub shares: Shares,
}

impl Known {
    /// Where there is no entry.
    pub fn new(alloc: Global, problem: &Problem) -> Result<Known, NoMemory>
        ensures { IfOk result (IsKnown problem.now []) }
    {
        Ok(Known {
            matrices: Matrices::of(alloc, problem)?,
            kinds: Kinds::new(),
            c: Items::new(alloc),
            lines: Items::new(alloc),
            shares: Shares::new(alloc),
        })
    }

    /// Keeps what later tests need of one more entry.
    pub fn keep(&mut self, alloc: Global, entry: &Entry) -> Result<(), NoMemory>
        requires { IsTrue (is_formed entry.now) }
        ensures { (file : Problem) (before : List Entry) → IsKnown file before self.old
            → IsTested file before entry.now
            → OnOk result (IsKnown file (before ++ entry.now ∷ []) self.new) }
    {
        keep_scale(alloc, &mut self.c, entry)?;
        keep_way(alloc, &mut self.lines, entry)?;
        self.shares.keep(alloc, entry)?;
        self.kinds = self.kinds.with(entry);
        Ok(())
    }
}
