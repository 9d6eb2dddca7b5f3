//! A problem that is being read.
ghost use Rattle.std.specs.Prelude.{◌≡◌, ◌-◌, List, [], ◌∷◌, ◌++◌, length, slice_set, None, Some, is_none, IsTrue, IfOk, MatchResult};
ghost use Rattle.vlp_reader.specs.Grammar.{sizes_fault, matrix_rows, matrix_cols, bound_value};
ghost use Rattle.vlp_reader.specs.declared.statement.Matrix.TheVariants as matrix;

use crate::bounds::{all_bounds, give_bound, no_bounds};
use crate::fault::{FileKind, LineEnd};
use crate::sizes::Sizes;
use crate::statement::{Matrix, Statement};
use crate::table::Table;
use frac128::{Frac, Vector, Vectors};
use src_sink::{Items, NoMemory};
use std::alloc::{AllocError, Global};
use vlp_problem::{Axis, Bound, Cone, Problem};

/// What the lines so far give.
#[derive(Drop)]
pub(crate) struct Draft {
    pub sizes: Sizes,
    pub a: Table,
    pub o: Table,
    pub vectors: Table,
    pub duality: Table,
    pub row_bounds: Vec<Option<Bound>>,
    pub col_bounds: Vec<Option<Bound>>,
    ghost fit: { IsTrue (is_none (sizes_fault sizes)) },
    ghost a_rows: { a.rows ≡ matrix_rows sizes matrix.Constraints },
    ghost a_cols: { a.cols ≡ matrix_cols sizes matrix.Constraints },
    ghost o_rows: { o.rows ≡ matrix_rows sizes matrix.Objectives },
    ghost o_cols: { o.cols ≡ matrix_cols sizes matrix.Objectives },
    ghost vector_rows: { vectors.rows ≡ matrix_rows sizes matrix.ConeVectors },
    ghost vector_cols: { vectors.cols ≡ matrix_cols sizes matrix.ConeVectors },
    ghost duality_rows: { duality.rows ≡ matrix_rows sizes matrix.Duality },
    ghost duality_cols: { duality.cols ≡ matrix_cols sizes matrix.Duality },
    ghost row_count: { length row_bounds.items ≡ sizes.rows },
    ghost col_count: { length col_bounds.items ≡ sizes.cols },
}

impl Draft {
    ghost use Rattle.std.specs.Prelude.{true};
    ghost use Rattle.std.specs.List.{list_all};
    ghost use Rattle.vlp_reader.specs.declared.statement.Statement.{Statement};
    ghost use Rattle.vlp_reader.specs.Grammar.{closing_fault, cone_counts, counts_fit, statement_fault, Gives};
    ghost use Rattle.vlp_reader.specs.Drafts.{is_silent, table_of, bounds_of, draft_cone, draft_duality, Has, SameButTable, SameButBounds};
    ghost use Rattle.vlp_reader.specs.Ends.{ComesFrom};
    ghost use Rattle.vlp_reader.specs.Tables.{Adds, place_fault, slot_fault};

    /// No entry and no bound is given yet.
    pub(crate) fn new(alloc: Global, sizes: Sizes) -> Result<Draft, AllocError>
        requires { IsTrue (is_none (sizes_fault sizes)) }
        ensures sizes { IfOk result (λ draft. draft.sizes ≡ sizes) }
        ensures has { IfOk result (λ draft. (earlier : List Statement)
            → list_all is_silent earlier ≡ true
            → Has draft (earlier ++ Statement.Heading sizes ∷ [])) }
    {
        Ok(Draft {
            sizes,
            a: Table::new(alloc, sizes.rows, sizes.cols),
            o: Table::new(alloc, sizes.objs, sizes.cols),
            vectors: Table::new(alloc, sizes.objs, sizes.vectors()),
            duality: Table::new(alloc, sizes.objs, 1),
            row_bounds: no_bounds(alloc, sizes.rows)?,
            col_bounds: no_bounds(alloc, sizes.cols)?,
        })
    }

    /// Gives an entry of a matrix.
    fn enter(
        &mut self,
        matrix: Matrix,
        row: u32,
        col: u32,
        number: Result<Frac, FileKind>,
    ) -> Result<(), LineEnd>
        ensures entry { MatchResult result
            (λ _. (place_fault (table_of self.old matrix) row col number ≡ None)
            × Adds (table_of self.old matrix) (table_of self.new matrix) row col number)
            (ComesFrom (place_fault (table_of self.old matrix) row col number)) }
        ensures others { SameButTable matrix self.old self.new }
    {
        match matrix {
            Matrix::Constraints => self.a.give(row, col, number),
            Matrix::Objectives => self.o.give(row, col, number),
            Matrix::ConeVectors => self.vectors.give(row, col, number),
            Matrix::Duality => self.duality.give(row, col, number),
        }
    }

    /// Gives the bounds of a row or column.
    fn limit(
        &mut self,
        axis: Axis,
        number: u32,
        bound: Result<Bound, FileKind>,
    ) -> Result<(), LineEnd>
        ensures bound { MatchResult result (λ _. (slot_fault (bounds_of self.old axis) number bound
            ≡ None)
            × (bounds_of self.new axis
            ≡ slice_set (bounds_of self.old axis) (number - 1) (Some (bound_value bound))))
            (ComesFrom (slot_fault (bounds_of self.old axis) number bound)) }
        ensures others { SameButBounds axis self.old self.new }
    {
        match axis {
            Axis::Row => give_bound(&mut self.row_bounds, number, bound),
            Axis::Column => give_bound(&mut self.col_bounds, number, bound),
        }
    }

    /// Takes what the next line says, after the sizes.
    pub(crate) fn take(&mut self, statement: Statement) -> Result<(), LineEnd>
        ensures { (earlier : List Statement) → Has self.old earlier → MatchResult result
            (λ _. (statement_fault earlier self.old.sizes statement ≡ None)
            × Has self.new (earlier ++ statement ∷ []))
            (ComesFrom (statement_fault earlier self.old.sizes statement)) }
    {
        match statement {
            Statement::Entry(matrix, row, col, number) => self.enter(matrix, row, col, number),
            Statement::Limit(axis, number, bound) => self.limit(axis, number, bound),
            Statement::Heading(_) => Err(LineEnd::Kind(FileKind::Twice)),
            Statement::Silent | Statement::End => Ok(()),
        }
    }

    /// Whether there are as many entries of the cone as the sizes say.
    fn cone_fits(&self) -> bool
        ensures { (statements : List Statement) → Has self.now statements →
            result ≡ cone_counts self.now.sizes.cone statements }
    {
        let Some(cone) = self.sizes.cone else {
            return true;
        };
        let wanted = cone.entries as usize;
        wanted == self.vectors.len() || wanted == self.vectors.len() + self.duality.len()
    }

    /// Whether there are as many entries as the sizes say.
    fn counts_fit(&self) -> bool
        ensures { (statements : List Statement) → Has self.now statements →
            result ≡ counts_fit self.now.sizes statements }
    {
        if self.sizes.entries as usize != self.a.len() {
            return false;
        }
        if self.sizes.obj_entries as usize != self.o.len() {
            return false;
        }
        self.cone_fits()
    }

    /// The ordering cone that was given.
    fn cone(&self, alloc: Global) -> Result<Cone, NoMemory>
        ensures { IfOk result (λ cone. cone ≡ draft_cone self.now self.now.sizes.cone) }
    {
        let Some(sizes) = self.sizes.cone else {
            return Ok(Cone::Orthant);
        };
        let mut vectors: Vectors = Items::new(alloc);
        for before in 0..sizes.vectors {
            vectors.push(self.vectors.column(alloc, before + 1)?)?;
        }
        if sizes.dual {
            Ok(Cone::Dual(vectors))
        } else {
            Ok(Cone::Gens(vectors))
        }
    }

    /// The duality vector, where an entry of it is given.
    fn duality(&self, alloc: Global) -> Result<Option<Vector>, NoMemory>
        ensures { IfOk result (λ f. f ≡ draft_duality self.now) }
    {
        if self.duality.len() == 0 {
            return Ok(None);
        }
        Ok(Some(self.duality.column(alloc, 1)?))
    }

    /// The problem, where there are as many entries as the sizes say.
    pub(crate) fn finish(&self, alloc: Global) -> Result<Problem, LineEnd>
        ensures { (statements : List Statement) → Has self.now statements → MatchResult result
            (λ problem. (closing_fault (Some self.now.sizes) statements ≡ None)
            × Gives statements self.now.sizes problem)
            (ComesFrom (closing_fault (Some self.now.sizes) statements)) }
    {
        if !self.counts_fit() {
            return Err(LineEnd::Kind(FileKind::CountWrong));
        }
        Ok(Problem {
            dir: self.sizes.dir,
            rows: self.sizes.rows,
            cols: self.sizes.cols,
            objs: self.sizes.objs,
            a: self.a.to_cells(alloc)?,
            o: self.o.to_cells(alloc)?,
            row_bounds: all_bounds(alloc, &self.row_bounds)?,
            col_bounds: all_bounds(alloc, &self.col_bounds)?,
            cone: self.cone(alloc)?,
            duality: self.duality(alloc)?,
        })
    }
}
