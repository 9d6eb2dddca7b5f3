//! Whole runs of a method, and what is done where a number is not held.
use crate::solver::Solver;
use exact_field::Field;
use short_basis::Halt;
use short_programs::{Bounds, PRICINGS, Pricing};
use whole_programs::{Failing, Stop};

/// So many columns are replaced before the basis is factored anew.
const MOST_STEPS: usize = 40;

/// So often a run goes back to an earlier basis.
const MOST_BACKS: usize = 20;

/// How a run ended.
#[derive(Clone, Copy)]
pub(crate) enum End {
    Optimal,
    /// No values are within the bounds.
    Failing(Failing),
    /// What is minimised falls without end.
    Ray,
}

/// Which method runs.
#[derive(Clone, Copy, PartialEq, Eq)]
pub(crate) enum Method {
    Dual,
    Primal,
}

/// How a run stands.
#[derive(Drop)]
struct Run {
    method: Method,
    /// The way to choose that the run began with, and that of now.
    base: usize,
    pricing: usize,
    /// How often it was tried to go on from here, and after how many steps that was.
    tried: usize,
    failed_at: Option<usize>,
    /// For how many steps it does not go back to the first way to choose.
    quiet: usize,
    backs: usize,
    goes_back: bool,
}

impl Run {
    fn new(method: Method, base: usize) -> Run {
        Run {
            method,
            base,
            pricing: base,
            tried: 0,
            failed_at: None,
            quiet: 0,
            backs: 0,
            goes_back: false,
        }
    }

    /// After a step.
    fn count_step(&mut self) {
        self.quiet = self.quiet.saturating_sub(1);
        if self.quiet == 0 {
            self.pricing = self.base;
        }
    }

    /// Counts a failure after so many steps, and answers whether it is the first one there.
    fn count_failure(&mut self, steps: usize) -> bool {
        if self.failed_at != Some(steps) {
            self.failed_at = Some(steps);
            self.tried = 0;
        }
        self.tried = self.tried.saturating_add(1);
        self.tried == 1
    }

    /// Goes on by another way to choose, or from an earlier basis, or ends.
    fn change(&mut self) -> Result<(), Stop> {
        self.pricing = self.pricing.saturating_add(1) % PRICINGS;
        self.quiet = 3;
        if self.tried <= PRICINGS {
            return Ok(());
        }
        self.backs = self.backs.saturating_add(1);
        if self.backs > MOST_BACKS {
            return Err(Stop::Declined);
        }
        self.goes_back = true;
        self.tried = 0;
        self.failed_at = None;
        self.pricing = (self.backs % (PRICINGS - 1)).saturating_add(1);
        self.quiet = self.backs.saturating_mul(5).saturating_add(10);
        Ok(())
    }
}

impl<F: Field> Solver<F> {
    /// So many turns a run takes at most.
    fn most_turns(&self) -> usize {
        self.program
            .count()
            .saturating_mul(50)
            .saturating_add(1_000)
    }

    /// Runs a method from where it stands. It declines where numbers that are needed are not held
    /// whatever is tried, or the turns are too many.
    fn run(&mut self, method: Method, base: usize) -> Result<End, Stop> {
        let mut run = Run::new(method, base);
        self.stands.clear();
        self.note_stand()?;
        for _turn in 0..self.most_turns() {
            match self.step(&mut run) {
                Ok(None) => run.count_step(),
                Ok(Some(end)) => return Ok(end),
                Err(halt) => self.recover(&mut run, halt)?,
            }
        }
        Err(Stop::Declined)
    }

    /// One step of a run, or its end.
    fn step(&mut self, run: &mut Run) -> Result<Option<End>, Halt> {
        if run.goes_back {
            run.goes_back = false;
            self.go_back()?;
        }
        if self.basis.steps() >= MOST_STEPS {
            self.refresh(true)?;
        }
        if self.basis.steps() == 0 && self.has_costs() {
            self.note_stand()?;
        }
        let end = self.make_step(run)?;
        match end {
            Some(End::Optimal) => self.polish(),
            _ => Ok(end),
        }
    }

    fn make_step(&mut self, run: &Run) -> Result<Option<End>, Halt> {
        let pricing = Pricing::of(run.pricing);
        match run.method {
            Method::Dual => self.turn(pricing),
            Method::Primal => self.advance(pricing),
        }
    }

    /// The end of a run at an optimum: the basis is factored anew, and values and costs are
    /// calculated from it alone. If they are wrong then, the run is not at its end.
    fn polish(&mut self) -> Result<Option<End>, Halt> {
        if self.basis.steps() != 0 {
            self.refresh(true)?;
            return Ok(None);
        }
        if self.has_right_costs()? {
            Ok(Some(End::Optimal))
        } else {
            Err(Halt::Singular)
        }
    }

    /// Makes a run go on where a number was not held: the basis is factored anew, then other ways to
    /// choose are tried, then it goes on from an earlier basis.
    fn recover(&mut self, run: &mut Run, halt: Halt) -> Result<(), Stop> {
        if halt == Halt::NoMemory {
            return Err(Stop::NoMemory);
        }
        if run.count_failure(self.steps) {
            match self.refresh(true) {
                Ok(()) => return Ok(()),
                Err(Halt::NoMemory) => return Err(Stop::NoMemory),
                Err(Halt::Long | Halt::Singular) => run.tried = PRICINGS + 2,
            }
        }
        run.change()
    }

    /// The dual method, from costs with the right signs on.
    fn run_dual(&mut self, bounds: &[Bounds<F>], base: usize) -> Result<End, Stop> {
        self.settle(bounds)?;
        if let Some(failing) = self.find_crossed()? {
            return Ok(End::Failing(failing));
        }
        let end = self.run(Method::Dual, base)?;
        if let End::Optimal = end
            && let Some(failing) = self.find_crossed()?
        {
            return Ok(End::Failing(failing));
        }
        Ok(end)
    }

    /// Goes to a basis at which the costs have the signs that the bounds ask for, by one way to
    /// choose.
    fn run_start(&mut self, bounds: &[Bounds<F>], base: usize) -> Result<End, Stop> {
        let mut boxes = Vec::new(self.alloc);
        for bounds in bounds {
            boxes.push(bounds.box_of())?;
        }
        let end = self.run_dual(&boxes, base)?;
        for (cost, bounds) in self.costs.iter().zip(bounds) {
            let sign = cost.sign()?;
            if sign < 0 && bounds.high.is_none() || sign > 0 && bounds.low.is_none() {
                return Ok(End::Ray);
            }
        }
        Ok(end)
    }

    /// Solves the program from the basis of the rows' variables, by one way to choose.
    fn run_anew(&mut self, bounds: &[Bounds<F>], base: usize) -> Result<End, Stop> {
        self.reset()?;
        match self.run_start(bounds, base)? {
            End::Optimal => self.run_dual(bounds, base),
            end => Ok(end),
        }
    }

    /// The same by each way to choose until one comes to an end.
    fn solve_anew(&mut self, bounds: &[Bounds<F>]) -> Result<End, Stop> {
        for base in 0..PRICINGS {
            match self.run_anew(bounds, base) {
                Err(Stop::Declined) => {}
                end => return end,
            }
        }
        Err(Stop::Declined)
    }

    /// Goes to a basis at which the costs have the signs that the bounds ask for, if there is one.
    pub(crate) fn start_at(&mut self, bounds: &[Bounds<F>]) -> Result<End, Stop> {
        for base in 0..PRICINGS {
            self.reset()?;
            match self.run_start(bounds, base) {
                Err(Stop::Declined) => {}
                end => return end,
            }
        }
        Err(Stop::Declined)
    }

    /// Goes to a basis whose values are within the bounds, from one at which the costs have the
    /// right signs; where that declines, from the basis of the rows' variables.
    pub(crate) fn solve_at(&mut self, bounds: &[Bounds<F>]) -> Result<End, Stop> {
        if self.has_no_factors() {
            return self.solve_freely(bounds);
        }
        match self.run_dual(bounds, 0) {
            Err(Stop::Declined) => self.solve_anew(bounds),
            end => end,
        }
    }

    /// The same where nothing is minimised: on the way something is, so that the bases stay sparse.
    fn solve_freely(&mut self, bounds: &[Bounds<F>]) -> Result<End, Stop> {
        self.set_fitting_sum(bounds)?;
        let end = self.solve_anew(bounds)?;
        self.clear_sum()?;
        Ok(end)
    }

    /// Goes to a basis at which the costs have the signs that the bounds ask for, from one whose
    /// values are within them; where that declines, from the basis of the rows' variables.
    pub(crate) fn improve_at(&mut self) -> Result<End, Stop> {
        match self.run(Method::Primal, 0) {
            Err(Stop::Declined) => {
                let bounds = self.bounds.clone()?;
                self.solve_anew(&bounds)
            }
            end => end,
        }
    }
}
