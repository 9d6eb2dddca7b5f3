//! The end of the log in which all facets of an image are in use: the pre-images of its generators,
//! and the facets by name.
ghost use Rattle.std.specs.Prelude.{◌≡◌, ◌≢◌, ◌≤◌, ◌↔◌, [], ℕ, All, Contains, IfErr, IfOk, IsTrue, OnOk, length, map};
ghost use Rattle.exact_field.specs.Rational.{zero_ℚ};
ghost use Rattle.exact_field.specs.Vector.{entry};
ghost use Rattle.benson_dual.specs.Images.{AreAllInUse, IsApproximation, IsImage, IsUnreached};
ghost use Rattle.overflows.specs.Licence.{Licensed};
ghost use Rattle.log_rules.specs.Live.{preimages};
ghost use Rattle.outer_approx.specs.Standing.{IsEnded, IsOpenTrail};
ghost use Rattle.outer_approx.specs.Task.{Task, setting};
ghost use Rattle.overflows.specs.Faults.{OnLicence, Overflows};
ghost use Rattle.polyhedra.specs.LiveList.{numbers};

use crate::image::Image;
use deriv_log::Entries;
use double_descr::Dd;
use exact_field::{Field, is_zero};
use lineality::line_places::full_vector;
use outer_approx::{end_solved, push_preimage};
use overflows::SolveFault;
use recession::{Asked, Kept, ask};

/// Whether a generator is a point: its last entry is not 0.
fn is_point<F: Field>(generator: &[F]) -> bool
    requires { 1 ≤ length generator.now }
    ensures { IsTrue result ↔ (entry (map F.value generator.now) (length generator.now) ≢ zero_ℚ) }
{
    !is_zero(generator[generator.len() - 1])
}

/// A log in which all facets of an image are in use, and the double description of their rows.
#[derive(Drop)]
pub(crate) struct Approximation<F: Field> {
    pub(crate) trail: Entries,
    /// The rows and generators, without their entries at the places of lines.
    pub(crate) dd: Dd<F>,
}

impl<F: Field> Approximation<F> {
    /// The log so far.
    fn into_trail(self) -> Entries
        ensures { result ≡ self.trail }
    {
        self.trail
    }

    /// Gives the live generator `g` its pre-image. It violates no cut, since all facets are in use.
    fn reach(&mut self, image: &Image<'_, F>, g: u32, kept: &mut Kept<F>) -> Result<(), SolveFault>
        ghost task: { Task }
        requires image { IsImage F.value F.holds task image.now }
        requires stands { IsApproximation task image.now self.old }
        requires listed { Contains (numbers self.old.dd.list.live) g }
        requires fresh { preimages self.old.trail g ≡ [] }
        ensures stands { OnOk result (IsApproximation task image.now self.new) }
        ensures here { OnOk result (preimages self.new.trail g ≢ []) }
        ensures others { OnOk result ((k : ℕ) → k ≢ g →
            preimages self.new.trail k ≡ preimages self.old.trail k) }
        ensures rows { self.new.dd ≡ self.old.dd }
        ensures trail { IsOpenTrail task self.new.trail }
        ensures left { IfErr result (Overflows F.holds (setting task self.new.trail) []) }
    {
        let full = full_vector(image.alloc, image.places.as_slice(), self.dd.generator(g))?;
        let full = full.as_slice();
        let t = is_point(full);
        let v = &full[..image.c.len()];
        match ask(image.alloc, image.form, image.c, image.weights, v, t, kept)? {
            Asked::Reached(parts) => {
                Ok(push_preimage(image.alloc, &mut self.trail, g, t, &parts)?)
            }
            Asked::Cut(_) => unreachable!(),
        }
    }

    /// Gives each live generator its pre-image. It costs a linear program for each.
    fn reach_all(&mut self, image: &Image<'_, F>, kept: &mut Kept<F>) -> Result<(), SolveFault>
        ghost task: { Task }
        requires image { IsImage F.value F.holds task image.now }
        requires stands { IsApproximation task image.now self.old }
        requires unreached { IsUnreached self.old }
        ensures stands { OnOk result (IsApproximation task image.now self.new) }
        ensures reached { OnOk result
            (All (λ g. preimages self.new.trail g.number ≢ []) self.new.dd.list.live) }
        ensures trail { IsOpenTrail task self.new.trail }
        ensures left { IfErr result (Overflows F.holds (setting task self.new.trail) []) }
    {
        let count = self.dd.live().len();
        for i in 0..count {
            let g = self.dd.live()[i];
            self.reach(image, g, kept)?;
        }
        Ok(())
    }

    /// Gives each live generator its pre-image, names the facets and ends the log.
    fn end(&mut self, image: &Image<'_, F>, kept: &mut Kept<F>) -> Result<(), SolveFault>
        ghost task: { Task }
        requires image { IsImage F.value F.holds task image.now }
        requires stands { IsApproximation task image.now self.old }
        requires unreached { IsUnreached self.old }
        ensures ok { OnOk result (IsEnded task self.new.trail) }
        ensures facets { OnOk result (AreAllInUse task self.new.trail) }
        ensures trail { IfErr result (λ fault.
            OnLicence fault (λ licence. IsOpenTrail task self.new.trail)) }
        ensures left { IfErr result (Overflows F.holds (setting task self.new.trail) []) }
    {
        self.reach_all(image, kept)?;
        end_solved(image.alloc, &mut self.trail, &self.dd)?;
        Ok(())
    }

    /// The whole log of the image.
    pub(crate) fn into_log(
        self,
        image: &Image<'_, F>,
        kept: &mut Kept<F>,
    ) -> Result<Entries, SolveFault>
        ghost task: { Task }
        requires image { IsImage F.value F.holds task image.now }
        requires stands { IsApproximation task image.now self }
        requires unreached { IsUnreached self }
        ensures ok { IfOk result (IsEnded task) }
        ensures facets { IfOk result (AreAllInUse task) }
        ensures left { IfErr result (λ fault.
            OnLicence fault (Licensed F.holds task.file task.c)) }
    {
        let mut approximation = self;
        let told = approximation.end(image, kept);
        let entries = approximation.into_trail();
        match told {
            Ok(()) => Ok(entries),
            Err(fault) => Err(fault.with_trail(entries)),
        }
    }
}
