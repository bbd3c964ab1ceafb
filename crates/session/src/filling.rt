ghost use Rattle.std.specs.Prelude.{◌≡◌, if◌then◌else◌};
ghost use Rattle.session.specs.Built.{filled, may_fill, of_last, with_last};
ghost use Rattle.session.specs.Contents.{allowed, fits, overlaid};

use crate::memory::{Block, Pile};
use crate::misplaced::Misplaced;
use crate::unit::Unit;

impl<T: Copy> Block<T> {
    // Puts contents in from a place on, or changes nothing where they do not fit.
    pub(crate) fn put(&mut self, place: usize, contents: &[T]) -> Result<(), Misplaced>
        ensures answer { result ≡ allowed (fits self.old place contents.now) }
        ensures after { self.new ≡ (if fits self.old place contents.now then overlaid self.old place contents.now else self.old) }
    {
        let units = self.units.as_mut_slice();
        let size = contents.len();
        if place > units.len() || size > units.len() - place {
            return Err(Misplaced::Outside);
        }
        units[place..place + size].copy_from_slice(contents);
        Ok(())
    }
}

impl Pile {
    // Raw contents into the core named last, which has to be of their unit. The last core has an arm for each shape,
    // since the proof does not learn what a borrow out of joined patterns leaves behind.
    pub fn put<U: Unit>(&mut self, place: usize, contents: &[U]) -> Result<(), Misplaced>
        ensures answer { result ≡ of_last (λ m. may_fill (U.held m) place contents.now) self.old }
        ensures after { self.new ≡ with_last (λ m. filled (U.held m) U.memory place contents.now m) self.old }
    {
        match self {
            Pile::Nothing | Pile::Image(_) => Err(Misplaced::NoCore),
            Pile::One(last) => U::fill(last, place, contents),
            Pile::Two(_, last) => U::fill(last, place, contents),
            Pile::Pair(_, last) => U::fill(last, place, contents),
        }
    }
}
