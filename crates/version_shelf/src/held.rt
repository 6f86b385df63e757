//! A catalog by the places of its versions.
ghost use Rattle.std.specs.Prelude.{◌≡◌, ◌-◌, ◌≤◌, ◌↔◌, IsTrue, None, replicate, slice_set};
ghost use Rattle.vec_base.specs.declared.limits.TheConstants.{MOST_TABLES};
ghost use Rattle.version_shelf.specs.OnShelf.{Names};

use vec_base::MOST_TABLES;

/// A catalog on a shelf. Entry n - 1 is the place of the version under the number n.
#[derive(Clone, Copy, Debug)]
pub struct Held {
    pub places: [Option<usize>; MOST_TABLES as usize],
}

impl Held {
    /// The catalog without tables.
    pub fn none() -> Held
        ensures { result.places ≡ replicate MOST_TABLES None }
    {
        Held {
            places: [None; MOST_TABLES as usize],
        }
    }

    /// The same places, but none for the number.
    pub fn without(&self, number: u32) -> Held
        requires low { 1 ≤ number }
        requires high { number ≤ MOST_TABLES }
        ensures { result.places ≡ slice_set self.now.places (number - 1) None }
    {
        let mut places = self.places;
        places[number as usize - 1] = None;
        Held { places }
    }

    /// Whether some number has the place.
    pub fn names(&self, place: usize) -> bool
        ensures { IsTrue result ↔ Names place self.now.places }
    {
        for named in &self.places {
            if *named == Some(place) {
                return true;
            }
        }
        false
    }
}
