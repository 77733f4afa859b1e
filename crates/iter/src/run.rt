ghost use Rattle.std.specs.Prelude.{◌≡◌, ◌+◌, ◌^◌, ◌<◌, ◌≤◌};

use crate::slice::ItemSlice;
use reader::reader::Description;
use std::alloc::AllocError;

// A run: where it is, and what is said of it. It has a unit, and its length and clocks fit 32 bits.
#[derive(PartialEq, Eq, Debug)]
pub struct Run<P> {
    pub place: P,
    pub about: Description,
    ghost some: { 0 < about.len },
    ghost short: { about.len < 2 ^ 32 },
    ghost fits: { about.id.clock + about.len ≤ 2 ^ 32 },
}

impl<P: Copy> Copy for Run<P> {}

// Written out, since a struct with ghost fields has no derived `Clone` under a type parameter.
impl<P: Clone> Clone for Run<P> {
    ghost is_clone = { λ x y. P.is_clone x.place y.place × (y.about ≡ x.about) };

    ghost is_infallible = { λ x. P.is_infallible x.place };

    fn clone(&self) -> Result<Run<P>, AllocError> {
        let place = self.place.clone()?;
        Ok(Run {
            place,
            about: self.about,
        })
    }
}

impl<P: Copy> Run<P> {
    ghost use Rattle.std.specs.Prelude.{Ok};
    ghost use Rattle.iter.specs.Bare.{bare};
    ghost use Rattle.iter.specs.Ranges.{Course, Answers, part};

    // The units from an offset up to another, which is excluded; none where there are none.
    pub(crate) fn part(self, first: u32, stop: u32) -> Option<ItemSlice<P>>
        requires { stop ≤ self.about.len }
        ensures { (later : Course P) → Answers (part (bare self) first stop later) (Ok result) later }
    {
        if first < stop {
            Some(ItemSlice {
                run: self,
                start: first,
                end: stop - 1,
            })
        } else {
            None
        }
    }
}
