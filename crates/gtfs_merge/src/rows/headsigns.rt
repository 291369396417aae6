ghost use Rattle.std.specs.Prelude.{◌≡◌, [], IfOk, OnOk, Some, option_and_then, slice_get};
ghost use Rattle.gtfs_rows.specs.Headsigns.{AreDistinct, KeepsHeadsigns};
ghost use Rattle.gtfs_merge.specs.Headsigns.{AreHeadsigns, AreNumbersOf, numbers_on};

use crate::kind::Side;
use crate::sides::Sides;
use gtfs_field::{List, OutOfMemory, Text};
use gtfs_rows::{HeadsignNo, OptionalHeadsign};
use indexmap::IndexSet;
use std::alloc::Global;
use std::hash::RandomState;
use std::marker::Model;

// The headsigns of both feeds, each once, and the new numbers of those of each side.
pub(crate) struct Headsigns {
    texts: List<Text>,
    a: Vec<OptionalHeadsign>,
    b: Vec<OptionalHeadsign>,
}

impl Model for Headsigns {
    ghost use Rattle.gtfs_merge.specs.Headsigns.{HeadsignTable};

    ghost Value = { HeadsignTable };

    ghost view = { λ h. record { texts = h.texts; a = h.a.items; b = h.b.items } };
}

// Written out, so that a function that lets headsigns go has one call to prove.
impl Drop for Headsigns {
    fn drop(self) {
        let Headsigns {
            texts: _,
            a: _,
            b: _,
        } = self;
    }
}

impl Headsigns {
    // The headsigns of both feeds. There are at most 4,294,967,295.
    pub(crate) fn of_feeds(
        alloc: Global,
        random: RandomState,
        sides: &Sides,
    ) -> Result<Headsigns, OutOfMemory>
        ensures { IfOk result (AreHeadsigns sides.now) }
    {
        let mut found = FoundHeadsigns::new(alloc, random);
        let of_a = found.numbers(sides.a.parts().headsigns.as_slice())?;
        let of_b = found.numbers(sides.b.parts().headsigns.as_slice())?;
        let texts = found.into_list()?;
        Ok(Headsigns {
            texts,
            a: of_a,
            b: of_b,
        })
    }

    // The new number of each headsign of a side.
    pub(crate) fn numbers(&self, side: Side) -> &[OptionalHeadsign]
        ensures { result.now ≡ numbers_on self.now side }
    {
        match side {
            Side::A => self.a.as_slice(),
            Side::B => self.b.as_slice(),
        }
    }

    // The texts by their new numbers.
    pub(crate) fn into_texts(self) -> List<Text>
        ensures { result ≡ self.texts }
    {
        let Headsigns { texts, a: _, b: _ } = self;
        texts
    }
}

// The headsigns so far, in the order in which they were met.
#[derive(Drop)]
struct FoundHeadsigns {
    alloc: Global,
    texts: IndexSet<String, RandomState>,
}

impl Model for FoundHeadsigns {
    ghost use Rattle.std.specs.Prelude.{List as Sequence, ℕ, map, string_bytes};

    ghost Value = { Sequence (Sequence ℕ) };

    ghost view = { λ f. map string_bytes f.texts.keys };
}

impl FoundHeadsigns {
    fn new(alloc: Global, random: RandomState) -> FoundHeadsigns
        ensures { result ≡ [] }
    {
        FoundHeadsigns {
            alloc,
            texts: IndexSet::with_hasher(alloc, random),
        }
    }

    // The number of each of these headsigns, of which new ones are added.
    fn numbers(&mut self, headsigns: &[Text]) -> Result<Vec<OptionalHeadsign>, OutOfMemory>
        ensures numbers { IfOk result (λ n. AreNumbersOf self.new headsigns.now n.items) }
        ensures kept { KeepsHeadsigns self.old self.new }
    {
        let mut numbers = Vec::with_capacity(self.alloc, headsigns.len())?;
        for headsign in headsigns {
            numbers.push(self.number(headsign.as_str())?)?;
        }
        Ok(numbers)
    }

    // The number of a headsign, which is added where it is new.
    fn number(&mut self, headsign: &str) -> Result<OptionalHeadsign, OutOfMemory>
        ensures number { IfOk result
            (λ n. option_and_then (slice_get self.new) n ≡ Some headsign.now) }
        ensures kept { KeepsHeadsigns self.old self.new }
    {
        let text = String::from_str(self.alloc, headsign)?;
        let (index, _) = self.texts.insert_full(text)?;
        let number = OptionalHeadsign::at_index(index)?;
        Ok(number)
    }

    // The texts in their order.
    fn into_list(self) -> Result<List<Text>, OutOfMemory>
        ensures texts { IfOk result (λ texts. texts ≡ self) }
        ensures distinct { OnOk result (AreDistinct self) }
    {
        let FoundHeadsigns { alloc, texts } = self;
        let mut list = Vec::with_capacity(alloc, texts.len())?;
        for text in texts {
            list.push(Text::new(text))?;
        }
        Ok(List::new(list))
    }
}
