//! The headsigns of stop times by number.

ghost use Rattle.std.specs.Prelude.{◌≡◌, [], IfOk, OnOk, Some, slice_get, true};
ghost use Rattle.gtfs_schema.specs.Columns as kind;
ghost use Rattle.gtfs_schema.specs.ReadFields.{word_of};
ghost use Rattle.gtfs_schema.specs.FieldValues.{plain};
ghost use Rattle.gtfs_rows.specs.Headsigns.{AddsOnly, AreDistinct, KeepsHeadsigns, NamesHeadsign};
ghost use Rattle.gtfs_reading.specs.HeadsignIndex.{with_headsign};

use crate::plain::plain;
use gtfs_field::{List, OutOfMemory, Text};
use gtfs_rows::OptionalHeadsign;
use gtfs_schema::has_control;
use indexmap::IndexSet;
use std::alloc::Global;
use std::hash::RandomState;
use std::marker::Model;

// Each headsign once, in the order in which they were met. A control character is a space.
#[derive(Drop)]
pub(crate) struct Headsigns {
    alloc: Global,
    texts: IndexSet<String, RandomState>,
    // The index of the last one that was asked for:
    // the stop times of a trip mostly have one headsign.
    last: usize,
}

impl Model for Headsigns {
    ghost use Rattle.std.specs.Prelude.{map, string_bytes};
    ghost use Rattle.indexmap.specs.IndexSet.{hasher_of};
    ghost use Rattle.gtfs_rows.specs.Headsigns.{ArePlain};
    ghost use Rattle.gtfs_reading.specs.HeadsignIndex.{HeadsignIndex};

    ghost Value = { HeadsignIndex };

    ghost view = { λ h. record {
      texts = map string_bytes h.texts.keys;
      random = hasher_of h.texts;
    } };

    ghost invariant = { λ h. ArePlain (map string_bytes h.texts.keys) };
}

impl Headsigns {
    pub(crate) fn new(alloc: Global, random: RandomState) -> Headsigns
        ensures empty { result.texts ≡ [] }
        ensures random { result.random ≡ random }
    {
        Headsigns {
            alloc,
            texts: IndexSet::with_hasher(alloc, random),
            last: 0,
        }
    }

    // The number of a headsign as it stands in a field, or none where the field is empty.
    #[inline(always)]
    pub(crate) fn number(&mut self, text: &str) -> Result<OptionalHeadsign, OutOfMemory>
        ensures named { IfOk result
            (λ n. NamesHeadsign self.new.texts n (word_of kind.text text.now)) }
        ensures added { IfOk result (λ n. AddsOnly self.old.texts self.new.texts n) }
        ensures texts { OnOk result (self.new.texts
            ≡ with_headsign self.old.texts (word_of kind.text text.now)) }
        ensures kept { KeepsHeadsigns self.old.texts self.new.texts }
    {
        if text.is_empty() {
            return Ok(OptionalHeadsign::new(None));
        }
        let index = self.index(text)?;
        OptionalHeadsign::at_index(index)
    }

    // The texts in their order.
    pub(crate) fn into_list(self) -> Result<List<Text>, OutOfMemory>
        ensures texts { IfOk result (λ texts. texts ≡ self.texts) }
        ensures distinct { OnOk result (AreDistinct self.texts) }
    {
        let Headsigns {
            alloc,
            texts,
            last: _,
        } = self;
        let mut list = Vec::with_capacity(alloc, texts.len())?;
        for text in texts {
            list.push(Text::new(text))?;
        }
        Ok(List::new(list))
    }

    // The index of a headsign, which is added where it is new.
    fn index(&mut self, text: &str) -> Result<usize, OutOfMemory>
        ensures index { IfOk result (λ k. slice_get self.new.texts k ≡ Some (plain text.now)) }
        ensures added { IfOk result (λ k. AddsOnly self.old.texts self.new.texts (Some k)) }
        ensures texts { OnOk result (self.new.texts
            ≡ with_headsign self.old.texts (Some (plain text.now))) }
        ensures kept { KeepsHeadsigns self.old.texts self.new.texts }
    {
        if self.is_at(self.last, text) {
            return Ok(self.last);
        }
        let index = if has_control(text) {
            let text = plain(self.alloc, text)?;
            self.index_of_plain(text.as_str())?
        } else {
            self.index_of_plain(text)?
        };
        self.last = index;
        Ok(index)
    }

    // The index of a text without control characters, which is added where it is new.
    fn index_of_plain(&mut self, text: &str) -> Result<usize, OutOfMemory>
        requires { plain text.now ≡ text.now }
        ensures index { IfOk result (λ k. slice_get self.new.texts k ≡ Some text.now) }
        ensures added { IfOk result (λ k. AddsOnly self.old.texts self.new.texts (Some k)) }
        ensures texts { OnOk result (self.new.texts
            ≡ with_headsign self.old.texts (Some text.now)) }
        ensures kept { KeepsHeadsigns self.old.texts self.new.texts }
    {
        if let Some(index) = self.texts.get_index_of(text) {
            return Ok(index);
        }
        let index = self.texts.len();
        self.texts.insert(String::from_str(self.alloc, text)?)?;
        Ok(index)
    }

    // Whether the text at an index is this one.
    fn is_at(&self, index: usize, text: &str) -> bool
        ensures { result ≡ true → slice_get self.now.texts index ≡ Some text.now }
    {
        match self.texts.get_index(index) {
            Some(found) => found.as_str() == text,
            None => false,
        }
    }
}
