ghost use Rattle.std.specs.Prelude.{◌≡◌, ◌<◌, length, IfOk, IfSome};
ghost use Rattle.std.specs.List.{All};
ghost use Rattle.gtfs_schema.specs.steps.Ids.{Answers, AnswersRow, FirstRows};
ghost use Rattle.gtfs_schema.specs.steps.IdSlots.{IsFoundIn, IsSlotOf};

use crate::equal::are_equal;
use crate::finder::FoundId;
use crate::id_row::{HEAD, IdRow};
use gtfs_field::OutOfMemory;
use std::alloc::Global;

// An odd number whose multiples are spread evenly: 2^64 divided by the golden ratio.
const SPREAD: u64 = 0x9E37_79B9_7F4A_7C15;

// How many slots an id may stand in, one after another.
const TRIES: usize = 16;

// No id has this number: there are slots for fewer.
const NO_NUMBER: u32 = u32::MAX;

// A guess which number an id has. A short id stands in its slot, and its first row
// beside it: then a look at the slot is enough to find it, and its row, which is mostly
// in no near cache, is not read.
#[derive(Clone, Copy)]
pub(crate) struct Slot {
    // What is mixed of the id, which tells most others apart.
    tag: u32,
    number: u32,
    row: u32,
    // How long the id is that stands in the head, and 0 where none does.
    length: u8,
    head: [u8; HEAD],
}

impl Slot {
    // The slot of a row whose id has this number,
    // and None where the number is too large for a slot.
    fn new(row: &IdRow<'_>, number: usize) -> Option<Slot>
        ensures { IfSome result (λ slot. IsSlotOf row.now number slot) }
    {
        let guess = Slot {
            tag: tag_of(row.bytes()),
            number: u32::try_from(number).ok()?,
            ..FREE
        };
        let length = row.id.len();
        match u32::try_from(row.row) {
            Ok(first_row) if length <= HEAD => Some(Slot {
                row: first_row,
                length: length as u8,
                head: row.head,
                ..guess
            }),
            _ => Some(guess),
        }
    }

    #[inline(always)]
    pub(crate) fn number(&self) -> usize
        ensures { result ≡ self.now.number }
    {
        self.number as usize
    }

    // Whether an id of this tag may be that of the slot.
    #[inline(always)]
    pub(crate) fn is_tagged(&self, tag: u32) -> bool {
        self.tag == tag
    }

    // Whether the slot holds its id.
    #[inline(always)]
    pub(crate) fn holds_id(&self) -> bool {
        self.length > 0
    }

    // This id, where it stands here.
    #[inline(always)]
    pub(crate) fn found(&self, id: &str) -> Option<FoundId>
        ensures { IfSome result (λ found. IsFoundIn self.now id.now found) }
    {
        let length = usize::from(self.length);
        if length == 0 || length > HEAD || !are_equal(&self.head[..length], id.as_bytes()) {
            return None;
        }
        Some(FoundId {
            number: self.number(),
            row: self.row as usize,
        })
    }
}

const FREE: Slot = Slot {
    tag: 0,
    number: NO_NUMBER,
    row: 0,
    length: 0,
    head: [0; HEAD],
};

// Free slots for this many ids:
// more than twice as many, so that most ids stand in the first that is tried.
pub(crate) fn free_slots(alloc: Global, ids: usize) -> Result<Vec<Slot>, OutOfMemory>
    ensures { IfOk result (λ slots. (i : FirstRows) → All (Answers i) slots.items) }
{
    let mut slots = Vec::new(alloc);
    slots.resize(ids.saturating_mul(2).saturating_add(TRIES), FREE)?;
    Ok(slots)
}

// Where the slots begin in which an id of this tag may stand, and where they end.
#[inline(always)]
pub(crate) fn bounds(slots: &[Slot], tag: u32) -> (usize, usize) {
    let first = first_slot(slots.len(), tag);
    (first, first.saturating_add(TRIES))
}

// Puts a row whose id has this number into the first free slot for it.
// Where there is none, the number is not guessed.
pub(crate) fn fill_slot(slots: &mut Vec<Slot>, row: &IdRow<'_>, number: usize)
    ensures { (i : FirstRows) → AnswersRow i row.now number
        → All (Answers i) slots.old.items → All (Answers i) slots.new.items }
{
    if let Some(slot) = Slot::new(row, number)
        && let Some(index) = free_index(slots, slot.tag)
    {
        slots[index] = slot;
    }
}

// The first free slot for an id of this tag.
fn free_index(slots: &[Slot], tag: u32) -> Option<usize>
    ensures { IfSome result (λ index. index < length slots.now) }
{
    let (first, end) = bounds(slots, tag);
    for index in first..end {
        if let Some(slot) = slots.get(index)
            && slot.number == NO_NUMBER
        {
            return Some(index);
        }
    }
    None
}

// The index among the first ones that the highest bits of a tag tell, which depend on each byte of
// an id. There are TRIES slots more than first ones.
#[inline(always)]
fn first_slot(slots: usize, tag: u32) -> usize {
    let firsts = slots.saturating_sub(TRIES) as u64;
    (u64::from(tag).wrapping_mul(firsts) >> 32) as usize
}

// A number that depends on each byte:
// those of eight after eight, and of the last eight, which may overlap.
#[inline(always)]
pub(crate) fn tag_of(bytes: &[u8]) -> u32 {
    let mut mixed = last_bytes(bytes).wrapping_mul(SPREAD);
    let mut left = bytes;
    while let [a, b, c, d, e, f, g, h, rest @ ..] = left {
        let eight = u64::from_be_bytes([*a, *b, *c, *d, *e, *f, *g, *h]);
        mixed = (mixed.rotate_left(29) ^ eight).wrapping_mul(SPREAD);
        left = rest;
    }
    (mixed >> 32) as u32
}

// The last eight bytes as one number.
// Of fewer bytes the first and the last four, and of fewer than four all.
#[inline(always)]
fn last_bytes(bytes: &[u8]) -> u64 {
    if let [.., a, b, c, d, e, f, g, h] = bytes {
        return u64::from_be_bytes([*a, *b, *c, *d, *e, *f, *g, *h]);
    }
    if let [a, b, c, d, ..] = bytes
        && let [.., e, f, g, h] = bytes
    {
        return u64::from_be_bytes([*a, *b, *c, *d, *e, *f, *g, *h]);
    }
    bytes
        .iter()
        .fold(0, |number: u64, byte| number << 8 | u64::from(*byte))
}
