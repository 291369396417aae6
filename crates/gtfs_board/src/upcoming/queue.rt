ghost use Rattle.std.specs.Prelude.{◌≡◌, ◌++◌, ◌∷◌, [], ◌<◌, ◌+◌, ◌-◌, ◌^◌, false, length, slice_get, IfOk, Some, OnErr, OnOk, IsTrue};
ghost use Rattle.std.specs.Option.{option_to_list};
ghost use Rattle.std.specs.Ordering.{flip_args};
ghost use Rattle.std.specs.BinaryHeap.{heap_items, IsHeap};
ghost use Rattle.std.specs.List.Sorted.{IsSorted};
ghost use Rattle.gtfs_board.specs.upcoming.Candidates.{AreHeadedBy, HaveSameMembers, IsFirst, candidate_cmp, with_head};

use crate::upcoming::candidate::Candidate;
use gtfs_field::OutOfMemory;
use std::alloc::Global;
use std::collections::BinaryHeap;
use std::marker::Model;

// The candidates that wait, of which the first can be taken.
//
// Many that came together are sorted, and are taken from the end of a list. Few that came together,
// and what lanes give one at a time, wait in a heap.
#[derive(Drop)]
pub struct Queue {
    // The last comes first.
    sorted: Vec<Candidate>,
    heap: BinaryHeap<Candidate>,
}

impl Model for Queue {
    ghost use Rattle.std.specs.Prelude.{List, ◌++◌};
    ghost use Rattle.std.specs.BinaryHeap.{heap_items};
    ghost use Rattle.gtfs_board.specs.declared.upcoming.candidate.Candidate.{Candidate};
    ghost use Rattle.gtfs_board.specs.upcoming.Candidates.{AreInOrder};

    ghost Value = { List Candidate };

    ghost view = { λ q. q.sorted.items ++ heap_items q.heap };

    ghost invariant = { λ q. AreInOrder q.sorted.items (heap_items q.heap) };
}

impl Queue {
    // A queue in which none waits.
    pub fn new(alloc: Global) -> Queue
        ensures { result ≡ [] }
    {
        Queue {
            sorted: Vec::new(alloc),
            heap: BinaryHeap::new(alloc),
        }
    }

    // How many wait.
    pub fn len(&self) -> usize
        ensures value { result ≡ length self.now }
        ensures bound { result + 1 < 2 ^ 64 }
    {
        self.sorted.len() + self.heap.len()
    }

    // The first of those that wait.
    pub fn first(&self) -> Option<Candidate>
        ensures { AreHeadedBy result self.now }
    {
        if is_top_first(self.sorted.as_slice(), &self.heap) {
            self.heap.peek().copied()
        } else {
            self.sorted.last().copied()
        }
    }

    // A head and what was gathered join those that wait, and the first of all leaves. A refused
    // queue is as it was.
    pub fn join(
        &mut self,
        head: Option<Candidate>,
        mut fresh: Vec<Candidate>,
    ) -> Result<Option<Candidate>, OutOfMemory>
        ensures kept { OnErr result (self.new ≡ self.old) }
        ensures counts { IfOk result (λ o. HaveSameMembers (option_to_list o ++ self.new)
            (with_head self.old head ++ fresh.items)) }
        ensures first { IfOk result (λ o. IsFirst o self.new) }
    {
        if fresh.is_empty() {
            return self.exchange(head);
        }
        if let Some(head) = head {
            fresh.push(head)?;
        }
        self.take_in(fresh)?;
        Ok(self.pop())
    }

    // A head, if there is one, joins those that wait, and the first of all leaves. Mostly it takes
    // the place of the top of the heap. A refused queue is as it was.
    fn exchange(&mut self, head: Option<Candidate>) -> Result<Option<Candidate>, OutOfMemory>
        ensures kept { OnErr result (self.new ≡ self.old) }
        ensures counts { IfOk result (λ o. HaveSameMembers (option_to_list o ++ self.new)
            (with_head self.old head)) }
        ensures first { IfOk result (λ o. IsFirst o self.new) }
    {
        let Some(head) = head else {
            return Ok(self.pop());
        };
        let Some(first) = self.first() else {
            return Ok(Some(head));
        };
        if head.comes_before(&first) {
            return Ok(Some(head));
        }
        if is_top_first(self.sorted.as_slice(), &self.heap) {
            return Ok(Some(replace_top(&mut self.heap, head)));
        }
        self.heap.push(head)?;
        Ok(self.sorted.pop())
    }

    // The first leaves.
    fn pop(&mut self) -> Option<Candidate>
        ensures counts { HaveSameMembers (option_to_list result ++ self.new) self.old }
        ensures first { IsFirst result self.new }
    {
        if is_top_first(self.sorted.as_slice(), &self.heap) {
            self.heap.pop()
        } else {
            self.sorted.pop()
        }
    }

    // What was gathered joins those that wait. A refused queue is as it was.
    //
    // A list is sorted again only where as many come, so that over time the sorting costs no more
    // than a heap would.
    fn take_in(&mut self, fresh: Vec<Candidate>) -> Result<(), OutOfMemory>
        ensures kept { OnErr result (self.new ≡ self.old) }
        ensures counts { OnOk result (HaveSameMembers self.new (self.old ++ fresh.items)) }
    {
        if self.sorted.len() <= fresh.len() {
            self.sort_in(fresh)
        } else {
            self.add_to_heap(fresh)
        }
    }

    // Sorts in what was gathered. A refused queue is as it was.
    fn sort_in(&mut self, mut fresh: Vec<Candidate>) -> Result<(), OutOfMemory>
        ensures kept { OnErr result (self.new ≡ self.old) }
        ensures counts { OnOk result (HaveSameMembers self.new (self.old ++ fresh.items)) }
    {
        fresh.append(&mut self.sorted)?;
        fresh.sort_unstable();
        self.sorted = fresh;
        Ok(())
    }

    // What was gathered joins the heap. A refused queue is as it was.
    fn add_to_heap(&mut self, fresh: Vec<Candidate>) -> Result<(), OutOfMemory>
        ensures kept { OnErr result (self.new ≡ self.old) }
        ensures counts { OnOk result (HaveSameMembers self.new (self.old ++ fresh.items)) }
    {
        let mut fresh = BinaryHeap::from(fresh);
        self.heap.append(&mut fresh)?;
        Ok(())
    }
}

// Whether the top of the heap is the first of all: it comes before the last of the sorted ones,
// or is alone.
fn is_top_first(sorted: &[Candidate], heap: &BinaryHeap<Candidate>) -> bool
    requires sorted { IsSorted (flip_args candidate_cmp) sorted.now }
    requires heap { IsHeap (flip_args candidate_cmp) (heap_items heap.now) }
    ensures top { IsTrue result → AreHeadedBy (slice_get (heap_items heap.now) 0)
        (sorted.now ++ heap_items heap.now) }
    ensures last { result ≡ false → AreHeadedBy (slice_get sorted.now (length sorted.now - 1))
        (sorted.now ++ heap_items heap.now) }
{
    match (heap.peek(), sorted.last()) {
        (None, _) => false,
        (Some(_), None) => true,
        (Some(top), Some(last)) => top.comes_before(last),
    }
}

// A head takes the place of the top of a heap, which leaves.
fn replace_top(heap: &mut BinaryHeap<Candidate>, head: Candidate) -> Candidate
    requires some { 0 < length (heap_items heap.old) }
    requires ordered { IsHeap (flip_args candidate_cmp) (heap_items heap.old) }
    ensures counts { HaveSameMembers (result ∷ heap_items heap.new)
        (heap_items heap.old ++ head ∷ []) }
    ensures top { slice_get (heap_items heap.old) 0 ≡ Some result }
    ensures ordered { IsHeap (flip_args candidate_cmp) (heap_items heap.new) }
{
    let mut top = heap.peek_mut().unwrap();
    let first = *top;
    *top = head;
    first
}
