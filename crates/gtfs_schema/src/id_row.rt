ghost use Rattle.std.specs.Prelude.{◌≡◌, ◌≤◌, bytes_eq, length, take, IsTrue};

use crate::equal::are_equal;
use std::cmp::Ordering;

// How many bytes of an id stand in its row.
pub(crate) const HEAD: usize = 16;

// A row and its id. Only the ids are compared.
//
// An id that is short stands here a second time: its text lies among the other fields of its file,
// which the reading of another file drives out of the caches.
#[derive(Clone, Copy)]
pub(crate) struct IdRow<'a> {
    pub(crate) id: &'a str,
    pub(crate) head: [u8; HEAD],
    pub(crate) row: usize,
    ghost copied: { length id.now ≤ 16 → take (length id.now) head ≡ id.now },
}

impl<'a> IdRow<'a> {
    ghost use Rattle.gtfs_schema.specs.steps.IdRows.{id_of};

    pub(crate) fn new(id: &'a str, row: usize) -> IdRow<'a>
        ensures id { id_of result ≡ id.now }
        ensures row { result.row ≡ row }
    {
        let head = head_of(id.as_bytes());
        IdRow { id, head, row }
    }

    // The bytes of the id, from where it is short enough to stand.
    #[inline(always)]
    pub(crate) fn bytes(&self) -> &[u8]
        ensures { result.now ≡ id_of self.now }
    {
        let length = self.id.len();
        if length <= HEAD {
            &self.head[..length]
        } else {
            self.id.as_bytes()
        }
    }

    // Whether its id is this one.
    #[inline(always)]
    pub(crate) fn has(&self, id: &str) -> bool
        ensures { IsTrue result → IsTrue (bytes_eq (id_of self.now) id.now) }
    {
        are_equal(self.bytes(), id.as_bytes())
    }
}

// A short text, and zeros after it.
fn head_of(bytes: &[u8]) -> [u8; HEAD]
    ensures { length bytes.now ≤ 16 → take (length bytes.now) result ≡ bytes.now }
{
    let mut head = [0; HEAD];
    let length = bytes.len();
    if length <= HEAD {
        head[..length].copy_from_slice(bytes);
    }
    head
}

impl PartialEq for IdRow<'_> {
    ghost use Rattle.std.specs.Cmp.{eq_by_cmp_equiv, on_per, partial_equiv_from_equiv};
    ghost use Rattle.std.specs.Cmp.Lexicographic.{nat_list_cmp_total};
    ghost use Rattle.std.specs.Ordering.{eq_by_cmp, on};
    ghost use Rattle.gtfs_field.specs.TextOrder.{text_cmp};
    ghost use Rattle.gtfs_schema.specs.steps.IdRows.{id_of};

    ghost eq = { on id_of (eq_by_cmp text_cmp) };

    ghost laws = { on_per id_of (partial_equiv_from_equiv (eq_by_cmp_equiv nat_list_cmp_total)) };

    fn eq(&self, other: &Self) -> bool {
        self.cmp(other).is_eq()
    }
}

impl Eq for IdRow<'_> {
    ghost use Rattle.std.specs.Cmp.{eq_by_cmp_equiv, on_equiv};
    ghost use Rattle.std.specs.Cmp.Lexicographic.{nat_list_cmp_total};
    ghost use Rattle.gtfs_schema.specs.steps.IdRows.{id_of};

    ghost laws = { on_equiv id_of (eq_by_cmp_equiv nat_list_cmp_total) };
}

impl PartialOrd for IdRow<'_> {
    ghost use Rattle.std.specs.Cmp.{on_po, po};
    ghost use Rattle.std.specs.Cmp.Lexicographic.{nat_list_cmp_total};
    ghost use Rattle.std.specs.Prelude.{Some, refl};
    ghost use Rattle.gtfs_field.specs.TextOrder.{text_cmp};
    ghost use Rattle.gtfs_schema.specs.steps.IdRows.{id_of};

    ghost partial_cmp = { λ a b. Some (text_cmp (id_of a) (id_of b)) };

    ghost laws = { on_po id_of (po nat_list_cmp_total (λ a b. refl)) };

    fn partial_cmp(&self, other: &Self) -> Option<Ordering> {
        Some(self.cmp(other))
    }
}

impl Ord for IdRow<'_> {
    ghost use Rattle.std.specs.Cmp.{on_total};
    ghost use Rattle.std.specs.Cmp.Lexicographic.{nat_list_cmp_total};
    ghost use Rattle.std.specs.Prelude.{refl};
    ghost use Rattle.gtfs_field.specs.TextOrder.{text_cmp};
    ghost use Rattle.gtfs_schema.specs.steps.IdRows.{id_of};

    ghost cmp = { λ a b. text_cmp (id_of a) (id_of b) };

    ghost total = { on_total id_of nat_list_cmp_total };

    ghost matches_partial_cmp = { λ a b. refl };

    ghost matches_eq = { λ a b. refl };

    fn cmp(&self, other: &Self) -> Ordering {
        self.bytes().cmp(&other.bytes())
    }
}
