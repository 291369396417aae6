ghost use Rattle.std.specs.Prelude.{◌≡◌, ◌||◌, ℕ, List, Option, [], ◌∷◌, codes, option_map, IfOk, OnOk};
ghost use Rattle.std.specs.BTreeSet.{contains};
ghost use Rattle.std.specs.Cmp.Lexicographic.{pointwise};
ghost use Rattle.std.specs.Ordering.{eq_by_cmp, is_eq};
ghost use Rattle.gtfs_schema.specs.KeyRules.{all_there};
ghost use Rattle.gtfs_schema.specs.declared.code.Code.TheVariants as Code;
ghost use Rattle.gtfs_schema.specs.ReadFields.{amount_of};
ghost use Rattle.gtfs_schema.specs.FieldValues.{Value, amount, if_there, value_eq, word};
ghost use Rattle.gtfs_schema.proofs.RuleFacts.{silent_column};
ghost use Rattle.gtfs_schema.specs.steps.KeptColumns.{at_column};
ghost use Rattle.gtfs_row_rules.specs.KeyOrder.{numbered_alike, six_alike};
ghost use Rattle.gtfs_row_rules.specs.RowKeys.{end_part, has_key, kind_of_number, numbered_in, numbered_key, repeats_key};
ghost use Rattle.gtfs_row_rules.specs.RowRules.{HoldsWhere};
ghost use Rattle.gtfs_table.specs.Rows.{records_in};
ghost use Rattle.gtfs_table.specs.Tables.{field_under, record_at};
ghost use Rattle.gtfs_table.specs.declared.file.File.TheVariants as files;

use crate::rule::RowRules;
use gtfs_field::OutOfMemory;
use gtfs_schema::{Code, FileName, Found, Problem, values};
use gtfs_table::{File, Record, Tables};
use std::alloc::Global;
use std::collections::BTreeSet;

// The keys of the rows of a file.
pub(crate) trait Keys {
    type Key: Ord + Copy + Drop;

    ghost parts: { Self.Key → List Value };

    ghost key_at: { Self → ℕ → Option (List Value) };

    // The key of a row, where each part of it is there.
    fn key(&self, row: usize) -> Option<Self::Key>
        ensures { option_map parts result ≡ key_at self.now row };

    ghost alike: { (a b : Self.Key) → is_eq (Self.Key.cmp a b)
        ≡ pointwise value_eq (parts a) (parts b) };
}

// Adds a key to those seen so far, and says whether it was among them.
fn was_seen<K: Ord + Drop>(
    seen: &mut BTreeSet<K, Global>,
    key: Option<K>,
) -> Result<bool, OutOfMemory>
    ensures answer { IfOk result (λ answer. answer ≡ if_there key (contains K.cmp seen.old)) }
    ensures added { OnOk result ((q : K) → contains K.cmp seen.new q
        ≡ (contains K.cmp seen.old q || if_there key (λ k. eq_by_cmp K.cmp k q))) }
{
    match key {
        Some(key) => Ok(!seen.insert(key)?),
        None => Ok(false),
    }
}

// The rule that no earlier row of a file has the key of a row: the column where it is reported, the
// keys of the rows, and those seen so far.
#[derive(Drop)]
pub(crate) struct RepeatedKey<K: Keys> {
    column: &'static str,
    keys: K,
    seen: BTreeSet<K::Key, Global>,
}

impl<K: Keys> RowRules for RepeatedKey<K> {
    ghost holds = { λ s d x before. HoldsWhere Code.E09 d x s.column.now
        (repeats_key (K.key_at s.keys) d x)
        × ((q : K.Key) → contains K.Key.cmp s.seen q
        ≡ has_key (K.key_at s.keys) before (K.parts q)) };

    ghost picks = { λ s x. at_column Code.E09 x s.column.now };

    ghost silent = { λ s d x before h. silent_column d Code.E09 x s.column.now
        (repeats_key (K.key_at s.keys) d x) h.0 };

    fn report(
        &mut self,
        file: File,
        row: usize,
        record: &Record<'_>,
        found: &mut Found<'_>,
    ) -> Result<(), OutOfMemory> {
        let repeats = was_seen(&mut self.seen, self.keys.key(row))?;
        let problem = Problem {
            file: FileName::Kept(file),
            row,
            code: Code::E09,
            column: self.column,
        };
        found.report_if(problem, repeats)
    }
}

// The number in a key: that of a date, or the seconds of a time.
#[derive(Clone, Copy)]
pub(crate) enum Number {
    Date,
    Time,
}

impl Number {
    fn read(self, text: &str) -> Option<i64>
        ensures { result ≡ amount_of (kind_of_number self) text.now }
    {
        match self {
            Number::Date => values::date(text),
            Number::Time => values::time(text),
        }
    }
}

// Keys of an id and a number. In calendar_dates.txt they are the id of a service and a date, in
// frequencies.txt the id of a trip and the start of a period. The number comes first: it mostly
// tells two keys apart without a look at texts.
#[derive(Clone, Copy)]
pub(crate) struct NumberedKeys<'a> {
    tables: &'a Tables,
    file: File,
    id: Option<usize>,
    number: Option<usize>,
    kind: Number,
}

impl<'a> Keys for NumberedKeys<'a> {
    type Key = (i64, &'a str);

    ghost parts = { λ k. word k.1.now ∷ amount k.0 ∷ [] };

    ghost key_at = { λ s n. let r = record_at (records_in s.tables.now s.file) n in
        numbered_key s.kind (field_under r s.id) (field_under r s.number) };

    fn key(&self, row: usize) -> Option<Self::Key> {
        let record = self.tables.record(self.file, row);
        let id = values::id(record.value(self.id));
        let number = self.kind.read(record.value(self.number));
        number.zip(id)
    }

    ghost alike = { λ a b. numbered_alike a.1.now b.1.now a.0 b.0 };
}

// The keys of transfers.txt: the ids of both stops, both routes and both trips, some of them empty.
#[derive(Clone, Copy)]
pub(crate) struct TransferKeys<'a> {
    tables: &'a Tables,
    from_stop: Option<usize>,
    to_stop: Option<usize>,
    from_route: Option<usize>,
    to_route: Option<usize>,
    from_trip: Option<usize>,
    to_trip: Option<usize>,
}

impl<'a> Keys for TransferKeys<'a> {
    type Key = (&'a str, &'a str, &'a str, &'a str, &'a str, &'a str);

    ghost parts = { λ k. word k.0.now ∷ word k.1.now ∷ word k.2.now
        ∷ word k.3.now ∷ word k.4.now ∷ word k.5.now ∷ [] };

    ghost key_at = { λ s n.
        let r = record_at (records_in s.tables.now files.Transfers) n in all_there
        (end_part (field_under r s.from_stop) ∷ end_part (field_under r s.to_stop)
        ∷ end_part (field_under r s.from_route) ∷ end_part (field_under r s.to_route)
        ∷ end_part (field_under r s.from_trip) ∷ end_part (field_under r s.to_trip) ∷ []) };

    fn key(&self, row: usize) -> Option<Self::Key> {
        let record = self.tables.record(File::Transfers, row);
        let from_stop = end_id(record.value(self.from_stop))?;
        let to_stop = end_id(record.value(self.to_stop))?;
        let from_route = end_id(record.value(self.from_route))?;
        let to_route = end_id(record.value(self.to_route))?;
        let from_trip = end_id(record.value(self.from_trip))?;
        let to_trip = end_id(record.value(self.to_trip))?;
        Some((from_stop, to_stop, from_route, to_route, from_trip, to_trip))
    }

    ghost alike = { λ a b. six_alike a.0.now a.1.now a.2.now a.3.now a.4.now a.5.now
        b.0.now b.1.now b.2.now b.3.now b.4.now b.5.now };
}

// A readable id, or the empty text.
fn end_id(text: &str) -> Option<&str>
    ensures { option_map (λ t. word t.now) result ≡ end_part text.now }
{
    if text.is_empty() {
        Some("")
    } else {
        values::id(text)
    }
}

// The rule about keys of an id and a number, reported at the column of the number.
pub(crate) fn repeated_numbered<'a>(
    alloc: Global,
    tables: &'a Tables,
    file: File,
    id: &str,
    number: &'static str,
    kind: Number,
) -> RepeatedKey<NumberedKeys<'a>>
    requires { HoldsWhere Code.E09 tables.now file number.now
        (repeats_key (numbered_in kind tables.now file id.now number.now) tables.now file) }
    ensures column { result.column.now ≡ number.now }
    ensures rule { ⟦<RepeatedKey<NumberedKeys<'a>> as RowRules>⟧.holds result tables.now file [] }
{
    let keys = NumberedKeys {
        tables,
        file,
        id: tables.column(file, id),
        number: tables.column(file, number),
        kind,
    };
    RepeatedKey {
        column: number,
        keys,
        seen: BTreeSet::new(alloc),
    }
}

// The rule about the keys of transfers.txt.
pub(crate) fn repeated_transfer<'a>(
    alloc: Global,
    tables: &'a Tables,
) -> RepeatedKey<TransferKeys<'a>>
    ensures column { result.column.now ≡ codes "from_stop_id" }
    ensures rule { ⟦<RepeatedKey<TransferKeys<'a>> as RowRules>⟧.holds result tables.now File.Transfers [] }
{
    let keys = TransferKeys {
        tables,
        from_stop: tables.column(File::Transfers, "from_stop_id"),
        to_stop: tables.column(File::Transfers, "to_stop_id"),
        from_route: tables.column(File::Transfers, "from_route_id"),
        to_route: tables.column(File::Transfers, "to_route_id"),
        from_trip: tables.column(File::Transfers, "from_trip_id"),
        to_trip: tables.column(File::Transfers, "to_trip_id"),
    };
    RepeatedKey {
        column: "from_stop_id",
        keys,
        seen: BTreeSet::new(alloc),
    }
}
