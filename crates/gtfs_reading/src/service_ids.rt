//! The ids of services (GTFS Schedule Reference,
//! `service_id` of `calendar.txt` and `calendar_dates.txt`).

ghost use Rattle.std.specs.Prelude.{◌≡◌, ◌++◌, ◌<◌, [], codes, length, map, slice_index_or, IfOk, IfSome, OnOk};
ghost use Rattle.gtfs_schema.specs.Problems.{Passes};
ghost use Rattle.gtfs_schema.specs.RowConditions.{text_in};
ghost use Rattle.gtfs_reading.specs.ServiceIds.{HasAll, NumbersText, service_ids, service_texts};
ghost use Rattle.gtfs_table.specs.Rows.{rows};
ghost use Rattle.gtfs_table.specs.declared.file.File.TheVariants as file;

use gtfs_field::OutOfMemory;
use gtfs_table::{File, Tables};
use std::alloc::Global;
use std::marker::Model;

// The ids of the services of both calendar files by their bytes, each once.
#[derive(Drop)]
pub(crate) struct ServiceIds<'a> {
    ids: Vec<&'a str>,
}

impl<'a> Model for ServiceIds<'a> {
    ghost use Rattle.std.specs.Prelude.{List, ℕ, map};
    ghost use Rattle.gtfs_rows.specs.TransferOrder.{Ascends};
    ghost use Rattle.gtfs_field.specs.TextOrder.{text_cmp};

    ghost Value = { List (List ℕ) };

    ghost view = { λ s. map (λ id. id.now) s.ids.items };

    ghost invariant = { λ s. Ascends text_cmp (map (λ id. id.now) s.ids.items) };
}

impl<'a> ServiceIds<'a> {
    // The ids of these tables, whose texts they lend.
    pub(crate) fn new(alloc: Global, tables: &'a Tables) -> Result<ServiceIds<'a>, OutOfMemory>
        requires { Passes tables.now }
        ensures ids { IfOk result (λ ids. ids ≡ service_ids tables.now) }
        ensures named { IfOk result (λ ids. HasAll (service_texts tables.now) ids) }
    {
        let mut ids = both_files(alloc, tables)?;
        ids.sort_unstable();
        ids.dedup();
        Ok(ServiceIds { ids })
    }

    // How many services there are.
    pub(crate) fn len(&self) -> usize
        ensures { result ≡ length self.now }
    {
        self.ids.len()
    }

    // The id of a number.
    pub(crate) fn id(&self, number: usize) -> &'a str
        requires { number < length self.now }
        ensures { result.now ≡ slice_index_or self.now number [] }
    {
        self.ids[number]
    }

    // The number of an id.
    pub(crate) fn find(&self, id: &str) -> Option<usize>
        ensures { NumbersText self.now id.now result }
    {
        match self.ids.binary_search_by(|text| (*text).cmp(id)) {
            Ok(number) => Some(number),
            Err(_) => None,
        }
    }
}

// The ids of the rows of both files as they stand there.
fn both_files<'a>(alloc: Global, tables: &'a Tables) -> Result<Vec<&'a str>, OutOfMemory>
    ensures { IfOk result (λ ids. map (λ id. id.now) ids.items ≡ service_texts tables.now) }
{
    let mut ids = Vec::new(alloc);
    push_ids(tables, File::Calendar, &mut ids)?;
    push_ids(tables, File::CalendarDates, &mut ids)?;
    Ok(ids)
}

// Adds the ids of the rows of one of the files.
fn push_ids<'a>(tables: &'a Tables, file: File, ids: &mut Vec<&'a str>) -> Result<(), OutOfMemory>
    ensures { OnOk result (map (λ id. id.now) ids.new.items ≡ map (λ id. id.now) ids.old.items
        ++ map (λ n. text_in tables.now file n (codes "service_id")) (rows tables.now file)) }
{
    let column = tables.column(file, "service_id");
    for (_, record) in tables.rows(file) {
        let id = record.value(column);
        ids.push(id)?;
    }
    Ok(())
}
