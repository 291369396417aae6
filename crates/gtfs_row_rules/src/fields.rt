ghost use Rattle.std.specs.Prelude.{◌≡◌, ◌&&◌, filter_map, length, map, IfOk, OnOk};
ghost use Rattle.gtfs_schema.specs.Columns.{columns_of};
ghost use Rattle.gtfs_schema.specs.steps.ColumnView.{column_of};
ghost use Rattle.gtfs_schema.specs.steps.FieldCodes.{field_codes, in_file_of, is_found_at, is_in_row, length_code};
ghost use Rattle.gtfs_row_rules.specs.HeaderColumns.{located, located_of, row_reports, IsHeader};
ghost use Rattle.gtfs_schema.proofs.FieldRowFacts.{silent_fields};
ghost use Rattle.gtfs_schema.specs.steps.FoundProblems.{Adds};
ghost use Rattle.gtfs_table.specs.Rows.{records_in};

use crate::rule::RowRules;
use gtfs_field::OutOfMemory;
use gtfs_schema::{Code, Column, FileName, Found, Problem, cell_code, length_code};
use gtfs_table::{File, Record, Tables};
use std::alloc::Global;

// What a header says of the rows below it: how many fields they have to have, and where the kept
// columns are that it names. A column that it does not name has no problem in any row.
#[derive(Drop)]
pub(crate) struct Header {
    file: File,
    width: usize,
    columns: Vec<Located>,
}

#[derive(Clone, Copy)]
struct Located {
    column: Column,
    index: usize,
}

impl Header {
    pub(crate) fn new(
        alloc: Global,
        tables: &Tables,
        file: File,
        columns: &[Column],
    ) -> Result<Header, OutOfMemory>
        requires { map column_of columns.now ≡ columns_of file }
        ensures { IfOk result (λ header. IsHeader tables.now file header) }
    {
        Ok(Header {
            file,
            width: tables.fields(file, 1),
            columns: located_columns(alloc, tables, file, columns)?,
        })
    }

    // Reports what is wrong with the length of a row and with its fields.
    fn report_row(
        &self,
        row: usize,
        record: &Record<'_>,
        found: &mut Found<'_>,
    ) -> Result<(), OutOfMemory>
        ensures { OnOk result
            (Adds (λ p. is_in_row self.now.file row p && row_reports self.now «record».now p)
            found.old found.new) }
    {
        self.report(row, "", length_code(self.width, record.len()), found)?;
        for located in &self.columns {
            let text = record.field(located.index);
            let code = cell_code(true, &located.column, text);
            self.report(row, located.column.name, code, found)?;
        }
        Ok(())
    }

    // Reports what was found at a column of a row, if anything.
    fn report(
        &self,
        row: usize,
        column: &'static str,
        code: Option<Code>,
        found: &mut Found<'_>,
    ) -> Result<(), OutOfMemory>
        ensures { OnOk result
            (Adds (λ p. is_in_row self.now.file row p && is_found_at code column.now p)
            found.old found.new) }
    {
        let Some(code) = code else {
            return Ok(());
        };
        let problem = Problem {
            file: FileName::Kept(self.file),
            row,
            code,
            column,
        };
        found.report_if(problem, true)
    }
}

// A header is a rule about the rows of its file.
impl RowRules for Header {
    ghost holds = { λ s d x before. IsHeader d x s };

    ghost picks = { λ s x. in_file_of field_codes x };

    ghost silent = { λ s d x before h. silent_fields d x };

    #[inline(always)]
    fn report(
        &mut self,
        file: File,
        row: usize,
        record: &Record<'_>,
        found: &mut Found<'_>,
    ) -> Result<(), OutOfMemory> {
        self.report_row(row, record, found)
    }
}

fn located_columns(
    alloc: Global,
    tables: &Tables,
    file: File,
    columns: &[Column],
) -> Result<Vec<Located>, OutOfMemory>
    ensures { IfOk result (λ kept. map located_of kept.items
        ≡ filter_map (located (records_in tables.now file)) (map column_of columns.now)) }
{
    let mut located = Vec::new(alloc);
    for column in columns {
        if let Some(index) = tables.column(file, column.name) {
            located.push(Located {
                column: *column,
                index,
            })?;
        }
    }
    Ok(located)
}
