ghost use Rattle.std.specs.Prelude.{◌≡◌, ◌<◌, ◌≤◌, ℕ, length, Option, IfOk, IfErr, IfSome, OnOk, Some, string_bytes, true};
ghost use Rattle.gtfs_days.specs.Service.{is_service_day};
ghost use Rattle.gtfs_rows.specs.RowsInMemory.{content_of_parts};
ghost use Rattle.gtfs_rows.specs.WrittenContent.{written};
ghost use Rattle.gtfs_rows.specs.WrittenForm.{IsWrittenForm};
ghost use Rattle.gtfs_merge.specs.Merging.{IsMergeOf, KeepsDepartures};
ghost use Rattle.gtfs_table.specs.FileNames.{file_name};
ghost use Rattle.gtfs_devices.specs.Folder.{CountsFault, RefusesWrite, Store, Writes};
ghost use Rattle.gtfs_table.specs.TablesRead.{kept_files};
ghost use Rattle.gtfs_table.specs.Tables.{table_of, table_of_bytes};
ghost use Rattle.gtfs_table.specs.TableTexts.{text_of_table};
ghost use Rattle.gtfs_table.specs.declared.file.File.{File as FileOf};
ghost use Rattle.gtfs_commands.specs.Words.{merge_texts_of};
ghost use Rattle.gtfs_cli.specs.MergeCommand.{file_limit, file_text, merge_plan, HoldsFiles, IsFileEnd, IsFoldersCause, IsMergeFault, IsWritingEnd};
ghost use Rattle.gtfs_cli.specs.MergeOptions.{IsMergeRequest};
ghost use Rattle.gtfs_cli.specs.MergeParts.{merge_request_of, AllReadAs, HoldsMerge, ReadsAs};
ghost use Rattle.gtfs_cli.specs.CommandPlan.{answer_of, Ends};
ghost use Rattle.gtfs_cli.specs.FolderCalls.{CallsFolders, Reads};
ghost use Rattle.gtfs_cli.specs.Refusals.{TellsFolders};

mod options;
mod printed_names;

use crate::commands::feed::read_draft;
use crate::commands::merge::options::{MergeRequest, read_merge_values};
use crate::commands::merge::printed_names::print_names;
use crate::commands::refusal::Refusal;
use crate::devices_seen::{DevicesSeen, FoldersSeen};
use gtfs_board::Feed;
use gtfs_commands::MergeTexts;
use gtfs_field::OutOfMemory;
use gtfs_merge::{MergeFault, Merged, Options, merge_owned};
use gtfs_table::{File, FolderFault, Folders, Out};
use std::alloc::Global;
use std::hash::RandomState;
use std::mem;

// Merges the feeds of two folders, writes the files of the merged feed into a third folder, which
// may be one of the two, and then prints the report of the merge.
// Errors: In the order in which they are judged: `BadValue`; `NotThere`, `Unreadable`,
// `OverLimit` and `HasErrors` of the first folder, and then of the second; `ZonesDiffer`;
// `MergeTooLarge`; `Unwritable` at any file; `OutputFailed` at any line. `OutOfMemory` at any
// point. Files that were written stay.
pub(crate) fn print_merge<'w, F: Folders, O: Out>(
    alloc: Global,
    random: RandomState,
    words: &MergeTexts<'w>,
    folders: &mut F,
    out: &mut O,
) -> Result<(), Refusal<'w>>
    ensures { Ends (merge_plan (F.limit folders.old) (F.held folders.old) (merge_texts_of words.now))
        (⟦<(F, O) as DevicesSeen>⟧.seen (folders.old, out.old))
        (⟦<(F, O) as DevicesSeen>⟧.seen (folders.new, out.new)) (answer_of result) }
{
    let values = read_merge_values(words)?;
    // What is read first and what is made last lie in one piece of memory.
    let mut memory = Vec::new(alloc);
    let merged = merge_folders(alloc, random, words, &values, folders, &mut memory)?;
    merged.feed.soundness();
    write_feed(alloc, &merged.feed, words.out, folders, &mut memory)?;
    print_names(alloc, &merged.names, values.near, out)
}

// The merge of the feeds of two folders. Both are read in one piece of memory, one after the other,
// which is left in `memory`.
fn merge_folders<'w, F: Folders>(
    alloc: Global,
    random: RandomState,
    words: &MergeTexts<'w>,
    values: &MergeRequest,
    folders: &mut F,
    memory: &mut Vec<u8>,
) -> Result<Merged, Refusal<'w>>
    requires { IsMergeRequest (merge_texts_of words.now) (merge_request_of values.now) }
    ensures merged { IfOk result (HoldsMerge (F.limit folders.old) (F.held folders.old)
        (merge_texts_of words.now) values.now.near) }
    ensures refused { IfErr result (IsFoldersCause (F.limit folders.old) (F.held folders.old)
        (merge_texts_of words.now) (F.failure_count folders.old) (F.failure_count folders.new)) }
    ensures reads { Reads 20 (⟦<F as FoldersSeen>⟧.seen folders.old)
        (⟦<F as FoldersSeen>⟧.seen folders.new) result }
{
    let (draft, bytes) = read_draft(alloc, random, folders, words.a, Vec::new(alloc))?;
    let a = draft.into_feed(alloc, random)?;
    let (draft, bytes) = read_draft(alloc, random, folders, words.b, bytes)?;
    let b = draft.into_feed(alloc, random)?;
    *memory = bytes;
    // With a cutoff a copy is made of each feed, which takes as much.
    if values.cutoff.is_some() {
        *memory = Vec::new(alloc);
    }
    merge_feeds(alloc, random, a, b, values)
}

// The merge of two feeds, which are let go. A file that is written may have as many bytes as one
// that a disk's folder holds to be read.
fn merge_feeds<'w>(
    alloc: Global,
    random: RandomState,
    a: Feed,
    b: Feed,
    values: &MergeRequest,
) -> Result<Merged, Refusal<'w>>
    requires near { IfSome values.now.near (λ n. n ≤ 2_147_483_647) }
    requires cutoff { IfSome values.now.cutoff (λ d. is_service_day d ≡ true) }
    ensures merged { IfOk result (IsMergeOf values.now.near values.now.cutoff
        (content_of_parts a) (content_of_parts b) file_limit) }
    ensures refused { IfErr result (IsMergeFault (merge_request_of values.now)
        (content_of_parts a) (content_of_parts b)) }
    ensures departures { KeepsDepartures values.now.near values.now.cutoff
        (content_of_parts a) (content_of_parts b) }
{
    let options = Options {
        near: values.near,
        cutoff: values.cutoff,
        ..Options::default()
    };
    match merge_owned(alloc, random, a, b, &options) {
        Ok(merged) => Ok(merged),
        Err(MergeFault::ZoneDiffers) => Err(Refusal::ZonesDiffer),
        Err(MergeFault::TooLarge) => Err(Refusal::MergeTooLarge),
        Err(MergeFault::OutOfMemory) => Err(Refusal::OutOfMemory),
    }
}

// Writes the nine files of a feed in order, the text of each given up before the next is made.
// An empty text names no folder. The text of stop_times.txt takes this memory.
fn write_feed<'w, F: Folders>(
    alloc: Global,
    feed: &Feed,
    dir: &'w str,
    folders: &mut F,
    memory: &mut Vec<u8>,
) -> Result<(), Refusal<'w>>
    ensures written { OnOk result (HoldsFiles (F.held folders.old) (F.held folders.new)
        dir.now (content_of_parts feed.now) kept_files) }
    ensures named { OnOk result (0 < length dir.now) }
    ensures read { OnOk result (AllReadAs (content_of_parts feed.now)) }
    ensures refused { IfErr result (IsWritingEnd (F.held folders.old) (F.held folders.new)
        (F.failure_count folders.old) (F.failure_count folders.new)
        dir.now (content_of_parts feed.now)) }
    ensures asks { CallsFolders 9 (⟦<F as FoldersSeen>⟧.seen folders.old)
        (⟦<F as FoldersSeen>⟧.seen folders.new) result }
{
    if dir.is_empty() {
        return Err(Refusal::Unwritable(dir));
    }
    for file in &File::ALL {
        write_file(alloc, feed, *file, dir, folders, memory)?;
    }
    Ok(())
}

// Writes one file of a feed.
fn write_file<'w, F: Folders>(
    alloc: Global,
    feed: &Feed,
    file: File,
    dir: &'w str,
    folders: &mut F,
    memory: &mut Vec<u8>,
) -> Result<(), Refusal<'w>>
    ensures written { OnOk result (Writes (F.held folders.old) (F.held folders.new)
        dir.now (file_name file) (file_text (content_of_parts feed.now) file)) }
    ensures read { OnOk result (ReadsAs (content_of_parts feed.now) file) }
    ensures refused { IfErr result (IsFileEnd (F.held folders.old) (F.held folders.new)
        (F.failure_count folders.old) (F.failure_count folders.new) dir.now file) }
    ensures asks { CallsFolders 1 (⟦<F as FoldersSeen>⟧.seen folders.old)
        (⟦<F as FoldersSeen>⟧.seen folders.new) result }
{
    let text = text_of_file(alloc, feed, file, memory)?;
    match folders.write(alloc, dir, file.name(), text.as_bytes()) {
        Ok(()) => Ok(()),
        Err(fault) => Err(of_writing(fault, dir)),
    }
}

// The text of one file of a feed. That of stop_times.txt, which is the longest by far, takes this
// memory.
fn text_of_file(
    alloc: Global,
    feed: &Feed,
    file: File,
    memory: &mut Vec<u8>,
) -> Result<String, OutOfMemory>
    ensures text { IfOk result (λ text. text_of_table
        (table_of (written (content_of_parts feed.now)) file) ≡ Some (string_bytes text)) }
    ensures reads_back { IfOk result (λ text. table_of_bytes (Some (string_bytes text))
        ≡ table_of (written (content_of_parts feed.now)) file) }
    ensures form { IsWrittenForm (content_of_parts feed.now) }
{
    match file {
        File::StopTimes => {
            let bytes = mem::replace(memory, Vec::new(alloc));
            feed.file_text_in(alloc, file, bytes)
        }
        _ => feed.file_text(alloc, file),
    }
}

// What a fault of a write means for the folder.
fn of_writing(fault: FolderFault, dir: &str) -> Refusal<'_>
    ensures ends { (old new : Option Store) (before after : ℕ) (file : FileOf)
        → RefusesWrite fault old new dir.now (file_name file) before after
        → CountsFault fault before after → IsFileEnd old new before after dir.now file result }
    ensures told { (before after : ℕ) → CountsFault fault before after
        → TellsFolders before after result }
{
    match fault {
        FolderFault::OutOfMemory => Refusal::OutOfMemory,
        FolderFault::Write | FolderFault::Read | FolderFault::TooLarge | FolderFault::NoFolder =>
            Refusal::Unwritable(dir),
    }
}
