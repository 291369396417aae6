ghost use Rattle.std.specs.Prelude.{IfOk, IfErr};
ghost use Rattle.gtfs_cli.specs.FilesInFolders.{HoldsFeed, IsFeedOf};
ghost use Rattle.gtfs_cli.specs.ReadingCauses.{IsFeedCause, IsReadingCause};
ghost use Rattle.gtfs_cli.specs.FolderCalls.{Reads};

use crate::commands::folder::read_tables;
use crate::commands::refusal::Refusal;
use crate::devices_seen::FoldersSeen;
use gtfs_board::Feed;
use gtfs_feed::FeedDraft;
use gtfs_rules::check;
use gtfs_table::{Folders, Tables};
use std::alloc::Global;
use std::hash::RandomState;

// The feed of a folder, whose tables are let go before the stop times of the feed are moved.
// Errors: `NotThere`, `Unreadable`, `OverLimit`, `HasErrors` and `OutOfMemory`.
pub(crate) fn read_feed<'w, F: Folders>(
    alloc: Global,
    random: RandomState,
    folders: &mut F,
    dir: &'w str,
) -> Result<Feed, Refusal<'w>>
    ensures read { IfOk result (HoldsFeed (F.limit folders.old) (F.held folders.old) dir.now) }
    ensures refused { IfErr result (IsReadingCause (F.limit folders.old) (F.held folders.old) dir.now
        (F.failure_count folders.old) (F.failure_count folders.new)) }
    ensures reads { Reads 10 (⟦<F as FoldersSeen>⟧.seen folders.old)
        (⟦<F as FoldersSeen>⟧.seen folders.new) result }
{
    let (draft, memory) = read_draft(alloc, random, folders, dir, Vec::new(alloc))?;
    drop(memory);
    Ok(draft.into_feed(alloc, random)?)
}

// A draft of the feed of a folder. The fields of stop_times.txt lie in the memory of these bytes
// meanwhile, which is given back with nothing in it.
// Errors: Those of `read_feed`.
pub(crate) fn read_draft<'w, F: Folders>(
    alloc: Global,
    random: RandomState,
    folders: &mut F,
    dir: &'w str,
    memory: Vec<u8>,
) -> Result<(FeedDraft, Vec<u8>), Refusal<'w>>
    ensures read { IfOk result (λ given. HoldsFeed (F.limit folders.old) (F.held folders.old)
        dir.now given.0) }
    ensures refused { IfErr result (IsReadingCause (F.limit folders.old) (F.held folders.old) dir.now
        (F.failure_count folders.old) (F.failure_count folders.new)) }
    ensures reads { Reads 10 (⟦<F as FoldersSeen>⟧.seen folders.old)
        (⟦<F as FoldersSeen>⟧.seen folders.new) result }
{
    let tables = read_tables(alloc, folders, dir, memory)?;
    let draft = draft_of(alloc, random, &tables, dir)?;
    Ok((draft, tables.into_memory()))
}

// All that is read of the feed of these tables.
fn draft_of<'w>(
    alloc: Global,
    random: RandomState,
    tables: &Tables,
    dir: &'w str,
) -> Result<FeedDraft, Refusal<'w>>
    ensures read { IfOk result (IsFeedOf tables.now) }
    ensures refused { IfErr result (IsFeedCause tables.now dir.now) }
{
    match check(alloc, tables)?.passed() {
        Ok(passed) => Ok(FeedDraft::new(alloc, random, passed)?),
        Err(_) => Err(Refusal::HasErrors(dir)),
    }
}
