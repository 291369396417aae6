//! The commands of the program, and how each ends.
ghost use Rattle.std.specs.Prelude.{◌≡◌, ◌≢◌, ◌≤◌, List, false, map, IfOk, IfSome, IsErrAnd, OnOk};
ghost use Rattle.std.specs.Io.KnownBytes.{Appends, Keeps};
ghost use Rattle.clap.specs.Words.{Text};
ghost use Rattle.gtfs_commands.specs.Words.{no_memory, IsFaultOf};
ghost use Rattle.gtfs_cli.specs.AskedCommand.{plan_of, Asked, Asks, HearsNothing};
ghost use Rattle.gtfs_cli.specs.UntakenWords.{IsAnswer, IsWordsCause, text_for_output, AnswersRefused};
ghost use Rattle.gtfs_cli.specs.Failures.{FailedNowhere};
ghost use Rattle.gtfs_cli.specs.CommandPlan.{answer_of, Ends, IsRun, TellsEnd};
ghost use Rattle.gtfs_cli.specs.Refusals.{status_in};
ghost use Rattle.gtfs_cli.specs.DevicesSeen.{no_lines, Devices, Output, Talk};
ghost use Rattle.gtfs_cli.specs.SentText.{or_none, Begins, PrintsText};
ghost use Rattle.gtfs_cli.specs.declared.commands.refusal.Refusal.TheVariants.{OutOfMemory};

mod board;
mod boards;
mod check;
mod feed;
mod files;
mod folder;
mod merge;
mod options;
mod paths;
mod refusal;
mod send;
mod serve;
mod timetable;
mod zone_file;

use crate::devices_seen::{DevicesSeen, InputSeen, OutSeen};
use gtfs_commands::{Command, WordsFault, read_words};
use gtfs_conversation::{Input, NoInput};
use gtfs_table::{Folders, Out, write_text};
use refusal::Refusal;
use std::alloc::Global;
use std::convert::AsStr;
use std::hash::RandomState;

/// Does what the words of a command line ask for, of which the first is the program's name, and
/// answers the status with which the program is to end.
///
/// What the command prints goes to `out`, as does the help or the version that was asked for. Where
/// the command is not done, `err` is told why: by `clap`'s text where it does not take the words,
/// and else by one line that begins `gtfs: `. A check with status 1 is done: its report says why,
/// and `err` is told nothing. A failure of `err` changes nothing.
///
/// The words are judged first, then the values of the options in the order of the usage, then the
/// folder, its feed, the zone file, the stop and the span, or the route. For boards it is the
/// folder, its feed, the zone file, the requests' file and then each of its lines, before anything
/// goes out. A merge judges its first folder and the feed in it, then the second folder and its
/// feed, and then the zones of both and the length of the files to be written.
///
/// - 0: done.
/// - 1: the feed, or one of two, has errors, or no stop or route of that id, also in a line of
///   requests; the zones of two feeds have different names, or a file of the merged feed would be
///   longer than 1,073,741,824 bytes.
/// - 2: `clap` refuses the words, the value of `--from` or `--until` is neither `@` and an instant
///   nor a service day, that of `--limit` or of `--near` is no count, that of `--after` is no key,
///   that of `--date` is no date, that of `--direction` is neither 0 nor 1, that of `--cutoff` is
///   no service day, the board would end before it begins, or a line of requests has too few or too
///   many fields or one of these faults.
/// - 3: the folder, the zone file, the file of requests or its folder is not there, cannot be read
///   or holds a file over the limit, the zone file is none, the file of requests is not UTF-8, the
///   folder of the merged feed or a file in it cannot be written, or the output failed.
/// - 4: memory ran out, and neither the folders nor `out` failed.
///
/// A check ends with 0 or 1 only where its whole report went out, and else with what went out of it
/// before. A board ends with 0 only where a page of it went out: all its lines, or as many as
/// `--limit` says. Boards end with 0 only where for each request of the file, in their order, its
/// heading and the page of its board went out. A timetable ends with 0 only where the text of all
/// its sheets went out. A merge ends with 0 only where all nine files of the merged feed were
/// written and then its whole report went out: the written folder passes the validator and has
/// every departure and every board of both feeds, those of joined trips once; with a cutoff it has
/// those of the first feed before that service day, and of the second feed from it on. Where a file
/// could not be written, those before it were and no later one. Nothing is written but by a merge.
/// What is printed does not depend on the random state.
///
/// The folders and `out` fail only in a run that ends with 3, and what failed is what `err` is
/// told: after a failed call of the folders none is made and no later cause is told.
///
/// A check and a timetable make at most 10 calls of the folders, a board 11, boards 12 and a merge
/// 29, of which the last nine write: exactly so many where they are done. For help, the version and
/// words that are refused there is none.
///
/// There is no input here, so `serve` has nothing to answer and ends with 0; see [`run_with_input`].
pub fn run<S: AsStr, F: Folders, O: Out, E: Out>(
    alloc: Global,
    random: RandomState,
    words: &[S],
    folders: &mut F,
    out: &mut O,
    err: &mut E,
) -> u8
    ensures asks { (asked : Asked) × Asks (map S.text words.now) asked }
    ensures ends { let before : Devices = record {
      folders = record {
        limit = F.limit folders.old;
        held = F.held folders.old;
        failures = F.failure_count folders.old;
        calls = F.calls folders.old;
      };
      output = record { told = O.told out.old; failures = O.failure_count out.old };
    } in
        let after : Devices = record {
          folders = record {
            limit = F.limit folders.new;
            held = F.held folders.new;
            failures = F.failure_count folders.new;
            calls = F.calls folders.new;
          };
          output = record { told = O.told out.new; failures = O.failure_count out.new };
        } in
        let err_before : Output = record { told = E.told err.old; failures = E.failure_count err.old } in
        let err_after : Output = record { told = E.told err.new; failures = E.failure_count err.new } in
        let talk : Talk = record { told = O.told out.old; before = no_lines; after = no_lines } in
        (asked : Asked) → Asks (map S.text words.now) asked
        → IsRun (plan_of (F.limit folders.old) (F.held folders.old) talk (map S.text words.now) asked)
        before after err_before err_after result }
    ensures statuses { result ≤ 4 }
    ensures no_failure { result ≢ 3 → FailedNowhere
        (record { folders = F.failure_count folders.old; output = O.failure_count out.old })
        (record { folders = F.failure_count folders.new; output = O.failure_count out.new }) }
{
    run_with_input(alloc, random, words, folders, &mut NoInput, out, err)
}

/// Does what [`run`] does, with an input whose lines `serve` answers. A line is asked for when the
/// answers of all lines before it have gone out and left the buffer of `out`. No other command asks
/// for a line.
///
/// `serve` judges the folder, its feed and the zone file, as a board does, and makes 11 calls of the
/// folders. It ends with 0 where the input ended and all lines were answered, with 3 where the input
/// could not be read, after the answers of all lines before, or the output failed, after which
/// nothing is read, and with 4 only where memory ran out before a line was asked for. What is refused
/// of a line is told in its answer, and changes no status.
pub fn run_with_input<S: AsStr, F: Folders, I: Input<O>, O: Out, E: Out>(
    alloc: Global,
    random: RandomState,
    words: &[S],
    folders: &mut F,
    input: &mut I,
    out: &mut O,
    err: &mut E,
) -> u8
    ensures asks { (asked : Asked) × Asks (map S.text words.now) asked }
    ensures ends { let before : Devices = record {
      folders = record {
        limit = F.limit folders.old;
        held = F.held folders.old;
        failures = F.failure_count folders.old;
        calls = F.calls folders.old;
      };
      output = record { told = O.told out.old; failures = O.failure_count out.old };
    } in
        let after : Devices = record {
          folders = record {
            limit = F.limit folders.new;
            held = F.held folders.new;
            failures = F.failure_count folders.new;
            calls = F.calls folders.new;
          };
          output = record { told = O.told out.new; failures = O.failure_count out.new };
        } in
        let err_before : Output = record { told = E.told err.old; failures = E.failure_count err.old } in
        let err_after : Output = record { told = E.told err.new; failures = E.failure_count err.new } in
        let talk : Talk = record {
          told = O.told out.old;
          before = record {
            waiting = I.waiting input.old;
            asked = I.asked input.old;
            failures = I.failure_count input.old;
          };
          after = record {
            waiting = I.waiting input.new;
            asked = I.asked input.new;
            failures = I.failure_count input.new;
          };
        } in
        (asked : Asked) → Asks (map S.text words.now) asked
        → IsRun (plan_of (F.limit folders.old) (F.held folders.old) talk (map S.text words.now) asked)
        before after err_before err_after result }
    ensures unheard { (asked : Asked) → Asks (map S.text words.now) asked → HearsNothing asked
        → input.new ≡ input.old }
    ensures statuses { result ≤ 4 }
    ensures no_failure { result ≢ 3 → FailedNowhere
        (record { folders = F.failure_count folders.old; output = O.failure_count out.old })
        (record { folders = F.failure_count folders.new; output = O.failure_count out.new }) }
    ensures no_input_failure { result ≢ 3 → I.failure_count input.new ≡ I.failure_count input.old }
{
    let ended = command(alloc, random, words, folders, input, out);
    finish(ended, err)
}

// Tells the error output why a command was not done, and answers the status: that of what the
// command ended with, whatever the error output did.
fn finish<E: Out>(ended: Result<bool, Refusal<'_>>, err: &mut E) -> u8
    ensures status { result ≡ status_in ended.entry }
    ensures told { TellsEnd (⟦<E as OutSeen>⟧.seen err.old) (⟦<E as OutSeen>⟧.seen err.new)
        ended.entry }
{
    match ended {
        Ok(has_errors) => u8::from(has_errors),
        Err(refusal) => {
            // Nobody is left who could be told that this failed.
            let _ = refusal.write(err);
            refusal.status()
        }
    }
}

// Does what the words ask for, and answers whether a check found an error.
fn command<'w, S: AsStr, F: Folders, I: Input<O>, O: Out>(
    alloc: Global,
    random: RandomState,
    words: &'w [S],
    folders: &mut F,
    input: &mut I,
    out: &mut O,
) -> Result<bool, Refusal<'w>>
    ensures ends { let talk : Talk = record {
      told = O.told out.old;
      before = ⟦<I as InputSeen<O>>⟧.seen input.old;
      after = ⟦<I as InputSeen<O>>⟧.seen input.new;
    } in
        (asked : Asked) → Asks (map S.text words.entry.now) asked → Ends
        (plan_of (F.limit folders.old) (F.held folders.old) talk (map S.text words.entry.now) asked)
        (⟦<(F, O) as DevicesSeen>⟧.seen (folders.old, out.old))
        (⟦<(F, O) as DevicesSeen>⟧.seen (folders.new, out.new)) result }
    ensures unheard { (asked : Asked) → Asks (map S.text words.entry.now) asked → HearsNothing asked
        → input.new ≡ input.old }
{
    match read_words(alloc, words) {
        Ok(Command::Check(given)) => check::print_report(alloc, random, &given, folders, out),
        Ok(Command::Board(given)) => {
            answer(board::print_board(alloc, random, &given, folders, out))
        }
        Ok(Command::Boards(given)) => {
            answer(boards::print_boards(alloc, random, &given, folders, out))
        }
        Ok(Command::Serve(given)) => {
            answer(serve::serve(alloc, random, &given, folders, input, out))
        }
        Ok(Command::Timetable(given)) => {
            answer(timetable::print_timetable(alloc, random, &given, folders, out))
        }
        Ok(Command::Merge(given)) => {
            answer(merge::print_merge(alloc, random, &given, folders, out))
        }
        Err(fault) => answer_fault(fault, out),
    }
}

// The answer of a command that is no check: no check found an error.
fn answer<'w>(printed: Result<(), Refusal<'w>>) -> Result<bool, Refusal<'w>>
    ensures { result ≡ answer_of printed.entry }
{
    match printed {
        Ok(()) => Ok(false),
        Err(refusal) => Err(refusal),
    }
}

// Prints the help or the version that was asked for,
// and refuses all other words that name no command.
fn answer_fault<'w, O: Out>(fault: WordsFault, out: &mut O) -> Result<bool, Refusal<'w>>
    ensures ends { (words : List Text) → IsFaultOf words fault → PrintsText (IsAnswer words)
        (Begins (IsAnswer words)) (or_none (Begins (IsAnswer words))) (IsWordsCause words)
        (⟦<O as OutSeen>⟧.seen out.old) (⟦<O as OutSeen>⟧.seen out.new) result }
    ensures whole { OnOk result (IfSome (text_for_output fault)
        (λ text. Appends (O.told out.old) (O.told out.new) text)) }
    ensures said { AnswersRefused fault result }
    ensures clean { IfOk result (λ failed. failed ≡ false) }
    ensures memory { fault ≡ no_memory → IsErrAnd result (λ refusal. refusal ≡ OutOfMemory) }
    ensures unsent { fault ≡ no_memory → Keeps (O.told out.old) (O.told out.new) }
{
    match fault {
        WordsFault::Help(help) => {
            write_text(out, help.as_bytes())?;
            Ok(false)
        }
        WordsFault::Version(version) => {
            write_text(out, version.as_bytes())?;
            Ok(false)
        }
        WordsFault::Refused(text) => Err(Refusal::Words(text)),
        WordsFault::OutOfMemory => Err(Refusal::OutOfMemory),
    }
}
