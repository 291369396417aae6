//! Pages of a board.
ghost use Rattle.std.specs.Prelude.{◌≡◌, ◌≤◌, cond, IfOk, IfErr, OnOk};
ghost use Rattle.gtfs_board.specs.Board.{AreStepsWithin, IsQueued, SameSettings, step_count};
ghost use Rattle.gtfs_board.specs.PageFaults.{AreFaultSteps, AreLineFaultSteps, EndsLine, EndsPage, IsCounted, IsLineSent};
ghost use Rattle.gtfs_board.specs.BoardPage.{IsPage};

use crate::board::Board;
use crate::line::push_line_by;
use gtfs_days::ZoneClock;
use gtfs_table::{Out, write_text};
use std::alloc::Global;
use thiserror::Error;

/// Why a page ends early. Each tells how many whole lines went out; a board that is opened after
/// the key of the last of them goes on with the next.
#[derive(Clone, Copy, Debug, PartialEq, Eq, Error)]
pub enum PageFault {
    /// The output failed, and its count of failures rose by one.
    /// After the whole lines a beginning of the next may have gone out.
    #[error("output failed after {0} lines")]
    Out(u64),
    /// Memory ran out. Nothing but whole lines went out.
    #[error("out of memory after {0} lines")]
    OutOfMemory(u64),
}

/// Writes the lines of the next departures of a board, at most `limit`, and answers how many they
/// were: fewer only where none is left. What is written is taken from the board, each line before
/// the next departure is looked for, and no page is gathered in memory.
///
/// # Errors
/// `Out` where the output failed, once: of one more line, whose departure is gone too, at most a
/// beginning went out. `OutOfMemory` where memory ran out: whole lines went
/// out, and at most one departure more is gone. Each tells how many whole lines went out.
pub fn write_page<O: Out>(
    alloc: Global,
    board: &mut Board<'_>,
    limit: u64,
    out: &mut O,
) -> Result<u64, PageFault>
    ensures page { IfOk result (IsPage board.old.zone limit board.old.rest board.new.rest
        (O.told out.old) (O.told out.new)) }
    ensures fault { IfErr result (EndsPage board.old.zone limit board.old.rest board.new.rest
        (O.told out.old) (O.told out.new)) }
    ensures counted { IfErr result (IsCounted (O.failure_count out.old) (O.failure_count out.new)) }
    ensures grows { O.failure_count out.old ≤ O.failure_count out.new }
    ensures no_failure { OnOk result (O.failure_count out.new ≡ O.failure_count out.old) }
    ensures settings { SameSettings board.old board.new }
    ensures queued { IsQueued board.old → IsQueued board.new }
    ensures steps { IfOk result (λ lines.
        AreStepsWithin lines (step_count board.old) (step_count board.new)) }
    ensures fault_steps { IfErr result (AreFaultSteps board.old.rest board.new.rest
        (step_count board.old) (step_count board.new)) }
{
    let mut clock = ZoneClock::new(board.zone());
    let mut line = String::new(alloc);
    let mut lines = 0;
    while lines < limit {
        if !write_next(board, &mut clock, &mut line, lines, out)? {
            return Ok(lines);
        }
        lines += 1;
    }
    Ok(lines)
}

// Writes the line of the next departure, by the clock of the board's zone, in a text that was used
// before, after so many lines. Answers whether there was one.
fn write_next<O: Out>(
    board: &mut Board<'_>,
    clock: &mut ZoneClock<'_>,
    line: &mut String,
    lines: u64,
    out: &mut O,
) -> Result<bool, PageFault>
    requires { clock.old ≡ board.old.zone }
    ensures sent { IfOk result (IsLineSent board.old.zone board.old.rest board.new.rest
        (O.told out.old) (O.told out.new)) }
    ensures fault { IfErr result (EndsLine board.old.zone lines board.old.rest board.new.rest
        (O.told out.old) (O.told out.new)) }
    ensures counted { IfErr result (IsCounted (O.failure_count out.old) (O.failure_count out.new)) }
    ensures grows { O.failure_count out.old ≤ O.failure_count out.new }
    ensures no_failure { OnOk result (O.failure_count out.new ≡ O.failure_count out.old) }
    ensures clock { clock.new ≡ clock.old }
    ensures settings { SameSettings board.old board.new }
    ensures queued { IsQueued board.old → IsQueued board.new }
    ensures steps { IfOk result (λ more.
        AreStepsWithin (cond more 1 0) (step_count board.old) (step_count board.new)) }
    ensures fault_steps { IfErr result (AreLineFaultSteps board.old.rest board.new.rest
        (step_count board.old) (step_count board.new)) }
{
    let departure = match board.next() {
        Ok(Some(departure)) => departure,
        Ok(None) => return Ok(false),
        Err(_) => return Err(PageFault::OutOfMemory(lines)),
    };
    line.clear();
    if push_line_by(line, clock, &departure).is_err() {
        return Err(PageFault::OutOfMemory(lines));
    }
    match write_text(out, line.as_bytes()) {
        Ok(()) => Ok(true),
        Err(_) => Err(PageFault::Out(lines)),
    }
}
