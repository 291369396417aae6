//! The program `gtfs`: the library `gtfs_cli` over the words of the command line, the disk, the
//! standard input, the standard output and the error output. Two things it reports itself: what keeps
//! it from calling that library, as words that are not UTF-8 or a system without random bytes, and a
//! buffer of the standard output that could not be flushed.
#![tactic(auto)]

ghost use Rattle.std.specs.Prelude.{◌≢◌, ◌≤◌, IfOk, IfErr};
ghost use Rattle.std.specs.Io.KnownBytes.{Keeps};
ghost use Rattle.gtfs_cli.specs.declared.fault.Fault.TheVariants.{OutputFailed};

mod memory;
mod words;

use gtfs_cli::{Fault, close, run, run_with_input, tell};
use gtfs_conversation::StreamInput;
use gtfs_table::{DiskFolders, Out, WriteOut};
use memory::keep_memory;
use std::hash::RandomState;
use std::io;
use std::io::{BufReader, BufWriter, Input};
use std::process::ExitCode;
use std::random::RandomSource;
use std::rt::{Env, Runtime};
use words::program_words;

// How many bytes of the output are sent at a time: some hundred lines of a board.
const BUFFER: usize = 65_536;

fn main(rt: HostRuntime) -> ExitCode {
    let mut err = WriteOut::new(rt.stderr());
    let status = match answer(&rt, &mut err) {
        Ok(status) => status,
        Err(fault) => tell(&mut err, fault),
    };
    // A failing error output does not change the status.
    let _ = err.flush();
    ExitCode::from(status)
}

// Answers the words of the command line, and gives the status. The error output is told nothing but
// by the library that answers them.
fn answer<R: Runtime + Input + Env + RandomSource + AllocGlobal, E: Out>(
    rt: &R,
    err: &mut E,
) -> Result<u8, Fault>
    ensures statuses { IfOk result (λ status. status ≤ 4) }
    ensures untold { IfErr result (λ fault. fault ≢ OutputFailed
        → Keeps (E.told err.old) (E.told err.new)) }
{
    let words = program_words(rt)?;
    let random = RandomState::new(rt).map_err(|_| Fault::NoRandomSource)?;
    let _kept = keep_memory(rt, words.as_slice());
    answer_words(rt, random, words.as_slice(), err)
}

// Answers these words. Only where one of them is `serve` there may be need of an input.
fn answer_words<R: Runtime + Input + AllocGlobal, E: Out>(
    rt: &R,
    random: RandomState,
    words: &[String],
    err: &mut E,
) -> Result<u8, Fault>
    ensures statuses { IfOk result (λ status. status ≤ 4) }
    ensures untold { IfErr result (λ fault. fault ≢ OutputFailed
        → Keeps (E.told err.old) (E.told err.new)) }
{
    let alloc = rt.alloc();
    let writer = BufWriter::with_capacity(alloc, BUFFER, io::writer(rt)).map_err(
        |_| Fault::OutOfMemory,
    )?;
    let mut out = WriteOut::new(writer);
    let mut disk = DiskFolders::new(rt);
    if words.iter().any(|word| word.as_str() == "serve") {
        let reader = BufReader::new(alloc, rt.reader()).map_err(|_| Fault::OutOfMemory)?;
        let mut input = StreamInput::new(alloc, reader).map_err(|_| Fault::OutOfMemory)?;
        let status = run_with_input(alloc, random, words, &mut disk, &mut input, &mut out, err);
        return close(&mut out, status);
    }
    let status = run(alloc, random, words, &mut disk, &mut out, err);
    close(&mut out, status)
}
