//! The words of the command line.
ghost use Rattle.std.specs.Prelude.{IfErr};
ghost use Rattle.gtfs_cli.specs.WordFaults.{IsWordsFault};

use gtfs_cli::Fault;
use std::env;
use std::io::ErrorKind;
use std::rt::Env;

/// The words of the command line, of which the first is the program's name.
///
/// Refused with BadWords where one of them is not UTF-8, and with OutOfMemory.
pub fn program_words<R: Env + AllocGlobal>(rt: &R) -> Result<Vec<String>, Fault>
    ensures refused { IfErr result IsWordsFault }
{
    match env::args(rt) {
        Ok(words) => words.collect(rt.alloc()).map_err(|_| Fault::OutOfMemory),
        Err(fault) if fault.kind() == ErrorKind::OutOfMemory => Err(Fault::OutOfMemory),
        Err(_) => Err(Fault::BadWords),
    }
}
