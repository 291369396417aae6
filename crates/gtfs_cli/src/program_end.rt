//! How a program ends that calls `run`:
//! its output is flushed, and what keeps it from an answer is told.
ghost use Rattle.std.specs.Prelude.{◌≡◌, ◌≤◌, [], IfOk, IfErr, OnOk, OnErr};
ghost use Rattle.std.specs.Io.Buffered.{writer_buffer, writer_contents};
ghost use Rattle.std.specs.Io.KnownBytes.{Keeps};
ghost use Rattle.gtfs_devices.specs.Device.{counted};
ghost use Rattle.gtfs_cli.specs.WordFaults.{fault_line, fault_status};
ghost use Rattle.gtfs_cli.specs.SentText.{Sends};
ghost use Rattle.gtfs_cli.specs.declared.fault.Fault.TheVariants.{OutputFailed};

use crate::fault::Fault;
use gtfs_table::{Out, WriteOut, write_text};
use std::io::{BufWriter, Write};

/// Flushes the buffer of the output. Where that fails, a command that found nothing else wrong with
/// its output (status 0 or 1) did not do what was asked.
pub fn close<W: Write + Drop>(out: &mut WriteOut<BufWriter<W>>, status: u8) -> Result<u8, Fault>
    ensures kept { IfOk result (λ given. given ≡ status) }
    ensures failed { IfErr result (λ fault. (fault ≡ OutputFailed) × (status ≤ 1)) }
    ensures sent { status ≤ 1 → OnOk result (out.new.1 ≡ out.old.1) }
    ensures emptied { status ≤ 1 → OnOk result (writer_buffer out.new.0 ≡ []) }
    ensures whole { Keeps (writer_contents W.contents out.old.0)
        (writer_contents W.contents out.new.0) }
    ensures counted { OnErr result (out.new.1 ≡ counted out.old.1) }
{
    match out.flush_buffer() {
        Err(_) if status <= 1 => Err(Fault::OutputFailed),
        _ => Ok(status),
    }
}

/// Tells of a fault on the error output, and gives the status for it, whatever that output did.
pub fn tell<E: Out>(err: &mut E, fault: Fault) -> u8
    ensures status { result ≡ fault_status fault }
    ensures told { Sends
        (record { told = E.told err.old; failures = E.failure_count err.old })
        (record { told = E.told err.new; failures = E.failure_count err.new }) (fault_line fault) }
{
    let _ = write_text(err, fault.line().as_bytes());
    fault.status()
}
