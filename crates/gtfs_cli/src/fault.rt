//! What the program itself has to say.
ghost use Rattle.std.specs.Prelude.{◌≡◌};
ghost use Rattle.gtfs_cli.specs.WordFaults.{fault_line, fault_status};

/// Why the program could not answer the words, or not send its answer on.
#[derive(Clone, Copy, Debug)]
pub enum Fault {
    /// A word is not UTF-8.
    BadWords,
    /// The system gives no random bytes.
    NoRandomSource,
    /// The buffer of the standard output could not be flushed.
    OutputFailed,
    /// Memory was refused.
    OutOfMemory,
}

impl Fault {
    /// The line for the error output.
    pub fn line(self) -> &'static str
        ensures { result.now ≡ fault_line self }
    {
        match self {
            Fault::BadWords => "gtfs: bad words\n",
            Fault::NoRandomSource => "gtfs: no random source\n",
            Fault::OutputFailed => "gtfs: output failed\n",
            Fault::OutOfMemory => "gtfs: out of memory\n",
        }
    }

    /// The exit status.
    pub fn status(self) -> u8
        ensures { result ≡ fault_status self }
    {
        match self {
            Fault::BadWords => 2,
            Fault::NoRandomSource | Fault::OutputFailed => 3,
            Fault::OutOfMemory => 4,
        }
    }
}
