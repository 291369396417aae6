ghost use Rattle.std.specs.Prelude.{◌≡◌};
ghost use Rattle.gtfs_board.specs.BoardSpan.{is_span, is_writable};

// The first number that takes more than twelve digits, as no instant of a key does.
const TOO_WIDE: u64 = 1_000_000_000_000;

/// A span of instants in seconds since 1970-01-01T00:00:00Z.
#[derive(Clone, Copy, Debug)]
pub struct Span {
    /// The first instant of the span.
    pub from: i64,
    /// The first instant after it.
    pub until: i64,
}

impl Span {
    /// Whether the span does not end before it begins and both instants have at most twelve digits.
    pub fn is_valid(self) -> bool
        ensures { result ≡ is_span self }
    {
        self.from <= self.until && is_writable(self.from) && is_writable(self.until)
    }
}

fn is_writable(instant: i64) -> bool
    ensures { result ≡ is_writable instant }
{
    instant.unsigned_abs() < TOO_WIDE
}
