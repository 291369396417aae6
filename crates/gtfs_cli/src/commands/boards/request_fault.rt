ghost use Rattle.std.specs.Prelude.{◌≡◌};
ghost use Rattle.gtfs_cli.specs.RefusalMessages.{request_line, request_text};
ghost use Rattle.gtfs_cli.specs.Refusals.{request_status};

// What is the matter with the first line of a file of requests that is refused,
// with the number of the line, from 1.
#[derive(Clone, Copy)]
pub(crate) enum RequestFault {
    // It has too few or too many fields, or a bad value.
    BadRequest(usize),
    // The feed has no stop of the id.
    UnknownStop(usize),
    // The board would end before it begins.
    UntilBeforeFrom(usize),
}

impl RequestFault {
    // The status with which the program ends.
    pub(crate) fn status(self) -> u8
        ensures { result ≡ request_status self }
    {
        match self {
            RequestFault::UnknownStop(_) => 1,
            RequestFault::BadRequest(_) | RequestFault::UntilBeforeFrom(_) => 2,
        }
    }

    // What is told before the number of the line.
    pub(crate) fn text(self) -> &'static str
        ensures { result.now ≡ request_text self }
    {
        match self {
            RequestFault::BadRequest(_) => "bad request in line ",
            RequestFault::UnknownStop(_) => "unknown stop in line ",
            RequestFault::UntilBeforeFrom(_) => "until lies before from in line ",
        }
    }

    // The number of the line.
    pub(crate) fn line(self) -> usize
        ensures { result ≡ request_line self }
    {
        match self {
            RequestFault::BadRequest(number)
            | RequestFault::UnknownStop(number)
            | RequestFault::UntilBeforeFrom(number) => number,
        }
    }
}
