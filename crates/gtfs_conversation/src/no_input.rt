use crate::input::{Input, InputFailed};
use gtfs_devices::{Failed, Out};

/// An input without lines, beside any output.
#[derive(Clone, Copy, Debug, PartialEq, Eq)]
pub struct NoInput;

impl<O: Out> Input<O> for NoInput {
    ghost use Rattle.std.specs.Prelude.{[], None, Some, ⊤};

    ghost waiting = { λ _. Some [] };

    ghost heard = { λ _. [] };

    ghost asked = { λ _. None };

    ghost failure_count = { λ _. 0 };

    ghost is_sent = { λ _ _. ⊤ };

    fn send(&mut self, _out: &mut O) -> Result<(), Failed> {
        Ok(())
    }

    fn hear(&mut self, _out: &O) -> Result<bool, InputFailed> {
        Ok(false)
    }

    fn line(&self) -> &[u8] {
        b""
    }
}
