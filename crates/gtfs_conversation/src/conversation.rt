ghost use Rattle.std.specs.Prelude.{◌≡◌, ◌≤◌, ℕ, List, IfErr, OnOk};
ghost use Rattle.std.specs.Io.KnownBytes.{Appends};
ghost use Rattle.gtfs_conversation.specs.Conversation.{AnswersAll, AnswersSome, CountsSo, Hearing};

use crate::answer::Answer;
use crate::input::{Input, InputFailed};
use gtfs_devices::{Failed, Out};
use thiserror::Error;

/// Which device ended a conversation by its failure.
#[derive(Clone, Copy, Debug, PartialEq, Eq, Error)]
pub enum ConversationFault {
    /// The input could not be read.
    #[error("input cannot be read")]
    Input,
    /// An answer could not be written or flushed.
    #[error("output failed")]
    Output,
}

impl From<InputFailed> for ConversationFault {
    ghost use Rattle.std.specs.Prelude.{◌≡◌};
    ghost use Rattle.gtfs_conversation.specs.declared.conversation.ConversationFault.TheVariants.{Input as input};

    ghost from_gives = { λ _ fault. fault ≡ input };

    fn from(_failed: InputFailed) -> ConversationFault {
        ConversationFault::Input
    }
}

impl From<Failed> for ConversationFault {
    ghost use Rattle.std.specs.Prelude.{◌≡◌};
    ghost use Rattle.gtfs_conversation.specs.declared.conversation.ConversationFault.TheVariants.{Output as output};

    ghost from_gives = { λ _ fault. fault ≡ output };

    fn from(_failed: Failed) -> ConversationFault {
        ConversationFault::Output
    }
}

/// Hears the lines of an input to its end, and answers each before it asks for the next: what was
/// said has left the buffer of the output then. No more than 2^64 - 1 lines are heard.
///
/// # Errors
/// `Input` where the input could not be read: the lines before were answered. `Output` where the
/// output failed: nothing is read after it. Nothing else ends it.
pub fn converse<O: Out, I: Input<O>, A: Answer>(
    input: &mut I,
    out: &mut O,
    answers: &A,
) -> Result<(), ConversationFault>
    ensures answered { let before : Hearing = record {
      waiting = I.waiting input.old;
      asked = I.asked input.old;
      failures = I.failure_count input.old;
    } in
        let after : Hearing = record {
          waiting = I.waiting input.new;
          asked = I.asked input.new;
          failures = I.failure_count input.new;
        } in
        OnOk result ((text : List ℕ) × AnswersAll (A.is_answer answers.now) (O.told out.old) before after text
        × Appends (O.told out.old) (O.told out.new) text) }
    ensures stopped { let before : Hearing = record {
      waiting = I.waiting input.old;
      asked = I.asked input.old;
      failures = I.failure_count input.old;
    } in
        let after : Hearing = record {
          waiting = I.waiting input.new;
          asked = I.asked input.new;
          failures = I.failure_count input.new;
        } in
        IfErr result (λ fault. (text : List ℕ)
        × AnswersSome (A.is_answer answers.now) (A.is_part answers.now) (O.told out.old) before after fault text
        × Appends (O.told out.old) (O.told out.new) text) }
    ensures counted { IfErr result (CountsSo (O.failure_count out.old) (O.failure_count out.new)) }
    ensures grows { O.failure_count out.old ≤ O.failure_count out.new }
    ensures no_failure { OnOk result (O.failure_count out.new ≡ O.failure_count out.old) }
{
    for _ in 0..u64::MAX {
        input.send(out)?;
        if !input.hear(out)? {
            return Ok(());
        }
        answers.answer(input.line(), out)?;
    }
    input.send(out)?;
    Ok(())
}
