//! A conversation: lines that are heard one by one, and the answer to each, which has left the
//! program before the next line is asked for.
//!
//! [`converse`] hears the lines of an [`Input`] to its end and has an [`Answer`] print the answer to
//! each on an output. An input is a stream ([`StreamInput`]), such as the standard input, lines in
//! memory ([`MemoryInput`]), or has no lines ([`NoInput`]).
//!
//! What went out, in which order and after which line, stands in `specs/Conversation.antt`, and what
//! a line is in `specs/HeardLines.antt`.
#![tactic(auto)]

mod answer;
mod conversation;
mod input;
mod memory_input;
mod no_input;
mod stream_input;

pub use answer::Answer;
pub use conversation::{ConversationFault, converse};
pub use input::{Input, InputFailed};
pub use memory_input::MemoryInput;
pub use no_input::NoInput;
pub use stream_input::StreamInput;

/// The most bytes of a line that is answered, without its end. A longer one is heard by its first
/// `LONGEST_LINE + 1` bytes.
pub const LONGEST_LINE: usize = 1_048_576;
