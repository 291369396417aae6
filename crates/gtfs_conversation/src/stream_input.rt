ghost use Rattle.std.specs.Prelude.{◌≡◌, ◌≤◌, ◌<◌, ◌+◌, ◌^◌, ◌==◌, ◌||◌, ◌∷◌, ◌++◌, [], not, take, option_map, length, vec_len, vec_capacity, IfOk, IfSome};
ghost use Rattle.std.specs.Str.Lines.{strip_carriage_return};
ghost use Rattle.gtfs_conversation.specs.Conversation.{Hears};
ghost use Rattle.gtfs_conversation.specs.HeardLines.{heard_lines};
ghost use Rattle.gtfs_conversation.specs.HeardInput.{GivesByte, ReadsRaw, heard_of};

use crate::LONGEST_LINE;
use crate::input::{Input, InputFailed};
use gtfs_devices::{Failed, Out, WriteOut};
use gtfs_field::OutOfMemory;
use std::alloc::Global;
use std::io::{BufWriter, ErrorKind, Read, Write};
use std::marker::Model;

/// An input of lines from a reader, as the standard input, beside an output with a buffer.
///
/// It asks its reader for one byte at a time, so that a reader with a buffer of its own serves it
/// best. Of a line it holds the beginning: where more than [`LONGEST_LINE`] bytes stand before its
/// end, it is read to there, and heard by its first `LONGEST_LINE + 1`.
#[derive(Debug, Drop)]
pub struct StreamInput<R: Read> {
    reader: R,
    line: Vec<u8>,
    failures: u64,
}

impl<R: Read> Model for StreamInput<R> {
    ghost use Rattle.std.specs.Prelude.{ℕ, List, ◌≤◌, ◌+◌, vec_capacity};
    ghost use Rattle.gtfs_conversation.specs.HeardLines.{longest_line};

    ghost Value = { R × List ℕ × ℕ };

    ghost view = { λ input. (input.reader, input.line.items, input.failures) };

    ghost invariant = { λ input. longest_line + 2 ≤ vec_capacity input.line };
}

impl<R: Read> StreamInput<R> {
    /// An input over this reader, of which nothing was read yet. It takes all its memory here.
    ///
    /// # Errors
    /// `OutOfMemory` where memory is refused.
    pub fn new(alloc: Global, reader: R) -> Result<StreamInput<R>, OutOfMemory>
    where
        R: Drop,
        ensures { IfOk result (λ input. input ≡ (reader, [], 0)) }
    {
        Ok(StreamInput {
            reader,
            line: Vec::with_capacity(alloc, LONGEST_LINE + 2)?,
            failures: 0,
        })
    }
}

impl<R: Read, W: Write + Drop> Input<WriteOut<BufWriter<W>>> for StreamInput<R> {
    ghost use Rattle.std.specs.Prelude.{◌≡◌, [], None, option_map};
    ghost use Rattle.std.specs.Io.Buffered.{writer_buffer};
    ghost use Rattle.gtfs_conversation.specs.HeardLines.{heard_lines};

    ghost waiting = { λ input. option_map heard_lines (R.remaining input.0) };

    ghost heard = { λ input. input.1 };

    ghost asked = { λ _. None };

    ghost failure_count = { λ input. input.2 };

    ghost is_sent = { λ _ out. writer_buffer out.0 ≡ [] };

    fn send(&mut self, out: &mut WriteOut<BufWriter<W>>) -> Result<(), Failed> {
        // a count that was read is no more than fits
        let _failures = out.failures();
        out.flush_buffer()
    }

    fn hear(&mut self, _out: &WriteOut<BufWriter<W>>) -> Result<bool, InputFailed> {
        let heard = read_line(&mut self.reader, &mut self.line);
        if heard.is_err() {
            self.failures = self.failures.saturating_add(1);
        }
        heard
    }

    fn line(&self) -> &[u8] {
        self.line.as_slice()
    }
}

// Reads the next line to its end, and holds what is heard of it. Answers false where none was left.
fn read_line<R: Read>(reader: &mut R, line: &mut Vec<u8>) -> Result<bool, InputFailed>
    requires room { LONGEST_LINE + 2 ≤ vec_capacity line.old }
    ensures heard { IfOk result (λ more. IfSome (R.remaining reader.old) (λ bytes.
        Hears more (heard_lines bytes) line.new.items (option_map heard_lines (R.remaining reader.new)))) }
    ensures room { vec_capacity line.old ≤ vec_capacity line.new }
{
    line.clear();
    let fed = read_raw(reader, line, LONGEST_LINE + 2)?;
    Ok(hear_raw(line, fed, LONGEST_LINE))
}

// Reads up to a line feed, which it takes too, or to the end, and adds the bytes before it to the
// line, which holds no more than so many. Answers whether there was a line feed.
//
// Two more than are heard tell a line that is too long from one that CR ends.
fn read_raw<R: Read>(reader: &mut R, line: &mut Vec<u8>, most: usize) -> Result<bool, InputFailed>
    requires empty { line.old.items ≡ [] }
    requires room { most ≤ vec_capacity line.old }
    ensures read { IfOk result (λ fed. IfSome (R.remaining reader.old) (λ bytes.
        ReadsRaw most fed bytes line.new.items (R.remaining reader.new))) }
    ensures room { vec_capacity line.old ≤ vec_capacity line.new }
{
    for _ in 0..u64::MAX {
        match next_byte(reader)? {
            None => return Ok(false),
            Some(b'\n') => return Ok(true),
            Some(byte) => keep(line, byte, most),
        }
    }
    Err(InputFailed)
}

// Adds a byte, where fewer than so many are held.
fn keep(line: &mut Vec<u8>, byte: u8, most: usize)
    requires few { vec_len line.old ≤ most }
    requires room { most ≤ vec_capacity line.old }
    ensures kept { line.new.items ≡ take most (line.old.items ++ byte ∷ []) }
    ensures room { vec_capacity line.old ≤ vec_capacity line.new }
{
    if line.len() < most {
        line.push(byte).unwrap();
    }
}

// Leaves of the bytes before a line's end what is heard of it, and answers whether it is a line:
// nothing before the end of the input is none.
fn hear_raw(line: &mut Vec<u8>, fed: bool, most: usize) -> bool
    requires { most + 1 < 2 ^ 64 }
    ensures is_line { result ≡ (fed || not (length line.old.items == 0)) }
    ensures heard { line.new.items ≡ heard_of most fed line.old.items }
    ensures room { vec_capacity line.new ≡ vec_capacity line.old }
{
    let is_line = fed || !line.is_empty();
    if fed {
        strip_return(line);
    }
    line.truncate(most + 1);
    is_line
}

// Takes a carriage return off the end.
fn strip_return(line: &mut Vec<u8>)
    ensures stripped { line.new.items ≡ strip_carriage_return line.old.items }
    ensures room { vec_capacity line.new ≡ vec_capacity line.old }
{
    if line.as_slice().last() == Some(&b'\r') {
        line.pop();
    }
}

// The next byte, or None at the end. An interrupted read is made again.
fn next_byte<R: Read>(reader: &mut R) -> Result<Option<u8>, InputFailed>
    ensures { IfSome (R.remaining reader.old) (λ bytes. IfOk result
        (λ byte. GivesByte bytes byte (R.remaining reader.new))) }
{
    let mut one = [0; 1];
    for _ in 0..u64::MAX {
        match reader.read(&mut one) {
            Ok(0) => return Ok(None),
            Ok(_) => return Ok(Some(one[0])),
            Err(fault) if fault.kind() == ErrorKind::Interrupted => {}
            Err(_) => return Err(InputFailed),
        }
    }
    Err(InputFailed)
}
