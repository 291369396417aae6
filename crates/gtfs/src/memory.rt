//! Memory that the C library keeps, so that it is used again.

use std::alloc::Global;
use std::env;
use std::env::VarError;
use std::rt::Env;

// How many bytes a piece has: 31 MiB.
// From 32 MiB on the C library maps memory apart where its heap has no room.
const PIECE: usize = 32_505_856;

// How many pieces: 372 MiB in all, for feeds of up to some three million stop times.
const PIECES: usize = 12;

// How many bytes stand behind the pieces.
const END: usize = 1_048_576;

/// Has the C library keep what is given back, as long as the answer lives: then tables, rows and
/// lists that follow each other share pages, and the system need not give them anew. What is asked
/// for here is never touched, so it takes no memory.
///
/// None where a merge is asked for, whose two feeds and their texts would leave holes between them,
/// where memory is refused, and where `GLIBC_TUNABLES` is set: who sets it tunes the library.
pub fn keep_memory<R: Env + AllocGlobal>(rt: &R, words: &[String]) -> Option<Vec<u8>> {
    let is_tuned = !matches!(env::var(rt, "GLIBC_TUNABLES"), Err(VarError::NotPresent));
    let is_merge = words.get(1).is_some_and(|word| word.as_str() == "merge");
    if is_tuned || is_merge {
        return None;
    }
    let alloc = rt.alloc();
    // A piece that was mapped and goes has the library take the next ones from its heap.
    drop(pieces(alloc, 1)?);
    let pieces = pieces(alloc, PIECES)?;
    let end = Vec::with_capacity(alloc, END).ok()?;
    // They go before what stands behind them, so that the heap does not end where they were.
    drop(pieces);
    Some(end)
}

// This many pieces, none of which was touched.
// Their list has its room at once, so that nothing lies between two pieces.
fn pieces(alloc: Global, count: usize) -> Option<Vec<Vec<u8>>> {
    let mut pieces = Vec::with_capacity(alloc, count).ok()?;
    for _ in 0..count {
        let piece: Vec<u8> = Vec::with_capacity(alloc, PIECE).ok()?;
        pieces.push(piece).ok()?;
    }
    Some(pieces)
}
