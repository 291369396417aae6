ghost use Rattle.std.specs.Prelude.{◌≡◌, ◌≤◌, ◌<◌, ◌*◌};

// How many bytes a large list takes: 16 MiB.
const LARGE: usize = 16_777_216;

// How many bytes the C library maps apart from all others, whatever was asked for before: 32 MiB.
const MAPPED: usize = 33_554_432;

/// For how many items a list should ask, which gets so many of this size in bytes.
///
/// A list of 16 MiB or more asks for more than 32 MiB. The C library maps so much apart from all
/// other memory, and gives it back to the system as soon as the list goes, where a smaller list
/// would leave a hole between others. Room in which nothing was put takes no memory.
pub fn room_for(count: usize, size: usize) -> usize
    ensures enough { count ≤ result }
    ensures small { count * size < 16_777_216 → result ≡ count }
    ensures large { 16_777_216 ≤ count * size → 33_554_432 < result * size }
{
    if size == 0 || count.saturating_mul(size) < LARGE {
        return count;
    }
    count.max(MAPPED / size + 1)
}
