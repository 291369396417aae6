ghost use Rattle.std.specs.Prelude.{◌≡◌, ◌++◌, ℕ, List, OnOk};

use gtfs_field::OutOfMemory;

/// A reader that takes the bytes of a file piece after piece, so that nobody holds them all.
pub trait FileReader {
    // That these bytes are all that it has taken so far.
    ghost has_taken: { Self → List ℕ → Type 0 };

    /// Is told about how many bytes will come, as far as the device knows, so that it can make
    /// room. It takes nothing.
    ///
    /// # Errors
    /// `OutOfMemory` where memory is refused.
    fn expect(&mut self, size: usize) -> Result<(), OutOfMemory>
        ensures { OnOk result ((bytes : List ℕ)
            → has_taken self.old bytes → has_taken self.new bytes) };

    /// Takes the next piece.
    ///
    /// # Errors
    /// `OutOfMemory` where memory is refused.
    fn take(&mut self, piece: &[u8]) -> Result<(), OutOfMemory>
        ensures { OnOk result ((before : List ℕ)
            → has_taken self.old before → has_taken self.new (before ++ piece.now)) };
}

/// Takes the bytes of a file behind those that it holds.
impl FileReader for Vec<u8> {
    ghost has_taken = { λ v bytes. v.items ≡ bytes };

    fn expect(&mut self, size: usize) -> Result<(), OutOfMemory> {
        self.reserve_exact(size)
    }

    fn take(&mut self, piece: &[u8]) -> Result<(), OutOfMemory> {
        self.extend_from_slice(piece)
    }
}
