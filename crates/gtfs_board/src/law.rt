ghost use Rattle.std.specs.Prelude.{◌≡◌, ℕ, ℤ, List, Option};
ghost use Rattle.gtfs_rows.specs.Departures.{IsBoard, Origins};
ghost use Rattle.gtfs_rows.specs.Key.{Key};
ghost use Rattle.gtfs_rows.specs.Content.{Content};

/// A law of boards, which its contract states: two lists that are the board of one feed, zone,
/// stop, span and key are the same list. It does nothing when it runs.
pub fn boards_are_one()
    ensures { (f : Content) (origin : Origins) (stop : List ℕ) (from until : ℤ) (after : Option Key)
        (xs ys : List Key)
        → IsBoard f origin stop from until after xs → IsBoard f origin stop from until after ys
        → xs ≡ ys }
{}
