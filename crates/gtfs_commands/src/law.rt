//! What words ask for is one thing.
ghost use Rattle.std.specs.Prelude.{◌≡◌, List};
ghost use Rattle.clap.specs.Words.{Text};
ghost use Rattle.gtfs_commands.specs.AskedTexts.{AsksBoardOf, AsksBoardsOf, AsksCheckOf, AsksMergeOf, AsksServeOf, AsksTimetableOf, BoardTexts, BoardsTexts, CheckTexts, MergeTexts, ServeTexts, TimetableTexts};

/// A law of words, which its contract states: of each command, words ask for one, with one text for
/// each id at most. It does nothing when it runs.
pub fn words_ask_for_one()
    ensures check { (words : List Text) (a b : CheckTexts) → AsksCheckOf words a
        → AsksCheckOf words b → a ≡ b }
    ensures board { (words : List Text) (a b : BoardTexts) → AsksBoardOf words a
        → AsksBoardOf words b → a ≡ b }
    ensures boards { (words : List Text) (a b : BoardsTexts) → AsksBoardsOf words a
        → AsksBoardsOf words b → a ≡ b }
    ensures serve { (words : List Text) (a b : ServeTexts) → AsksServeOf words a
        → AsksServeOf words b → a ≡ b }
    ensures timetable { (words : List Text) (a b : TimetableTexts) → AsksTimetableOf words a
        → AsksTimetableOf words b → a ≡ b }
    ensures merge { (words : List Text) (a b : MergeTexts) → AsksMergeOf words a
        → AsksMergeOf words b → a ≡ b }
{}
