ghost use Rattle.std.specs.Prelude.{◌≡◌, Some, option_map, IfOk, IfErr};
ghost use Rattle.gtfs_board.specs.LentKeys.{plain_key};
ghost use Rattle.gtfs_commands.specs.Words.{texts_of};
ghost use Rattle.gtfs_cli.specs.LentBoardRequests.{board_request_of, AreBoardValues, request_texts_of};
ghost use Rattle.gtfs_cli.specs.RefusalOrder.{IsFirstBad};
ghost use Rattle.gtfs_cli.specs.SharedOptions.{first_of_bad};
ghost use Rattle.gtfs_cli.specs.BoardOptions.{after_of, judged_board, judged_values, limit_of, moment_of, IsSound};

use crate::commands::options::{GivenMoment, read_moment, read_times};
use crate::commands::refusal::Refusal;
use gtfs_board::{Key, Times, read_key};
use gtfs_commands::BoardTexts;
use gtfs_field::read_count;

// The most lines where no limit is given: more than any output takes.
const NO_LIMIT: u64 = u64::MAX;

// The values of the options of a board.
#[derive(Clone, Copy)]
pub(crate) struct BoardRequest<'w> {
    // When the board begins.
    pub(crate) from: GivenMoment,
    // When it ends.
    pub(crate) until: GivenMoment,
    // How many lines are printed at most.
    pub(crate) limit: u64,
    // The key after which the lines begin, if any.
    pub(crate) after: Option<Key<'w>>,
    // The times of the feed's rows.
    pub(crate) times: Times,
}

// The texts of a request, as they stand in the words or in its line.
#[derive(Clone, Copy)]
pub(crate) struct RequestTexts<'w> {
    pub(crate) stop: &'w str,
    pub(crate) from: &'w str,
    pub(crate) until: &'w str,
    // None where it is empty or not there.
    pub(crate) limit: Option<&'w str>,
    // The same.
    pub(crate) after: Option<&'w str>,
}

// Reads the values of the options of a board.
// Errors: `BadValue` of the first that is bad.
pub(crate) fn read_board_values<'w>(words: &BoardTexts<'w>) -> Result<BoardRequest<'w>, Refusal<'w>>
    ensures read { IfOk result (AreBoardValues (texts_of words.now)) }
    ensures refused { IfErr result (IsFirstBad (judged_board (texts_of words.now))) }
{
    let texts = RequestTexts {
        stop: words.stop,
        from: words.from,
        until: words.until,
        limit: words.limit,
        after: words.after,
    };
    match read_request_values(&texts, read_times(words.interpolate)) {
        Ok(values) => Ok(values),
        Err(option) => Err(Refusal::BadValue(option)),
    }
}

// Reads the values of the texts of a request, in the order of the usage.
// Errors: The option of the first that is bad.
pub(crate) fn read_request_values<'w>(
    texts: &RequestTexts<'w>,
    times: Times,
) -> Result<BoardRequest<'w>, &'static str>
    ensures read { let t = request_texts_of texts.now in IfOk result (λ v.
        (moment_of t.from ≡ Some v.from) × (moment_of t.until ≡ Some v.until)
        × (limit_of t.limit ≡ Some v.limit) × (after_of t.after ≡ Some (board_request_of v).after)) }
    ensures times { IfOk result (λ v. v.times ≡ times) }
    ensures from { IfOk result (λ v. IsSound v.from) }
    ensures until { IfOk result (λ v. IsSound v.until) }
    ensures refused { let t = request_texts_of texts.now in IfErr result (λ option.
        first_of_bad (judged_values t.from t.until t.limit t.after) ≡ Some option.now) }
{
    let from = read_moment(texts.from).ok_or("--from")?;
    let until = read_moment(texts.until).ok_or("--until")?;
    let limit = read_limit(texts.limit).ok_or("--limit")?;
    let Some(after) = read_after(texts.after) else {
        return Err("--after");
    };
    Ok(BoardRequest {
        from,
        until,
        limit,
        after,
        times,
    })
}

// Reads the value of `--limit`, a count. None where it is not.
fn read_limit(text: Option<&str>) -> Option<u64>
    ensures { result ≡ limit_of (option_map (λ t. t.now) text.entry) }
{
    match text {
        None => Some(NO_LIMIT),
        Some(text) => match read_count(text) {
            Ok(count) => Some(u64::from(count)),
            Err(_) => None,
        },
    }
}

// Reads the value of `--after`, the text of a key. None where it is not.
fn read_after<'w>(text: Option<&'w str>) -> Option<Option<Key<'w>>>
    ensures { option_map (λ key. option_map plain_key key) result
        ≡ after_of (option_map (λ t. t.now) text.entry) }
{
    match text {
        None => Some(None),
        Some(text) => match read_key(text) {
            Ok(key) => Some(Some(key)),
            Err(_) => None,
        },
    }
}
