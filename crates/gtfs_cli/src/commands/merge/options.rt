ghost use Rattle.std.specs.Prelude.{◌≡◌, option_map, IfOk, IfErr};
ghost use Rattle.gtfs_commands.specs.Words.{merge_texts_of};
ghost use Rattle.gtfs_cli.specs.MergeOptions.{judged_merge, near_of, IsMergeRequest};
ghost use Rattle.gtfs_cli.specs.RefusalOrder.{IsFirstBad};
ghost use Rattle.gtfs_cli.specs.MergeParts.{merge_request_of};

use crate::commands::options::read_day_if_given;
use crate::commands::refusal::Refusal;
use gtfs_commands::MergeTexts;
use gtfs_field::{Day, read_count};

// The values of the options of a merge.
#[derive(Clone, Copy)]
pub(crate) struct MergeRequest {
    // Up to how many millionths of a degree apart stops become one, if they do.
    pub(crate) near: Option<u32>,
    // The service day from which the second feed counts, and the first one before it,
    // if there is one.
    pub(crate) cutoff: Option<Day>,
}

// Reads the values in the order of the usage.
// Errors: `BadValue` of the first that is bad.
pub(crate) fn read_merge_values<'w>(words: &MergeTexts<'w>) -> Result<MergeRequest, Refusal<'w>>
    ensures read { IfOk result (λ values. IsMergeRequest (merge_texts_of words.now)
        (merge_request_of values)) }
    ensures refused { IfErr result (IsFirstBad (judged_merge (merge_texts_of words.now))) }
{
    let Some(near) = read_near(words.near) else {
        return Err(Refusal::BadValue("--near"));
    };
    let Some(cutoff) = read_day_if_given(words.cutoff) else {
        return Err(Refusal::BadValue("--cutoff"));
    };
    Ok(MergeRequest { near, cutoff })
}

// Reads the value of `--near`, a count. None where it is not.
fn read_near(text: Option<&str>) -> Option<Option<u32>>
    ensures { result ≡ near_of (option_map (λ t. t.now) text.entry) }
{
    match text {
        None => Some(None),
        Some(text) => match read_count(text) {
            Ok(count) => Some(Some(count)),
            Err(_) => None,
        },
    }
}
