ghost use Rattle.std.specs.Prelude.{◌≡◌};
ghost use Rattle.gtfs_rows.specs.RowsInMemory.{agency_of};
ghost use Rattle.gtfs_merge.specs.SameRows.{same_agency};

use crate::comparing::values::is_same_text;
use gtfs_rows::Agency;

// Whether two agencies are the same, their ids apart.
pub(crate) fn is_same_agency(a: &Agency, b: &Agency) -> bool
    ensures { result ≡ same_agency (agency_of a.now) (agency_of b.now) }
{
    a.agency_name.as_str() == b.agency_name.as_str()
        && a.agency_url.as_str() == b.agency_url.as_str()
        && a.agency_timezone.as_str() == b.agency_timezone.as_str()
        && is_same_text(&a.agency_lang, &b.agency_lang)
        && is_same_text(&a.agency_phone, &b.agency_phone)
        && is_same_text(&a.agency_fare_url, &b.agency_fare_url)
        && is_same_text(&a.agency_email, &b.agency_email)
}
