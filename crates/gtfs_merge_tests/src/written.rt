//! The written files of a feed.

use crate::assertions::assert_is;
use gtfs_feed::Feed;
use gtfs_table::{File, MemoryFolders};
use std::alloc::Global;
use std::process::Abort;
use std::test::Fail;

/// A file and the rows that are written below its header.
pub(crate) type Rows = (File, &'static str);

// The header of each file, by the columns that are kept.
fn header(file: File) -> &'static str {
    match file {
        File::Agency => {
            "agency_id,agency_name,agency_url,agency_timezone,agency_lang,agency_phone,agency_fare_url,agency_email\n"
        }
        File::Stops => {
            "stop_id,stop_code,stop_name,tts_stop_name,stop_desc,stop_lat,stop_lon,stop_url,location_type,parent_station,\
wheelchair_boarding,platform_code\n"
        }
        File::Routes => {
            "route_id,agency_id,route_short_name,route_long_name,route_desc,route_type,route_url,route_color,\
route_text_color,route_sort_order\n"
        }
        File::Trips => {
            "route_id,service_id,trip_id,trip_headsign,trip_short_name,direction_id,wheelchair_accessible,bikes_allowed\n"
        }
        File::StopTimes => {
            "trip_id,arrival_time,departure_time,stop_id,stop_sequence,stop_headsign,pickup_type,drop_off_type,timepoint\n"
        }
        File::Calendar => {
            "service_id,monday,tuesday,wednesday,thursday,friday,saturday,sunday,start_date,end_date\n"
        }
        File::CalendarDates => "service_id,date,exception_type\n",
        File::Frequencies => "trip_id,start_time,end_time,headway_secs,exact_times\n",
        File::Transfers => {
            "from_stop_id,to_stop_id,from_route_id,to_route_id,from_trip_id,to_trip_id,transfer_type,min_transfer_time\n"
        }
    }
}

/// These files of a feed have these rows below their headers.
pub(crate) fn assert_rows(
    rt: &impl Abort,
    alloc: Global,
    feed: &Feed,
    written: &[Rows],
) -> Result<(), Fail> {
    for (file, rows) in written {
        assert_file(rt, alloc, feed, *file, rows)?;
    }
    Ok(())
}

fn assert_file(
    rt: &impl Abort,
    alloc: Global,
    feed: &Feed,
    file: File,
    rows: &str,
) -> Result<(), Fail> {
    let wanted = format!(in alloc; "{}{rows}", header(file))?;
    let text = feed.file_text(alloc, file)?;
    assert_is(rt, text.as_str(), wanted.as_str(), file.name());
    Ok(())
}

/// Each file of one feed is that of the other.
pub(crate) fn assert_same_files(
    rt: &impl Abort,
    alloc: Global,
    feed: &Feed,
    other: &Feed,
) -> Result<(), Fail> {
    for file in File::ALL {
        let text = feed.file_text(alloc, file)?;
        let other = other.file_text(alloc, file)?;
        assert_is(rt, text.as_str(), other.as_str(), file.name());
    }
    Ok(())
}

/// Folders with the written files of a feed in the folder out.
pub(crate) fn folders_with(alloc: Global, feed: &Feed) -> Result<MemoryFolders, Fail> {
    let mut folders = MemoryFolders::new(alloc, 100_000, None);
    for file in File::ALL {
        let text = feed.file_text(alloc, file)?;
        folders.put("out", file.name(), text.as_bytes())?;
    }
    Ok(folders)
}
