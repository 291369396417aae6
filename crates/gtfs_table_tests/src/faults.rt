//! The lines of faults, which a program may print, and their numbers.
use crate::assertions::assert_is;
use gtfs_days::{CivilFault, ZoneFault};
use gtfs_field::FieldFault;
use gtfs_table::{Failed, FolderFault, OutFault};
use std::test::Fail;

// Such a line may follow the path of a folder.
#[test]
fn faults_of_folders_and_outputs(rt: HostRuntime) -> Result<(), Fail> {
    let faults = [
        FolderFault::Read,
        FolderFault::TooLarge,
        FolderFault::OutOfMemory,
        FolderFault::NoFolder,
        FolderFault::Write,
    ];
    let [read, large, memory, folder, write] = faults;
    let (failed, cut) = (Failed, OutFault { written: 12 });
    let lines = format!(in rt.alloc();
        "{read}; {large}; {memory}; {folder}; {write}; {failed}; {cut}"
    )?;
    let wanted = "cannot be read; holds a file over the limit; out of memory; is not there; \
        cannot be written; output failed; output failed after 12 bytes";
    assert_is(&rt, lines.as_str(), wanted, "lines");
    let numbers = [
        read as u8,
        large as u8,
        memory as u8,
        folder as u8,
        write as u8,
    ];
    assert_is(&rt, numbers, [1, 2, 3, 4, 5], "numbers");
    Ok(())
}

#[test]
fn faults_of_fields_zones_and_clocks(rt: HostRuntime) -> Result<(), Fail> {
    let (form, range) = (FieldFault::Form, FieldFault::Range);
    let (unreadable, zone_memory) = (ZoneFault::Unreadable, ZoneFault::OutOfMemory);
    let (out_of_range, clock_memory) = (CivilFault::OutOfRange, CivilFault::OutOfMemory);
    let lines = format!(in rt.alloc();
        "{form}; {range}; {unreadable}; {zone_memory}; {out_of_range}; {clock_memory}"
    )?;
    let wanted = "not of this form; out of range; not a zone file; out of memory; \
        instant out of range; out of memory";
    assert_is(&rt, lines.as_str(), wanted, "lines");
    let numbers = [
        [form as u8, range as u8],
        [unreadable as u8, zone_memory as u8],
        [out_of_range as u8, clock_memory as u8],
    ];
    assert_is(&rt, numbers, [[1, 2]; 3], "numbers");
    Ok(())
}
