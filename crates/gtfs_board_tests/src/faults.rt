//! The lines and the numbers of faults.

use crate::assertions::assert_is;
use gtfs_board::{BoardFault, PageFault, TableFault};
use std::test::Fail;

#[test]
fn faults_have_lines(rt: HostRuntime) -> Result<(), Fail> {
    let text = format!(in rt.alloc();
        "{}, {}, {}; {}, {}; {}, {}",
        BoardFault::UnknownStop,
        BoardFault::BadSpan,
        BoardFault::OutOfMemory,
        TableFault::UnknownRoute,
        TableFault::OutOfMemory,
        PageFault::Out(3),
        PageFault::OutOfMemory(0),
    )?;
    let wanted = "unknown stop, bad span, out of memory; unknown route, out of memory; \
output failed after 3 lines, out of memory after 0 lines";
    assert_is(&rt, text.as_str(), wanted, "the lines");
    Ok(())
}

#[test]
fn faults_have_numbers(rt: HostRuntime) {
    let numbers = [
        BoardFault::UnknownStop as u8,
        BoardFault::BadSpan as u8,
        BoardFault::OutOfMemory as u8,
        TableFault::UnknownRoute as u8,
        TableFault::OutOfMemory as u8,
    ];
    assert_is(&rt, numbers, [1, 2, 3, 1, 2], "the numbers");
}
