//! Transfers: each key once, and that of A where both feeds have it.
//!
//! Two transfers of one feed never get one key here,
//! since without near stops two ids of a kind never become one.

use crate::cases::{AT_TEN, Case, MERGED};
use gtfs_table::File;

const JOINED: &str =
    "joined agency 1\njoined stop 3\njoined route 1\njoined service 1\njoined trip 1\n";

/// Each key of a transfer stands once.
pub(crate) const CASES: &[Case] = &[
    Case {
        what: "one key in both",
        a: &[(
            "transfers.txt",
            "from_stop_id,to_stop_id,transfer_type,min_transfer_time\nS1,S2,2,60\n",
        )],
        b: &[(
            "transfers.txt",
            "from_stop_id,to_stop_id,transfer_type,min_transfer_time\nS1,S2,2,90\n",
        )],
        report: JOINED,
        written: &[(File::Transfers, "S1,S2,,,,,2,60\n")],
        ..MERGED
    },
    Case {
        what: "one key in both, and keys of each",
        a: &[(
            "transfers.txt",
            "from_stop_id,to_stop_id,transfer_type\nS2,S1,0\nS2,S3,1\n",
        )],
        b: &[(
            "transfers.txt",
            "from_stop_id,to_stop_id,transfer_type\nS3,S1,3\nS2,S1,3\nS1,S2,3\n",
        )],
        report: JOINED,
        written: &[(
            File::Transfers,
            "S1,S2,,,,,3,\nS2,S1,,,,,0,\nS2,S3,,,,,1,\nS3,S1,,,,,3,\n",
        )],
        ..MERGED
    },
    Case {
        what: "one key of a trip that is renamed",
        a: &[(
            "transfers.txt",
            "from_stop_id,to_stop_id,from_trip_id,transfer_type,min_transfer_time\n\
S1,S2,T1,2,60\nS1,S2,,2,30\n",
        )],
        b: &[
            AT_TEN,
            (
                "transfers.txt",
                "from_stop_id,to_stop_id,to_trip_id,from_trip_id,transfer_type,min_transfer_time\n\
S1,S2,,T1,2,90\nS1,S2,T1,T1,2,91\n,,T1,T1,4,\nS1,S2,,,2,92\n",
            ),
        ],
        report: "B\ttrip\tT1\tT1_merged_1\n\
joined agency 1\njoined stop 3\njoined route 1\njoined service 1\njoined trip 0\n",
        written: &[(
            File::Transfers,
            ",,,,T1_merged_1,T1_merged_1,4,\nS1,S2,,,,,2,30\nS1,S2,,,T1,,2,60\n\
S1,S2,,,T1_merged_1,,2,90\nS1,S2,,,T1_merged_1,T1_merged_1,2,91\n",
        )],
        ..MERGED
    },
    Case {
        what: "a stop and a route that are renamed",
        a: &[(
            "transfers.txt",
            "from_stop_id,to_stop_id,from_route_id,to_route_id,transfer_type\nS3,S1,R1,R1,0\n",
        )],
        b: &[
            (
                "stops.txt",
                "stop_id,stop_name,stop_lat,stop_lon\nS1,Mill,52.5,13.4\nS2,Lake,52.6,13.5\nS3,Hill,52.7,13.7\n",
            ),
            (
                "routes.txt",
                "route_id,route_short_name,route_type\nR1,11,3\n",
            ),
            (
                "transfers.txt",
                "from_stop_id,to_stop_id,from_route_id,to_route_id,transfer_type\nS3,S1,R1,R1,1\n",
            ),
        ],
        report: "B\tstop\tS3\tS3_merged_1\nB\troute\tR1\tR1_merged_1\nB\ttrip\tT1\tT1_merged_1\n\
joined agency 1\njoined stop 2\njoined route 0\njoined service 1\njoined trip 0\n",
        written: &[(
            File::Transfers,
            "S3,S1,R1,R1,,,0,\nS3_merged_1,S1,R1_merged_1,R1_merged_1,,,1,\n",
        )],
        ..MERGED
    },
];
