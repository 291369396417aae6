//! Merges with near stops: stops of the second feed that become stops of the first one.

use crate::cases::{Asked, Case};
use crate::written::Rows;
use gtfs_fixtures::FileText;
use gtfs_table::File;

// Stops are near up to so many millionths of a degree.
const NEAR_0: Asked = Asked {
    near: Some(0),
    cutoff: None,
};

const NEAR_1: Asked = Asked {
    near: Some(1),
    cutoff: None,
};

const NEAR_2: Asked = Asked {
    near: Some(2),
    cutoff: None,
};

const NEAR_10: Asked = Asked {
    near: Some(10),
    cutoff: None,
};

const NEAR_1000: Asked = Asked {
    near: Some(1000),
    cutoff: None,
};

const NEAR_ALL: Asked = Asked {
    near: Some(2_147_483_647),
    cutoff: None,
};

/// The small dataset with M1 in place of S1, half a millionth of a degree to the north.
pub(crate) const MOVED_HALF: FileText = (
    "stops.txt",
    "stop_id,stop_name,stop_lat,stop_lon\nM1,Mill,52.5000005,13.4\nS2,Lake,52.6,13.5\nS3,Hill,52.7,13.6\n",
);

// The same, a millionth to the north.
const MOVED_ONE: FileText = (
    "stops.txt",
    "stop_id,stop_name,stop_lat,stop_lon\nM1,Mill,52.500001,13.4\nS2,Lake,52.6,13.5\nS3,Hill,52.7,13.6\n",
);

// The same, and a thousandth of a millionth more.
const MOVED_MORE: FileText = (
    "stops.txt",
    "stop_id,stop_name,stop_lat,stop_lon\nM1,Mill,52.500001001,13.4\nS2,Lake,52.6,13.5\nS3,Hill,52.7,13.6\n",
);

/// A trip that stops there.
pub(crate) const AT_M1: FileText = (
    "stop_times.txt",
    "trip_id,arrival_time,departure_time,stop_id,stop_sequence\n\
T1,08:00:00,08:00:00,M1,1\nT1,08:10:00,08:10:00,S2,2\n",
);

const NEAR_M1: &str = "B\tstop\tM1\tS1\n\
joined agency 1\njoined stop 2\njoined route 1\njoined service 1\njoined trip 1\n";

const FAR_M1: &str = "B\ttrip\tT1\tT1_merged_1\n\
joined agency 1\njoined stop 2\njoined route 1\njoined service 1\njoined trip 0\n";

const SMALL_STOPS: Rows = (
    File::Stops,
    "S1,,Mill,,,52.5,13.4,,0,,0,\nS2,,Lake,,,52.6,13.5,,0,,0,\nS3,,Hill,,,52.7,13.6,,0,,0,\n",
);

/// Stops are near up to a distance.
pub(crate) const DISTANCES: &[Case] = &[
    Case {
        what: "half a millionth north, up to one",
        asked: NEAR_1,
        a: &[],
        b: &[MOVED_HALF, AT_M1],
        report: NEAR_M1,
        pairs: "M1 S1\n",
        written: &[
            SMALL_STOPS,
            (
                File::StopTimes,
                "T1,08:00:00,08:00:00,S1,1,,0,0,\nT1,08:10:00,08:10:00,S2,2,,0,0,\n",
            ),
        ],
    },
    Case {
        what: "half a millionth north, none allowed",
        asked: NEAR_0,
        a: &[],
        b: &[MOVED_HALF, AT_M1],
        report: FAR_M1,
        pairs: "",
        written: &[],
    },
    Case {
        what: "a millionth north",
        asked: NEAR_1,
        a: &[],
        b: &[MOVED_ONE, AT_M1],
        report: NEAR_M1,
        pairs: "M1 S1\n",
        written: &[SMALL_STOPS],
    },
    Case {
        what: "a thousandth of a millionth more",
        asked: NEAR_1,
        a: &[],
        b: &[MOVED_MORE, AT_M1],
        report: FAR_M1,
        pairs: "",
        written: &[],
    },
    Case {
        what: "as far as can be asked for",
        asked: NEAR_ALL,
        a: &[],
        b: &[
            (
                "stops.txt",
                "stop_id,stop_name,stop_lat,stop_lon\nM1,Mill,-90,-180\nS2,Lake,52.6,13.5\nS3,Hill,52.7,13.6\n",
            ),
            AT_M1,
        ],
        report: NEAR_M1,
        pairs: "M1 S1\n",
        written: &[SMALL_STOPS],
    },
];

// The small dataset with M1 and M2 in place of S1.
const TWO: FileText = (
    "stops.txt",
    "stop_id,stop_name,stop_lat,stop_lon\nM1,Mill,52.5,13.4\nM2,Mill,52.5,13.4\nS2,Lake,52.6,13.5\nS3,Hill,52.7,13.6\n",
);

// A trip that stops at both.
const AT_BOTH: FileText = (
    "stop_times.txt",
    "trip_id,arrival_time,departure_time,stop_id,stop_sequence\n\
T1,08:00:00,08:00:00,M1,1\nT1,08:05:00,08:05:00,M2,2\nT1,08:10:00,08:10:00,S2,3\n",
);

// Two stops of one name at one place.
const MILLS: FileText = (
    "stops.txt",
    "stop_id,stop_name,stop_lat,stop_lon\nS0,Mill,52.5,13.4\nS1,Mill,52.5,13.4\nS2,Lake,52.6,13.5\n",
);

// The trip of the small dataset, with another first stop.
const AT_S9: FileText = (
    "stop_times.txt",
    "trip_id,arrival_time,departure_time,stop_id,stop_sequence\n\
T1,08:00:00,08:00:00,S9,1\nT1,08:10:00,08:10:00,S2,2\n",
);

/// Near stops become the least stop of their name and type.
pub(crate) const STOPS: &[Case] = &[
    Case {
        what: "two stops that become one",
        asked: NEAR_0,
        a: &[],
        b: &[TWO, AT_BOTH],
        report: "B\tstop\tM1\tS1\nB\tstop\tM2\tS1\nB\ttrip\tT1\tT1_merged_1\n\
joined agency 1\njoined stop 2\njoined route 1\njoined service 1\njoined trip 0\n",
        pairs: "M1 S1\nM2 S1\n",
        written: &[
            SMALL_STOPS,
            (
                File::StopTimes,
                "T1,08:00:00,08:00:00,S1,1,,0,0,\nT1,08:10:00,08:10:00,S2,2,,0,0,\n\
T1_merged_1,08:00:00,08:00:00,S1,1,,0,0,\nT1_merged_1,08:05:00,08:05:00,S1,2,,0,0,\n\
T1_merged_1,08:10:00,08:10:00,S2,3,,0,0,\n",
            ),
        ],
    },
    Case {
        what: "the least stop, though another has the id",
        asked: NEAR_0,
        a: &[MILLS],
        b: &[(
            "stops.txt",
            "stop_id,stop_name,stop_desc,stop_lat,stop_lon\nS1,Mill,new,52.5,13.4\nS2,Lake,,52.6,13.5\n",
        )],
        report: "B\tstop\tS1\tS0\nB\ttrip\tT1\tT1_merged_1\n\
joined agency 1\njoined stop 1\njoined route 1\njoined service 1\njoined trip 0\n",
        pairs: "S1 S0\n",
        written: &[(
            File::Stops,
            "S0,,Mill,,,52.5,13.4,,0,,0,\nS1,,Mill,,,52.5,13.4,,0,,0,\nS2,,Lake,,,52.6,13.5,,0,,0,\n",
        )],
    },
    Case {
        what: "a stop that keeps its id",
        asked: NEAR_0,
        a: &[],
        b: &[(
            "stops.txt",
            "stop_id,stop_name,stop_desc,stop_lat,stop_lon\nS1,Mill,new,52.5,13.4\nS2,Lake,,52.6,13.5\nS3,Hill,,52.7,13.6\n",
        )],
        report: "joined agency 1\njoined stop 2\njoined route 1\njoined service 1\njoined trip 1\n",
        pairs: "S1 S1\n",
        written: &[SMALL_STOPS],
    },
    Case {
        what: "the least stop by the bytes of the ids, which is joined with another one",
        asked: NEAR_1000,
        a: &[
            (
                "stops.txt",
                "stop_id,stop_name,stop_lat,stop_lon\nS9,Mill,52.5,13.4\nS10,Mill,52.501,13.401\nS2,Lake,52.6,13.5\n",
            ),
            AT_S9,
        ],
        b: &[
            (
                "stops.txt",
                "stop_id,stop_name,stop_lat,stop_lon\nS10,Mill,52.501,13.401\nM1,Mill,52.5,13.4\nS2,Lake,52.6,13.5\n",
            ),
            AT_M1,
        ],
        report: "B\tstop\tM1\tS10\nB\ttrip\tT1\tT1_merged_1\n\
joined agency 1\njoined stop 2\njoined route 1\njoined service 1\njoined trip 0\n",
        pairs: "M1 S10\n",
        written: &[(
            File::StopTimes,
            "T1,08:00:00,08:00:00,S9,1,,0,0,\nT1,08:10:00,08:10:00,S2,2,,0,0,\n\
T1_merged_1,08:00:00,08:00:00,S10,1,,0,0,\nT1_merged_1,08:10:00,08:10:00,S2,2,,0,0,\n",
        )],
    },
    Case {
        what: "another type, another name and no name",
        asked: NEAR_10,
        a: &[(
            "stops.txt",
            "stop_id,stop_name,stop_lat,stop_lon,location_type\nS1,Mill,52.5,13.4,0\nS2,Lake,52.6,13.5,0\nX1,Hub,52.7,13.6,1\n",
        )],
        b: &[(
            "stops.txt",
            "stop_id,stop_name,stop_lat,stop_lon,location_type\nS1,Mill,52.5,13.4,0\nS2,Lake,52.6,13.5,0\nX2,Hub,52.7,13.6,0\nX3,Hab,52.7,13.6,1\n",
        )],
        report: "joined agency 1\njoined stop 2\njoined route 1\njoined service 1\njoined trip 1\n",
        pairs: "",
        written: &[],
    },
    Case {
        what: "the poles: one at one longitude, one at two",
        asked: NEAR_2,
        a: &[(
            "stops.txt",
            "stop_id,stop_name,stop_lat,stop_lon\nS1,Mill,-90,-180\nS2,Lake,52.6,13.5\nS3,Top,90,0\n",
        )],
        b: &[
            (
                "stops.txt",
                "stop_id,stop_name,stop_lat,stop_lon\nM1,Mill,-90,-180\nS2,Lake,52.6,13.5\nM3,Top,90,0.000003\n",
            ),
            AT_M1,
        ],
        report: "B\tstop\tM1\tS1\n\
joined agency 1\njoined stop 1\njoined route 1\njoined service 1\njoined trip 1\n",
        pairs: "M1 S1\n",
        written: &[(
            File::Stops,
            "M3,,Top,,,90,0.000003,,0,,0,\nS1,,Mill,,,-90,-180,,0,,0,\nS2,,Lake,,,52.6,13.5,,0,,0,\nS3,,Top,,,90,0,,0,,0,\n",
        )],
    },
    Case {
        what: "the line of longitude 180",
        asked: NEAR_1,
        a: &[(
            "stops.txt",
            "stop_id,stop_name,stop_lat,stop_lon\nS1,Mill,0,180\nS2,Lake,52.6,13.5\n",
        )],
        b: &[
            (
                "stops.txt",
                "stop_id,stop_name,stop_lat,stop_lon\nM1,Mill,0,-180\nS2,Lake,52.6,13.5\n",
            ),
            AT_M1,
        ],
        report: "B\ttrip\tT1\tT1_merged_1\n\
joined agency 1\njoined stop 1\njoined route 1\njoined service 1\njoined trip 0\n",
        pairs: "",
        written: &[],
    },
];

// A station with a stop, an entrance, a node without a name or a place,
// and a boarding area of the stop.
const HUB: FileText = (
    "stops.txt",
    "stop_id,stop_name,stop_lat,stop_lon,location_type,parent_station\n\
H,Hub,52.7,13.6,1,\nS1,Mill,52.5,13.4,0,H\nS2,Lake,52.6,13.5,0,\nE1,Gate,52.7,13.6,2,H\nN1,,,,3,H\nB1,Edge,52.5,13.4,4,S1\n",
);

// Nodes of a joined station.
const NODES_A: FileText = (
    "stops.txt",
    "stop_id,stop_name,stop_lat,stop_lon,location_type,parent_station\n\
H,Hub,52.7,13.6,1,\nS1,Mill,52.5,13.4,0,H\nS2,Lake,52.6,13.5,0,\n\
A1,,52.7,13.6,3,H\nA2,Stairs,,13.6,3,H\nA3,Lift,52.7,13.6,3,H\nA4,Ramp,52.7,,3,H\n",
);

const NODES_B: FileText = (
    "stops.txt",
    "stop_id,stop_name,stop_lat,stop_lon,location_type,parent_station\n\
H,Hub,52.7,13.6,1,\nS1,Mill,52.5,13.4,0,H\nS2,Lake,52.6,13.5,0,\n\
B1,,52.7,13.6,3,H\nB2,Stairs,52.7,13.6,3,H\nB3,Lift,,,3,H\nB4,Ramp,52.7,,3,H\n",
);

/// Near stops have the same parent.
pub(crate) const STATIONS: &[Case] = &[
    Case {
        what: "all stops of a station under other ids",
        asked: NEAR_0,
        a: &[HUB],
        b: &[
            (
                "stops.txt",
                "stop_id,stop_name,stop_lat,stop_lon,location_type,parent_station\n\
H2,Hub,52.7,13.6,1,\nM1,Mill,52.5,13.4,0,H2\nS2,Lake,52.6,13.5,0,\nE2,Gate,52.7,13.6,2,H2\nN2,,,,3,H2\nB2,Edge,52.5,13.4,4,M1\n",
            ),
            AT_M1,
        ],
        report: "B\tstop\tB2\tB1\nB\tstop\tE2\tE1\nB\tstop\tH2\tH\nB\tstop\tM1\tS1\n\
joined agency 1\njoined stop 1\njoined route 1\njoined service 1\njoined trip 1\n",
        pairs: "B2 B1\nE2 E1\nH2 H\nM1 S1\n",
        written: &[(
            File::Stops,
            "B1,,Edge,,,52.5,13.4,,4,S1,0,\nE1,,Gate,,,52.7,13.6,,2,H,0,\nH,,Hub,,,52.7,13.6,,1,,0,\n\
N1,,,,,,,,3,H,0,\nN2,,,,,,,,3,H,0,\nS1,,Mill,,,52.5,13.4,,0,H,0,\nS2,,Lake,,,52.6,13.5,,0,,0,\n",
        )],
    },
    Case {
        what: "a stop that is joined, since its station is near",
        asked: NEAR_0,
        a: &[HUB],
        b: &[(
            "stops.txt",
            "stop_id,stop_name,stop_lat,stop_lon,location_type,parent_station\n\
H2,Hub,52.7,13.6,1,\nS1,Mill,52.5,13.4,0,H2\nS2,Lake,52.6,13.5,0,\n",
        )],
        report: "B\tstop\tH2\tH\n\
joined agency 1\njoined stop 2\njoined route 1\njoined service 1\njoined trip 1\n",
        pairs: "H2 H\n",
        written: &[],
    },
    Case {
        what: "a stop of another station, at the same place",
        asked: NEAR_10,
        a: &[HUB],
        b: &[
            (
                "stops.txt",
                "stop_id,stop_name,stop_lat,stop_lon,location_type,parent_station\n\
H2,Hub 2,52.7,13.6,1,\nM1,Mill,52.5,13.4,0,H2\nS2,Lake,52.6,13.5,0,\n",
            ),
            AT_M1,
        ],
        report: "B\ttrip\tT1\tT1_merged_1\n\
joined agency 1\njoined stop 1\njoined route 1\njoined service 1\njoined trip 0\n",
        pairs: "",
        written: &[],
    },
    Case {
        what: "nodes that lack a name, a latitude or both",
        asked: NEAR_ALL,
        a: &[NODES_A],
        b: &[NODES_B],
        report: "joined agency 1\njoined stop 3\njoined route 1\njoined service 1\njoined trip 1\n",
        pairs: "",
        written: &[],
    },
    Case {
        what: "a stop of another station, which is far",
        asked: NEAR_0,
        a: &[HUB],
        b: &[
            (
                "stops.txt",
                "stop_id,stop_name,stop_lat,stop_lon,location_type,parent_station\n\
H2,Hub,52.8,13.6,1,\nM1,Mill,52.5,13.4,0,H2\nM2,Mill,52.5,13.4,0,\nS2,Lake,52.6,13.5,0,\n",
            ),
            AT_M1,
        ],
        report: "B\ttrip\tT1\tT1_merged_1\n\
joined agency 1\njoined stop 1\njoined route 1\njoined service 1\njoined trip 0\n",
        pairs: "",
        written: &[],
    },
];

/// Transfers of near stops become one.
pub(crate) const TRANSFERS: &[Case] = &[
    Case {
        what: "two transfers of B that become one, and one within a stop",
        asked: NEAR_0,
        a: &[],
        b: &[
            TWO,
            AT_BOTH,
            (
                "transfers.txt",
                "from_stop_id,to_stop_id,transfer_type,min_transfer_time\nM2,S2,2,20\nM1,S2,2,10\nM1,M2,2,30\n",
            ),
        ],
        report: "B\tstop\tM1\tS1\nB\tstop\tM2\tS1\nB\ttrip\tT1\tT1_merged_1\n\
joined agency 1\njoined stop 2\njoined route 1\njoined service 1\njoined trip 0\n",
        pairs: "M1 S1\nM2 S1\n",
        written: &[(File::Transfers, "S1,S1,,,,,2,30\nS1,S2,,,,,2,10\n")],
    },
    Case {
        what: "a transfer of A that they become, too",
        asked: NEAR_0,
        a: &[(
            "transfers.txt",
            "from_stop_id,to_stop_id,transfer_type,min_transfer_time\nS1,S2,2,90\n",
        )],
        b: &[
            TWO,
            AT_BOTH,
            (
                "transfers.txt",
                "from_stop_id,to_stop_id,transfer_type,min_transfer_time\nM2,S2,2,20\nM1,S2,2,10\n",
            ),
        ],
        report: "B\tstop\tM1\tS1\nB\tstop\tM2\tS1\nB\ttrip\tT1\tT1_merged_1\n\
joined agency 1\njoined stop 2\njoined route 1\njoined service 1\njoined trip 0\n",
        pairs: "M1 S1\nM2 S1\n",
        written: &[(File::Transfers, "S1,S2,,,,,2,90\n")],
    },
];
