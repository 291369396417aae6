//! Agencies, of which those without an id get a name where they are not joined.

use crate::cases::{Case, MERGED};
use gtfs_fixtures::FileText;
use gtfs_table::File;

// The agency of the small dataset with an id.
const NAMED: FileText = (
    "agency.txt",
    "agency_id,agency_name,agency_url,agency_timezone\nM,Metro,http://m.example,UTC\n",
);

/// Agencies without an id are joined or get a name.
pub(crate) const CASES: &[Case] = &[
    Case {
        what: "an empty id in A alone",
        a: &[],
        b: &[NAMED],
        report: "A\tagency\t\tagency_merged_1\nB\troute\tR1\tR1_merged_1\nB\ttrip\tT1\tT1_merged_1\n\
joined agency 0\njoined stop 3\njoined route 0\njoined service 1\njoined trip 0\n",
        written: &[
            (
                File::Agency,
                "M,Metro,http://m.example,UTC,,,,\nagency_merged_1,Metro,http://m.example,UTC,,,,\n",
            ),
            (
                File::Routes,
                "R1,agency_merged_1,10,,,3,,FFFFFF,000000,\nR1_merged_1,M,10,,,3,,FFFFFF,000000,\n",
            ),
        ],
        ..MERGED
    },
    Case {
        what: "an empty id in B alone",
        a: &[NAMED],
        b: &[],
        report: "B\tagency\t\tagency_merged_1\nB\troute\tR1\tR1_merged_1\nB\ttrip\tT1\tT1_merged_1\n\
joined agency 0\njoined stop 3\njoined route 0\njoined service 1\njoined trip 0\n",
        written: &[
            (
                File::Agency,
                "M,Metro,http://m.example,UTC,,,,\nagency_merged_1,Metro,http://m.example,UTC,,,,\n",
            ),
            (
                File::Routes,
                "R1,M,10,,,3,,FFFFFF,000000,\nR1_merged_1,agency_merged_1,10,,,3,,FFFFFF,000000,\n",
            ),
        ],
        ..MERGED
    },
    Case {
        what: "an empty id in A, and an agency of B with its first name",
        a: &[],
        b: &[
            (
                "agency.txt",
                "agency_id,agency_name,agency_url,agency_timezone\n\
agency_merged_1,Rail,http://r.example,UTC\nM,Metro,http://m.example,UTC\n",
            ),
            (
                "routes.txt",
                "route_id,agency_id,route_short_name,route_type\nR1,M,10,3\n",
            ),
        ],
        report: "A\tagency\t\tagency_merged_2\nB\troute\tR1\tR1_merged_1\nB\ttrip\tT1\tT1_merged_1\n\
joined agency 0\njoined stop 3\njoined route 0\njoined service 1\njoined trip 0\n",
        written: &[
            (
                File::Agency,
                "M,Metro,http://m.example,UTC,,,,\nagency_merged_1,Rail,http://r.example,UTC,,,,\n\
agency_merged_2,Metro,http://m.example,UTC,,,,\n",
            ),
            (
                File::Routes,
                "R1,agency_merged_2,10,,,3,,FFFFFF,000000,\nR1_merged_1,M,10,,,3,,FFFFFF,000000,\n",
            ),
        ],
        ..MERGED
    },
    Case {
        what: "one id, and a phone in B alone",
        a: &[NAMED],
        b: &[(
            "agency.txt",
            "agency_id,agency_name,agency_url,agency_timezone,agency_phone\n\
M,Metro,http://m.example,UTC,+1 2\n",
        )],
        report: "B\tagency\tM\tM_merged_1\nB\troute\tR1\tR1_merged_1\nB\ttrip\tT1\tT1_merged_1\n\
joined agency 0\njoined stop 3\njoined route 0\njoined service 1\njoined trip 0\n",
        written: &[(
            File::Agency,
            "M,Metro,http://m.example,UTC,,,,\nM_merged_1,Metro,http://m.example,UTC,,+1 2,,\n",
        )],
        ..MERGED
    },
    Case {
        what: "a route that names the only agency, and one that leaves it out",
        a: &[NAMED],
        b: &[
            NAMED,
            (
                "routes.txt",
                "route_id,agency_id,route_short_name,route_type\nR1,M,10,3\n",
            ),
        ],
        report: "joined agency 1\njoined stop 3\njoined route 1\njoined service 1\njoined trip 1\n",
        written: &[(File::Routes, "R1,M,10,,,3,,FFFFFF,000000,\n")],
        ..MERGED
    },
];
