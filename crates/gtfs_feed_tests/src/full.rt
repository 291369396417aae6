//! A dataset with a value in every column, in texts and orders other than those that are written.

use gtfs_fixtures::FileText;

/// One agency, a station with a platform and a node, two trips, and services of both kinds.
pub(crate) const FULL: [FileText; 9] = [
    (
        "agency.txt",
        "agency_timezone,agency_name,agency_id,agency_url,agency_lang,agency_phone,agency_fare_url,agency_email\n\
 UTC ,\"Metro, the\",A1,http://m.example,en,+1 2,http://f.example,m@m.example\n",
    ),
    (
        "stops.txt",
        "stop_lon,stop_lat,stop_name,stop_id,location_type,parent_station,wheelchair_boarding,platform_code,stop_code,\
tts_stop_name,stop_desc,stop_url\n\
+13.4000,-052.50,Mi\tll,S2,0,S1,1,P,c 1,Mill said,By the mill,http://s.example\n\
-0.0000000009,.5,Main,S1,01,,2,,,,,\n180,90.0000000005,Node,S3,3,S1,,,,,,\n",
    ),
    (
        "routes.txt",
        "route_type,route_id,agency_id,route_long_name,route_short_name,route_desc,route_url,route_color,\
route_text_color,route_sort_order\n\
0700,R1,,Long,,About,http://r.example,00ff7f,,007\n",
    ),
    (
        "trips.txt",
        "trip_id,service_id,route_id,direction_id,trip_headsign,trip_short_name,wheelchair_accessible,bikes_allowed\n\
T2,C1,R1,1,\"To \"\"Mill\"\"\",S,1,2\nT1,D1,R1,0,,,,\n",
    ),
    (
        "stop_times.txt",
        "stop_sequence,stop_id,departure_time,arrival_time,trip_id,stop_headsign,pickup_type,drop_off_type,timepoint\n\
10,S2,8:10:00,7:05:00,T2,Mill,1,2,1\n09,S2,7:05:00,7:00:00,T2,Lake,3,,0\n1,S2,100:00:00,,T1,Mill,,,\n\
3,S2,100:10:00,100:10:00,T1,,,,\n2,S2,,,T1,,,,\n",
    ),
    (
        "calendar.txt",
        "service_id,monday,tuesday,wednesday,thursday,friday,saturday,sunday,start_date,end_date\n\
C1,1,0,1,0,1,0,01,20240401,20240405\n",
    ),
    (
        "calendar_dates.txt",
        "service_id,date,exception_type\nD1,20240502,2\nD1,20240501,1\nC1,20240406,1\n",
    ),
    (
        "frequencies.txt",
        "trip_id,start_time,end_time,headway_secs,exact_times\nT2,7:00:00,8:00:00,060,1\nT2,06:00:00,07:00:00,600,\n",
    ),
    (
        "transfers.txt",
        "from_stop_id,to_stop_id,transfer_type,min_transfer_time,from_trip_id,to_trip_id\n\
S2,S2,2,0120,,\n,,4,,T1,T2\nS1,S2,,,,\n",
    ),
];
