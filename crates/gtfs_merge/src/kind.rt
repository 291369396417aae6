ghost use Rattle.std.specs.Prelude.{◌≡◌};
ghost use Rattle.gtfs_merge.specs.MergeReport.{kind_name, side_name};

/// A kind of id. Ids of different kinds have nothing to do with one another.
#[derive(Clone, Copy, Debug, PartialEq, Eq)]
pub enum Kind {
    Agency,
    Stop,
    Route,
    Service,
    Trip,
}

impl Kind {
    /// All kinds, in the order of a merge's report.
    pub const ALL: [Kind; 5] = [
        Kind::Agency,
        Kind::Stop,
        Kind::Route,
        Kind::Service,
        Kind::Trip,
    ];

    /// The kind's name in a merge's report, as `stop`.
    pub fn name(self) -> &'static str
        ensures { result.now ≡ kind_name self }
    {
        match self {
            Kind::Agency => "agency",
            Kind::Stop => "stop",
            Kind::Route => "route",
            Kind::Service => "service",
            Kind::Trip => "trip",
        }
    }
}

/// One of the two feeds that are merged.
#[derive(Clone, Copy, Debug, PartialEq, Eq)]
pub enum Side {
    /// The first feed, whose ids stay.
    A,
    /// The second feed, whose ids give way.
    B,
}

impl Side {
    /// The side's name in a merge's report, `A` or `B`.
    pub fn name(self) -> &'static str
        ensures { result.now ≡ side_name self }
    {
        match self {
            Side::A => "A",
            Side::B => "B",
        }
    }
}
