ghost use Rattle.std.specs.Prelude.{◌≡◌, ◌≤◌};
ghost use Rattle.gtfs_rows.specs.RowChoices.{location_code, boarding_code, direction_code, wheelchair_code, bikes_code, exact_code, transfer_code};

/// What a row of `stops.txt` stands for (GTFS Schedule Reference, `location_type`).
#[derive(Clone, Copy, Debug, PartialEq, Eq)]
pub enum LocationType {
    /// A stop, or a platform of a station: 0.
    Stop,
    /// A station: 1.
    Station,
    /// An entrance or exit of a station: 2.
    Entrance,
    /// A generic node inside a station: 3.
    Node,
    /// A boarding area of a platform: 4.
    BoardingArea,
}

impl LocationType {
    /// The choice of a number, which is one of 0 to 4.
    pub fn from_number(number: u32) -> LocationType
        requires { number ≤ 4 }
        ensures { location_code result ≡ number }
    {
        match number {
            0 => LocationType::Stop,
            1 => LocationType::Station,
            2 => LocationType::Entrance,
            3 => LocationType::Node,
            _ => LocationType::BoardingArea,
        }
    }

    /// The number of the choice, from 0 to 4.
    pub fn number(self) -> u32
        ensures value { result ≡ location_code self }
        ensures bound { result ≤ 4 }
    {
        match self {
            LocationType::Stop => 0,
            LocationType::Station => 1,
            LocationType::Entrance => 2,
            LocationType::Node => 3,
            LocationType::BoardingArea => 4,
        }
    }
}

/// Whether wheelchairs can board at a stop (GTFS Schedule Reference, `wheelchair_boarding`).
#[derive(Clone, Copy, Debug, PartialEq, Eq)]
pub enum WheelchairBoarding {
    /// It is not known: 0.
    Unknown,
    /// Some vehicles can be boarded: 1.
    Possible,
    /// They cannot: 2.
    NotPossible,
}

impl WheelchairBoarding {
    /// The choice of a number, which is one of 0 to 2.
    pub fn from_number(number: u32) -> WheelchairBoarding
        requires { number ≤ 2 }
        ensures { boarding_code result ≡ number }
    {
        match number {
            0 => WheelchairBoarding::Unknown,
            1 => WheelchairBoarding::Possible,
            _ => WheelchairBoarding::NotPossible,
        }
    }

    /// The number of the choice, from 0 to 2.
    pub fn number(self) -> u32
        ensures value { result ≡ boarding_code self }
        ensures bound { result ≤ 2 }
    {
        match self {
            WheelchairBoarding::Unknown => 0,
            WheelchairBoarding::Possible => 1,
            WheelchairBoarding::NotPossible => 2,
        }
    }
}

/// The direction of travel of a trip (GTFS Schedule Reference, `direction_id`).
#[derive(Clone, Copy, Debug, PartialEq, Eq)]
pub enum Direction {
    /// One direction, as outbound: 0.
    One,
    /// The opposite one, as inbound: 1.
    Opposite,
}

impl Direction {
    /// The choice of a number, which is one of 0 to 1.
    pub fn from_number(number: u32) -> Direction
        requires { number ≤ 1 }
        ensures { direction_code result ≡ number }
    {
        match number {
            0 => Direction::One,
            _ => Direction::Opposite,
        }
    }

    /// The number of the choice, from 0 to 1.
    pub fn number(self) -> u32
        ensures value { result ≡ direction_code self }
        ensures bound { result ≤ 1 }
    {
        match self {
            Direction::One => 0,
            Direction::Opposite => 1,
        }
    }
}

/// Whether the vehicle of a trip takes wheelchairs (GTFS Schedule Reference,
/// `wheelchair_accessible`).
#[derive(Clone, Copy, Debug, PartialEq, Eq)]
pub enum WheelchairAccessible {
    /// It is not known: 0.
    Unknown,
    /// It takes at least one: 1.
    Accessible,
    /// It takes none: 2.
    NotAccessible,
}

impl WheelchairAccessible {
    /// The choice of a number, which is one of 0 to 2.
    pub fn from_number(number: u32) -> WheelchairAccessible
        requires { number ≤ 2 }
        ensures { wheelchair_code result ≡ number }
    {
        match number {
            0 => WheelchairAccessible::Unknown,
            1 => WheelchairAccessible::Accessible,
            _ => WheelchairAccessible::NotAccessible,
        }
    }

    /// The number of the choice, from 0 to 2.
    pub fn number(self) -> u32
        ensures value { result ≡ wheelchair_code self }
        ensures bound { result ≤ 2 }
    {
        match self {
            WheelchairAccessible::Unknown => 0,
            WheelchairAccessible::Accessible => 1,
            WheelchairAccessible::NotAccessible => 2,
        }
    }
}

/// Whether the vehicle of a trip takes bicycles (GTFS Schedule Reference, `bikes_allowed`).
#[derive(Clone, Copy, Debug, PartialEq, Eq)]
pub enum BikesAllowed {
    /// It is not known: 0.
    Unknown,
    /// It takes at least one: 1.
    Allowed,
    /// It takes none: 2.
    NotAllowed,
}

impl BikesAllowed {
    /// The choice of a number, which is one of 0 to 2.
    pub fn from_number(number: u32) -> BikesAllowed
        requires { number ≤ 2 }
        ensures { bikes_code result ≡ number }
    {
        match number {
            0 => BikesAllowed::Unknown,
            1 => BikesAllowed::Allowed,
            _ => BikesAllowed::NotAllowed,
        }
    }

    /// The number of the choice, from 0 to 2.
    pub fn number(self) -> u32
        ensures value { result ≡ bikes_code self }
        ensures bound { result ≤ 2 }
    {
        match self {
            BikesAllowed::Unknown => 0,
            BikesAllowed::Allowed => 1,
            BikesAllowed::NotAllowed => 2,
        }
    }
}

/// How the runs of a frequency are scheduled (GTFS Schedule Reference, `exact_times`).
#[derive(Clone, Copy, Debug, PartialEq, Eq)]
pub enum ExactTimes {
    /// At about the headway: 0.
    Frequency,
    /// Exactly at each headway: 1.
    Schedule,
}

impl ExactTimes {
    /// The choice of a number, which is one of 0 to 1.
    pub fn from_number(number: u32) -> ExactTimes
        requires { number ≤ 1 }
        ensures { exact_code result ≡ number }
    {
        match number {
            0 => ExactTimes::Frequency,
            _ => ExactTimes::Schedule,
        }
    }

    /// The number of the choice, from 0 to 1.
    pub fn number(self) -> u32
        ensures value { result ≡ exact_code self }
        ensures bound { result ≤ 1 }
    {
        match self {
            ExactTimes::Frequency => 0,
            ExactTimes::Schedule => 1,
        }
    }
}

/// What a transfer promises (GTFS Schedule Reference, `transfer_type`).
#[derive(Clone, Copy, Debug, PartialEq, Eq)]
pub enum TransferType {
    /// A recommended point of transfer: 0.
    Recommended,
    /// The second vehicle waits for the first: 1.
    Timed,
    /// It takes at least `min_transfer_time`: 2.
    MinimumTime,
    /// No transfer is possible: 3.
    NotPossible,
    /// Riders stay in the vehicle: 4.
    InSeat,
    /// Riders have to leave the vehicle and board again: 5.
    Reboard,
}

impl TransferType {
    /// The choice of a number, which is one of 0 to 5.
    pub fn from_number(number: u32) -> TransferType
        requires { number ≤ 5 }
        ensures { transfer_code result ≡ number }
    {
        match number {
            0 => TransferType::Recommended,
            1 => TransferType::Timed,
            2 => TransferType::MinimumTime,
            3 => TransferType::NotPossible,
            4 => TransferType::InSeat,
            _ => TransferType::Reboard,
        }
    }

    /// The number of the choice, from 0 to 5.
    pub fn number(self) -> u32
        ensures value { result ≡ transfer_code self }
        ensures bound { result ≤ 5 }
    {
        match self {
            TransferType::Recommended => 0,
            TransferType::Timed => 1,
            TransferType::MinimumTime => 2,
            TransferType::NotPossible => 3,
            TransferType::InSeat => 4,
            TransferType::Reboard => 5,
        }
    }
}
