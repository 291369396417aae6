ghost use Rattle.std.specs.Prelude.{◌≡◌, ◌≤◌};
ghost use Rattle.gtfs_stop_times.specs.StopTimeChoices.{pickup_code, drop_off_code, timepoint_code};

/// How riders board at a stop time (GTFS Schedule Reference, `pickup_type`).
#[derive(Clone, Copy, Debug, PartialEq, Eq)]
pub enum PickupType {
    /// As scheduled: 0.
    Regular,
    /// Nobody boards: 1.
    None,
    /// After a call to the agency: 2.
    Phone,
    /// As agreed with the driver: 3.
    Driver,
}

impl PickupType {
    /// The choice of a number, which is one of 0 to 3.
    pub fn from_number(number: u32) -> PickupType
        requires { number ≤ 3 }
        ensures { pickup_code result ≡ number }
    {
        match number {
            0 => PickupType::Regular,
            1 => PickupType::None,
            2 => PickupType::Phone,
            _ => PickupType::Driver,
        }
    }

    /// The number of the choice, from 0 to 3.
    pub fn number(self) -> u32
        ensures value { result ≡ pickup_code self }
        ensures bound { result ≤ 3 }
    {
        match self {
            PickupType::Regular => 0,
            PickupType::None => 1,
            PickupType::Phone => 2,
            PickupType::Driver => 3,
        }
    }
}

/// How riders alight at a stop time (GTFS Schedule Reference, `drop_off_type`).
#[derive(Clone, Copy, Debug, PartialEq, Eq)]
pub enum DropOffType {
    /// As scheduled: 0.
    Regular,
    /// Nobody alights: 1.
    None,
    /// After a call to the agency: 2.
    Phone,
    /// As agreed with the driver: 3.
    Driver,
}

impl DropOffType {
    /// The choice of a number, which is one of 0 to 3.
    pub fn from_number(number: u32) -> DropOffType
        requires { number ≤ 3 }
        ensures { drop_off_code result ≡ number }
    {
        match number {
            0 => DropOffType::Regular,
            1 => DropOffType::None,
            2 => DropOffType::Phone,
            _ => DropOffType::Driver,
        }
    }

    /// The number of the choice, from 0 to 3.
    pub fn number(self) -> u32
        ensures value { result ≡ drop_off_code self }
        ensures bound { result ≤ 3 }
    {
        match self {
            DropOffType::Regular => 0,
            DropOffType::None => 1,
            DropOffType::Phone => 2,
            DropOffType::Driver => 3,
        }
    }
}

/// How exact the times of a stop time are (GTFS Schedule Reference, `timepoint`).
#[derive(Clone, Copy, Debug, PartialEq, Eq)]
pub enum Timepoint {
    /// They are approximate: 0.
    Approximate,
    /// They are kept to: 1.
    Exact,
}

impl Timepoint {
    /// The choice of a number, which is one of 0 to 1.
    pub fn from_number(number: u32) -> Timepoint
        requires { number ≤ 1 }
        ensures { timepoint_code result ≡ number }
    {
        match number {
            0 => Timepoint::Approximate,
            _ => Timepoint::Exact,
        }
    }

    /// The number of the choice, from 0 to 1.
    pub fn number(self) -> u32
        ensures value { result ≡ timepoint_code self }
        ensures bound { result ≤ 1 }
    {
        match self {
            Timepoint::Approximate => 0,
            Timepoint::Exact => 1,
        }
    }
}
