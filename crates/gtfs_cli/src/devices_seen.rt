//! What contracts see of folders, inputs and outputs: one record of each, in place of every member of their traits.
use gtfs_conversation::Input;
use gtfs_table::{Folders, Out};

pub(crate) trait FoldersSeen {
    ghost use Rattle.gtfs_cli.specs.DevicesSeen.{Device};

    ghost seen: { Self → Device };
}

impl<F: Folders> FoldersSeen for F {
    ghost seen = { λ f. record { limit = F.limit f; held = F.held f; failures = F.failure_count f; calls = F.calls f } };
}

pub(crate) trait OutSeen {
    ghost use Rattle.gtfs_cli.specs.DevicesSeen.{Output};

    ghost seen: { Self → Output };
}

impl<O: Out> OutSeen for O {
    ghost seen = { λ o. record { told = O.told o; failures = O.failure_count o } };
}

pub(crate) trait DevicesSeen {
    ghost use Rattle.gtfs_cli.specs.DevicesSeen.{Devices};

    ghost seen: { Self → Devices };
}

impl<F: Folders, O: Out> DevicesSeen for (F, O) {
    ghost seen = { λ x. record { folders = ⟦<F as FoldersSeen>⟧.seen x.0; output = ⟦<O as OutSeen>⟧.seen x.1 } };
}

pub(crate) trait InputSeen<O: Out> {
    ghost use Rattle.gtfs_conversation.specs.Conversation.{Hearing};

    ghost seen: { Self → Hearing };
}

impl<O: Out, I: Input<O>> InputSeen<O> for I {
    ghost seen = { λ i. record { waiting = I.waiting i; asked = I.asked i; failures = I.failure_count i } };
}
