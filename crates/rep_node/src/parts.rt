//! A station's value, taken out.

ghost use Rattle.std.specs.Prelude.{◌≡◌};

use crate::home::{Desk, Home, Queue};
use rep_cert::Certifier;
use rep_disk::Disk;

/// The certifier of the first station.
pub(crate) fn certifier_of<D: Disk>(home: Home<D>) -> Certifier
    requires { (certifier : _) × (home ≡ Home.Certifier certifier) }
    ensures { home ≡ Home.Certifier result }
{
    match home {
        Home::Certifier(certifier) => certifier,
        Home::Desk(_desk) => unreachable!(),
        Home::Queue(_queue) => unreachable!(),
    }
}

/// The desk of the second station.
pub(crate) fn desk_of<D: Disk>(home: Home<D>) -> Desk<D>
    requires { (desk : _) × (home ≡ Home.Desk desk) }
    ensures { home ≡ Home.Desk result }
{
    match home {
        Home::Certifier(_certifier) => unreachable!(),
        Home::Desk(desk) => desk,
        Home::Queue(_queue) => unreachable!(),
    }
}

/// The queue of the third station.
pub(crate) fn queue_of<D: Disk>(home: Home<D>) -> Queue
    requires { (queue : _) × (home ≡ Home.Queue queue) }
    ensures { home ≡ Home.Queue result }
{
    match home {
        Home::Certifier(_certifier) => unreachable!(),
        Home::Desk(_desk) => unreachable!(),
        Home::Queue(queue) => queue,
    }
}
