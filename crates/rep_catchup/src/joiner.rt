//! What a joiner says of itself.

ghost use Rattle.std.specs.Prelude.{◌≡◌};
ghost use Rattle.rep_forms.specs.Forms.{IsPart};
ghost use Rattle.rep_transfer.specs.Haves.{IsHave};
ghost use Rattle.rep_catchup.specs.Haves.{have_of};

use arrayvec::ArrayVec;
use rep_disk::Disk;
use rep_forms::put_bytes;
use rep_replica::Replica;
use rep_transfer::{Have, Shape};
use uuid::Uuid;

/// A UUID has 16 bytes.
fn know_uuid(uuid: &Uuid)
    ensures { IsPart 16 uuid.now }
{
    let mut room: ArrayVec<u8, 16> = ArrayVec::new();
    put_bytes(&mut room, uuid.as_bytes());
}

/// What a node has, to be told to a donor: its cluster, how many items of the order are durable there, and its shape.
pub fn have<D: Disk>(replica: &Replica<D>) -> Have
    ensures have { result ≡ have_of replica.now }
    // It can be written.
    ensures is_have { IsHave result }
{
    let uuid = replica.uuid();
    know_uuid(&uuid);
    let shape = Shape::of(replica.params());
    // For its clause: the limits of a shape.
    shape.window();
    let position = if uuid.is_nil() { 0 } else { replica.durable() };
    Have {
        uuid,
        position,
        shape,
    }
}
