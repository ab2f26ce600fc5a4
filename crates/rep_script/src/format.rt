//! Formatting a disk.

ghost use Rattle.std.specs.Prelude.{◌≡◌, ◌≢◌, ◌<◌, ◌≤◌, ◌⊎◌, [], Err, IfErr, OnOk, MatchResult};
ghost use Rattle.rep_disk.specs.Devices.{Calls};
ghost use Rattle.rep_layout.specs.Places.{layout_of, need_of};
ghost use Rattle.rep_log.specs.Moves.{fault_of};
ghost use Rattle.rep_streams.specs.Streams.{Notes};
ghost use Rattle.rep_catchup.specs.Formatting.{uuid_of, ImagesStandFor};
ghost use Rattle.rep_script.specs.Formatting.{first_gtid, formatted_line};
ghost use Rattle.rep_script.specs.Answering.{Tells};

use crate::answers::write_line;
use rep_catchup::format_disk;
use rep_disk::Disk;
use rep_streams::Sink;
use rep_types::{Gtid, Params, Refusal};
use uuid::Uuid;

/// The GTID of a new node of this state UUID: no item came yet. Without a UUID, or with the nil one, it is the
/// undefined one.
fn first_gtid(uuid: Option<Uuid>) -> Gtid
    ensures { result ≡ first_gtid uuid }
{
    let uuid = uuid.unwrap_or(Uuid::nil());
    let seqno = if uuid.is_nil() { -1 } else { 0 };
    match Gtid::new(uuid, seqno) {
        Some(gtid) => gtid,
        None => unreachable!(),
    }
}

/// Writes the line of a disk that was formatted, or not.
fn write_formatted<W: Sink>(
    writer: &mut W,
    outcome: Result<(), Refusal>,
    gtid: Gtid,
) -> Result<(), Refusal>
    requires { IfErr outcome (λ refusal. refusal ≢ Refusal.StreamFault) }
    ensures told { Tells (formatted_line gtid) (W.contents writer.old) (W.contents writer.new) result }
    ensures notes { Notes (W.failed writer.old) (W.failed writer.new) result }
    ensures refused { MatchResult outcome (λ _. IfErr result (λ refusal. refusal ≡ Refusal.StreamFault)) (λ refusal. result ≡ Err refusal) }
{
    outcome?;
    write_line(writer, format_args!("formatted {gtid}"))
}

/// Makes a new node's disk of this one, and then writes the line `formatted <gtid>`. The disk comes back beside
/// the answer.
///
/// Refuses as `format_disk` does, and then writes nothing; and with `StreamFault` where the writer fails, which it
/// notes, and has then taken a front of the line: the disk is formatted then.
pub fn format_text<D: Disk, W: Sink>(
    disk: D,
    params: &Params,
    uuid: Option<Uuid>,
    writer: &mut W,
) -> (D, Result<(), Refusal>)
    // The device's fault is told exactly where there was one.
    ensures call { Calls D.Disk disk result.0 (fault_of result.1) }
    ensures small { D.size disk < need_of (layout_of params.now) → (result.1 ≡ Err (Refusal.TooSmall (need_of (layout_of params.now)))) × (result.0 ≡ disk) }
    ensures refused { need_of (layout_of params.now) ≤ D.size disk → IfErr result.1 (λ refusal. (refusal ≡ Refusal.DiskFault) ⊎ (refusal ≡ Refusal.StreamFault)) }
    ensures told { Tells (formatted_line (first_gtid uuid)) (W.contents writer.old) (W.contents writer.new) result.1 }
    ensures notes { Notes (W.failed writer.old) (W.failed writer.new) result.1 }
    // Every image of the disk then stands for the empty order, also where the line could not be written.
    ensures formatted { D.honest disk → OnOk result.1 (ImagesStandFor (uuid_of uuid) params.now [] (D.history result.0)) }
    ensures untold { D.honest disk → result.1 ≡ Err Refusal.StreamFault → ImagesStandFor (uuid_of uuid) params.now [] (D.history result.0) }
{
    let state = uuid;
    let gtid = first_gtid(state);
    let (disk, outcome) = format_disk(disk, params, uuid);
    let outcome = write_formatted(writer, outcome, gtid);
    (disk, outcome)
}
