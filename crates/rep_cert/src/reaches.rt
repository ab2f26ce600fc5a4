//! How far back the windows reach that a certifier can give.

ghost use Rattle.std.specs.Prelude.{◌≡◌, ◌+◌, ◌<◌, ◌≤◌, ◌++◌, [], ◌∷◌, length, IfOk, IfErr};
ghost use Rattle.circular_buffer.specs.Buffer.{buffer, keep_last};
ghost use Rattle.rep_types.specs.declared.limits.TheConstants.{MAX_WINDOW};
ghost use Rattle.rep_cert.specs.Holdings.{back, raised};
ghost use Rattle.rep_cert.specs.Kept.{former_reaches};

use circular_buffer::HeapCircularBuffer;
use rep_types::{MAX_AHEAD, Reach, Refusal, WindowSize};
use std::alloc::Global;

/// Of how many last positions a certifier keeps how far back the window reaches: of those whose
/// window can be asked for, at most `MAX_AHEAD` back, and of one more, since the last item may be
/// undone.
pub const KEPT_REACHES: usize = MAX_AHEAD as usize + 2;

/// A reach of this size whose floor is not below this one, nor below what the size spans at the
/// position.
pub(crate) fn raised(size: WindowSize, floor: u64, position: u64) -> Reach
    ensures raised { result ≡ raised size floor position }
    ensures near { position + 1 ≤ result.floor + MAX_WINDOW }
{
    // For its clause: a window spans no more than `MAX_WINDOW` seqnos.
    size.get();
    Reach {
        size,
        floor: floor.max(size.lowest_at(position)),
    }
}

/// A list of reaches, with room for so many as are kept, that begins with this one.
///
/// Refuses with `OutOfMemory` where there is no room for them.
pub(crate) fn begin(alloc: Global, reach: Reach) -> Result<HeapCircularBuffer<Reach>, Refusal>
    ensures begun { IfOk result (λ reaches. reaches ≡ buffer (reach ∷ []) KEPT_REACHES) }
    ensures refused { IfErr result (λ refusal. refusal ≡ Refusal.OutOfMemory) }
{
    let mut reaches = HeapCircularBuffer::with_capacity(alloc, KEPT_REACHES)?;
    reaches.push_back(reach);
    Ok(reaches)
}

/// The reach that stands so many places before the last.
pub(crate) fn reach_before(reaches: &HeapCircularBuffer<Reach>, places: usize) -> Reach
    requires { places < length reaches.now.items }
    ensures { result ≡ back reaches.now.items places }
{
    match reaches.nth_back(places) {
        Some(reach) => *reach,
        None => unreachable!(),
    }
}

/// Adds the reach of the next position, with its size; the oldest one goes where there is no room.
pub(crate) fn reach_on(reaches: &mut HeapCircularBuffer<Reach>, size: WindowSize, position: u64)
    requires { 0 < length reaches.old.items }
    ensures added { reaches.new ≡ buffer (keep_last reaches.old.capacity (reaches.old.items ++ raised size (back reaches.old.items 0).floor position ∷ [])) reaches.old.capacity }
    ensures near { position + 1 ≤ (raised size (back reaches.old.items 0).floor position).floor + MAX_WINDOW }
{
    let last = reach_before(reaches, 0);
    reaches.push_back(raised(size, last.floor, position));
}

/// Drops the last reach.
pub(crate) fn drop_last(reaches: &mut HeapCircularBuffer<Reach>)
    ensures { reaches.new ≡ buffer (former_reaches reaches.old.items) reaches.old.capacity }
{
    reaches.pop_back();
}
