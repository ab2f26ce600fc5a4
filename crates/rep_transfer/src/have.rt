//! What a joiner has.

ghost use Rattle.std.specs.Prelude.{◌≡◌, ◌↔◌, ◌⊎◌, ◌<◌, [], length, true, false, IfOk, IfErr, IfSome, IsSome, Ok, Err};
ghost use Rattle.rep_streams.specs.Streams.{Notes};
ghost use Rattle.rep_transfer.specs.Haves.{IsHave, have_bytes, have_form};

use crate::reader::read_into;
use crate::shape::Shape;
use arrayvec::ArrayVec;
use rep_forms::{
    Exact, Form, Put, put_bytes, put_u64, read_front, read_part, read_u64, strip_front,
};
use rep_streams::Source;
use rep_types::Refusal;
use uuid::Uuid;

/// The first eight bytes of the format.
const MARK: &[u8; 8] = b"REPHAVE1";

/// The number of bytes of what a joiner has.
const HAVE: usize = 67;

/// What a joiner has, as it tells it to a donor: the cluster that it belongs to, the position up to which it holds the order, and its
/// shape.
///
/// It has 67 bytes: `REPHAVE1`, the UUID in 16, the position in 8, and the shape in 35. The highest byte of a number stands first.
#[derive(Debug, Drop, PartialEq, Eq)]
pub struct Have {
    /// The state UUID; nil where the joiner belongs to no cluster yet, and then the position is 0.
    pub uuid: Uuid,
    /// How many items of the order are durable there.
    pub position: u64,
    /// What it must have in common with the donor.
    pub shape: Shape,
}

impl Form for Have {
    ghost use Rattle.rep_transfer.specs.TransferLaws.{have_is_form};

    ghost form = { have_form };

    ghost most = { 67 };

    #[tactic(auto, unfolding(crate::specs::Haves::have_mark))]
    fn read(bytes: &[u8]) -> Option<(Have, &[u8])> {
        let (_, rest) = read_part(bytes, MARK.len())?;
        let (uuid, rest) = read_part(rest, 16)?;
        let uuid = Uuid::from_slice(uuid).ok()?;
        let (position, rest) = read_u64(rest)?;
        let (shape, rest) = Shape::read(rest)?;
        let have = Have {
            uuid,
            position,
            shape,
        };
        Some((have, rest))
    }

    ghost is_form = { have_is_form };
}

impl Exact for Have {
    fn strip<'a>(&self, bytes: &'a [u8]) -> Option<&'a [u8]> {
        let spelling = self.write_bytes()?;
        strip_front(bytes, spelling.as_slice())
    }
}

impl Have {
    /// The 67 bytes of it; None where it cannot be said: where the UUID is nil, and the position is not 0.
    #[tactic(auto, using(rep_forms::specs::FormLaws::sizes, rep_forms::specs::FormLaws::joined, std::proofs::Common::append_assoc), unfolding(crate::specs::Haves::have_mark))]
    pub fn write_bytes(&self) -> Option<ArrayVec<u8, HAVE>>
        ensures some { IsSome result ↔ IsHave self.now }
        // What is written is read again: that is its spelling.
        ensures bytes { IfSome result (λ b. IsHave self.now × (b.items ≡ have_bytes self.now)) }
        ensures size { IfSome result (λ b. length b.items ≡ 67) }
    {
        if self.uuid.is_nil() && self.position != 0 {
            return None;
        }
        let mut out = ArrayVec::new();
        put_bytes(&mut out, MARK);
        put_bytes(&mut out, self.uuid.as_bytes());
        put_u64(&mut out, self.position);
        self.shape.put(&mut out);
        Some(out)
    }

    /// Reads what a joiner has, which all of the bytes are.
    ///
    /// Refuses with `Malformed`, at 0, what is not of the form: 67 bytes, which are `REPHAVE1`, the UUID, the position, which is 0
    /// where the UUID is nil, and the shape, within the limits of parameters.
    pub fn read_bytes(bytes: &[u8]) -> Result<Have, Refusal>
        // What is read is spelled so.
        ensures found { IfOk result (λ have. IsHave have × (bytes.now ≡ have_bytes have)) }
        // What is spelled so is read.
        ensures only { (have : Have) → IsHave have → bytes.now ≡ have_bytes have → result ≡ Ok have }
        // Anything else is refused.
        ensures refused { IfErr result (λ e. e ≡ Refusal.Malformed 0) }
    {
        match read_front::<Have>(bytes) {
            Some((have, rest)) if rest.is_empty() => Ok(have),
            _ => Err(Refusal::Malformed { at: 0 }),
        }
    }
}

/// Whether the source has ended.
///
/// Refuses with `StreamFault` where it fails.
fn has_ended<R: Source>(reader: &mut R) -> Result<bool, Refusal>
    ensures ended { IfOk result (λ ended. ended ≡ true → IfSome (R.remaining reader.old) (λ bytes. bytes ≡ [])) }
    ensures more { IfOk result (λ ended. ended ≡ false → IfSome (R.remaining reader.old) (λ bytes. 0 < length bytes)) }
    ensures notes { Notes (R.failed reader.old) (R.failed reader.new) result }
    ensures refused { IfErr result (λ e. e ≡ Refusal.StreamFault) }
{
    let mut room = [0; 1];
    let is_full = read_into(reader, &mut room)?;
    Ok(!is_full)
}

/// Reads what a joiner has, which is all that the source gives.
///
/// Refuses with `StreamFault` exactly where the source fails, and with `Malformed`, at 0, what is not of the form that `read_bytes` says.
#[tactic(auto, using(crate::specs::PieceLaws::have_size))]
pub fn read_have<R: Source>(reader: &mut R) -> Result<Have, Refusal>
    // What is read is all of the known bytes, and spelled so.
    ensures found { IfOk result (λ have. IsHave have × IfSome (R.remaining reader.old) (λ bytes. bytes ≡ have_bytes have)) }
    // What is spelled so is read, unless the source fails.
    ensures only { (have : Have) → IsHave have → IfSome (R.remaining reader.old) (λ bytes. bytes ≡ have_bytes have → (result ≡ Ok have) ⊎ (result ≡ Err Refusal.StreamFault)) }
    ensures notes { Notes (R.failed reader.old) (R.failed reader.new) result }
    ensures refused { IfErr result (λ e. (e ≡ Refusal.StreamFault) ⊎ (e ≡ Refusal.Malformed 0)) }
{
    let mut room = [0; HAVE];
    if !read_into(reader, &mut room)? {
        return Err(Refusal::Malformed { at: 0 });
    }
    if !has_ended(reader)? {
        return Err(Refusal::Malformed { at: 0 });
    }
    Have::read_bytes(&room)
}
