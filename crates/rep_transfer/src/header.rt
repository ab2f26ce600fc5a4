//! What a transfer begins with.

ghost use Rattle.std.specs.Prelude.{◌≡◌, ◌↔◌, length, None, IfSome, IsSome};
ghost use Rattle.rep_layout.specs.Supers.{IsNil};
ghost use Rattle.rep_transfer.specs.Haves.{IsHeader, header_bytes, header_form};

use crate::shape::Shape;
use arrayvec::ArrayVec;
use rep_forms::{Exact, Form, Put, put_bytes, read_part, strip_front};
use rep_layout::Format;
use uuid::Uuid;

/// The first seven bytes, in front of the format's digit.
const MARK: &[u8; 7] = b"REPXFER";

/// The number of bytes of a header.
pub(crate) const HEADER: usize = 59;

/// What a transfer begins with: the cluster that it comes from, and its shape.
///
/// It has 59 bytes: `REPXFER1` or `REPXFER2`, the UUID in 16, and the shape in 35.
#[derive(Debug, Drop, PartialEq, Eq)]
pub struct Header {
    /// In which format a snapshot behind it is spelled.
    pub format: Format,
    /// The donor's state UUID, which is not nil.
    pub uuid: Uuid,
    /// What the joiner must have in common with it.
    pub shape: Shape,
}

impl Form for Header {
    ghost use Rattle.rep_transfer.specs.TransferLaws.{header_is_form};

    ghost form = { header_form };

    ghost most = { 59 };

    #[tactic(auto, unfolding(crate::specs::Haves::header_mark))]
    fn read(bytes: &[u8]) -> Option<(Header, &[u8])> {
        let (_, rest) = read_part(bytes, MARK.len())?;
        let (format, rest) = Format::read(rest)?;
        let (uuid, rest) = read_part(rest, 16)?;
        let uuid = Uuid::from_slice(uuid).ok()?;
        let (shape, rest) = Shape::read(rest)?;
        let header = Header {
            format,
            uuid,
            shape,
        };
        Some((header, rest))
    }

    ghost is_form = { header_is_form };
}

impl Exact for Header {
    fn strip<'a>(&self, bytes: &'a [u8]) -> Option<&'a [u8]> {
        let spelling = self.write_bytes()?;
        strip_front(bytes, spelling.as_slice())
    }
}

impl Header {
    /// The 59 bytes of it; None where the UUID is nil.
    #[tactic(auto, using(rep_forms::specs::FormLaws::sizes, rep_forms::specs::FormLaws::joined, std::proofs::Common::append_assoc), unfolding(crate::specs::Haves::header_mark))]
    pub fn write_bytes(&self) -> Option<ArrayVec<u8, HEADER>>
        ensures some { IsSome result ↔ IsHeader self.now }
        // What is written is read again: that is its spelling.
        ensures bytes { IfSome result (λ b. IsHeader self.now × (b.items ≡ header_bytes self.now)) }
        ensures size { IfSome result (λ b. length b.items ≡ 59) }
        ensures none { result ≡ None → IsNil self.now.uuid }
    {
        if self.uuid.is_nil() {
            return None;
        }
        let mut out = ArrayVec::new();
        put_bytes(&mut out, MARK);
        self.format.put(&mut out);
        put_bytes(&mut out, self.uuid.as_bytes());
        self.shape.put(&mut out);
        Some(out)
    }
}
