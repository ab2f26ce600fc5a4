//! Global transaction identifiers.

ghost use Rattle.std.specs.Prelude.{◌≡◌, IfOk, IfSome, IsTrue, Ok, Some};
ghost use Rattle.rep_types.specs.Numbers.{given};
ghost use Rattle.rep_types.specs.Gtids.{Gtid as View, IsGtid, is_seqno, seqno_in, uuid_in, gtid_with, gtid_in, gtid_text};

use crate::number::read_number;
use crate::refusal::Refusal;
use std::fmt;
use std::marker::Model;
use uuid::Uuid;

/// A global transaction identifier (Galera documentation): the state UUID of a group of nodes, and a
/// seqno in the order that they share, which is -1 or more. The undefined one has the nil UUID and
/// the seqno -1.
#[derive(Clone, Copy, Debug, PartialEq, Eq)]
pub struct Gtid {
    uuid: Uuid,
    seqno: i64,
}

impl Model for Gtid {
    ghost use Rattle.std.specs.Prelude.{IsTrue};
    ghost use Rattle.rep_types.specs.Gtids.{Gtid as View, is_seqno};

    ghost Value = { View };

    ghost view = { λ g. record { uuid = g.uuid; seqno = g.seqno } };

    ghost invariant = { λ g. IsTrue (is_seqno g.seqno) };

    ghost inverse = { λ g. record { uuid = g.uuid; seqno = g.seqno } };
}

/// The number of characters of a UUID with its hyphens.
const UUID_LEN: usize = 36;

/// The greatest number of digits of a seqno: as many as the numbers below 2^63 have.
const SEQNO_DIGITS: usize = 19;

/// The seqno of a GTID that the text is: `-1`, or 1 to 19 digits of a number below 2^63.
#[tactic(auto, unfolding(crate::specs::Gtids::seqno_in))]
pub fn read_seqno(text: &[u8]) -> Option<i64>
    ensures value { result ≡ seqno_in text.now }
    ensures limit { IfSome result (λ n. IsTrue (is_seqno n)) }
{
    if text == b"-1".as_slice() {
        return Some(-1);
    }
    if text.len() > SEQNO_DIGITS {
        return None;
    }
    i64::try_from(read_number(text)?).ok()
}

/// The UUID in the first 36 characters of the text (RFC 9562: hexadecimal digits in either case or mixed).
pub fn read_uuid(text: &[u8]) -> Option<Uuid>
    ensures { result ≡ uuid_in text.now }
{
    let head = text.get(..UUID_LEN)?;
    Uuid::try_parse_ascii(head).ok()
}

/// The GTID of the UUID and what stands behind it in the text.
fn with_uuid(uuid: Uuid, rest: &[u8]) -> Result<Gtid, Refusal>
    ensures { result ≡ gtid_with (Some uuid) rest.now }
{
    let [b':', digits @ ..] = rest else {
        return Err(Refusal::Malformed { at: 36 });
    };
    match read_seqno(digits) {
        Some(seqno) => Ok(Gtid { uuid, seqno }),
        None => Err(Refusal::Malformed { at: 37 }),
    }
}

impl Gtid {
    /// The GTID of this state UUID and seqno, or `None` where the seqno is below -1: there is no such
    /// GTID.
    pub fn new(uuid: Uuid, seqno: i64) -> Option<Gtid>
        ensures { result ≡ given (is_seqno seqno) (record { uuid = uuid; seqno = seqno }) }
    {
        if seqno < -1 {
            return None;
        }
        Some(Gtid { uuid, seqno })
    }

    /// The state UUID.
    pub fn uuid(self) -> Uuid
        ensures { result ≡ self.uuid }
    {
        self.uuid
    }

    /// How many items of the order came, or -1.
    pub fn seqno(self) -> i64
        ensures seqno { result ≡ self.seqno }
        ensures limit { IsTrue (is_seqno self.seqno) }
    {
        self.seqno
    }

    /// The GTID that the text is: 36 characters of a UUID (RFC 9562: in either case or mixed), a
    /// colon, and a seqno, which is `-1`, or 1 to 19 digits of a number below 2^63.
    ///
    /// Refuses with `Malformed` anything else, `at` being where the first fault lies: 0 for the UUID,
    /// 36 for the colon, 37 for the seqno.
    pub fn parse(text: &[u8]) -> Result<Gtid, Refusal>
        // What is read is of the form.
        ensures found { IfOk result (λ g. IsGtid text.now g) }
        // What is of the form is read.
        ensures only { (g : View) → IsGtid text.now g → result ≡ Ok g }
        // The first fault is named.
        ensures exact { result ≡ gtid_in text.now }
    {
        match read_uuid(text) {
            Some(uuid) => with_uuid(uuid, &text[UUID_LEN..]),
            None => Err(Refusal::Malformed { at: 0 }),
        }
    }
}

impl fmt::Display for Gtid {
    ghost use Rattle.std.specs.Prelude.{Some};
    ghost use Rattle.rep_types.specs.Gtids.{gtid_text};

    ghost output = { λ g. Some (gtid_text g) };

    fn fmt<W: fmt::Write>(&self, f: &mut fmt::Formatter<W>) -> fmt::Result {
        write!(f, "{}:{}", self.uuid.hyphenated(), self.seqno)
    }
}

/// What a GTID is written as reads back as that GTID. A law, as the contract of a function that does
/// nothing: it holds by its proof, and calling the function brings it to the caller.
pub fn gtids_read_back(gtid: Gtid)
    ensures { gtid_in (gtid_text gtid) ≡ Ok gtid }
{
    // Brings the law of the UUID's own text.
    let mut room = [0; UUID_LEN];
    let _text = gtid.uuid.hyphenated().encode_lower(&mut room);
}
