//! The superblock: what a disk is, and where its state stands.

ghost use Rattle.std.specs.Prelude.{◌≡◌, ◌+◌, ◌-◌, ◌*◌, ◌≤◌, ◌++◌, ◌↔◌, length, IfOk, IfErr, IsTrue, IsSome, IfSome, Ok, option_map};
ghost use Rattle.std.specs.List.{flat_map};
ghost use Rattle.rep_types.specs.declared.refusal.Part.TheVariants.{Superblock};
ghost use Rattle.rep_types.specs.Settings.{is_setting};
ghost use Rattle.rep_forms.specs.Forms.{IsPart, number_bytes, zeros};
ghost use Rattle.rep_layout.specs.Supers.{IsSuper, is_super, setting_bytes, head_bytes, place_bytes, super_bytes, setting_form, stand_fields, super_form, SuperblocksAreTold};
ghost use Rattle.rep_layout.specs.declared.super_body.SuperBody.{SuperBody};

use crate::format::Format;
use crate::page_state::{PageState, put_states, read_states};
use crate::place::SUPER_BODY;
use arrayvec::ArrayVec;
use rep_forms::{
    Exact, Form, Put, put_bytes, put_run, put_u8, put_u16, put_u64, put_zeros, read_front,
    read_part, read_run, read_u8, read_u16, read_u64, spellings_are_told, strip_front,
};
use rep_types::{MAX_SEQNO, MAX_TABLES, Params, Part, Refusal};
use uuid::Uuid;

/// The first seven bytes, in front of the format's digit.
const MARK: &[u8; 7] = b"REPSUPR";

/// The number of bytes of the rows of all tables.
const ROWS: usize = 4 * MAX_TABLES;

type Bytes = ArrayVec<u8, SUPER_BODY>;

/// What a superblock's body says.
#[derive(Debug, Drop, PartialEq, Eq)]
pub struct SuperBody {
    /// In which format it is spelled, and the window beside it.
    pub format: Format,
    /// Its own number, which rises by one with each checkpoint and each snapshot that is installed: at
    /// most the position and 1.
    pub number: u64,
    /// The state UUID; nil where the node belongs to no cluster yet, and then the number and the
    /// position are 0.
    pub uuid: Uuid,
    /// The node's parameters.
    pub params: Params,
    /// The seqno up to which the pages hold what was committed, at most `MAX_SEQNO`.
    pub position: u64,
    /// The number of the log cell whose block begins behind the position, at most the position.
    pub start: u64,
    /// In which slot each page stands, by its number; as many as the schema has pages.
    pub pages: ArrayVec<PageState, 4096>,
}

/// Puts the rows of each table, and zeros for the tables that are not there: 32 bytes.
#[tactic(auto, using(rep_forms::specs::FormLaws::sizes, rep_forms::specs::FormLaws::joined))]
fn put_rows(out: &mut Bytes, rows: &[u32])
    requires room { length out.old.items + 32 ≤ 3584 }
    requires few { length rows.now ≤ 8 }
    ensures bytes { out.new.items ≡ out.old.items ++ (flat_map (number_bytes 4) rows.now ++ zeros (32 - 4 * length rows.now)) }
    ensures size { length out.new.items ≡ length out.old.items + 32 }
{
    put_run(out, rows);
    put_zeros(out, ROWS - 4 * rows.len());
}

/// Puts the parameters: 40 bytes.
#[tactic(auto, using(rep_forms::specs::FormLaws::sizes, rep_forms::specs::FormLaws::joined))]
fn put_setting(out: &mut Bytes, params: &Params)
    requires { length out.old.items + 40 ≤ 3584 }
    ensures bytes { out.new.items ≡ out.old.items ++ setting_bytes params.now }
    ensures size { length out.new.items ≡ length out.old.items + 40 }
    ensures setting { IsTrue (is_setting params.now) }
{
    put_u16(out, params.window() as u16);
    put_u16(out, params.cells() as u16);
    let rows = params.schema().rows();
    put_u8(out, rows.len() as u8);
    put_zeros(out, 3);
    put_rows(out, rows);
}

/// The parameters, where they are within their limits, and the bytes behind them.
fn read_setting(bytes: &[u8]) -> Option<(Params, &[u8])>
    ensures { option_map (λ x. (x.0, x.1.now)) result ≡ setting_form.read bytes.now }
{
    let (window, rest) = read_u16(bytes)?;
    let (cells, rest) = read_u16(rest)?;
    let (tables, rest) = read_u8(rest)?;
    let tables = usize::from(tables);
    let (_, rest) = read_part(rest, 3)?;
    let (rows, rest) = read_run::<u32, MAX_TABLES>(rest, tables)?;
    let (_, rest) = read_part(rest, ROWS.saturating_sub(4 * tables))?;
    let params = Params::new(u32::from(window), u32::from(cells), rows.as_slice()).ok()?;
    Some((params, rest))
}

/// The position, the start and the number of pages, and the bytes behind them.
fn read_stand(bytes: &[u8]) -> Option<((u64, u64, u16), &[u8])>
    ensures { option_map (λ x. ((x.0.0, (x.0.1, x.0.2)), x.1.now)) result ≡ stand_fields.read bytes.now }
{
    let (position, rest) = read_u64(bytes)?;
    let (start, rest) = read_u64(rest)?;
    let (pages, rest) = read_u16(rest)?;
    let (_, rest) = read_part(rest, 38)?;
    Some(((position, start, pages), rest))
}

impl Form for SuperBody {
    ghost use Rattle.rep_layout.specs.SuperLaws.{super_is_form};

    ghost form = { super_form };

    ghost most = { 3584 };

    #[tactic(auto, unfolding(crate::specs::Supers::super_mark))]
    fn read(bytes: &[u8]) -> Option<(SuperBody, &[u8])> {
        let (_, rest) = read_part(bytes, MARK.len())?;
        let (format, rest) = Format::read(rest)?;
        let (number, rest) = read_u64(rest)?;
        let (uuid, rest) = read_part(rest, 16)?;
        let uuid = Uuid::from_slice(uuid).ok()?;
        let (params, rest) = read_setting(rest)?;
        let ((position, start, count), rest) = read_stand(rest)?;
        let (pages, rest) = read_states(rest, usize::from(count))?;
        let (_, rest) = read_part(rest, 2_432)?;
        let body = SuperBody {
            format,
            number,
            uuid,
            params,
            position,
            start,
            pages,
        };
        Some((body, rest))
    }

    ghost is_form = { super_is_form };
}

impl Exact for SuperBody {
    fn strip<'a>(&self, bytes: &'a [u8]) -> Option<&'a [u8]> {
        let spelling = self.write_body()?;
        strip_front(bytes, spelling.as_slice())
    }
}

impl SuperBody {
    /// Puts the mark, the format, the number, the UUID and the parameters: 72 bytes.
    #[tactic(auto, using(rep_forms::specs::FormLaws::sizes, rep_forms::specs::FormLaws::joined), unfolding(crate::specs::Supers::super_mark))]
    fn put_head(&self, out: &mut Bytes)
        requires { length out.old.items + 72 ≤ 3584 }
        ensures bytes { out.new.items ≡ out.old.items ++ head_bytes self.now }
        ensures size { length out.new.items ≡ length out.old.items + 72 }
        ensures uuid { IsPart 16 self.now.uuid }
        ensures setting { IsTrue (is_setting self.now.params) }
    {
        put_bytes(out, MARK);
        self.format.put(out);
        put_u64(out, self.number);
        put_bytes(out, self.uuid.as_bytes());
        put_setting(out, &self.params);
    }

    /// Puts the position, the start and the number of pages: 56 bytes.
    #[tactic(auto, using(rep_forms::specs::FormLaws::sizes, rep_forms::specs::FormLaws::joined))]
    fn put_place(&self, out: &mut Bytes)
        requires { length out.old.items + 56 ≤ 3584 }
        ensures bytes { out.new.items ≡ out.old.items ++ place_bytes self.now }
        ensures size { length out.new.items ≡ length out.old.items + 56 }
    {
        put_u64(out, self.position);
        put_u64(out, self.start);
        put_u16(out, self.pages.len() as u16);
        put_zeros(out, 38);
    }

    /// Whether the fields can be those of a superblock.
    fn is_super(&self) -> bool
        ensures { result ≡ is_super self.now }
    {
        self.position <= MAX_SEQNO
            && self.number <= self.position + 1
            && self.start <= self.position
            && (!self.uuid.is_nil() || (self.number == 0 && self.position == 0))
            && self.pages.len() as u64 == self.params.schema().pages()
    }

    /// The bytes of the superblock's body, 3,584; None where a superblock cannot say this: where the
    /// number is above the position and 1, the position above `MAX_SEQNO`, or the start above the
    /// position; where the UUID is nil, and the number or the position is not 0; or where there are
    /// not as many states as the schema has pages.
    #[tactic(auto, using(rep_forms::specs::FormLaws::sizes, std::proofs::Common::append_assoc, crate::proofs::Supers::super_said))]
    pub fn write_body(&self) -> Option<ArrayVec<u8, SUPER_BODY>>
        ensures some { IsSome result ↔ IsSuper self.now }
        // What is written is of the form, and that is its spelling: so it is read again.
        ensures bytes { IfSome result (λ b. IsSuper self.now × (b.items ≡ super_bytes self.now)) }
        ensures size { IfSome result (λ b. length b.items ≡ SUPER_BODY) }
    {
        if !self.is_super() {
            return None;
        }
        let mut out = ArrayVec::new();
        self.put_head(&mut out);
        self.put_place(&mut out);
        put_states(&mut out, self.pages.as_slice());
        put_zeros(&mut out, 2_432);
        Some(out)
    }

    /// Reads the body of a superblock, which all of the bytes are.
    ///
    /// Refuses with `Corrupt`, the part being the superblock, what is not of the form: 3,584 bytes,
    /// which are `REPSUPR1` or `REPSUPR2`; the number in 8 bytes, at most the position and 1; the UUID in 16, and
    /// where it is nil the number and the position are 0; the window and the number of log cells in
    /// 2 bytes each, and the number of tables in 1; 3 zeros; the rows of eight tables in 4 bytes
    /// each, zero where there is no table, all within the limits of parameters; at 72 the position,
    /// at most 2^60, and the start, at most the position, in 8 bytes each; the number of pages, that
    /// of the schema, in 2; zeros; from 128 to 1,152 the states of the pages, two bits each: page `p`
    /// in byte `p / 4`, in the bits `2 (p mod 4)` and the next, counted from the lowest, 0 in no
    /// slot, 1 in the first, 2 in the second; and zeros, past the last page too. The highest byte of
    /// a number stands first.
    pub fn read_body(bytes: &[u8]) -> Result<SuperBody, Refusal>
        // What is read is spelled so.
        ensures found { IfOk result (λ s. IsSuper s × (bytes.now ≡ super_bytes s)) }
        // What is spelled so is read.
        ensures only { (s : SuperBody) → IsSuper s → bytes.now ≡ super_bytes s → result ≡ Ok s }
        // Anything else is refused.
        ensures refused { IfErr result (λ e. e ≡ Refusal.Corrupt Superblock) }
    {
        match read_front::<SuperBody>(bytes) {
            Some((body, rest)) if rest.is_empty() => Ok(body),
            _ => Err(Refusal::Corrupt {
                part: Part::Superblock,
            }),
        }
    }
}

/// The bytes of a superblock's body tell what it says: no two bodies have one spelling.
pub fn superblocks_are_told()
    ensures { SuperblocksAreTold }
{
    spellings_are_told::<SuperBody>();
}
