//! The line of a node's parameters.

ghost use Rattle.std.specs.Prelude.{◌≡◌, ◌≢◌, ◌^◌, IfOk, IfErr, Err, take};
ghost use Rattle.std.specs.Option.{option_map};
ghost use Rattle.rep_types.specs.Settings.{Setting, allowed};
ghost use Rattle.rep_record.specs.Grammar.{IsParamsLine};
ghost use Rattle.rep_record.specs.Reading.{number_in, some_each, outcome, params_form, params_line};
ghost use Rattle.rep_record.specs.Drafts.{drafted_setting};

use crate::few::keep;
use crate::pieces::read_u32;
use crate::words::Words;
use arrayvec::ArrayVec;
use rep_types::{Params, Refusal};
use std::marker::Model;

/// What a params line says, as far as it is kept: of the tables, one more than a schema may have.
#[derive(Drop)]
struct ParamsDraft {
    window: u32,
    cells: u32,
    rows: ArrayVec<u32, 9>,
}

impl Model for ParamsDraft {
    ghost use Rattle.rep_types.specs.Settings.{Setting, setting};

    ghost Value = { Setting };

    ghost view = { λ d. setting d.window d.cells d.rows.items };
}

impl ParamsDraft {
    /// The parameters, or that they are outside the limits.
    fn params(&self) -> Result<Params, Refusal>
        ensures { result ≡ allowed self.now }
    {
        Params::new(self.window, self.cells, self.rows.as_slice())
    }
}

/// The numbers of the rows of the tables: one number or more, of which the first 9 are kept.
#[tactic(auto, using(crate::proofs::Kept::rows_kept))]
fn read_rows(mut words: Words) -> Option<ArrayVec<u32, 9>>
    ensures { option_map (λ rows. rows.items) result ≡ option_map (take 9) (some_each (number_in (2 ^ 32)) words.entry) }
{
    if words.is_empty() {
        return None;
    }
    let mut rows = ArrayVec::new();
    while let Some(word) = words.next_word() {
        keep(&mut rows, read_u32(word)?);
    }
    Some(rows)
}

/// What a params line says.
#[tactic(auto, unfolding(crate::specs::Reading::setting_in))]
fn read_draft(line: &[u8]) -> Option<ParamsDraft>
    ensures { result ≡ option_map drafted_setting (params_form line.now) }
{
    let mut words = Words::new(line);
    if !words.skip(b"params") {
        return None;
    }
    let window = read_u32(words.next_word()?)?;
    let cells = read_u32(words.next_word()?)?;
    let rows = read_rows(words)?;
    Some(ParamsDraft {
        window,
        cells,
        rows,
    })
}

/// The parameters of which this was kept, of the line with this number; a line of which nothing was is
/// malformed.
fn params_of(draft: Option<ParamsDraft>, number: u64) -> Result<Params, Refusal>
    ensures { result ≡ outcome allowed number draft }
{
    let Some(draft) = draft else {
        return Err(Refusal::Malformed { at: number });
    };
    draft.params()
}

/// The parameters that the line with this number says: `params W N rows rows ..`, one number of rows
/// for each table.
///
/// Refuses with `Malformed`, `at` being the line's number, a line that is not of that form, and then
/// with `BadParams` what is outside the limits.
pub fn read_params_line(line: &[u8], number: u64) -> Result<Params, Refusal>
    // What is read is in the grammar.
    ensures found { IfOk result (λ p. IsParamsLine line.now p) }
    // Of a line of the form, the parameters, or that they are outside the limits.
    ensures formed { (p : Setting) → IsParamsLine line.now p → result ≡ allowed p }
    // A line of no form is malformed.
    ensures unformed { ((p : Setting) → IsParamsLine line.now p → ⊥) → result ≡ Err (Refusal.Malformed number) }
    ensures exact { result ≡ params_line number line.now }
    // No line is refused as a stream that has failed.
    ensures own { IfErr result (λ refusal. refusal ≢ Refusal.StreamFault) }
{
    params_of(read_draft(line), number)
}
