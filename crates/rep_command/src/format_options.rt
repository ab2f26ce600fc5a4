//! The values of the options of `format`.

use arrayvec::ArrayVec;
use rep_reasons::{Cause, Fault, Outside};
use rep_types::{Params, read_number, read_uuid};
use uuid::Uuid;

/// The characters of a UUID with its hyphens.
const UUID_LEN: usize = 36;

/// What the options of `format` say; the numbers may be outside the limits.
#[derive(Drop)]
pub(crate) struct FormatOptions {
    window: u32,
    cells: u32,
    /// The rows of the tables, of which one more than a schema may have is kept.
    rows: ArrayVec<u32, 9>,
    uuid: Option<Uuid>,
}

/// An option of `format` with a value that has a form.
#[derive(Clone, Copy)]
pub(crate) enum Named {
    Window,
    Cells,
    Rows,
    Uuid,
}

impl Named {
    /// Its name.
    pub(crate) fn name(self) -> &'static str {
        match self {
            Named::Window => "window",
            Named::Cells => "cells",
            Named::Rows => "rows",
            Named::Uuid => "uuid",
        }
    }

    /// What stands for its value in a usage.
    pub(crate) fn value_name(self) -> &'static str {
        match self {
            Named::Window => "W",
            Named::Cells => "N",
            Named::Rows => "R,R,..",
            Named::Uuid => "U",
        }
    }

    /// What a value that is not of its form is not.
    pub(crate) fn form(self) -> &'static str {
        match self {
            Named::Window | Named::Cells => "a number from 0 to 4294967295",
            Named::Rows => "numbers from 0 to 4294967295 with commas between them",
            Named::Uuid => "the 36 characters of a UUID",
        }
    }
}

/// The number of a text of digits, where it is below 2^32.
fn read_u32(text: &[u8]) -> Option<u32> {
    u32::try_from(read_number(text)?).ok()
}

/// The numbers between the commas, of which the first nine are kept.
fn read_rows(text: &[u8]) -> Option<ArrayVec<u32, 9>> {
    let mut rows = ArrayVec::new();
    for number in text.split(|byte| *byte == b',') {
        let number = read_u32(number)?;
        if !rows.is_full() {
            rows.push(number);
        }
    }
    Some(rows)
}

/// The UUID that the text is.
fn read_whole_uuid(text: &[u8]) -> Option<Uuid> {
    if text.len() != UUID_LEN {
        return None;
    }
    read_uuid(text)
}

/// What these values of options say: numbers are decimal digits of a number up to 4,294,967,295, rows are such
/// numbers with commas between them, and a UUID has 36 characters (RFC 9562: in either case or mixed).
///
/// Refuses with the first option whose value is not of its form.
pub(crate) fn options_of(
    window: &str,
    cells: &str,
    rows: &str,
    uuid: Option<&str>,
) -> Result<FormatOptions, Named> {
    let window = read_u32(window.as_bytes()).ok_or(Named::Window)?;
    let cells = read_u32(cells.as_bytes()).ok_or(Named::Cells)?;
    let rows = read_rows(rows.as_bytes()).ok_or(Named::Rows)?;
    let uuid = match uuid {
        Some(text) => Some(read_whole_uuid(text.as_bytes()).ok_or(Named::Uuid)?),
        None => None,
    };
    Ok(FormatOptions {
        window,
        cells,
        rows,
        uuid,
    })
}

impl FormatOptions {
    /// The parameters.
    ///
    /// Refuses with `BadParams` where they are outside the limits.
    pub(crate) fn params<'a>(&self) -> Result<Params, Fault<'a>> {
        let rows = self.rows.as_slice();
        match Params::new(self.window, self.cells, rows) {
            Ok(params) => Ok(params),
            Err(refusal) => match Outside::first_of(self.window, self.cells, rows) {
                Some(outside) => Err(Fault::new(refusal, Cause::Limits(outside))),
                None => Err(Fault::from(refusal)),
            },
        }
    }

    /// The state UUID, if one was given.
    pub(crate) fn uuid(&self) -> Option<Uuid> {
        self.uuid
    }
}
