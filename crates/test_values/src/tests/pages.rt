//! Pages: which have bytes, and what is read of others than all of these.

use crate::tests::rows::{add, put};
use rep_pages::Page;
use rep_types::{Key, Part, Refusal, Schema};
use rep_versions::Versions;
use std::alloc::Global;
use std::process::Abort;
use std::test::Fail;

/// Two tables, of which the second has the pages 2 to 4, and in the last of these the rows from 126 on up to this number.
fn schema(rows: u32) -> Result<Schema, Refusal> {
    Schema::new(&[126, rows])
}

/// Pages of the shorter table, and whether they have bytes.
const PAGES: &[(u32, bool)] = &[(4, true), (5, false), (u32::MAX, false)];

/// Compares which pages have bytes.
fn have_bytes(rt: &impl Abort, schema: &Schema) {
    for (number, has_bytes) in PAGES {
        let body = Page::absent(*number).write_body(schema);
        assert_eq!(rt; (*number, body.is_some()), (*number, *has_bytes));
    }
}

/// What so many of the first bytes of the page 4 are refused by; None where it has none.
fn refusal_of(schema: &Schema, length: usize) -> Option<Option<Refusal>> {
    let body = Page::absent(4).write_body(schema)?;
    let front = body.as_slice().get(..length)?;
    Some(Page::read_body(schema, 4, 0, front).err())
}

const CORRUPT: Option<Refusal> = Some(Refusal::Corrupt { part: Part::Pages });

#[test]
fn a_page_has_one_size(rt: HostRuntime) -> Result<(), Fail> {
    let schema = schema(130)?;
    have_bytes(&rt, &schema);
    for (length, refusal) in [(0, CORRUPT), (4_095, CORRUPT), (4_096, None)] {
        assert_eq!(rt;
            (length, refusal_of(&schema, length)),
            (length, Some(refusal))
        );
    }
    Ok(())
}

/// Page 4 of the longer table, with a value in the row that the shorter one does not have.
fn longer_page(alloc: Global, longer: &Schema) -> Result<Page, Refusal> {
    let mut versions = Versions::new(alloc);
    add(&mut versions, 1, &[put(Key { table: 1, row: 130 }, b"")?])?;
    Ok(Page::absent(4).image(longer, &versions, 1))
}

/// Whether it has bytes for each of the two tables.
fn has_bytes(alloc: Global) -> Result<(bool, bool), Refusal> {
    let longer = schema(131)?;
    let page = longer_page(alloc, &longer)?;
    let is_of_shorter = page.write_body(&schema(130)?).is_some();
    Ok((page.write_body(&longer).is_some(), is_of_shorter))
}

#[test]
fn a_page_of_a_longer_table_has_no_bytes(rt: HostRuntime) {
    assert_eq!(rt; has_bytes(rt.alloc()), Ok((true, false)));
}
