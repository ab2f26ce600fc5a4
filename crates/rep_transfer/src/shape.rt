//! What the nodes of a cluster have in common.

ghost use Rattle.std.specs.Prelude.{◌≡◌, ◌↔◌, true};
ghost use Rattle.rep_transfer.specs.Shapes.{shape_of, IsShape, shape_form};

use arrayvec::ArrayVec;
use rep_forms::{
    Form, Put, put_run, put_u8, put_u16, put_zeros, read_part, read_run, read_u8, read_u16,
};
use rep_types::{MAX_TABLES, MIN_CELLS, Params, Schema};
use std::marker::Model;

/// The number of bytes of the rows of all tables.
const ROWS: usize = 4 * MAX_TABLES;

/// What the nodes of a cluster have in common: how many seqnos the window spans, and the schema. How many cells its log has is each
/// node's own affair.
///
/// It has 35 bytes: the window in 2 bytes, the number of tables in 1, and the rows of eight tables in 4 bytes each, zero where there
/// is no table, all within the limits of parameters. The highest byte of a number stands first.
#[derive(Debug, Drop, PartialEq, Eq)]
pub struct Shape {
    /// The parameters of this shape whose log has the fewest cells.
    params: Params,
}

impl Model for Shape {
    ghost use Rattle.std.specs.Prelude.{◌≡◌};
    ghost use Rattle.rep_types.specs.declared.limits.TheConstants.{MIN_CELLS};
    ghost use Rattle.rep_transfer.specs.Shapes.{Shape as View, shape_of, least_of};

    ghost Value = { View };

    ghost view = { λ s. shape_of s.params };

    ghost invariant = { λ s. s.params.cells ≡ MIN_CELLS };

    ghost inverse = { λ s. record { params = least_of s } };
}

impl Shape {
    /// The shape of a node with these parameters.
    #[tactic(auto, using(crate::specs::ShapeLaws::has_shape))]
    pub fn of(params: &Params) -> Shape
        ensures { result ≡ shape_of params.now }
    {
        match Params::new(params.window(), MIN_CELLS, params.schema().rows()) {
            Ok(params) => Shape { params },
            Err(_) => unreachable!(),
        }
    }

    /// How many seqnos the window spans.
    pub fn window(&self) -> u32
        ensures window { result ≡ self.now.window }
        ensures limits { IsShape self.now }
    {
        self.params.window()
    }

    /// The tables.
    pub fn schema(&self) -> &Schema
        ensures { result.now ≡ self.now.rows }
    {
        self.params.schema()
    }

    /// Whether a node with these parameters has it.
    pub fn is_of(&self, params: &Params) -> bool
        ensures { (result ≡ true) ↔ (self.now ≡ shape_of params.now) }
    {
        self.window() == params.window() && self.schema().rows() == params.schema().rows()
    }
}

impl Form for Shape {
    ghost use Rattle.rep_transfer.specs.ShapeLaws.{shape_is_form};

    ghost form = { shape_form };

    ghost most = { 35 };

    fn read(bytes: &[u8]) -> Option<(Shape, &[u8])> {
        let (window, rest) = read_u16(bytes)?;
        let (tables, rest) = read_u8(rest)?;
        let tables = usize::from(tables);
        let (rows, rest) = read_run::<u32, MAX_TABLES>(rest, tables)?;
        let (_, rest) = read_part(rest, ROWS.saturating_sub(4 * tables))?;
        let params = Params::new(u32::from(window), MIN_CELLS, rows.as_slice()).ok()?;
        Some((Shape { params }, rest))
    }

    ghost is_form = { shape_is_form };
}

impl<const N: usize> Put<N> for Shape {
    #[tactic(auto, using(rep_forms::specs::FormLaws::sizes, rep_forms::specs::FormLaws::joined))]
    fn put(&self, out: &mut ArrayVec<u8, N>) {
        put_u16(out, self.window() as u16);
        let rows = self.schema().rows();
        put_u8(out, rows.len() as u8);
        put_run(out, rows);
        put_zeros(out, ROWS - 4 * rows.len());
    }
}
