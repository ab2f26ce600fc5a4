//! Values one after another.

ghost use Rattle.std.specs.Prelude.{◌≡◌, ◌+◌, ◌*◌, ◌≤◌, ◌++◌, [], ◌∷◌, ◌↔◌, ℕ, List, length, true, MatchOption, IfSome, IfOk, IfErr, IsOkAnd, option_map};
ghost use Rattle.std.specs.List.{flat_map, AllByRecursion};
ghost use Rattle.rep_forms.specs.Forms.{many};
ghost use Rattle.rep_forms.specs.Runs.{Follow, IsChain, EndsAt, StopsAt};

use crate::form::{Chain, Exact, Form, Put, read_front};
use arrayvec::ArrayVec;
use std::marker::{Model, PhantomData};

/// Values one after another, as they are read: handed out one by one, out of bytes that were looked
/// at before. It takes no memory.
#[derive(Drop)]
pub struct Run<'a, T: Form> {
    left: u16,
    rest: &'a [u8],
    of: PhantomData<T>,
}

impl<'a, T: Form> Model for Run<'a, T> {
    ghost use Rattle.std.specs.Prelude.{IsTrue, is_some, List};
    ghost use Rattle.rep_forms.specs.Forms.{each};
    ghost use Rattle.rep_forms.specs.Runs.{values_in};

    ghost Value = { List T };

    ghost view = { λ r. values_in T.form.read r.left r.rest.now };

    ghost invariant = { λ r. IsTrue (is_some (each T.form.read r.left r.rest.now)) };
}

impl<'a, T: Form> Run<'a, T> {
    /// How many values are still to be handed out.
    pub fn len(&self) -> u16
        ensures { result ≡ length self.now }
    {
        self.left
    }

    /// Hands out the next value; None behind the last.
    #[tactic(auto, unfolding(crate::specs::Forms::each))]
    pub fn next_value(&mut self) -> Option<T>
        ensures { MatchOption result ((self.old ≡ []) × (self.new ≡ self.old)) (λ x. self.old ≡ x ∷ self.new) }
    {
        if self.left == 0 {
            return None;
        }
        let Some((value, rest)) = T::read(self.rest) else {
            unreachable!()
        };
        self.left -= 1;
        self.rest = rest;
        Some(value)
    }
}

/// Puts the values one after another. `out` has room for as many of the longest ones.
pub fn put_run<const N: usize, T: Put<N>>(out: &mut ArrayVec<u8, N>, values: &[T])
    requires { length out.old.items + T.most * length values.now ≤ N }
    ensures bytes { out.new.items ≡ out.old.items ++ flat_map T.form.spell values.now }
    ensures fits { AllByRecursion T.form.Fits values.now }
    ensures size { length (flat_map T.form.spell values.now) ≤ T.most * length values.now }
{
    for value in values {
        value.put(out);
    }
}

/// Reads so many values, one after another, and the bytes behind them; None where there are fewer, or
/// more than `M` were asked for.
pub fn read_run<T: Form + Default, const M: usize>(
    bytes: &[u8],
    count: usize,
) -> Option<(ArrayVec<T, M>, &[u8])>
    ensures read { option_map (λ x. (x.0.items, x.1.now)) result ≡ (many M count T.form).read bytes.now }
    ensures size { IfSome result (λ x. length x.0.items ≡ count) }
{
    if count > M {
        return None;
    }
    let mut values = ArrayVec::new();
    let mut rest = bytes;
    for _ in 0..count {
        let (value, after) = T::read(rest)?;
        values.push(value);
        rest = after;
    }
    Some((values, rest))
}

/// Whether the values are allowed one after another.
pub fn follows<T, C: Chain<T>>(mut chain: C, values: &[T]) -> bool
    ensures { (result ≡ true) ↔ Follow C.step chain values.now }
{
    for value in values {
        if !chain.admits(value) {
            return false;
        }
    }
    true
}

/// Where so many values end that are spelled one after another from the front of the bytes, each
/// allowed behind those before it. Else the offset of the first that is not there or not allowed.
fn chain_end<T: Exact, C: Chain<T>>(mut chain: C, bytes: &[u8], count: u16) -> Result<usize, usize>
    ensures ends { IfOk result (λ at. EndsAt T.form C.step chain count bytes.now at) }
    ensures stops { IfErr result (λ at. StopsAt T.form C.step chain count bytes.now at) }
{
    let mut at = 0;
    for _ in 0..count {
        let Some((value, rest)) = read_front::<T>(&bytes[at..]) else {
            return Err(at);
        };
        if !chain.admits(&value) {
            return Err(at);
        }
        at = bytes.len() - rest.len();
    }
    Ok(at)
}

/// Reads so many values that are spelled one after another, each allowed behind those before it, and
/// the bytes behind them. Else the offset of the first that is not there or not allowed.
pub fn read_chain<'a, T: Exact, C: Chain<T>>(
    chain: C,
    bytes: &'a [u8],
    count: u16,
) -> Result<(Run<'a, T>, &'a [u8]), usize>
    // What is read is spelled so and allowed.
    ensures found { IfOk result (λ r. IsChain T.form C.step chain count bytes.now r.0 r.1.now) }
    // What is spelled so and allowed is read.
    ensures only { (xs : List T) (rest : List ℕ) → IsChain T.form C.step chain count bytes.now xs rest → IsOkAnd result (λ r. (r.0 ≡ xs) × (r.1.now ≡ rest)) }
    ensures stops { IfErr result (λ at. StopsAt T.form C.step chain count bytes.now at) }
{
    let end = chain_end::<T, C>(chain, bytes, count)?;
    let run = Run {
        left: count,
        rest: bytes,
        of: PhantomData,
    };
    Ok((run, &bytes[end..]))
}
