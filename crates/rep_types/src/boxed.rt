//! A value that stays in its place when what holds it is moved.

ghost use Rattle.std.specs.Prelude.{◌≡◌, IfOk, IfErr};
ghost use Rattle.std.specs.Borrow.{Lends, sem};

use std::alloc::Global;
use std::marker::Model;

/// A value on the heap, so that what holds it is cheap to move. In contracts it is the value.
#[derive(Drop)]
pub struct Boxed<T> {
    inside: Box<T>,
}

impl<T> Model for Boxed<T> {
    ghost Value = { T };

    ghost view = { λ b. b.inside.value };
}

impl<T> Boxed<T> {
    /// Puts the value on the heap; where there is no memory for it, it is handed back.
    pub fn new(alloc: Global, value: T) -> Result<Boxed<T>, T>
        ensures put { IfOk result (λ boxed. boxed ≡ value) }
        ensures refused { IfErr result (λ back. back ≡ value) }
    {
        match Box::new(alloc, value) {
            Ok(inside) => Ok(Boxed { inside }),
            Err(refused) => Err(refused.value),
        }
    }

    /// The value.
    pub fn get(&self) -> &T
        ensures { result.now ≡ self.now }
    {
        self.inside.as_ref()
    }

    /// The value, to be changed in its place.
    pub fn get_mut(&mut self) -> &mut T
        ensures* writes_back { sem 𝓛 (Lends T.row T.row self.entry result (λ value. value)) }
        ensures value { result.now ≡ self.old }
    {
        self.inside.as_mut()
    }

    /// The value, taken out.
    pub fn into_inner(self) -> T
        ensures { result ≡ self }
    {
        let Boxed { inside } = self;
        Box::into_inner(inside)
    }
}
