//! What a seat knows of its lock. These are plain data that contracts speak of: no value of them is
//! made when a program runs.

use std::collections::LinkedList;

/// A station that a seat holds.
pub struct Hold {
    pub station: u64,
    /// The station's word: four times the number of the turn, and 1 where it is held by the ticket of
    /// that number, or 2 where it is held from the side.
    pub word: u64,
    /// The durable number of the value that was found there. At station 1 no holder leaves a lower
    /// one.
    pub floor: u64,
}

/// An entry that a seat let join the history, as its ticket of this number left station 0.
pub struct Joined<E> {
    pub number: u64,
    pub entry: E,
}

/// A value with which a seat gave up a station.
pub struct GivenUp<V> {
    pub station: u64,
    pub value: V,
}

/// A number that a station's turn had reached.
pub struct Reached {
    pub station: u64,
    pub number: u64,
}

/// What a seat knows, and what it may do.
pub struct View<V, E> {
    /// The first number that the lock gives, the same for all seats.
    pub start: u64,
    /// The first seat's allowance, the same for all seats: how many numbers there are.
    pub whole: u64,
    /// The values that the lock was made with, the same for all seats.
    pub first: LinkedList<V>,
    /// How many numbers the seat may still draw.
    pub allowance: u64,
    /// The history as far as the seat saw it: what passed station 0, in order.
    pub seen: LinkedList<E>,
    /// The numbers that it drew.
    pub own: LinkedList<u64>,
    /// What it let join the history, the latest first: each at a number of its own.
    pub joined: LinkedList<Joined<E>>,
    /// The greatest durable number that it saw.
    pub durable: u64,
    /// 1 where it saw the halt, else 0.
    pub halted: u64,
    /// The greatest durable number that it saw at the value of station 1.
    pub backed: u64,
    /// The greatest number that it saw the values of stations 1 and 2 name alike: what they name now,
    /// while it holds one of the two.
    pub common: u64,
    /// How far it saw the turns of the stations go, the latest first.
    pub reached: LinkedList<Reached>,
    /// The stations that it holds, the one that it entered last first.
    pub held: LinkedList<Hold>,
    /// What it gave up, the latest first.
    pub given_up: LinkedList<GivenUp<V>>,
}

/// What the table keeps of a seat.
pub struct Mind<V, E> {
    pub view: View<V, E>,
    /// A history that the seat was told of as it took in another. It is empty between two calls.
    pub told: LinkedList<E>,
}
