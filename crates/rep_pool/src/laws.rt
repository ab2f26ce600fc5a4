//! Laws of pools and of a base's pages, each as the contract of a function that does nothing.

ghost use Rattle.rep_pool.specs.Pools.{PoolsGoOn};
ghost use Rattle.rep_pool.specs.BasePages.{PagesArePlaces};

/// A pool that keeps nothing agrees with a device that has room for the places, and on which no write has failed since the last sync that
/// succeeded; one that agrees with a device does so behind a write in a place of which it keeps nothing, and behind a sync.
pub fn pools_go_on()
    ensures { PoolsGoOn }
{}

/// A page that a superblock has in a slot has a place in its layout.
pub fn pages_are_places()
    ensures { PagesArePlaces }
{}
