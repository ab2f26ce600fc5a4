//! What a running node needs in order to donate.

ghost use Rattle.std.specs.Prelude.{IfErr};
ghost use Rattle.rep_service.specs.Exchanges.{IsOfNames};

use rep_streams::Sink;
use rep_transfer::Have;
use rep_types::Refusal;

/// Where a running node finds what a joiner has, and where it leaves a transfer: either has a name, as a file has.
pub trait Exchange {
    /// What a transfer is written to, before it has its name.
    type Out: Sink;

    /// What a joiner has, which stands under this name.
    ///
    /// Refuses with `StreamFault` where nothing can be read under it, with `Malformed` where it does not say what a joiner has, and with
    /// `OutOfMemory`.
    fn read_have(&mut self, name: &[u8]) -> Result<Have, Refusal>
        ensures own { IfErr result IsOfNames };

    /// What a transfer for this name is written to. Nothing stands under the name by it.
    ///
    /// Refuses with `StreamFault` a name that cannot be written, and with `OutOfMemory`.
    fn begin(&mut self, name: &[u8]) -> Result<Self::Out, Refusal>
        ensures own { IfErr result IsOfNames };

    /// Ends a transfer that is whole: it stands under its name now, and is there after a stop.
    ///
    /// Refuses with `StreamFault` where that cannot be, and with `OutOfMemory`: what stood under the name before stands there then.
    fn keep(&mut self, out: Self::Out) -> Result<(), Refusal>
        ensures own { IfErr result IsOfNames };

    /// Lets go of a transfer that is not whole: what stood under its name before stands there.
    fn discard(&mut self, out: Self::Out);
}
