//! The lines of a script.

ghost use Rattle.std.specs.Prelude.{◌≡◌, ◌≢◌, ◌^◌, IfErr};
ghost use Rattle.rep_record.specs.Reading.{outcome, number_in, next};
ghost use Rattle.rep_record.specs.Drafts.{Gives};
ghost use Rattle.rep_script.specs.ScriptLines.{loss_in, flush_in, read_in, sum_in, stop_in, plain_in, whole_in, delivery_of, script_line};

use rep_disk::Loss;
use rep_record::{Words, read_key, read_stated};
use rep_steps::Event;
use rep_types::{Refusal, read_number};

/// What a line of a script asks for.
#[derive(Drop)]
pub enum Command {
    /// A step of the replica.
    Step(Event),
    /// The line of the replica's state.
    State,
    /// The line of the limits of the replica's window.
    Limits,
    /// The line of the sum at this position, or at what is durable.
    Sum(Option<u64>),
    /// A stop, with this loss, and the opening of what is left.
    Stop(Loss),
}

/// The next word as a number below 2^64; `None` where no word is left, or it is no such number.
pub fn next_number(words: &mut Words) -> Option<u64>
    ensures { Gives (λ number. number) result words.new (next (number_in (2 ^ 64)) words.old) }
{
    read_number(words.next_word()?)
}

/// What a stop loses: `keep`, `drop` or `junk`, as the next word says.
#[tactic(auto, unfolding(crate::specs::ScriptLines::loss_in))]
pub fn read_loss(words: &mut Words) -> Option<Loss>
    ensures { Gives (λ loss. loss) result words.new (loss_in words.old) }
{
    if words.skip(b"keep") {
        Some(Loss::Keep)
    } else if words.skip(b"drop") {
        Some(Loss::Drop)
    } else if words.skip(b"junk") {
        Some(Loss::Junk)
    } else {
        None
    }
}

/// The flush of a page.
#[tactic(auto, unfolding(crate::specs::ScriptLines::flush_in))]
fn read_flush(words: &mut Words) -> Option<Command>
    ensures { Gives (λ command. command) result words.new (flush_in words.old) }
{
    let page = next_number(words)?;
    Some(Command::Step(Event::Flush(page)))
}

/// The read of a row.
#[tactic(auto, unfolding(crate::specs::ScriptLines::read_in))]
fn read_read(words: &mut Words) -> Option<Command>
    ensures { Gives (λ command. command) result words.new (read_in words.old) }
{
    let key = read_key(words.next_word()?)?;
    let after = next_number(words)?;
    Some(Command::Step(Event::Read(key, after)))
}

/// A sum, at the position that the next word is, or where no word is left at what is durable.
#[tactic(auto, unfolding(crate::specs::ScriptLines::sum_in))]
fn read_sum(words: &mut Words) -> Option<Command>
    ensures { Gives (λ command. command) result words.new (sum_in words.old) }
{
    if words.is_empty() {
        return Some(Command::Sum(None));
    }
    let position = next_number(words)?;
    Some(Command::Sum(Some(position)))
}

/// A stop.
#[tactic(auto, unfolding(crate::specs::ScriptLines::stop_in))]
fn read_stop(words: &mut Words) -> Option<Command>
    ensures { Gives (λ command. command) result words.new (stop_in words.old) }
{
    let loss = read_loss(words)?;
    Some(Command::Stop(loss))
}

/// The command, but for a delivery.
#[tactic(auto, unfolding(crate::specs::ScriptLines::plain_in))]
fn read_plain(words: &mut Words) -> Option<Command>
    ensures { Gives (λ command. command) result words.new (plain_in words.old) }
{
    if words.skip(b"log") {
        Some(Command::Step(Event::Log))
    } else if words.skip(b"sync") {
        Some(Command::Step(Event::Sync))
    } else if words.skip(b"check") {
        Some(Command::Step(Event::Check))
    } else if words.skip(b"state") {
        Some(Command::State)
    } else if words.skip(b"limits") {
        Some(Command::Limits)
    } else if words.skip(b"flush") {
        read_flush(words)
    } else if words.skip(b"read") {
        read_read(words)
    } else if words.skip(b"sum") {
        read_sum(words)
    } else if words.skip(b"stop") {
        read_stop(words)
    } else {
        None
    }
}

/// The command, but for a delivery, that all of the words are.
#[tactic(auto, unfolding(crate::specs::ScriptLines::whole_in))]
fn read_whole(mut words: Words) -> Option<Command>
    ensures { result ≡ whole_in words.entry }
{
    let command = read_plain(&mut words)?;
    if !words.is_empty() {
        return None;
    }
    Some(command)
}

/// The command, but for a delivery, that the words are, in the line with this number.
///
/// Refuses with `Malformed`, `at` being the line's number, words that are none.
pub(crate) fn read_other(words: Words, number: u64) -> Result<Command, Refusal>
    ensures value { result ≡ outcome Ok number (whole_in words.entry) }
    ensures own { IfErr result (λ refusal. refusal ≢ Refusal.StreamFault) }
{
    match read_whole(words) {
        Some(command) => Ok(command),
        None => Err(Refusal::Malformed { at: number }),
    }
}

/// The delivery of the item that the words say behind its seqno, in the line with this number.
fn read_delivery(mut words: Words, number: u64) -> Result<Command, Refusal>
    ensures value { result ≡ delivery_of number (next (number_in (2 ^ 64)) words.entry) }
    ensures own { IfErr result (λ refusal. refusal ≢ Refusal.StreamFault) }
{
    let Some(seqno) = next_number(&mut words) else {
        return Err(Refusal::Malformed { at: number });
    };
    let item = read_stated(words, number)?;
    Ok(Command::Step(Event::delivery(seqno, item)))
}

/// What the line with this number asks for: `deliver seqno tail`, `deliver seqno window size
/// [id source:trx]`, `log`, `sync`, `check`, `flush p`, `read key s`, `sum [s]`, `state`, `limits`,
/// `stop keep`, `stop drop` or `stop junk`.
///
/// Refuses with `Malformed`, `at` being the line's number, a line of no such form; and the item of a
/// delivery as `read_stated` does, whatever its seqno: a size outside 1 to 256 with `BadParams`.
pub fn read_command(line: &[u8], number: u64) -> Result<Command, Refusal>
    ensures value { result ≡ script_line number line.now }
    // No line is refused as a stream that has failed.
    ensures own { IfErr result (λ refusal. refusal ≢ Refusal.StreamFault) }
{
    let mut words = Words::new(line);
    if words.skip(b"deliver") {
        return read_delivery(words, number);
    }
    read_other(words, number)
}
