// One channel: its cursor, what one command does to it, and reading until a note.
ghost use Rattle.std.specs.Prelude.{◌+◌, ◌<◌, ◌≡◌, Ok, Err, length, get_or, take, MatchResult};
ghost use Rattle.engine_base.specs.Address.{address_of};
ghost use Rattle.engine_base.specs.Told.{Answers};
ghost use Rattle.metroid_format.specs.Command.{data_limit};
ghost use Rattle.metroid_format.specs.Channel.{source_of, channel_source, length_fault, length_at, address_at, loop_end, played_at, step_of, read_until, told_until, Limited};
ghost use Rattle.metroid_format.specs.declared.channel.Played.TheVariants.{Refused};

use crate::command::{DATA_LIMIT, Kind, Rule};
use crate::header::{Track, Voice};
use crate::{bank, command};
use engine_base::refusal::Refusal;
use engine_base::time::Frames;
use engine_base::{address, bytes, loops};

// More commands than reading until a note can take.
// Casts stay here: they narrow what is known to fit, have no `From`, or `From` would want its equation cited in each proof.
const FUEL: u32 = (DATA_LIMIT / 2 * 257 + 2) as u32;

#[derive(Clone, Copy)]
pub struct Cursor {
    pub next: u16,
    // the byte after the last begin
    pub loop_start: u16,
    pub counter: u8,
    // 0: none yet
    pub length: Frames,
}

// What stays the same while a channel is read: its data, which stand at offset base of the bank, the length table and the window.
#[derive(Clone, Copy)]
pub struct Source<'a> {
    pub kind: Kind,
    pub bytes: &'a [u8],
    pub lengths: &'a [u8],
    pub window: u8,
    pub base: u16,
}

// The source of a channel, in its part of the bank.
pub fn source_at(bank: &[u8], track: Track, voice: Voice) -> Source
    ensures { source_of result.kind result.bytes.now result.lengths.now result.window (address_of result.base) ≡ channel_source bank.now track voice }
{
    Source {
        kind: voice.kind,
        bytes: bytes::part(bank, usize::from(voice.data), DATA_LIMIT),
        lengths: bytes::part(bank, track.lengths, bank::LENGTHS_SIZE),
        window: track.window,
        base: voice.data,
    }
}

// What a command does before loops are considered, with the offset after it.
// No Result of the other cases: the definitions and laws go by all of them side by side.
#[derive(Clone, Copy)]
pub enum Played {
    End,
    EndLoop(u16),
    // the counter
    BeginLoop(u8, u16),
    // the sounding byte and the new length
    Length(u8, Frames, u16),
    // the sounding byte, at the current length
    Note(u8, u16),
    // the refusal, the offset of the byte and its address
    Refused(Refusal, u16, u32),
}

// No Result of the other cases: the definitions and laws go by all of them side by side.
#[derive(Clone, Copy)]
pub enum Step {
    Again(Cursor),
    Note(u8, Cursor),
    End,
    Refused(Refusal, u16, u32),
}

// No Result of the other cases: the definitions and laws go by all of them side by side.
#[derive(Clone, Copy)]
pub enum Stop {
    Note(u8),
    End,
    Refused(Refusal, u16, u32),
}

// Where reading stopped, the commands read, and the cursor: after a note, else at the stopping command.
#[derive(Clone, Copy)]
pub struct Until {
    pub stop: Stop,
    pub count: u32,
    pub cursor: Cursor,
}

// The length of BL, or 12 or 13.
#[tactic(auto, unfolding(crate::specs::Channel::length_fault))]
fn length_of(lengths: &[u8], window: u8, l: u8) -> Result<u8, Refusal>
    requires { l < 16 }
    ensures { MatchResult result
        (λ count. (length_fault lengths.now window (0xb0 + l) ≡ Ok tt) × (count ≡ length_at lengths.now window l))
        (λ refusal. length_fault lengths.now window (0xb0 + l) ≡ Err refusal) }
{
    let entry = window as usize + l as usize;
    if bank::LENGTHS_SIZE <= entry {
        return Err(Refusal::PastLengths);
    }
    match bytes::byte(lengths, entry) {
        0 => Err(Refusal::ZeroLength),
        count => Ok(count),
    }
}

// The address of the byte at an offset of data that stand at offset base of the bank.
pub(crate) fn address_at(base: u16, at: u16) -> u32
    ensures { result ≡ address_at (address_of base) at }
{
    address::BANK_START as u32 + base as u32 + at as u32
}

// A refusal of the byte at an offset.
fn refused(source: Source, refusal: Refusal, at: u16) -> Played
    ensures { result ≡ Refused refusal at (address_at (address_of source.entry.base) at) }
{
    Played::Refused(refusal, at, address_at(source.base, at))
}

// What the BL at an offset does: it tests 12, 13, then its next byte 15, 11.
// `Limited` is one definition that four private clauses name: a cut source of its own type would carry the same proof along.
fn length_played(source: Source, at: u16, l: u8) -> Played
    requires { Limited source.bytes.now × (at < length source.bytes.now) × (l < 16) × (get_or source.bytes.now at 0 ≡ 0xb0 + l) }
    ensures { (current : Frames) → result ≡ played_at (source_of source.entry.kind source.entry.bytes.now source.entry.lengths.now source.entry.window (address_of source.entry.base)) at current }
{
    let count = match length_of(source.lengths, source.window, l) {
        Ok(count) => count,
        Err(refusal) => return refused(source, refusal, at),
    };
    let next = at + 1;
    match command::note_at(source.kind, source.bytes, next as usize) {
        Ok(note) => Played::Length(note, Frames { count }, next + 1),
        // not by `refused`, so that a must-fail edit can name another address alone
        Err(refusal) => Played::Refused(refusal, next, address_at(source.base, next)),
    }
}

// What the command at an offset does; a lone note tests 11, then 14.
pub(crate) fn played_at(source: Source, at: u16, length: Frames) -> Played
    requires { Limited source.bytes.now }
    ensures { result ≡ played_at (source_of source.entry.kind source.entry.bytes.now source.entry.lengths.now source.entry.window (address_of source.entry.base)) at length }
{
    match command::rule_at(source.kind, source.bytes, at as usize) {
        Ok(Rule::End) => Played::End,
        Ok(Rule::EndLoop) => Played::EndLoop(at + 1),
        Ok(Rule::BeginLoop(n)) => Played::BeginLoop(loops::counter_of(n), at + 1),
        Ok(Rule::Length(l)) => length_played(source, at, l),
        Ok(Rule::Note(_)) if length.count == 0 => refused(source, Refusal::NoLength, at),
        Ok(Rule::Note(b)) => Played::Note(b, at + 1),
        Err(refusal) => refused(source, refusal, at),
    }
}

fn loop_end(cursor: Cursor, next: u16) -> Cursor
    ensures { result ≡ loop_end cursor next }
{
    if cursor.counter == 0 {
        return Cursor { next, ..cursor };
    }
    Cursor {
        next: cursor.loop_start,
        counter: cursor.counter - 1,
        ..cursor
    }
}

// One command from a cursor.
#[tactic(auto, unfolding(crate::specs::Channel::step_of))]
fn step_from(source: Source, cursor: Cursor) -> Step
    requires { Limited source.bytes.now }
    ensures { result ≡ step_of (source_of source.entry.kind source.entry.bytes.now source.entry.lengths.now source.entry.window (address_of source.entry.base)) cursor }
{
    match played_at(source, cursor.next, cursor.length) {
        Played::End => Step::End,
        Played::EndLoop(next) => Step::Again(loop_end(cursor, next)),
        Played::BeginLoop(counter, next) => Step::Again(Cursor {
            next,
            loop_start: next,
            counter,
            ..cursor
        }),
        Played::Length(b, length, next) => Step::Note(
            b,
            Cursor {
                next,
                length,
                ..cursor
            },
        ),
        Played::Note(b, next) => Step::Note(b, Cursor { next, ..cursor }),
        Played::Refused(refusal, at, address) => Step::Refused(refusal, at, address),
    }
}

// Commands until a note, the end or a fault; data longer than the limit is read up to it.
pub fn read_until(source: Source, start: Cursor) -> Until
    ensures { Answers told_until result
        (read_until data_limit (source_of source.entry.kind (take data_limit source.entry.bytes.now) source.entry.lengths.now source.entry.window (address_of source.entry.base)) start) }
{
    let source = Source {
        bytes: bytes::part(source.bytes, 0, DATA_LIMIT),
        ..source
    };
    let mut cursor = start;
    for count in 0..FUEL {
        match step_from(source, cursor) {
            Step::Again(after) => cursor = after,
            Step::Note(b, after) => {
                return Until {
                    stop: Stop::Note(b),
                    count: count + 1,
                    cursor: after,
                };
            }
            Step::End => {
                return Until {
                    stop: Stop::End,
                    count: count + 1,
                    cursor,
                };
            }
            Step::Refused(refusal, at, address) => {
                return Until {
                    stop: Stop::Refused(refusal, at, address),
                    count,
                    cursor,
                };
            }
        }
    }
    let at = cursor.next;
    Until {
        stop: Stop::Refused(Refusal::PastData, at, address_at(source.base, at)),
        count: FUEL,
        cursor,
    }
}
