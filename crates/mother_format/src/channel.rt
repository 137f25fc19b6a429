// What a command of a block does, and where it leads.
ghost use Rattle.std.specs.Prelude.{◌≡◌, ◌<◌, Ok};
ghost use Rattle.engine_base.specs.Told.{Answers};
ghost use Rattle.mother_format.specs.Bank.{bytes_of, block_limit};
ghost use Rattle.mother_format.specs.Channel.{
  of_block,
  length_at,
  length_fault,
  timbre_fault,
  early_fault,
  address_of,
  refused_at,
  sounding_of,
  length_played,
  note_played,
  played_of,
  played_rule,
  played_at,
  told_played,
  moved_by,
  Sorts,
};

use crate::bank::{Banks, Places};
use crate::command::{Command, Kind, Rule};
use crate::{bank, command, envelope, transpose};
use engine_base::refusal::Refusal;
use engine_base::time::Frames;
use engine_base::{address, field, loops};

// What holds for all channels.
#[derive(Clone, Copy)]
pub struct Setting {
    // nmmm mmmm
    pub transpose: u8,
    pub window: u8,
}

// What stays the same while a block is read.
#[derive(Clone, Copy)]
pub struct Source<'a> {
    pub banks: Banks<'a>,
    pub places: Places,
    pub kind: Kind,
    // the block's address
    pub start: u16,
}

impl<'a> Source<'a> {
    // The block: a part of the bank that holds its address.
    pub fn block(self) -> &'a [u8]
        ensures { result.now ≡ (of_block self.entry).bytes }
    {
        self.banks.block(self.start)
    }
}

// A place in a block.
#[derive(Clone, Copy)]
pub struct Cursor {
    pub next: u16,
    // the byte after the last begin
    pub loop_start: u16,
    pub counter: u8,
}

// What a command does before loops are considered, with the offset after it.
// No Result of the other cases: the definitions and laws go by all of them side by side.
#[derive(Clone, Copy)]
pub enum Played {
    // of the block
    End,
    Transpose(u8, u16),
    Window(u8, u16),
    EndLoop(u16),
    // the counter
    BeginLoop(u8, u16),
    // the sounding byte and the new length
    Length(u8, Frames, u16),
    // pppx xxxx and C
    Timbre(u8, u8, u16),
    // the sounding byte, at the current length
    Note(u8, u16),
    // the refusal, the offset of the byte, and of 10 to 15 its address
    Refused(Refusal, u16, u32),
}

// Entry window + L of the length table.
// Casts stay here: they narrow what is known to fit, have no `From`, or `From` would want its equation cited in each proof.
#[tactic(auto, unfolding(crate::specs::Channel::length_at))]
fn length_at(banks: Banks, table: u32, window: u8, l: u8) -> u8
    ensures { result ≡ length_at (bytes_of banks.entry) table window l }
{
    let entry = usize::from(window) + usize::from(l);
    banks.byte(address::offset_of(table as usize + entry))
}

// 12 or 13 of BL.
#[tactic(auto, unfolding(crate::specs::Channel::length_fault))]
pub fn length_fault(banks: Banks, table: u32, window: u8, l: u8) -> Result<(), Refusal>
    ensures { result ≡ length_fault (bytes_of banks.entry) table window l }
{
    if bank::LENGTHS_SIZE <= usize::from(window) + usize::from(l) {
        return Err(Refusal::PastLengths);
    }
    if length_at(banks, table, window, l) == 0 {
        return Err(Refusal::ZeroLength);
    }
    Ok(())
}

// 6 or 7 of 9f: only on a square is x of pppx xxxx an envelope.
pub fn timbre_fault(banks: Banks, table: u32, kind: Kind, x: u8) -> Result<(), Refusal>
    ensures { result ≡ timbre_fault (bytes_of banks.entry) table kind x }
{
    match kind {
        Kind::Square => envelope::fault(banks, table, field::low::<5>(x)),
        Kind::Triangle | Kind::Noise => Ok(()),
    }
}

// What is refused at a command, under its own offset, before its last byte is looked at: 12 or 13 of BL, 6 or 7 of 9f. Laid into
// the player and the check alike: where it is called, frames take longer.
#[inline(always)]
pub fn early_fault(source: Source, window: u8, at: u16, rule: Rule) -> Result<(), Refusal>
    ensures { result ≡ early_fault (bytes_of source.entry.banks) source.entry.places source.entry.kind (of_block source.entry).bytes window at (Ok rule) }
{
    let Source { banks, kind, .. } = source;
    match rule {
        Rule::Length(l) => length_fault(banks, source.places.note_lengths, window, l),
        Rule::Timbre => {
            match source.block().get(usize::from(at) + 1) {
                Some(x) => timbre_fault(banks, source.places.envelope_addresses, kind, *x),
                None => Ok(()),
            }
        }
        _ => Ok(()),
    }
}

// The address that a refusal at an offset of a block names: 10 to 15 have one, else 0.
pub fn address_of(refusal: Refusal, start: u16, at: u16) -> u32
    ensures { result ≡ address_of refusal start at }
{
    match refusal {
        Refusal::InvalidCommand
        | Refusal::InvalidNote
        | Refusal::PastLengths
        | Refusal::ZeroLength
        | Refusal::NoLength
        | Refusal::PastData => u32::from(start) + u32::from(at),
        _ => 0,
    }
}

// A refusal at an offset of a block.
fn refused(refusal: Refusal, start: u16, at: u16) -> Played
    ensures { result ≡ refused_at start refusal at }
{
    Played::Refused(refusal, at, address_of(refusal, start, at))
}

// A note's byte as it sounds: the transpose is no preset's.
fn sounding(kind: Kind, b: u8, transpose: u8) -> Option<u8>
    ensures { result ≡ sounding_of kind b transpose }
{
    match kind {
        Kind::Square | Kind::Triangle => transpose::transposed(b, transpose),
        Kind::Noise => Some(b),
    }
}

// BL with its note, whose byte stands at an offset.
fn length_played(start: u16, at: u16, length: Frames, sounding: Option<u8>, next: u16) -> Played
    ensures { result ≡ length_played start at length next sounding }
{
    match sounding {
        Some(b) => Played::Length(b, length, next),
        None => refused(Refusal::InvalidNote, start, at),
    }
}

// A lone note tests 11, then 14.
fn note_played(start: u16, at: u16, length: Frames, sounding: Option<u8>, next: u16) -> Played
    ensures { result ≡ note_played start at length next sounding }
{
    match sounding {
        Some(_) if length.count == 0 => refused(Refusal::NoLength, start, at),
        Some(b) => Played::Note(b, next),
        None => refused(Refusal::InvalidNote, start, at),
    }
}

// What a command at an offset does, given the offset after it.
fn played_by(
    source: Source,
    setting: Setting,
    length: Frames,
    at: u16,
    command: Command,
    next: u16,
) -> Played
    requires { at < block_limit }
    ensures { result ≡ played_of (bytes_of source.entry.banks) source.entry.places source.entry.kind source.entry.start setting length at command next }
{
    let Source { kind, start, .. } = source;
    match command {
        Command::End => Played::End,
        Command::Transpose(m) if transpose::is_odd(m) => {
            refused(Refusal::OddTranspose, start, at)
        }
        Command::Transpose(m) => Played::Transpose(m, next),
        Command::Window(t) => Played::Window(t, next),
        Command::EndLoop => Played::EndLoop(next),
        Command::Length(l, b) => {
            let count = length_at(source.banks, source.places.note_lengths, setting.window, l);
            let sound = sounding(kind, b, setting.transpose);
            length_played(start, at + 1, Frames { count }, sound, next)
        }
        Command::BeginLoop(n) => Played::BeginLoop(loops::counter_of(n), next),
        Command::Timbre(x, c) => Played::Timbre(x, c, next),
        Command::Note(b) => {
            let sound = sounding(kind, b, setting.transpose);
            note_played(start, at, length, sound, next)
        }
    }
}

// What the command at an offset does, whose first byte's rule is known. The block comes with its source: found once for each command.
#[tactic(auto, unfolding(crate::specs::Channel::played_rule))]
fn played_rule(
    source: Source,
    block: &[u8],
    setting: Setting,
    length: Frames,
    at: u16,
    rule: Rule,
) -> Played
    requires { (block.now ≡ (of_block source).bytes) × Sorts source.kind (of_block source).bytes at (Ok rule) }
    ensures { result ≡ played_rule (of_block source.entry) setting length at (Ok rule) }
{
    if let Err(refusal) = early_fault(source, setting.window, at, rule) {
        return refused(refusal, source.start, at);
    }
    match command::command_by(source.kind, block, usize::from(at), rule) {
        Ok((command, next)) => {
            let next = next as u16;
            played_by(source, setting, length, at, command, next)
        }
        Err((refusal, offset)) => {
            let offset = offset as u16;
            refused(refusal, source.start, offset)
        }
    }
}

// What the command at an offset of a block does, under a setting and the channel's current length.
#[tactic(auto, using(crate::proofs::bank::Joined::block_within), unfolding(crate::specs::Channel::played_at, crate::specs::Channel::played_rule))]
pub fn played_at(source: Source, setting: Setting, length: Frames, at: u16) -> Played
    ensures { Answers told_played result (played_at (of_block source.entry) setting length at) }
{
    let block = source.block();
    let Some(b) = block.get(usize::from(at)) else {
        return refused(Refusal::PastData, source.start, at);
    };
    match command::rule_of(source.kind, *b) {
        Ok(rule) => played_rule(source, block, setting, length, at, rule),
        Err(refusal) => refused(refusal, source.start, at),
    }
}

// The place after a command: an end of loop with a counter above 0 goes back, the end and a refusal stay.
pub fn moved(cursor: Cursor, played: Played) -> Cursor
    ensures { result ≡ moved_by cursor played }
{
    match played {
        Played::End | Played::Refused(_, _, _) => cursor,
        Played::EndLoop(next) => {
            if cursor.counter == 0 {
                Cursor { next, ..cursor }
            } else {
                Cursor {
                    next: cursor.loop_start,
                    counter: cursor.counter - 1,
                    ..cursor
                }
            }
        }
        Played::BeginLoop(counter, next) => {
            Cursor {
                next,
                loop_start: next,
                counter,
            }
        }
        Played::Transpose(_, next)
        | Played::Window(_, next)
        | Played::Length(_, _, next)
        | Played::Timbre(_, _, next)
        | Played::Note(_, next) => Cursor { next, ..cursor },
    }
}
