// A channel that reads through its block and its playlist until a note, the track's end or a refusal.
ghost use Rattle.std.specs.Prelude.{◌≡◌, ◌<◌};
ghost use Rattle.mother_format.specs.Bank.{bytes_of};
ghost use Rattle.mother_format.specs.Playlist.{row_limit};
ghost use Rattle.mother_player.specs.Reading.{
  cursor_of,
  at_cursor,
  entered,
  went_to,
  length_set,
  begun,
  again,
  note_begun,
  step_of,
  list_step,
  block_step,
  step_from,
  offset_at,
  first_reader,
  read_until,
};

use crate::record::Channel;
use crate::release;
use engine_base::answer::Turned;
use engine_base::refusal::Refusal;
use engine_base::time::Frames;
use mother_format::bank::{Banks, Places};
use mother_format::channel::{Cursor, Played, Setting, Source};
use mother_format::command::Kind;
use mother_format::playlist::Entry;
use mother_format::{channel, playlist};

// So many commands may a channel read in a frame.
const MOST_COMMANDS: u32 = 100000;

// Where a channel's next command stands.
#[derive(Clone, Copy)]
pub enum Place {
    Block,
    // the playlist's next word
    List,
    // the same, and a goto led there
    Target,
}

// A channel while it reads.
#[derive(Clone, Copy)]
pub struct Reader {
    pub place: Place,
    pub channel: Channel,
    // what holds for all channels
    pub setting: Setting,
}

// What a command does.
// No Result of the other cases: the definitions and laws go by all of them side by side.
#[derive(Clone, Copy)]
pub enum Stepped {
    Again,
    // a key, rest or preset
    Note,
    // of the track
    End,
    // the offset of the byte, and of 10 to 15 its address
    Refused(Refusal, u16, u32),
}

// With the channel after it.
#[derive(Clone, Copy)]
pub struct Step {
    pub stepped: Stepped,
    pub reader: Reader,
}

#[derive(Clone, Copy)]
pub struct Turn {
    pub turned: Turned,
    // a note, in this frame
    pub began: bool,
    // its record, with the frame not yet taken off
    pub channel: Channel,
    // what holds for all channels from there on
    pub setting: Setting,
    // commands read
    pub count: u32,
}

// Like the old engine's, over a record of its own that the C interface fixes: a trait of all its fields would be longer.
impl From<Channel> for Cursor {
    ghost from_gives = { λ channel cursor. cursor ≡ cursor_of channel };

    fn from(channel: Channel) -> Cursor {
        Cursor {
            next: channel.next,
            loop_start: channel.loop_start,
            counter: channel.counter,
        }
    }
}

fn at_cursor(channel: Channel, cursor: Cursor) -> Channel
    ensures { result ≡ at_cursor channel cursor }
{
    Channel {
        next: cursor.next,
        loop_start: cursor.loop_start,
        counter: cursor.counter,
        ..channel
    }
}

// At the start of the block that a word names, with the address of the word after it.
fn enter(channel: Channel, block: u16, list: u16) -> Channel
    requires { channel.row < row_limit }
    ensures { result ≡ entered channel block list }
{
    Channel {
        list,
        row: channel.row + 1,
        block,
        next: 0,
        loop_start: 0,
        counter: 0,
        ..channel
    }
}

// Before the word at an address, with no block word read in this row.
fn go_to(channel: Channel, list: u16) -> Channel
    ensures { result ≡ went_to channel list }
{
    Channel {
        list,
        row: 0,
        ..channel
    }
}

// BL: on the triangle it sets the linear counter byte as well.
fn set_length(channel: Channel, kind: Kind, length: Frames) -> Channel
    ensures { result ≡ length_set channel length kind }
{
    let ctrl = match kind {
        Kind::Square | Kind::Noise => channel.ctrl,
        Kind::Triangle => release::linear_of(channel.timbre, length),
    };
    Channel {
        length,
        ctrl,
        ..channel
    }
}

// A note's record: the frames left are the current length.
fn begin(channel: Channel, b: u8) -> Channel
    ensures { result ≡ begun channel b }
{
    Channel {
        left: channel.length,
        sounding: b,
        ..channel
    }
}

fn go_on(place: Place, channel: Channel, setting: Setting) -> Step
    ensures { result ≡ again place channel setting }
{
    Step {
        stepped: Stepped::Again,
        reader: Reader {
            place,
            channel,
            setting,
        },
    }
}

fn note_begun(reader: Reader, channel: Channel) -> Step
    ensures { result ≡ note_begun reader channel }
{
    Step {
        stepped: Stepped::Note,
        reader: Reader { channel, ..reader },
    }
}

// What the command of a block does to a channel that stands behind it.
fn step_of(kind: Kind, reader: Reader, played: Played) -> Step
    ensures { result ≡ step_of kind reader played }
{
    let channel = reader.channel;
    let setting = reader.setting;
    match played {
        Played::End => go_on(Place::List, channel, setting),
        Played::Transpose(transpose, _) => {
            go_on(
                Place::Block,
                channel,
                Setting {
                    transpose,
                    ..setting
                },
            )
        }
        Played::Window(window, _) => { go_on(Place::Block, channel, Setting { window, ..setting }) }
        Played::EndLoop(_) | Played::BeginLoop(_, _) => go_on(Place::Block, channel, setting),
        Played::Timbre(timbre, ctrl, _) => {
            let timbred = Channel {
                timbre,
                ctrl,
                ..channel
            };
            go_on(Place::Block, timbred, setting)
        }
        Played::Length(b, length, _) => {
            note_begun(reader, begin(set_length(channel, kind, length), b))
        }
        Played::Note(b, _) => note_begun(reader, begin(channel, b)),
        Played::Refused(refusal, at, address) => {
            Step {
                stepped: Stepped::Refused(refusal, at, address),
                reader,
            }
        }
    }
}

// The command of the block at the channel's offset.
fn block_step(banks: Banks, places: Places, kind: Kind, reader: Reader) -> Step
    ensures { result ≡ block_step banks.entry.bank8.now banks.entry.banka.now places kind reader }
{
    let channel = reader.channel;
    let source = Source {
        banks,
        places,
        kind,
        start: channel.block,
    };
    let played = channel::played_at(source, reader.setting, channel.length, channel.next);
    let cursor = channel::moved(Cursor::from(channel), played);
    let behind = Reader {
        channel: at_cursor(channel, cursor),
        ..reader
    };
    step_of(kind, behind, played)
}

// The word of the playlist; by_goto if a goto led to it.
fn list_step(banks: Banks, reader: Reader, by_goto: bool) -> Step
    ensures { result ≡ list_step (bytes_of banks.entry) reader by_goto }
{
    let channel = reader.channel;
    let setting = reader.setting;
    let entry = playlist::entry_at(banks, channel.list, channel.row, by_goto);
    match entry {
        Ok(Entry::End) => {
            Step {
                stepped: Stepped::End,
                reader,
            }
        }
        Ok(Entry::Goto(target)) => go_on(Place::Target, go_to(channel, target), setting),
        Ok(Entry::Block(block, list)) => {
            go_on(Place::Block, enter(channel, block, list), setting)
        }
        Err(refusal) => {
            Step {
                stepped: Stepped::Refused(refusal, 0, 0),
                reader,
            }
        }
    }
}

// The next command, wherever it stands.
// The place is data that a channel keeps from step to step: a function stored in its place would say no more.
#[tactic(auto, unfolding(crate::specs::Reading::step_from))]
fn step_from(banks: Banks, places: Places, kind: Kind, reader: Reader) -> Step
    ensures { result ≡ step_from banks.entry.bank8.now banks.entry.banka.now places kind reader }
{
    match reader.place {
        Place::Block => block_step(banks, places, kind, reader),
        Place::List => list_step(banks, reader, false),
        Place::Target => list_step(banks, reader, true),
    }
}

// The offset of the next command, 0 at the playlist.
fn offset_at(reader: Reader) -> u16
    ensures { result ≡ offset_at reader }
{
    match reader.place {
        Place::Block => reader.channel.next,
        Place::List | Place::Target => 0,
    }
}

// A channel about to read: without a block the header's playlist comes next.
#[tactic(auto, unfolding(crate::specs::Reading::first_reader))]
pub(crate) fn reader_of(list: u16, channel: Channel, setting: Setting) -> Reader
    ensures { result ≡ first_reader list channel setting }
{
    if channel.block == 0 {
        Reader {
            place: Place::List,
            channel: go_to(channel, list),
            setting,
        }
    } else {
        Reader {
            place: Place::Block,
            channel,
            setting,
        }
    }
}

fn turn_of(turned: Turned, began: bool, reader: Reader, count: u32) -> Turn
    ensures { result ≡ record { turned = turned; began = began; channel = reader.channel; setting = reader.setting; count = count } }
{
    Turn {
        turned,
        began,
        channel: reader.channel,
        setting: reader.setting,
        count,
    }
}

// Commands until a note, the track's end or a refusal.
pub(crate) fn read_until(banks: Banks, places: Places, kind: Kind, start: Reader) -> Turn
    ensures { result ≡ read_until banks.entry.bank8.now banks.entry.banka.now places kind start }
{
    let mut reader = start;
    for count in 0..MOST_COMMANDS {
        let step = step_from(banks, places, kind, reader);
        reader = step.reader;
        match step.stepped {
            Stepped::Again => {}
            Stepped::Note => return turn_of(Turned::Plays, true, reader, count + 1),
            Stepped::End => return turn_of(Turned::End, false, reader, count + 1),
            Stepped::Refused(refusal, at, address) => {
                return turn_of(Turned::Refused(refusal, at, address), false, reader, count)
            }
        }
    }
    let at = offset_at(reader);
    turn_of(
        Turned::Refused(Refusal::TooManyCommands, at, 0),
        false,
        reader,
        MOST_COMMANDS,
    )
}
