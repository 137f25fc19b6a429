// The player's record, and what is refused of one.
ghost use Rattle.std.specs.Prelude.{◌≡◌};
ghost use Rattle.metroid_player.specs.Record.{fresh_channel, fresh_player, ended_player, cursor_of, sound_fits, channel_fits, channels_fit, record_fits};

use engine_base::time::Frames;
use metroid_format::channel::Cursor;
use metroid_format::command;
use metroid_format::header::Voice;

#[repr(C)]
#[derive(Clone, Copy)]
pub struct Channel {
    pub next: u16,
    pub loop_start: u16,
    pub counter: u8,
    // 0: none yet
    pub length: Frames,
    pub left: Frames,
    pub sounding: u8,
}

// Plain numbers, 0 for what is not yet: the C interface fixes the record.
#[repr(C)]
#[derive(Clone, Copy)]
pub struct Player {
    // any value but 0 is the stopped mark
    pub stopped: u8,
    // square 1, square 2, triangle, noise
    pub channels: [Channel; 4],
    // to the track's first stop
    pub frames_left: u32,
    // from a first frame to it
    pub pass_length: u32,
}

// What either number may be.
const MOST_FRAMES: u32 = 16777216;

fn fresh_channel() -> Channel
    ensures { result ≡ fresh_channel }
{
    let none = Frames { count: 0 };
    Channel {
        next: 0,
        loop_start: 0,
        counter: 0,
        length: none,
        left: none,
        sounding: 0,
    }
}

// Before the first frame of a pass of that length.
pub(crate) fn fresh(length: u32) -> Player
    ensures { result ≡ fresh_player length }
{
    Player {
        stopped: 0,
        channels: [fresh_channel(); 4],
        frames_left: length,
        pass_length: length,
    }
}

// The record after the end: fresh for another pass of that length, or stopped if the track does not restart.
pub(crate) fn ended(restart: bool, length: u32) -> Player
    ensures { result ≡ ended_player restart length }
{
    if restart {
        fresh(length)
    } else {
        Player {
            stopped: 1,
            ..fresh(0)
        }
    }
}

impl From<Channel> for Cursor {
    ghost from_gives = { λ channel cursor. cursor ≡ cursor_of channel };

    fn from(channel: Channel) -> Cursor {
        Cursor {
            next: channel.next,
            loop_start: channel.loop_start,
            counter: channel.counter,
            length: channel.length,
        }
    }
}

// No note, or one that can be sounding.
#[tactic(auto, unfolding(crate::specs::Record::sound_fits))]
fn sound_fits(voice: Voice, channel: Channel) -> bool
    ensures { result ≡ sound_fits voice channel }
{
    let left = channel.left.count;
    left == 0 || left <= channel.length.count && command::is_note(voice.kind, channel.sounding)
}

// What is not refused under 16: an unused channel, or offsets within the data's limit and a note that can be sounding.
#[tactic(auto, unfolding(crate::specs::Record::channel_fits))]
fn channel_fits(voice: Option<Voice>, channel: Channel) -> bool
    ensures { result ≡ channel_fits voice channel }
{
    match voice {
        None => true,
        Some(voice) => {
            usize::from(channel.next) <= command::DATA_LIMIT
                && usize::from(channel.loop_start) <= command::DATA_LIMIT
                && sound_fits(voice, channel)
        }
    }
}

// What 16 tests of the used channels.
// A record's channels beside a header's voices: two arrays, since the C interface fixes the one.
fn channels_fit(voices: [Option<Voice>; 4], channels: [Channel; 4]) -> bool
    ensures { result ≡ channels_fit voices channels }
{
    voices
        .iter()
        .zip(&channels)
        .all(|(voice, channel)| channel_fits(*voice, *channel))
}

// What 16 tests.
#[tactic(auto, unfolding(crate::specs::Record::record_fits))]
pub(crate) fn record_fits(voices: [Option<Voice>; 4], player: Player) -> bool
    ensures { result ≡ record_fits voices player }
{
    player.frames_left <= MOST_FRAMES
        && player.pass_length <= MOST_FRAMES
        && channels_fit(voices, player.channels)
}
