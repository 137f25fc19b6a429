// The player's record, and what is refused of one.
ghost use Rattle.std.specs.Prelude.{◌≡◌};
ghost use Rattle.mother_player.specs.Record.{fresh_channel, fresh_player, stopped_player, sounds_in, sound_fits, block_fits, timbre_fits, channel_fits, channels_fit, record_fits};

use engine_base::time::Frames;
use engine_base::{address, field};
use mother_format::command::Kind;
use mother_format::header::Voice;
use mother_format::{bank, command, envelope, transpose};

// Plain numbers, 0 for what is not yet: the C interface fixes the record.
#[repr(C)]
#[derive(Clone, Copy)]
pub struct Channel {
    // the address of the playlist's next word
    pub list: u16,
    // block words read since the start or the last goto
    pub row: u16,
    // the address of the block; 0: none yet, the header's playlist comes next
    pub block: u16,
    // offsets in the block
    pub next: u16,
    pub loop_start: u16,
    pub counter: u8,
    // 0: none yet
    pub length: Frames,
    pub left: Frames,
    // melodic: the transposed sum; noise: the byte as read
    pub sounding: u8,
    // pppx xxxx of the last 9f
    pub timbre: u8,
    // squares: C of the last 9f; triangle: the linear counter byte in force
    pub ctrl: u8,
}

// Plain numbers: the C interface fixes the record.
#[repr(C)]
#[derive(Clone, Copy)]
pub struct Player {
    // any value but 0 is the stopped mark
    pub stopped: u8,
    // nmmm mmmm
    pub transpose: u8,
    pub window: u8,
    // square 1, square 2, triangle, noise
    pub channels: [Channel; 4],
}

// Like the old engine's, over a record of its own that the C interface fixes: a trait of all its fields would be longer.
fn fresh_channel() -> Channel
    ensures { result ≡ fresh_channel }
{
    let none = Frames { count: 0 };
    Channel {
        list: 0,
        row: 0,
        block: 0,
        next: 0,
        loop_start: 0,
        counter: 0,
        length: none,
        left: none,
        sounding: 0,
        timbre: 0,
        ctrl: 0,
    }
}

// Before the first frame, under that transpose and window.
pub(crate) fn fresh(transpose: u8, window: u8) -> Player
    ensures { result ≡ fresh_player transpose window }
{
    let channel = fresh_channel();
    Player {
        stopped: 0,
        transpose,
        window,
        channels: [channel; 4],
    }
}

// After the end.
pub(crate) fn stopped() -> Player
    ensures { result ≡ stopped_player }
{
    Player {
        stopped: 1,
        ..fresh(0, 0)
    }
}

// Whether a byte can be sounding in a channel of the kind.
fn sounds_in(kind: Kind, b: u8) -> bool
    ensures { result ≡ sounds_in kind b }
{
    match kind {
        Kind::Square | Kind::Triangle => b <= transpose::LAST_KEY && command::is_note(kind, b),
        Kind::Noise => command::is_note(kind, b),
    }
}

// Like the old engine's, over types and definitions of its own: a trait for both would be longer than the two.
#[tactic(auto, unfolding(crate::specs::Record::sound_fits))]
fn sound_fits(kind: Kind, channel: Channel) -> bool
    ensures { result ≡ sound_fits kind channel }
{
    let left = channel.left.count;
    left == 0 || (left <= channel.length.count && sounds_in(kind, channel.sounding))
}

#[tactic(auto, unfolding(crate::specs::Record::block_fits))]
fn block_fits(block: u16) -> bool
    ensures { result ≡ block_fits block }
{
    block == 0 || address::fits(usize::from(block), 1)
}

// Only on a square is x of pppx xxxx an envelope.
fn timbre_fits(kind: Kind, timbre: u8) -> bool
    ensures { result ≡ timbre_fits kind timbre }
{
    match kind {
        Kind::Square => field::low::<5>(timbre) <= envelope::LAST_ENVELOPE,
        Kind::Triangle | Kind::Noise => true,
    }
}

// What is not refused under 16: an unused channel, or one that can be played on from.
#[tactic(auto, unfolding(crate::specs::Record::channel_fits))]
fn channel_fits(voice: Option<Voice>, channel: Channel) -> bool
    ensures { result ≡ channel_fits voice channel }
{
    let Some(voice) = voice else {
        return true;
    };
    usize::from(channel.next) <= bank::BLOCK_LIMIT
        && usize::from(channel.loop_start) <= bank::BLOCK_LIMIT
        && sound_fits(voice.kind, channel)
        && block_fits(channel.block)
        && timbre_fits(voice.kind, channel.timbre)
}

// What 16 tests of the used channels.
// Like the old engine's, over types and definitions of its own: a trait for both would be longer than the two.
fn channels_fit(voices: [Option<Voice>; 4], channels: [Channel; 4]) -> bool
    ensures { result ≡ channels_fit voices channels }
{
    voices
        .iter()
        .zip(&channels)
        .all(|(voice, channel)| channel_fits(*voice, *channel))
}

// What 16 tests.
#[tactic(auto, unfolding(crate::specs::Record::record_fits))]
pub(crate) fn record_fits(voices: [Option<Voice>; 4], player: Player) -> bool
    ensures { result ≡ record_fits voices player }
{
    !transpose::is_odd(player.transpose) && channels_fit(voices, player.channels)
}
