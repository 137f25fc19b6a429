// What a channel sounds in a frame.
ghost use Rattle.std.specs.Prelude.{◌≡◌};
ghost use Rattle.engine_base.specs.Bytes.{period_at};
ghost use Rattle.metroid_player.specs.Event.{off_event, envelope_of, melodic_rest, note_ctrl1, melodic_sound, noise_sound, sound_of, event_of, told_event};

use crate::record::Channel;
use crate::{ctrl1, release};
use engine_base::ctrl1::SILENT;
use engine_base::release::{Release, quarter_frames};
use engine_base::time::QuarterFrames;
use engine_base::{bytes, envelope, time};
use metroid_format::bank;
use metroid_format::command::Kind;
use metroid_format::header::{Track, Voice};

#[derive(Clone, Copy)]
pub enum Sound {
    Off,
    // ctrl 1
    SquareRest(u8),
    TriangleRest(Release),
    NoiseRest,
    // key, period, ctrl 1
    Square(u8, u16, u8),
    // key, period
    Triangle(u8, u16, Release),
    // the preset's bytes
    Noise(u8, u8, u8),
}

// `began` is a word of its own in what is told of an event, beside any sound.
#[derive(Clone, Copy)]
pub struct Event {
    // in this frame
    pub began: bool,
    pub sound: Sound,
}

// The channel that has a release.
const TRIANGLE: usize = 2;

const NOISE_REST: u8 = 0x01;

pub(crate) fn off() -> Event
    ensures { result ≡ off_event }
{
    Event {
        began: false,
        sound: Sound::Off,
    }
}

// The big-endian word of a key.
#[tactic(auto, unfolding(engine_base::specs::Bytes::period_at))]
fn period_at(periods: &[u8], key: u8) -> u16
    ensures { result ≡ period_at periods.now key }
{
    let at = 2 * usize::from(key);
    u16::from_be_bytes([bytes::byte(periods, at), bytes::byte(periods, at + 1)])
}

// The bytes of a square's envelope: none where it has none.
#[tactic(auto, unfolding(crate::specs::Event::envelope_of))]
fn envelope_of(bank: &[u8], voice: Voice) -> &[u8]
    ensures { result.now ≡ envelope_of bank.now voice }
{
    match voice.envelope {
        Some(at) => bytes::part(bank, usize::from(at), envelope::REACH),
        None => &[],
    }
}

#[tactic(auto, unfolding(crate::specs::Event::melodic_rest))]
fn melodic_rest(i: usize) -> Sound
    ensures { result ≡ melodic_rest i }
{
    if i == TRIANGLE {
        Sound::TriangleRest(Release::After(QuarterFrames { count: 0 }))
    } else {
        Sound::SquareRest(SILENT)
    }
}

// Ctrl 1 of a square's note.
#[tactic(auto, unfolding(crate::specs::Event::note_ctrl1))]
fn note_ctrl1(bank: &[u8], voice: Voice, channel: Channel) -> u8
    ensures { result ≡ note_ctrl1 bank.now voice channel }
{
    let index = time::index_of(channel.length, channel.left);
    ctrl1::ctrl1_at(voice.default, envelope_of(bank, voice), index)
}

// A key whose word has low byte 0 is a rest.
#[tactic(auto, unfolding(crate::specs::Event::melodic_sound))]
fn melodic_sound(bank: &[u8], track: Track, i: usize, voice: Voice, channel: Channel) -> Sound
    ensures { result ≡ melodic_sound bank.now track i voice channel }
{
    let key = channel.sounding >> 1;
    let period = period_at(bytes::part(bank, track.periods, bank::PERIODS_SIZE), key);
    if period % 256 == 0 {
        return melodic_rest(i);
    }
    if i == TRIANGLE {
        Sound::Triangle(
            key,
            period,
            release::release_of(track.release, channel.length),
        )
    } else {
        Sound::Square(key, period, note_ctrl1(bank, voice, channel))
    }
}

#[tactic(auto, unfolding(crate::specs::Event::noise_sound))]
fn noise_sound(presets: &[u8], b: u8) -> Sound
    ensures { result ≡ noise_sound presets.now b }
{
    if b == NOISE_REST {
        return Sound::NoiseRest;
    }
    let at = usize::from(b);
    Sound::Noise(
        bytes::byte(presets, at),
        bytes::byte(presets, at + 1),
        bytes::byte(presets, at + 2),
    )
}

// The sound of the i-th channel, whose record has the frame not yet taken off.
#[tactic(auto, unfolding(crate::specs::Event::sound_of))]
fn sound_of(bank: &[u8], track: Track, i: usize, voice: Voice, channel: Channel) -> Sound
    ensures { result ≡ sound_of bank.now track i voice channel }
{
    match voice.kind {
        Kind::Noise => {
            let presets = bytes::part(bank, track.presets, bank::PRESETS_SIZE);
            noise_sound(presets, channel.sounding)
        }
        Kind::Melodic => melodic_sound(bank, track, i, voice, channel),
    }
}

pub(crate) fn event_of(
    bank: &[u8],
    track: Track,
    i: usize,
    voice: Voice,
    channel: Channel,
    began: bool,
) -> Event
    ensures { result ≡ event_of bank.now track i voice channel began }
{
    Event {
        began,
        sound: sound_of(bank, track, i, voice, channel),
    }
}

// An event as numbers: 0 off, 1 rest, 2 note; whether it began; then three values.
pub fn told(event: Event) -> [u32; 5]
    ensures { result ≡ told_event event }
{
    let began = u32::from(event.began);
    match event.sound {
        Sound::Off => [0, 0, 0, 0, 0],
        Sound::SquareRest(ctrl1) => [1, began, 0, 0, ctrl1.into()],
        Sound::TriangleRest(release) => [1, began, 0, 0, quarter_frames(release)],
        Sound::NoiseRest => [1, began, 0, 0, 0],
        Sound::Square(key, period, ctrl1) => [2, began, key.into(), period.into(), ctrl1.into()],
        Sound::Triangle(key, period, release) => {
            [2, began, key.into(), period.into(), quarter_frames(release)]
        }
        Sound::Noise(first, second, third) => [2, began, first.into(), second.into(), third.into()],
    }
}
