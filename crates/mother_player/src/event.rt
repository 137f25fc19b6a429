// What a channel sounds in a frame.
ghost use Rattle.std.specs.Prelude.{◌≡◌, drop};
ghost use Rattle.engine_base.specs.Address.{offset_of};
ghost use Rattle.engine_base.specs.Bytes.{period_at};
ghost use Rattle.mother_format.specs.Bank.{bytes_of};
ghost use Rattle.mother_player.specs.Event.{off_event, square_sound, triangle_sound, dmc_of, noise_sound, sound_of, event_of, told_event};

use crate::record::Channel;
use crate::{ctrl1, release};
use engine_base::ctrl1::SILENT;
use engine_base::release::{Release, quarter_frames};
use engine_base::time::QuarterFrames;
use engine_base::{address, field};
use mother_format::bank::{Banks, Places};
use mother_format::command::Kind;
use mother_format::transpose;

#[derive(Clone, Copy)]
pub enum Sound {
    Off,
    // ctrl 1, pitch envelope
    SquareRest(u8, u8),
    // release, pitch envelope
    TriangleRest(Release, u8),
    // DMC preset
    NoiseRest(u8),
    // key, period, ctrl 1, pitch envelope
    Square(u8, u16, u8, u8),
    // key, period, release, pitch envelope
    Triangle(u8, u16, Release, u8),
    // the preset's bytes, DMC preset
    Noise(u8, u8, u8, u8),
}

// Like the old engine's, over types and definitions of its own: a trait for both would be longer than the two.
// `began` is a word of its own in what is told of an event, beside any sound.
#[derive(Clone, Copy)]
pub struct Event {
    // in this frame
    pub began: bool,
    pub sound: Sound,
}

// p of DDpp pppp.
const NOISE_REST: u8 = 0x01;

pub(crate) fn off() -> Event
    ensures { result ≡ off_event }
{
    Event {
        began: false,
        sound: Sound::Off,
    }
}

// The word of a key in the table at an address.
// Casts stay here: they narrow what is known to fit, have no `From`, or `From` would want its equation cited in each proof.
#[tactic(auto, using(crate::proofs::event::Tables::period_is))]
fn period_at(banks: Banks, table: u32, key: u8) -> u16
    ensures { result ≡ period_at (drop (offset_of table) (bytes_of banks.entry)) key }
{
    let at = address::offset_of(table as usize) + 2 * usize::from(key);
    let high = banks.byte(at);
    let low = banks.byte(at + 1);
    u16::from_be_bytes([high, low])
}

#[tactic(auto, unfolding(crate::specs::Event::square_sound))]
fn square_sound(banks: Banks, places: Places, channel: Channel) -> Sound
    ensures { result ≡ square_sound (bytes_of banks.entry) places channel }
{
    let pitch = channel.timbre >> 5;
    if channel.sounding == transpose::REST {
        return Sound::SquareRest(SILENT, pitch);
    }
    let key = channel.sounding >> 1;
    let period = period_at(banks, places.key_periods, key);
    let ctrl1 = ctrl1::note_ctrl1(banks, places.envelope_addresses, channel);
    Sound::Square(key, period, ctrl1, pitch)
}

#[tactic(auto, unfolding(crate::specs::Event::triangle_sound))]
fn triangle_sound(banks: Banks, places: Places, channel: Channel) -> Sound
    ensures { result ≡ triangle_sound (bytes_of banks.entry) places channel }
{
    let pitch = channel.timbre >> 5;
    if channel.sounding == transpose::REST {
        let none = Release::After(QuarterFrames { count: 0 });
        return Sound::TriangleRest(none, pitch);
    }
    let key = channel.sounding >> 1;
    let period = period_at(banks, places.key_periods, key);
    let after = release::release_of(channel.ctrl);
    Sound::Triangle(key, period, after, pitch)
}

// D of DDpp pppp: preset 1 or 2, else none.
#[tactic(auto, unfolding(crate::specs::Event::dmc_of))]
fn dmc_of(b: u8) -> u8
    ensures { result ≡ dmc_of b }
{
    match b >> 6 {
        preset @ (1 | 2) => preset,
        _ => 0,
    }
}

#[tactic(auto, using(crate::proofs::event::Tables::byte_is, crate::proofs::event::Tables::byte_behind), unfolding(crate::specs::Event::noise_sound))]
fn noise_sound(banks: Banks, table: u32, b: u8) -> Sound
    ensures { result ≡ noise_sound (drop (offset_of table) (bytes_of banks.entry)) b }
{
    let dmc = dmc_of(b);
    let p = field::low::<6>(b);
    if p == NOISE_REST {
        return Sound::NoiseRest(dmc);
    }
    let at = address::offset_of(table as usize) + usize::from(p);
    let first = banks.byte(at);
    let second = banks.byte(at + 1);
    let third = banks.byte(at + 2);
    Sound::Noise(first, second, third, dmc)
}

// The sound of a channel whose record has the frame not yet taken off.
fn sound_of(banks: Banks, places: Places, kind: Kind, channel: Channel) -> Sound
    ensures { result ≡ sound_of (bytes_of banks.entry) places channel kind }
{
    match kind {
        Kind::Square => square_sound(banks, places, channel),
        Kind::Triangle => triangle_sound(banks, places, channel),
        Kind::Noise => noise_sound(banks, places.noise_presets, channel.sounding),
    }
}

pub(crate) fn event_of(
    banks: Banks,
    places: Places,
    kind: Kind,
    channel: Channel,
    began: bool,
) -> Event
    ensures { result ≡ event_of (bytes_of banks.entry) places kind channel began }
{
    let sound = sound_of(banks, places, kind, channel);
    Event { began, sound }
}

// An event as numbers: 0 off, 1 rest, 2 note; whether it began; then four values.
pub fn told(event: Event) -> [u32; 6]
    ensures { result ≡ told_event event }
{
    let began = u32::from(event.began);
    match event.sound {
        Sound::Off => [0, 0, 0, 0, 0, 0],
        Sound::SquareRest(ctrl1, pitch) => [1, began, 0, 0, ctrl1.into(), pitch.into()],
        Sound::TriangleRest(release, pitch) => {
            let after = quarter_frames(release);
            [1, began, 0, 0, after, pitch.into()]
        }
        Sound::NoiseRest(dmc) => [1, began, 0, 0, 0, dmc.into()],
        Sound::Square(key, period, ctrl1, pitch) => {
            [
                2,
                began,
                key.into(),
                period.into(),
                ctrl1.into(),
                pitch.into(),
            ]
        }
        Sound::Triangle(key, period, release, pitch) => {
            let after = quarter_frames(release);
            [2, began, key.into(), period.into(), after, pitch.into()]
        }
        Sound::Noise(first, second, third, dmc) => {
            [
                2,
                began,
                first.into(),
                second.into(),
                third.into(),
                dmc.into(),
            ]
        }
    }
}
