// One frame of a track.
ghost use Rattle.std.specs.Prelude.{◌≡◌};
ghost use Rattle.engine_base.specs.Told.{Answers};
ghost use Rattle.mother_player.specs.Frame.{one_off, turn_of, eventless, setting_of, settle_from, framed, frame_of_track, frame_of, start_of, told_framed, told_started};

use crate::event::Event;
use crate::reading::Turn;
use crate::record::{Channel, Player};
use crate::{event, reading, record};
use engine_base::answer::{Answer, Turned};
use engine_base::refusal::Refusal;
use engine_base::time::Frames;
use mother_format::bank::{Banks, Places};
use mother_format::channel::Setting;
use mother_format::header;
use mother_format::header::{Track, Voice};

// Like the old engine's, over a record of its own that the C interface fixes: a trait of all its fields would be longer.
#[derive(Clone, Copy)]
pub struct Framed {
    pub answer: Answer,
    pub events: [Event; 4],
    pub counts: [u32; 4],
    pub player: Player,
}

// Like the old engine's, over a record of its own that the C interface fixes: a trait of all its fields would be longer.
#[derive(Clone, Copy)]
pub struct Started {
    pub refusal: Option<Refusal>,
    pub player: Player,
}

// One frame is taken off.
// Like the old engine's, over a record of its own that the C interface fixes: a trait of all its fields would be longer.
fn one_off(channel: Channel) -> Channel
    ensures { result ≡ one_off channel }
{
    Channel {
        left: Frames {
            count: channel.left.count.saturating_sub(1),
        },
        ..channel
    }
}

// What a used channel does.
#[tactic(auto, unfolding(crate::specs::Frame::turn_of))]
fn take_turn(banks: Banks, places: Places, voice: Voice, channel: Channel, setting: Setting) -> Turn
    ensures { result ≡ turn_of banks.entry.bank8.now banks.entry.banka.now places setting voice channel }
{
    if channel.left.count == 0 {
        let reader = reading::reader_of(voice.list, channel, setting);
        return reading::read_until(banks, places, voice.kind, reader);
    }
    Turn {
        turned: Turned::Plays,
        began: false,
        channel,
        setting,
        count: 0,
    }
}

// Like the old engine's, over a record of its own that the C interface fixes: a trait of all its fields would be longer.
fn without_events(answer: Answer, counts: [u32; 4], player: Player) -> Framed
    ensures { result ≡ eventless answer counts player }
{
    Framed {
        answer,
        events: [event::off(); 4],
        counts,
        player,
    }
}

impl From<Player> for Setting {
    ghost from_gives = { λ player setting. setting ≡ setting_of player };

    fn from(player: Player) -> Setting {
        Setting {
            transpose: player.transpose,
            window: player.window,
        }
    }
}

// The four channels, gone through in order.
fn settle(banks: Banks, places: Places, voices: [Option<Voice>; 4], player: Player) -> Framed
    ensures { result ≡ framed player (settle_from banks.entry.bank8.now banks.entry.banka.now places (setting_of player) 0 voices player.channels) }
{
    let mut channels = player.channels;
    let mut setting = Setting::from(player);
    let mut events = [event::off(); 4];
    let mut counts = [0; 4];
    for (i, voice) in voices.iter().enumerate() {
        let Some(voice) = *voice else {
            continue;
        };
        let turn = take_turn(banks, places, voice, channels[i], setting);
        counts[i] = turn.count;
        setting = turn.setting;
        match turn.turned {
            Turned::Plays => {
                let sounding = turn.channel;
                let event = event::event_of(banks, places, voice.kind, sounding, turn.began);
                events[i] = event;
                channels[i] = one_off(sounding);
            }
            Turned::End => return without_events(Answer::End, counts, record::stopped()),
            Turned::Refused(refusal, at, address) => {
                return without_events(Answer::Fault(refusal, i, at, address), counts, player);
            }
        }
    }
    Framed {
        answer: Answer::Events,
        events,
        counts,
        player: Player {
            transpose: setting.transpose,
            window: setting.window,
            channels,
            ..player
        },
    }
}

// A frame of an opened track: 16, then Stopped, then reading.
#[tactic(auto, unfolding(crate::specs::Frame::frame_of_track))]
fn frame_of_track(banks: Banks, places: Places, track: Track, player: Player) -> Framed
    ensures { result ≡ frame_of_track banks.entry.bank8.now banks.entry.banka.now places track player }
{
    if !record::record_fits(track.voices, player) {
        return without_events(Answer::Refused(Refusal::InvalidRecord), [0; 4], player);
    }
    if player.stopped != 0 {
        return without_events(Answer::Stopped, [0; 4], player);
    }
    settle(banks, places, track.voices, player)
}

impl Player {
    // Tests 1 to 9 and 19. The record has the header's transpose and window; refused, it is all 0.
    #[tactic(auto, unfolding(crate::specs::Frame::start_of))]
    pub fn start(banks: Banks, places: Places, track: u32) -> Started
        ensures { Answers told_started result (start_of banks.entry.bank8.now banks.entry.banka.now places track) }
    {
        match header::open(banks, places, track) {
            Ok(track) => {
                Started {
                    refusal: None,
                    player: record::fresh(track.transpose, track.window),
                }
            }
            Err(refusal) => {
                Started {
                    refusal: Some(refusal),
                    player: record::fresh(0, 0),
                }
            }
        }
    }

    // The next frame: tests 1 to 9 and 19, then 16, then Stopped, then reads.
    #[tactic(auto, unfolding(crate::specs::Frame::frame_of))]
    pub fn frame(self, banks: Banks, places: Places, track: u32) -> Framed
        ensures { Answers told_framed result (frame_of banks.entry.bank8.now banks.entry.banka.now places track self) }
    {
        match header::open(banks, places, track) {
            Ok(track) => frame_of_track(banks, places, track, self),
            Err(refusal) => without_events(Answer::Refused(refusal), [0; 4], self),
        }
    }
}
