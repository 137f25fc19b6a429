// One frame of a track.
ghost use Rattle.std.specs.Prelude.{◌≡◌, false};
ghost use Rattle.metroid_format.specs.Command.{data_limit};
ghost use Rattle.metroid_format.specs.Channel.{channel_source, read_until};
ghost use Rattle.metroid_format.specs.Timeline.{soonest_of};
ghost use Rattle.metroid_player.specs.Record.{cursor_of};
ghost use Rattle.metroid_player.specs.Frame.{begun, one_off, turn_of_until, turn_of, eventless, unplayed, settle_from, framed, frame_of_track, frame_of, stop_frame, start_of, told_framed, told_started};
ghost use Rattle.engine_base.specs.Told.{Answers};

use crate::event::Event;
use crate::record::{Channel, Player};
use crate::{event, record};
use engine_base::answer::{Answer, Turned};
use engine_base::refusal::Refusal;
use engine_base::time::Frames;
use metroid_format::bank::Places;
use metroid_format::channel::{Cursor, Stop, Until};
use metroid_format::header::{Track, Voice};
use metroid_format::{channel, header, timeline};

#[derive(Clone, Copy)]
pub struct Turn {
    pub turned: Turned,
    // a note, in this frame
    pub began: bool,
    // its record, with the frame not yet taken off
    pub channel: Channel,
    // commands read
    pub count: u32,
}

#[derive(Clone, Copy)]
pub struct Framed {
    pub answer: Answer,
    pub events: [Event; 4],
    pub counts: [u32; 4],
    // of the record that was given
    pub frames_left: u32,
    pub player: Player,
}

#[derive(Clone, Copy)]
pub struct Started {
    pub refusal: Option<Refusal>,
    // fresh, all 0 if refused
    pub player: Player,
}

// A note's record: the frames left are its length.
fn begun_channel(cursor: Cursor, b: u8) -> Channel
    ensures { result ≡ begun cursor b }
{
    Channel {
        next: cursor.next,
        loop_start: cursor.loop_start,
        counter: cursor.counter,
        length: cursor.length,
        left: cursor.length,
        sounding: b,
    }
}

// One frame is taken off.
fn one_off(channel: Channel) -> Channel
    ensures { result ≡ one_off channel }
{
    let left = Frames {
        count: channel.left.count.saturating_sub(1),
    };
    Channel { left, ..channel }
}

// Reads a channel's part of the bank until a note, the end or a fault.
fn read_channel(bank: &[u8], track: Track, voice: Voice, channel: Channel) -> Until
    ensures { result ≡ read_until data_limit (channel_source bank.now track voice) (cursor_of channel) }
{
    let source = channel::source_at(bank, track, voice);
    channel::read_until(source, Cursor::from(channel))
}

// A channel in whose frame no note begins, having read so many commands.
fn no_note(turned: Turned, channel: Channel, count: u32) -> Turn
    ensures { result ≡ record { turned = turned; began = false; channel = channel; count = count } }
{
    Turn {
        turned,
        began: false,
        channel,
        count,
    }
}

// A channel with no frames left reads.
fn read_turn(bank: &[u8], track: Track, voice: Voice, channel: Channel) -> Turn
    ensures { result ≡ turn_of_until channel (read_until data_limit (channel_source bank.now track voice) (cursor_of channel)) }
{
    let until = read_channel(bank, track, voice, channel);
    match until.stop {
        Stop::Note(b) => Turn {
            turned: Turned::Plays,
            began: true,
            channel: begun_channel(until.cursor, b),
            count: until.count,
        },
        Stop::End => no_note(Turned::End, channel, until.count),
        Stop::Refused(refusal, at, address) => {
            no_note(Turned::Refused(refusal, at, address), channel, until.count)
        }
    }
}

// What a used channel does.
#[tactic(auto, unfolding(crate::specs::Frame::turn_of))]
fn take_turn(bank: &[u8], track: Track, voice: Voice, channel: Channel) -> Turn
    ensures { result ≡ turn_of bank.now track voice channel }
{
    if channel.left.count == 0 {
        read_turn(bank, track, voice, channel)
    } else {
        no_note(Turned::Plays, channel, 0)
    }
}

// Shows that many frames left, and hands the record back.
fn without_events(answer: Answer, counts: [u32; 4], frames_left: u32, player: Player) -> Framed
    ensures { result ≡ eventless answer counts frames_left player }
{
    Framed {
        answer,
        events: [event::off(); 4],
        counts,
        frames_left,
        player,
    }
}

// No command is read, and the record is handed back as it was given.
fn unplayed(answer: Answer, player: Player) -> Framed
    ensures { result ≡ unplayed answer player }
{
    without_events(answer, [0; 4], player.frames_left, player)
}

// The four channels, gone through in order.
fn settle(bank: &[u8], track: Track, player: Player) -> Framed
    ensures { result ≡ framed track player (settle_from bank.now track 0 track.voices player.channels) }
{
    let mut channels = player.channels;
    let mut events = [event::off(); 4];
    let mut counts = [0; 4];
    for (i, voice) in track.voices.iter().enumerate() {
        let Some(voice) = *voice else {
            continue;
        };
        let turn = take_turn(bank, track, voice, channels[i]);
        counts[i] = turn.count;
        match turn.turned {
            Turned::Plays => {
                events[i] = event::event_of(bank, track, i, voice, turn.channel, turn.began);
                channels[i] = one_off(turn.channel);
            }
            Turned::End => {
                let ended = record::ended(track.restart, player.pass_length);
                return without_events(Answer::End, counts, player.frames_left, ended);
            }
            Turned::Refused(refusal, at, address) => {
                let fault = Answer::Fault(refusal, i, at, address);
                return without_events(fault, counts, player.frames_left, player);
            }
        }
    }
    Framed {
        answer: Answer::Events,
        events,
        counts,
        frames_left: player.frames_left,
        player: Player {
            channels,
            frames_left: player.frames_left.saturating_sub(1),
            ..player
        },
    }
}

// A frame of an opened track: 16, then Stopped, then reading.
#[tactic(auto, unfolding(crate::specs::Frame::frame_of_track))]
fn frame_of_track(bank: &[u8], track: Track, player: Player) -> Framed
    ensures { result ≡ frame_of_track bank.now track player }
{
    if !record::record_fits(track.voices, player) {
        unplayed(Answer::Refused(Refusal::InvalidRecord), player)
    } else if player.stopped != 0 {
        unplayed(Answer::Stopped, player)
    } else {
        settle(bank, track, player)
    }
}

// The frame of the track's first stop.
fn pass_length(bank: &[u8], track: Track) -> u32
    ensures { result ≡ stop_frame (soonest_of bank.now track) }
{
    timeline::soonest_of(bank, track).map_or(0, |stop| stop.frame)
}

impl Player {
    // Tests 1 to 9. The record is fresh either way; refused, its numbers are 0 too.
    #[tactic(auto, unfolding(crate::specs::Frame::start_of))]
    pub fn start(bank: &[u8], places: Places, track: u32) -> Started
        ensures { Answers told_started result (start_of bank.now places track) }
    {
        match header::open(bank, places, track) {
            Ok(track) => Started {
                refusal: None,
                player: record::fresh(pass_length(bank, track)),
            },
            Err(refusal) => Started {
                refusal: Some(refusal),
                player: record::fresh(0),
            },
        }
    }

    // The next frame: tests 1 to 9, then 16, then Stopped, then reads.
    #[tactic(auto, unfolding(crate::specs::Frame::frame_of))]
    pub fn frame(self, bank: &[u8], places: Places, track: u32) -> Framed
        ensures { Answers told_framed result (frame_of bank.now places track self) }
    {
        match header::open(bank, places, track) {
            Ok(track) => frame_of_track(bank, track, self),
            Err(refusal) => unplayed(Answer::Refused(refusal), self),
        }
    }
}
