// A channel by itself: how many frames to its own end or first fault, by one pass over its bytes, whatever its loops repeat. And
// the first stop of a track: the least of its used channels'.
ghost use Rattle.std.specs.Prelude.{◌≡◌, ◌+◌, ◌*◌, ◌≤◌, eqb, take};
ghost use Rattle.engine_base.specs.Address.{address_of};
ghost use Rattle.engine_base.specs.Told.{Answers};
ghost use Rattle.metroid_format.specs.Command.{data_limit};
ghost use Rattle.metroid_format.specs.Channel.{source_of, channel_source, Limited};
ghost use Rattle.metroid_format.specs.Timeline.{after_lone, passed_by, passed_of, timeline_of, stop_of, sooner, soonest_of, told_soonest, Small, Timed};

use crate::channel;
use crate::channel::{Played, Source};
use crate::command::DATA_LIMIT;
use crate::header::{Track, Voice};
use engine_base::bytes;
use engine_base::refusal::Refusal;
use engine_base::time::Frames;

// How a channel by itself comes to a stop: at its end, or at a refusal, with the offset of the byte and its address.
pub type Finish = Result<(), (Refusal, u16, u32)>;

#[derive(Clone, Copy)]
pub struct Timeline {
    pub frames: u32,
    pub finish: Finish,
}

// Where the pass stands, and the body of the last begun loop so far.
#[derive(Clone, Copy)]
struct Pass {
    pub next: u16,
    pub length: Frames,
    // plays of the body after the first
    pub counter: u8,
    // notes of the body before its first BL
    pub lead: u32,
    // frames of its other notes
    pub rest: u32,
    pub frames: u32,
}

// What a command makes of a pass: the pass goes on, or has come to a stop. A `Result` as the definition `Passed` has
// it, which would have to change for a `ControlFlow`.
type Passed = Result<Pass, Finish>;

// The stop that comes first of those looked at: the frame, the channel and how it stops.
#[derive(Clone, Copy)]
pub struct Soonest {
    pub frame: u32,
    pub channel: usize,
    pub finish: Finish,
}

// The frames of a loop's later plays.
// Casts stay here: they narrow what is known to fit, have no `From`, or `From` would want its equation cited in each proof.
fn later_plays(counter: u8, lead: u32, length: u8, rest: u32) -> u32
    requires { (lead ≤ data_limit) × (rest ≤ 255 * data_limit) }
    ensures { (result ≡ counter * (lead * length + rest)) × (result ≤ 255 * (510 * data_limit)) }
{
    counter as u32 * (lead * length as u32 + rest)
}

// A lone note counts to the lead as long as no BL stood in the body.
fn after_lone(pass: Pass, next: u16) -> Pass
    requires { Small pass }
    ensures { result ≡ after_lone (eqb pass.rest 0) pass next }
{
    let count = pass.length.count as u32;
    let frames = pass.frames + count;
    if pass.rest == 0 {
        return Pass {
            next,
            lead: pass.lead + 1,
            frames,
            ..pass
        };
    }
    Pass {
        next,
        rest: pass.rest + count,
        frames,
        ..pass
    }
}

// `Small` is one definition that three private clauses name: a type of its own would carry the same proof along.
fn passed_by(pass: Pass, played: Played) -> Passed
    requires { Small pass }
    ensures { result ≡ passed_by pass played }
{
    match played {
        Played::End => Err(Ok(())),
        Played::EndLoop(next) => Ok(Pass {
            next,
            counter: 0,
            frames: pass.frames
                + later_plays(pass.counter, pass.lead, pass.length.count, pass.rest),
            ..pass
        }),
        Played::BeginLoop(counter, next) => Ok(Pass {
            next,
            counter,
            lead: 0,
            rest: 0,
            ..pass
        }),
        Played::Length(_, length, next) => Ok(Pass {
            next,
            length,
            rest: pass.rest + length.count as u32,
            frames: pass.frames + length.count as u32,
            ..pass
        }),
        Played::Note(_, next) => Ok(after_lone(pass, next)),
        Played::Refused(refusal, at, address) => Err(Err((refusal, at, address))),
    }
}

#[tactic(auto, unfolding(crate::specs::Timeline::passed_of))]
fn pass_on(source: Source, pass: Pass) -> Passed
    requires { Small pass × Limited source.bytes.now }
    ensures { result ≡ passed_of (source_of source.entry.kind source.entry.bytes.now source.entry.lengths.now source.entry.window (address_of source.entry.base)) pass }
{
    let played = channel::played_at(source, pass.next, pass.length);
    passed_by(pass, played)
}

// Data longer than the limit is read up to it.
pub fn timeline_of(source: Source) -> Timeline
    ensures { Timed (source_of source.entry.kind (take data_limit source.entry.bytes.now) source.entry.lengths.now source.entry.window (address_of source.entry.base)) result }
{
    let source = Source {
        bytes: bytes::part(source.bytes, 0, DATA_LIMIT),
        ..source
    };
    let mut pass = Pass {
        next: 0,
        length: Frames { count: 0 },
        counter: 0,
        lead: 0,
        rest: 0,
        frames: 0,
    };
    // each command passes a byte, and the last turn finds none
    for _ in 0..source.bytes.len() + 1 {
        match pass_on(source, pass) {
            Ok(after) => pass = after,
            Err(finish) => {
                return Timeline {
                    frames: pass.frames,
                    finish,
                };
            }
        }
    }
    let at = pass.next;
    Timeline {
        frames: pass.frames,
        finish: Err((Refusal::PastData, at, channel::address_at(source.base, at))),
    }
}

// The timeline of a channel in its part of the bank.
fn channel_timeline(bank: &[u8], track: Track, voice: Voice) -> Timeline
    ensures { result ≡ timeline_of (channel_source bank.now track voice) }
{
    timeline_of(channel::source_at(bank, track, voice))
}

// The i-th channel by itself, if it is used.
fn stop_of(bank: &[u8], track: Track, i: usize, voice: Option<Voice>) -> Option<Soonest>
    ensures { result ≡ stop_of bank.now track i voice }
{
    let timeline = channel_timeline(bank, track, voice?);
    Some(Soonest {
        frame: timeline.frames,
        channel: i,
        finish: timeline.finish,
    })
}

// In one frame the channel that goes first stops it.
fn sooner_of(first: Option<Soonest>, other: Option<Soonest>) -> Option<Soonest>
    ensures { result ≡ sooner first other }
{
    match (first, other) {
        (None, _) => other,
        (Some(a), Some(b)) if b.frame < a.frame => other,
        _ => first,
    }
}

// The least stop of the used channels.
pub fn soonest_of(bank: &[u8], track: Track) -> Option<Soonest>
    ensures { Answers told_soonest result (soonest_of bank.now track) }
{
    let mut soonest = None;
    for (i, voice) in track.voices.iter().enumerate() {
        soonest = sooner_of(soonest, stop_of(bank, track, i, *voice));
    }
    soonest
}
