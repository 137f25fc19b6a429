// What is set anywhere in a track: the transposes of the lowest and highest amount, and the windows under which lengths fail.
ghost use Rattle.std.specs.Prelude.{◌≡◌};
ghost use Rattle.mother_format.specs.Bank.{bytes_of};
ghost use Rattle.mother_check.specs.Extremes.{rank_of, is_sooner, worse_window, with_transpose, with_window, with_command, with_block, with_channel, extremes_of};

use crate::walk;
use crate::walk::Word;
use engine_base::refusal::Refusal;
use mother_format::bank::{Banks, Places};
use mother_format::command::{Command, Kind};
use mother_format::header::{Track, Voice};
use mother_format::{channel, command, straight, transpose};

// So many length indexes has BL.
pub(crate) const INDEXES: usize = 16;

#[derive(Clone, Copy)]
pub struct Extremes {
    // transpose bytes, by their amount
    pub low: u8,
    pub high: u8,
    // for each length index a window under which it fails, with 12 if there is one; or any, if it never fails
    pub windows: [u8; INDEXES],
}

// A transpose's amount plus 128.
#[tactic(auto, unfolding(crate::specs::Extremes::rank_of))]
fn rank_of(b: u8) -> u8
    ensures { result ≡ rank_of b }
{
    if b < 0x80 { b + 0x80 } else { 0xff - b }
}

// An odd transpose sets nothing.
#[tactic(auto, unfolding(crate::specs::Extremes::with_transpose))]
fn with_transpose(mut e: Extremes, m: u8) -> Extremes
    ensures { result ≡ with_transpose e m }
{
    if transpose::is_odd(m) {
        return e;
    }
    if rank_of(m) < rank_of(e.low) {
        e.low = m;
    }
    if rank_of(e.high) < rank_of(m) {
        e.high = m;
    }
    e
}

// Whether a length is refused, and before another.
fn is_sooner(a: Result<(), Refusal>, b: Result<(), Refusal>) -> bool
    ensures { result ≡ is_sooner a b }
{
    match (a, b) {
        (Ok(()), _) => false,
        (Err(_), Ok(())) => true,
        (Err(a), Err(b)) => a.number() < b.number(),
    }
}

// Of two windows the one under which a length index fails first.
#[tactic(auto, unfolding(crate::specs::Extremes::worse_window))]
fn worse_window(banks: Banks, table: u32, l: u8, window: u8, t: u8) -> u8
    ensures { result ≡ worse_window (bytes_of banks.entry) table l window t }
{
    let now = channel::length_fault(banks, table, window, l);
    let then = channel::length_fault(banks, table, t, l);
    if is_sooner(then, now) { t } else { window }
}

// Casts stay here: they narrow what is known to fit, have no `From`, or `From` would want its equation cited in each proof.
#[tactic(auto, unfolding(crate::specs::Extremes::with_window), using(crate::proofs::settings::Laws::worsening_none, crate::proofs::settings::Laws::worsening_more, crate::proofs::settings::Laws::worsened))]
fn with_window(banks: Banks, table: u32, mut e: Extremes, t: u8) -> Extremes
    ensures { result ≡ with_window (bytes_of banks.entry) table e t }
{
    for (l, window) in e.windows.iter_mut().enumerate() {
        *window = worse_window(banks, table, l as u8, *window, t);
    }
    e
}

fn with_command(banks: Banks, table: u32, e: Extremes, command: Command) -> Extremes
    ensures { result ≡ with_command (bytes_of banks.entry) table e command }
{
    match command {
        Command::Transpose(m) => with_transpose(e, m),
        Command::Window(t) => with_window(banks, table, e, t),
        _ => e,
    }
}

// With what a block sets, read straight up to its stop.
#[tactic(auto, unfolding(crate::specs::Extremes::with_block), using(crate::proofs::settings::Laws::gathering_none, crate::proofs::settings::Laws::gathered_past, crate::proofs::settings::Laws::gathered_refused, crate::proofs::settings::Laws::gathered_end, crate::proofs::settings::Laws::gathering_more))]
fn with_block(banks: Banks, table: u32, kind: Kind, start: u16, mut e: Extremes) -> Extremes
    ensures { result ≡ with_block banks.entry.bank8.now banks.entry.banka.now table kind start e }
{
    let block = banks.block(start);
    let mut at = 0;
    for _ in 0..block.len() {
        let Ok((command, next)) = command::command_at(kind, block, at) else {
            return e;
        };
        if straight::is_end(command) {
            return e;
        }
        e = with_command(banks, table, e, command);
        at = next;
    }
    e
}

// With what the blocks of a channel set.
// The walk of `channel_first` with another body: what each does at a block ends it or not, and a closure over the marks is no plainer.
fn with_channel(banks: Banks, table: u32, voice: Voice, mut e: Extremes) -> Extremes
    ensures { result ≡ with_channel banks.entry.bank8.now banks.entry.banka.now table voice.kind voice.list e }
{
    let mut marks = [false; walk::ADDRESSES];
    let mut spot = walk::first(voice.list);
    for _ in 0..walk::MOST_WORDS {
        match walk::word_at(banks, spot, &mut marks) {
            Word::Done | Word::Bad => return e,
            Word::Goto(next) => spot = next,
            Word::Block(block, next) => {
                e = with_block(banks, table, voice.kind, block, e);
                spot = next;
            }
        }
    }
    e
}

#[tactic(auto, unfolding(crate::specs::Extremes::extremes_of), using(crate::proofs::settings::Laws::visiting_used, crate::proofs::settings::Laws::visiting_unused, crate::proofs::settings::Laws::visited))]
pub(crate) fn extremes_of(banks: Banks, places: Places, track: Track) -> Extremes
    ensures { result ≡ extremes_of banks.entry.bank8.now banks.entry.banka.now places track }
{
    let transpose = track.transpose;
    let mut e = Extremes {
        low: transpose,
        high: transpose,
        windows: [track.window; INDEXES],
    };
    for voice in &track.voices {
        if let Some(voice) = voice {
            e = with_channel(banks, places.note_lengths, *voice, e);
        }
    }
    e
}
