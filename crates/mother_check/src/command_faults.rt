// The first fault of a command, under what is set anywhere in the track.
ghost use Rattle.std.specs.Prelude.{◌≡◌, ◌<◌};
ghost use Rattle.mother_format.specs.Bank.{block_limit};
ghost use Rattle.mother_format.specs.Channel.{of_block, sounding_of};
ghost use Rattle.mother_check.specs.First.{window_for, first_tried, refused_first, is_outside, is_invalid, command_first, early_at, unless_found};

use crate::faults::{Fault, Site};
use crate::settings::Extremes;
use crate::{faults, settings};
use engine_base::refusal::Refusal;
use engine_base::{bytes, field};
use mother_format::channel::Source;
use mother_format::command::{Command, Kind};
use mother_format::{channel, command, transpose};

// A block where a channel's playlist names it, and what is set anywhere in the track.
#[derive(Clone, Copy)]
pub struct Visit<'a> {
    pub source: Source<'a>,
    pub site: Site,
    pub extremes: Extremes,
}

// A refusal at an offset of a block: 10 to 15 name the address.
fn refused(visit: Visit, refusal: Refusal, at: u16) -> Result<(), Fault>
    ensures { result ≡ unless_found (refused_first visit.entry.site visit.entry.source.start refusal at) }
{
    let address = channel::address_of(refusal, visit.source.start, at);
    Err(faults::fault_at(visit.site, refusal, at, address))
}

// Whether a note's byte is out of range under a transpose: a preset never is.
fn is_unsounded(kind: Kind, b: u8, transpose: u8) -> bool
    ensures { result ≡ is_outside (sounding_of kind b transpose) }
{
    match kind {
        Kind::Square | Kind::Triangle => transpose::transposed(b, transpose).is_none(),
        Kind::Noise => false,
    }
}

// Whether a note's byte is out of range under the lowest or the highest transpose.
#[tactic(auto, unfolding(crate::specs::First::is_invalid))]
fn is_invalid(kind: Kind, b: u8, extremes: Extremes) -> bool
    ensures { result ≡ is_invalid kind extremes b }
{
    is_unsounded(kind, b, extremes.low) || is_unsounded(kind, b, extremes.high)
}

// What a command refuses at an offset, once its bytes are read.
fn command_fault(visit: Visit, sized: bool, at: u16, command: Command) -> Result<(), Fault>
    requires { at < block_limit }
    ensures { result ≡ unless_found (command_first visit.entry.source.kind visit.entry.source.start visit.entry.site visit.entry.extremes sized at command) }
{
    let kind = visit.source.kind;
    let extremes = visit.extremes;
    match command {
        Command::Transpose(m) if transpose::is_odd(m) => refused(visit, Refusal::OddTranspose, at),
        Command::Length(_, b) if is_invalid(kind, b, extremes) => {
            refused(visit, Refusal::InvalidNote, at + 1)
        }
        Command::Note(b) if is_invalid(kind, b, extremes) => {
            refused(visit, Refusal::InvalidNote, at)
        }
        Command::Note(_) if !sized => refused(visit, Refusal::NoLength, at),
        _ => Ok(()),
    }
}

// The window under which a length index fails first, if the byte at an offset is one's.
#[tactic(auto, unfolding(crate::specs::First::window_for))]
fn window_for(block: &[u8], windows: [u8; settings::INDEXES], at: u16) -> u8
    ensures { result ≡ window_for block.now windows at }
{
    let l = field::low::<4>(bytes::byte(block, usize::from(at)));
    windows[usize::from(l)]
}

// What a command refuses before its last byte is looked at, under the window that its length index fails with.
#[tactic(auto, unfolding(crate::specs::First::early_at), using(crate::proofs::command_faults::Tests::early_is))]
fn early_at(visit: Visit, at: u16) -> Result<(), Refusal>
    ensures { result ≡ early_at (of_block visit.entry.source) visit.entry.extremes.windows at }
{
    let block = visit.source.block();
    let window = window_for(block, visit.extremes.windows, at);
    match command::rule_of(visit.source.kind, bytes::byte(block, usize::from(at))) {
        Ok(rule) => channel::early_fault(visit.source, window, at, rule),
        Err(_) => Ok(()),
    }
}

// The first fault of the command at an offset, under what is set anywhere in the track. The visit is lent, since by value its caller
// copies it for each command; the copy in the body is not made.
// Casts stay here: they narrow what is known to fit, have no `From`, or `From` would want its equation cited in each proof.
#[tactic(auto, using(crate::proofs::command_faults::Tests::past_tested, crate::proofs::command_faults::Tests::early_tested, crate::proofs::command_faults::Tests::command_tested, crate::proofs::command_faults::Tests::offset_small, crate::proofs::command_faults::Tests::refusal_fits))]
pub(crate) fn first_tried(visit: &Visit, sized: bool, at: u16) -> Result<(), Fault>
    ensures { result ≡ unless_found (first_tried (of_block visit.now.source) visit.now.site visit.now.extremes sized at) }
{
    let visit = *visit;
    let block = visit.source.block();
    let index = usize::from(at);
    if block.len() <= index {
        return refused(visit, Refusal::PastData, at);
    }
    if let Err(refusal) = early_at(visit, at) {
        return refused(visit, refusal, at);
    }
    match command::command_at(visit.source.kind, block, index) {
        Err((refusal, offset)) => refused(visit, refusal, offset as u16),
        Ok((command, _)) => command_fault(visit, sized, at, command),
    }
}
