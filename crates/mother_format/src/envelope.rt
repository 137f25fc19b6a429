// The envelope that a timbre command names.
ghost use Rattle.std.specs.Prelude.{◌≡◌, ◌+◌, ◌-◌, ◌*◌, take, drop};
ghost use Rattle.engine_base.specs.Envelope.{shows_end, envelope_reach, envelope_address, envelope_ends};
ghost use Rattle.mother_format.specs.Bank.{bytes_of};
ghost use Rattle.mother_format.specs.Envelope.{envelope_fault};

use crate::bank::Banks;
use engine_base::refusal::Refusal;
use engine_base::{address, bytes, envelope};

pub const LAST_ENVELOPE: u8 = 0x1b;

// Whether F0 or FF stands in an envelope at an offset from $8000 on, in one bank or across both.
#[tactic(auto, using(crate::proofs::envelope::Across::ends_right, crate::proofs::envelope::Across::first_within, crate::proofs::envelope::Across::ends_across))]
fn shows_end(banks: Banks, at: usize) -> bool
    ensures { result ≡ shows_end (take envelope_reach (drop at (bytes_of banks.entry))) }
{
    if banks.bank8.len() <= at {
        return envelope::shows_end(bytes::part(
            banks.banka,
            at - banks.bank8.len(),
            envelope::REACH,
        ));
    }
    let first = bytes::part(banks.bank8, at, envelope::REACH);
    envelope::shows_end(first)
        || envelope::shows_end(bytes::part(banks.banka, 0, envelope::REACH - first.len()))
}

// The place of an envelope's address in the table, from 1 on.
// Casts stay here: they narrow what is known to fit, have no `From`, or `From` would want its equation cited in each proof.
fn entry_of(table: u32, number: u8) -> usize
    ensures { result ≡ table + 2 * (number - 1) }
{
    table as usize + 2 * usize::from(number.saturating_sub(1))
}

// The address of an envelope by its number, from 1 on, in the table.
#[tactic(auto, unfolding(engine_base::specs::Envelope::envelope_address))]
pub fn address_of(banks: Banks, table: u32, number: u8) -> u16
    ensures { result ≡ envelope_address (bytes_of banks.entry) table number }
{
    banks.word(address::offset_of(entry_of(table, number)))
}

// Whether envelope 0 to $1b ends within its reach; 0 is none.
#[tactic(auto, unfolding(engine_base::specs::Envelope::envelope_ends))]
fn ends(banks: Banks, table: u32, number: u8) -> bool
    ensures { result ≡ envelope_ends (bytes_of banks.entry) table number }
{
    if number == 0 {
        return true;
    }
    let address = usize::from(address_of(banks, table, number));
    address::fits(address, 1) && shows_end(banks, address::offset_of(address))
}

// 6 or 7 of an envelope's number.
#[tactic(auto, unfolding(crate::specs::Envelope::envelope_fault))]
pub(crate) fn fault(banks: Banks, table: u32, number: u8) -> Result<(), Refusal>
    ensures { result ≡ envelope_fault (bytes_of banks.entry) table number }
{
    if LAST_ENVELOPE < number {
        return Err(Refusal::EnvelopeTooHigh);
    }
    if !ends(banks, table, number) {
        return Err(Refusal::NoEnvelopeEnd);
    }
    Ok(())
}
