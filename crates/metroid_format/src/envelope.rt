// The envelopes of the squares.
ghost use Rattle.std.specs.Prelude.{◌≡◌, ◌<◌};
ghost use Rattle.engine_base.specs.Envelope.{envelope_address, envelope_ends};

use engine_base::{address, bytes, envelope};

// The address of envelope 1 to 5.
// Casts stay here: they narrow what is known to fit, have no `From`, or `From` would want its equation cited in each proof.
#[tactic(auto, unfolding(engine_base::specs::Envelope::envelope_address))]
pub(crate) fn address_of(bank: &[u8], table: u32, number: u8) -> u16
    requires { 0 < number }
    ensures { result ≡ envelope_address bank.now table number }
{
    let at = address::offset_of(table as usize + 2 * (number as usize - 1));
    bytes::word(bank, at)
}

// Whether envelope 0 to 5 ends within its reach; 0 is none.
#[tactic(auto, unfolding(engine_base::specs::Envelope::envelope_ends))]
pub(crate) fn ends(bank: &[u8], table: u32, number: u8) -> bool
    ensures { result ≡ envelope_ends bank.now table number }
{
    if number == 0 {
        return true;
    }
    let address = address_of(bank, table, number) as usize;
    address::fits(address, 1)
        && envelope::shows_end(bytes::part(bank, address::offset_of(address), envelope::REACH))
}
