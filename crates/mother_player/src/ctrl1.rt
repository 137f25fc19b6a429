// Ctrl 1 of a square's note, from its envelope.
ghost use Rattle.std.specs.Prelude.{◌≡◌, ltb, length, take, drop};
ghost use Rattle.engine_base.specs.Envelope.{envelope_reach};
ghost use Rattle.mother_format.specs.Bank.{bytes_of};
ghost use Rattle.mother_player.specs.Ctrl1.{half_of, ctrl1_at, note_ctrl1};

use crate::record::Channel;
use engine_base::envelope::REACH;
use engine_base::time::Frames;
use engine_base::{address, ctrl1, field, time};
use mother_format::bank::Banks;
use mother_format::envelope;

// Whether an offset from $8000 on is in one of the banks; apart from the byte, as the laws of an envelope's turn take them.
#[tactic(auto, using(crate::proofs::ctrl1::Envelope::in_first, crate::proofs::ctrl1::Envelope::in_second, crate::proofs::ctrl1::Envelope::in_none))]
fn holds(banks: Banks, at: usize) -> bool
    ensures { result ≡ ltb at (length (bytes_of banks.entry)) }
{
    at < banks.bank8.len() || at - banks.bank8.len() < banks.banka.len()
}

// One of the two volumes of an envelope's byte.
#[tactic(auto, unfolding(crate::specs::Ctrl1::half_of))]
fn half(v: u8, index: u8) -> u8
    ensures { result ≡ half_of index v }
{
    if index % 2 == 0 {
        v >> 4
    } else {
        field::low::<4>(v)
    }
}

// Ctrl 1 in the frame of that index, from the envelope at an offset from $8000 on.
fn ctrl1_at(banks: Banks, at: u16, default: u8, index: Frames) -> u8
    ensures { result ≡ ctrl1_at default (take envelope_reach (drop at (bytes_of banks.entry))) index.count }
{
    let last = usize::from(index.count / 2);
    for i in 0..REACH {
        let place = usize::from(at) + i;
        if !holds(banks, place) {
            return ctrl1::default_ctrl1(default);
        }
        match banks.byte(place) {
            0xf0 => return ctrl1::SILENT,
            0xff => return ctrl1::default_ctrl1(default),
            v if last <= i => return ctrl1::combine(half(v, index.count), default),
            _ => {}
        }
    }
    ctrl1::default_ctrl1(default)
}

// Ctrl 1 of a note, by the record's timbre and C, with the frame not yet taken off.
// Casts stay here: they narrow what is known to fit, have no `From`, or `From` would want its equation cited in each proof.
pub(crate) fn note_ctrl1(banks: Banks, table: u32, channel: Channel) -> u8
    ensures { result ≡ note_ctrl1 (bytes_of banks.entry) table channel }
{
    let number = field::low::<5>(channel.timbre);
    let default = channel.ctrl;
    if number == 0 {
        return ctrl1::default_ctrl1(default);
    }
    let address = usize::from(envelope::address_of(banks, table, number));
    if !address::fits(address, 1) {
        return ctrl1::default_ctrl1(default);
    }
    let at = address::offset_of(address) as u16;
    let index = time::index_of(channel.length, channel.left);
    ctrl1_at(banks, at, default, index)
}
