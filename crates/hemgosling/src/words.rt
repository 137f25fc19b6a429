// Commands as words, for a host that edits tracks.
ghost use Rattle.std.specs.Prelude.{◌≡◌};
ghost use Rattle.metroid_format.specs.Command.{data_limit};
ghost use Rattle.metroid_format.specs.Words.{told_reading, ReadWithin};
ghost use Rattle.hemgosling.specs.Tell.{Tells};
ghost use Rattle.hemgosling.specs.Words.{kind_of, ReadsInto, WritesInto};

use crate::tell::{tell, tell_count};
use engine_base::refusal::Refusal;
use metroid_format::command::Kind;
use metroid_format::words;
use metroid_format::words::{ReadError, Reading};

// 0 is melodic, any other number noise.
// A code or a number of the C interface, not a type of the library's.
pub(crate) fn kind_of(noise: u32) -> Kind
    ensures { result ≡ kind_of noise }
{
    if noise == 0 {
        Kind::Melodic
    } else {
        Kind::Noise
    }
}

// Casts stay here: they narrow what is known to fit, have no `From`, or `From` would want its equation cited in each proof.
fn tell_reading(reading: Reading, out: &mut [u32]) -> u32
    requires { ReadWithin data_limit reading }
    ensures { Tells (told_reading reading) out.old result out.new }
{
    match reading {
        Ok(count) => tell(0, &[count as u32], out),
        Err(ReadError::Byte(refusal, at)) => tell(refusal.number(), &[at as u32], out),
        Err(ReadError::NoRoom) => Refusal::NoRoom.number(),
    }
}

#[tactic(auto, using(metroid_format::proofs::words::Within::read_within))]
#[unsafe(no_mangle)]
pub extern "C" fn hem_read_words(
    noise: u32,
    bytes: &[u8],
    list: &mut [u16],
    told: &mut [u32],
) -> u32
    ensures { ReadsInto (kind_of noise) bytes.now list.old told.old result list.new told.new }
{
    tell_reading(words::read_words(kind_of(noise), bytes, list), told)
}

#[tactic(auto, using(crate::proofs::tell::Within::few_written))]
#[unsafe(no_mangle)]
pub extern "C" fn hem_write_words(
    noise: u32,
    list: &[u16],
    bytes: &mut [u8],
    told: &mut [u32],
) -> u32
    ensures { WritesInto (kind_of noise) list.now bytes.old told.old result bytes.new told.new }
{
    tell_count(words::write_words(kind_of(noise), list, bytes), told)
}
