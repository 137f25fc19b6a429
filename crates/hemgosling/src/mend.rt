// Mending of channel data, for a host that edits tracks.
ghost use Rattle.hemgosling.specs.Words.{kind_of};
ghost use Rattle.hemgosling.specs.Mend.{MendsInto};

use crate::tell::tell_count;
use crate::words::kind_of;
use metroid_format::mend;

#[tactic(auto, using(crate::proofs::tell::Within::few_mended))]
#[unsafe(no_mangle)]
pub extern "C" fn hem_mend(noise: u32, bytes: &mut [u8], list: &mut [u16], told: &mut [u32]) -> u32
    ensures { MendsInto (kind_of noise) bytes.old list.old told.old result bytes.new list.new told.new }
{
    tell_count(mend::mend(kind_of(noise), bytes, list), told)
}
