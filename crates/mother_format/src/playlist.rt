// The words of a channel's playlist.
ghost use Rattle.engine_base.specs.Told.{Answers};
ghost use Rattle.std.specs.Prelude.{◌≡◌};
ghost use Rattle.mother_format.specs.Bank.{bytes_of};
ghost use Rattle.mother_format.specs.Playlist.{goto_at, entry_at, told_entry};

use crate::bank::Banks;
use engine_base::address;
use engine_base::refusal::Refusal;

// So many block words may stand in a row.
const ROW_LIMIT: u16 = 256;

#[derive(Clone, Copy)]
pub enum Entry {
    End,
    // the address of the word that it leads to
    Goto(u16),
    // the block's address, and that of the next word
    Block(u16, u16),
}

// A goto whose second word stands at an address; by_goto if a goto led to it.
#[tactic(auto, unfolding(crate::specs::Playlist::goto_at))]
fn goto_at(banks: Banks, list: u16, by_goto: bool) -> Result<Entry, Refusal>
    ensures { result ≡ goto_at (bytes_of banks.entry) list by_goto }
{
    if by_goto || !address::fits(usize::from(list), 2) {
        return Err(Refusal::BadPlaylist);
    }
    let target = banks.word(address::offset_of(usize::from(list)));
    if !address::fits(usize::from(target), 1) {
        return Err(Refusal::BadPlaylist);
    }
    Ok(Entry::Goto(target))
}

// The word at an address, or 20; after row block words since the start or the last goto; by_goto if a goto led to it.
// `by_goto` is how the word was come to, as the definition takes it, and no value goes with it.
#[tactic(auto, using(crate::proofs::playlist::Next::list_fits), unfolding(crate::specs::Playlist::entry_at))]
pub fn entry_at(banks: Banks, list: u16, row: u16, by_goto: bool) -> Result<Entry, Refusal>
    ensures { Answers told_entry result (entry_at (bytes_of banks.entry) list row by_goto) }
{
    if !address::fits(usize::from(list), 2) {
        return Err(Refusal::BadPlaylist);
    }
    let word = banks.word(address::offset_of(usize::from(list)));
    let next = list + 2;
    match word >> 8 {
        0x00 => Ok(Entry::End),
        0xff => goto_at(banks, next, by_goto),
        _ if address::fits(usize::from(word), 1) && row < ROW_LIMIT => Ok(Entry::Block(word, next)),
        _ => Err(Refusal::BadPlaylist),
    }
}
