// The words of a channel's playlist in playing order, each goto's target looked at once.
ghost use Rattle.std.specs.Prelude.{◌≡◌};
ghost use Rattle.mother_format.specs.Bank.{bytes_of};
ghost use Rattle.mother_check.specs.Walk.{first_spot, word_at, marks_at};

use engine_base::address;
use mother_format::bank::Banks;
use mother_format::playlist;
use mother_format::playlist::Entry;

// A mark for each address of the banks.
pub(crate) const ADDRESSES: usize = 16384;

// So many words can a playlist have in playing order: 256 blocks and a goto, from its start and from each address.
pub(crate) const MOST_WORDS: u32 = 4210945;

// Where a word stands.
#[derive(Clone, Copy)]
pub struct Spot {
    // its address
    pub list: u16,
    // the block words before it in its row
    pub row: u16,
    // a goto led to it
    pub by_goto: bool,
}

// What it says.
// No Result of the other cases: the definitions and laws go by all of them side by side.
#[derive(Clone, Copy)]
pub enum Word {
    // the playlist's end, or a goto to where one has led before
    Done,
    // 20
    Bad,
    // a goto, and where it leads
    Goto(Spot),
    // a block's address, and where the next word stands
    Block(u16, Spot),
}

// The header's playlist.
pub(crate) fn first(list: u16) -> Spot
    ensures { result ≡ first_spot list }
{
    Spot {
        list,
        row: 0,
        by_goto: false,
    }
}

// The word at a spot; where a goto leads is marked.
// Casts stay here: they narrow what is known to fit, have no `From`, or `From` would want its equation cited in each proof.
#[tactic(auto, using(crate::proofs::walk::Laws::target_fits, crate::proofs::walk::Laws::row_fits, crate::proofs::walk::Laws::answers_word, crate::proofs::walk::Laws::goes_marked, crate::proofs::walk::Laws::goes_unmarked))]
pub(crate) fn word_at(banks: Banks, spot: Spot, marks: &mut [bool; ADDRESSES]) -> Word
    ensures { (result ≡ word_at (bytes_of banks.entry) spot marks.old)
        × (marks.new ≡ marks_at (bytes_of banks.entry) spot marks.old) }
{
    let row = spot.row;
    let Ok(entry) = playlist::entry_at(banks, spot.list, row, spot.by_goto) else {
        return Word::Bad;
    };
    match entry {
        Entry::End => Word::Done,
        Entry::Goto(target) => {
            let at = address::offset_of(target as usize);
            // no `let mark = &mut marks[at]`: tried, and for the early return the array given back was not proved to be the old one
            if marks[at] {
                return Word::Done;
            }
            marks[at] = true;
            Word::Goto(Spot {
                list: target,
                row: 0,
                by_goto: true,
            })
        }
        Entry::Block(block, next) => {
            Word::Block(
                block,
                Spot {
                    list: next,
                    row: row + 1,
                    by_goto: false,
                },
            )
        }
    }
}
