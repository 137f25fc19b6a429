// Mending: one channel's data changed so that it reads, and the list of what was changed.
ghost use Rattle.std.specs.Prelude.{ℕ, suc, ◌≤◌, ◌<◌, ◌≡◌, length, take, MatchOption};
ghost use Rattle.metroid_format.specs.Command.{data_limit};
ghost use Rattle.metroid_format.specs.Mend.{rest_of, closed, mended_from, mended, Passes, change_at, changes, Lists, Changed, Mends};

use crate::command;
use crate::command::{DATA_LIMIT, Kind};
use engine_base::refusal::Refusal;
use engine_base::{buffer, bytes};

// How many bytes were changed, or 18 or 23.
pub type Mending = Result<usize, Refusal>;

// The words of a change: offset, old byte, new byte.
const CHANGE_WORDS: usize = 3;

fn rest_of(kind: Kind) -> u8
    ensures { result ≡ rest_of kind }
{
    match kind {
        Kind::Melodic => 0x02,
        Kind::Noise => 0x01,
    }
}

// With no end met, and the last command at an offset.
#[tactic(auto, unfolding(crate::specs::Mend::closed))]
fn close(kind: Kind, bytes: &mut [u8], at: usize)
    requires { at < length bytes.old }
    ensures { bytes.new ≡ closed kind at bytes.old }
{
    let size = bytes.len();
    bytes[size - 1] = 0x00;
    if at + 2 != size {
        return;
    }
    bytes[at] = rest_of(kind);
}

// The command at an offset, where a byte that is refused becomes the rest: where reading goes on, if it is no end.
fn mend_command(kind: Kind, bytes: &mut [u8], at: usize) -> Option<usize>
    requires { at < length bytes.old }
    ensures { MatchOption result
        ((bytes.new ≡ bytes.old) × ((left : ℕ) → mended_from kind (suc left) at bytes.old ≡ bytes.old))
        (λ next. Passes kind at bytes.old next bytes.new) }
{
    match command::command_at(kind, bytes, at) {
        Ok((command, _)) if command::is_end(command) => None,
        Ok((_, next)) => Some(next),
        Err((refusal, offset)) if refusal == Refusal::PastData => Some(offset),
        Err((_, offset)) => {
            bytes[offset] = rest_of(kind);
            Some(offset + 1)
        }
    }
}

// Reading straight, up to the first end.
fn mend_data(kind: Kind, bytes: &mut [u8])
    ensures { bytes.new ≡ mended kind bytes.old }
{
    let mut at = 0;
    // a command has a byte at least
    for _ in 0..bytes.len() {
        let Some(next) = mend_command(kind, bytes, at) else {
            return;
        };
        if bytes.len() <= next {
            close(kind, bytes, at);
            return;
        }
        at = next;
    }
}

// The data into a copy that may be longer.
fn mend_copy(kind: Kind, bytes: &[u8], copy: &mut [u8])
    requires { length bytes.now ≤ length copy.old }
    ensures { take (length bytes.now) copy.new ≡ mended kind bytes.now }
{
    let size = bytes.len();
    copy[..size].copy_from_slice(bytes);
    mend_data(kind, &mut copy[..size]);
}

// A byte of the data behind n changes: how many there are with it. Words are written as far as they fit.
// Casts stay here: they narrow what is known to fit, have no `From`, or `From` would want its equation cited in each proof.
#[tactic(auto, unfolding(crate::specs::Mend::change_words))]
fn list_change(list: &mut [u16], n: usize, at: usize, old: u8, new: u8) -> usize
    requires { (n ≤ at) × (at < data_limit) }
    ensures { Lists n (change_at at old new) list.old result list.new }
{
    if old == new {
        return n;
    }
    let first = n * CHANGE_WORDS;
    buffer::put(list, first, at as u16);
    buffer::put(list, first + 1, u16::from(old));
    buffer::put(list, first + 2, u16::from(new));
    n + 1
}

// The changes of data to others of the same size: how many there are. Words are written as far as they fit.
fn list_changes(before: &[u8], after: &[u8], list: &mut [u16]) -> usize
    requires { (length before.now ≤ data_limit) × (length after.now ≡ length before.now) }
    ensures { Lists 0 (changes before.now after.now) list.old result list.new }
{
    let mut n = 0;
    // `zip` was tried: the proof did not close, since its iterator must be told to stand at i of both lists
    for (i, old) in before.iter().enumerate() {
        n = list_change(list, n, i, *old, after[i]);
    }
    n
}

// The data becomes other data of its size, and the changes are listed, if the list has room.
fn change(bytes: &mut [u8], new: &[u8], list: &mut [u16]) -> Mending
    requires { (length bytes.old ≤ data_limit) × (length new.now ≡ length bytes.old) }
    ensures { Changed bytes.old new.now list.old result bytes.new list.new }
{
    let room = list.len();
    // no word fits: the changes are counted alone
    let count = list_changes(bytes, new, &mut list[..0]);
    if room < count * CHANGE_WORDS {
        return Err(Refusal::NoRoom);
    }
    list_changes(bytes, new, list);
    bytes.copy_from_slice(new);
    Ok(count)
}

// One channel's data, changed so that it reads, and three words a change.
// The changes as words with their count, in a lent buffer: the C interface, and no heap.
pub fn mend(kind: Kind, bytes: &mut [u8], list: &mut [u16]) -> Mending
    ensures { Mends data_limit kind bytes.old list.old result bytes.new list.new }
{
    let size = bytes.len();
    if size == 0 || DATA_LIMIT < size {
        return Err(Refusal::WrongDataSize);
    }
    let mut copy = [0u8; DATA_LIMIT];
    mend_copy(kind, bytes, &mut copy);
    change(bytes, bytes::part(&copy, 0, size), list)
}
