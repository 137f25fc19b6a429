// Commands as 16-bit words: straight reading, which runs no loop, and writing.
ghost use Rattle.std.specs.Prelude.{◌≡◌, true, false, take, MatchOption};
ghost use Rattle.std.proofs.lemmas.List.Edits.{sets};
ghost use Rattle.metroid_format.specs.Command.{data_limit};
ghost use Rattle.metroid_format.specs.Words.{pair, command_of_word, encoded, Encodes, Writes};
ghost use Rattle.metroid_format.specs.Words.{straight, Decodes, Reads};

use crate::command;
use crate::command::{DATA_LIMIT, Decoded, Finish, Kind};
use engine_base::refusal::Refusal;
use engine_base::{buffer, bytes};

// What reading refuses.
#[derive(Clone, Copy)]
pub enum ReadError {
    // 10, 11 or 15 and the offset of the byte
    Byte(Refusal, usize),
    NoRoom,
}

// How many words were written.
pub type Reading = Result<usize, ReadError>;

// How many bytes were written, or 17 or 18.
pub type Writing = Result<usize, Refusal>;

#[derive(Clone, Copy)]
struct Decoding {
    count: usize,
    finish: Finish,
}

// The words of the data up to its end or first refusal, written as far as they fit.
// Laid into its caller, which counts by it first: that pass then stores nothing.
#[inline(always)]
fn decode(kind: Kind, bytes: &[u8], out: &mut [u16]) -> Decoding
    ensures { Decodes (straight kind bytes.now) out.old result.count result.finish out.new }
{
    let mut at = 0;
    // a command has a byte at least
    for n in 0..bytes.len() {
        match command::command_at(kind, bytes, at) {
            Err((refusal, offset)) => {
                return Decoding {
                    count: n,
                    finish: Err((refusal, offset)),
                };
            }
            Ok((command, next)) => {
                let word = bytes::word(bytes::part(bytes, at, next - at), 0);
                buffer::put(out, n, word);
                if command::is_end(command) {
                    return Decoding {
                        count: n + 1,
                        finish: Ok(()),
                    };
                }
                at = next;
            }
        }
    }
    Decoding {
        count: bytes.len(),
        finish: Err((Refusal::PastData, at)),
    }
}

// The command that a word stands for: what its bytes are read as, if reading gives the word.
#[tactic(auto, unfolding(crate::specs::Words::command_of_word))]
fn command_of_word(kind: Kind, word: u16) -> Decoded
    ensures { result ≡ command_of_word kind word }
{
    let bytes = word.to_le_bytes();
    match command::command_at(kind, &bytes, 0) {
        Ok((command, next)) if bytes::word(bytes::part(&bytes, 0, next), 0) == word => {
            Ok((command, next))
        }
        _ => Err((Refusal::InvalidWord, 0)),
    }
}

// The first of a word's two bytes, or both.
fn put_pair(out: &mut [u8], at: usize, word: u16, count: usize)
    ensures { out.new ≡ sets out.old at (take count (pair word)) }
{
    buffer::fill(out, at, bytes::part(&word.to_le_bytes(), 0, count));
}

// The bytes of the words up to the first that is refused, written as far as they fit: how many there are, if none is.
// Laid into its caller too.
#[inline(always)]
fn encode(kind: Kind, words: &[u16], out: &mut [u8]) -> Option<usize>
    ensures valid { MatchOption result ((encoded kind words.now).valid ≡ false) (λ count. Encodes (encoded kind words.now) out.old count true out.new) }
    ensures written { out.new ≡ sets out.old 0 (encoded kind words.now).bytes }
{
    let mut n = 0;
    for (i, word) in words.iter().enumerate() {
        // `.ok()?` here and `then_some` below were tried: the proof did not close, since the laws take the word's `Result`
        let Ok((command, size)) = command_of_word(kind, *word) else {
            return None;
        };
        put_pair(out, n, *word, size);
        n += size;
        if command::is_end(command) {
            return if i + 1 == words.len() { Some(n) } else { None };
        }
    }
    None
}

// One channel's data into words, one a command, up to and including the first end.
// The words and their count, in a lent buffer: the C interface, and no heap.
pub fn read_words(kind: Kind, bytes: &[u8], out: &mut [u16]) -> Reading
    ensures { Reads data_limit kind bytes.now out.old result out.new }
{
    let data = bytes::part(bytes, 0, DATA_LIMIT);
    let mut scratch = [0u16; 1];
    let found = decode(kind, data, &mut scratch);
    if out.len() < found.count {
        return Err(ReadError::NoRoom);
    }
    match found.finish {
        Err((refusal, offset)) => Err(ReadError::Byte(refusal, offset)),
        Ok(()) => {
            decode(kind, data, out);
            Ok(found.count)
        }
    }
}

// Words into one channel's data, for a list whose only end command is its last word.
pub fn write_words(kind: Kind, words: &[u16], out: &mut [u8]) -> Writing
    ensures { Writes data_limit kind words.now out.old result out.new }
{
    let mut scratch = [0u8; 1];
    let count = encode(kind, words, &mut scratch).ok_or(Refusal::InvalidWord)?;
    if out.len() < count || DATA_LIMIT < count {
        return Err(Refusal::NoRoom);
    }
    encode(kind, words, out);
    Ok(count)
}
