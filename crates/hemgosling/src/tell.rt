// What the calls of both engines tell a host, as far as the lent buffer has room.
ghost use Rattle.std.specs.Prelude.{◌≡◌, ◌≤◌, IfOk};
ghost use Rattle.std.proofs.lemmas.List.Edits.{sets};
ghost use Rattle.engine_base.specs.Answer.{answer_place};
ghost use Rattle.metroid_format.specs.Command.{data_limit};
ghost use Rattle.metroid_format.specs.Words.{told_writing};
ghost use Rattle.metroid_format.specs.Mend.{told_mending};
ghost use Rattle.hemgosling.specs.Tell.{Tells, head_of, Placed};

use engine_base::answer::Answer;
use engine_base::refusal::Refusal;
use engine_base::{answer, buffer};

// Where the commands read stand in an answer.
const COUNTS: usize = 1;

// Where the channel, the offset and the address of a refusal stand.
const PLACE: usize = 5;

// A number, and the values that come with it.
pub(crate) fn tell(number: u32, values: &[u32], out: &mut [u32]) -> u32
    ensures { Tells (record { number = number; values = values.now }) out.old result out.new }
{
    buffer::fill(out, 0, values);
    number
}

// How many there are, or what is refused.
// Casts stay here: they narrow what is known to fit, have no `From`, or `From` would want its equation cited in each proof.
pub(crate) fn tell_count(counted: Result<usize, Refusal>, out: &mut [u32]) -> u32
    requires { IfOk counted (λ count. count ≤ data_limit) }
    ensures written { Tells (told_writing counted) out.old result out.new }
    ensures mended { Tells (told_mending counted) out.old result out.new }
{
    match counted {
        Ok(count) => tell(0, &[count as u32], out),
        Err(refusal) => refusal.number(),
    }
}

// Like the texts', in 32 bits: that the channel fits them is this one's `requires`.
fn place_of(answer: Answer) -> [u32; 3]
    requires { Placed answer }
    ensures { result ≡ answer_place answer }
{
    match answer {
        Answer::Fault(_, channel, at, address) => [channel as u32, u32::from(at), address],
        _ => [0; 3],
    }
}

// The words that an answer begins with: the kind, the commands read and the place.
// `Placed` is one definition that four private clauses name, and holds of every answer of a frame: no type of answers could say it without one of its own.
#[tactic(auto, using(crate::proofs::tell::Laws::head_put))]
pub(crate) fn put_head(out: &mut [u32], answer: Answer, counts: [u32; 4])
    requires { Placed answer }
    ensures { out.new ≡ sets out.old 0 (head_of answer counts) }
{
    buffer::fill(out, 0, &[answer::kind_of(answer)]);
    buffer::fill(out, COUNTS, &counts);
    buffer::fill(out, PLACE, &place_of(answer));
}
