ghost use Rattle.std.specs.Prelude.{◌≡◌, ◌^◌, ◌<◌, take, IfOk};
ghost use Rattle.stream.specs.Sending.{words_of, too_short, Put, Sent, ReadsBack};

use crate::refusal::Refusal;

/// The largest gap that one word can hold.
const FULL_GAP: u32 = 0x3FFF_FFFF;

/// The kind bits of a word that holds letters.
const LETTER_KIND: u32 = 0x4000_0000;

/// Writes the words of a sample, and answers how many there are. What stands beyond them in `out` stays, and after a refusal all of it.
pub fn write_sample(gap: u32, letters: u32, out: &mut [u32]) -> Result<usize, Refusal>
    ensures sent { Sent gap letters out.old result out.new }
    ensures reads { IfOk result (λ n. ReadsBack gap letters (take n out.new)) }
{
    if letters >> 24 != 0 {
        return Err(Refusal::HighLetter);
    }
    let fulls = gap.saturating_sub(1) / FULL_GAP;
    let rest = gap - fulls * FULL_GAP;
    put_words(fulls as usize, rest, letters, out)
}

/// So many full gap words, the rest of the gap if there is one, and the letters.
// Parts, and no `Sample`: by here its gap is words already.
fn put_words(fulls: usize, rest: u32, letters: u32, out: &mut [u32]) -> Result<usize, Refusal>
    requires few { fulls < 2 ^ 32 }
    requires low { letters < 2 ^ 24 }
    ensures { Put (too_short (words_of fulls rest letters) out.old) (words_of fulls rest letters) out.old result out.new }
{
    let gaps = fulls + usize::from(rest != 0);
    if out.len() <= gaps {
        return Err(Refusal::ListTooShort);
    }
    out[0..fulls].fill(FULL_GAP);
    out[fulls] = rest;
    // where nothing remains, this overwrites it
    out[gaps] = LETTER_KIND + letters;
    Ok(gaps + 1)
}
