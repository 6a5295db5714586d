// Accumulators in a flat lent list of words, three for each: number k, from 1, at 3 × (k − 1). A run keeps 64 of them so.
ghost use Rattle.std.specs.Prelude.{◌≡◌, ◌*◌, ◌+◌, ◌≤◌, length};
ghost use Rattle.model.specs.Counts.{limit};
ghost use Rattle.accum_laws.specs.Flat.{words_at, with_words, updated_in};

use crate::update::updated;
use accum_laws::Accumulator;
use model::Refusal;
use model::answer::Answer;

// The accumulator whose words begin at this place.
pub fn taken(words: &[i64], at: usize) -> Accumulator
    requires { at + 3 ≤ length words.now }
    ensures { result ≡ words_at at words.now }
{
    Accumulator {
        a: words[at],
        b: words[at + 1],
        c: words[at + 2],
    }
}

// The three words from this place on replaced.
pub fn put(words: &mut [i64], at: usize, v: Accumulator)
    requires { at + 3 ≤ length words.old }
    ensures { words.new ≡ with_words at v words.old }
{
    words[at] = v.a;
    words[at + 1] = v.b;
    words[at + 2] = v.c;
}

// Accum on number k, 1 to a third of the words, or refusal 7 that changes nothing.
pub fn update_in(accums: &mut [i64], k: u32, time: u64, d: i64) -> Result<Answer, Refusal>
    requires { (1 ≤ k) × (3 * k ≤ length accums.old) × (time ≤ limit) }
    ensures { record { words = accums.new; answer = result } ≡ updated_in k time d accums.old }
{
    let at = 3 * (k as usize - 1);
    let v = updated(taken(accums, at), time, d)?;
    put(accums, at, v);
    Ok(Answer::Done)
}
