// Accumulators in an array of 64 structs, from a flat list of words and back: the first n of them, three words for each.
ghost use Rattle.std.specs.Prelude.{◌≡◌, ◌*◌, ◌≤◌, length, take};
ghost use Rattle.accum_laws.specs.Triples.{flat};

use crate::flat::{put, taken};
use accum_laws::Accumulator;

// The first n from the words; zeros behind them.
pub fn gather(words: &[i64], n: usize) -> [Accumulator; 64]
    requires { (n ≤ 64) × (length words.now ≡ 3 * n) }
    ensures { flat (take n result) ≡ words.now }
{
    let zero = Accumulator { a: 0, b: 0, c: 0 };
    let mut list = [zero; 64];
    for i in 0..n {
        list[i] = taken(words, 3 * i);
    }
    list
}

// The words from the first n.
pub fn spread(list: [Accumulator; 64], n: usize, words: &mut [i64])
    requires { (n ≤ 64) × (length words.old ≡ 3 * n) }
    ensures { words.new ≡ flat (take n list) }
{
    for i in 0..n {
        put(words, 3 * i, list[i]);
    }
}
