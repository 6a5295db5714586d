// A table from bytes and to bytes, from the place `at`; each answers the place behind it.
ghost use Rattle.std.specs.Prelude.{◌+◌, ◌*◌, ◌≤◌, ◌≡◌, length};

use crate::put::Word;

pub(crate) fn table_in<T: Word>(s: &[u8], at: usize, t: &mut [T]) -> usize
    requires { at + T.SIZE * length t.old ≤ length s.now }
    ensures { result ≡ at + T.SIZE * length t.old }
{
    let mut next = at;
    for x in t.iter_mut() {
        *x = T::at(s, next);
        next += T::SIZE;
    }
    next
}

pub(crate) fn table_out<T: Word>(s: &mut [u8], at: usize, t: &[T]) -> usize
    requires { at + T.SIZE * length t.now ≤ length s.old }
    ensures { result ≡ at + T.SIZE * length t.now }
{
    let mut next = at;
    for x in t {
        x.put(s, next);
        next += T::SIZE;
    }
    next
}
