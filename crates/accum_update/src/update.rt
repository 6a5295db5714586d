// The update of one accumulator, by value: a grows by c × (time − b), b becomes time, c grows by d.
ghost use Rattle.std.specs.Prelude.{◌≡◌, ◌≤◌, pos, ◌+ℤ◌, ◌-ℤ◌, ◌*ℤ◌};
ghost use Rattle.model.specs.Counts.{limit};
ghost use Rattle.accum_laws.specs.Update.{may_update, updated_of, Growable};

use accum_laws::Accumulator;
use model::Refusal;

// The greatest absolute value of c.
const RATE_LIMIT: u64 = 1000000;

// Is the accumulator as required, and will it be? A d beyond twice the limit is refused before c + d is formed, which so fits a word.
// b's sign is asked first, so that its absolute value is b.
fn may_update(x: Accumulator, time: u64, d: i64) -> bool
    requires { time ≤ limit }
    ensures { result ≡ may_update x time d }
{
    x.b >= 0
        && x.b.unsigned_abs() <= time
        && x.a.unsigned_abs() <= RATE_LIMIT * x.b.unsigned_abs()
        && x.c.unsigned_abs() <= RATE_LIMIT
        && d.unsigned_abs() <= 2 * RATE_LIMIT
        && (x.c + d).unsigned_abs() <= RATE_LIMIT
}

// What has been gathered at this time.
fn gathered(a: i64, b: i64, c: i64, time: u64) -> i64
    requires { Growable a b c time }
    ensures { result ≡ a +ℤ c *ℤ (pos time -ℤ b) }
{
    a + c * (time as i64 - b)
}

// The accumulator after a growth of c by d at this time, or refusal 7.
pub fn updated(x: Accumulator, time: u64, d: i64) -> Result<Accumulator, Refusal>
    requires { time ≤ limit }
    ensures { result ≡ updated_of x time d }
{
    if may_update(x, time, d) {
        let a = gathered(x.a, x.b, x.c, time);
        let b = time as i64;
        let c = x.c + d;
        Ok(Accumulator { a, b, c })
    } else {
        Err(Refusal::Accumulator)
    }
}
