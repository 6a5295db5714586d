// Two-way rings in a lent table of 2 × m words: the successor of i at i, its predecessor at m + i, 0 for none.
// Core functions: callers have judged the table, or made it by these functions.
#![tactic(auto)]

mod rings;

ghost use Rattle.std.specs.Prelude.{◌≡◌, ◌*◌, ◌<◌, length};
ghost use Rattle.ring_laws.specs.Table.{self_linked};

pub use crate::rings::{Rings, RingsMut};

// Makes h a head with an empty ring.
pub fn start_ring(t: &mut [u32], m: usize, hw: u32)
    requires { (length t.old ≡ 2 * m) × (hw < m) }
    ensures { t.new ≡ self_linked m hw t.old }
{
    let h = hw as usize;
    t[h] = hw;
    t[m + h] = hw;
}
