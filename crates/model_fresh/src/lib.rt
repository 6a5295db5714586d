// The fresh model: empty sets and one notice, main at 0.
#![tactic(auto)]

ghost use Rattle.std.specs.Prelude.{◌≡◌, ◌+◌, ◌*◌, ◌<◌, ◌≤◌, length};
ghost use Rattle.ring_laws.specs.Lists.{zeros};
ghost use Rattle.model_laws.specs.Tables.{Sized, model_of};
ghost use Rattle.model_laws.specs.Fresh.{fresh_heads, fresh_axis, fresh_tables, freshed};

use model::{Counts, Refusal};
use model_judge::lengths_fine;
use ring::{RingsMut, start_ring};

// An empty ring for each of the heads 1 .. heads.
fn start_heads(t: &mut [u32], m: usize, heads: u32)
    requires { (length t.old ≡ 2 * m) × (heads < m) }
    ensures { t.new ≡ fresh_heads m heads t.old }
{
    for h in 0..heads {
        start_ring(t, m, h + 1);
    }
}

// The axis of p processes with main's notice.
fn start_axis(t: &mut [u32], pw: u32)
    requires { (length t.old ≡ 2 * (pw + 2)) × (1 ≤ pw) × (pw ≤ 1024) }
    ensures { t.new ≡ fresh_axis pw }
{
    let m = pw as usize + 2;
    t.fill(0);
    start_ring(t, m, pw + 1);
    RingsMut { words: t, m }.link_before(1, pw + 1);
}

// The four tables of a fresh model.
fn fill(c: Counts, links: &mut [u32], axis: &mut [u32], times: &mut [u64], marks: &mut [u8])
    requires { Sized c (model_of links.old axis.old times.old marks.old) }
    ensures { model_of links.new axis.new times.new marks.new ≡ fresh_tables c }
{
    let n = c.total();
    links.fill(0);
    start_heads(links, n + 1, c.heads);
    start_axis(axis, c.processes);
    times.fill(0);
    marks.fill(0);
}

// Fills tables of the right lengths; otherwise refuses, and changes nothing.
pub fn fresh(
    c: Counts,
    links: &mut [u32],
    axis: &mut [u32],
    times: &mut [u64],
    marks: &mut [u8],
) -> Result<(), Refusal>
    ensures { record { tables = model_of links.new axis.new times.new marks.new; answer = result }
        ≡ freshed c (model_of links.old axis.old times.old marks.old) }
{
    if !c.within_limits() {
        return Err(Refusal::Size);
    }
    if !lengths_fine(c, links, axis, times, marks) {
        return Err(Refusal::Size);
    }
    fill(c, links, axis, times, marks);
    Ok(())
}
