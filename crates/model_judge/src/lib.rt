// The judge of a model's lent tables: refusals 1 and 2.
#![tactic(auto)]

ghost use Rattle.std.specs.Prelude.{◌≡◌, ◌&&◌, ◌+◌, ◌*◌, ◌<◌, ◌≤◌, length};
ghost use Rattle.ring_laws.specs.Stores.{sucs, pres};
ghost use Rattle.model_laws.specs.Tables.{Sized, model_of};
ghost use Rattle.model_laws.specs.Judge.{links_fine, time_fine, places_fine, axis_fine, tables_fine, lengths_fine, judged};
ghost use Rattle.axis_laws.specs.Marks.{mark_fine};
ghost use Rattle.model_laws.specs.Tests.{Three};

use model::{Counts, Refusal, TIME_LIMIT};
use ring_judge::{is_idle, rings_fine};

// The table of links: the sets of the heads 1 .. heads, none of more than `MAX_MEMBERS` members.
fn links_fine(t: &[u32], m: usize, heads: usize) -> bool
    requires { (length t.now ≡ 2 * m) × (heads < m) }
    ensures { result ≡ links_fine m heads t.now }
{
    let most = Counts::MAX_MEMBERS as usize;
    rings_fine(t, m, heads + 1, m, most, heads, 1)
}

// The time and the notice of place y of the axis.
#[tactic(auto, using(ring_laws::specs::Stores::suc_at), unfolding(model_laws::specs::Judge::time_fine))]
fn time_fine(axis: &[u32], times: &[u64], p: usize, y: usize) -> bool
    requires { (length axis.now ≡ 2 * (p + 2)) × (length times.now ≡ p + 1) × (y ≤ p) }
    ensures { result ≡ time_fine (sucs (p + 2) axis.now) (pres (p + 2) axis.now) (p + 1) times.now y }
{
    let x = times[y];
    if is_idle(axis, p + 2, y) {
        return x == 0;
    }
    let s = axis[y] as usize;
    x <= TIME_LIMIT && (p + 1 <= s || x <= times[s])
}

// The mark of place y of the axis.
#[tactic(auto, unfolding(axis_laws::specs::Marks::mark_fine))]
fn mark_fine(axis: &[u32], marks: &[u8], p: usize, y: usize) -> bool
    requires { (length axis.now ≡ 2 * (p + 2)) × (length marks.now ≡ p + 1) × (y ≤ p) }
    ensures { result ≡ mark_fine (sucs (p + 2) axis.now) (pres (p + 2) axis.now) marks.now y }
{
    let k = marks[y];
    k == 0 || k == 1 && y != 1 && is_idle(axis, p + 2, y)
}

// Both, of place y of the axis.
fn place_fine(axis: &[u32], times: &[u64], marks: &[u8], p: usize, y: usize) -> bool
    requires three { Three p axis.now times.now marks.now }
    requires y_bound { y ≤ p }
    ensures { result ≡ (time_fine (sucs (p + 2) axis.now) (pres (p + 2) axis.now) (p + 1) times.now y
        && mark_fine (sucs (p + 2) axis.now) (pres (p + 2) axis.now) marks.now y) }
{
    time_fine(axis, times, p, y) && mark_fine(axis, marks, p, y)
}

// Times and marks of all places.
fn places_fine(axis: &[u32], times: &[u64], marks: &[u8], p: usize) -> bool
    requires { Three p axis.now times.now marks.now }
    ensures { result ≡ places_fine (sucs (p + 2) axis.now) (pres (p + 2) axis.now) (p + 1) times.now
        marks.now p }
{
    for i in (1..p + 1).rev() {
        if !place_fine(axis, times, marks, p, i) {
            return false;
        }
    }
    true
}

// The table of the axis, its times and marks, for p processes.
#[tactic(auto, unfolding(model_laws::specs::Judge::axis_fine))]
fn axis_fine(axis: &[u32], times: &[u64], marks: &[u8], p: usize) -> bool
    requires { Three p axis.now times.now marks.now }
    ensures { result ≡ axis_fine p axis.now times.now marks.now }
{
    times[0] == 0
        && marks[0] == 0
        && rings_fine(axis, p + 2, 1, p + 1, p + 1, 1, p + 1)
        && axis[p + 1] as usize != p + 1
        && places_fine(axis, times, marks, p)
}

// Are the tables of these counts well formed?
#[tactic(auto, unfolding(model_laws::specs::Judge::tables_fine))]
fn tables_fine(c: Counts, links: &[u32], axis: &[u32], times: &[u64], marks: &[u8]) -> bool
    requires { Sized c (model_of links.now axis.now times.now marks.now) }
    ensures { result ≡ tables_fine c (model_of links.now axis.now times.now marks.now) }
{
    links_fine(links, c.total() + 1, c.heads as usize)
        && axis_fine(axis, times, marks, c.processes as usize)
}

// Are the four tables of these lengths?
#[tactic(auto, unfolding(model_laws::specs::Judge::lengths_fine))]
pub fn lengths_fine(c: Counts, links: &[u32], axis: &[u32], times: &[u64], marks: &[u8]) -> bool
    ensures { result ≡ lengths_fine c (model_of links.now axis.now times.now marks.now) }
{
    let p = c.processes as usize;
    links.len() == 2 * (c.total() + 1)
        && axis.len() == 2 * (p + 2)
        && times.len() == p + 1
        && marks.len() == p + 1
}

// Refusals 1 and 2 of the whole model.
#[tactic(auto, unfolding(model_laws::specs::Judge::judged))]
pub fn judge_tables(
    c: Counts,
    links: &[u32],
    axis: &[u32],
    times: &[u64],
    marks: &[u8],
) -> Result<(), Refusal>
    ensures { result ≡ judged c (model_of links.now axis.now times.now marks.now) }
{
    if !c.within_limits() || !lengths_fine(c, links, axis, times, marks) {
        return Err(Refusal::Size);
    }
    if !tables_fine(c, links, axis, times, marks) {
        return Err(Refusal::Malformed);
    }
    Ok(())
}
