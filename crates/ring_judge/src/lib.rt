// The judge of rings: do the heads' rings hold all links that have not two zeros, each once, and does the predecessor undo the
// successor? Each word is looked at a fixed number of times, and nothing is written.
#![tactic(auto)]

ghost use Rattle.std.specs.Prelude.{◌≡◌, ◌+◌, ◌*◌, ◌-◌, ◌<◌, ◌≤◌, length, if◌then◌else◌};
ghost use Rattle.ring_laws.specs.Stores.{sucs, pres};
ghost use Rattle.ring_laws.specs.Judge.{Space, Plan, WalkStep, Bounded, allowed, step, walk, closed, idle, busy, rings_fine};

// May s stand on the ring of h?
fn may_stand(lo: usize, hi: usize, h: usize, s: usize) -> bool
    ensures { result ≡ allowed lo hi h s }
{
    s == h || lo <= s && s < hi
}

// What follows a on the ring of h, or 0.
fn next_place(t: &[u32], m: usize, lo: usize, hi: usize, h: usize, a: usize) -> usize
    requires space { Space m hi t.now }
    requires h_lt_m { (h < m) × (a < m) }
    ensures { WalkStep m (step (sucs m t.now) (pres m t.now) lo hi h a) result }
{
    let s = t[a] as usize;
    if may_stand(lo, hi, h, s) && t[m + s] as usize == a {
        s
    } else {
        0
    }
}

// Round the ring of h, over at most `left` links: one more than what is left of them, or 0.
fn round(t: &[u32], m: usize, lo: usize, hi: usize, h: usize, left: usize) -> usize
    requires space { Space m hi t.now }
    requires h_lt_m { (h < m) × (left < m) }
    ensures { Bounded (left + 1) (walk (sucs m t.now) (pres m t.now) lo hi h left h) result }
{
    let mut a = h;
    for k in 0..left + 1 {
        let s = next_place(t, m, lo, hi, h, a);
        if s == 0 {
            return 0;
        }
        if s == h {
            return left - k + 1;
        }
        a = s;
    }
    0
}

// Are the rings of the n heads from g closed, with `links` links together, and none of them with more than `most`?
fn all_closed(
    t: &[u32],
    m: usize,
    lo: usize,
    hi: usize,
    most: usize,
    n: usize,
    g: usize,
    links: usize,
) -> bool
    requires space { Space m hi t.now }
    requires n_bound { (g + n ≤ m) × (links < m) }
    ensures { result ≡ closed (sucs m t.now) (pres m t.now) lo hi most n g links }
{
    let mut left = links;
    for i in 0..n {
        let w = round(t, m, lo, hi, g + i, left);
        if w == 0 {
            return false;
        }
        let rest = w - 1;
        if most < left - rest {
            return false;
        }
        left = rest;
    }
    left == 0
}

// Has x two zeros?
pub fn is_idle(t: &[u32], m: usize, x: usize) -> bool
    requires { (length t.now ≡ 2 * m) × (x < m) }
    ensures { result ≡ idle (sucs m t.now) (pres m t.now) x }
{
    t[x] == 0 && t[m + x] == 0
}

// How many links have not two zeros?
fn count_busy(t: &[u32], m: usize, lo: usize, hi: usize) -> usize
    requires space { Space m hi t.now }
    requires lo_le_hi { lo ≤ hi }
    ensures { Bounded (hi - lo) (length (busy (sucs m t.now) (pres m t.now) lo (hi - lo))) result }
{
    let mut n: usize = 0;
    for j in 0..hi - lo {
        n += usize::from(!is_idle(t, m, lo + j));
    }
    n
}

// The rings of the n heads from g, over the links lo .. hi - 1, of which one ring may have `most`.
pub fn rings_fine(
    t: &[u32],
    m: usize,
    lo: usize,
    hi: usize,
    most: usize,
    n: usize,
    g: usize,
) -> bool
    requires { Plan m lo hi n g t.now }
    ensures { result ≡ rings_fine (sucs m t.now) (pres m t.now) lo hi most n g }
{
    is_idle(t, m, 0) && all_closed(t, m, lo, hi, most, n, g, count_busy(t, m, lo, hi))
}
