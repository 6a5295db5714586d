// Is there room for a link in a set? The sets' sizes are bounded beside the table of links, so that a set is counted only where its bound
// is reached: a bound below 512 is at least the size, and 512 says nothing.
ghost use Rattle.std.specs.Prelude.{◌≡◌, true, ◌+◌, ◌<◌, ◌≤◌};
ghost use Rattle.ring_laws.specs.Table.{Sound};
ghost use Rattle.model.specs.Counts.{Allowed, total};
ghost use Rattle.simset_laws.specs.Full.{set_at, full_at, many, full_for, free_to, unknown};
ghost use Rattle.simset_laws.specs.BoundLaws.{Fits, Covers};
ghost use Rattle.simset_laws.specs.Entering.{Tested};
ghost use Rattle.simset_laws.specs.KnownRoom.{Known};

use crate::heads::head_at;
use model::Counts;
use ring::Rings;

// Words for the bounds of all heads, which are numbered 1 to 64, and for the two numbers below.
pub const BOUNDS: usize = 66;
// The places of the free heads and the free linkages: beside a linkage up to that number no set is ever full.
const FREE_HEADS: usize = 0;

pub(crate) const FREE_LINKAGES: usize = 65;

// More links than a set may have members?
fn are_many(c: Counts) -> bool
    ensures { result ≡ many c }
{
    (Counts::MAX_MEMBERS as usize) < c.processes as usize + c.plains as usize
}

// Of the linkages up to n, those beside which no set is ever full: all, where there are not many links.
fn free_to(c: Counts, n: u32) -> u32
    ensures { result ≡ free_to c n }
{
    if are_many(c) { 0 } else { n }
}

// The bounds as a call begins with them: none is known.
pub fn unknown_bounds(c: Counts) -> [u32; BOUNDS]
    requires { Allowed c }
    ensures { result ≡ unknown c }
{
    let mut bounds = [Counts::MAX_MEMBERS; BOUNDS];
    let n = c.total() as u32;
    bounds[FREE_HEADS] = free_to(c, c.heads);
    bounds[FREE_LINKAGES] = free_to(c, n);
    bounds
}

// Is y none or a head, and known, with no count, to have room in its set for one more? Then its bound is raised. Where there are not many
// links, this asks no more than whether y is a head or none.
pub fn known_room(c: Counts, y: u32, bounds: &mut [u32]) -> bool
    requires { Fits c bounds.old }
    ensures { Known c y bounds.old bounds.new result }
{
    if y <= bounds[FREE_HEADS] {
        return true;
    }
    if c.heads < y {
        return false;
    }
    let bound = bounds[y as usize];
    if bound < Counts::MAX_MEMBERS {
        bounds[y as usize] = bound + 1;
        return true;
    }
    false
}

// The head of the set that y heads or stands in, or none.
fn set_of(heads: u32, links: Rings<'_>, y: u32) -> u32
    requires { y < links.m }
    ensures { result ≡ set_at links.entry.m heads y links.entry.words.now }
{
    if y <= heads {
        return y;
    }
    head_at(links, heads, y)
}

// Is the set of head h full for x? If not, its bound has room for x afterwards.
fn is_full(c: Counts, links: Rings<'_>, x: u32, h: u32, bounds: &mut [u32]) -> bool
    requires half { links.m ≡ total c + 1 }
    requires x_bound { (x < total c + 1) × (0 < h) × (h ≤ c.heads) }
    requires c_value { many c ≡ true }
    requires covers { Covers c 0 links.words.now bounds.old }
    ensures { Tested c h links.entry.words.now (full_at (total c + 1) c.heads x h links.entry.words.now) bounds.new result }
{
    let i = h as usize;
    let b = bounds[i];
    if b < Counts::MAX_MEMBERS {
        bounds[i] = b + 1;
        return false;
    }
    let most = Counts::MAX_MEMBERS as usize;
    let n = links.count(i, most);
    if n < most {
        bounds[i] = n as u32 + 1;
        return false;
    }
    head_at(links, c.heads, x) != h
}

// Is the set in which x would stand beside y full for it? Where there are not many links, none is.
pub fn no_room(c: Counts, links: &[u32], x: u32, y: u32, bounds: &mut [u32]) -> bool
    requires sound { Sound (total c + 1) links.now }
    requires x_bound { (x < total c + 1) × (y < total c + 1) }
    requires covers { Covers c 0 links.now bounds.old }
    ensures { Tested c (set_at (total c + 1) c.heads y links.now) links.now
        (full_for c x y links.now) bounds.new result }
{
    if !are_many(c) {
        return false;
    }
    let rings = Rings {
        words: links,
        m: c.total() + 1,
    };
    let h = set_of(c.heads, rings, y);
    h != 0 && is_full(c, rings, x, h, bounds)
}
