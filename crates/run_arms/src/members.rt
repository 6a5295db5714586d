// The member of a queue that an operand means: the first, or the first that is a process.
ghost use Rattle.std.specs.Prelude.{◌≡◌, ◌+◌, ◌<◌, length};
ghost use Rattle.ring_laws.specs.Table.{Sound};
ghost use Rattle.model.specs.Counts.{total};
ghost use Rattle.run_laws.specs.OnTables.{process_from, member_at};

use model::Counts;
use simset::procedures::link_or;

// The first process along a ring from v on, none where the head is reached. No ring has more than all linkages.
fn walk(c: Counts, links: &[u32], v: u32) -> u32
    requires sound { Sound (total c + 1) links.now }
    requires v_bound { v < total c + 1 }
    ensures { result ≡ process_from c links.now (total c + 1) v }
{
    let mut i = v;
    for _ in 0..c.total() + 1 {
        if c.is_process(i) {
            return i;
        }
        if i <= c.heads {
            return 0;
        }
        i = links[i as usize];
    }
    0
}

// The same, with no walk where v is a process.
fn process_from(c: Counts, links: &[u32], v: u32) -> u32
    requires sound { Sound (total c + 1) links.now }
    requires v_bound { v < total c + 1 }
    ensures { result ≡ process_from c links.now (total c + 1) v }
{
    let ok = c.is_process(v);
    if ok {
        return v;
    }
    walk(c, links, v)
}

// The member of head h; takes, where the operation takes a process.
pub(crate) fn member(c: Counts, links: &[u32], h: usize, takes: bool) -> u32
    requires sound { Sound (total c + 1) links.now }
    requires h_in_bounds { h < length links.now }
    ensures { result ≡ member_at c takes links.now h }
{
    let v = links[h];
    if takes {
        return process_from(c, links, v);
    }
    link_or(c.heads, v)
}
