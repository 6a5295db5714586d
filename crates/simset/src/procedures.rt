// The published procedures on a sound table of links. Out is ring's unlink.
ghost use Rattle.std.specs.Prelude.{◌≡◌, ◌<◌};
ghost use Rattle.ring.specs.Rings.{Turned};
ghost use Rattle.simset_laws.specs.Procedures.{followed, preceded, cleared, link_or};

use ring::RingsMut;

// Takes x out, then puts it behind y if y is on a ring.
pub(crate) fn follow(links: &mut RingsMut<'_>, x: u32, y: u32)
    requires { (x < links.old.m) × (y < links.old.m) }
    ensures { Turned (followed links.old.m x y links.old.words.now) links.old links.new }
{
    links.unlink(x as usize);
    if y != 0 && links.words[y as usize] != 0 {
        links.link_behind(x, y);
    }
}

// Takes x out, then puts it before y if y is on a ring.
pub fn precede(links: &mut RingsMut<'_>, x: u32, y: u32)
    requires { (x < links.old.m) × (y < links.old.m) }
    ensures { Turned (preceded links.old.m x y links.old.words.now) links.old links.new }
{
    links.unlink(x as usize);
    if y != 0 && links.words[y as usize] != 0 {
        links.link_before(x, y);
    }
}

// Takes the first out until there is none.
pub(crate) fn clear(links: &mut RingsMut<'_>, h: usize)
    requires { h < links.old.m }
    ensures { Turned (cleared links.old.m h links.old.words.now) links.old links.new }
{
    for _ in 0..links.m {
        let first = links.words[h] as usize;
        if first == h {
            return;
        }
        links.unlink(first);
    }
}

// A link's number, or none where a head or none stands.
pub fn link_or(heads: u32, v: u32) -> u32
    ensures { result ≡ link_or heads v }
{
    if v <= heads { 0 } else { v }
}
