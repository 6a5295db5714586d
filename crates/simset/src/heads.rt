// The head of the set in which a link stands.
ghost use Rattle.std.specs.Prelude.{◌≡◌, ◌<◌};
ghost use Rattle.simset_laws.specs.Walk.{head_at};

use ring::Rings;

// Along the ring of x to its head, none where x lies on no ring. No ring has more than all linkages.
pub fn head_at(links: Rings<'_>, heads: u32, x: u32) -> u32
    requires { x < links.m }
    ensures { result ≡ head_at links.entry.m heads x links.entry.words.now }
{
    let mut i = links.words[x as usize];
    for _ in 0..links.m {
        if i <= heads {
            return i;
        }
        i = links.words[i as usize];
    }
    0
}
