// A sound table of rings as a value: its words, and the half m, to read or to change. Whoever writes one down proves that it is sound.
ghost use Rattle.std.specs.Prelude.{◌≡◌, ◌+◌, ◌<◌, get_or};
ghost use Rattle.ring_laws.specs.Table.{Sound, unlinked, linked_behind, linked_before, steps};

// A table to read.
#[derive(Clone, Copy)]
pub struct Rings<'a> {
    pub words: &'a [u32],
    pub m: usize,
    pub ghost sound: { Sound m words.now },
}

impl Rings<'_> {
    // How many members the ring of h has, counted no further than most.
    pub fn count(self, h: usize, most: usize) -> usize
        requires { h < self.m }
        ensures { result ≡ steps self.entry.words.now h most (get_or self.entry.words.now h 0) }
    {
        let mut i = self.words[h] as usize;
        for n in 0..most {
            if i == h {
                return n;
            }
            i = self.words[i] as usize;
        }
        most
    }
}

// A table to change.
#[derive(Drop)]
pub struct RingsMut<'a> {
    pub words: &'a mut [u32],
    pub m: usize,
    pub ghost sound: { Sound m words.now },
}

impl RingsMut<'_> {
    ghost use Rattle.ring.specs.Rings.{Turned};

    // The same table, to read.
    #[inline]
    pub fn reading(&self) -> Rings<'_>
        ensures { (result.words.now ≡ self.now.words.now) × (result.m ≡ self.now.m) }
    {
        Rings {
            words: self.words,
            m: self.m,
        }
    }

    // Takes x out of its ring, where pw stands before it; nothing where it stands in none.
    #[inline]
    pub fn unlink_behind(&mut self, x: usize, pw: u32)
        requires x_lt_m { x < self.old.m }
        requires pw_value { pw ≡ get_or self.old.words.now (self.old.m + x) 0 }
        ensures { Turned (unlinked self.old.m x self.old.words.now) self.old self.new }
    {
        let m = self.m;
        let t = &mut *self.words;
        let sw = t[x];
        if sw == 0 {
            return;
        }
        t[m + sw as usize] = pw;
        t[pw as usize] = sw;
        t[x] = 0;
        t[m + x] = 0;
    }

    // Takes x out of its ring; nothing where it stands in none.
    #[inline]
    pub fn unlink(&mut self, x: usize)
        requires { x < self.old.m }
        ensures { Turned (unlinked self.old.m x self.old.words.now) self.old self.new }
    {
        let pw = self.words[self.m + x];
        self.unlink_behind(x, pw);
    }

    // Puts x, which stands in no ring, behind y.
    #[inline]
    pub fn link_behind(&mut self, xw: u32, yw: u32)
        requires xw_lt_m { xw < self.old.m }
        requires yw_lt_m { yw < self.old.m }
        ensures { Turned (linked_behind self.old.m xw yw self.old.words.now) self.old self.new }
    {
        let m = self.m;
        let t = &mut *self.words;
        let x = xw as usize;
        let y = yw as usize;
        let sw = t[y];
        t[m + x] = yw;
        t[x] = sw;
        t[m + sw as usize] = xw;
        t[y] = xw;
    }

    // Puts x, which stands in no ring, before y.
    #[inline]
    pub fn link_before(&mut self, xw: u32, yw: u32)
        requires xw_lt_m { xw < self.old.m }
        requires yw_lt_m { yw < self.old.m }
        ensures { Turned (linked_before self.old.m xw yw self.old.words.now) self.old self.new }
    {
        let m = self.m;
        let t = &mut *self.words;
        let x = xw as usize;
        let y = yw as usize;
        let pw = t[m + y];
        t[x] = yw;
        t[m + x] = pw;
        t[pw as usize] = xw;
        t[m + y] = xw;
    }
}
