// What every crate shares: a model's counts, the refusals, answers and verdicts. Linkages are numbered heads first, then processes, then
// plain links, from 1; 0 means none.
#![tactic(auto)]

pub mod answer;
pub mod call;

ghost use Rattle.std.specs.Prelude.{◌≡◌};
ghost use Rattle.model.specs.Refusals.{refusal_number};
ghost use Rattle.model.specs.Counts.{made_of, in_limits, total, main, is_head, is_process, is_link, is_linkage, place_of};

// Why a call is turned down.
#[derive(Clone, Copy)]
pub enum Refusal {
    // A count outside its limit, a table of another length, a trace that is too long.
    Size,
    // Tables or positions that are not well formed.
    Malformed,
    // An operand of the wrong kind or out of range, none where it will not do, a clause above 6.
    Operand,
    // The call would leave no notice.
    NoNotice,
    // The call would set a time above the limit.
    TimeLimit,
    // The event time of an idle process.
    Idle,
    // An accumulator not as required, or one that would not be.
    Accumulator,
    // A sheet that breaks its layout.
    Layout,
    // The call would leave a set with more members than a set may have.
    Full,
}

impl Refusal {
    // The number that the papers give it.
    pub fn number(self) -> u32
        ensures { result ≡ refusal_number self }
    {
        match self {
            Refusal::Size => 1,
            Refusal::Malformed => 2,
            Refusal::Operand => 3,
            Refusal::NoNotice => 4,
            Refusal::TimeLimit => 5,
            Refusal::Idle => 6,
            Refusal::Accumulator => 7,
            Refusal::Layout => 8,
            Refusal::Full => 10,
        }
    }
}

#[derive(Clone, Copy)]
pub struct Counts {
    pub heads: u32,
    pub processes: u32,
    pub plains: u32,
}

// The latest time: 2^40 - 1 ticks.
pub const TIME_LIMIT: u64 = 1099511627775;

impl Counts {
    pub const MAX_HEADS: u32 = 64;

    pub const MAX_PROCESSES: u32 = 1024;

    pub const MAX_PLAINS: u32 = 3008;

    // The most members a set may have.
    pub const MAX_MEMBERS: u32 = 512;

    // Counts within their limits, or the refusal.
    #[tactic(auto, unfolding(crate::specs::Counts::made_of))]
    pub fn new(heads: u32, processes: u32, plains: u32) -> Result<Counts, Refusal>
        ensures { result ≡ made_of (record { heads = heads; processes = processes; plains = plains }) }
    {
        let c = Counts {
            heads,
            processes,
            plains,
        };
        if c.within_limits() {
            Ok(c)
        } else {
            Err(Refusal::Size)
        }
    }

    // Are the counts within their limits?
    #[tactic(auto, unfolding(crate::specs::Counts::in_limits))]
    pub fn within_limits(self) -> bool
        ensures { result ≡ in_limits self }
    {
        self.heads <= Counts::MAX_HEADS
            && 1 <= self.processes
            && self.processes <= Counts::MAX_PROCESSES
            && self.plains <= Counts::MAX_PLAINS
    }

    // How many linkages there are.
    pub fn total(self) -> usize
        ensures { result ≡ total self }
    {
        self.heads as usize + self.processes as usize + self.plains as usize
    }

    // Main is the first process.
    pub fn main(self) -> usize
        ensures { result ≡ main self }
    {
        self.heads as usize + 1
    }

    pub fn is_head(self, i: u32) -> bool
        ensures { result ≡ is_head self i }
    {
        1 <= i && i <= self.heads
    }

    pub fn is_process(self, i: u32) -> bool
        ensures { result ≡ is_process self i }
    {
        self.heads < i && i as usize <= self.heads as usize + self.processes as usize
    }

    // Links are processes and plain links.
    pub fn is_link(self, i: u32) -> bool
        ensures { result ≡ is_link self i }
    {
        self.heads < i && i as usize <= self.total()
    }

    pub fn is_linkage(self, i: u32) -> bool
        ensures { result ≡ is_linkage self i }
    {
        1 <= i && i as usize <= self.total()
    }

    // The place in the axis of the process with this number; 0 for none and for a head.
    pub fn place_of(self, i: u32) -> u32
        ensures { result ≡ place_of self i }
    {
        i.saturating_sub(self.heads)
    }
}
