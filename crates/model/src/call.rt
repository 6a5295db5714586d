// The calls and queries of SIMSET and SIMULATION that document 01 names, as values. Operands are linkages' numbers, 0 for none.

// What a set call does. X is the link it is called on, Y the second party; clear and into take a head. The first four answer the head of
// the set that X left, or none if it was in none; clear answers how many it removed.
#[derive(Clone, Copy)]
pub enum SetCall {
    // X leaves its set, if it is in one.
    Out(u32),
    // X leaves its set, then stands right behind Y if Y is a head or is then linked.
    Follow(u32, u32),
    // X leaves its set, then stands right in front of Y if Y is a head or is then linked.
    Precede(u32, u32),
    // X leaves its set, then stands last in the set of the head Y.
    Into(u32, u32),
    // All members leave the set of the head.
    Clear(u32),
}

#[derive(Clone, Copy)]
pub enum SequencingCall {
    // Current waits T ticks: its notice moves behind all of equal or smaller time.
    Hold(i64),
    // Current's notice is removed.
    Passivate,
    // Current goes last into the set of the head, and its notice is removed; the head of the set that it left is answered.
    Wait(u32),
    // The process's notice is removed, if it has one.
    Cancel(u32),
    // Clause, X, Y, T: X is scheduled as the clause says, if it is idle and not terminated.
    Activate(u32, u32, u32, i64),
    // Clause, X, Y, T: X is scheduled as the clause says, if it is not terminated, and its earlier notice is dropped.
    Reactivate(u32, u32, u32, i64),
    // Current is marked terminated and its notice removed; main can't finish.
    Finish,
}

#[derive(Clone, Copy)]
pub enum Query {
    // The first and the last member of a head, or none.
    First(u32),
    Last(u32),
    // The link after a linkage and the one before it, or none: of a head the first and the last.
    Suc(u32),
    Pred(u32),
    // Has a head no members, and how many has it?
    Empty(u32),
    Cardinal(u32),
    // The process of the first notice, and its time.
    Current,
    Time,
    // Has a process no notice; is it terminated?
    Idle(u32),
    Terminated(u32),
    // The time of a process's notice, 6 where it has none; the process of the notice after it, or none.
    Evtime(u32),
    Nextev(u32),
}
