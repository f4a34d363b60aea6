use crate::bench::{Bench, Sizes, even, hold, holding, opened, put, word_place};
use crate::marks::mark;
use model::{Fault, Machine, Watch};
use runs::{Open, Sent};
use std::alloc::Global;
use std::test::Fail;
use tables::{Counts, Tables};

// A step of a script: a call on an open run, or a change that is made to the tables by hand.
// A show has the bytes that are to be seen, and perhaps the length of the buffer. By hand, a set of speakers comes to hold
// the first operation of the script, or the second, at a station, for an origin and a sequence; a kept row becomes one of
// so many entries of one value; a station's submitted count becomes this; a place of the wire holds these bytes.
// Kept: an enum of steps, since a script is a list in which each step stands beside what is to come of it, and closures of
// different types in one list would be boxed.
#[derive(Clone, Copy)]
pub enum Step<'a> {
    Submit(u32),
    Summarise(u32),
    Propose(u32),
    Speak(u32, &'a [u8]),
    Show(u32, &'a [u8]),
    ShowIn(u32, u8, &'a [u8]),
    Hold(u8, u8, u8, u16),
    HoldSecond(u8, u8, u8, u16),
    Keep(usize, u8, u8),
    Count(usize, u16),
    Lay(usize, &'a [u8]),
}

// What a step answers: a sequence and a place, a place, that the bytes were seen or were not, the number of a refusal, or,
// of a change by hand, that it is done.
#[derive(Clone, Copy, PartialEq, Eq, Debug)]
pub enum Answer {
    Sent(u8, u16),
    At(u16),
    Seen,
    Unlike,
    No(u8),
    Done,
}

fn sent(r: Result<Sent, Fault>) -> Answer {
    match r {
        Ok(sent) => Answer::Sent(sent.sequence, sent.place),
        Err(e) => Answer::No(e.reason.number()),
    }
}

fn placed(r: Result<u16, Fault>) -> Answer {
    match r {
        Ok(place) => Answer::At(place),
        Err(e) => Answer::No(e.reason.number()),
    }
}

// Whether the buffer begins with these bytes, so many, and holds 0xAA from there on.
fn begins(to: &[u8], len: usize, bytes: &[u8]) -> bool {
    let others = to.get(bytes.len()..).unwrap_or(&[]);
    len == bytes.len() && to.starts_with(bytes) && others.iter().all(|b| *b == 0xAA)
}

// Shows the frame at a place in this buffer, which holds 0xAA.
fn show_in<M: Machine>(
    run: &Open,
    t: &Tables<'_, M>,
    place: u32,
    to: &mut [u8],
    bytes: &[u8],
) -> Answer {
    match run.show(t, place, to) {
        Ok(len) => {
            if begins(to, len, bytes) {
                Answer::Seen
            } else {
                Answer::Unlike
            }
        }
        Err(e) => {
            if begins(to, 0, &[]) {
                Answer::No(e.reason.number())
            } else {
                Answer::Unlike
            }
        }
    }
}

// The same in a buffer of so many bytes.
pub fn show<M: Machine>(
    run: &Open,
    t: &Tables<'_, M>,
    place: u32,
    space: u8,
    bytes: &[u8],
) -> Answer {
    let mut to = [0xAA; 255];
    show_in(run, t, place, &mut to[0..space as usize], bytes)
}

fn changed<M: Machine>(
    watch: Watch,
    t: &mut Tables<'_, M>,
    us: (&M::Op, &M::Op),
    step: Step<'_>,
) -> Answer {
    match step {
        Step::Hold(station, origin, sequence, speakers) => hold(
            t.words,
            word_place(watch, station, origin, sequence),
            speakers,
            us.0,
        ),
        Step::HoldSecond(station, origin, sequence, speakers) => hold(
            t.words,
            word_place(watch, station, origin, sequence),
            speakers,
            us.1,
        ),
        Step::Keep(k, side, value) => put(t.kept, k, even(side, value)),
        Step::Count(station, submitted) => put(
            t.counts,
            station,
            Counts {
                submitted,
                executed: 5,
            },
        ),
        Step::Lay(place, bytes) => put(t.wire, place, holding(bytes)),
        _ => return Answer::Unlike,
    }
    Answer::Done
}

fn stepped<M: Machine>(
    run: &mut Open,
    t: &mut Tables<'_, M>,
    us: (&M::Op, &M::Op),
    step: Step<'_>,
) -> Answer {
    match step {
        Step::Submit(station) => sent(run.submit(t, station, us.0)),
        Step::Summarise(station) => placed(run.summarise(t, station)),
        Step::Propose(station) => sent(run.propose(t, station)),
        Step::Speak(station, bytes) => placed(run.speak(t, station, bytes)),
        Step::Show(place, bytes) => show(run, t, place, 255, bytes),
        Step::ShowIn(place, space, bytes) => show(run, t, place, space, bytes),
        _ => changed(run.numbers().watch, t, us, step),
    }
}

// Whether the step answers this, and leaves the tables as they are if it is refused or only shows.
fn goes<M: Machine>(
    run: &mut Open,
    t: &mut Tables<'_, M>,
    us: (&M::Op, &M::Op),
    step: Step<'_>,
    wanted: Answer,
) -> bool {
    let before = mark(t);
    let got = stepped(run, t, us, step);
    let may_change = matches!(&got, Answer::Sent(_, _) | Answer::At(_) | Answer::Done);
    got == wanted && (may_change || mark(t) == before)
}

// How many of these steps, one after the other, go as is wanted, before one does not.
pub fn play<M: Machine>(
    run: &mut Open,
    t: &mut Tables<'_, M>,
    us: (&M::Op, &M::Op),
    steps: &[(Step<'_>, Answer)],
) -> usize {
    // Kept: a loop, since a closure would change the run that it captures.
    for (i, (step, wanted)) in steps.iter().enumerate() {
        if !goes(run, t, us, *step, *wanted) {
            return i;
        }
    }
    steps.len()
}

// The same on a run of its own, with these numbers (f, the watch length, the leader and the set of the faulty stations) and
// tables of these lengths.
pub fn plays<M: Machine + Drop>(
    heap: Global,
    n: Sizes,
    numbers: (u32, u32, u32, u32),
    start: &M,
    us: (&M::Op, &M::Op),
    steps: &[(Step<'_>, Answer)],
) -> Result<usize, Fail> {
    let mut bench = Bench::new(heap, n, start)?;
    let mut t = bench.lend();
    let mut run = opened(numbers, &mut t, start)?;
    Ok(play(&mut run, &mut t, us, steps))
}
