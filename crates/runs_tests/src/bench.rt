use crate::marks::{of_counts, of_entries, of_matrices, of_rows, of_sets, of_wire, of_words};
use model::{Machine, Operation, Watch, names};
use rows::{Matrix, Row};
use runs::{Fitted, Open};
use std::alloc::{AllocError, Global};
use std::test::Fail;
use tables::{Counts, Entry, Setup, Slot, Tables};

// The tables of a run, owned.
#[derive(Drop)]
pub struct Bench<M: Machine + Drop> {
    pub wire: Vec<Slot>,
    pub words: Vec<Option<M::Op>>,
    pub votes: Vec<Option<Matrix>>,
    pub commits: Vec<Option<Matrix>>,
    pub kept: Vec<Row>,
    pub executed: Vec<Option<Entry<M::Op>>>,
    pub machines: Vec<M>,
    pub counts: Vec<Counts>,
    pub accused: Vec<u16>,
}

// How long tables are.
#[derive(Clone, Copy)]
pub struct Sizes {
    pub wire: u32,
    pub words: u32,
    pub votes: u32,
    pub commits: u32,
    pub kept: u32,
    pub executed: u32,
    pub machines: u32,
    pub counts: u32,
    pub accused: u32,
}

// A list of so many items, each what the call gives.
fn list<T: Drop, F: Fn() -> T>(heap: Global, n: u32, item: F) -> Result<Vec<T>, AllocError>
    requires { F.IsAlwaysCallable item }
{
    (0..n).map(|_| item()).collect(heap)
}

impl<M: Machine + Drop> Bench<M> {
    // Tables of these lengths. Counts, accusation sets and kept rows are other than an opened run has.
    pub fn new(heap: Global, n: Sizes, start: &M) -> Result<Bench<M>, AllocError> {
        let empty = Slot {
            bytes: [0xEE; 194],
            len: 3,
        };
        let used = Counts {
            submitted: 9,
            executed: 9,
        };
        Ok(Bench {
            wire: list(heap, n.wire, || empty)?,
            words: list(heap, n.words, || None)?,
            votes: list(heap, n.votes, || None)?,
            commits: list(heap, n.commits, || None)?,
            kept: list(heap, n.kept, || Row::zero(2))?,
            executed: list(heap, n.executed, || None)?,
            machines: list(heap, n.machines, || start.copy())?,
            counts: list(heap, n.counts, || used)?,
            accused: list(heap, n.accused, || 7)?,
        })
    }

    // The tables, lent.
    pub fn lend(&mut self) -> Tables<'_, M> {
        Tables {
            wire: self.wire.as_mut_slice(),
            words: self.words.as_mut_slice(),
            votes: self.votes.as_mut_slice(),
            commits: self.commits.as_mut_slice(),
            kept: self.kept.as_mut_slice(),
            executed: self.executed.as_mut_slice(),
            machines: self.machines.as_mut_slice(),
            counts: self.counts.as_mut_slice(),
            accused: self.accused.as_mut_slice(),
        }
    }
}

impl Sizes {
    // The lengths that tables need for f, a watch of length L and so many places on the wire.
    pub fn of(f: u8, length: u8, wire: u32) -> Sizes {
        let n = 3 * f as u32 + 1;
        let squares = n * n;
        let votes = squares.saturating_mul(length as u32);
        Sizes {
            wire,
            words: votes.saturating_mul(n),
            votes,
            commits: votes,
            kept: squares,
            executed: votes,
            machines: n,
            counts: n,
            accused: n,
        }
    }
}

impl Sizes {
    // One element fewer in one of the nine tables.
    // Kept: a number for the table, since the test that says so goes over all nine.
    pub fn less(self, which: u8) -> Sizes {
        let mut n = self;
        match which {
            0 => n.wire = n.wire.saturating_sub(1),
            1 => n.words = n.words.saturating_sub(1),
            2 => n.votes = n.votes.saturating_sub(1),
            3 => n.commits = n.commits.saturating_sub(1),
            4 => n.kept = n.kept.saturating_sub(1),
            5 => n.executed = n.executed.saturating_sub(1),
            6 => n.machines = n.machines.saturating_sub(1),
            7 => n.counts = n.counts.saturating_sub(1),
            _ => n.accused = n.accused.saturating_sub(1),
        }
        n
    }
}

// What lies behind the first n items.
fn rest<T>(items: &[T], n: u32) -> &[T] {
    items.get(n as usize..).unwrap_or(items)
}

impl<M: Machine + Drop> Bench<M> {
    // One element more in each table; among the words this one, or an empty place.
    pub fn lengthen(
        &mut self,
        machine: &M,
        u: M::Op,
        word: Option<M::Op>,
    ) -> Result<(), AllocError> {
        self.wire.push(Slot {
            bytes: [0xDD; 194],
            len: 194,
        })?;
        self.words.push(word)?;
        self.votes.push(Some(Matrix::zero(3)))?;
        self.commits.push(Some(Matrix::zero(5)))?;
        self.kept.push(Row::zero(7))?;
        self.executed.push(Some(Entry {
            origin: 1,
            sequence: 2,
            operation: u,
        }))?;
        self.machines.push(machine.copy())?;
        self.counts.push(Counts {
            submitted: 3,
            executed: 4,
        })?;
        self.accused.push(15)?;
        Ok(())
    }

    // The mark of what lies behind the first elements, so many, of all tables but the machines.
    pub fn behind(&self, n: Sizes) -> u64 {
        let h = of_wire(0, rest(self.wire.as_slice(), n.wire));
        let h = of_words(h, rest(self.words.as_slice(), n.words));
        let h = of_matrices(h, rest(self.votes.as_slice(), n.votes));
        let h = of_matrices(h, rest(self.commits.as_slice(), n.commits));
        let h = of_rows(h, rest(self.kept.as_slice(), n.kept));
        let h = of_entries(h, rest(self.executed.as_slice(), n.executed));
        let h = of_counts(h, rest(self.counts.as_slice(), n.counts));
        of_sets(h, rest(self.accused.as_slice(), n.accused))
    }
}

// Where the words of an origin's sequence begin at a station.
pub fn word_place(watch: Watch, station: u8, origin: u8, sequence: u8) -> u32 {
    let n = watch.stations() as u32;
    let row = station as u32 * n + origin as u32;
    let before = row
        .wrapping_mul(watch.limit as u32)
        .wrapping_add(sequence as u32);
    before.wrapping_sub(1).wrapping_mul(n)
}

// A row of so many entries, all of this value.
pub fn even(side: u8, value: u8) -> Row {
    // Kept: an entry is set by its place, and the row has no iterator that writes.
    let mut row = Row::zero(side as usize);
    for k in 0..side as usize {
        row.set(k, value);
    }
    row
}

// Makes the item at this place this one, if there is such a place.
pub fn put<T: Drop>(items: &mut [T], at: usize, value: T) {
    if let Some(item) = items.get_mut(at) {
        *item = value;
    }
}

// Makes the place hold the operation, if there is such a place.
fn put_word<O: Operation + Drop>(words: &mut [Option<O>], at: usize, u: &O) {
    if let Ok(copy) = O::unpack(u.pack()) {
        put(words, at, Some(copy));
    }
}

// From this place on, the speakers of the set hold the operation.
pub fn hold<O: Operation + Drop>(words: &mut [Option<O>], from: u32, speakers: u16, u: &O) {
    // Kept: a `for` with an `if`, since of a filtered range the check does not know how large its numbers are.
    for j in 0..16 {
        if names(speakers, j) {
            put_word(words, from as usize + j, u);
        }
    }
}

// A place of the wire with these bytes.
pub fn holding(bytes: &[u8]) -> Slot {
    let mut all = [0xEE; 194];
    let len = bytes.len().min(194);
    all[..len].copy_from_slice(&bytes[..len]);
    Slot {
        bytes: all,
        len: len as u8,
    }
}

// The setup with these numbers: f, the watch length, the leader and the set of the faulty stations.
// Kept: four numbers in a row, here and in what calls this, since a case of a test is one line of numbers.
fn setup(numbers: (u32, u32, u32, u32)) -> Setup {
    let (faults, length, leader, faulty) = numbers;
    Setup {
        faults,
        length,
        leader,
        faulty,
    }
}

// The number of the refusal that fitting answers, or 0.
// Kept: a number, since the cases are lists of plain numbers with what is to be answered, and 0 is no reason's.
fn fit<M: Machine>(t: &Tables<'_, M>, numbers: (u32, u32, u32, u32)) -> u8 {
    Fitted::new(setup(numbers), t)
        .err()
        .map_or(0, |e| e.reason.number())
}

// How many of these numbers, one after the other, are answered as is wanted for tables of these lengths, before one is not.
pub fn fits<M: Machine + Drop>(
    heap: Global,
    n: Sizes,
    start: &M,
    cases: &[((u32, u32, u32, u32), u8)],
) -> Result<usize, AllocError> {
    let mut bench = Bench::new(heap, n, start)?;
    let t = bench.lend();
    let first = cases
        .iter()
        .position(|(numbers, wanted)| fit(&t, *numbers) != *wanted);
    Ok(first.unwrap_or(cases.len()))
}

// The fitted run with these numbers: f, the watch length, the leader and the set of the faulty stations.
pub fn fitted<M: Machine>(
    numbers: (u32, u32, u32, u32),
    t: &Tables<'_, M>,
) -> Result<Fitted, Fail> {
    Fitted::new(setup(numbers), t).map_err(|_| Fail::new("not fitted"))
}

// The same run, opened.
pub fn opened<M: Machine + Drop>(
    numbers: (u32, u32, u32, u32),
    t: &mut Tables<'_, M>,
    start: &M,
) -> Result<Open, Fail> {
    let run = fitted(numbers, t)?;
    run.open(t, start).map_err(|_| Fail::new("not opened"))
}
