ghost use Rattle.std.specs.Prelude.{◌≡◌, ℕ, ◌+◌, ◌*◌, ◌<◌, ◌≤◌, List, ◌++◌, map, length, take, drop, MatchOption};
ghost use Rattle.cycles.specs.Code.{Cache};
ghost use Rattle.cycles.specs.Reading.{cache as cache_of};
ghost use Rattle.tables.specs.Best.{Both, Table, Val, told};
ghost use Rattle.tables.specs.Showing.{Showing, Shown, Shows, Spendable, cells as cells_of, firsts_of, width as width_of};
ghost use Rattle.tables.specs.Slots.{Absent, Found, chunk};
ghost use Rattle.tables.specs.Tables.{Entry, chose, gather as gathered, join as joined, spent, touched};
ghost use Rattle.trails.specs.Stores.{Grown, nodes};
ghost use Rattle.trails.specs.Trails.{telling_of};

use crate::slot::{Firsts, TELLING, improve, note_slot, spend, telling_at, touch_slot, width};
use cycles::geometry::Geometry;
use machine::rounds::Address;
use trails::Store;

// The number of a state in a table, from 0.
#[derive(Clone, Copy, PartialEq, Eq, Debug)]
pub struct StateIndex(pub usize);

// What is done to every slot alike, with room for the cycles of one work or touch.
trait Change {
    // What it makes of an entry on a cache.
    ghost makes: { Self → Cache → Entry (Both Val) → Entry (Both Val) };

    fn apply(&self, slot: &mut [u32], cache: Geometry)
        requires fits { width_of (cache_of cache) ≤ length slot.old }
        requires long { (telling_of (drop (cells_of (cache_of cache)) slot.old)).time + 65535 < 18446744073709551616 }
        requires short { (telling_of (drop (cells_of (cache_of cache) + 7) slot.old)).time + 65535 < 18446744073709551616 }
        ensures { (a : Both ℕ) (s : List ℕ) (e : Entry (Both Val)) → Shown (cache_of cache) a s slot.old e → Shown (cache_of cache) a s slot.new (makes self.now (cache_of cache) e) };
}

#[derive(Clone, Copy)]
struct Work {
    cycles: u32,
    ghost few: { cycles ≤ 65535 },
}

impl Change for Work {
    ghost makes = { λ w c e. spent told w.cycles e };

    fn apply(&self, slot: &mut [u32], cache: Geometry) {
        spend(slot, cache.cells(), self.cycles);
    }
}

#[derive(Clone, Copy)]
struct Touch {
    address: Address,
}

impl Change for Touch {
    ghost makes = { λ t c e. touched told c t.address.word e };

    fn apply(&self, slot: &mut [u32], cache: Geometry) {
        touch_slot(slot, cache, self.address);
    }
}

// Changes each of the first n slots.
fn change_all<C: Change>(slots: &mut [u32], cache: Geometry, n: usize, change: &C)
    requires fits { width_of (cache_of cache) * n ≤ length slots.old }
    requires room { Spendable (cache_of cache) n slots.old }
    ensures { (a : Both ℕ) (s : List ℕ) (T : Table) → Shows (cache_of cache) a s n slots.old T → Shows (cache_of cache) a s n slots.new (map (C.makes change.now (cache_of cache)) T) }
{
    let width = width(cache);
    for k in 0..n {
        let at = width * k;
        change.apply(&mut slots[at..at + width], cache);
    }
}

// Spends cycles in each of the first n slots.
pub fn spend_all(slots: &mut [u32], cache: Geometry, n: usize, cycles: u32)
    requires fits { width_of (cache_of cache) * n ≤ length slots.old }
    requires few { cycles ≤ 65535 }
    requires room { Spendable (cache_of cache) n slots.old }
    ensures { (a : Both ℕ) (s : List ℕ) (T : Table) → Shows (cache_of cache) a s n slots.old T → Shows (cache_of cache) a s n slots.new (map (spent told cycles) T) }
{
    change_all(slots, cache, n, &Work { cycles });
}

// Touches an address in each of the first n slots.
pub fn touch_all(slots: &mut [u32], cache: Geometry, n: usize, address: Address)
    requires fits { width_of (cache_of cache) * n ≤ length slots.old }
    requires room { Spendable (cache_of cache) n slots.old }
    ensures { (a : Both ℕ) (s : List ℕ) (T : Table) → Shows (cache_of cache) a s n slots.old T → Shows (cache_of cache) a s n slots.new (map (touched told (cache_of cache) address.word) T) }
{
    change_all(slots, cache, n, &Touch { address });
}

// Notes a choice in each of the first n slots.
pub fn note_all(
    slots: &mut [u32],
    cache: Geometry,
    n: usize,
    store: &mut Store<'_>,
    firsts: Firsts,
    choice: bool,
)
    requires fits { width_of (cache_of cache) * n ≤ length slots.old }
    requires showing { Showing (cache_of cache) (firsts_of firsts) (nodes store.old) n slots.old 1 }
    ensures grown { Grown store.old store.new }
    ensures shows { (T : Table) → Shows (cache_of cache) (firsts_of firsts) (nodes store.old) n slots.old T → Shows (cache_of cache) (firsts_of firsts) (nodes store.new) n slots.new (map (chose told choice) T) }
{
    let width = width(cache);
    for j in 0..n {
        let at = width * j;
        note_slot(&mut slots[at..at + width], cache, store, firsts, choice);
    }
}

// The first of m slots with the state of the i-th, which stands behind them.
pub fn find(slots: &[u32], cache: Geometry, m: usize, i: usize) -> Option<StateIndex>
    requires order { m ≤ i }
    requires fits { width_of (cache_of cache) * i + width_of (cache_of cache) ≤ length slots.now }
    ensures { MatchOption result (Absent slots.now (width_of (cache_of cache)) m (take (cells_of (cache_of cache)) (drop (width_of (cache_of cache) * i) slots.now))) (λ k. Found slots.now (width_of (cache_of cache)) m (take (cells_of (cache_of cache)) (drop (width_of (cache_of cache) * i) slots.now)) k.0) }
{
    let cells = cache.cells();
    let width = width(cache);
    let want = width * i;
    let mut k = 0;
    'states: loop {
        if k == m {
            break 'states None;
        }
        let here = width * k;
        let mut j = 0;
        'words: loop {
            if j == cells {
                break 'states Some(StateIndex(k));
            }
            if slots[here + j] != slots[want + j] {
                break 'words;
            }
            j += 1;
        }
        k += 1;
    }
}

// Copies the i-th slot over the m-th, which stands before it or is the same.
fn move_slot(slots: &mut [u32], cache: Geometry, m: usize, i: usize)
    requires order { m ≤ i }
    requires fits { width_of (cache_of cache) * i + width_of (cache_of cache) ≤ length slots.old }
    ensures { slots.new ≡ Rattle.tables.specs.Slots.over slots.old (width_of (cache_of cache) * m) (chunk (width_of (cache_of cache)) i slots.old) }
{
    if m < i {
        let width = width(cache);
        let (front, behind) = slots.split_at_mut(width * i);
        let at = width * m;
        front[at..at + width].copy_from_slice(&behind[..width]);
    }
}

// Joins the i-th slot to the first m: its state's slot keeps the better of each telling, or it becomes the last of them.
pub fn join(slots: &mut [u32], cache: Geometry, m: usize, i: usize) -> usize
    requires order { m ≤ i }
    requires fits { width_of (cache_of cache) * i + width_of (cache_of cache) ≤ length slots.old }
    ensures shows { (a : Both ℕ) (s : List ℕ) (T : Table) (e : Entry (Both Val)) → Shows (cache_of cache) a s m slots.old T → Shown (cache_of cache) a s (chunk (width_of (cache_of cache)) i slots.old) e → Shows (cache_of cache) a s result slots.new (joined told.best T e) }
    ensures few { (m ≤ result) × (result ≤ m + 1) }
    ensures rest { drop (width_of (cache_of cache) * i + width_of (cache_of cache)) slots.new ≡ drop (width_of (cache_of cache) * i + width_of (cache_of cache)) slots.old }
{
    match find(slots, cache, m, i) {
        Some(found) => {
            let cells = cache.cells();
            let width = width(cache);
            let long = telling_at(slots, width * i + cells);
            let short = telling_at(slots, width * i + cells + TELLING);
            let at = width * found.0;
            improve(&mut slots[at..at + width], cells, long, short);
            m
        }
        None => {
            move_slot(slots, cache, m, i);
            m + 1
        }
    }
}

// Joins so many slots from one on, in order, to the first m, and says how many there are then.
pub fn gather(slots: &mut [u32], cache: Geometry, m: usize, from: usize, count: usize) -> usize
    requires order { m ≤ from }
    requires fits { width_of (cache_of cache) * (from + count) ≤ length slots.old }
    ensures shows { (a : Both ℕ) (s : List ℕ) (T U : Table) → Shows (cache_of cache) a s m slots.old T → Shows (cache_of cache) a s count (drop (width_of (cache_of cache) * from) slots.old) U → Shows (cache_of cache) a s result slots.new (gathered told.best T U) }
    ensures few { result ≤ m + count }
{
    let mut all = m;
    for k in 0..count {
        all = join(slots, cache, all, from + k);
    }
    all
}

// Copies the first n slots behind themselves.
pub fn duplicate(slots: &mut [u32], cache: Geometry, n: usize)
    requires { width_of (cache_of cache) * n + width_of (cache_of cache) * n ≤ length slots.old }
    ensures front { take (width_of (cache_of cache) * n) slots.new ≡ take (width_of (cache_of cache) * n) slots.old }
    ensures back { take (width_of (cache_of cache) * n) (drop (width_of (cache_of cache) * n) slots.new) ≡ take (width_of (cache_of cache) * n) slots.old }
{
    let words = width(cache) * n;
    let (front, behind) = slots.split_at_mut(words);
    behind[..words].copy_from_slice(front);
}

// Brings the m slots behind the first n before them.
pub fn exchange(slots: &mut [u32], cache: Geometry, n: usize, m: usize)
    requires { width_of (cache_of cache) * (n + m) ≤ length slots.old }
    ensures { slots.new ≡ take (width_of (cache_of cache) * m) (drop (width_of (cache_of cache) * n) slots.old) ++ (take (width_of (cache_of cache) * n) slots.old ++ drop (width_of (cache_of cache) * (n + m)) slots.old) }
{
    let width = width(cache);
    slots[0..width * (n + m)].rotate_left(width * n);
}
