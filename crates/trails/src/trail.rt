ghost use Rattle.std.specs.Prelude.{◌≡◌, ℕ, ◌+◌, ◌%◌, ◌^◌, ◌<◌, ◌≤◌, Bool, ◌⊎◌, List, [], ◌∷◌, ◌++◌, map, length, take, drop, MatchBool, ◌≢◌};
ghost use Rattle.trails.specs.Stores.{Grown, nodes};
ghost use Rattle.trails.specs.Trails.{Lies, Recordable, Shelvable, Sound, Tells, Whole, added, bit, full, record_of, shelved};

use crate::store::{NODE, Store};
use crate::telling::{ChoiceNumber, Telling};

// The choices of a full head.
const HEAD: u32 = 32;

// The most choices that are recorded: the largest number of full heads that fits a word.
const MOST: u32 = 4294967264;

impl Telling {
    // Whether every choice from the first to be recorded on is recorded, so that the next one goes on with the record.
    fn is_whole(self, first: ChoiceNumber) -> bool
        ensures { MatchBool result (Whole first.0 self) (Whole first.0 self → ⊥) }
    {
        first.0 <= self.count && self.count - first.0 == u64::from(self.recorded)
    }

    // Whether the head takes one choice more.
    fn head_has_room(self) -> bool
        ensures { MatchBool result ((self.recorded ≡ 0) ⊎ (self.recorded % 32 ≢ 0)) ((0 < self.recorded) × (self.recorded % 32 ≡ 0)) }
    {
        self.recorded == 0 || self.recorded % HEAD != 0
    }

    // Whether a full head can become a node of the store, at a place that fits a word.
    fn is_shelvable(self, store: &Store<'_>) -> bool
        ensures { MatchBool result (Shelvable (length store.now.words.now) store.now.top self.recorded) (Shelvable (length store.now.words.now) store.now.top self.recorded → ⊥) }
    {
        NODE <= store.words.len() - store.top
            && store.top <= u32::MAX as usize
            && self.recorded < MOST
    }

    // Records one choice more in the head.
    fn add(&mut self, choice: bool)
        requires head { self.old.head < 2 ^ 31 }
        requires few { self.old.recorded + 1 < 2 ^ 32 }
        ensures { self.new ≡ added self.old choice }
    {
        self.head = self.head * 2 + u32::from(choice);
        self.recorded += 1;
    }

    // Makes the full head a node, so that the head is empty.
    #[tactic(auto, using(crate::proofs::Fronts::grown_pushed))]
    fn shelve(&mut self, store: &mut Store<'_>)
        requires room { store.old.top + 2 ≤ length store.old.words.now }
        requires place { store.old.top < 2 ^ 32 }
        ensures telling { self.new ≡ shelved store.old.top self.old }
        ensures grown { Grown store.old store.new }
        ensures top { store.new.top ≡ store.old.top + 2 }
        ensures pushed { nodes store.new ≡ nodes store.old ++ (self.old.parent ∷ (self.old.head ∷ [])) }
    {
        let place = store.top as u32;
        store.push(self.parent, self.head);
        self.parent = place;
        self.head = 0;
    }

    // Counts a choice, and records it if the record is whole and there is room.
    pub fn note(&mut self, store: &mut Store<'_>, first: ChoiceNumber, choice: bool)
        requires counts { self.old.count + 1 < 2 ^ 64 }
        requires sound { Sound first.0 (nodes store.old) self.old }
        ensures grown { Grown store.old store.new }
        ensures few { store.new.top ≤ store.old.top + 2 }
        ensures time { self.new.time ≡ self.old.time }
        ensures counts { self.new.count ≡ self.old.count + 1 }
        ensures records { Whole first.0 self.old → Recordable (length store.old.words.now) store.old.top self.old.recorded → self.new.recorded ≡ self.old.recorded + 1 }
        ensures sound { Sound first.0 (nodes store.new) self.new }
        ensures tells { (bs : List Bool) → Tells first.0 (nodes store.old) self.old bs → Tells first.0 (nodes store.new) self.new (bs ++ (choice ∷ [])) }
    {
        let whole = self.is_whole(first);
        self.count += 1;
        if !whole {
            return;
        }
        if !self.head_has_room() {
            if !self.is_shelvable(store) {
                return;
            }
            self.shelve(store);
        }
        self.add(choice);
    }

    // Takes the last choice away from a record that has one, and returns it.
    #[tactic(auto, using(crate::proofs::Told::node_in, crate::proofs::Told::lies_before, crate::proofs::Told::last_node, crate::proofs::Told::last_head))]
    fn pop(&mut self, store: &[u32]) -> bool
        requires some { 0 < self.old.recorded }
        requires lies { Lies store.now (full self.old.recorded) self.old.parent }
        ensures fewer { self.new.recorded + 1 ≡ self.old.recorded }
        ensures lies { Lies store.now (full self.new.recorded) self.new.parent }
        ensures says { record_of store.now self.old ≡ record_of store.now self.new ++ (result ∷ []) }
    {
        let choice = self.head % 2 == 1;
        self.head /= 2;
        self.recorded -= 1;
        // otherwise the head is empty, and the choices before it are in a node
        if !self.head_has_room() {
            let node = self.parent as usize;
            self.parent = store[node];
            self.head = store[node + 1];
        }
        choice
    }

    // Writes the recorded choices to the front of out, 1 for the first branch and 0 for the second, and returns how many they are.
    #[tactic(auto, using(crate::proofs::Told::said_none))]
    pub fn tell(self, store: &[u32], out: &mut [u8]) -> usize
        requires room { self.recorded ≤ length out.old }
        requires lies { Lies store.now (full self.recorded) self.parent }
        ensures many { result ≡ self.recorded }
        ensures written { out.new ≡ map bit (record_of store.now self) ++ drop self.recorded out.old }
        ensures tells { (a : ℕ) (bs : List Bool) → Tells a store.now self bs → out.new ≡ map bit (take self.recorded (drop a bs)) ++ drop self.recorded out.old }
    {
        let count = self.recorded as usize;
        let mut rest = self;
        for at in (0..count).rev() {
            out[at] = u8::from(rest.pop(store));
        }
        count
    }
}

#[cfg(test)]
mod tests {
    use super::*;

    // A play that takes the first branch at every third choice.
    fn played(store: &mut [u32], first: ChoiceNumber, choices: u32) -> Telling
        ensures few { result.recorded ≤ choices }
        ensures lies { Lies store.new (full result.recorded) result.parent }
    {
        let mut telling = Telling::none();
        let mut nodes = Store::new(store);
        for number in 0..choices {
            telling.note(&mut nodes, first, number % 3 == 0);
        }
        telling
    }

    #[test]
    fn records_seventy_choices_in_two_nodes(rt: HostRuntime) {
        let mut store = [0; 5];
        let mut out = [9; 72];
        let telling = played(&mut store, ChoiceNumber(0), 70);
        assert_eq!(rt; telling.tell(&store, &mut out), 70);
        assert_eq!(rt; &out[..4], [1, 0, 0, 1].as_slice());
        assert_eq!(rt; &out[30..36], [1, 0, 0, 1, 0, 0].as_slice());
        assert_eq!(rt; &out[66..], [1, 0, 0, 1, 9, 9].as_slice());
        assert_eq!(rt; store[4], 0);
    }

    #[test]
    fn counts_on_where_the_store_is_full(rt: HostRuntime) {
        let mut store = [0; 3];
        let mut out = [9; 100];
        let telling = played(&mut store, ChoiceNumber(0), 100);
        assert_eq!(rt; telling.count, 100);
        assert_eq!(rt; telling.tell(&store, &mut out), 64);
        assert_eq!(rt; &out[60..66], [1, 0, 0, 1, 9, 9].as_slice());
    }

    #[test]
    fn records_from_the_sixth_choice_on(rt: HostRuntime) {
        let mut store = [0; 2];
        let mut out = [9; 12];
        let telling = played(&mut store, ChoiceNumber(5), 12);
        assert_eq!(rt; telling.tell(&store, &mut out), 7);
        assert_eq!(rt; &out[..8], [0, 1, 0, 0, 1, 0, 0, 9].as_slice());
    }
}
