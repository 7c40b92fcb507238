ghost use Rattle.std.specs.Prelude.{◌≡◌, ℕ, ◌+◌, ◌*◌, ◌<◌, ◌≤◌, map, length};
ghost use Rattle.cycles.specs.Code.{Cache, P};
ghost use Rattle.cycles.specs.Reading.{cache as cache_of};
ghost use Rattle.cycles.specs.Rows.{Reads};
ghost use Rattle.tables.specs.Best.{Both};
ghost use Rattle.tables.specs.Showing.{firsts_of};
ghost use Rattle.timing.specs.Retelling.{Fitting, Holding, Still, TellableBy, other, side};
ghost use Rattle.trails.specs.Trails.{bit};

use crate::extreme::telling_of;
use cycles::geometry::Geometry;
use engine::tabulate::tabulate;
use tables::slot::{Extreme, Firsts};
use tables::table::StateIndex;
use trails::ChoiceNumber;

// Whose play is told: an entry of the table behind a program, and which of its two tellings.
#[derive(Clone, Copy, PartialEq, Eq, Debug)]
pub struct Teller<'a> {
    pub words: &'a [u32],
    pub cache: Geometry,
    pub most: u32,
    pub entry: StateIndex,
    pub extreme: Extreme,
}

// The numbers to record from: one extreme's, and 0 for the other, so that its first choices stay at hand.
fn firsts_from(extreme: Extreme, number: u64) -> Firsts
    ensures { (side extreme (firsts_of result) ≡ number) × (side (other extreme) (firsts_of result) ≡ 0) }
{
    match extreme {
        Extreme::Longest => Firsts {
            long: ChoiceNumber(number),
            short: ChoiceNumber(0),
        },
        Extreme::Shortest => Firsts {
            long: ChoiceNumber(0),
            short: ChoiceNumber(number),
        },
    }
}

// One pass more over a program that is known to fit: the same table, with the choices recorded from other numbers on.
fn again(words: &[u32], firsts: Firsts, most: u32, slots: &mut [u32], store: &mut [u32])
    requires { (c : Cache) × Fitting words.now c most (length slots.old) }
    ensures { (c : Cache) (p : P) → Reads words.now c p → Holding c p (firsts_of firsts) slots.new store.new }
{
    tabulate(words, firsts, most, slots, store).unwrap();
}

// Writes all choices of a play: those that the slots have recorded, and by further passes the rest.
pub fn tell_play(teller: Teller<'_>, out: &mut [u8], slots: &mut [u32], store: &mut [u32])
    requires { TellableBy teller (length out.old) slots.old store.old }
    ensures told { (r : TellableBy teller.entry (length out.old) slots.old store.old) → out.new ≡ map bit (side teller.entry.extreme r.e.val).choices }
    ensures still { (r : TellableBy teller.entry (length out.old) slots.old store.old) → side (other teller.entry.extreme) r.a ≡ 0 → Still (cache_of teller.entry.cache) r.fitting.p teller.entry.extreme slots.new store.new }
{
    let extreme = teller.extreme;
    let telling = telling_of(slots, teller.cache, teller.entry, extreme);
    let mut told = telling.tell(store, out);
    while told < out.len() {
        let firsts = firsts_from(extreme, told as u64);
        again(teller.words, firsts, teller.most, slots, store);
        let further = telling_of(slots, teller.cache, teller.entry, extreme);
        told += further.tell(store, &mut out[told..]);
    }
}
