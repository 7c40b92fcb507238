// The tables behind worked programs, entry by entry, and their times.
#![tactic(auto)]

#[cfg(test)]
mod tests {
    use cycles::Timed;
    use cycles::fault::{Fault, Rule};
    use engine::tabulate::{TabulateError, tabulate};
    use std::test::Fail;
    use tables::slot::{Firsts, telling_at};
    use timing::times;
    use trails::ChoiceNumber;

    fn from_choice(number: u64) -> Firsts {
        Firsts {
            long: ChoiceNumber(number),
            short: ChoiceNumber(number),
        }
    }

    // Either 0 or 1, then 0, in one set of two ways: slots of sixteen words.
    const EITHER: [u32; 17] = [1, 2, 1, 1, 10, 1, 2, 3, 1, 0, 0, 1, 1, 0, 1, 0, 0];

    #[test]
    fn both_branches_then_a_touch(rt: HostRuntime) {
        let mut slots = [7; 32];
        let mut store = [7; 2];
        let table = tabulate(&EITHER, from_choice(0), 2, &mut slots, &mut store);
        assert_eq!(rt; table.map(|table| table.entries), Ok(2));
        assert_eq!(rt; &slots[..9], [1, 0, 11, 0, 1, 0, 0, 1, 1].as_slice());
        assert_eq!(rt; &slots[9..16], [11, 0, 1, 0, 0, 1, 1].as_slice());
        assert_eq!(rt; &slots[16..25], [1, 2, 20, 0, 1, 0, 0, 0, 1].as_slice());
        assert_eq!(rt; &store[..], [7, 7].as_slice());
    }

    #[test]
    fn room_for_one_state_too_few(rt: HostRuntime) {
        let mut slots = [0; 32];
        let mut store = [0; 2];
        let crowded = tabulate(&EITHER, from_choice(0), 1, &mut slots, &mut store);
        assert_eq!(rt; crowded, Err(TabulateError::Crowded));
        let none = tabulate(&EITHER, from_choice(0), 0, &mut slots, &mut store);
        assert_eq!(rt; none, Err(TabulateError::Crowded));
        let few = tabulate(&EITHER, from_choice(0), 3, &mut slots, &mut store);
        assert_eq!(rt; few, Err(TabulateError::Few));
        let cut = tabulate(&EITHER[..16], from_choice(0), 2, &mut slots, &mut store);
        let fault = Fault {
            place: 14,
            rule: Rule::TouchCut,
        };
        assert_eq!(rt; cut, Err(TabulateError::NoProgram(fault)));
    }

    // 0 1 0 2 1 in one set of two ways: a miss, a miss, a hit and two misses.
    const FIVE: [u32; 25] = [
        1, 2, 1, 1, 10, 1, 2, 1, 0, 0, 2, 1, 1, 0, 2, 1, 0, 0, 2, 1, 2, 0, 1, 1, 0,
    ];

    // The newest line stands first.
    #[test]
    fn five_touches(rt: HostRuntime) {
        let mut slots = [7; 16];
        let table = tabulate(&FIVE, from_choice(0), 1, &mut slots, &mut []);
        assert_eq!(rt; table.map(|table| table.entries), Ok(1));
        assert_eq!(rt; &slots[..9], [2, 3, 41, 0, 0, 0, 0, 0, 0].as_slice());
        assert_eq!(rt; &slots[9..], [41, 0, 0, 0, 0, 0, 0].as_slice());
    }

    // 0, 1 and 2 in a row, in two sets of one way with lines of two words.
    const ROW: [u32; 12] = [2, 1, 2, 1, 10, 1, 4, 3, 1, 0, 1, 1];

    #[test]
    fn a_row(rt: HostRuntime) {
        let mut slots = [7; 16];
        let table = tabulate(&ROW, from_choice(0), 1, &mut slots, &mut []);
        assert_eq!(rt; table.map(|table| table.entries), Ok(1));
        assert_eq!(rt; &slots[..2], [1, 2].as_slice());
        assert_eq!(rt; telling_at(&slots, 2).time, 21);
        assert_eq!(rt; telling_at(&slots, 9).time, 21);
    }

    // 1 2 3 4 1 2 5 1 2 3 4 5 under FIFO, in one set of so many ways.
    fn walk(ways: u32) -> [u32; 53] {
        [
            1, ways, 1, 0, 1, 0, 2, 1, 1, 0, 2, 1, 2, 0, 2, 1, 3, 0, 2, 1, 4, 0, 2, 1, 1, 0, 2, 1,
            2, 0, 2, 1, 5, 0, 2, 1, 1, 0, 2, 1, 2, 0, 2, 1, 3, 0, 2, 1, 4, 0, 1, 5, 0,
        ]
    }

    #[test]
    fn fifo_with_a_way_more_is_slower(rt: HostRuntime) {
        let mut slots = [7; 17];
        let three = tabulate(&walk(3), from_choice(0), 1, &mut slots, &mut []);
        assert_eq!(rt; three.map(|table| table.entries), Ok(1));
        assert_eq!(rt; &slots[..3], [5, 4, 6].as_slice());
        assert_eq!(rt; telling_at(&slots, 3).time, 9);
        assert_eq!(rt; telling_at(&slots, 10).time, 9);
        let mut slots = [7; 18];
        let four = tabulate(&walk(4), from_choice(0), 1, &mut slots, &mut []);
        assert_eq!(rt; four.map(|table| table.entries), Ok(1));
        assert_eq!(rt; &slots[..4], [6, 5, 4, 3].as_slice());
        assert_eq!(rt; telling_at(&slots, 4).time, 10);
        assert_eq!(rt; telling_at(&slots, 11).time, 10);
    }

    // 4,096 rounds of 4,096 rounds of a touch in 64 sets: 8,064 misses, and the last 64 lines are left.
    const MANY: [u32; 15] = [64, 1, 64, 1, 10, 1, 4, 4096, 4, 4096, 1, 0, 2, 1, 1];

    #[test]
    fn many_rounds(rt: HostRuntime) {
        let mut slots = [7; 78];
        let table = tabulate(&MANY, from_choice(0), 1, &mut slots, &mut []);
        assert_eq!(rt; table.map(|table| table.entries), Ok(1));
        assert_eq!(rt; slots[0], 65);
        assert_eq!(rt; slots[63], 128);
        assert_eq!(rt; telling_at(&slots, 64).time, 16_777_216 + 9 * 8_064);
        assert_eq!(rt; telling_at(&slots, 71).time, 16_777_216 + 9 * 8_064);
    }

    // Eight loops of two rounds around either 0 or 1: four states, of one line or of both.
    const EIGHT: [u32; 29] = [
        1, 2, 1, 1, 10, 1, 4, 2, 4, 2, 4, 2, 4, 2, 4, 2, 4, 2, 4, 2, 4, 2, 3, 1, 0, 0, 1, 1, 0,
    ];

    #[test]
    fn eight_loops(rt: HostRuntime) {
        let mut slots = [7; 128];
        let mut store = [7; 256];
        let table = tabulate(&EIGHT, from_choice(0), 8, &mut slots, &mut store);
        assert_eq!(rt; table.map(|table| table.entries), Ok(4));
        assert_eq!(rt; &slots[..2], [1, 0].as_slice());
        assert_eq!(rt; &slots[16..18], [1, 2].as_slice());
        assert_eq!(rt; &slots[32..34], [2, 1].as_slice());
        assert_eq!(rt; &slots[48..50], [2, 0].as_slice());
        // one line: one miss and 255 hits; both lines: two misses, in every play
        assert_eq!(rt; telling_at(&slots, 2).time, 265);
        assert_eq!(rt; telling_at(&slots, 9).time, 265);
        assert_eq!(rt; telling_at(&slots, 18).time, 274);
        assert_eq!(rt; telling_at(&slots, 25).time, 274);
        assert_eq!(rt; telling_at(&slots, 41).count, 256);
    }

    // A hundred rounds of either 0 or 1 in one line: slots of fifteen words.
    const HUNDRED: [u32; 15] = [1, 1, 1, 1, 10, 1, 4, 100, 3, 1, 0, 0, 1, 1, 0];

    #[test]
    fn a_hundred_choices(rt: HostRuntime) {
        let mut slots = [0; 60];
        let mut store = [0; 64];
        let table = tabulate(&HUNDRED, from_choice(0), 4, &mut slots, &mut store);
        assert_eq!(rt; table.map(|table| table.entries), Ok(2));
        assert_eq!(rt; slots[0], 1);
        assert_eq!(rt; slots[15], 2);
        assert_eq!(rt; telling_at(&slots, 1).time, 1000);
        assert_eq!(rt; telling_at(&slots, 1).recorded, 100);
        assert_eq!(rt; telling_at(&slots, 8).time, 109);
        assert_eq!(rt; telling_at(&slots, 23).time, 109);
        assert_eq!(rt; telling_at(&slots, 23).count, 100);
    }

    #[test]
    fn a_record_that_stops_and_one_that_begins_later(rt: HostRuntime) {
        let mut slots = [0; 60];
        let mut none: [u32; 0] = [];
        let table = tabulate(&HUNDRED, from_choice(0), 4, &mut slots, &mut none);
        assert_eq!(rt; table.map(|table| table.entries), Ok(2));
        assert_eq!(rt; telling_at(&slots, 1).count, 100);
        assert_eq!(rt; telling_at(&slots, 1).recorded, 32);
        assert_eq!(rt; telling_at(&slots, 8).head, 0xffff_ffff);
        let table = tabulate(&HUNDRED, from_choice(96), 4, &mut slots, &mut none);
        assert_eq!(rt; table.map(|table| table.entries), Ok(2));
        assert_eq!(rt; telling_at(&slots, 1).recorded, 4);
        assert_eq!(rt; telling_at(&slots, 8).head, 15);
    }

    // The words that must be lent for the either and two states.
    const EITHER_WORK: usize = 4096 + 8 * 17 + 2048 * 3;

    #[test]
    fn times_of_both_branches(rt: HostRuntime) {
        let mut work = [3; EITHER_WORK];
        let mut choices = [9; 3];
        let both = times(&EITHER, 2, &mut choices, &mut work);
        assert_eq!(rt; both, Timed::Times(20, 11, 1, 1));
        assert_eq!(rt; &choices[..], [0, 1, 9].as_slice());
    }

    // Enough for any of the worked programs and ten states.
    const WORK: usize = 4096 + 8 * 53 + 2048 * 11;

    #[test]
    fn times_without_choices(rt: HostRuntime) {
        let mut work = [3; WORK];
        let five = times(&FIVE, 1, &mut [], &mut work);
        assert_eq!(rt; five, Timed::Times(41, 41, 0, 0));
        let row = times(&ROW, 1, &mut [], &mut work);
        assert_eq!(rt; row, Timed::Times(21, 21, 0, 0));
        let three = times(&walk(3), 1, &mut [], &mut work);
        assert_eq!(rt; three, Timed::Times(9, 9, 0, 0));
        let four = times(&walk(4), 1, &mut [], &mut work);
        assert_eq!(rt; four, Timed::Times(10, 10, 0, 0));
        let many = times(&MANY, 1, &mut [], &mut work);
        assert_eq!(rt; many, Timed::Times(16849792, 16849792, 0, 0));
    }

    // The longest misses with each choice, and the shortest makes one choice for good.
    #[test]
    fn times_of_a_hundred_choices(rt: HostRuntime) {
        let mut work = [3; WORK];
        let mut choices = [9; 200];
        let hundred = times(&HUNDRED, 4, &mut choices, &mut work);
        assert_eq!(rt; hundred, Timed::Times(1000, 109, 100, 100));
        let mut plays = choices.chunks(100);
        assert_eq!(rt; plays.next().map(runs), Some(100));
        assert_eq!(rt; plays.next().map(runs), Some(1));
    }

    // The longest misses for both lines, and the shortest for one.
    #[test]
    fn times_of_eight_loops(rt: HostRuntime) {
        let mut work = [3; WORK];
        let mut choices = [9; 512];
        let eight = times(&EIGHT, 8, &mut choices, &mut work);
        assert_eq!(rt; eight, Timed::Times(274, 265, 256, 256));
        let mut plays = choices.chunks(256);
        assert_eq!(rt; plays.next().map(runs) > Some(1), true);
        assert_eq!(rt; plays.next().map(runs), Some(1));
    }

    #[test]
    fn refusals_leave_the_choices(rt: HostRuntime) {
        let mut work = [3; EITHER_WORK];
        let mut choices = [9; 2];
        let few = times(&EITHER, 2, &mut choices, &mut work[1..]);
        assert_eq!(rt; few, Timed::Few);
        let most = times(&EITHER, 4294967295, &mut choices, &mut work);
        assert_eq!(rt; most, Timed::Few);
        let none = times(&EITHER, 0, &mut choices, &mut work);
        assert_eq!(rt; none, Timed::Crowded);
        let one = times(&EITHER, 1, &mut choices, &mut work);
        assert_eq!(rt; one, Timed::Crowded);
        let cut = times(&EITHER[..16], 2, &mut choices, &mut work);
        assert_eq!(rt; cut, Timed::NoProgram);
        assert_eq!(rt; choices[0], 9);
        assert_eq!(rt; choices[1], 9);
    }

    #[test]
    fn full_leaves_the_choices(rt: HostRuntime) {
        let mut work = [3; EITHER_WORK];
        let mut choices = [9; 2];
        let short = times(&EITHER, 2, &mut choices[..1], &mut work);
        assert_eq!(rt; short, Timed::OutFull);
        let empty = times(&EITHER, 2, &mut choices[..0], &mut work);
        assert_eq!(rt; empty, Timed::OutFull);
        assert_eq!(rt; choices[0], 9);
    }

    // 1,024 rounds of 64 rounds of either 0 or 1 in one line: more choices than the store of one pass holds.
    const LONG: [u32; 17] = [1, 1, 1, 1, 10, 1, 4, 1024, 4, 64, 3, 1, 0, 0, 1, 1, 0];

    // How many runs of equal choices there are.
    fn runs(choices: &[u8]) -> usize {
        choices.chunk_by(|before, choice| before == choice).count()
    }

    #[test]
    fn further_passes_tell_the_rest(rt: HostRuntime) -> Result<(), Fail> {
        let mut work = vec![in rt.alloc(); 0u32; 4096 + 8 * 17 + 2048 * 5]?;
        let mut choices = vec![in rt.alloc(); 7u8; 131073]?;
        let rest = times(&LONG, 4, &mut choices, &mut work);
        assert_eq!(rt; rest, Timed::Times(655360, 65545, 65536, 65536));
        let mut plays = choices.chunks(65536);
        assert_eq!(rt; plays.next().map(runs), Some(65536));
        assert_eq!(rt; plays.next().map(runs), Some(1));
        assert_eq!(rt; choices.get(131072).copied(), Some(7));
        Ok(())
    }
}
