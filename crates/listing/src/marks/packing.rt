ghost use Rattle.std.specs.Prelude.{◌≡◌, ◌<◌, ◌≤◌, false, [], ◌∷◌, ◌++◌, length, IfOk, IfErr, OnOk, slice_index_or};
ghost use Rattle.listing.specs.Lines.{newlines_in, line_of, LineBehind};
ghost use Rattle.listing.specs.Packed.{ahead, marks_of};
ghost use Rattle.std.specs.Iterator.{YieldsFirst, item_count};

use super::{Full, Marks};
use std::alloc::{AllocError, Global};

impl Marks {
    // Room for so many marks, allocated once. The line behind the last mark has to have a number, so `usize::MAX` is too much.
    #[tactic(auto, unfolding(crate::specs::Packed::marks_of, crate::specs::Packed::spread, crate::specs::Packed::bits_of))]
    pub fn new(heap: Global, room: usize) -> Result<Marks, AllocError>
        ensures { IfOk result (λ m. (marks_of m ≡ []) × (m.room ≡ room)) }
    {
        if room == usize::MAX {
            return Err(AllocError);
        }
        let full = Vec::with_capacity(heap, room / 32)?;
        Ok(Marks {
            full,
            head: 0,
            held: 0,
            room,
        })
    }

    // How many marks there are.
    #[tactic(auto, using(crate::proofs::Bits::length_marks))]
    fn len(&self) -> usize
        ensures { result ≡ length (marks_of self.now) }
    {
        32 * self.full.len() + self.held
    }

    // Puts a mark behind the others, a newline's or else a word's, if there is room for it.
    #[tactic(auto, using(crate::proofs::Bits::packed), unfolding(crate::specs::Packed::marks_of))]
    pub fn push(&mut self, newline: bool) -> Result<(), Full>
        ensures pushed { OnOk result ((length (marks_of self.old) < self.old.room) × (marks_of self.new ≡ marks_of self.old ++ (newline ∷ []))) }
        ensures refused { IfErr result (λ full. (self.old.room ≤ length (marks_of self.old)) × (full.room ≡ self.old.room) × (marks_of self.new ≡ marks_of self.old)) }
        ensures room { self.new.room ≡ self.old.room }
    {
        if self.len() == self.room {
            return Err(Full { room: self.room });
        }
        self.head = self.head * 2 + u32::from(newline);
        self.held += 1;
        if self.held == 32 {
            self.full.push_reserved(self.head);
            self.head = 0;
            self.held = 0;
        }
        Ok(())
    }

    #[tactic(auto, using(crate::proofs::Bits::packed))]
    fn is_newline(&self, at: usize) -> bool
        requires { at < length (marks_of self.now) }
        ensures { result ≡ slice_index_or (marks_of self.now) at false }
    {
        let (word, held) = match self.full.get(at / 32) {
            Some(word) => (*word, 32),
            None => (self.head, self.held),
        };
        (word >> (held - 1 - at % 32)) % 2 == 1
    }

    fn iter(&self) -> Iter<'_>
        ensures { ahead result ≡ marks_of self.now }
    {
        Iter { marks: self, at: 0 }
    }

    // How many marks are newlines.
    #[tactic(auto, using(crate::proofs::Bits::length_marks))]
    pub(crate) fn newlines(&self) -> usize
        ensures value { result ≡ newlines_in (marks_of self.now) }
        ensures bound { result ≤ self.now.room }
    {
        self.iter().filter(|newline| *newline).count()
    }

    // The line, from 1, on which the word number `word`, from 0, stands.
    #[tactic(auto, using(crate::proofs::Bits::length_marks, crate::proofs::Counts::lines))]
    pub fn line_of(&self, word: usize) -> Option<usize>
        ensures value { result ≡ line_of (marks_of self.now) word }
        ensures behind { LineBehind }
    {
        let mut newlines = 0;
        let mut before = word;
        for newline in self.iter() {
            if newline {
                newlines += 1;
            } else if before == 0 {
                return Some(newlines + 1);
            } else {
                before -= 1;
            }
        }
        None
    }
}

// The marks from a place on, true for a newline's.
#[derive(Drop)]
struct Iter<'a> {
    marks: &'a Marks,
    at: usize,
}

impl<'a> Iterator for Iter<'a> {
    type Item = bool;

    ghost next_gives = { YieldsFirst ahead };

    ghost remaining = { item_count ahead };

    #[tactic(auto, using(crate::proofs::Bits::length_marks, std::proofs::lemmas::Grind::common_steps))]
    fn next(&mut self) -> Option<bool> {
        if self.at >= self.marks.len() {
            return None;
        }
        let newline = self.marks.is_newline(self.at);
        self.at += 1;
        Some(newline)
    }
}
