ghost use Rattle.std.specs.Prelude.{◌≡◌, ◌+◌, ◌≤◌, [], ◌∷◌, ◌++◌, length, take, drop};

// The words of a node: the place of the node before it, and 32 choices.
pub(crate) const NODE: usize = 2;

// Lent words, of which the nodes of trails take the first ones, up to the top.
#[derive(Drop)]
pub struct Store<'a> {
    pub words: &'a mut [u32],
    pub top: usize,
    pub ghost within: { top ≤ length words.now },
}

impl<'a> Store<'a> {
    // With no node yet.
    pub fn new(words: &'a mut [u32]) -> Store<'a>
        ensures same { result.words.ghost_name ≡ words.entry.ghost_name }
        ensures words { result.words.now ≡ words.old }
        ensures top { result.top ≡ 0 }
    {
        Store { words, top: 0 }
    }

    // Puts a node at the top.
    pub(crate) fn push(&mut self, parent: u32, head: u32)
        requires room { self.old.top + 2 ≤ length self.old.words.now }
        ensures same { self.new.words.ghost_name ≡ self.old.words.ghost_name }
        ensures long { length self.new.words.now ≡ length self.old.words.now }
        ensures top { self.new.top ≡ self.old.top + 2 }
        ensures nodes { take self.new.top self.new.words.now ≡ take self.old.top self.old.words.now ++ (parent ∷ (head ∷ [])) }
        ensures rest { drop self.new.top self.new.words.now ≡ drop self.new.top self.old.words.now }
    {
        self.words[self.top] = parent;
        self.words[self.top + 1] = head;
        self.top += NODE;
    }
}
