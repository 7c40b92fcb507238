ghost use Rattle.std.specs.Prelude.{List, [], ◌∷◌};
ghost use Rattle.machine.specs.declared.observer.Event.{Event};
ghost use Rattle.machine.specs.declared.observer.Event.TheVariants.{Work, Touch};
ghost use Rattle.machine.specs.Telling.{Tells};

use crate::cache::Touched;

// One touch of memory: the cycle at which it begins, what is touched, and what that does.
#[derive(Clone, Copy, PartialEq, Eq, Debug)]
pub struct Access {
    pub start: u64,
    pub address: u32,
    pub touched: Touched,
}

// What a play does: work from a cycle on, or a touch.
#[derive(Clone, Copy, PartialEq, Eq, Debug)]
pub enum Event {
    Work(u64, u32),
    Touch(Access),
}

// Is told what a play does, in order. Its ghost member says what it may have been told by now: of any such list, one event more makes the next.
pub trait Observer {
    ghost told: { Self → List Event → Type 0 };

    fn work(&mut self, start: u64, cycles: u32)
        ensures { Tells (told self.old) (told self.new) (Work start cycles ∷ []) };

    fn touch(&mut self, access: Access)
        ensures { Tells (told self.old) (told self.new) (Touch access ∷ []) };
}
