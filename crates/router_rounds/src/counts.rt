// What a run counts.
ghost use Rattle.std.specs.Prelude.{◌≡◌, ◌+◌, ◌<◌, ◌^◌};
ghost use Rattle.router_rounds.specs.Acts.{count_round};
ghost use Rattle.router_rounds.specs.InWords.{Words, tally, counted, added};

use crate::Totals;

// What is done for one port: nothing, a change, or a change that is counted.
#[derive(Clone, Copy)]
pub(crate) enum Deed {
    Nothing,
    Change,
    AddressError,
    Move,
}

// Each function asks what its own sum needs, and no bound stands in the type: of two bounded totals the sum need not be.
impl Totals {
    // A round begins: it is counted, and has changed nothing yet.
    #[tactic(auto, unfolding(crate::specs::Acts::count_round))]
    pub(crate) fn begin_round(&mut self)
        requires { self.old.rounds < 2 ^ 32 }
        ensures { (w : Words) → tally self.new w ≡ count_round (tally self.old w) }
    {
        self.rounds += 1;
        self.changed = false;
    }

    pub(crate) fn count(&mut self, deed: Deed)
        requires { (self.old.moved < 2 ^ 32) × (self.old.errors < 2 ^ 32) }
        ensures { self.new ≡ counted self.old deed }
    {
        match deed {
            Deed::Nothing => {}
            Deed::Change => self.changed = true,
            Deed::AddressError => {
                self.errors += 1;
                self.changed = true;
            }
            Deed::Move => {
                self.moved += 1;
                self.changed = true;
            }
        }
    }

    // What a part of a round has done is counted too.
    pub(crate) fn add(&mut self, part: Totals)
        requires { (self.old.rounds + part.rounds < 2 ^ 32) × (self.old.moved + part.moved < 2 ^ 32) × (self.old.errors + part.errors < 2 ^ 32) }
        ensures { self.new ≡ added self.old part }
    {
        self.rounds += part.rounds;
        self.moved += part.moved;
        self.errors += part.errors;
        self.changed |= part.changed;
    }
}
