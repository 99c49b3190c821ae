// The two credit counters (01, Credit).
ghost use Rattle.std.specs.Prelude.{◌≡◌, ◌+◌, ◌-◌, ◌%◌};
ghost use Rattle.link.specs.Credit.{passes56, may_grant};

use crate::{GivenOut, Held};

impl Held {
    pub(crate) fn passes_56(self) -> bool
        ensures { result ≡ passes56 self.0 }
    {
        56 < u16::from(self.0) + 8
    }

    // One less, and none less than none.
    pub(crate) fn one_less(self) -> Held
        ensures { result.0 ≡ self.0 - 1 }
    {
        Held(self.0.saturating_sub(1))
    }
}

impl GivenOut {
    // Whether an FCT may be sent, with this many free places in the receive store.
    pub(crate) fn may_grant(self, free: usize) -> bool
        ensures { result ≡ may_grant self.0 free }
    {
        self.0 <= 48 && usize::from(self.0) + 9 <= free
    }

    // One less, and none less than none.
    pub(crate) fn one_less(self) -> GivenOut
        ensures { result.0 ≡ self.0 - 1 }
    {
        GivenOut(self.0.saturating_sub(1))
    }

    // Eight more, as a sent FCT gives out.
    pub(crate) fn eight_more(self) -> GivenOut
        ensures { result.0 ≡ (self.0 + 8) % 256 }
    {
        GivenOut(self.0.wrapping_add(8))
    }
}
