// The time counter (01, Time): one record for all links of a bench.
#![tactic(auto)]

ghost use Rattle.std.specs.Prelude.{◌≡◌};
ghost use Rattle.time.specs.Time.{fresh_time, bad_time, is_next, time_after};

#[derive(Clone, Copy, Debug, PartialEq, Eq)]
pub struct Time {
    pub count: u8,
    // Whether the last Time-Code gave a tick out.
    pub ticked: bool,
}

impl Time {
    #[tactic(auto, unfolding(crate::specs::Time::fresh_time))]
    pub fn fresh() -> Time
        ensures { result ≡ fresh_time }
    {
        Time {
            count: 0,
            ticked: false,
        }
    }

    pub fn is_bad(self) -> bool
        ensures { result ≡ bad_time self }
    {
        63 < self.count
    }

    fn is_next(self, code: u8) -> bool
        ensures { result ≡ is_next self code }
    {
        let low = u16::from(code % 64);
        low == (u16::from(self.count) + 1) % 64
    }

    // The record after a Time-Code in Run: the next in turn sets the count and ticks, any other is dropped.
    #[tactic(auto, unfolding(crate::specs::Time::time_after))]
    pub fn after(self, code: u8) -> Time
        ensures { result ≡ time_after self code }
    {
        if self.is_next(code) {
            Time {
                count: code % 64,
                ticked: true,
            }
        } else {
            Time {
                count: self.count,
                ticked: false,
            }
        }
    }

    // The same on a record that is lent: whether the Time-Code gives a tick out.
    pub fn time_code(&mut self, code: u8) -> bool
        ensures { (result ≡ (time_after self.old code).ticked)
            × (self.new ≡ time_after self.old code) }
    {
        *self = self.after(code);
        self.ticked
    }
}
