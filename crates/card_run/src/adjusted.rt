// How many adjustments there are of one type, and their net summed.
ghost use Rattle.std.specs.Prelude.{◌≡◌};
ghost use Rattle.card_run.specs.Adjusted.{no_adjustment, one_adjustment_more};

#[derive(Clone, Copy, Default)]
pub struct Adjusted {
    pub count: u64,
    pub net: u64,
}

impl Adjusted {
    // No adjustment.
    pub fn none() -> Adjusted
        ensures { result ≡ no_adjustment }
    {
        Adjusted::default()
    }

    // One adjustment more, of this net.
    pub fn one_more(self, net: u64) -> Adjusted
        ensures { result ≡ one_adjustment_more net self }
    {
        Adjusted {
            count: totals::sum::added(self.count, 1),
            net: totals::sum::added(self.net, net),
        }
    }
}
