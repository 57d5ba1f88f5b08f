// The kinds of a step: what a row reports about it.
ghost use Rattle.std.specs.Prelude.{◌≡◌};
ghost use Rattle.rows.specs.Common.Standing.{is_entry_number};
ghost use Rattle.rows.specs.Kinds.{number_of_kind};

// The kind of a step, in the order of the numbers, from 0 to 5.
#[derive(Clone, Copy, PartialEq, Eq, Debug)]
pub enum Kind {
    Stay,
    OtherMove,
    RootEntry,
    PassedEntry,
    CrossedEntry,
    Leaving,
}

impl Kind {
    // The number that a call reports.
    pub fn number(self) -> u8
        ensures { result ≡ number_of_kind self }
    {
        self as u8
    }

    // Whether the step is an entry, which arrives Inside.
    pub fn is_entry(self) -> bool
        ensures { result ≡ is_entry_number (number_of_kind self) }
    {
        matches!(
            self,
            Kind::RootEntry | Kind::PassedEntry | Kind::CrossedEntry
        )
    }
}
