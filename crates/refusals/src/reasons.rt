// Why a call is refused, and where.
ghost use Rattle.std.specs.Prelude.{◌≡◌};
ghost use Rattle.refusals.specs.Reasons.{number_of, refusal_at};

// The reasons, in the order of their numbers, from 1 to 30. The names are those of the C header.
#[derive(Clone, Copy, PartialEq, Eq, Debug)]
pub enum Reason {
    FileTooLong,
    FileCut,
    FileBit,
    BadDomains,
    BadThreads,
    BadParent,
    TooDeep,
    NoThreshold,
    BadHome,
    BadState,
    ScheduleLong,
    BadEntry,
    TraceShort,
    OutputShort,
    TextWrong,
    EmptyDomain,
    FileShort,
    WaitsBufferShort,
    CounterFull,
    ChainShort,
    NoChain,
    LengthsWrong,
    RowsShort,
    BadTime,
    JournalBroken,
    OtherKind,
    BadUnderWay,
    KindsShort,
    OtherDomain,
    ListsUnequal,
}

// A refusal: its reason, and the place that the reason names, or 0.
#[derive(Clone, Copy, PartialEq, Eq, Debug)]
pub struct Refusal {
    pub reason: Reason,
    pub place: u32,
}

impl Reason {
    // The number that a call returns.
    pub fn number(self) -> u32
        ensures { result ≡ number_of self }
    {
        match self {
            Reason::FileTooLong => 1,
            Reason::FileCut => 2,
            Reason::FileBit => 3,
            Reason::BadDomains => 4,
            Reason::BadThreads => 5,
            Reason::BadParent => 6,
            Reason::TooDeep => 7,
            Reason::NoThreshold => 8,
            Reason::BadHome => 9,
            Reason::BadState => 10,
            Reason::ScheduleLong => 11,
            Reason::BadEntry => 12,
            Reason::TraceShort => 13,
            Reason::OutputShort => 14,
            Reason::TextWrong => 15,
            Reason::EmptyDomain => 16,
            Reason::FileShort => 17,
            Reason::WaitsBufferShort => 18,
            Reason::CounterFull => 19,
            Reason::ChainShort => 20,
            Reason::NoChain => 21,
            Reason::LengthsWrong => 22,
            Reason::RowsShort => 23,
            Reason::BadTime => 24,
            Reason::JournalBroken => 25,
            Reason::OtherKind => 26,
            Reason::BadUnderWay => 27,
            Reason::KindsShort => 28,
            Reason::OtherDomain => 29,
            Reason::ListsUnequal => 30,
        }
    }

    // The refusal with this reason at a place.
    pub fn at(self, place: u32) -> Refusal
        ensures { result ≡ refusal_at self place }
    {
        Refusal {
            reason: self,
            place,
        }
    }
}

impl Refusal {
    // The number that a call returns.
    pub fn number(self) -> u32
        ensures { result ≡ number_of self.reason }
    {
        self.reason.number()
    }
}
