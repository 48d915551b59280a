// Why something is refused: each refusal has its number from the rules (docs/RULES.md, sections 9 and 13 to 19).
#![tactic(auto)]

ghost use Rattle.std.specs.Prelude.{◌≡◌};
ghost use Rattle.refusal.specs.Numbers.{number_of};

// What docs/FORMAT.md says of each is its row there.
#[derive(Clone, Copy, Debug, PartialEq, Eq)]
pub enum Refusal {
    MalformedFrame = 1,
    ForeignFrame = 2,
    NoSuchSender = 3,
    NotAnAnnouncement = 4,
    BadSize = 5,
    OtherGroup = 6,
    OtherSize = 7,
    NotOpen = 8,
    OutOfSequence = 9,
    NotAPayload = 10,
    WindowFull = 11,
    ValueOutOfRange = 12,
    NoSuchSlot = 13,
    LinesOutOfRange = 14,
    WeightOutOfRange = 15,
    SlotInUse = 16,
    SlotEmpty = 17,
    WindowOutOfRange = 18,
    NoteTooLong = 19,
    NoRoom = 20,
    LogCut = 21,
    UnknownItem = 22,
    ItemOutOfPlace = 23,
    Unfit = 24,
    SearchFinished = 25,
    BeforeLastTime = 26,
    RangeNotProper = 30,
    TieRuleUnknown = 33,
}

impl Refusal {
    // Its number; no refusal has the number 0.
    pub fn number(self) -> u8
        ensures { result ≡ number_of self }
    {
        self as u8
    }
}
