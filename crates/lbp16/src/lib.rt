// What both ends of the wire share: the command word and its fields, the card's spaces, the pointer type, and refusals.
#![tactic(auto)]

pub mod pointer;
pub mod space;
pub mod word;

ghost use Rattle.std.specs.Prelude.{◌≡◌};
ghost use Rattle.lbp16.specs.Answer.{rule_number};

// The rules of the refusal table, by their numbers there. The place of each is said with the table.
#[derive(Clone, Copy, Debug, PartialEq, Eq)]
pub enum Rule {
    State = 1,
    PacketLength = 2,
    WordCut = 3,
    InfoWrite = 4,
    Space = 5,
    ElementSize = 6,
    CountZero = 7,
    Address = 8,
    ReadOnly = 9,
    Locked = 10,
    DataCut = 11,
    ReplyLength = 12,
    WordField = 13,
    ListLength = 21,
    Record = 22,
    RecordElement = 23,
    RecordValue = 24,
    Room = 26,
    LogRoom = 27,
    BurstEmpty = 31,
    BurstCommand = 32,
    BurstCount = 33,
    BurstLength = 34,
    BurstAddress = 35,
    Field = 40,
    Table = 41,
    FieldWidth = 42,
    NotStarted = 43,
    ReadingField = 44,
    ReadingBounds = 45,
    ReadingInfinite = 46,
    Output = 50,
    Clash = 51,
    ShowPacket = 61,
    ShowLength = 62,
    ShowByte = 63,
    ShowCut = 64,
    ShowUnmarked = 65,
    Guard = 70,
    Protected = 71,
    TextForm = 81,
    TextNumber = 82,
    TextName = 83,
    Capture = 91,
    FrameCut = 92,
    Datagram = 93,
    StrayReply = 94,
}

impl Rule {
    pub fn number(self) -> u32
        ensures { result ≡ rule_number self }
    {
        self as u32
    }

    // The refusal by this rule at a place.
    pub fn at(self, place: u64) -> Refusal
        ensures { result ≡ record { rule = self; place = place } }
    {
        Refusal { rule: self, place }
    }
}

// Why something was refused: the rule and the place of the refusal table.
#[derive(Clone, Copy, Debug, PartialEq, Eq)]
pub struct Refusal {
    pub rule: Rule,
    pub place: u64,
}
