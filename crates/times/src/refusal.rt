// Every refusal of the part, with its fixed number.

ghost use Rattle.std.specs.Prelude.{◌≡◌};
ghost use Rattle.times.specs.Refusals.{number_of};

// Why a call refuses, each with its fixed number: the numbers are part of every format and never change.
#[derive(Clone, Copy, Debug, PartialEq, Eq)]
pub enum Refusal {
    // a text is empty, too long, or does not end in a line feed
    NotAText = 1,
    // a names line is missing or different
    NamesLine = 2,
    // the value line is missing, or a line has the wrong number of fields
    FieldCount = 3,
    // not a number of its range
    NotANumber = 4,
    // not a time
    NotATime = 5,
    // a level is unknown or out of place, or there is no element
    LevelOutOfPlace = 6,
    // a time lies past the entry limit
    PastEntryLimit = 7,
    // before the entry moment
    BeforeEntryMoment = 8,
    // a number is not above the last one shown
    NumberNotAboveLast = 9,
    // no record is left
    NoRecordLeft = 10,
    // a tick past the entry limit
    TickPastEntryLimit = 11,
    // one adjustment is too large
    AdjustmentTooLarge = 12,
    // the total adjustment would be too large
    TotalTooLarge = 13,
    // not a window
    NotAWindow = 14,
    // a moment past the last moment
    PastLastMoment = 15,
    // a number that is not shown
    NumberNotShown = 16,
    // an output is too short
    OutputTooShort = 17,
    // not a prepared list
    NotPrepared = 18,
}

impl Refusal {
    // The fixed number.
    pub fn number(self) -> u8
        ensures { result ≡ number_of self }
    {
        self as u8
    }
}
