// The causes of refusals by the thing refused; specs/Answer.antt gives each its number and place. An answer is a Result:
// the count of bytes or finish ticks written, or one refusal.
ghost use Rattle.std.specs.Prelude.{◌≡◌};
ghost use Rattle.model.specs.Answer.{order_number, order_place, call_number, call_place, build_number, build_place, script_number, script_place, text_number, text_place, list_number, list_place, late_number, late_place, cause_number, cause_place};

use crate::Order;

// What is wrong with an order: 1 to 10. A place is a task.
#[derive(Clone, Copy, Debug, PartialEq, Eq)]
pub enum OrderCause {
    OrderShort,
    OrderVersion,
    Processors,
    Tasks,
    OrderLength,
    HeaderSpare,
    TaskSpare(u16),
    Width(u16),
    Period(u16),
    Deadline(u16),
    RunTime(u16),
}

// What a call cannot do with what it is handed: 11 to 13. A place is a task.
#[derive(Clone, Copy, Debug, PartialEq, Eq)]
pub enum CallCause {
    FirstFit(u16),
    Output,
    Columns,
}

// What is wrong with a build: 20 to 30. A place is a task, or a partition where the name says so.
#[derive(Clone, Copy, Debug, PartialEq, Eq)]
pub enum BuildCause {
    BuildShort,
    BuildMismatch,
    BuildLength,
    BuildSpare,
    PartitionPlace(u16),
    TaskPartition(u16),
    Rank(u16),
    Window(u16),
    Start(u16),
    Late(u16),
    Response(u16),
}

// What is wrong with a script: 40 to 46. A place is a record.
#[derive(Clone, Copy, Debug, PartialEq, Eq)]
pub enum ScriptCause {
    ScriptLength,
    RecordSpare(u16),
    RecordTask(u16),
    RecordOrder(u16),
    JobLength(u16),
    ReleaseGap(u16),
    FinishPlaces,
}

// What is wrong with the text of an order: 50 to 52. A place is a line.
#[derive(Clone, Copy, Debug, PartialEq, Eq)]
pub enum TextCause {
    LineShape(u16),
    LineNumber(u16),
    LineCount,
}

// What is wrong with a list of processors: 60 to 62 and 65. A place is a byte of its text.
#[derive(Clone, Copy, Debug, PartialEq, Eq)]
pub enum ListCause {
    ListShape(u16),
    ListNumber(u16),
    ListRange(u16),
    ListLength,
}

// Why there is no late script to show: 63 and 64. Neither has a place.
#[derive(Clone, Copy, Debug, PartialEq, Eq)]
pub enum LateCause {
    NotLate,
    ManyRecords,
}

// Why something is refused.
#[derive(Clone, Copy, Debug, PartialEq, Eq)]
pub enum Refusal {
    OfOrder(OrderCause),
    OfCall(CallCause),
    OfBuild(BuildCause),
    OfScript(ScriptCause),
    OfText(TextCause),
    OfList(ListCause),
    OfLate(LateCause),
}

// "65,535 where none applies"
const NOWHERE: u16 = 65_535;

impl OrderCause {
    pub fn number(self) -> u16
        ensures { result ≡ order_number self }
    {
        match self {
            OrderCause::OrderShort => 1,
            OrderCause::OrderVersion => 2,
            OrderCause::Processors => 3,
            OrderCause::Tasks => 4,
            OrderCause::OrderLength => 5,
            OrderCause::HeaderSpare => 6,
            OrderCause::TaskSpare(_) => 6,
            OrderCause::Width(_) => 7,
            OrderCause::Period(_) => 8,
            OrderCause::Deadline(_) => 9,
            OrderCause::RunTime(_) => 10,
        }
    }

    pub fn place(self) -> u16
        ensures { result ≡ order_place self }
    {
        match self {
            OrderCause::OrderShort => NOWHERE,
            OrderCause::OrderVersion => NOWHERE,
            OrderCause::Processors => NOWHERE,
            OrderCause::Tasks => NOWHERE,
            OrderCause::OrderLength => NOWHERE,
            OrderCause::HeaderSpare => NOWHERE,
            OrderCause::TaskSpare(task) => task,
            OrderCause::Width(task) => task,
            OrderCause::Period(task) => task,
            OrderCause::Deadline(task) => task,
            OrderCause::RunTime(task) => task,
        }
    }
}

impl CallCause {
    pub fn number(self) -> u16
        ensures { result ≡ call_number self }
    {
        match self {
            CallCause::FirstFit(_) => 11,
            CallCause::Output => 12,
            CallCause::Columns => 13,
        }
    }

    pub fn place(self) -> u16
        ensures { result ≡ call_place self }
    {
        match self {
            CallCause::FirstFit(task) => task,
            CallCause::Output => NOWHERE,
            CallCause::Columns => NOWHERE,
        }
    }
}

impl BuildCause {
    pub fn number(self) -> u16
        ensures { result ≡ build_number self }
    {
        match self {
            BuildCause::BuildShort => 20,
            BuildCause::BuildMismatch => 21,
            BuildCause::BuildLength => 22,
            BuildCause::BuildSpare => 23,
            BuildCause::PartitionPlace(_) => 24,
            BuildCause::TaskPartition(_) => 25,
            BuildCause::Rank(_) => 26,
            BuildCause::Window(_) => 27,
            BuildCause::Start(_) => 28,
            BuildCause::Late(_) => 29,
            BuildCause::Response(_) => 30,
        }
    }

    pub fn place(self) -> u16
        ensures { result ≡ build_place self }
    {
        match self {
            BuildCause::BuildShort => NOWHERE,
            BuildCause::BuildMismatch => NOWHERE,
            BuildCause::BuildLength => NOWHERE,
            BuildCause::BuildSpare => NOWHERE,
            BuildCause::PartitionPlace(partition) => partition,
            BuildCause::TaskPartition(task) => task,
            BuildCause::Rank(task) => task,
            BuildCause::Window(task) => task,
            BuildCause::Start(task) => task,
            BuildCause::Late(task) => task,
            BuildCause::Response(task) => task,
        }
    }
}

impl ScriptCause {
    pub fn number(self) -> u16
        ensures { result ≡ script_number self }
    {
        match self {
            ScriptCause::ScriptLength => 40,
            ScriptCause::RecordSpare(_) => 41,
            ScriptCause::RecordTask(_) => 42,
            ScriptCause::RecordOrder(_) => 43,
            ScriptCause::JobLength(_) => 44,
            ScriptCause::ReleaseGap(_) => 45,
            ScriptCause::FinishPlaces => 46,
        }
    }

    pub fn place(self) -> u16
        ensures { result ≡ script_place self }
    {
        match self {
            ScriptCause::ScriptLength => NOWHERE,
            ScriptCause::RecordSpare(record) => record,
            ScriptCause::RecordTask(record) => record,
            ScriptCause::RecordOrder(record) => record,
            ScriptCause::JobLength(record) => record,
            ScriptCause::ReleaseGap(record) => record,
            ScriptCause::FinishPlaces => NOWHERE,
        }
    }
}

impl TextCause {
    pub fn number(self) -> u16
        ensures { result ≡ text_number self }
    {
        match self {
            TextCause::LineShape(_) => 50,
            TextCause::LineNumber(_) => 51,
            TextCause::LineCount => 52,
        }
    }

    pub fn place(self) -> u16
        ensures { result ≡ text_place self }
    {
        match self {
            TextCause::LineShape(line) => line,
            TextCause::LineNumber(line) => line,
            TextCause::LineCount => NOWHERE,
        }
    }
}

impl ListCause {
    pub fn number(self) -> u16
        ensures { result ≡ list_number self }
    {
        match self {
            ListCause::ListShape(_) => 60,
            ListCause::ListNumber(_) => 61,
            ListCause::ListRange(_) => 62,
            ListCause::ListLength => 65,
        }
    }

    pub fn place(self) -> u16
        ensures { result ≡ list_place self }
    {
        match self {
            ListCause::ListShape(at) => at,
            ListCause::ListNumber(at) => at,
            ListCause::ListRange(at) => at,
            ListCause::ListLength => NOWHERE,
        }
    }
}

impl LateCause {
    pub fn number(self) -> u16
        ensures { result ≡ late_number self }
    {
        match self {
            LateCause::NotLate => 63,
            LateCause::ManyRecords => 64,
        }
    }

    pub fn place(self) -> u16
        ensures { result ≡ late_place self }
    {
        match self {
            LateCause::NotLate => NOWHERE,
            LateCause::ManyRecords => NOWHERE,
        }
    }
}

impl Refusal {
    // "Every answer has a number, a place and a count"
    pub fn number(self) -> u16
        ensures { result ≡ cause_number self }
    {
        match self {
            Refusal::OfOrder(cause) => cause.number(),
            Refusal::OfCall(cause) => cause.number(),
            Refusal::OfBuild(cause) => cause.number(),
            Refusal::OfScript(cause) => cause.number(),
            Refusal::OfText(cause) => cause.number(),
            Refusal::OfList(cause) => cause.number(),
            Refusal::OfLate(cause) => cause.number(),
        }
    }

    pub fn place(self) -> u16
        ensures { result ≡ cause_place self }
    {
        match self {
            Refusal::OfOrder(cause) => cause.place(),
            Refusal::OfCall(cause) => cause.place(),
            Refusal::OfBuild(cause) => cause.place(),
            Refusal::OfScript(cause) => cause.place(),
            Refusal::OfText(cause) => cause.place(),
            Refusal::OfList(cause) => cause.place(),
            Refusal::OfLate(cause) => cause.place(),
        }
    }
}

// What reading an order gives; where it is refused, the order is empty. Beside the answer, not in it: RefusedReadsZero says so.
#[derive(Clone, Copy, Debug, PartialEq, Eq)]
pub struct Reading {
    pub answer: Result<u32, Refusal>,
    pub order: Order,
}
