// The replies to a run: each with its number, the record that it names, and whether the run stopped or was refused.
#![tactic(auto)]

ghost use Rattle.std.specs.Prelude.{◌≡◌};
ghost use Rattle.std.proofs.Math.Option.{get_or};
ghost use Rattle.replies.specs.Replies.{told_reply, told_fault, stops};

use session::Fault;

// 01's replies 0 to 9, in order, and 02's 11 and 12; 4 to 7 name the record, counted from 0.
#[derive(Clone, Copy)]
pub enum Reply {
    Limit,
    WrongImage,
    WrongMachine,
    WrongLimit,
    Length(usize),
    Kind(usize),
    Value(usize),
    Time(usize),
    Undefined,
    Full,
    LogFull,
    WrongArea,
}

impl Reply {
    // Its number.
    pub fn number(self) -> u8
        ensures { result ≡ (told_reply self).number }
    {
        // Some replies carry a record and 10 is none, so no cast gives the number.
        match self {
            Reply::Limit => 0,
            Reply::WrongImage => 1,
            Reply::WrongMachine => 2,
            Reply::WrongLimit => 3,
            Reply::Length(_) => 4,
            Reply::Kind(_) => 5,
            Reply::Value(_) => 6,
            Reply::Time(_) => 7,
            Reply::Undefined => 8,
            Reply::Full => 9,
            Reply::LogFull => 11,
            Reply::WrongArea => 12,
        }
    }

    // The record that it names, 0 where it names none.
    pub fn record(self) -> usize
        ensures { result ≡ get_or (told_reply self).named 0 }
    {
        match self {
            Reply::Length(k) | Reply::Kind(k) | Reply::Value(k) | Reply::Time(k) => k,
            _ => 0,
        }
    }

    // Whether the run stopped with it, and was not refused.
    pub fn is_stop(self) -> bool
        ensures { result ≡ stops (told_reply self).number }
    {
        matches!(
            self,
            Reply::Limit | Reply::Undefined | Reply::Full | Reply::LogFull
        )
    }
}

// The refusal of a session for its fault.
impl From<Fault> for Reply {
    ghost from_gives = { λ fault reply. told_reply reply ≡ told_fault fault };

    fn from(fault: Fault) -> Reply {
        match fault {
            Fault::Length(k) => Reply::Length(k),
            Fault::Kind(k) => Reply::Kind(k),
            Fault::Value(k) => Reply::Value(k),
            Fault::Time(k) => Reply::Time(k),
        }
    }
}
