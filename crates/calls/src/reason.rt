ghost use Rattle.std.specs.Prelude.{◌≡◌};
ghost use Rattle.calls.specs.Refusals.{reason_number, reason_layer};

use crate::refusal::Layer;

// Why a call is refused.
#[derive(Clone, Copy, Debug, PartialEq, Eq)]
pub enum Reason {
    // the line is not a frame
    NotAFrame,
    // a making out of limits or after a granted one; any other call before one
    Making,
    // the bench is not below the number of benches
    NoSuchBench,
    // the page is not below the number of pages
    NoSuchPage,
    // the object is above 7, or the cut point above 9
    NoSuchObject,
    // read, write, drop, commit, cancel: the bench is idle
    Idle,
    // begin: the bench is open or aborted
    NotIdle,
    // read, write, drop, commit: the bench is aborted
    Aborted,
    // read, write, drop, evict: the bench has no copy of the page
    NoCopy,
    // read, write: the object is a hole of the copy
    Hole,
    // write: eight other objects are modified or bare
    EightWritten,
    // drop: the object is not modified
    NotModified,
    // evict: an object of the copy is used
    Used,
    // fetch: the bench has eight copies of other pages
    EightCopies,
    // commit: this used object is in its invalid set
    InvalidUse { page: u8, object: u8 },
    // commit with writes: the last commit number is the largest there is
    NumbersSpent,
    // commit: the cache's entries and the objects written are more than the cache may hold
    CacheFull,
    // commit: the log has too little free
    LogFull,
    // take up: a page is in hand, or a void one
    HandOut,
    // take up: no entry of the page
    NoEntry,
    // put down: no page is in hand, or a void one; let go: none
    NoHand,
    // the disk says that the page is bad
    BadPage,
}

impl Reason {
    // The number that the protocol tells. (A match: a variant with fields cannot have a number beside its name.)
    pub fn number(self) -> u8
        ensures { result ≡ reason_number self }
    {
        match self {
            Reason::NotAFrame => 1,
            Reason::Making => 2,
            Reason::NoSuchBench => 3,
            Reason::NoSuchPage => 4,
            Reason::NoSuchObject => 5,
            Reason::Idle => 6,
            Reason::NotIdle => 7,
            Reason::Aborted => 8,
            Reason::NoCopy => 9,
            Reason::Hole => 10,
            Reason::EightWritten => 11,
            Reason::NotModified => 12,
            Reason::Used => 13,
            Reason::EightCopies => 14,
            Reason::InvalidUse { .. } => 15,
            Reason::NumbersSpent => 16,
            Reason::CacheFull => 17,
            Reason::LogFull => 18,
            Reason::HandOut => 19,
            Reason::NoEntry => 20,
            Reason::NoHand => 21,
            Reason::BadPage => 22,
        }
    }

    // The part of the store that refuses for this reason.
    pub fn layer(self) -> Layer
        ensures { result ≡ reason_layer self }
    {
        match self {
            Reason::NotAFrame
            | Reason::Making
            | Reason::NoSuchBench
            | Reason::NoSuchPage
            | Reason::NoSuchObject => Layer::Door,
            Reason::Idle
            | Reason::NotIdle
            | Reason::Aborted
            | Reason::NoCopy
            | Reason::Hole
            | Reason::EightWritten
            | Reason::NotModified
            | Reason::Used
            | Reason::EightCopies => Layer::Bench,
            Reason::InvalidUse { .. }
            | Reason::NumbersSpent
            | Reason::CacheFull
            | Reason::HandOut
            | Reason::NoEntry
            | Reason::NoHand => Layer::Server,
            Reason::LogFull => Layer::Log,
            Reason::BadPage => Layer::Disk,
        }
    }
}
