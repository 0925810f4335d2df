use thiserror::Error;

// A refusal of a device.
#[derive(Clone, Copy, PartialEq, Eq, Debug, Error)]
pub enum DeviceFault {
    #[error("the disk cannot read or write page {0}")]
    BadPage(u8),
    #[error("the changes are not 1 to 8 different objects 0 to 7 of pages below 64")]
    BadChanges,
    #[error("the last commit number is the largest there is")]
    NumbersSpent,
    #[error("more changes than the log has free")]
    LogFull,
    #[error("a list log wants memory of 8 to 64 records")]
    BadRecordCount,
}
