use crate::answers::told;
use calls::{Place, Reason, Refusal};
use std::test::Fail;

// Each reason with its number and layer, but for the one that names a place of its own.
const REASONS: [(Reason, u8, u8); 21] = [
    (Reason::NotAFrame, 1, 0),
    (Reason::Making, 2, 0),
    (Reason::NoSuchBench, 3, 0),
    (Reason::NoSuchPage, 4, 0),
    (Reason::NoSuchObject, 5, 0),
    (Reason::Idle, 6, 1),
    (Reason::NotIdle, 7, 1),
    (Reason::Aborted, 8, 1),
    (Reason::NoCopy, 9, 1),
    (Reason::Hole, 10, 1),
    (Reason::EightWritten, 11, 1),
    (Reason::NotModified, 12, 1),
    (Reason::Used, 13, 1),
    (Reason::EightCopies, 14, 1),
    (Reason::NumbersSpent, 16, 2),
    (Reason::CacheFull, 17, 2),
    (Reason::LogFull, 18, 3),
    (Reason::HandOut, 19, 2),
    (Reason::NoEntry, 20, 2),
    (Reason::NoHand, 21, 2),
    (Reason::BadPage, 22, 4),
];

#[test]
fn each_reason_has_its_number_and_layer(rt: HostRuntime) {
    for (reason, number, layer) in REASONS {
        assert!(rt; reason.number() == number && u8::from(reason.layer()) == layer);
        let bytes = Refusal::new(reason, Place::at(4, 5)).to_bytes();
        assert!(rt; bytes == [number, layer, 4, 5]);
    }
}

#[test]
fn places(rt: HostRuntime) -> Result<(), Fail> {
    let heap = rt.alloc();
    let reason = Reason::InvalidUse {
        page: 63,
        object: 7,
    };
    let invalid = Refusal::new(reason, Place::at(4, 5));
    assert!(rt; invalid == Refusal::new(reason, Place::nowhere()));
    told(&rt, heap, Err(invalid.into()), b"0f023f07")?;
    let nowhere = Refusal::new(Reason::Idle, Place::nowhere());
    told(&rt, heap, Err(nowhere.into()), b"0601ffff")?;
    let page = Some(3);
    let object = None;
    let of_a_page = Refusal::new(Reason::BadPage, Place { page, object });
    told(&rt, heap, Err(of_a_page.into()), b"160403ff")
}
