// Frame sizes, bad-slot lists and the flat stock.
use crate::made::{bad_slots, fresh_stock, told};
use fault::report::refusal_number;
use fault::shape::ShapeFault;
use flat::flat::FlatStock;
use std::test::Fail;
use stock::bad::BadSlots;
use stock::condition::Condition;
use stock::size::FrameSize;
use stock::stock::Stock;

#[test]
fn frames_have_16_to_8208_bytes(rt: HostRuntime) {
    for (bytes, number) in [
        (0, Some(1)),
        (15, Some(1)),
        (16, None),
        (8208, None),
        (8209, Some(1)),
        (usize::MAX, Some(1)),
    ] {
        assert_eq!(rt;
            refusal_number(&FrameSize::new(bytes)),
            number,
            "{bytes} bytes"
        );
    }
}

#[test]
fn a_seventeenth_bad_slot_is_refused(rt: HostRuntime) {
    let mut bad = BadSlots::none();
    for slot in 100..116u64 {
        let _ = bad.add(slot);
    }
    let again = bad.add(107).is_ok();
    let more = bad.add(5).is_err();
    assert!(rt; again && more && bad.has(100) && bad.has(115) && !bad.has(5));
}

#[test]
fn a_slot_is_put_got_and_cleared(rt: HostRuntime) -> Result<(), Fail> {
    // four slots of 16 bytes over 68 bytes of 7
    let mut stock = fresh_stock(vec![in rt.alloc(); 7u8; 68]?, 16, &[2, 4])?;
    let mut out = [9u8; 16];
    assert_eq!(rt; stock.condition(1), Condition::Blank);
    stock.put(1, &[1u8; 16])?;
    assert_eq!(rt; stock.condition(1), Condition::Filled);
    stock.get(1, &mut out)?;
    stock.clear(1)?;
    assert_eq!(rt; stock.condition(1), Condition::Blank);
    assert_eq!(rt; out, [1u8; 16]);
    // the marks of all four slots are 0; the frame's bytes stay where they were, and so do those of the next slot
    let area = stock.into_area();
    assert_eq!(rt; area.len(), 68);
    for (at, byte) in [(0, 0), (17, 0), (18, 1), (33, 1), (34, 0), (35, 7), (51, 0)] {
        assert_eq!(rt; area.get(at).copied(), Some(byte), "at {at}");
    }
    Ok(())
}

#[test]
fn an_old_area_is_taken_as_it_is(rt: HostRuntime) -> Result<(), Fail> {
    // 60 bytes have room for three slots of 17; a mark other than 1 is blank, and the list outranks the mark
    let mut area = vec![in rt.alloc(); 1u8; 60]?;
    assert!(rt; area.len() == 60);
    area[17] = 2;
    let stock = FlatStock::over(area, FrameSize::new(16)?, bad_slots(&[2])?);
    for (slot, condition) in [
        (0, Condition::Filled),
        (1, Condition::Blank),
        (2, Condition::Bad),
        (3, Condition::NoSlot),
    ] {
        assert_eq!(rt; stock.condition(slot), condition, "slot {slot}");
    }
    Ok(())
}

#[test]
fn a_fault_says_what_to_do(rt: HostRuntime) -> Result<(), Fail> {
    let text = format!(in rt.alloc(); "{}", ShapeFault::FrameSize)?;
    assert_eq!(rt;
        text.as_str(),
        "a frame has 16 to 8208 bytes: choose such a length (refusal 1, layer 0, place 0)"
    );
    let text = told(rt.alloc(), Condition::Bad.allows_clear(7))?;
    assert_eq!(rt;
        text.as_str(),
        "slot 7 is bad: use another (refusal 8, layer 1, place 7)"
    );
    Ok(())
}
