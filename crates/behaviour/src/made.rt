// What the tests are made with.
use fault::report::Fault;
use flat::flat::FlatStock;
use reel::reel::LockedReel;
use std::alloc::Global;
use std::error::Error;
use std::test::Fail;
use stock::bad::BadSlots;
use stock::size::FrameSize;
use suite::suite::Suite;

pub(crate) fn bad_slots(slots: &[u64]) -> Result<BadSlots, Fail> {
    let mut bad = BadSlots::none();
    for slot in slots {
        bad.add(*slot)?;
    }
    Ok(bad)
}

// A fresh flat stock with frames of so many bytes over an area, and these slots listed as bad.
pub(crate) fn fresh_stock(area: Vec<u8>, frame: usize, bad: &[u64]) -> Result<FlatStock, Fail> {
    Ok(FlatStock::fresh(area, FrameSize::new(frame)?, bad_slots(bad)?))
}

// A fresh flat reel with frames of so many bytes over so large an area, slot 2 bad.
pub(crate) fn fresh_reel<Su: Suite + Drop>(
    heap: Global,
    frame: usize,
    area: usize,
    suite: Su,
) -> Result<LockedReel<FlatStock, Su>, Fail> {
    let stock = fresh_stock(vec![in heap; 0u8; area]?, frame, &[2])?;
    Ok(LockedReel::new(stock, suite))
}

// What an operator is told of a refused call.
pub(crate) fn told<T: Drop, F: Fault + Error>(
    heap: Global,
    answer: Result<T, F>,
) -> Result<String, Fail> {
    match answer {
        Ok(_) => Err(Fail::new("the call was not refused")),
        Err(fault) => Ok(format!(in heap; "{fault}")?),
    }
}
