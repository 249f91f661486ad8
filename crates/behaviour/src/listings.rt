// Listing, loading and copying.
use crate::made::{fresh_reel, told};
use flat::flat::FlatStock;
use listing::copy::copy_frames;
use listing::list::list_frames;
use listing::load::load_listing;
use reel::reel::LockedReel;
use std::alloc::Global;
use std::test::Fail;
use stock::condition::Condition;
use stock::stock::Stock;
use suites::short::ShortSuite;

// A reel of four slots of 16 bytes, slot 2 bad.
fn small(heap: Global) -> Result<LockedReel<FlatStock, ShortSuite>, Fail> {
    fresh_reel(heap, 16, 68, ShortSuite::new())
}

// The same with frames at 0 and 3.
fn filled(heap: Global) -> Result<LockedReel<FlatStock, ShortSuite>, Fail> {
    let mut reel = small(heap)?;
    reel.load(0, &[0xABu8; 16])?;
    reel.load(3, &[0xCDu8; 16])?;
    Ok(reel)
}

#[test]
fn a_listing_stops_where_the_area_ends(rt: HostRuntime) -> Result<(), Fail> {
    // two lines of 42 bytes in 83
    let reel = filled(rt.alloc())?;
    let mut area = [b'.'; 83];
    let text = told(rt.alloc(), list_frames(reel.stock(), &mut area))?;
    // the first line is written whole, and nothing behind it
    assert_eq!(rt; &area[7..11], b"0 AB".as_slice());
    assert_eq!(rt; &area[41..43], b"\n.".as_slice());
    assert_eq!(rt;
        text.as_str(),
        "line 2: the area has no room for it (refusal 14, layer 4, place 2)"
    );
    Ok(())
}

#[test]
fn a_reels_refusal_is_kept_in_the_line(rt: HostRuntime) -> Result<(), Fail> {
    let mut reel = small(rt.alloc())?;
    let answer = load_listing(
        &mut reel,
        b"00000001 000102030405060708090A0B0C0D0E0F\n00000002 000102030405060708090A0B0C0D0E0F\n",
    );
    let text = told(rt.alloc(), answer)?;
    assert_eq!(rt; reel.stock().condition(1), Condition::Filled);
    assert_eq!(rt; reel.stock().condition(2), Condition::Bad);
    assert_eq!(rt;
        text.as_str(),
        "line 2: address 2: slot 2 is bad: use another (refusal 8, layer 1, place 2); refusal 8, layer 3, place 2; refusal 8, layer 4, place 2"
    );
    Ok(())
}

#[test]
fn a_copy_holds_the_same(rt: HostRuntime) -> Result<(), Fail> {
    let from = filled(rt.alloc())?;
    let mut to = small(rt.alloc())?;
    let mut area = vec![in rt.alloc(); 0u8; 168]?;
    let lines = copy_frames(from.stock(), area.as_mut_slice(), &mut to)?;
    let mut out = [0u8; 16];
    to.take(3, &mut out)?;
    assert_eq!(rt; lines, 2);
    assert_eq!(rt; out, [0xCDu8; 16]);
    assert_eq!(rt; to.stock().condition(1), Condition::Blank);
    assert_eq!(rt; to.stock().condition(2), Condition::Bad);
    Ok(())
}
