// The filter on texts of every kind.
use crate::filter::filter;
use std::alloc::Global;
use std::process::Abort;
use std::test::Fail;

// A text is loaded as far as `lines`, ends with `refusal` or with 0, and what is listed is the text's first `kept` bytes.
#[derive(Drop)]
struct Case {
    text: &'static [u8],
    lines: u64,
    refusal: u8,
    kept: usize,
}

fn check_cases(rt: &impl Abort, heap: Global, cases: &[Case]) -> Result<(), Fail> {
    for case in cases {
        let outcome = filter(heap, case.text)?;
        assert_eq!(rt; outcome.lines(), case.lines);
        assert_eq!(rt; outcome.refusal(), case.refusal);
        assert!(rt; case.kept <= case.text.len());
        assert_eq!(rt; outcome.listing.as_slice(), &case.text[..case.kept]);
    }
    Ok(())
}

#[test]
fn whole_lines_come_out_again(rt: HostRuntime) -> Result<(), Fail> {
    let cases = [
        Case {
            text: b"",
            lines: 0,
            refusal: 0,
            kept: 0,
        },
        Case {
            text: b"00000000 00000000000000000000000000000000\n",
            lines: 1,
            refusal: 0,
            kept: 42,
        },
        Case {
            text: b"00000001 000102030405060708090A0B0C0D0E0F\n00000003 FFFFFFFFFFFFFFFFFFFFFFFFFFFFFFFF\n",
            lines: 2,
            refusal: 0,
            kept: 84,
        },
    ];
    check_cases(&rt, rt.alloc(), &cases)
}

#[test]
fn a_line_that_is_none_is_refused(rt: HostRuntime) -> Result<(), Fail> {
    let cases = [
        // no line feed; cut in the line; an empty line; a digit too many
        Case {
            text: b"00000001 000102030405060708090A0B0C0D0E0F",
            lines: 0,
            refusal: 11,
            kept: 0,
        },
        Case {
            text: b"00000001 000102030405060708090A0B0C0D0E0F\n00000003 FFFF",
            lines: 1,
            refusal: 11,
            kept: 42,
        },
        Case {
            text: b"\n",
            lines: 0,
            refusal: 11,
            kept: 0,
        },
        Case {
            text: b"00000001 000102030405060708090A0B0C0D0E0F0\n",
            lines: 0,
            refusal: 11,
            kept: 0,
        },
    ];
    check_cases(&rt, rt.alloc(), &cases)
}

#[test]
fn digits_are_0_to_9_and_capital_a_to_f(rt: HostRuntime) -> Result<(), Fail> {
    let cases = [
        Case {
            text: b"00000001 000102030405060708090a0b0c0d0e0f\n",
            lines: 0,
            refusal: 12,
            kept: 0,
        },
        Case {
            text: b"0000000G 000102030405060708090A0B0C0D0E0F\n",
            lines: 0,
            refusal: 12,
            kept: 0,
        },
        Case {
            text: b"00000001 0001020304050607080\xFFA0B0C0D0E0F0\n",
            lines: 0,
            refusal: 12,
            kept: 0,
        },
        Case {
            text: b"00000001:000102030405060708090A0B0C0D0E0F\n",
            lines: 0,
            refusal: 12,
            kept: 0,
        },
    ];
    check_cases(&rt, rt.alloc(), &cases)
}

#[test]
fn addresses_rise_and_stay_below_the_slots(rt: HostRuntime) -> Result<(), Fail> {
    let cases = [
        Case {
            text: b"00000001 000102030405060708090A0B0C0D0E0F\n00000001 000102030405060708090A0B0C0D0E0F\n",
            lines: 1,
            refusal: 13,
            kept: 42,
        },
        Case {
            text: b"00000001 000102030405060708090A0B0C0D0E0F\n00000000 000102030405060708090A0B0C0D0E0F\n",
            lines: 1,
            refusal: 13,
            kept: 42,
        },
        Case {
            text: b"00000003 000102030405060708090A0B0C0D0E0F\n00000004 000102030405060708090A0B0C0D0E0F\n",
            lines: 1,
            refusal: 6,
            kept: 42,
        },
        Case {
            text: b"FFFFFFFF 000102030405060708090A0B0C0D0E0F\n",
            lines: 0,
            refusal: 6,
            kept: 0,
        },
    ];
    check_cases(&rt, rt.alloc(), &cases)
}
