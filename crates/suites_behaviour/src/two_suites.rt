// The two suites: keys, blocks and tallies.
use ciphersuite::cipher_suite::CipherSuite;
use fault::report::refusal_number;
use std::process::Abort;
use suites::long::LongSuite;
use suites::short::ShortSuite;

// Each case: how many bytes the cipher key and the hash key have, the last byte of the hash key (the others are zeros), and the
// number of the refusal that these keys meet, if any.
fn refuses<S: CipherSuite>(rt: &impl Abort, cases: &[(usize, usize, u8, Option<u8>)]) {
    for &(cipher_len, hash_len, last, number) in cases {
        assert!(rt; cipher_len <= 40 && hash_len <= 40);
        let mut hash = [0; 40];
        if let Some(byte) = hash[..hash_len].last_mut() {
            *byte = last;
        }
        let made = S::make_keys(&[9; 40][..cipher_len], &hash[..hash_len]);
        assert_eq!(rt; refusal_number(&made), number);
    }
}

#[test]
fn keys_are_refused_by_the_lowest_number(rt: HostRuntime) {
    refuses::<LongSuite>(
        &rt,
        &[
            (24, 8, 0, Some(2)),
            (0, 16, 1, Some(2)),
            (16, 17, 0, Some(3)),
            (32, 16, 0, Some(4)),
            (32, 16, 1, None),
            (16, 16, 128, None),
        ],
    );
    refuses::<ShortSuite>(
        &rt,
        &[
            (32, 8, 1, Some(2)),
            (16, 16, 1, Some(3)),
            (16, 8, 0, Some(4)),
            (16, 8, 1, None),
        ],
    );
}

// A suite's products and squares by the figures that are the same in both, and its row of a number.
fn figures<S: CipherSuite>(rt: &impl Abort, suite: &mut S) {
    let len = S::L;
    let product = S::row_of(suite.multiply(S::number(0x0e), S::number(0x11)));
    let square = S::row_of(suite.square(S::number(3)));
    assert!(rt; len >= 8 && len <= 32);
    assert_eq!(rt; product[len - 1], 0xee);
    assert_eq!(rt; square[len - 1], 5);
    let sum = S::row_of(S::add(S::number(0x0102_0304_0506_0708), S::zero()));
    assert_eq!(rt;
        &sum[len - 8..len],
        b"\x01\x02\x03\x04\x05\x06\x07\x08".as_slice()
    );
}

#[test]
fn products_and_squares_are_tallied_apart(rt: HostRuntime) {
    let mut long = LongSuite::new();
    let mut short = ShortSuite::new();
    figures(&rt, &mut long);
    figures(&rt, &mut short);
    figures(&rt, &mut short);
    assert_eq!(rt; long.tally().products, 1);
    assert_eq!(rt; long.tally().squarings, 1);
    assert_eq!(rt; short.tally().products, 2);
    assert_eq!(rt; short.tally().squarings, 2);
}

// The row of the block whose top bit alone is set, doubled.
fn top_doubled<S: CipherSuite>(suite: &mut S) -> [u8; 32] {
    let mut top = [0; 16];
    top[0] = 0x80;
    S::row_of(suite.multiply(S::block_from(&top), S::number(2)))
}

// A 1 that falls out at the top comes back as the constant.
#[test]
fn doubling_drops_a_one_into_the_constant(rt: HostRuntime) {
    let long = top_doubled(&mut LongSuite::new());
    assert_eq!(rt;
        &long[..16],
        b"\0\0\0\0\0\0\0\0\0\0\0\0\0\0\0\x87".as_slice()
    );
    let short = top_doubled(&mut ShortSuite::new());
    assert_eq!(rt; &short[..8], b"\0\0\0\0\0\0\0\x1b".as_slice());
}
