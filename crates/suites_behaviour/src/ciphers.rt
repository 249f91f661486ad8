// The published vectors of the two ciphers.
use cipher::aes::Aes;
use cipher::block_cipher::BlockCipher;
use cipher::speck::Speck;
use std::process::Abort;
use std::test::Fail;

// The cipher takes the block to `want` under the key.
fn gives<C: BlockCipher<N>, const N: usize>(
    rt: &impl Abort,
    key: &[u8],
    block: &[u8; N],
    want: &[u8; N],
) -> Result<(), Fail> {
    let Some(cipher) = C::new(key) else {
        return Err(Fail::new("no such key"));
    };
    assert_eq!(rt; cipher.encrypt(block), *want);
    Ok(())
}

// FIPS 197, appendix B and appendix C: keys of 16 and of 32 bytes.
#[test]
fn aes_has_the_published_vectors(rt: HostRuntime) -> Result<(), Fail> {
    gives::<Aes, 16>(
        &rt,
        b"\x2b\x7e\x15\x16\x28\xae\xd2\xa6\xab\xf7\x15\x88\x09\xcf\x4f\x3c",
        b"\x32\x43\xf6\xa8\x88\x5a\x30\x8d\x31\x31\x98\xa2\xe0\x37\x07\x34",
        b"\x39\x25\x84\x1d\x02\xdc\x09\xfb\xdc\x11\x85\x97\x19\x6a\x0b\x32",
    )?;
    let plain = b"\x00\x11\x22\x33\x44\x55\x66\x77\x88\x99\xaa\xbb\xcc\xdd\xee\xff";
    gives::<Aes, 16>(
        &rt,
        b"\x00\x01\x02\x03\x04\x05\x06\x07\x08\x09\x0a\x0b\x0c\x0d\x0e\x0f",
        plain,
        b"\x69\xc4\xe0\xd8\x6a\x7b\x04\x30\xd8\xcd\xb7\x80\x70\xb4\xc5\x5a",
    )?;
    gives::<Aes, 16>(
        &rt,
        b"\x00\x01\x02\x03\x04\x05\x06\x07\x08\x09\x0a\x0b\x0c\x0d\x0e\x0f\x10\x11\x12\x13\x14\x15\x16\x17\x18\x19\x1a\x1b\x1c\x1d\x1e\x1f",
        plain,
        b"\x8e\xa2\xb7\xca\x51\x67\x45\xbf\xea\xfc\x49\x90\x4b\x49\x60\x89",
    )
}

// The vector lists words, x before y and the last key word first; a block is y and then x, each word with its lowest byte first.
#[test]
fn speck_has_the_published_vector(rt: HostRuntime) -> Result<(), Fail> {
    gives::<Speck, 8>(
        &rt,
        b"\x00\x01\x02\x03\x08\x09\x0a\x0b\x10\x11\x12\x13\x18\x19\x1a\x1b",
        b"\x2d\x43\x75\x74\x74\x65\x72\x3b",
        b"\x8b\x02\x4e\x45\x48\xa5\x6f\x8c",
    )
}
