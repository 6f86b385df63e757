//! The literals of vectors.

use vec_base::Bytes;
use vec_literal::{LitFault, read_bits, read_int8, write_bits, write_int8};

/// Forty digits.
const FORTY: &[u8] = b"[9999999999999999999999999999999999999999]";

/// Twenty-three digits.
const TWENTY_THREE: &[u8] = b"[12345678901234567890123]";

/// Sixty-four zeros.
const ZEROS: &[u8] = b"[0000000000000000000000000000000000000000000000000000000000000000]";

/// Texts, and the vector or the fault that each is to give.
const READ: [(&[u8], Result<&[u8], LitFault>); 32] = [
    (b"[]", Ok(&[])),
    (b" [\t] \n", Ok(&[])),
    (b"[ -128 , 127 ]", Ok(&[128, 127])),
    (b"[1,-2]", Ok(&[1, 254])),
    (b"[7,  -128, 0,99,-9]", Ok(&[7, 128, 0, 99, 247])),
    (b"[1,2,-3", Err(LitFault::Place(7))),
    (b"[12,00]", Err(LitFault::Place(5))),
    (b"[1234]", Err(LitFault::Range(0))),
    (b"\r[-0,0,10,-100]", Ok(&[0, 0, 10, 156])),
    (b"", Err(LitFault::Place(0))),
    (b"x", Err(LitFault::Place(0))),
    (b"  ", Err(LitFault::Place(2))),
    (b"[1,2", Err(LitFault::Place(4))),
    (b"[01]", Err(LitFault::Place(2))),
    (b"[-01]", Err(LitFault::Place(3))),
    (b"[1.5]", Err(LitFault::Place(2))),
    (b"[1e1]", Err(LitFault::Place(2))),
    (b"[+1]", Err(LitFault::Place(1))),
    (b"[1,]", Err(LitFault::Place(3))),
    (b"[,1]", Err(LitFault::Place(1))),
    (b"[1 2]", Err(LitFault::Place(3))),
    (b"[- 1]", Err(LitFault::Place(2))),
    (b"[1]x", Err(LitFault::Place(3))),
    (b"[-", Err(LitFault::Place(2))),
    (b"[300,,", Err(LitFault::Place(5))),
    (b"[1,200]", Err(LitFault::Range(1))),
    (b"[128]", Err(LitFault::Range(0))),
    (b"[-129,-1000,5]", Err(LitFault::Range(0))),
    (b"[5,1280 ,-128,1000]", Err(LitFault::Range(1))),
    (FORTY, Err(LitFault::Range(0))),
    (TWENTY_THREE, Err(LitFault::Range(0))),
    (ZEROS, Err(LitFault::Place(2))),
];

/// Whether the bytes or the fault were read.
fn same(read: Result<Bytes, LitFault>, wanted: Result<&[u8], LitFault>) -> bool {
    match (read, wanted) {
        (Ok(vector), Ok(bytes)) => vector.as_slice() == bytes,
        (Err(fault), Err(other)) => fault == other,
        _ => false,
    }
}

#[test]
fn int8_literals_are_read_and_written(rt: HostRuntime) {
    for (text, wanted) in READ {
        assert!(rt; same(read_int8(rt.alloc(), text), wanted));
    }
    for (vector, wanted) in [(&[1, 254][..], "[1,-2]"), (&[][..], "[]")] {
        match write_int8(rt.alloc(), vector) {
            Ok(text) => assert!(rt; text.as_text() == wanted),
            Err(_) => assert!(rt; false),
        }
    }
}

#[test]
fn bit_literals_are_read_and_written(rt: HostRuntime) {
    let cases: [(&[u8], Result<&[u8], LitFault>); 7] = [
        (b"", Ok(&[])),
        (b"0f", Ok(&[15])),
        (b"aBFF", Ok(&[171, 255])),
        (b"0", Err(LitFault::OddHex)),
        (b"0g0", Err(LitFault::OddHex)),
        (b"0g", Err(LitFault::Place(1))),
        (b"00:0", Err(LitFault::Place(2))),
    ];
    for (text, wanted) in cases {
        assert!(rt; same(read_bits(rt.alloc(), text), wanted));
    }
    match write_bits(rt.alloc(), &[15, 160]) {
        Ok(text) => assert!(rt; text.as_text() == "0FA0"),
        Err(_) => assert!(rt; false),
    }
}
