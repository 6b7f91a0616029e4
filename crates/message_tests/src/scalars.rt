use crate::comparing::expect_same;
use message_codec::wire::Out;
use message_codec::writer::counting::{count_fixed, count_signed, count_truth};
use message_codec::writer::putting::{put_enum, put_fixed, put_signed, put_truth};

/// Spellings by the Protocol Buffers encoding guide, "Signed Integers" and "Non-varint Numbers".
#[test]
fn numbers(rt: HostRuntime) {
    let mut out = Out::new(rt.alloc());
    put_signed(&mut out, 3, -2).expect(&rt, "memory");
    put_fixed(&mut out, 2, 1).expect(&rt, "memory");
    put_truth(&mut out, 1, true).expect(&rt, "memory");
    put_truth(&mut out, 1, false).expect(&rt, "memory");
    put_enum(&mut out, 16, 300).expect(&rt, "memory");
    let expected =
        b"\x18\xfe\xff\xff\xff\xff\xff\xff\xff\xff\x01\x11\x01\x00\x00\x00\x00\x00\x00\x00\x08\x01\x80\x01\xac\x02";
    expect_same(&rt, &out.as_slice(), &expected.as_slice());
    assert!(rt; count_truth(count_fixed(count_signed(0, 3, -2), 2, 1), 1, true) == 22);
}
