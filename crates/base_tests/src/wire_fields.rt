// Values of the Protocol Buffers encoding guide, and one row for each reason.
use crate::comparing::expect_same;
use message_codec::wire::{
    Field, FieldValue, Out, Refused, Why, fill_tag, fill_varint, put_bytes, put_tag, put_varint,
    read_field, varint_len,
};
use std::process::Abort;

fn read(rt: &impl Abort, bytes: &[u8]) -> Result<Field, Refused> {
    assert!(rt; bytes.len() > 0);
    read_field(bytes, 0, bytes.len() as u64)
}

#[test]
fn fields(rt: HostRuntime) {
    let minus_two = b"\x08\xfe\xff\xff\xff\xff\xff\xff\xff\xff\x01".as_slice();
    for (bytes, number, value, next) in [
        (b"\x08\x96\x01".as_slice(), 1, FieldValue::Varint(150), 3),
        (minus_two, 1, FieldValue::Varint(u64::MAX - 1), 11),
        (b"\x88\x80\x00\x05", 1, FieldValue::Varint(5), 4),
        (
            b"\x12\x07testing!",
            2,
            FieldValue::Bytes { from: 2, to: 9 },
            9,
        ),
        (b"\x0d\x01\x00\x00\x00\x09", 1, FieldValue::Four(1), 5),
        (
            b"\x09\x02\x00\x00\x00\x00\x00\x00\x00",
            1,
            FieldValue::Eight(2),
            9,
        ),
    ] {
        let field = Field {
            number,
            value,
            next,
        };
        expect_same(&rt, &read(&rt, bytes), &Ok(field));
    }
}

#[test]
fn faults(rt: HostRuntime) {
    let tenth_byte_of_two = b"\x08\xff\xff\xff\xff\xff\xff\xff\xff\xff\x02".as_slice();
    for (bytes, at, why) in [
        (b"\x80".as_slice(), 0, Why::Truncated),
        (b"\x12\x02a", 1, Why::Truncated),
        (b"\x0d\x01\x00\x00", 1, Why::Truncated),
        (tenth_byte_of_two, 1, Why::VarintTooLong),
        (b"\x00\x01", 0, Why::BadTag),
        (b"\x80\x80\x80\x80\x10", 0, Why::BadTag),
        (b"\x0b", 0, Why::Group),
        (b"\x0e", 0, Why::BadWireType),
    ] {
        expect_same(&rt, &read(&rt, bytes), &Err(Refused { at, why }));
    }
}

#[test]
fn written(rt: HostRuntime) {
    let mut out = Out::new(rt.alloc());
    out.reserve(20).expect(&rt, "memory");
    put_varint(&mut out, 1).expect(&rt, "memory");
    out.clear();
    put_tag(&mut out, 2, 2).expect(&rt, "memory");
    put_bytes(&mut out, b"testing").expect(&rt, "memory");
    put_varint(&mut out, 150).expect(&rt, "memory");
    put_varint(&mut out, u64::MAX - 1).expect(&rt, "memory");
    expect_same(
        &rt,
        &out.into_vec().as_slice(),
        &b"\x12\x07testing\x96\x01\xfe\xff\xff\xff\xff\xff\xff\xff\xff\x01".as_slice(),
    );
    expect_same(&rt, &varint_len(u64::MAX), &10);
}

/// The guide's first message, written from its end to its front.
#[test]
fn filled(rt: HostRuntime) {
    let mut out = Out::new(rt.alloc());
    out.append_zeros(3).expect(&rt, "memory");
    let value = fill_varint(&mut out, 3, 150);
    let start = fill_tag(&mut out, value, 1, 0);
    expect_same(
        &rt,
        &(start, out.as_slice()),
        &(0, b"\x08\x96\x01".as_slice()),
    );
}
