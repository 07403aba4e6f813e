//! BER-TLV elements.

use arrayvec::ArrayVec;
use bertlv::{Tlv, TlvError, is_tag, read, write};

/// Whether this is a header and an element's value, and is read as the element.
fn is_written(out: &[u8], header: &[u8], element: &Tlv<'_>) -> bool {
    out.strip_prefix(header) == Some(element.value) && read(out) == Ok((*element, [].as_slice()))
}

/// Each form of tag and of length, and the longest that fit.
#[test]
fn writes_and_reads_each_form(rt: HostRuntime) {
    let filler = [0xAA; 257];
    let cases: [(u16, usize, &[u8]); 10] = [
        (0x42, 0, &[0x42, 0x00]),
        (0x6F, 16, &[0x6F, 0x10]),
        (0x42, 127, &[0x42, 0x7F]),
        (0x42, 128, &[0x42, 0x81, 0x80]),
        (0xC4, 255, &[0xC4, 0x81, 0xFF]),
        (0xC4, 256, &[0xC4, 0x82, 0x01, 0x00]),
        (0xC4, 257, &[0xC4, 0x82, 0x01, 0x01]),
        (0x9F70, 1, &[0x9F, 0x70, 0x01]),
        (0x5F1F, 200, &[0x5F, 0x1F, 0x81, 0xC8]),
        (0x7F7F, 256, &[0x7F, 0x7F, 0x82, 0x01, 0x00]),
    ];
    for (tag, size, header) in cases {
        assert!(rt; is_tag(tag), "{tag}");
        assert!(rt; size <= filler.len(), "{tag}");
        let element = Tlv {
            tag,
            value: &filler[..size],
        };
        let mut out = ArrayVec::<u8, 261>::new();
        let written = write(&element, &mut out).is_ok();
        assert!(rt;
            written && is_written(&out, header, &element),
            "{tag} {size}"
        );
    }
}

#[test]
fn keeps_what_has_no_room(rt: HostRuntime) {
    let filler = [0xAA; 258];
    let mut out = ArrayVec::<u8, 261>::new();
    let long = Tlv {
        tag: 0x42,
        value: &filler,
    };
    let refused = write(&long, &mut out).is_err();
    let count = out.len();
    let short = Tlv {
        tag: 0x9F70,
        value: &[],
    };
    let written = write(&short, &mut out).is_ok();
    assert!(rt; (refused, count, written) == (true, 0, true));
    assert!(rt; out.as_slice() == [0x9F, 0x70, 0x00].as_slice());
}

/// The answer to SELECT of an Issuer Security Domain (GlobalPlatform Card Specification, 11.9.3.1).
const REPLY: [u8; 20] = [
    0x6F, 0x10, 0x84, 0x08, 0xA0, 0x00, 0x00, 0x01, 0x51, 0x00, 0x00, 0x00, 0xA5, 0x04, 0x9F, 0x65,
    0x01, 0xFF, 0x90, 0x00,
];

#[test]
fn reads_nested_elements(rt: HostRuntime) {
    let cases: [(&[u8], u16, &[u8], &[u8]); 4] = [
        (&REPLY, 0x6F, &REPLY[2..18], &[0x90, 0x00]),
        (&REPLY[2..18], 0x84, &REPLY[4..12], &REPLY[12..18]),
        (&REPLY[12..18], 0xA5, &REPLY[14..18], &[]),
        (&REPLY[14..18], 0x9F65, &[0xFF], &[]),
    ];
    for (bytes, tag, value, rest) in cases {
        assert!(rt; read(bytes) == Ok((Tlv { tag, value }, rest)), "{tag}");
    }
}

#[test]
fn refuses_at_its_place(rt: HostRuntime) {
    let cases: [(&[u8], TlvError); 17] = [
        (&[], TlvError::Short(0)),
        (&[0x00], TlvError::Tag(0)),
        (&[0x1F], TlvError::Short(1)),
        (&[0x5F, 0x1E], TlvError::Tag(1)),
        (&[0x5F, 0x80, 0x01], TlvError::Tag(1)),
        (&[0x42], TlvError::Short(1)),
        (&[0x5F, 0x1F], TlvError::Short(2)),
        (&[0x42, 0x80], TlvError::Length(1)),
        (&[0x42, 0x83], TlvError::Length(1)),
        (&[0x9F, 0x70, 0xFF], TlvError::Length(2)),
        (&[0x42, 0x81], TlvError::Short(2)),
        (&[0x42, 0x81, 0x7F], TlvError::Length(1)),
        (&[0x42, 0x82, 0x00], TlvError::Short(3)),
        (&[0x42, 0x82, 0x00, 0xFF], TlvError::Length(1)),
        (&[0x42, 0x02, 0xAA], TlvError::Short(3)),
        (&[0x42, 0x81, 0x80, 0xAA], TlvError::Short(4)),
        (&[0x42, 0x82, 0x01, 0x00], TlvError::Short(4)),
    ];
    for (bytes, error) in cases {
        assert!(rt; read(bytes) == Err(error), "{error:?}");
    }
}
