//! A desk and its lines, on receipts that another implementation of CMAC made.

use card_types::Aid;
use line_runs::{LineTaker, Taking, Text};
use receipt_desk::{Audit, Desk, Verdict};
use std::test::Fail;

/// The bytes 40 to 4F.
const KEY: &[u8] = b"@ABCDEFGHIJKLMNO";

/// The receipt 0001 of a card without unique data, of two things.
const RECEIPT: [u8; 22] = [
    0x15, 0x10, 0x7E, 0x57, 0xD5, 0x1A, 0x56, 0x8C, 0xE1, 0xB1, 0x6F, 0xCC, 0xC9, 0xD7, 0x35, 0x9A,
    0x54, 0x5C, 0x02, 0x00, 0x01, 0x00,
];

/// The token of a command with P1 02 and nothing before its token.
const TOKEN: [u8; 16] = [
    0xD1, 0xCC, 0xCE, 0x52, 0x50, 0x9C, 0x0D, 0xBE, 0x24, 0x32, 0x30, 0x8B, 0x1D, 0xA7, 0xCE, 0x84,
];

#[test]
fn a_desk_signs_and_judges(rt: HostRuntime) -> Result<(), Fail> {
    let file = Aid::new(b"\xd2\0\0\0\xaa").ok_or("an AID")?;
    let domain = Aid::new(b"\xd1\0\0\0\x01").ok_or("an AID")?;
    let mut desk = Desk::new();
    assert!(rt; !desk.set_key(&KEY[..15]) && !desk.has_key());
    assert!(rt; desk.set_key(KEY) && desk.has_key());
    desk.set_unique(&[]);
    desk.start_from(0);
    assert!(rt; desk.sign(0x02, 0x00, &[]) == TOKEN);
    let verdict = desk.judge(&RECEIPT, &file, Some(&domain), None);
    assert!(rt; verdict == Verdict::Fits(1));
    let again = desk.judge(&RECEIPT, &file, Some(&domain), None);
    let wanted = Verdict::Number {
        have: 1,
        want: Some(2),
    };
    assert!(rt; again == wanted);
    Ok(())
}

#[test]
fn an_audit_takes_lines(rt: HostRuntime) -> Result<(), Fail> {
    let lines: [(&[u8], &[u8]); 6] = [
        (b"key 404142434445464748494a4b4c4d4e4f", b""),
        (b"sign 02 00 -", b"d1ccce52509c0dbe2432308b1da7ce84\n"),
        (
            b"receipt 15107e57d51a568ce1b16fccc9d7359a545c02000100 d2000000aa d100000001",
            b"ok 0001\n",
        ),
        (b"receipt 00 d2000000aa", b"form\n"),
        (b"from ffff", b""),
        (
            b"receipt 15107e57d51a568ce1b16fccc9d7359a545c02000100 d2000000aa d100000001",
            b"number 0001 want none\n",
        ),
    ];
    let mut audit = Audit::new();
    let mut text = Text::new();
    assert!(rt; !audit.differs() && audit.take_line(b"sign 02 00 -", &mut text) == Taking::NoForm);
    for (line, wanted) in lines {
        assert!(rt; audit.take_line(line, &mut text) == Taking::Taken && text.as_slice() == wanted);
    }
    assert!(rt; audit.differs());
    Ok(())
}
