use crate::answer::Answer;
use crate::frame::Frame;
use crate::hex::decode;
use crate::letter::Letter;
use crate::lines::first_line;
use crate::responder::Responder;
use crate::serve::serve;
use book::volume::MOST_PLACES;
use instruments::bond::BondRow;
use instruments::refusal::Refusal;
use instruments::swap::SwapRow;
use std::io::{self, BufReader, ErrorKind, Read};
use std::test::Fail;

#[test]
fn answers(rt: HostRuntime) -> Result<(), Fail> {
    let mut out = Vec::new(rt.alloc());
    Answer::accepted(Letter::Settle).write(&mut out)?;
    Answer::answered(Letter::Factor, 800_000_000, 800_000_001).write(&mut out)?;
    Answer::answered(Letter::Forward, -1, 0).write(&mut out)?;
    Answer::refused(Letter::Reserve, Refusal::NotSettled).write(&mut out)?;
    Answer::refused(Letter::Withdraw, Refusal::NoneHeld(90)).write(&mut out)?;
    Answer::unread(Refusal::Malformed).write(&mut out)?;
    let lines = b"530000\n\
        440000000000002FAF0800000000002FAF0801\n\
        460000FFFFFFFFFFFFFFFF0000000000000000\n\
        521600\n\
        570D5A\n\
        3F0100\n";
    assert!(rt; out.as_slice() == lines.as_slice());
    Ok(())
}

#[test]
fn digits(rt: HostRuntime) -> Result<(), Fail> {
    let bytes = decode(b"5aF0").ok_or("none")?;
    assert_eq!(rt; bytes.len(), 2);
    assert!(rt; bytes.as_slice() == [0x5a, 0xf0].as_slice());
    let bytes = decode(b"00112233445566778899").ok_or("none")?;
    assert_eq!(rt; bytes.len(), 10);
    assert_eq!(rt; bytes.last(), Some(&0x99));
    assert!(rt; decode(b"").is_none());
    assert!(rt; decode(b"5").is_none());
    assert!(rt; decode(b"530").is_none());
    assert!(rt; decode(b"5300\r").is_none());
    assert!(rt; decode(b"530\r").is_none());
    assert!(rt; decode(b"5G").is_none());
    assert!(rt; decode(b"0011223344556677889900").is_none());
    Ok(())
}

#[test]
fn cuts(rt: HostRuntime) -> Result<(), Fail> {
    let (line, next) = first_line(b"53\n\n52").ok_or("none")?;
    assert!(rt; line == b"53".as_slice());
    assert_eq!(rt; next, 3);
    let (line, next) = first_line(b"\n52").ok_or("none")?;
    assert!(rt; line.is_empty());
    assert_eq!(rt; next, 1);
    let (line, next) = first_line(b"52").ok_or("none")?;
    assert!(rt; line == b"52".as_slice());
    assert_eq!(rt; next, 2);
    assert!(rt; first_line(b"").is_none());
    Ok(())
}

#[test]
fn frames(rt: HostRuntime) -> Result<(), Fail> {
    let post = [0x50, 30, 0xff, 0xff, 0xff, 0xfe];
    assert_eq!(rt; Frame::letter(&post)?, Letter::Post);
    match Frame::read(Letter::Post, &post, 6)? {
        Frame::Post(year, amount) => assert_eq!(rt; (year, amount), (30, -2)),
        _ => return Err(Fail::new("no posting")),
    }
    match Frame::read(Letter::Open, b"OS\0SEK", 0)? {
        Frame::Open { kind, class, code } => {
            assert_eq!(rt; (kind, class, code), (b'S', 0, *b"SEK"));
        }
        _ => return Err(Fail::new("no opening")),
    }
    match Frame::read(Letter::Quote, b"Q\x01", 6) {
        Ok(_) => Err(Fail::new("accepted")),
        Err(refusal) => {
            assert_eq!(rt; refusal.number(), 4);
            Ok(())
        },
    }
}

#[test]
fn letters(rt: HostRuntime) -> Result<(), Fail> {
    for byte in 0..=255u8 {
        if let Ok(letter) = Letter::try_from(byte) {
            assert_eq!(rt; u8::from(letter), byte);
        }
    }
    match Frame::letter(&[0x3f]) {
        Ok(_) => Err(Fail::new("accepted")),
        Err(refusal) => {
            assert_eq!(rt; refusal.number(), 2);
            Ok(())
        },
    }
}

#[test]
fn dialogue(rt: HostRuntime) -> Result<(), Fail> {
    let mut swaps = [SwapRow::default(); MOST_PLACES];
    let mut bonds = [BondRow::default(); MOST_PLACES];
    let mut responder = Responder::new(&mut swaps, &mut bonds);
    let mut out = Vec::new(rt.alloc());
    let lines: [&[u8]; 8] = [
        b"52",
        b"4F5302585858",
        b"4F4200585858",
        b"5101000000002FAF0800",
        b"5001000003E8",
        b"53",
        b"4401",
        b"4F4200585858",
    ];
    for line in &lines {
        responder.answer(line).write(&mut out)?;
    }
    let answers = b"520300\n\
        4F0500\n\
        4F0000\n\
        510000\n\
        500000\n\
        530000\n\
        440000000000002FAF0800000000002FAF0801\n\
        4F0300\n";
    assert!(rt; out.as_slice() == answers.as_slice());
    Ok(())
}

#[test]
fn pieces(rt: HostRuntime) -> Result<(), Fail> {
    let heap = rt.alloc();
    let lines: &[u8] = b"52\n4F4200585858\n\n5101000000002FAF0800\n53\n4401\n52";
    let answers = b"520300\n\
        4F0000\n\
        3F0100\n\
        510000\n\
        530000\n\
        440000000000002FAF0800000000002FAF0801\n\
        52000000000000000000000000000000000000\n";
    for capacity in [1, 3, 1000] {
        let mut input = BufReader::with_capacity(heap, capacity, lines)?;
        let mut out = Vec::new(heap);
        serve(heap, &mut input, &mut out)?;
        assert!(rt; out.as_slice() == answers.as_slice());
    }
    Ok(())
}

// Gives a line and the begin of another, and then fails.
#[derive(Drop)]
struct Broken {
    given: bool,
}

impl Read for Broken {
    fn read(&mut self, buf: &mut [u8]) -> io::Result<usize> {
        if self.given {
            return Err(io::Error::from(ErrorKind::BrokenPipe));
        }
        self.given = true;
        let mut source: &[u8] = b"52\n5";
        source.read(buf)
    }
}

#[test]
fn answered_before_more_is_read(rt: HostRuntime) -> Result<(), Fail> {
    let heap = rt.alloc();
    let mut input = BufReader::with_capacity(heap, 100, Broken { given: false })?;
    let mut out = Vec::new(heap);
    assert!(rt; serve(heap, &mut input, &mut out).is_err());
    assert!(rt; out.as_slice() == b"520300\n".as_slice());
    Ok(())
}
