//! What no clause says: what the adapters hand on, and each call once.
ghost use Rattle.std.specs.Prelude.{◌≡◌, false};

use std::io::{self, ErrorKind, Read, Write};
use std::process::Abort;
use std::test::Fail;
use troop_ports::*;

/// A reader that gives one byte, then an error, then its end.
#[derive(Drop)]
struct Stumbling {
    calls: u8,
}

impl Read for Stumbling {
    fn read(&mut self, buf: &mut [u8]) -> io::Result<usize> {
        self.calls = self.calls.saturating_add(1);
        match self.calls {
            1 if !buf.is_empty() => {
                buf[0] = b'x';
                Ok(1)
            }
            2 => Err(ErrorKind::BrokenPipe.into()),
            _ => Ok(0),
        }
    }
}

// What three reads answer, and the first byte that came.
fn three_reads<S: Source>(source: &mut S) -> ([Got; 3], u8)
    requires { S.closed source.old ≡ false }
{
    let mut buf = [0; 4];
    let first = source.read(&mut buf);
    let byte = buf[0];
    ([first, source.read(&mut buf), source.read(&mut buf)], byte)
}

#[test]
fn a_std_source_hands_on_bytes_errors_and_the_end(rt: HostRuntime) {
    let answers = three_reads(&mut StdSource::new(Stumbling { calls: 0 }));
    let wanted = ([Got::Bytes(1), Got::Failed, Got::End], b'x');
    assert_eq!(rt; answers, wanted);
}

/// A writer that takes two bytes, then an error, then nothing at all.
#[derive(Drop)]
struct Stuck {
    calls: u8,
}

impl Write for Stuck {
    fn write(&mut self, buf: &[u8]) -> io::Result<usize> {
        self.calls = self.calls.saturating_add(1);
        match self.calls {
            1 => Ok(buf.len().min(2)),
            2 => Err(ErrorKind::BrokenPipe.into()),
            _ => Ok(0),
        }
    }

    fn flush(&mut self) -> io::Result<()> {
        Ok(())
    }
}

// What three writes answer.
fn three_writes<S: Sink>(sink: &mut S) -> [Put; 3]
    requires { S.closed sink.old ≡ false }
{
    [sink.write(b"abc"), sink.write(b"c"), sink.write(b"c")]
}

#[test]
fn a_std_sink_hands_on_bytes_and_faults(rt: HostRuntime) {
    let answers = three_writes(&mut StdSink::new(Stuck { calls: 0 }));
    assert_eq!(rt; answers, [Put::Took(2), Put::Failed, Put::Failed]);
}

fn read_once(source: &mut BytesSource, buf: &mut [u8; 4]) -> Got {
    source.read(buf)
}

// Looks that reads into one buffer answer so.
fn read_so(rt: &impl Abort, source: &mut BytesSource, buf: &mut [u8; 4], wants: &[Got]) {
    for want in wants {
        assert_eq!(rt; read_once(source, buf), *want);
    }
}

#[test]
fn a_bytes_source_follows_its_script(rt: HostRuntime) -> Result<(), Fail> {
    let mut source = BytesSource::new(rt.alloc(), b"abcdefgh", &[0, 2], &[2])?;
    let mut buf = [0; 4];
    let wants = [
        Got::Bytes(1),
        Got::Failed,
        Got::Bytes(2),
        Got::Bytes(4),
        Got::Bytes(1),
        Got::End,
    ];
    read_so(&rt, &mut source, &mut buf, &wants);
    assert_eq!(rt; buf, *b"hefg");
    Ok(())
}

// Writes more than there is room for.
fn write_too_much(sink: &mut BytesSink) -> (Put, [Written; 2]) {
    let put = sink.write(b"abc");
    (put, [write_all(sink, b"def"), write_all(sink, b"def")])
}

#[test]
fn a_bytes_sink_takes_what_fits_its_room(rt: HostRuntime) -> Result<(), Fail> {
    let mut sink = BytesSink::new(rt.alloc(), 5, &[2])?;
    let wanted = (Put::Took(3), [Written::Part(0), Written::Part(2)]);
    assert_eq!(rt; write_too_much(&mut sink), wanted);
    assert_eq!(rt; sink.bytes(), b"abcde".as_slice());
    Ok(())
}

// Reads pieces of two bytes. What stood in the buffer before the end.
fn read_to_end(source: &mut CalmSource) -> ([Got; 3], [u8; 2]) {
    let mut buf = [0; 2];
    let got = [source.read(&mut buf), source.read(&mut buf)];
    let bytes = buf;
    ([got[0], got[1], source.read(&mut buf)], bytes)
}

#[test]
fn the_calm_forms_never_fail(rt: HostRuntime) -> Result<(), Fail> {
    let mut source = CalmSource::new(rt.alloc(), b"abc")?;
    let wanted = ([Got::Bytes(2), Got::Bytes(1), Got::End], *b"cb");
    assert_eq!(rt; read_to_end(&mut source), wanted);
    assert_eq!(rt; write_all(&mut CalmSink::new(), b"abc"), Written::All);
    Ok(())
}
