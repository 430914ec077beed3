//! Lines, sources and sinks: the happy path of each form, and those in memory that fail.
ghost use Rattle.std.specs.Prelude.{◌≤◌};

use map_io::{
    Failed, FreeSink, FreeSource, Gate, LineReader, MemSink, MemSource, Next, OpenGate, Source,
    StdSink, StdSource, put_all,
};
use std::alloc::{AllocError, Global};
use std::process::Abort;
use std::test::Fail;

// How a transcript shows an answer.
fn letter(answer: Next) -> u8 {
    match answer {
        Next::Line(_) => b'|',
        Next::LongLine => b'L',
        Next::End => b'E',
        Next::ReadFault => b'F',
        Next::InputLimit => b'I',
    }
}

// Writes what a reader answers up to its end or a fault: each line with a bar behind it, and a letter for every other
// answer.
fn transcribe<S: Source>(
    reader: &mut LineReader,
    source: &mut S,
    text: &mut Vec<u8>,
) -> Result<(), AllocError> {
    for _ in 0..100 {
        let answer = reader.next(source);
        if matches!(answer, Next::Line(_)) {
            text.extend_from_slice(reader.line())?;
        }
        text.push(letter(answer))?;
        if !matches!(answer, Next::Line(_) | Next::LongLine) {
            break;
        }
    }
    Ok(())
}

fn transcript<S: Source>(alloc: Global, source: &mut S) -> Result<Vec<u8>, Fail> {
    let mut reader = LineReader::new(alloc)?;
    let mut text = Vec::new(alloc);
    transcribe(&mut reader, source, &mut text)?;
    Ok(text)
}

// What is read, and what is answered.
type Row = (&'static str, &'static str);

// Asserts what is answered of a source that gives the input of a row in some form.
fn reads<S: Source>(
    rt: &impl Abort,
    alloc: Global,
    source: &mut S,
    (input, answers): Row,
    form: &str,
) -> Result<(), Fail> {
    let text = transcript(alloc, source)?;
    assert_eq!(rt; text.as_slice(), answers.as_bytes(), "{input:?} {form}");
    Ok(())
}

fn reads_in_pieces(
    rt: &impl Abort,
    alloc: Global,
    row: Row,
    piece: u32,
    form: &str,
) -> Result<(), Fail>
    requires { 1 ≤ piece }
{
    let bytes = row.0.as_bytes().to_vec(alloc)?;
    let mut source = MemSource::new(bytes, piece, Vec::new(alloc));
    reads(rt, alloc, &mut source, row, form)
}

fn reads_at_once(rt: &impl Abort, alloc: Global, row: Row) -> Result<(), Fail> {
    let mut source = FreeSource::new(row.0.as_bytes().to_vec(alloc)?);
    reads(rt, alloc, &mut source, row, "at once")
}

fn reads_by_std(rt: &impl Abort, alloc: Global, row: Row) -> Result<(), Fail> {
    let mut source = StdSource::new(row.0.as_bytes());
    reads(rt, alloc, &mut source, row, "from a reader of std")
}

fn reads_in_each_form(rt: &impl Abort, alloc: Global, row: Row) -> Result<(), Fail> {
    reads_in_pieces(rt, alloc, row, 1, "in pieces of 1")?;
    reads_in_pieces(rt, alloc, row, 7, "in pieces of 7")?;
    reads_in_pieces(rt, alloc, row, 8192, "in pieces of 8192")?;
    reads_at_once(rt, alloc, row)?;
    reads_by_std(rt, alloc, row)
}

#[test]
fn lines_are_the_same_in_pieces_of_any_size(rt: HostRuntime) -> Result<(), Fail> {
    let table = [
        ("", "E"),
        ("a", "a|E"),
        ("a\n", "a|E"),
        ("\n\n", "||E"),
        ("first\n\n third\r\nlast", "first|| third\r|last|E"),
    ];
    for row in table {
        reads_in_each_form(&rt, rt.alloc(), row)?;
    }
    Ok(())
}

// A source in pieces of ten bytes, whose third read fails.
fn failing_source(alloc: Global, input: &str) -> Result<MemSource, AllocError> {
    let bytes = input.as_bytes().to_vec(alloc)?;
    Ok(MemSource::new(bytes, 10, vec![in alloc; 3]?))
}

#[test]
fn the_third_read_fails(rt: HostRuntime) -> Result<(), Fail> {
    let row = ("0123456\n89abcdefgh\nxyz\n", "0123456|89abcdefgh|F");
    let mut source = failing_source(rt.alloc(), row.0)?;
    reads(&rt, rt.alloc(), &mut source, row, "with a fault")
}

// A line of 65,536 bytes, one of a byte more, and a short one.
fn long_lines(alloc: Global) -> Result<Vec<u8>, AllocError> {
    let mut bytes = vec![in alloc; b'x'; 65_536]?;
    bytes.push(b'\n')?;
    for _ in 0..65_537 {
        bytes.push(b'y')?;
    }
    bytes.extend_from_slice(b"\nz")?;
    Ok(bytes)
}

// What a reader answers next, three times.
fn next_three(reader: &mut LineReader, source: &mut FreeSource) -> [Next; 3] {
    [
        reader.next(source),
        reader.next(source),
        reader.next(source),
    ]
}

// Asserts what a reader answers of them.
fn reads_long_lines(rt: &impl Abort, reader: &mut LineReader, source: &mut FreeSource) {
    let answers = next_three(reader, source);
    let is_short = reader.line() == b"z".as_slice();
    let end = reader.next(source);
    assert!(rt; is_short && end == Next::End);
    assert_eq!(rt;
        answers,
        [Next::Line(65_536), Next::LongLine, Next::Line(1)]
    );
}

#[test]
fn a_line_of_65_537_bytes_is_too_long(rt: HostRuntime) -> Result<(), Fail> {
    let mut source = FreeSource::new(long_lines(rt.alloc())?);
    let mut reader = LineReader::new(rt.alloc())?;
    reads_long_lines(&rt, &mut reader, &mut source);
    Ok(())
}

// A sink with room for five bytes, whose second write fails.
fn failing_sink(alloc: Global) -> Result<MemSink, Fail> {
    let mut sink = MemSink::new(vec![in alloc; 2]?);
    sink.reserve(alloc, 5)?;
    Ok(sink)
}

// Asserts which pieces that sink takes: the second write is to fail, and at the third there is room for two bytes.
fn takes_two_pieces(rt: &impl Abort, sink: &mut MemSink) {
    let put = [
        put_all(sink, b"abc"),
        put_all(sink, b"d"),
        put_all(sink, b"def"),
        put_all(sink, b"de"),
    ];
    assert_eq!(rt; put, [Ok(()), Err(Failed), Err(Failed), Ok(())]);
    assert_eq!(rt; sink.bytes(), b"abcde".as_slice());
}

#[test]
fn pieces_are_put_until_a_sink_fails(rt: HostRuntime) -> Result<(), Fail> {
    let mut sink = failing_sink(rt.alloc())?;
    takes_two_pieces(&rt, &mut sink);
    Ok(())
}

#[test]
fn a_free_sink_counts_what_is_put(rt: HostRuntime) {
    let mut sink = FreeSink::new();
    let put = put_all(&mut sink, b"abcde");
    assert_eq!(rt; (put, sink.count()), (Ok(()), 5));
}

#[test]
fn pieces_are_put_until_a_slice_is_full(rt: HostRuntime) {
    let mut room = [0; 4];
    let mut sink = StdSink::new(room.as_mut_slice());
    assert_eq!(rt; put_all(&mut sink, b"abcde"), Err(Failed));
    assert_eq!(rt; room.as_slice(), b"abcd".as_slice());
}

// Whether a value may go to another thread, and its gate be passed there.
fn may_be_sent<T: Send, G: Gate + Sync>(_value: &T, gate: &G) -> bool {
    gate.pass(1, 0);
    true
}

#[test]
fn the_forms_in_memory_may_be_sent(rt: HostRuntime) -> Result<(), Fail> {
    let alloc = rt.alloc();
    let source = MemSource::new(Vec::new(alloc), 1, Vec::new(alloc));
    assert!(rt; may_be_sent(&source, &OpenGate));
    assert!(rt; may_be_sent(&MemSink::new(Vec::new(alloc)), &OpenGate));
    assert!(rt; may_be_sent(&FreeSource::new(Vec::new(alloc)), &OpenGate));
    assert!(rt; may_be_sent(&FreeSink::new(), &OpenGate));
    assert!(rt; may_be_sent(&LineReader::new(alloc)?, &OpenGate));
    assert!(rt; may_be_sent(&StdSource::new(b"".as_slice()), &OpenGate));
    Ok(())
}
