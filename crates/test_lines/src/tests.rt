//! The line program over readers and writers that fail, and over memory that does.

mod memory;

use aegis_lines::answer_line;
use aegis_session::run;
use std::io::ErrorKind;
use std::test::Fail;
use test_tools::ends::{CutOff, Narrow};

const ROUND: &str = "round 00000000000000000000000000000000 00000000000000000000000000000000";

const ROUND_ANSWER: &str = "63636363636363636363636363636363\n";

const STREAM: &str =
    "stream aegis128l 59454c4c4f57205355424d4152494e45 00000000000000000000000000000000 0";

const STREAM_ANSWER: &str = "-\n";

#[test]
fn answers_a_thousand_lines(rt: HostRuntime) -> Result<(), Fail> {
    let mut input = String::new(rt.alloc());
    let mut wanted = String::new(rt.alloc());
    for _ in 0..1000u32 {
        input.push_str(ROUND)?;
        input.push_str("\n")?;
        wanted.push_str(ROUND_ANSWER)?;
    }
    let mut output = Vec::new(rt.alloc());
    let status = run(rt.alloc(), &mut input.as_bytes(), &mut output);
    assert_eq!(rt; status, 0);
    assert_eq!(rt; output.as_slice(), wanted.as_bytes());
    Ok(())
}

// Lines, their answers, and the exit status of a run on each alone.
const LINES: [(&str, &str, u8); 14] = [
    (ROUND, "63636363636363636363636363636363", 0),
    (STREAM, "-", 0),
    (
        "stream aegis128l 59454c4c4f57205355424d4152494e45 00000000000000000000000000000000 65537",
        "error length",
        1,
    ),
    (
        "mac aegis128l 16 59454c4c4f57205355424d4152494e45 00000000000000000000000000000000 -,61,-",
        "7b1e31c93ef8a9b70d3a7aae2980d6a0",
        0,
    ),
    (
        "mac aegis128l 16 59454c4c4f57205355424d4152494e45 00000000000000000000000000000000 ,",
        "error hex",
        1,
    ),
    (
        "seal aegis128l 24 59454c4c4f57205355424d4152494e45 00000000000000000000000000000000 - -",
        "error tag",
        1,
    ),
    (
        "seal aegis128l 016 59454c4c4f57205355424d4152494e45 00000000000000000000000000000000 - -",
        "error tag",
        1,
    ),
    (
        "seal Aegis128L 16 59454c4c4f57205355424d4152494e45 00000000000000000000000000000000 - -",
        "error variant",
        1,
    ),
    (
        "seal aegis128l 16 59454c4c4f57205355424d4152494e4 00000000000000000000000000000000 - -",
        "error hex",
        1,
    ),
    // A key of 15 bytes.
    (
        "seal aegis128l 16 59454c4c4f57205355424d4152494e 00000000000000000000000000000000 - -",
        "error length",
        1,
    ),
    (
        "round  00000000000000000000000000000000 00000000000000000000000000000000",
        "error fields",
        1,
    ),
    (
        " round 00000000000000000000000000000000 00000000000000000000000000000000",
        "error command",
        1,
    ),
    (
        "Round 00000000000000000000000000000000 00000000000000000000000000000000",
        "error command",
        1,
    ),
    (
        "openrec 0000000000000000000000000000000000000000000000000000000000000000 000000000000000000000000000000000000000000000000 - -",
        "refused header",
        0,
    ),
];

#[test]
fn lines_alone(rt: HostRuntime) -> Result<(), Fail> {
    for (line, expected, wanted) in LINES {
        let answer = answer_line(rt.alloc(), line.as_bytes())?;
        assert_eq!(rt; answer.as_slice(), expected.as_bytes(), "{line}");
        let mut output = Vec::new(rt.alloc());
        let status = run(rt.alloc(), &mut line.as_bytes(), &mut output);
        assert_eq!(rt; status, wanted, "{line}");
        assert_eq!(rt; output.pop(), Some(b'\n'), "{line}");
        assert_eq!(rt; output.as_slice(), expected.as_bytes(), "{line}");
    }
    Ok(())
}

// Inputs whose ends of lines, or bytes, are unusual, their answers and the status.
#[test]
fn unusual_inputs(rt: HostRuntime) -> Result<(), Fail> {
    let cases: [(&[u8], &str, &str, &str, u8); 8] = [
        (b"", "", "", "", 0),
        (b"\n", "", "", "error command\n", 1),
        (b"\xff\n", "", "", "error command\n", 1),
        (b"", ROUND, "", ROUND_ANSWER, 0),
        (b"", ROUND, "\r\n", ROUND_ANSWER, 0),
        (b"", ROUND, "\r\r\n", "error hex\n", 1),
        (
            b"\xff\n",
            ROUND,
            "",
            "error command\n63636363636363636363636363636363\n",
            1,
        ),
        (
            b"\n\n",
            " ",
            "",
            "error command\nerror command\nerror command\n",
            1,
        ),
    ];
    for (start, line, end, expected, wanted) in cases {
        let mut input = Vec::from_slice(rt.alloc(), start)?;
        input.extend_from_slice(line.as_bytes())?;
        input.extend_from_slice(end.as_bytes())?;
        let mut output = Vec::new(rt.alloc());
        let status = run(rt.alloc(), &mut input.as_slice(), &mut output);
        assert_eq!(rt; status, wanted, "{start:?} {line} {end:?}");
        assert_eq!(rt;
            output.as_slice(),
            expected.as_bytes(),
            "{start:?} {line} {end:?}"
        );
    }
    Ok(())
}

// Three lines and their answers.
fn three_lines<R: AllocGlobal>(rt: &R) -> Result<(String, String), Fail> {
    let input = format!(in rt.alloc(); "{ROUND}\n{STREAM}\r\n{ROUND}\n")?;
    let wanted = format!(in rt.alloc(); "{ROUND_ANSWER}{STREAM_ANSWER}{ROUND_ANSWER}")?;
    Ok((input, wanted))
}

// The lines that were read are answered, and a line that is cut off is not. The last reader fails after all its bytes.
#[test]
fn stops_where_a_read_fails(rt: HostRuntime) -> Result<(), Fail> {
    let (input, wanted) = three_lines(&rt)?;
    let input = input.as_bytes();
    for count in 0..=input.len() {
        let read = &input[..count];
        let ended = read.iter().filter(|byte| **byte == b'\n').count();
        let answers = wanted.as_bytes().split(|byte| *byte == b'\n').take(ended);
        let mut expected = Vec::new(rt.alloc());
        for answer in answers {
            expected.extend_from_slice(answer)?;
            expected.push(b'\n')?;
        }
        for error in [ErrorKind::Other, ErrorKind::Interrupted] {
            let mut reader = CutOff { left: read, error };
            let mut output = Vec::new(rt.alloc());
            let status = run(rt.alloc(), &mut reader, &mut output);
            assert_eq!(rt; status, 2, "after {count} bytes");
            assert_eq!(rt;
                output.as_slice(),
                expected.as_slice(),
                "after {count} bytes"
            );
        }
    }
    Ok(())
}

// Runs the program into a writer that takes a byte at a time while it has room. Returns the status and the bytes.
fn run_into<R: AllocGlobal>(
    rt: &R,
    input: &str,
    room: usize,
    error: Option<ErrorKind>,
    flushes: bool,
) -> (u8, Vec<u8>) {
    let mut output = Narrow {
        written: Vec::new(rt.alloc()),
        room,
        error,
        flushes,
    };
    let status = run(rt.alloc(), &mut input.as_bytes(), &mut output);
    (status, output.written)
}

// A writer that has room for some bytes, and then fails or takes none, has exactly these.
#[test]
fn stops_where_a_write_fails(rt: HostRuntime) -> Result<(), Fail> {
    let (input, wanted) = three_lines(&rt)?;
    for room in 0..wanted.len() {
        for error in [None, Some(ErrorKind::Other), Some(ErrorKind::Interrupted)] {
            let (status, written) = run_into(&rt, input.as_str(), room, error, true);
            assert_eq!(rt; status, 2, "with room {room}");
            assert_eq!(rt; written.len(), room, "with room {room}");
            assert!(rt; wanted.as_bytes().starts_with(&written), "with room {room}");
        }
    }
    Ok(())
}

// The whole output reaches a writer that takes it byte by byte, even if its flush then fails.
#[test]
fn writes_a_byte_at_a_time(rt: HostRuntime) -> Result<(), Fail> {
    let (input, wanted) = three_lines(&rt)?;
    for (flushes, expected) in [(true, 0), (false, 2)] {
        let (status, written) = run_into(&rt, input.as_str(), wanted.len(), None, flushes);
        assert_eq!(rt; status, expected);
        assert_eq!(rt; written.as_slice(), wanted.as_bytes());
    }
    Ok(())
}
