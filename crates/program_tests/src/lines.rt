//! What no clause says: that the grammar and the texts are the ones that were meant.
use heap_core::{Answer, Call, CallFault, Octets};
use line_text::Line;
use trace_text::{LineFault, TraceFault, answer_line, fault_line, print_call, read_line};

// Each call, in its own spelling and in an odd one.
const SPELLINGS: [(&str, &str); 17] = [
    ("a 7 24", "\t a  007 0024 "),
    (
        "a 4294967295 18446744073709551615",
        "a\t4294967295\t000018446744073709551615",
    ),
    ("l 1 8 64", "l 1 8 0064"),
    ("l 1 8 4096", " l 1 8 4096"),
    ("e 1 8", "e 01  8\t"),
    ("r 1 0", "r 1 000"),
    ("f 0", "f\t\t0"),
    ("z", " z "),
    ("o 3", "o  3"),
    ("p 3 0", "p 3 00"),
    (
        "p 3 1.2.3.4.5.6.7.4294967295",
        "p 3 1.2.3.4.5.6.07.04294967295",
    ),
    ("g 100", " g\t100"),
    ("w 1 0 00", "w 1 0 00 "),
    (
        "w 1 18446744073709551615 0123456789abcdef",
        "w 1 18446744073709551615 0123456789AbCDEF",
    ),
    (
        "w 1 0 0123456789abcdef0123456789abcdef0123456789abcdef0123456789abcdef0123456789abcdef0123456789abcdef0123456789abcdef0123456789abcdef",
        "w 1 0 0123456789abcdef0123456789abcdef0123456789abcdef0123456789abcdef0123456789abcdef0123456789abcdef0123456789abcdef0123456789abcdef",
    ),
    ("d 1 0 64", "d 1 0 064"),
    ("d 1 18446744073709551615 1", "d 1 18446744073709551615 1"),
];

#[test]
fn each_spelling_is_read_as_its_call(rt: HostRuntime) {
    for (row, (line, odd)) in SPELLINGS.into_iter().enumerate() {
        let call = read_line(line.as_bytes());
        assert_eq!(rt; read_line(odd.as_bytes()), call, "in row {row}");
        match call {
            Ok(Some(call)) => assert_eq!(rt; print_call(&call).as_str(), line, "in row {row}"),
            _ => panic!(rt; "no call in row {row}"),
        }
    }
}

fn bad(column: u32) -> LineFault {
    LineFault::BadLine { column }
}

fn large(column: u32) -> LineFault {
    LineFault::NumberTooLarge { column }
}

fn faulty() -> [(&'static str, LineFault); 47] {
    [
        ("b 1", bad(1)),
        ("A 1 2", bad(1)),
        ("  aa 1 2", bad(3)),
        ("a", bad(2)),
        ("a ", bad(3)),
        ("a\t1 ", bad(5)),
        ("e 1", bad(4)),
        ("a 1 2 3", bad(7)),
        ("f 1 #", bad(5)),
        ("z z", bad(3)),
        ("a -1 2", bad(3)),
        ("a 1 +2", bad(5)),
        ("a 1 2.0", bad(5)),
        ("a 1 0x10", bad(5)),
        ("a 1 2\r", bad(5)),
        ("a 4294967296 1", large(3)),
        ("a 4294967296 x", large(3)),
        ("a x 18446744073709551616", bad(3)),
        ("a 1 18446744073709551616", large(5)),
        ("a 1 18446744073709551616 2", large(5)),
        ("a 1 99999999999999999999999999", large(5)),
        ("g 18446744073709551616", large(3)),
        ("l 1 8", bad(6)),
        ("l 1 8 3", bad(7)),
        ("l 1 8 0", bad(7)),
        ("l 1 8 8192", bad(7)),
        ("l 1 8 18446744073709551616", large(7)),
        ("p 1", bad(4)),
        ("p 1 .", bad(5)),
        ("p 1 1.", bad(5)),
        ("p 1 1..2", bad(5)),
        ("p 1 1.2.3.4.5.6.7.8.9", bad(5)),
        ("p 1 1.x.99999999999", bad(5)),
        ("p 1 99999999999.x", bad(5)),
        ("p 1 99999999999.2.3.4.5.6.7.8.9", bad(5)),
        ("p 1 1.99999999999", large(5)),
        ("p 1 4294967296", large(5)),
        ("w 1 0", bad(6)),
        ("w 1 0 0", bad(7)),
        ("w 1 0 0g", bad(7)),
        ("w 1 0 012", bad(7)),
        (
            "w 1 0 0123456789abcdef0123456789abcdef0123456789abcdef0123456789abcdef0123456789abcdef0123456789abcdef0123456789abcdef0123456789abcdef00",
            bad(7),
        ),
        ("w 1 18446744073709551616 0", large(5)),
        ("d 1 0 0", bad(7)),
        ("d 1 0 65", bad(7)),
        ("d 1 0 18446744073709551616", large(7)),
        ("f", bad(2)),
    ]
}

#[test]
fn the_first_fault_is_told(rt: HostRuntime) {
    for (row, (line, fault)) in faulty().into_iter().enumerate() {
        assert_eq!(rt; read_line(line.as_bytes()), Err(fault), "in row {row}");
    }
}

#[test]
fn comments_and_blanks_are_no_calls(rt: HostRuntime) {
    for (row, line) in ["", " ", "\t", "#", "# a 1 2", " #a 1", "#\t99999999999"]
        .into_iter()
        .enumerate()
    {
        assert_eq!(rt; read_line(line.as_bytes()), Ok(None), "in row {row}");
    }
}

#[test]
fn a_line_has_at_most_256_bytes(rt: HostRuntime) {
    let mut line = [b'0'; 257];
    line[0] = b'g';
    line[1] = b' ';
    assert_eq!(rt; read_line(&line[..256]), Ok(Some(Call::Good { size: 0 })));
    assert_eq!(rt; read_line(&line), Err(LineFault::TooLong));
}

// Each answer that a kind of call can have, behind the line of the call.
fn answers() -> [(&'static str, Answer, &'static str); 20] {
    let mut bytes = Octets::new();
    bytes.add(1);
    bytes.add(171);
    [
        ("a 7 24", Answer::Placed { place: 128 }, "a 7 128\n"),
        ("a 7 24", Answer::Null, "a 7 null\n"),
        ("l 7 24 8", Answer::Placed { place: 64 }, "l 7 64\n"),
        ("l 7 24 8", Answer::Null, "l 7 null\n"),
        ("e 7 24", Answer::Said { yes: true }, "e 7 true\n"),
        ("e 7 24", Answer::Said { yes: false }, "e 7 false\n"),
        (
            "r 7 24",
            Answer::Moved {
                place: 18_446_744_073_709_551_615,
            },
            "r 7 true 18446744073709551615\n",
        ),
        ("r 7 24", Answer::Said { yes: false }, "r 7 false\n"),
        ("r 7 0", Answer::Gone, "r 7 gone\n"),
        ("f 7", Answer::Said { yes: true }, "f 7 true\n"),
        ("f 7", Answer::Said { yes: false }, "f 7 false\n"),
        ("z", Answer::Done, "z done\n"),
        (
            "o 4294967295",
            Answer::Said { yes: true },
            "o 4294967295 true\n",
        ),
        ("o 7", Answer::Said { yes: false }, "o 7 false\n"),
        ("p 7 0", Answer::Said { yes: true }, "p 7 0 true\n"),
        (
            "p 7 1.20.3",
            Answer::Said { yes: false },
            "p 7 1.20.3 false\n",
        ),
        ("g 100", Answer::Size { size: 128 }, "g 100 128\n"),
        ("w 7 0 FF", Answer::Done, "w 7 ok\n"),
        ("d 7 0 2", Answer::Bytes { bytes }, "d 7 01ab\n"),
        ("g 0", Answer::Size { size: 0 }, "g 0 0\n"),
    ]
}

#[test]
fn answers_are_printed(rt: HostRuntime) {
    let mut formed = Line::new();
    for (row, (line, answer, want)) in answers().into_iter().enumerate() {
        match read_line(line.as_bytes()) {
            Ok(Some(call)) => {
                answer_line(&mut formed, &call, &answer);
                assert_eq!(rt; formed.as_str(), want, "in row {row}");
            }
            _ => panic!(rt; "no call in row {row}"),
        }
    }
}

fn line_fault(fault: LineFault) -> TraceFault {
    TraceFault::Line { fault }
}

fn call_fault(fault: CallFault) -> TraceFault {
    TraceFault::Call { fault }
}

fn faults() -> [(u64, TraceFault, &'static str); 11] {
    [
        (1, line_fault(LineFault::TooLong), "line 1: too long\n"),
        (2, line_fault(bad(257)), "line 2: bad line at column 257\n"),
        (
            3,
            line_fault(large(5)),
            "line 3: number too large at column 5\n",
        ),
        (
            20,
            call_fault(CallFault::NameLive),
            "line 20: name is live\n",
        ),
        (
            5,
            call_fault(CallFault::NameNotLive),
            "line 5: name is not live\n",
        ),
        (
            6,
            call_fault(CallFault::TooManyLive),
            "line 6: too many live blocks\n",
        ),
        (
            7,
            call_fault(CallFault::OutOfBlock),
            "line 7: outside the block\n",
        ),
        (
            8,
            call_fault(CallFault::NotOffered),
            "line 8: not offered\n",
        ),
        (
            9,
            call_fault(CallFault::NotServing),
            "line 9: not serving\n",
        ),
        (
            10,
            call_fault(CallFault::NoSuchLayer),
            "line 10: no such layer\n",
        ),
        (
            u64::MAX,
            TraceFault::TooMuchInput,
            "line 18446744073709551615: too much input\n",
        ),
    ]
}

#[test]
fn faults_are_printed(rt: HostRuntime) {
    for (number, fault, want) in faults() {
        assert_eq!(rt; fault_line(number, &fault).as_str(), want);
    }
}
