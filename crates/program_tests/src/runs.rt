//! What no clause says: that runs come to their end with ample memory.
ghost use Rattle.std.specs.Prelude.{◌≡◌, Some, false, true};

use play_core::{Status, run};
use source_sink::{
    Failed, MemorySink, MemorySource, Sink, Source, StdSink, StdSource, StillSink, StillSource,
};
use space_core::Space;
use std::alloc::{AllocError, Global};
use std::cell::Cell;
use std::io::{self, Read, Write};
use std::process::Abort;
use std::test::Fail;

/// The words, the trace, and what it is told.
#[derive(Clone, Copy, Drop)]
pub struct Row {
    pub words: &'static [&'static str],
    pub trace: &'static str,
    pub status: Status,
    pub told: &'static str,
}

const TRACES: [Row; 40] = [
    // the examples
    Row {
        words: &["replay", "region(1024,16,mem)", "64"],
        trace: "a 1 100\na 2 1\nf 1\nf 2\na 3 16\n",
        status: Status::Good,
        told: "a 1 0\na 2 112\nf 1 false\nf 2 true\na 3 112\nlive 1\nasked 16\nextent 16\nslack 0\nnode 0 region room 896 longest 896\nnode 1 mem cells 16\n",
    },
    Row {
        words: &["replay", "region(1024,16,mem)", "64"],
        trace: "a 1 600\na 2 600\na 3 400\nf 3\na 4 416\n",
        status: Status::Good,
        told: "a 1 0\na 2 null\na 3 608\nf 3 true\na 4 608\nlive 2\nasked 1016\nextent 1024\nslack 8\nnode 0 region room 0 longest 0\nnode 1 mem cells 16\n",
    },
    Row {
        words: &["replay", "region(1024,16,mem)", "64"],
        trace: "a 1 32\nf 1\nf 1\na 2 8\n",
        status: Status::Trace,
        told: "a 1 0\nf 1 true\nline 3: name is not live\n",
    },
    Row {
        words: &["replay", "mem", "8"],
        trace: "a 1 100\na 2 64\na 3 128\nf 1\nf 3\na 4 64\na 5 192\nf 2\na 6 64\n",
        status: Status::Good,
        told: "a 1 0\na 2 128\na 3 192\nf 1 true\nf 3 true\na 4 0\na 5 192\nf 2 true\na 6 64\nlive 3\nasked 320\nextent 320\nslack 0\nnode 0 mem cells 5\n",
    },
    Row {
        words: &["replay", "region(65536,64,mem)", "1024"],
        trace: "a 1 8\na 2 24\na 3 65\na 4 1\nf 4\n",
        status: Status::Good,
        told: "a 1 0\na 2 64\na 3 128\na 4 256\nf 4 true\nlive 3\nasked 97\nextent 256\nslack 159\nnode 0 region room 65280 longest 65280\nnode 1 mem cells 1024\n",
    },
    Row {
        words: &["replay", "region(1048576,1,mem)", "16384"],
        trace: "a 1 5\na 2 11\na 3 1\na 4 0\na 5 300\n",
        status: Status::Good,
        told: "a 1 0\na 2 5\na 3 16\na 4 null\na 5 17\nlive 4\nasked 317\nextent 317\nslack 0\nnode 0 region room 1048259 longest 1048259\nnode 1 mem cells 16384\n",
    },
    Row {
        words: &["replay", "region(256,8,region(4096,64,mem))", "64"],
        trace: "a 1 12\na 2 200\na 3 40\na 4 1\nf 3\nf 2\nf 1\n",
        status: Status::Good,
        told: "a 1 0\na 2 16\na 3 216\na 4 null\nf 3 true\nf 2 true\nf 1 true\nlive 0\nasked 0\nextent 0\nslack 0\nnode 0 region room 256 longest 256\nnode 1 region room 3840 longest 3840\nnode 2 mem cells 64\n",
    },
    Row {
        words: &["replay", "null", "1"],
        trace: "a 1 1\na 2 4096\n",
        status: Status::Good,
        told: "a 1 null\na 2 null\nlive 0\nasked 0\nextent 0\nslack 0\n",
    },
    Row {
        words: &["replay", "region(1024,16,mem)", "64"],
        trace: "# a text that is written, grows where it stands, and moves when it can't\na 1 8\nw 1 0 68656c6c6f\ne 1 8\na 2 16\nr 1 32\nd 1 0 6\no 1\nl 3 16 128\ng 100\nz\n",
        status: Status::Good,
        told: "a 1 0\nw 1 ok\ne 1 true\na 2 16\nr 1 true 32\nd 1 68656c6c6f00\no 1 true\nl 3 128\ng 100 112\nz done\nlive 0\nasked 0\nextent 0\nslack 0\nnode 0 region room 1024 longest 1024\nnode 1 mem cells 16\n",
    },
    Row {
        words: &["replay", "freelist(16,64,region(256,16,mem))", "64"],
        trace: "a 1 20\na 2 60\nf 1\na 3 40\nf 2\nf 3\na 4 64\n",
        status: Status::Good,
        told: "a 1 0\na 2 64\nf 1 true\na 3 0\nf 2 true\nf 3 true\na 4 0\nlive 1\nasked 64\nextent 64\nslack 0\nnode 0 freelist cached 1\nnode 1 region room 128 longest 128\nnode 2 mem cells 4\n",
    },
    // a free list hands out again what was freed; a block that grows into its range has the greatest length, or isn't grown
    Row {
        words: &["replay", "freelist(16,64,region(256,16,mem))", "64"],
        trace: "a 1 20\nf 1\na 2 60\nf 2\n",
        status: Status::Good,
        told: "a 1 0\nf 1 true\na 2 0\nf 2 true\nlive 0\nasked 0\nextent 0\nslack 0\nnode 0 freelist cached 1\nnode 1 region room 192 longest 192\nnode 2 mem cells 4\n",
    },
    Row {
        words: &["replay", "freelist(16,64,region(256,16,mem))", "64"],
        trace: "a 1 60\ne 1 10\nf 1\na 2 200\n",
        status: Status::Good,
        told: "a 1 0\ne 1 true\nf 1 true\na 2 0\nlive 1\nasked 200\nextent 208\nslack 8\nnode 1 region room 48 longest 48\nnode 2 mem cells 4\n",
    },
    Row {
        words: &["replay", "freelist(16,64,region(256,16,mem))", "64"],
        trace: "a 1 10\na 2 100\ne 1 10\nf 2\ne 1 10\nf 1\na 3 64\na 4 64\n",
        status: Status::Good,
        told: "a 1 0\na 2 16\ne 1 false\nf 2 true\ne 1 true\nf 1 true\na 3 0\na 4 64\nlive 2\nasked 128\nextent 128\nslack 0\nnode 1 region room 128 longest 128\nnode 2 mem cells 4\n",
    },
    // a quantizer's block grows into what is left of its quantum before the parent is asked
    Row {
        words: &["replay", "quantize(pow2,mem)", "64"],
        trace: "a 1 100\ne 1 28\ne 1 1\nr 1 140\n",
        status: Status::Good,
        told: "a 1 0\ne 1 true\ne 1 true\nr 1 true 0\nlive 1\nasked 140\nextent 256\nslack 116\nnode 1 mem cells 4\n",
    },
    // what a refused call counts, and that it does nothing else
    Row {
        words: &["replay", "stats(region(64,16,mem))", "64"],
        trace: "a 1 32\nr 1 65\n",
        status: Status::Good,
        told: "a 1 0\nr 1 false\nlive 1\nasked 32\nextent 32\nslack 0\nnode 0 stats 0 1 1 0 0 1 0 0 0 0 32 32 0 0 32\nnode 1 region room 32 longest 32\nnode 2 mem cells 1\n",
    },
    Row {
        words: &["replay", "stats(quantize(16,region(256,16,mem)))", "64"],
        trace: "a 1 0\na 1 20\ne 1 4\na 2 10\nr 1 40\no 1\nf 2\na 3 300\n",
        status: Status::Good,
        told: "a 1 null\na 1 0\ne 1 true\na 2 32\nr 1 true 48\no 1 true\nf 2 false\na 3 null\nlive 1\nasked 40\nextent 48\nslack 8\nnode 0 stats 1 3 2 1 1 1 1 0 1 0 40 50 24 8 50\nnode 2 region room 160 longest 160\nnode 3 mem cells 4\n",
    },
    // bytes in front of each block and behind it
    Row {
        words: &["replay", "affix(8,8,region(1024,16,mem))", "64"],
        trace: "a 1 20\nw 1 0 ff\ne 1 10\nd 1 0 2\nd 1 20 10\n",
        status: Status::Good,
        told: "a 1 8\nw 1 ok\ne 1 true\nd 1 ff00\nd 1 00000000000000000000\nlive 1\nasked 30\nextent 48\nslack 18\nnode 1 region room 976 longest 976\nnode 2 mem cells 16\n",
    },
    // no line, and words with blanks and zeros
    Row {
        words: &["replay", "region(1024,16,mem)", "64"],
        trace: "",
        status: Status::Good,
        told: "live 0\nasked 0\nextent 0\nslack 0\nnode 0 region room 1024 longest 1024\nnode 1 mem cells 16\n",
    },
    Row {
        words: &["replay", " region ( 01024 , 16 , mem ) ", "064"],
        trace: "a 1 0\nf 1",
        status: Status::Trace,
        told: "a 1 null\nline 2: name is not live\n",
    },
    Row {
        words: &["replay", "region(1024,16,mem)", "64"],
        trace: "a 1 1024\na 2 1",
        status: Status::Good,
        told: "a 1 0\na 2 null\nlive 1\nasked 1024\nextent 1024\nslack 0\nnode 0 region room 0 longest 0\nnode 1 mem cells 16\n",
    },
    Row {
        words: &["replay", "mem", "4"],
        trace: "a 1 100\na 2 64\nf 1\na 3 1\na 4 129\n",
        status: Status::Good,
        told: "a 1 0\na 2 128\nf 1 true\na 3 0\na 4 null\nlive 2\nasked 65\nextent 128\nslack 63\nnode 0 mem cells 2\n",
    },
    Row {
        words: &[
            "replay",
            "region(8,8,region(16,8,region(24,8,region(32,8,region(40,8,region(48,8,region(56,8,region(64,8,mem))))))))",
            "1",
        ],
        trace: "a 1 8\na 2 1\n",
        status: Status::Good,
        told: "a 1 0\na 2 null\nlive 1\nasked 8\nextent 8\nslack 0\nnode 0 region room 0 longest 0\nnode 1 region room 8 longest 8\nnode 2 region room 8 longest 8\nnode 3 region room 8 longest 8\nnode 4 region room 8 longest 8\nnode 5 region room 8 longest 8\nnode 6 region room 8 longest 8\nnode 7 region room 8 longest 8\nnode 8 mem cells 1\n",
    },
    // a root that is not opened
    Row {
        words: &["replay", "region(8192,16,mem)", "64"],
        trace: "",
        status: Status::OpeningRefused,
        told: "opening refused at node 0\n",
    },
    Row {
        words: &["replay", "region(1024,16,region(64,16,mem))", "64"],
        trace: "a 1 8\n",
        status: Status::OpeningRefused,
        told: "opening refused at node 0\n",
    },
    // lengths change
    Row {
        words: &["replay", "region(1024,16,mem)", "64"],
        trace: "a 1 1000\ne 1 24\ne 1 1\n",
        status: Status::Good,
        told: "a 1 0\ne 1 true\ne 1 false\nlive 1\nasked 1024\nextent 1024\nslack 0\nnode 0 region room 0 longest 0\nnode 1 mem cells 16\n",
    },
    Row {
        words: &["replay", "region(1024,16,mem)", "64"],
        trace: "a 1 16\nw 1 0 0102\na 2 16\nr 1 32\nd 1 0 3\nr 1 0\nf 2\n",
        status: Status::Good,
        told: "a 1 0\nw 1 ok\na 2 16\nr 1 true 32\nd 1 010200\nr 1 gone\nf 2 true\nlive 0\nasked 0\nextent 0\nslack 0\nnode 0 region room 1008 longest 1008\nnode 1 mem cells 16\n",
    },
    Row {
        words: &["replay", "mem", "4"],
        trace: "l 1 1 128\nl 2 200 64\nl 3 1 4096\nr 1 65\ng 65\nr 1 200\nz\nr 1 1\n",
        status: Status::Trace,
        told: "l 1 0\nl 2 null\nl 3 null\nr 1 true 0\ng 65 128\nr 1 true 0\nz done\nline 8: name is not live\n",
    },
    // who owns a block
    Row {
        words: &["replay", "region(1024,16,mem)", "64"],
        trace: "a 1 16\no 1\np 1 0\n",
        status: Status::Trace,
        told: "a 1 0\no 1 true\nline 3: not serving\n",
    },
    Row {
        words: &["replay", "mem", "64"],
        trace: "a 1 10\no 1\n",
        status: Status::Trace,
        told: "a 1 0\nline 2: not offered\n",
    },
    Row {
        words: &["replay", "mem", "64"],
        trace: "a 1 10\np 1 0\n",
        status: Status::Trace,
        told: "a 1 0\nline 2: no such layer\n",
    },
    // lines in fault
    Row {
        words: &["replay", "region(1024,16,mem)", "64"],
        trace: "a 1 8\n\nf 9\n",
        status: Status::Trace,
        told: "a 1 0\nline 3: name is not live\n",
    },
    Row {
        words: &["replay", "region(1024,16,mem)", "64"],
        trace: "a 1 8\n# a 2 8\na 1 8\n",
        status: Status::Trace,
        told: "a 1 0\nline 3: name is live\n",
    },
    Row {
        words: &["replay", "region(1024,16,mem)", "64"],
        trace: "a 1 18446744073709551616\n",
        status: Status::Trace,
        told: "line 1: number too large at column 5\n",
    },
    Row {
        words: &["replay", "region(1024,16,mem)", "64"],
        trace: "a 1 18446744073709551615\n",
        status: Status::Good,
        told: "a 1 null\nlive 0\nasked 0\nextent 0\nslack 0\nnode 0 region room 1024 longest 1024\nnode 1 mem cells 16\n",
    },
    Row {
        words: &["replay", "region(1024,16,mem)", "64"],
        trace: "l 1 8 3\n",
        status: Status::Trace,
        told: "line 1: bad line at column 7\n",
    },
    Row {
        words: &["replay", "region(1024,16,mem)", "64"],
        trace: "e 1\n",
        status: Status::Trace,
        told: "line 1: bad line at column 4\n",
    },
    Row {
        words: &["replay", "region(1024,16,mem)", "64"],
        trace: "a 1 0000000000000000000000000000000000000000000000000000000000000000000000000000000000000000000000000000000000000000000000000000000000000000000000000000000000000000000000000000000000000000000000000000000000000000000000000000000000000000000000000000000000008",
        status: Status::Trace,
        told: "line 1: too long\n",
    },
    Row {
        words: &["replay", "region(1024,16,mem)", "64"],
        trace: "a 1 8\nd 1 4 5\n",
        status: Status::Trace,
        told: "a 1 0\nline 2: outside the block\n",
    },
    Row {
        words: &["replay", "region(1024,16,mem)", "64"],
        trace: "a 1 8",
        status: Status::Good,
        told: "a 1 0\nlive 1\nasked 8\nextent 16\nslack 8\nnode 0 region room 1008 longest 1008\nnode 1 mem cells 16\n",
    },
    // the greatest area
    Row {
        words: &["replay", "mem", "262144"],
        trace: "a 1 16777216\na 2 1\n",
        status: Status::Good,
        told: "a 1 0\na 2 null\nlive 1\nasked 16777216\nextent 16777216\nslack 0\nnode 0 mem cells 262144\n",
    },
];

// A trace that comes in pieces of so many bytes, the one call of the source and the one of the sink that fail, and how
// that ends. No source is asked, and no sink called, 99 times.
struct Failing {
    words: &'static [&'static str],
    trace: &'static str,
    most: usize,
    source_fails: u64,
    sink_fails: u64,
    status: Status,
    told: &'static str,
}

const FAILINGS: [Failing; 7] = [
    // the second piece of the input
    Failing {
        words: &["replay", "region(1024,16,mem)", "64"],
        trace: "a 1 10\na 2 10\n",
        most: 10,
        source_fails: 1,
        sink_fails: 99,
        status: Status::ReadFault,
        told: "a 1 0\n",
    },
    // the second answer
    Failing {
        words: &["replay", "region(1024,16,mem)", "64"],
        trace: "a 1 10\na 2 10\n",
        most: 4096,
        source_fails: 99,
        sink_fails: 2,
        status: Status::WriteFault,
        told: "a 1 0\n",
    },
    // handing on before the first piece of the input is asked for, before the second, and at the end
    Failing {
        words: &["replay", "region(1024,16,mem)", "64"],
        trace: "a 1 10\na 2 10\n",
        most: 10,
        source_fails: 0,
        sink_fails: 0,
        status: Status::WriteFault,
        told: "",
    },
    Failing {
        words: &["replay", "region(1024,16,mem)", "64"],
        trace: "a 1 10\na 2 10\n",
        most: 10,
        source_fails: 1,
        sink_fails: 2,
        status: Status::WriteFault,
        told: "a 1 0\n",
    },
    Failing {
        words: &["replay", "region(1024,16,mem)", "64"],
        trace: "a 1 10\na 2 10\n",
        most: 4096,
        source_fails: 99,
        sink_fails: 10,
        status: Status::WriteFault,
        told: "a 1 0\na 2 16\nlive 2\nasked 20\nextent 32\nslack 12\nnode 0 region room 992 longest 992\nnode 1 mem cells 16\n",
    },
    // behind the fault of a line
    Failing {
        words: &["replay", "region(1024,16,mem)", "64"],
        trace: "a 1 10\nf 2\n",
        most: 4096,
        source_fails: 99,
        sink_fails: 3,
        status: Status::WriteFault,
        told: "a 1 0\nline 2: name is not live\n",
    },
    // behind one text
    Failing {
        words: &["check", "mem"],
        trace: "",
        most: 4096,
        source_fails: 0,
        sink_fails: 1,
        status: Status::WriteFault,
        told: "mem\nnodes 1\nalign 64\noffers expand aligned all\n",
    },
];

// Expressions without a fault, and what stands in them.
const EXPRESSIONS: [(&str, &str); 10] = [
    (
        "region(1024, 16, mem)",
        "region(1024,16,mem)\nnodes 2\nalign 16\noffers owns expand aligned all\n",
    ),
    ("mem", "mem\nnodes 1\nalign 64\noffers expand aligned all\n"),
    (
        "null",
        "null\nnodes 1\nalign 65536\noffers owns expand aligned all\n",
    ),
    (
        "region(64,8,region(00064,32,null))",
        "region(64,8,region(64,32,null))\nnodes 3\nalign 8\noffers owns expand aligned all\n",
    ),
    (
        "freelist(16,64,region(256,16,mem))",
        "freelist(16,64,region(256,16,mem))\nnodes 3\nalign 16\noffers owns expand all\n",
    ),
    (
        "region(1,1,region(2,2,region(3,4,region(4,8,region(5,16,region(6,32,region(7,64,region(8,64,mem))))))))",
        "region(1,1,region(2,2,region(3,4,region(4,8,region(5,16,region(6,32,region(7,64,region(8,64,mem))))))))\nnodes 9\nalign 1\noffers owns expand aligned all\n",
    ),
    (
        "quantize(pow2,stats(affix(8,8,mem)))",
        "quantize(pow2,stats(affix(8,8,mem)))\nnodes 4\nalign 8\noffers expand all\n",
    ),
    (
        "affix(0,8,quantize(16,null))",
        "affix(0,8,quantize(16,null))\nnodes 3\nalign 65536\noffers owns expand all\n",
    ),
    (
        "quantize(pow2,mem)",
        "quantize(pow2,mem)\nnodes 2\nalign 64\noffers expand aligned all\n",
    ),
    (
        "freelist(8, 64, mem)",
        "freelist(8,64,mem)\nnodes 2\nalign 64\noffers expand all\n",
    ),
];

// Expressions in fault, and the line without its front.
const FAULTS: [(&str, &str); 10] = [
    ("", "syntax at 0"),
    ("region(64,16)", "syntax at 12"),
    ("region(64,16,mem", "syntax at 16"),
    ("mem mem", "syntax at 4"),
    ("kr(18446744073709551616,mem)", "syntax at 0"),
    (
        "region(18446744073709551616,16,mem)",
        "number too large at 7",
    ),
    (
        "region(64,16,region(64,16,region(64,16,region(64,16,region(64,16,region(64,16,region(64,16,region(64,16,region(64,16,mem)))))))))",
        "too deep at 104",
    ),
    ("region(0,16,mem)", "bad parameter at 7"),
    ("region(64,24,mem)", "bad parameter at 10"),
    ("region(64,128,mem)", "needs alignment at 14"),
];

const NO_COMMANDS: [&[&str]; 9] = [
    &[],
    &["replay", "mem", "0"],
    &["replay", "mem"],
    &["replay", "mem", "262145"],
    &["replay", "mem", "+1"],
    &["replay", "mem", "64", "64"],
    &["play", "mem", "64"],
    &["check"],
    &["check", "mem", "64"],
];

const USAGE: &str = "usage: heaplay check EXPR\n       heaplay replay EXPR CELLS\n";

const CODES: [(Status, u8); 8] = [
    (Status::Good, 0),
    (Status::Usage, 2),
    (Status::Expression, 3),
    (Status::Trace, 4),
    (Status::ReadFault, 5),
    (Status::WriteFault, 6),
    (Status::OpeningRefused, 7),
    (Status::NoMemory, 8),
];

// A source that keeps how many calls asked for 4,096 bytes, and how many bytes the last call asked for.
#[derive(Drop)]
struct AskedSource {
    source: MemorySource,
    full: u32,
    last: usize,
}

impl Source for AskedSource {
    ghost left = { λ s. Some s.source.left };

    ghost faults = { λ s. s.source.faults };

    ghost finished = { λ s. s.source.finished };

    fn take(&mut self, into: &mut [u8]) -> Result<usize, Failed> {
        self.last = into.len();
        if self.last == 4096 {
            self.full = self.full.saturating_add(1);
        }
        self.source.take(into)
    }
}

// A sink that keeps how many pieces were put, and how many of them are one line.
#[derive(Drop)]
struct PieceSink {
    sink: MemorySink,
    pieces: u32,
    lines: u32,
}

impl Sink for PieceSink {
    ghost holds = { λ s. Some s.sink.bytes };

    ghost faults = { λ s. s.sink.faults };

    ghost flushed = { λ _. true };

    fn put(&mut self, piece: &[u8], space: &Space) -> Result<usize, Failed> {
        self.pieces = self.pieces.saturating_add(1);
        if piece.iter().position(|byte| *byte == b'\n') == Some(piece.len() - 1) {
            self.lines = self.lines.saturating_add(1);
        }
        self.sink.put(piece, space)
    }

    fn flush(&mut self) -> Result<(), Failed> {
        self.sink.flush()
    }
}

// A sink that keeps how many bytes were put before each of its first flushes, since the one before.
#[derive(Drop)]
struct HandedSink {
    sink: MemorySink,
    put: usize,
    flushes: usize,
    handed: [usize; 8],
}

impl Sink for HandedSink {
    ghost holds = { λ s. Some s.sink.bytes };

    ghost faults = { λ s. s.sink.faults };

    ghost flushed = { λ _. true };

    fn put(&mut self, piece: &[u8], space: &Space) -> Result<usize, Failed> {
        self.put = self.put.saturating_add(piece.len());
        self.sink.put(piece, space)
    }

    fn flush(&mut self) -> Result<(), Failed> {
        if let Some(bytes) = self.handed.get_mut(self.flushes) {
            *bytes = self.put;
        }
        self.put = 0;
        self.flushes = self.flushes.saturating_add(1);
        self.sink.flush()
    }
}

// A writer that counts what it was given.
#[derive(Drop)]
struct FarEnd<'a> {
    written: &'a Cell<usize>,
}

impl<'a> Write for FarEnd<'a> {
    fn write(&mut self, piece: &[u8]) -> io::Result<usize> {
        self.written
            .set(self.written.get().saturating_add(piece.len()));
        Ok(piece.len())
    }

    fn flush(&mut self) -> io::Result<()> {
        Ok(())
    }
}

// A reader that gives one byte at a time, and counts how often it is asked before the answers to the whole lines that it
// gave were written, which are so many bytes by the number of lines.
#[derive(Drop)]
struct NearEnd<'a> {
    trace: &'static [u8],
    answered: &'static [usize],
    lines: usize,
    written: &'a Cell<usize>,
    early: &'a Cell<usize>,
}

impl<'a> Read for NearEnd<'a> {
    fn read(&mut self, into: &mut [u8]) -> io::Result<usize> {
        if self.answered.get(self.lines) != Some(&self.written.get()) {
            self.early.set(self.early.get().saturating_add(1));
        }
        let (Some((byte, rest)), Some(room)) = (self.trace.split_first(), into.first_mut()) else {
            return Ok(0);
        };
        *room = *byte;
        self.trace = rest;
        if *byte == b'\n' {
            self.lines = self.lines.saturating_add(1);
        }
        Ok(1)
    }
}

fn strings(alloc: Global, words: &[&str]) -> Result<Vec<String>, AllocError> {
    let mut strings = Vec::new(alloc);
    for word in words {
        strings.push(String::from_str(alloc, *word)?)?;
    }
    Ok(strings)
}

// How the words end on these devices, over a Space of their own.
fn ended<S: Source, K: Sink>(
    alloc: Global,
    words: &[&str],
    source: &mut S,
    sink: &mut K,
) -> Result<Status, Fail>
    requires { S.finished source.old ≡ false }
{
    let words = strings(alloc, words)?;
    let mut space = Space::closed();
    Ok(run(alloc, &words, source, sink, &mut space))
}

/// Runs the words over a trace, and wants this status and text.
pub fn tells(
    rt: &(impl AllocGlobal + Abort),
    words: &[&str],
    trace: &str,
    status: Status,
    told: &str,
) -> Result<(), Fail> {
    let alloc = rt.alloc();
    let mut source = StillSource::new(Vec::from_slice(alloc, trace.as_bytes())?);
    let Ok(mut sink) = StillSink::new(alloc, 4096) else {
        panic!(rt; "no memory");
    };
    assert_eq!(rt; ended(alloc, words, &mut source, &mut sink)?, status);
    assert_eq!(rt; sink.bytes(), told.as_bytes());
    Ok(())
}

#[test]
fn texts_are_told(rt: HostRuntime) -> Result<(), Fail> {
    for row in TRACES {
        tells(&rt, row.words, row.trace, row.status, row.told)?;
    }
    for (expression, told) in &EXPRESSIONS {
        tells(&rt, &["check", *expression], "a 1 8\n", Status::Good, *told)?;
    }
    for (expression, fault) in &FAULTS {
        let line = format!(in rt.alloc(); "expression: {fault}\n")?;
        let told = line.as_str();
        tells(&rt, &["check", *expression], "", Status::Expression, told)?;
        let words = ["replay", *expression, "64"];
        tells(&rt, &words, "a 1 8\n", Status::Expression, told)?;
    }
    for words in NO_COMMANDS {
        tells(&rt, words, "", Status::Usage, USAGE)?;
    }
    Ok(())
}

// The first row of the table comes in pieces of ten bytes: each answer and each line of the report is one piece.
#[test]
fn lines_are_pieces(rt: HostRuntime) -> Result<(), Fail> {
    let alloc = rt.alloc();
    let trace = Vec::from_slice(alloc, TRACES[0].trace.as_bytes())?;
    let mut source = AskedSource {
        source: MemorySource::new(trace, 10, Vec::new(alloc)),
        full: 0,
        last: 0,
    };
    let Ok(sink) = MemorySink::new(alloc, 4096, Vec::new(alloc)) else {
        panic!(rt; "no memory");
    };
    let mut sink = PieceSink {
        sink,
        pieces: 0,
        lines: 0,
    };
    let status = ended(alloc, TRACES[0].words, &mut source, &mut sink)?;
    assert_eq!(rt; status, Status::Good);
    assert_eq!(rt; sink.sink.bytes(), TRACES[0].told.as_bytes());
    assert_eq!(rt; (sink.pieces, sink.lines), (11, 11));
    assert_eq!(rt; (source.full, source.last), (4, 4096));
    Ok(())
}

// Byte by byte, no byte of a line is asked for before the answers to the lines before it stand on the other side.
#[test]
fn answers_come_before_more_is_asked(rt: HostRuntime) -> Result<(), Fail> {
    let alloc = rt.alloc();
    let (written, early) = (Cell::new(0), Cell::new(0));
    let mut source = StdSource::new(NearEnd {
        trace: b"a 1 10\n# no call\na 2 10\nf 1\n",
        answered: &[0, 6, 6, 13, 23],
        lines: 0,
        written: &written,
        early: &early,
    });
    let Ok(mut sink) = StdSink::new(alloc, FarEnd { written: &written }) else {
        panic!(rt; "no memory");
    };
    let words = ["replay", "region(1024,16,mem)", "64"];
    let status = ended(alloc, &words, &mut source, &mut sink)?;
    assert_eq!(rt; status, Status::Good);
    assert_eq!(rt; early.get(), 0);
    assert_eq!(rt; written.get(), 112);
    Ok(())
}

// Of a trace that is all there, 4,096 bytes are taken at a time, here 512 lines, and their answers are handed on at once
// before more is asked for: those of 512 lines, of 512, of the 76 that are left, and then the report.
#[test]
fn answers_are_handed_on_by_pieces(rt: HostRuntime) -> Result<(), Fail> {
    let alloc = rt.alloc();
    let mut trace = String::new(alloc);
    for _ in 0..1100u32 {
        trace.push_str("a 1 0  \n")?;
    }
    let mut source = StillSource::new(Vec::from_slice(alloc, trace.as_bytes())?);
    let Ok(sink) = MemorySink::new(alloc, 16_384, Vec::new(alloc)) else {
        panic!(rt; "no memory");
    };
    let mut sink = HandedSink {
        sink,
        put: 0,
        flushes: 0,
        handed: [0; 8],
    };
    let status = ended(alloc, &["replay", "mem", "1"], &mut source, &mut sink)?;
    assert_eq!(rt; status, Status::Good);
    assert_eq!(rt; sink.flushes, 5);
    assert_eq!(rt; sink.handed, [0, 4608, 4608, 684, 32, 0, 0, 0]);
    Ok(())
}

// A device fails in the call of this number, and what was put before that stands.
#[test]
fn devices_fail(rt: HostRuntime) -> Result<(), Fail> {
    for row in &FAILINGS {
        fails(&rt, row)?;
    }
    Ok(())
}

fn fails(rt: &(impl AllocGlobal + Abort), row: &Failing) -> Result<(), Fail> {
    let alloc = rt.alloc();
    let trace = Vec::from_slice(alloc, row.trace.as_bytes())?;
    let failing = Vec::from_slice(alloc, &[row.source_fails])?;
    assert!(rt; 1 <= row.most);
    let mut source = MemorySource::new(trace, row.most, failing);
    let failing = Vec::from_slice(alloc, &[row.sink_fails])?;
    let Ok(mut sink) = MemorySink::new(alloc, 4096, failing) else {
        panic!(rt; "no memory");
    };
    let status = ended(alloc, row.words, &mut source, &mut sink)?;
    assert_eq!(rt; status, row.status);
    assert_eq!(rt; sink.bytes(), row.told.as_bytes());
    Ok(())
}

// Of 65,537 names the last is one too many.
#[test]
fn names_run_out(rt: HostRuntime) -> Result<(), Fail> {
    let alloc = rt.alloc();
    let mut trace = String::new(alloc);
    let mut told = String::new(alloc);
    for k in 0..65_536u32 {
        trace.push_str(format!(in alloc; "a {} 16\n", k + 1)?.as_str())?;
        told.push_str(format!(in alloc; "a {} {}\n", k + 1, 16 * u64::from(k))?.as_str())?;
    }
    trace.push_str("a 65537 16\n")?;
    told.push_str("line 65537: too many live blocks\n")?;
    let words = ["replay", "region(1048576,16,mem)", "16384"];
    let mut source = StillSource::new(Vec::from_slice(alloc, trace.as_bytes())?);
    let Ok(mut sink) = StillSink::new(alloc, 2_000_000) else {
        panic!(rt; "no memory");
    };
    let status = ended(alloc, &words, &mut source, &mut sink)?;
    assert_eq!(rt; status, Status::Trace);
    assert!(rt; sink.bytes() == told.as_bytes());
    Ok(())
}

// Of 16,777,217 newlines the last is one too many. It is asked for alone, and no more is asked for.
#[test]
fn input_is_bounded(rt: HostRuntime) -> Result<(), Fail> {
    let alloc = rt.alloc();
    let words = ["replay", "mem", "1"];
    let trace = vec![in alloc; b'\n'; 16_777_300]?;
    let mut source = AskedSource {
        source: MemorySource::new(trace, 4096, Vec::new(alloc)),
        full: 0,
        last: 0,
    };
    let Ok(mut sink) = StillSink::new(alloc, 4096) else {
        panic!(rt; "no memory");
    };
    let status = ended(alloc, &words, &mut source, &mut sink)?;
    assert_eq!(rt; status, Status::Trace);
    assert_eq!(rt; sink.bytes(), "line 16777217: too much input\n".as_bytes());
    assert_eq!(rt; (source.full, source.last), (4096, 1));
    Ok(())
}

#[test]
fn statuses_have_codes(rt: HostRuntime) {
    for (status, code) in &CODES {
        assert_eq!(rt; status.code(), *code);
    }
}
