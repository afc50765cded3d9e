//! What single layers answer, by traces.
use crate::runs::{Row, tells};
use play_core::Status;
use std::test::Fail;

const ROWS: [Row; 33] = [
    // cells of a leaf: taken, at a multiple, given back, and lengths that change where they stand or elsewhere
    Row {
        words: &["replay", "mem", "4"],
        trace: "a 7 100\na 3 64\na 8 65\nl 8 1 256\nl 8 1 64\nf 8\nf 8\n",
        status: Status::Trace,
        told: "a 7 0\na 3 128\na 8 null\nl 8 null\nl 8 192\nf 8 true\nline 7: name is not live\n",
    },
    Row {
        words: &["replay", "mem", "4"],
        trace: "a 7 100\na 3 64\nw 7 97 010203\ne 7 28\ne 7 1\nd 7 98 4\nr 3 128\nr 7 1\nr 3 0\nr 7 99\nd 7 96 3\n",
        status: Status::Good,
        told: "a 7 0\na 3 128\nw 7 ok\ne 7 true\ne 7 false\nd 7 02030000\nr 3 true 128\nr 7 false\nr 3 gone\nr 7 true 128\nd 7 000102\nlive 1\nasked 99\nextent 128\nslack 29\nnode 0 mem cells 2\n",
    },
    Row {
        words: &["replay", "mem", "4"],
        trace: "a 7 1\ng 65\nz\no 7\n",
        status: Status::Trace,
        told: "a 7 0\ng 65 128\nz done\nline 4: name is not live\n",
    },
    Row {
        words: &["replay", "mem", "4"],
        trace: "g 0\ng 1\ng 64\ng 65\ng 1099511627776\ng 1099511627777\na 1 0\na 1 64\na 2 65\na 3 1\na 4 1\nf 1\na 4 65\na 4 10\n",
        status: Status::Good,
        told: "g 0 0\ng 1 64\ng 64 64\ng 65 128\ng 1099511627776 1099511627776\ng 1099511627777 1099511627777\na 1 null\na 1 0\na 2 64\na 3 192\na 4 null\nf 1 true\na 4 null\na 4 0\nlive 3\nasked 76\nextent 256\nslack 180\nnode 0 mem cells 4\n",
    },
    Row {
        words: &["replay", "mem", "8"],
        trace: "a 1 64\nl 2 1 256\nl 3 1 512\ne 1 0\ne 1 192\ne 1 1\nr 1 257\nr 1 65\nr 1 0\nz\n",
        status: Status::Good,
        told: "a 1 0\nl 2 256\nl 3 null\ne 1 true\ne 1 true\ne 1 false\nr 1 false\nr 1 true 320\nr 1 gone\nz done\nlive 0\nasked 0\nextent 0\nslack 0\n",
    },
    // nothing serves nothing
    Row {
        words: &["replay", "null", "4"],
        trace: "g 0\ng 64\ng 1099511627776\na 1 1\nl 1 1 64\nz\n",
        status: Status::Good,
        told: "g 0 0\ng 64 64\ng 1099511627776 1099511627776\na 1 null\nl 1 null\nz done\nlive 0\nasked 0\nextent 0\nslack 0\n",
    },
    // a block behind the last one stays, and one that is given back is had again
    Row {
        words: &["replay", "region(208,16,mem)", "16"],
        trace: "a 1 100\na 2 20\na 3 65\na 3 64\nf 3\na 4 1\n",
        status: Status::Good,
        told: "a 1 0\na 2 112\na 3 null\na 3 144\nf 3 true\na 4 144\nlive 3\nasked 121\nextent 160\nslack 39\nnode 0 region room 48 longest 48\nnode 1 mem cells 4\n",
    },
    // a region's last block grows up to the end of the chunk, and any other by nothing alone
    Row {
        words: &["replay", "region(200,16,mem)", "16"],
        trace: "a 1 20\na 2 1\ne 1 0\ne 1 1\nz\na 1 20\ne 1 13\ne 1 176\ne 1 1099511627776\ne 1 175\n",
        status: Status::Good,
        told: "a 1 0\na 2 32\ne 1 true\ne 1 false\nz done\na 1 0\ne 1 true\ne 1 false\ne 1 false\ne 1 true\nlive 1\nasked 208\nextent 208\nslack 0\nnode 0 region room 0 longest 0\nnode 1 mem cells 4\n",
    },
    // at multiples: what is skipped, and the place behind the block
    Row {
        words: &["replay", "region(200,16,region(208,16,mem))", "16"],
        trace: "a 1 20\nl 2 1 1\na 3 1\nz\na 1 20\nl 2 1 64\na 3 1\nz\na 1 20\nl 2 80 128\na 3 1\nz\na 1 20\nl 2 81 128\nl 2 1 256\nl 2 0 64\nl 2 1099511627777 64\na 3 1\n",
        status: Status::Good,
        told: "a 1 0\nl 2 32\na 3 48\nz done\na 1 0\nl 2 64\na 3 80\nz done\na 1 0\nl 2 128\na 3 null\nz done\na 1 0\nl 2 null\nl 2 null\nl 2 null\nl 2 null\na 3 32\nlive 2\nasked 21\nextent 48\nslack 27\nnode 0 region room 160 longest 160\nnode 1 region room 0 longest 0\nnode 2 mem cells 4\n",
    },
    // the last block of a region gets another length where it stands, but a shorter one elsewhere
    Row {
        words: &["replay", "region(200,16,region(208,16,mem))", "16"],
        trace: "a 1 16\na 2 16\nr 2 16\na 3 1\nz\na 1 16\na 2 16\nr 2 0\na 3 1\nz\na 1 16\na 2 16\nr 2 192\na 3 1\nz\na 1 16\na 2 16\nr 2 193\nr 2 1099511627777\nr 2 8\na 3 1\n",
        status: Status::Good,
        told: "a 1 0\na 2 16\nr 2 true 16\na 3 32\nz done\na 1 0\na 2 16\nr 2 gone\na 3 16\nz done\na 1 0\na 2 16\nr 2 true 16\na 3 null\nz done\na 1 0\na 2 16\nr 2 false\nr 2 false\nr 2 true 32\na 3 48\nlive 3\nasked 25\nextent 48\nslack 23\nnode 0 region room 144 longest 144\nnode 1 region room 0 longest 0\nnode 2 mem cells 4\n",
    },
    // a cached block has 64 bytes, and grows within them and beyond
    Row {
        words: &["replay", "freelist(16,64,region(256,16,mem))", "4"],
        trace: "a 1 20\ne 1 44\ne 1 6\ne 1 187\ne 1 1099511627776\na 2 177\na 2 176\n",
        status: Status::Good,
        told: "a 1 0\ne 1 true\ne 1 true\ne 1 false\ne 1 false\na 2 null\na 2 80\nlive 2\nasked 246\nextent 256\nslack 10\nnode 1 region room 0 longest 0\nnode 2 mem cells 4\n",
    },
    // the outer list keeps 16 to 64 bytes, and the inner one 65 to 128
    Row {
        words: &["replay", "freelist(16,64,freelist(65,128,mem))", "16"],
        trace: "a 1 100\nf 1\na 2 20\na 3 60\nf 2\nf 3\na 4 64\na 5 16\na 6 17\na 7 65\nf 7\n",
        status: Status::Good,
        told: "a 1 0\nf 1 true\na 2 128\na 3 192\nf 2 true\nf 3 true\na 4 192\na 5 128\na 6 256\na 7 0\nf 7 true\nlive 3\nasked 97\nextent 192\nslack 95\nnode 1 freelist cached 1\nnode 2 mem cells 5\n",
    },
    // who has a block along a path
    Row {
        words: &["replay", "freelist(16,64,region(256,16,mem))", "4"],
        trace: "a 1 64\no 1\np 1 0\np 1 0.1\n",
        status: Status::Trace,
        told: "a 1 0\no 1 true\np 1 0 true\nline 4: no such layer\n",
    },
    // a block that was too short for the cache grows into its range
    Row {
        words: &["replay", "freelist(16,64,region(256,16,mem))", "4"],
        trace: "a 1 10\ne 1 30\nf 1\na 2 64\na 3 64\n",
        status: Status::Good,
        told: "a 1 0\ne 1 true\nf 1 true\na 2 0\na 3 64\nlive 2\nasked 128\nextent 128\nslack 0\nnode 1 region room 128 longest 128\nnode 2 mem cells 4\n",
    },
    // what a block of a free list leaves behind is cached
    Row {
        words: &["replay", "freelist(16,64,region(256,16,mem))", "4"],
        trace: "a 1 20\na 2 20\nr 1 20\na 3 64\nz\na 1 20\na 2 20\nr 1 64\na 3 64\nz\na 1 20\na 2 20\nr 1 8\na 3 64\nz\na 1 20\na 2 20\nr 1 65\na 3 64\nz\na 1 20\na 2 20\nr 1 0\na 3 64\nz\na 1 20\na 2 20\nr 1 129\nr 1 1099511627777\na 3 64\n",
        status: Status::Good,
        told: "a 1 0\na 2 64\nr 1 true 0\na 3 128\nz done\na 1 0\na 2 64\nr 1 true 0\na 3 128\nz done\na 1 0\na 2 64\nr 1 true 128\na 3 0\nz done\na 1 0\na 2 64\nr 1 true 128\na 3 0\nz done\na 1 0\na 2 64\nr 1 gone\na 3 0\nz done\na 1 0\na 2 64\nr 1 false\nr 1 false\na 3 128\nlive 3\nasked 104\nextent 192\nslack 88\nnode 1 region room 64 longest 64\nnode 2 mem cells 4\n",
    },
    // the lower one of two regions can't have its chunk
    Row {
        words: &["replay", "region(64,16,region(512,16,mem))", "4"],
        trace: "a 1 1\n",
        status: Status::OpeningRefused,
        told: "opening refused at node 1\n",
    },
    // a quantizer's block keeps its quantum while it has the right one, and moves else
    Row {
        words: &["replay", "quantize(pow2,mem)", "16"],
        trace: "a 1 100\na 2 100\nr 1 100\nr 1 128\nr 1 65\na 3 64\nz\na 1 100\na 2 100\nr 1 64\na 3 64\nz\na 1 100\na 2 100\nr 1 129\na 3 64\nz\na 1 100\na 2 100\nr 1 0\na 3 64\nz\na 1 100\na 2 100\nr 1 513\nr 1 1099511627777\na 3 64\n",
        status: Status::Good,
        told: "a 1 0\na 2 128\nr 1 true 0\nr 1 true 0\nr 1 true 0\na 3 256\nz done\na 1 0\na 2 128\nr 1 true 256\na 3 0\nz done\na 1 0\na 2 128\nr 1 true 256\na 3 0\nz done\na 1 0\na 2 128\nr 1 gone\na 3 0\nz done\na 1 0\na 2 128\nr 1 false\nr 1 false\na 3 256\nlive 3\nasked 264\nextent 320\nslack 56\nnode 1 mem cells 5\n",
    },
    // what is rounded fills the chunk, is owned as that, and can be had again when all came back
    Row {
        words: &["replay", "quantize(48,region(240,16,mem))", "4"],
        trace: "a 1 1\na 2 49\nl 3 10 64\na 4 1\nl 5 1 1\nf 3\no 2\np 2 0\nz\na 1 1\n",
        status: Status::Good,
        told: "a 1 0\na 2 48\nl 3 192\na 4 null\nl 5 null\nf 3 true\no 2 true\np 2 0 true\nz done\na 1 0\nlive 1\nasked 1\nextent 48\nslack 47\nnode 1 region room 192 longest 192\nnode 2 mem cells 4\n",
    },
    // what no layer serves is its own good size
    Row {
        words: &["replay", "quantize(pow2,mem)", "1"],
        trace: "g 0\ng 1\ng 129\ng 1099511627776\ng 1099511627777\ng 18446744073709551615\n",
        status: Status::Good,
        told: "g 0 0\ng 1 1\ng 129 256\ng 1099511627776 1099511627776\ng 1099511627777 1099511627777\ng 18446744073709551615 18446744073709551615\nlive 0\nasked 0\nextent 0\nslack 0\n",
    },
    // what stands round a block moves it, and is part of its good size
    Row {
        words: &["replay", "affix(48,24,mem)", "4"],
        trace: "g 20\na 1 20\n",
        status: Status::Good,
        told: "g 20 56\na 1 48\nlive 1\nasked 20\nextent 128\nslack 108\nnode 1 mem cells 2\n",
    },
    Row {
        words: &["replay", "affix(0,8,mem)", "4"],
        trace: "g 20\na 1 20\n",
        status: Status::Good,
        told: "g 20 56\na 1 0\nlive 1\nasked 20\nextent 64\nslack 44\nnode 1 mem cells 1\n",
    },
    // a block with what stands round it grows, and the next one has all that is left
    Row {
        words: &["replay", "affix(8,8,region(1024,16,mem))", "16"],
        trace: "a 1 20\ne 1 10\ne 1 979\ne 1 1099511627776\na 2 961\na 2 960\n",
        status: Status::Good,
        told: "a 1 8\ne 1 true\ne 1 false\ne 1 false\na 2 null\na 2 56\nlive 2\nasked 990\nextent 1024\nslack 34\nnode 1 region room 0 longest 0\nnode 2 mem cells 16\n",
    },
    // what is counted of each call: refused, served, grown, given other lengths in place and elsewhere, refused, given back
    Row {
        words: &["replay", "stats(mem)", "16"],
        trace: "a 1 0\na 1 1099511627777\na 1 1025\n",
        status: Status::Good,
        told: "a 1 null\na 1 null\na 1 null\nlive 0\nasked 0\nextent 0\nslack 0\nnode 0 stats 0 2 0 0 0 0 0 0 0 0 0 0 0 0 0\n",
    },
    Row {
        words: &["replay", "stats(mem)", "16"],
        trace: "a 1 0\na 1 1099511627777\na 1 1025\na 1 100\n",
        status: Status::Good,
        told: "a 1 null\na 1 null\na 1 null\na 1 0\nlive 1\nasked 100\nextent 128\nslack 28\nnode 0 stats 0 3 1 0 0 0 0 0 0 0 100 100 0 28 100\nnode 1 mem cells 2\n",
    },
    Row {
        words: &["replay", "stats(mem)", "16"],
        trace: "a 1 0\na 1 1099511627777\na 1 1025\na 1 100\ne 1 0\ne 1 28\ne 1 1099511627776\ne 1 1000\n",
        status: Status::Good,
        told: "a 1 null\na 1 null\na 1 null\na 1 0\ne 1 true\ne 1 true\ne 1 false\ne 1 false\nlive 1\nasked 128\nextent 128\nslack 0\nnode 0 stats 0 3 1 3 1 0 0 0 0 0 128 128 0 0 128\nnode 1 mem cells 2\n",
    },
    Row {
        words: &["replay", "stats(mem)", "16"],
        trace: "a 1 0\na 1 1099511627777\na 1 1025\na 1 100\ne 1 0\ne 1 28\ne 1 1099511627776\ne 1 1000\nr 1 128\nr 1 100\n",
        status: Status::Good,
        told: "a 1 null\na 1 null\na 1 null\na 1 0\ne 1 true\ne 1 true\ne 1 false\ne 1 false\nr 1 true 0\nr 1 true 128\nlive 1\nasked 100\nextent 128\nslack 28\nnode 0 stats 0 3 1 3 1 1 1 0 0 0 100 128 100 28 128\nnode 1 mem cells 2\n",
    },
    Row {
        words: &["replay", "stats(mem)", "16"],
        trace: "a 1 0\na 1 1099511627777\na 1 1025\na 1 100\ne 1 0\ne 1 28\ne 1 1099511627776\ne 1 1000\nr 1 128\nr 1 100\nr 1 150\nr 1 1025\nr 1 1099511627777\n",
        status: Status::Good,
        told: "a 1 null\na 1 null\na 1 null\na 1 0\ne 1 true\ne 1 true\ne 1 false\ne 1 false\nr 1 true 0\nr 1 true 128\nr 1 true 128\nr 1 false\nr 1 false\nlive 1\nasked 150\nextent 192\nslack 42\nnode 0 stats 0 3 1 3 1 4 2 1 0 0 150 178 100 42 150\nnode 1 mem cells 3\n",
    },
    Row {
        words: &["replay", "stats(mem)", "16"],
        trace: "a 1 0\na 1 1099511627777\na 1 1025\na 1 100\ne 1 0\ne 1 28\ne 1 1099511627776\ne 1 1000\nr 1 128\nr 1 100\nr 1 150\nr 1 1025\nr 1 1099511627777\nr 1 0\n",
        status: Status::Good,
        told: "a 1 null\na 1 null\na 1 null\na 1 0\ne 1 true\ne 1 true\ne 1 false\ne 1 false\nr 1 true 0\nr 1 true 128\nr 1 true 128\nr 1 false\nr 1 false\nr 1 gone\nlive 0\nasked 0\nextent 0\nslack 0\nnode 0 stats 0 3 1 3 1 4 2 1 1 0 0 178 100 0 150\n",
    },
    // a block that has all of its parent can't get another byte
    Row {
        words: &["replay", "stats(region(32,16,mem))", "64"],
        trace: "a 1 32\nr 1 33\n",
        status: Status::Good,
        told: "a 1 0\nr 1 false\nlive 1\nasked 32\nextent 32\nslack 0\nnode 0 stats 0 1 1 0 0 1 0 0 0 0 32 32 0 0 32\nnode 1 region room 0 longest 0\nnode 2 mem cells 1\n",
    },
    // the chunk of a region above is a request like any other
    Row {
        words: &["replay", "region(1024,16,stats(mem))", "64"],
        trace: "a 1 100\n",
        status: Status::Good,
        told: "a 1 0\nlive 1\nasked 100\nextent 112\nslack 12\nnode 0 region room 912 longest 912\nnode 1 stats 0 1 1 0 0 0 0 0 0 0 1024 1024 0 0 1024\nnode 2 mem cells 16\n",
    },
    // a block that can't be used again counts as given back; then requests at multiples; then all are given back
    Row {
        words: &["replay", "stats(region(128,16,mem))", "4"],
        trace: "a 1 10\na 2 20\nf 1\n",
        status: Status::Good,
        told: "a 1 0\na 2 16\nf 1 false\nlive 1\nasked 20\nextent 32\nslack 12\nnode 0 stats 0 2 2 0 0 0 0 0 1 0 20 30 0 12 30\nnode 1 region room 80 longest 80\nnode 2 mem cells 2\n",
    },
    Row {
        words: &["replay", "stats(region(128,16,mem))", "4"],
        trace: "a 1 10\na 2 20\nf 1\nl 3 30 64\nl 4 30 64\nl 4 0 64\n",
        status: Status::Good,
        told: "a 1 0\na 2 16\nf 1 false\nl 3 64\nl 4 null\nl 4 null\nlive 2\nasked 50\nextent 64\nslack 14\nnode 0 stats 0 4 3 0 0 0 0 0 1 0 50 60 0 14 50\nnode 1 region room 32 longest 32\nnode 2 mem cells 2\n",
    },
    Row {
        words: &["replay", "stats(region(128,16,mem))", "4"],
        trace: "a 1 10\na 2 20\nf 1\nl 3 30 64\nl 4 30 64\nz\n",
        status: Status::Good,
        told: "a 1 0\na 2 16\nf 1 false\nl 3 64\nl 4 null\nz done\nlive 0\nasked 0\nextent 0\nslack 0\nnode 0 stats 0 4 3 0 0 0 0 0 1 1 0 60 0 0 50\nnode 1 region room 128 longest 128\nnode 2 mem cells 2\n",
    },
];

#[test]
fn layers_answer(rt: HostRuntime) -> Result<(), Fail> {
    for row in ROWS {
        tells(&rt, row.words, row.trace, row.status, row.told)?;
    }
    Ok(())
}
