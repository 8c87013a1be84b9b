//! The examples of the format both ways, and texts with one fault each.

use rule_body::body_cost;
use rule_form::{TextFault, parse, print};
use std::alloc::Global;
use std::test::Fail;

// A text with one fault, the line that is bad, and a text without the fault.
type Case = (&'static [u8], u32, &'static [u8]);

const GOOD: &[u8] =
    b"rules 1\nrule\nguest 7c221a14 lit\nat sss\ndead -\nhost 8d9c3e00000000 -\ntake -\nclause 0\nend\n";

// Titles, line feeds and ends.
fn frame_case(k: usize) -> Option<Case> {
    let case: Case = match k {
        // another version
        0 => (
            b"rules 2\nrule\nguest 7c221a14 lit\nat sss\ndead -\nhost 8d9c3e00000000 -\ntake -\nclause 0\nend\n",
            1,
            GOOD,
        ),
        // a carriage return
        1 => (
            b"rules 1\r\nrule\nguest 7c221a14 lit\nat sss\ndead -\nhost 8d9c3e00000000 -\ntake -\nclause 0\nend\n",
            1,
            GOOD,
        ),
        // no title
        2 => (
            b"rule\nguest 7c221a14 lit\nat sss\ndead -\nhost 8d9c3e00000000 -\ntake -\nclause 0\nend\n",
            1,
            GOOD,
        ),
        // two spaces
        3 => (
            b"rules 1\nrule\nguest 7c221a14 lit\nat sss\ndead -\nhost 8d9c3e00000000 -\ntake -\nclause  0\nend\n",
            8,
            b"rules 1\nrule\nguest 7c221a14 lit\nat sss\ndead -\nhost 8d9c3e00000000 -\ntake -\nclause 0\nclause 0\nend\n",
        ),
        // no last line feed
        4 => (
            b"rules 1\nrule\nguest 7c221a14 lit\nat sss\ndead -\nhost 8d9c3e00000000 -\ntake -\nclause 0\nend",
            9,
            GOOD,
        ),
        // no end
        5 => (
            b"rules 1\nrule\nguest 7c221a14 lit\nat sss\ndead -\nhost 8d9c3e00000000 -\ntake -\nclause 0\n",
            9,
            GOOD,
        ),
        // bytes behind the end
        6 => (
            b"rules 1\nrule\nguest 7c221a14 lit\nat sss\ndead -\nhost 8d9c3e00000000 -\ntake -\nclause 0\nend\nx",
            10,
            GOOD,
        ),
        // no line
        7 => (b"", 1, b"rules 1\n"),
        _ => return None,
    };
    Some(case)
}

// Clauses.
fn clause_case(k: usize) -> Option<Case> {
    let case: Case = match k {
        // a leading zero
        0 => (
            b"rules 1\nrule\nguest 7c221a14 lit\nat sss\ndead -\nhost 8d9c3e00000000 -\ntake -\nclause 01 0\nend\n",
            8,
            b"rules 1\nrule\nguest 7c221a14 lit\nat sss\ndead -\nhost 8d9c3e00000000 -\ntake -\nclause 1 0\nend\n",
        ),
        // a variable twice
        1 => (
            b"rules 1\nrule\nguest 7c221a14 lit\nat sss\ndead -\nhost 8d9c3e00000000 -\ntake -\nclause 1 1 0\nend\n",
            8,
            b"rules 1\nrule\nguest 7c221a14 lit\nat sss\ndead -\nhost 8d9c3e00000000 -\ntake -\nclause 1 2 0\nend\n",
        ),
        // a variable with both signs
        2 => (
            b"rules 1\nrule\nguest 7c221a14 lit\nat sss\ndead -\nhost 8d9c3e00000000 -\ntake -\nclause 1 -1 0\nend\n",
            8,
            b"rules 1\nrule\nguest 7c221a14 lit\nat sss\ndead -\nhost 8d9c3e00000000 -\ntake -\nclause 1 -2 0\nend\n",
        ),
        // literals out of order
        3 => (
            b"rules 1\nrule\nguest 7c221a14 lit\nat sss\ndead -\nhost 8d9c3e00000000 -\ntake -\nclause 2 1 0\nend\n",
            8,
            b"rules 1\nrule\nguest 7c221a14 lit\nat sss\ndead -\nhost 8d9c3e00000000 -\ntake -\nclause 1 2 0\nend\n",
        ),
        // a variable too high
        4 => (
            b"rules 1\nrule\nguest 7c221a14 lit\nat sss\ndead -\nhost 8d9c3e00000000 -\ntake -\nclause 2147483648 0\nend\n",
            8,
            b"rules 1\nrule\nguest 7c221a14 lit\nat sss\ndead -\nhost 8d9c3e00000000 -\ntake -\nclause -2147483647 0\nend\n",
        ),
        // variable 0
        5 => (
            b"rules 1\nrule\nguest 7c221a14 lit\nat sss\ndead -\nhost 8d9c3e00000000 -\ntake -\nclause -0 0\nend\n",
            8,
            b"rules 1\nrule\nguest 7c221a14 lit\nat sss\ndead -\nhost 8d9c3e00000000 -\ntake -\nclause -1 0\nend\n",
        ),
        // a clause without its 0
        6 => (
            b"rules 1\nrule\nguest 7c221a14 lit\nat sss\ndead -\nhost 8d9c3e00000000 -\ntake -\nclause 1\nend\n",
            8,
            b"rules 1\nrule\nguest 7c221a14 lit\nat sss\ndead -\nhost 8d9c3e00000000 -\ntake -\nclause 1 0\nend\n",
        ),
        _ => return None,
    };
    Some(case)
}

// Guest words.
fn guest_case(k: usize) -> Option<Case> {
    let case: Case = match k {
        // parameters out of order
        0 => (
            b"rules 1\nrule\nguest 7c411a14 lit\nat sss\ndead -\nhost 8d9c3e00000000 -\ntake -\nclause 0\nend\n",
            3,
            GOOD,
        ),
        // a parameter too many
        1 => (
            b"rules 1\nrule\nguest 7c223a14 lit\nat sss\ndead -\nhost 8d9c3e00000000 -\ntake -\nclause 0\nend\n",
            3,
            GOOD,
        ),
        // 0 for a parameter
        2 => (
            b"rules 1\nrule\nguest 7c021a14 lit\nat sss\ndead -\nhost 8d9c3e00000000 -\ntake -\nclause 0\nend\n",
            3,
            GOOD,
        ),
        // 0 where it is no base
        3 => (
            b"rules 1\nrule\nguest 60010005 lit\nat h\ndead -\ntake -\nclause 0\nend\n",
            3,
            b"rules 1\nrule\nguest 38200005 lit\nat h\ndead -\ntake -\nclause 0\nend\n",
        ),
        // any without an immediate
        4 => (
            b"rules 1\nrule\nguest 7c221a14 any\nat sss\ndead -\nhost 8d9c3e00000000 -\ntake -\nclause 0\nend\n",
            3,
            GOOD,
        ),
        // an immediate that is not 0 under any
        5 => (
            b"rules 1\nrule\nguest 38220001 any\nat hh\ndead -\ntake -\nclause 0\nend\n",
            3,
            b"rules 1\nrule\nguest 38220000 any\nat hh\ndead -\ntake -\nclause 0\nend\n",
        ),
        // two accesses of the guest
        6 => (
            b"rules 1\nrule\nguest 80220000 any\nguest 80220000 any\nat ss\ndead -\ntake -\nclause 0\nend\n",
            4,
            b"rules 1\nrule\nguest 80220000 any\nguest 38220000 any\nat ss\ndead -\ntake -\nclause 0\nend\n",
        ),
        // four words
        7 => (
            b"rules 1\nrule\nguest 38220000 any\nguest 38220000 any\nguest 38220000 any\nguest 38220000 any\nat ss\ndead -\ntake -\nclause 0\nend\n",
            6,
            b"rules 1\nrule\nguest 38220000 any\nguest 38220000 any\nguest 38220000 any\nat ss\ndead -\ntake -\nclause 0\nend\n",
        ),
        // a word behind a branch
        8 => (
            b"rules 1\nrule\nguest 41820000 any\nguest 2c010000 lit\nat h\ndead -\ntake 4\nclause 0\nend\n",
            4,
            b"rules 1\nrule\nguest 2c010000 lit\nguest 41820000 any\nat h\ndead -\ntake 4\nclause 0\nend\n",
        ),
        // a branch that is not free
        9 => (
            b"rules 1\nrule\nguest 2c010000 lit\nguest 41820000 lit\nat h\ndead cr0\nhost 813d0400000000000000 -\ntake 4\nclause 0\nend\n",
            4,
            b"rules 1\nrule\nguest 2c010000 lit\nguest 41820000 any\nat h\ndead cr0\nhost 813d0400000000000000 -\ntake 4\nclause 0\nend\n",
        ),
        // a branch with a link
        10 => (
            b"rules 1\nrule\nguest 2c010000 lit\nguest 41820001 any\nat h\ndead cr0\nhost 813d0400000000000000 -\ntake 4\nclause 0\nend\n",
            4,
            b"rules 1\nrule\nguest 2c010000 lit\nguest 41820000 any\nat h\ndead cr0\nhost 813d0400000000000000 -\ntake 4\nclause 0\nend\n",
        ),
        // a branch that counts
        11 => (
            b"rules 1\nrule\nguest 2c010000 lit\nguest 40020000 any\nat h\ndead cr0\nhost 813d0400000000000000 -\ntake 4\nclause 0\nend\n",
            4,
            b"rules 1\nrule\nguest 2c010000 lit\nguest 41820000 any\nat h\ndead cr0\nhost 813d0400000000000000 -\ntake 4\nclause 0\nend\n",
        ),
        // an illegal word
        12 => (
            b"rules 1\nrule\nguest 00000000 lit\nat sss\ndead -\nhost 8d9c3e00000000 -\ntake -\nclause 0\nend\n",
            3,
            GOOD,
        ),
        // upper case
        13 => (
            b"rules 1\nrule\nguest 7C221a14 lit\nat sss\ndead -\nhost 8d9c3e00000000 -\ntake -\nclause 0\nend\n",
            3,
            GOOD,
        ),
        // nine digits
        14 => (
            b"rules 1\nrule\nguest 7c221a140 lit\nat sss\ndead -\nhost 8d9c3e00000000 -\ntake -\nclause 0\nend\n",
            3,
            GOOD,
        ),
        // a division
        15 => (
            b"rules 1\nrule\nguest 7c221bd6 lit\nat sss\ndead -\nhost 8d9c3e00000000 -\ntake -\nclause 0\nend\n",
            3,
            GOOD,
        ),
        // a load of many
        16 => (
            b"rules 1\nrule\nguest b8410000 any\nat sss\ndead -\nhost 8d9c3e00000000 -\ntake -\nclause 0\nend\n",
            3,
            GOOD,
        ),
        // a jump of the guest
        17 => (
            b"rules 1\nrule\nguest 48000000 lit\nat sss\ndead -\nhost 8d9c3e00000000 -\ntake -\nclause 0\nend\n",
            3,
            GOOD,
        ),
        // no word
        18 => (
            b"rules 1\nrule\nat sss\ndead -\nhost 8d9c3e00000000 -\ntake -\nclause 0\nend\n",
            3,
            GOOD,
        ),
        _ => return None,
    };
    Some(case)
}

// Letters and dead names.
fn place_case(k: usize) -> Option<Case> {
    let case: Case = match k {
        // a fourth slot
        0 => (
            b"rules 1\nrule\nguest 7c221a14 lit\nguest 7c811214 lit\nat ssss\ndead -\ntake -\nclause 0\nend\n",
            5,
            b"rules 1\nrule\nguest 7c221a14 lit\nguest 7c811214 lit\nat sssh\ndead -\ntake -\nclause 0\nend\n",
        ),
        // a letter too few
        1 => (
            b"rules 1\nrule\nguest 7c221a14 lit\nat ss\ndead -\nhost 8d9c3e00000000 -\ntake -\nclause 0\nend\n",
            4,
            GOOD,
        ),
        // a dash for parameters
        2 => (
            b"rules 1\nrule\nguest 7c221a14 lit\nat -\ndead -\nhost 8d9c3e00000000 -\ntake -\nclause 0\nend\n",
            4,
            b"rules 1\nrule\nguest 7c0004ac lit\nat -\ndead -\ntake -\nclause 0\nend\n",
        ),
        // another letter
        3 => (
            b"rules 1\nrule\nguest 7c221a14 lit\nat sst\ndead -\nhost 8d9c3e00000000 -\ntake -\nclause 0\nend\n",
            4,
            GOOD,
        ),
        // a dead name that is not written
        4 => (
            b"rules 1\nrule\nguest 7c221a14 lit\nat sss\ndead lr\nhost 8d9c3e00000000 -\ntake -\nclause 0\nend\n",
            5,
            b"rules 1\nrule\nguest 7c221a14 lit\nat sss\ndead p1\nhost 8d9c3e00000000 -\ntake -\nclause 0\nend\n",
        ),
        // dead names out of order
        5 => (
            b"rules 1\nrule\nguest 34220000 any\nat hh\ndead ca,p1\ntake -\nclause 0\nend\n",
            5,
            b"rules 1\nrule\nguest 34220000 any\nat hh\ndead p1,cr0,ca\ntake -\nclause 0\nend\n",
        ),
        // a dead name twice
        6 => (
            b"rules 1\nrule\nguest 7c221a14 lit\nat sss\ndead p1,p1\nhost 8d9c3e00000000 -\ntake -\nclause 0\nend\n",
            5,
            b"rules 1\nrule\nguest 7c221a14 lit\nat sss\ndead p1\nhost 8d9c3e00000000 -\ntake -\nclause 0\nend\n",
        ),
        // no dead name
        7 => (
            b"rules 1\nrule\nguest 7c221a14 lit\nat sss\ndead p1,\nhost 8d9c3e00000000 -\ntake -\nclause 0\nend\n",
            5,
            b"rules 1\nrule\nguest 7c221a14 lit\nat sss\ndead p1\nhost 8d9c3e00000000 -\ntake -\nclause 0\nend\n",
        ),
        _ => return None,
    };
    Some(case)
}

// Holes and conditions.
fn hole_case(k: usize) -> Option<Case> {
    let case: Case = match k {
        // a hole for a branch
        0 => (
            b"rules 1\nrule\nguest 2c010000 lit\nguest 41820000 any\nat h\ndead cr0\nhost 813d0400000000000000 s1\ntake 4\nclause 0\nend\n",
            7,
            b"rules 1\nrule\nguest 2c010000 lit\nguest 41820000 any\nat h\ndead cr0\nhost 813d0400000000000000 -\ntake 4\nclause 0\nend\n",
        ),
        // a field that is not 0 under a hole
        1 => (
            b"rules 1\nrule\nguest 80220000 any\nat ss\ndead -\nhost 8b9e04000000 s0\nhost 0fcb -\ntake -\nclause 0\nend\n",
            6,
            b"rules 1\nrule\nguest 80220000 any\nat ss\ndead -\nhost 8b9e00000000 s0\nhost 0fcb -\ntake -\nclause 0\nend\n",
        ),
        // a hole for a word that is not free
        2 => (
            b"rules 1\nrule\nguest 7c221a14 lit\nat sss\ndead -\nhost 8d9c3e00000000 z0\ntake -\nclause 0\nend\n",
            6,
            GOOD,
        ),
        // a hole of an op without a field
        3 => (
            b"rules 1\nrule\nguest 80220000 any\nat ss\ndead -\nhost 8b9e00000000 s0\nhost 0fcb n0\ntake -\nclause 0\nend\n",
            7,
            b"rules 1\nrule\nguest 80220000 any\nat ss\ndead -\nhost 8b9e00000000 s0\nhost 0fcb -\ntake -\nclause 0\nend\n",
        ),
        // a hole for no word
        4 => (
            b"rules 1\nrule\nguest 80220000 any\nat ss\ndead -\nhost 8b9e00000000 s1\nhost 0fcb -\ntake -\nclause 0\nend\n",
            6,
            b"rules 1\nrule\nguest 80220000 any\nat ss\ndead -\nhost 8b9e00000000 s0\nhost 0fcb -\ntake -\nclause 0\nend\n",
        ),
        // take without a branch
        5 => (
            b"rules 1\nrule\nguest 7c221a14 lit\nat sss\ndead -\nhost 8d9c3e00000000 -\ntake 4\nclause 0\nend\n",
            7,
            GOOD,
        ),
        // a branch without take
        6 => (
            b"rules 1\nrule\nguest 2c010000 lit\nguest 41820000 any\nat h\ndead cr0\nhost 813d0400000000000000 -\ntake -\nclause 0\nend\n",
            8,
            b"rules 1\nrule\nguest 2c010000 lit\nguest 41820000 any\nat h\ndead cr0\nhost 813d0400000000000000 -\ntake 4\nclause 0\nend\n",
        ),
        // a condition of no jump
        7 => (
            b"rules 1\nrule\nguest 2c010000 lit\nguest 41820000 any\nat h\ndead cr0\nhost 813d0400000000000000 -\ntake 0\nclause 0\nend\n",
            8,
            b"rules 1\nrule\nguest 2c010000 lit\nguest 41820000 any\nat h\ndead cr0\nhost 813d0400000000000000 -\ntake 9\nclause 0\nend\n",
        ),
        // a condition in upper case
        8 => (
            b"rules 1\nrule\nguest 2c010000 lit\nguest 41820000 any\nat h\ndead cr0\nhost 813d0400000000000000 -\ntake C\nclause 0\nend\n",
            8,
            b"rules 1\nrule\nguest 2c010000 lit\nguest 41820000 any\nat h\ndead cr0\nhost 813d0400000000000000 -\ntake c\nclause 0\nend\n",
        ),
        _ => return None,
    };
    Some(case)
}

// Ops of the body.
fn host_case(k: usize) -> Option<Case> {
    let case: Case = match k {
        // esp
        0 => (
            b"rules 1\nrule\nguest 7c221a14 lit\nat sss\ndead -\nhost 89e0 -\ntake -\nclause 0\nend\n",
            6,
            b"rules 1\nrule\nguest 7c221a14 lit\nat sss\ndead -\nhost 89d8 -\ntake -\nclause 0\nend\n",
        ),
        // another spelling
        1 => (
            b"rules 1\nrule\nguest 7c221a14 lit\nat sss\ndead -\nhost 8bc3 -\ntake -\nclause 0\nend\n",
            6,
            b"rules 1\nrule\nguest 7c221a14 lit\nat sss\ndead -\nhost 89d8 -\ntake -\nclause 0\nend\n",
        ),
        // a jump
        2 => (
            b"rules 1\nrule\nguest 7c221a14 lit\nat sss\ndead -\nhost e900000000 -\ntake -\nclause 0\nend\n",
            6,
            GOOD,
        ),
        // a trap
        3 => (
            b"rules 1\nrule\nguest 7c221a14 lit\nat sss\ndead -\nhost cc -\ntake -\nclause 0\nend\n",
            6,
            GOOD,
        ),
        // a system call
        4 => (
            b"rules 1\nrule\nguest 7c221a14 lit\nat sss\ndead -\nhost cd80 -\ntake -\nclause 0\nend\n",
            6,
            GOOD,
        ),
        // a division of the host
        5 => (
            b"rules 1\nrule\nguest 7c221a14 lit\nat sss\ndead -\nhost f7f0 -\ntake -\nclause 0\nend\n",
            6,
            b"rules 1\nrule\nguest 7c221a14 lit\nat sss\ndead -\nhost f7e0 -\ntake -\nclause 0\nend\n",
        ),
        // four bytes at 145
        6 => (
            b"rules 1\nrule\nguest 7c221a14 lit\nat sss\ndead -\nhost 8b0591000000 -\ntake -\nclause 0\nend\n",
            6,
            b"rules 1\nrule\nguest 7c221a14 lit\nat sss\ndead -\nhost 8b0590000000 -\ntake -\nclause 0\nend\n",
        ),
        // an offset of 127
        7 => (
            b"rules 1\nrule\nguest 7c221a14 lit\nat sss\ndead -\nhost 8b057f000000 -\ntake -\nclause 0\nend\n",
            6,
            b"rules 1\nrule\nguest 7c221a14 lit\nat sss\ndead -\nhost 8b0580000000 -\ntake -\nclause 0\nend\n",
        ),
        // the home of a parameter in a slot
        8 => (
            b"rules 1\nrule\nguest 7c221a14 lit\nat sss\ndead -\nhost 8b0504000000 -\ntake -\nclause 0\nend\n",
            6,
            b"rules 1\nrule\nguest 7c221a14 lit\nat hss\ndead -\nhost 8b0504000000 -\ntake -\nclause 0\nend\n",
        ),
        // a dead home that is written
        9 => (
            b"rules 1\nrule\nguest 2c010000 lit\nat h\ndead cr0\nhost 880588000000 -\ntake -\nclause 0\nend\n",
            6,
            b"rules 1\nrule\nguest 2c010000 lit\nat h\ndead cr0\nhost 8a0588000000 -\ntake -\nclause 0\nend\n",
        ),
        // a dead home among four that are written
        10 => (
            b"rules 1\nrule\nguest 2c010000 lit\nat h\ndead cr0\nhost 890585000000 -\ntake -\nclause 0\nend\n",
            6,
            b"rules 1\nrule\nguest 2c010000 lit\nat h\ndead cr0\nhost 890584000000 -\ntake -\nclause 0\nend\n",
        ),
        // the register of no slot
        11 => (
            b"rules 1\nrule\nguest 2c010000 lit\nat h\ndead cr0\nhost 89d8 -\ntake -\nclause 0\nend\n",
            6,
            b"rules 1\nrule\nguest 2c010000 lit\nat s\ndead cr0\nhost 89d8 -\ntake -\nclause 0\nend\n",
        ),
        // two accesses of the host
        12 => (
            b"rules 1\nrule\nguest 80220000 any\nat ss\ndead -\nhost 8b8600000000 -\nhost 8b8600000000 -\ntake -\nclause 0\nend\n",
            7,
            b"rules 1\nrule\nguest 80220000 any\nat ss\ndead -\nhost 8b8600000000 -\nhost 8d8600000000 -\ntake -\nclause 0\nend\n",
        ),
        // a sum in memory
        13 => (
            b"rules 1\nrule\nguest 80220000 any\nat ss\ndead -\nhost 038600000000 -\ntake -\nclause 0\nend\n",
            6,
            b"rules 1\nrule\nguest 80220000 any\nat ss\ndead -\nhost 8b8600000000 -\ntake -\nclause 0\nend\n",
        ),
        // five ops
        14 => (
            b"rules 1\nrule\nguest 7c221a14 lit\nat sss\ndead -\nhost 99 -\nhost 99 -\nhost 99 -\nhost 99 -\nhost 99 -\ntake -\nclause 0\nend\n",
            10,
            b"rules 1\nrule\nguest 7c221a14 lit\nat sss\ndead -\nhost 99 -\nhost 99 -\nhost 99 -\nhost 99 -\ntake -\nclause 0\nend\n",
        ),
        _ => return None,
    };
    Some(case)
}

// Whether the line is told as the first bad one, and the text without the fault is read.
fn is_told(alloc: Global, bad: &[u8], line: u32, good: &[u8]) -> bool {
    match parse(alloc, bad) {
        Err(TextFault::BadLine(n)) => n == line && parse(alloc, good).is_ok(),
        _ => false,
    }
}

#[test]
fn a_bad_frame_is_told(rt: HostRuntime) {
    for k in 0..8 {
        let (bad, line, good) = frame_case(k).expect(&rt, "a case");
        assert!(rt; is_told(rt.alloc(), bad, line, good));
    }
}

#[test]
fn a_bad_clause_is_told(rt: HostRuntime) {
    for k in 0..7 {
        let (bad, line, good) = clause_case(k).expect(&rt, "a case");
        assert!(rt; is_told(rt.alloc(), bad, line, good));
    }
}

#[test]
fn a_bad_guest_is_told(rt: HostRuntime) {
    for k in 0..19 {
        let (bad, line, good) = guest_case(k).expect(&rt, "a case");
        assert!(rt; is_told(rt.alloc(), bad, line, good));
    }
}

#[test]
fn a_bad_place_is_told(rt: HostRuntime) {
    for k in 0..8 {
        let (bad, line, good) = place_case(k).expect(&rt, "a case");
        assert!(rt; is_told(rt.alloc(), bad, line, good));
    }
}

#[test]
fn a_bad_hole_is_told(rt: HostRuntime) {
    for k in 0..9 {
        let (bad, line, good) = hole_case(k).expect(&rt, "a case");
        assert!(rt; is_told(rt.alloc(), bad, line, good));
    }
}

#[test]
fn a_bad_host_is_told(rt: HostRuntime) {
    for k in 0..15 {
        let (bad, line, good) = host_case(k).expect(&rt, "a case");
        assert!(rt; is_told(rt.alloc(), bad, line, good));
    }
}

fn example(k: usize) -> &'static [u8] {
    match k {
        0 => GOOD,
        1 =>
            b"rules 1\nrule\nguest 80220000 any\nat ss\ndead -\nhost 8b9e00000000 s0\nhost 0fcb -\ntake -\nclause 0\nend\n",
        _ =>
            b"rules 1\nrule\nguest 2c010000 lit\nguest 41820000 any\nat h\ndead cr0\nhost 813d0400000000000000 -\ntake 4\nclause 0\nend\n",
    }
}

// One rule of the text is read, costs this, and is printed again.
fn is_example(alloc: Global, text: &[u8], cost: u32) -> Result<bool, TextFault> {
    let rules = parse(alloc, text)?;
    let printed = print(alloc, &rules)?;
    Ok(rules.len() == 1 && body_cost(&rules[0].body) == cost && printed.as_slice() == text)
}

#[test]
fn the_examples_are_read_and_printed_again(rt: HostRuntime) -> Result<(), Fail> {
    assert!(rt; is_example(rt.alloc(), example(0), 1)?);
    assert!(rt; is_example(rt.alloc(), example(1), 4)?);
    assert!(rt; is_example(rt.alloc(), example(2), 4)?);
    Ok(())
}

// So many rules.
fn many(alloc: Global, count: usize) -> Result<Vec<u8>, TextFault> {
    let mut text = Vec::new(alloc);
    text.extend_from_slice(b"rules 1\n")?;
    for _ in 0..count {
        text.extend_from_slice(b"rule\nguest 7c0004ac lit\nat -\ndead -\ntake -\nend\n")?;
    }
    Ok(text)
}

#[test]
fn a_text_has_at_most_1024_rules(rt: HostRuntime) -> Result<(), Fail> {
    let most = many(rt.alloc(), 1024)?;
    assert_eq!(rt; parse(rt.alloc(), &most)?.len(), 1024);
    let more = many(rt.alloc(), 1025)?;
    assert!(rt; is_told(rt.alloc(), &more, 6146, &most));
    Ok(())
}
