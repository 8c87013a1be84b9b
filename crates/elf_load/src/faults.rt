//! The rules that a file is tried against.
ghost use Rattle.std.specs.Prelude.{◌≡◌, ◌↔◌, ◌+◌, ◌*◌, ◌≤◌, ◌<◌, ◌^◌, ℕ, length, IsTrue, MatchOption, if◌then◌else◌};
ghost use Rattle.std.specs.Bool.{MatchBool};
ghost use Rattle.space.specs.declared.program.Kind.TheVariants.{PowerPc};
ghost use Rattle.elf_load.specs.Headers.{header, header_count, header_offset, table_offset, HasTable, is_segment, is_code, SharesAddress};
ghost use Rattle.elf_load.specs.Rules.{number_of};
ghost use Rattle.elf_load.specs.Faults.{Breaks, IsFault, PassesBelow, IsFirstFault, IsFirstHeader, HasOneCode, StartsAtWord, memory_before, most_memory, most_headers, machine_number, data_order};

use crate::ElfRefusal;
use crate::headers::{ProgramHeader, count_headers, find_table, read_header};
use crate::numbers::{half, word};
use space::Kind;

/// A rule that is asked of each program header.
#[derive(Clone, Copy)]
pub enum HeaderRule {
    Dynamic,
    SegmentOutside,
    SizesCrossed,
    HighSegment,
    Overlap,
    TooMuchMemory,
    CodeLong,
    StackOverlap,
}

const DYNAMIC: u32 = 2;

const INTERPRETER: u32 = 3;

const MAGIC: [u8; 4] = [0x7f, b'E', b'L', b'F'];

/// The end of the addresses of user programs.
const ADDRESS_END: u64 = 0xc000_0000;

/// How many bytes a code segment may have.
const LONGEST_CODE: u32 = 0x80000;

/// Where the stack of a PowerPC program begins.
pub const STACK_AT: u32 = 0x7f00_0000;

/// How many bytes the stack has.
pub const STACK_SIZE: u32 = 0x10_0000;

fn memory_bound(kind: Kind) -> u64
    ensures { result ≡ most_memory kind }
{
    match kind {
        Kind::PowerPc => 0x400_0000,
        Kind::Ia32 => 0x1000_0000,
    }
}

fn header_bound(kind: Kind) -> usize
    ensures { result ≡ most_headers kind }
{
    match kind {
        Kind::PowerPc => 64,
        Kind::Ia32 => 96,
    }
}

fn machine(kind: Kind) -> u16
    ensures { result ≡ machine_number kind }
{
    match kind {
        Kind::PowerPc => 20,
        Kind::Ia32 => 3,
    }
}

fn byte_order(kind: Kind) -> u8
    ensures { result ≡ data_order kind }
{
    match kind {
        Kind::PowerPc => 2,
        Kind::Ia32 => 1,
    }
}

/// How much memory the headers below this number ask for.
#[tactic(auto, using(crate::proofs::Steps::memory_steps))]
fn memory_asked(bytes: &[u8], kind: Kind, number: usize) -> u64
    requires table { HasTable kind bytes.now }
    requires within { number ≤ header_count kind bytes.now }
    requires few { number ≤ 65536 }
    ensures { result ≡ memory_before kind bytes.now number }
{
    let mut asked = 0;
    for i in 0..number {
        let h = read_header(bytes, kind, i);
        if h.is_load() {
            asked += u64::from(h.memsz);
        }
    }
    asked
}

/// Whether the header shares an address with a segment of a header below this number.
fn meets_earlier(bytes: &[u8], kind: Kind, number: usize, h: &ProgramHeader) -> bool
    requires table { HasTable kind bytes.now }
    requires within { number ≤ header_count kind bytes.now }
    ensures { IsTrue result ↔ ((earlier : ℕ) × (earlier < number) × IsTrue (is_segment (header kind bytes.now earlier))
        × SharesAddress (header kind bytes.now earlier).vaddr (header kind bytes.now earlier).memsz h.now.vaddr h.now.memsz) }
{
    for i in 0..number {
        let earlier = read_header(bytes, kind, i);
        if earlier.is_segment() && earlier.meets(h.vaddr, h.memsz) {
            return true;
        }
    }
    false
}

/// Whether the header of this number breaks the rule.
fn breaks(rule: HeaderRule, bytes: &[u8], kind: Kind, number: usize) -> bool
    requires table { HasTable kind bytes.now }
    requires within { number < header_count kind bytes.now }
    requires few { number < 65536 }
    ensures { IsTrue result ↔ Breaks rule kind bytes.now number }
{
    let h = read_header(bytes, kind, number);
    match rule {
        HeaderRule::Dynamic => h.segment_type == DYNAMIC || h.segment_type == INTERPRETER,
        HeaderRule::SegmentOutside => {
            h.is_load() && u64::from(h.offset) + u64::from(h.filesz) > bytes.len() as u64
        }
        HeaderRule::SizesCrossed => h.is_load() && h.memsz < h.filesz,
        HeaderRule::HighSegment => {
            h.is_load() && ADDRESS_END < u64::from(h.vaddr) + u64::from(h.memsz)
        }
        HeaderRule::Overlap => h.is_segment() && meets_earlier(bytes, kind, number, &h),
        HeaderRule::TooMuchMemory => memory_bound(kind) < memory_asked(bytes, kind, number + 1),
        HeaderRule::CodeLong => h.is_code() && LONGEST_CODE < h.memsz,
        HeaderRule::StackOverlap => h.is_segment() && h.meets(STACK_AT, STACK_SIZE),
    }
}

/// Where the first header that breaks the rule begins, if one does.
fn first_header(rule: HeaderRule, bytes: &[u8], kind: Kind) -> Option<u32>
    requires table { HasTable kind bytes.now }
    requires short { length bytes.now < 4294967295 }
    ensures { MatchOption result ((offset : ℕ) → ¬ IsFirstHeader rule kind bytes.now offset)
        (λ offset. IsFirstHeader rule kind bytes.now offset) }
{
    for i in 0..count_headers(bytes, kind) {
        if breaks(rule, bytes, kind, i) {
            return Some((find_table(bytes, kind) + 32 * i) as u32);
        }
    }
    None
}

/// Whether exactly one header is of a code segment.
fn has_one_code(bytes: &[u8], kind: Kind) -> bool
    requires { HasTable kind bytes.now }
    ensures { MatchBool result (HasOneCode kind bytes.now) (¬ HasOneCode kind bytes.now) }
{
    let mut found: Option<usize> = None;
    for i in 0..count_headers(bytes, kind) {
        if read_header(bytes, kind, i).is_code() {
            if found.is_some() {
                return false;
            }
            found = Some(i);
        }
    }
    found.is_some()
}

/// Whether the program starts at a word of a code segment.
fn starts_at_word(bytes: &[u8], kind: Kind) -> bool
    requires { HasTable kind bytes.now }
    ensures { IsTrue result ↔ StartsAtWord kind bytes.now }
{
    let entry = word(bytes, kind, 24);
    for i in 0..count_headers(bytes, kind) {
        let h = read_header(bytes, kind, i);
        if h.is_code() && h.has_word(entry) {
            return true;
        }
    }
    false
}

/// Where the version of the format is not 1, if it isn't.
fn wrong_version(bytes: &[u8], kind: Kind) -> Option<u32>
    requires { 52 ≤ length bytes.now }
    ensures { IsFault ElfRefusal.Version kind bytes.now result }
{
    if bytes[6] != 1 {
        return Some(6);
    }
    if word(bytes, kind, 20) != 1 {
        return Some(20);
    }
    None
}

fn refused_if(broken: bool, offset: u32) -> Option<u32>
    ensures { result ≡ (if broken then Some offset else None) }
{
    if broken { Some(offset) } else { None }
}

/// Where the ELF header breaks one of the first ten rules, if it does.
fn field_fault(rule: ElfRefusal, bytes: &[u8], kind: Kind) -> Option<u32>
    requires header { 2 ≤ number_of rule → 52 ≤ length bytes.now }
    requires early { number_of rule ≤ 10 }
    ensures { IsFault rule kind bytes.now result }
{
    match rule {
        ElfRefusal::Short => refused_if(bytes.len() < 52, 0),
        ElfRefusal::Magic => refused_if(bytes[..4] != MAGIC[..], 0),
        ElfRefusal::Class => refused_if(bytes[4] != 1, 4),
        ElfRefusal::Order => refused_if(bytes[5] != byte_order(kind), 5),
        ElfRefusal::Version => wrong_version(bytes, kind),
        ElfRefusal::Type => refused_if(half(bytes, kind, 16) != 2, 16),
        ElfRefusal::Machine => refused_if(half(bytes, kind, 18) != machine(kind), 18),
        ElfRefusal::HeaderSize => refused_if(half(bytes, kind, 42) != 32, 42),
        ElfRefusal::HeaderCount => {
            let count = count_headers(bytes, kind);
            refused_if(count == 0 || count > header_bound(kind), 44)
        }
        ElfRefusal::TableOutside => {
            let end = find_table(bytes, kind) + 32 * count_headers(bytes, kind);
            refused_if(end > bytes.len(), 28)
        }
        _ => unreachable!(),
    }
}

/// As `first_header`, for a rule that is asked of programs for PowerPC alone.
fn first_guest_header(rule: HeaderRule, bytes: &[u8], kind: Kind) -> Option<u32>
    requires table { HasTable kind bytes.now }
    requires short { length bytes.now < 4294967295 }
    ensures { MatchOption result ((offset : ℕ) → ¬ ((kind ≡ PowerPc) × IsFirstHeader rule kind bytes.now offset))
        (λ offset. (kind ≡ PowerPc) × IsFirstHeader rule kind bytes.now offset) }
{
    match kind {
        Kind::PowerPc => first_header(rule, bytes, kind),
        Kind::Ia32 => None,
    }
}

/// Whether the program is for PowerPC, and starts elsewhere than at a word of a code segment.
fn starts_elsewhere(bytes: &[u8], kind: Kind) -> bool
    requires { HasTable kind bytes.now }
    ensures { IsTrue result ↔ ((kind ≡ PowerPc) × ¬ StartsAtWord kind bytes.now) }
{
    match kind {
        Kind::PowerPc => !starts_at_word(bytes, kind),
        Kind::Ia32 => false,
    }
}

/// Where the program headers break one of the rules 11 to 20, if they do.
fn table_fault(rule: ElfRefusal, bytes: &[u8], kind: Kind) -> Option<u32>
    requires table { HasTable kind bytes.now }
    requires short { length bytes.now < 4294967295 }
    requires late { 11 ≤ number_of rule }
    requires early { number_of rule < 21 }
    ensures { IsFault rule kind bytes.now result }
{
    match rule {
        ElfRefusal::Dynamic => first_header(HeaderRule::Dynamic, bytes, kind),
        ElfRefusal::SegmentOutside => first_header(HeaderRule::SegmentOutside, bytes, kind),
        ElfRefusal::SizesCrossed => first_header(HeaderRule::SizesCrossed, bytes, kind),
        ElfRefusal::HighSegment => first_header(HeaderRule::HighSegment, bytes, kind),
        ElfRefusal::Overlap => first_header(HeaderRule::Overlap, bytes, kind),
        ElfRefusal::TooMuchMemory => first_header(HeaderRule::TooMuchMemory, bytes, kind),
        ElfRefusal::CodeCount => refused_if(!has_one_code(bytes, kind), 44),
        ElfRefusal::CodeLong => first_guest_header(HeaderRule::CodeLong, bytes, kind),
        ElfRefusal::Entry => refused_if(starts_elsewhere(bytes, kind), 24),
        ElfRefusal::StackOverlap => first_guest_header(HeaderRule::StackOverlap, bytes, kind),
        _ => unreachable!(),
    }
}

/// Where the file breaks one of the first twenty rules, if it does.
fn fault(rule: ElfRefusal, bytes: &[u8], kind: Kind) -> Option<u32>
    requires short { length bytes.now < 4294967295 }
    requires header { 2 ≤ number_of rule → 52 ≤ length bytes.now }
    requires table { 11 ≤ number_of rule → HasTable kind bytes.now }
    requires early { number_of rule < 21 }
    ensures { IsFault rule kind bytes.now result }
{
    if rule.number() <= 10 {
        field_fault(rule, bytes, kind)
    } else {
        table_fault(rule, bytes, kind)
    }
}

/// The rule of this number.
fn rule_of(number: u8) -> ElfRefusal
    requires first { 0 < number }
    requires last { number < 21 }
    ensures { number_of result ≡ number }
{
    match number {
        1 => ElfRefusal::Short,
        2 => ElfRefusal::Magic,
        3 => ElfRefusal::Class,
        4 => ElfRefusal::Order,
        5 => ElfRefusal::Version,
        6 => ElfRefusal::Type,
        7 => ElfRefusal::Machine,
        8 => ElfRefusal::HeaderSize,
        9 => ElfRefusal::HeaderCount,
        10 => ElfRefusal::TableOutside,
        11 => ElfRefusal::Dynamic,
        12 => ElfRefusal::SegmentOutside,
        13 => ElfRefusal::SizesCrossed,
        14 => ElfRefusal::HighSegment,
        15 => ElfRefusal::Overlap,
        16 => ElfRefusal::TooMuchMemory,
        17 => ElfRefusal::CodeCount,
        18 => ElfRefusal::CodeLong,
        19 => ElfRefusal::Entry,
        20 => ElfRefusal::StackOverlap,
        _ => unreachable!(),
    }
}

/// The first of the first twenty rules that the file breaks, and where, if it breaks one.
pub fn first_fault(bytes: &[u8], kind: Kind) -> Option<(ElfRefusal, u32)>
    requires { length bytes.now < 4294967295 }
    ensures { MatchOption result (PassesBelow 21 kind bytes.now)
        (λ found. IsFirstFault kind bytes.now found.0 found.1) }
{
    for number in 1..21 {
        let rule = rule_of(number);
        if let Some(offset) = fault(rule, bytes, kind) {
            return Some((rule, offset));
        }
    }
    None
}
