//! From text to plans.

ghost use Rattle.std.specs.Prelude.{◌≡◌, ◌<◌, ◌-◌, ◌^◌, List, IfOk, IfErr, MatchResult, length, map};
ghost use Rattle.plan_form.specs.Texts.{BlockText, AreWritten, written, text_of};
ghost use Rattle.plan_form.specs.TextFaults.{IsFault, IsMemory};

use crate::fault::TextFault;
use crate::line::line_said;
use crate::problem::BlockPlan;
use crate::progress::{Progress, advance};
use line_text::cut;
use std::alloc::Global;
use word_kit::NoMemory;

/// The text has fewer bytes than this.
const MOST_BYTES: usize = 0xffff_ffff;

// The plans of a text whose lines can be counted.
fn read(alloc: Global, text: &[u8]) -> Result<Vec<BlockPlan>, TextFault>
    requires { length text.now < 2 ^ 32 - 1 }
    ensures found { IfOk result (λ v. AreWritten (map written v.items) × (text.now ≡ text_of (map written v.items))) }
    ensures fault { IfErr result (λ e. IsFault text.now e) }
{
    let mut progress = Progress::Start;
    let mut rest = text;
    let mut n: u32 = 1;
    while let Some((line, after)) = cut(rest, b'\n') {
        let Some(said) = line_said(alloc, line)? else {
            return Err(TextFault::BadLine(n));
        };
        let Some(further) = advance(alloc, progress, said)? else {
            return Err(TextFault::BadLine(n));
        };
        progress = further;
        rest = after;
        n += 1;
    }
    if !rest.is_empty() {
        return Err(TextFault::BadLine(n));
    }
    match progress {
        Progress::Between(plans) => Ok(plans),
        _ => Err(TextFault::BadLine(n)),
    }
}

/// The plans of a text, or the first line with which no text begins; at a text that ends early this is the line after the
/// last. A text of 2^32 - 1 bytes or more, whose lines might not be counted, is answered by want of memory.
pub fn parse(alloc: Global, text: &[u8]) -> Result<Vec<BlockPlan>, TextFault>
    // What is read has this text.
    ensures found { IfOk result (λ v. AreWritten (map written v.items) × (text.now ≡ text_of (map written v.items))) }
    // A bad line is the first with which no text begins.
    ensures fault { IfErr result (λ e. IsFault text.now e) }
    // The text of some plans is read as these, unless memory runs out.
    ensures again { (plans : List BlockText) → AreWritten plans → text.now ≡ text_of plans
        → MatchResult result (λ v. map written v.items ≡ plans) (λ e. IsMemory e) }
{
    if text.len() >= MOST_BYTES {
        return Err(TextFault::Memory(NoMemory));
    }
    read(alloc, text)
}
