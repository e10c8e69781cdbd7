ghost use Rattle.std.specs.Prelude.{◌≡◌, IfOk, string_bytes};
ghost use Rattle.capture_report.specs.Sayable.{HasRoom};
ghost use Rattle.capture_report.specs.Words.{code_words, ending_words};

use cap_base::{Code, How};
use std::alloc::{AllocError, Global};

/// A defect in a source's bytes, in a word.
fn words_of_code(code: Code) -> &'static str
    ensures { result.now ≡ code_words code }
{
    match code {
        Code::Magic => "magic",
        Code::Version => "version",
        Code::Order => "order",
        Code::Length => "length",
        Code::Trailer => "trailer",
        Code::Body => "body",
        Code::Note => "note",
        Code::Interface => "interface",
        Code::Captured => "captured",
    }
}

/// How a source ended, in words.
#[tactic(auto, using(crate::proofs::Sayable::words_have_room), unfolding(crate::specs::Words::ending_words))]
pub fn words_of_ending(alloc: Global, how: How) -> Result<String, AllocError>
    ensures words { IfOk result (λ s. string_bytes s ≡ ending_words how) }
    ensures room { HasRoom (ending_words how) }
{
    match how {
        How::Clean => String::from_str(alloc, "clean"),
        How::Stopped => String::from_str(alloc, "stopped"),
        How::Cut { at } => format!(in alloc; "cut at {at}"),
        How::Bad { code, at } => {
            let code = words_of_code(code);
            format!(in alloc; "bad {code} at {at}")
        }
        How::ReadFault => String::from_str(alloc, "read failed"),
        How::OpenFault => String::from_str(alloc, "open failed"),
        How::TooMany => String::from_str(alloc, "too many interfaces"),
        How::TooLong => String::from_str(alloc, "too long"),
        How::NoMemory => String::from_str(alloc, "no memory"),
        How::Worn => String::from_str(alloc, "worn"),
    }
}
