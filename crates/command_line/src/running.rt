ghost use Rattle.std.specs.Prelude.{◌≤◌};

use cap_real::{RealClock, RealOpener, RealOutlet, RealSink, RealView};
use dumpcap_main::{WordFault, command, refuse};
use std::env;
use std::io::ErrorKind;
use std::sync::Wait;
use std::thread::Threads;

/// The exit for refused words.
const REFUSED: u8 = 1;

/// The exit where memory is wanting.
const NO_MEMORY: u8 = 5;

/// Why the words of the command line can't be run.
enum Unreadable {
    /// One of them isn't UTF-8.
    NoText,
    /// Memory is wanting.
    NoMemory,
}

/// The words behind the program's own name.
fn words_of_program(host: &HostRuntime) -> Result<Vec<String>, Unreadable> {
    let mut words = Vec::new(host.alloc());
    let args = match env::args(host) {
        Ok(args) => args,
        Err(error) if error.kind() == ErrorKind::OutOfMemory => return Err(Unreadable::NoMemory),
        Err(_) => return Err(Unreadable::NoText),
    };
    for word in args.skip(1) {
        let Ok(()) = words.push(word) else {
            return Err(Unreadable::NoMemory);
        };
    }
    Ok(words)
}

/// Runs the words of the process behind its own name, over the sources, files, streams and clock of the system, and answers
/// the exit; what was done is the contract of [`command`](dumpcap_main::command). A word that isn't UTF-8 is refused as an
/// unknown word.
pub fn run_command_line<R: Threads + Wait + Sync>(rt: &R, host: HostRuntime) -> u8
    ensures exits { result ≤ 9 }
{
    let mut outlet = RealOutlet::new(host);
    let words = match words_of_program(&host) {
        Ok(words) => words,
        Err(Unreadable::NoText) => {
            refuse(&mut outlet, WordFault::Unknown);
            return REFUSED;
        }
        Err(Unreadable::NoMemory) => return NO_MEMORY,
    };
    let outcome = command(
        rt,
        host.alloc(),
        words.as_slice(),
        &mut RealOpener::new(host),
        &mut outlet,
        &mut RealSink::new(host),
        &mut RealClock::new(host),
        &mut RealView::new(host),
    );
    outcome.exit
}
