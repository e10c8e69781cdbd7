use crate::{Mode, WordFault, accepted_words_are_lawful, read_words};
use cap_base::{Name, Names};
use std::alloc::{AllocError, Global};
use std::test::Fail;

/// The mode of the words of a line, which one space parts.
fn mode_of(alloc: Global, line: &str) -> Result<Mode, WordFault> {
    let mut words = Vec::new(alloc);
    for word in line.split(' ') {
        words.push(String::from_str(alloc, word)?)?;
    }
    read_words(alloc, &words)
}

#[test]
fn refused_words(rt: HostRuntime) -> Result<(), Fail> {
    let rows = [
        ("-i a", WordFault::Missing),
        ("-i a -w", WordFault::Missing),
        ("-w o", WordFault::Missing),
        ("-ia -wo -nq", WordFault::Unknown),
        ("-i a -w o x", WordFault::Unknown),
        ("-i a -w o -Px", WordFault::Unknown),
        ("-i a -w o --help", WordFault::Unknown),
        ("-i a -w o -h", WordFault::Unknown),
        ("-i a -w o --version", WordFault::Unknown),
        ("-i a -w o -c 0", WordFault::Value),
        ("-i a -w o -c 0 -c 3", WordFault::Value),
        ("-i a -w o -c +3", WordFault::Value),
        ("-i a -w o -c 00000000000000000001", WordFault::Value),
        ("-i a -w o -s 262145", WordFault::Value),
        ("-i a -w o -b minutes:3", WordFault::Value),
        ("-i a -w o -a minutes:3", WordFault::Value),
        ("-i a -w o -b interval:0", WordFault::Value),
        ("-i a -w o -N 1000000001", WordFault::Value),
        ("-i a -w o -b files:2", WordFault::Conflict),
        ("-i a -w o -a files:2", WordFault::Conflict),
        ("-i a -w o -a filesize:1 -b packets:1", WordFault::Conflict),
        ("-i a -w - -b packets:1", WordFault::Conflict),
        ("-i a -w o -P -n", WordFault::Conflict),
        ("-i a -i b -w o -P", WordFault::Conflict),
        ("-i a -w a", WordFault::Conflict),
        ("-i a -ib -w o -w b --sync", WordFault::Conflict),
        ("-i ./a -w ./a -P", WordFault::Conflict),
        ("follow", WordFault::Missing),
        ("follow a b", WordFault::Unknown),
        ("follow --help b", WordFault::Unknown),
        ("check ", WordFault::Value),
        ("make 1 -2 3 m", WordFault::Unknown),
        ("make 1000000000000000001 2 3 m", WordFault::Value),
        ("make 1 2 1000001 m", WordFault::Value),
        ("trial 7 65 1", WordFault::Value),
        ("pass m", WordFault::Missing),
        ("pass m o p", WordFault::Unknown),
        ("pass a a", WordFault::Conflict),
        ("watch m", WordFault::Missing),
        ("watch m 0", WordFault::Value),
        ("watch m 65", WordFault::Value),
        ("join j", WordFault::Missing),
        ("join j --help", WordFault::Unknown),
        ("join a a b", WordFault::Conflict),
        ("join a b a", WordFault::Conflict),
    ];
    for (line, want) in rows {
        let found = mode_of(rt.alloc(), line);
        assert!(rt; matches!(found, Err(fault) if fault == want), "at {line}");
    }
    Ok(())
}

#[test]
fn settings_of_a_capture(rt: HostRuntime) -> Result<(), Fail> {
    let rows = [
        ("-i a -w o", None, 1000, Some(1_000_000)),
        ("-ia -wo -c1 -c 3", Some(3), 1000, Some(1_000_000)),
        (
            "-i a -w o -a packets:7 -c 3",
            Some(7),
            1000,
            Some(1_000_000),
        ),
        ("-i a -w o -C 9", None, 16_384, Some(9)),
        ("-i a -w o -N 9", None, 9, None),
        ("-i a -w o -N 20000", None, 16_384, None),
    ];
    for (line, packets, held, bytes) in rows {
        let Ok(Mode::Capture(settings)) = mode_of(rt.alloc(), line) else {
            assert!(rt; false, "at {line}");
            return Ok(());
        };
        assert_eq!(rt; settings.stop.packets, packets, "at {line}");
        assert_eq!(rt; settings.limits.packets, held, "at {line}");
        assert_eq!(rt; settings.limits.bytes, bytes, "at {line}");
    }
    Ok(())
}

/// The words of a mode, as text.
fn spelled(alloc: Global, mode: &Mode) -> Result<String, AllocError> {
    match mode {
        Mode::Capture(_) => format!(in alloc; "capture"),
        Mode::Classic(_) => format!(in alloc; "classic"),
        Mode::Follow(name) => format!(in alloc; "follow {}", name.as_text()),
        Mode::Check(name) => format!(in alloc; "check {}", name.as_text()),
        Mode::Make {
            start,
            sources,
            packets,
            name,
        } => format!(in alloc; "make {start} {sources} {packets} {}", name.as_text()),
        Mode::Trial {
            start,
            sources,
            packets,
        } => format!(in alloc; "trial {start} {sources} {packets}"),
        Mode::Pass { name, out } => {
            format!(in alloc; "pass {} {}", name.as_text(), out.as_text())
        }
        Mode::Watch { name, readers } => format!(in alloc; "watch {} {readers}", name.as_text()),
        Mode::JoinFiles { out, names } => spelled_join(alloc, out, names),
    }
}

/// The words of `join`.
fn spelled_join(alloc: Global, out: &Name, names: &Names) -> Result<String, AllocError> {
    let mut text = format!(in alloc; "join {}", out.as_text())?;
    for name in names.as_slice() {
        text.push_str(" ")?;
        text.push_str(name.as_text())?;
    }
    Ok(text)
}

#[test]
fn words_of_other_modes(rt: HostRuntime) -> Result<(), Fail> {
    let rows = [
        ("-i a -w follow", "capture"),
        ("follow -", "follow -"),
        ("check -- -x", "check -x"),
        ("make 01 2 3 m", "make 1 2 3 m"),
        ("trial 7 8 100000", "trial 7 8 100000"),
        ("-i a -w o -P", "classic"),
        ("-i a -w o -n", "capture"),
        ("-i a -w a -w o", "capture"),
        ("-i a -w a -b packets:1", "capture"),
        ("-i - -w -", "capture"),
        ("pass m o", "pass m o"),
        ("pass - -", "pass - -"),
        ("watch m 064", "watch m 64"),
        ("join j a", "join j a"),
        ("join j - b -- -c", "join j - b -c"),
        ("join - - a", "join - - a"),
    ];
    for (line, want) in rows {
        let mode = mode_of(rt.alloc(), line)?;
        let text = spelled(rt.alloc(), &mode)?;
        assert_eq!(rt; text.as_str(), want, "at {line}");
    }
    Ok(())
}

/// Pushes a word so many times.
fn push_words(
    alloc: Global,
    words: &mut Vec<String>,
    word: &str,
    times: usize,
) -> Result<(), AllocError> {
    for _ in 0..times {
        words.push(String::from_str(alloc, word)?)?;
    }
    Ok(())
}

/// How many sources the settings have of words with so many `-i`.
fn source_count(alloc: Global, sources: usize) -> Result<usize, WordFault> {
    let mut words = Vec::new(alloc);
    push_words(alloc, &mut words, "-ia", sources)?;
    push_words(alloc, &mut words, "-wo", 1)?;
    let mode = read_words(alloc, &words)?;
    match &mode {
        Mode::Capture(settings) => Ok(settings.sources.len()),
        _ => Ok(0),
    }
}

#[test]
fn many_sources(rt: HostRuntime) -> Result<(), Fail> {
    let rows = [
        (0, Err(WordFault::Missing)),
        (1, Ok(1)),
        (64, Ok(64)),
        (65, Err(WordFault::TooMany)),
    ];
    for (sources, want) in rows {
        assert_eq!(rt; source_count(rt.alloc(), sources), want, "at {sources}");
    }
    Ok(())
}

/// How many files words with so many names ask to join.
fn joined_count(alloc: Global, names: usize) -> Result<usize, WordFault> {
    let mut words = Vec::new(alloc);
    push_words(alloc, &mut words, "join", 1)?;
    push_words(alloc, &mut words, "j", 1)?;
    push_words(alloc, &mut words, "a", names)?;
    let mode = read_words(alloc, &words)?;
    match &mode {
        Mode::JoinFiles { out: _, names } => Ok(names.len()),
        _ => Ok(0),
    }
}

#[test]
fn many_joined_files(rt: HostRuntime) -> Result<(), Fail> {
    let rows = [
        (0, Err(WordFault::Missing)),
        (1, Ok(1)),
        (1000, Ok(1000)),
        (1001, Err(WordFault::TooMany)),
    ];
    for (names, want) in rows {
        assert_eq!(rt; joined_count(rt.alloc(), names), want, "at {names}");
    }
    Ok(())
}

#[test]
fn units_of_switches(rt: HostRuntime) -> Result<(), Fail> {
    let line = "-i a -w o -b packets:5 -b filesize:3 -b duration:4 -b interval:60 -b files:6";
    let Ok(Mode::Capture(settings)) = mode_of(rt.alloc(), line) else {
        assert!(rt; false, "a capture");
        return Ok(());
    };
    assert_eq!(rt; settings.switch.packets, Some(5), "packets");
    assert_eq!(rt; settings.switch.bytes, Some(3000), "kilobytes");
    assert_eq!(rt; settings.switch.nanos, Some(4_000_000_000), "seconds");
    assert_eq!(rt;
        settings.switch.interval,
        Some(60_000_000_000),
        "seconds since 1970"
    );
    assert_eq!(rt; settings.switch.keep, Some(6), "files that are kept");
    assert!(rt; !settings.sync, "no messages");
    Ok(())
}

#[test]
fn units_of_stops(rt: HostRuntime) -> Result<(), Fail> {
    let line = "-i a -w o -b packets:5 -a duration:2 -a files:9 -s 96 --sync -n -q -t";
    let Ok(Mode::Capture(settings)) = mode_of(rt.alloc(), line) else {
        assert!(rt; false, "a capture");
        return Ok(());
    };
    assert_eq!(rt; settings.stop.packets, None, "packets");
    assert_eq!(rt; settings.stop.bytes, None, "kilobytes");
    assert_eq!(rt; settings.stop.nanos, Some(2_000_000_000), "seconds");
    assert_eq!(rt; settings.stop.files, Some(9), "files");
    assert_eq!(rt; settings.snap, Some(96), "snap length");
    assert!(rt; settings.sync, "messages");
    Ok(())
}

#[test]
fn law(rt: HostRuntime) {
    accepted_words_are_lawful();
}
