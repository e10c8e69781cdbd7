ghost use Rattle.std.specs.Prelude.{◌≤◌, length, All, IfOk};

use crate::{NotesFault, read_notes, write_notes};
use cap_base::{Notes, Order};
use std::alloc::Global;
use std::test::Fail;

/// A comment of two bytes, and if_tsresol 9.
const OPTIONS: [u8; 16] = [1, 0, 2, 0, 0x68, 0x69, 0, 0, 9, 0, 1, 0, 9, 0, 0, 0];

const BIG_OPTIONS: [u8; 16] = [0, 1, 0, 2, 0x68, 0x69, 0, 0, 0, 9, 0, 1, 9, 0, 0, 0];

/// The same, with padding that isn't zero, an end mark with a length, and bytes behind it.
const ENDED: [u8; 24] = [
    1, 0, 2, 0, 0x68, 0x69, 7, 7, 9, 0, 1, 0, 9, 7, 7, 7, 0, 0, 0xFF, 0xFF, 1, 2, 3, 4,
];

const BIG_ENDED: [u8; 20] = [
    0, 1, 0, 2, 0x68, 0x69, 0, 0, 0, 9, 0, 1, 9, 0, 0, 0, 0, 0, 0, 0,
];

/// The options of a list, or the place of the one that runs over the end.
fn notes_of(alloc: Global, order: Order, text: &[u8]) -> Result<Result<Notes, usize>, Fail>
    ensures { IfOk result (λ r. IfOk r (λ ns. All (λ n. length n.body ≤ 65535) ns)) }
{
    if text.len() % 4 != 0 {
        return Err("no whole words".into());
    }
    match read_notes(alloc, order, text) {
        Ok(notes) => Ok(Ok(notes)),
        Err(NotesFault::Bad { at }) => Ok(Err(at)),
        Err(NotesFault::NoMemory) => Err("memory ran out".into()),
    }
}

#[test]
fn options_are_read_and_written(rt: HostRuntime) -> Result<(), Fail> {
    for (order, text) in [
        (Order::Little, OPTIONS.as_slice()),
        (Order::Big, &BIG_OPTIONS),
        (Order::Little, &ENDED),
        (Order::Big, &BIG_ENDED),
    ] {
        let Ok(notes) = notes_of(rt.alloc(), order, text)? else {
            return Err("the options aren't read".into());
        };
        let Some(comment) = notes.get(0) else {
            return Err("the comment isn't there".into());
        };
        assert_eq!(rt; comment.code, 1);
        assert_eq!(rt; comment.body.as_slice(), b"hi".as_slice());
        assert_eq!(rt; notes.len(), 2);
        let written = write_notes(rt.alloc(), &notes)?;
        assert_eq!(rt;
            written.as_slice().strip_suffix(&[0; 4]),
            Some(OPTIONS.as_slice())
        );
    }
    Ok(())
}

#[test]
fn an_empty_list_is_read_and_written(rt: HostRuntime) -> Result<(), Fail> {
    for text in [
        [].as_slice(),
        &[0; 4],
        &[0, 0, 0xFF, 0xFF, 1, 0, 0xFF, 0xFF],
    ] {
        let Ok(notes) = notes_of(rt.alloc(), Order::Little, text)? else {
            return Err("the list isn't read".into());
        };
        assert_eq!(rt; notes.len(), 0);
        assert_eq!(rt; write_notes(rt.alloc(), &notes)?.len(), 0);
    }
    Ok(())
}

#[test]
fn an_option_over_the_end_is_named(rt: HostRuntime) -> Result<(), Fail> {
    for (order, text, at) in [
        (
            Order::Little,
            [1, 0, 2, 0, 0x68, 0x69, 0, 0, 2, 0, 1, 0].as_slice(),
            8,
        ),
        (Order::Little, &[2, 0, 0xFF, 0xFF], 0),
        (Order::Big, &[0, 2, 0xFF, 0xFF, 0, 0, 0, 0], 0),
        (Order::Big, &[0, 1, 0, 0, 0, 1, 0, 5, 1, 2, 3, 4], 4),
    ] {
        assert_eq!(rt; notes_of(rt.alloc(), order, text)?.err(), Some(at));
    }
    Ok(())
}
