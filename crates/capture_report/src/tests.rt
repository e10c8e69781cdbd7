use crate::{files_line, interface_line, output_line, source_line};
use cap_base::{Code, Counts, How, Iface, Name, NoMemory, Notes, Octets};
use std::alloc::Global;
use std::test::Fail;

fn interface(alloc: Global, name: &[u8]) -> Result<Iface, NoMemory> {
    let mut octets = Octets::new(alloc);
    octets.append(name)?;
    Ok(Iface {
        link: 1,
        snap: 262_144,
        resol: 6,
        offset: 0,
        name: octets,
        notes: Notes::new(alloc),
    })
}

const COUNTS: Counts = Counts {
    recv: 5,
    drop: 1,
    flush: 2,
    written: 2,
};

#[test]
fn lines_are_those_of_the_report(rt: HostRuntime) -> Result<(), Fail> {
    let alloc = rt.alloc();
    let name = Name::from_text(alloc, "a")?;
    let iface = interface(alloc, b"a\0")?;
    assert_eq!(rt;
        interface_line(alloc, 0, &iface, COUNTS)?.as_slice(),
        b"interface 0 a\0: received 5 written 2 dropped 1 flushed 2\n".as_slice()
    );
    assert_eq!(rt;
        output_line(alloc)?.as_slice(),
        b"output: write failed\n".as_slice()
    );
    assert_eq!(rt; files_line(alloc, 3)?.as_slice(), b"files 3\n".as_slice());
    let rows = [
        (How::Cut { at: 44 }, "source a: cut at 44\n"),
        (
            How::Bad {
                code: Code::Captured,
                at: 24,
            },
            "source a: bad captured at 24\n",
        ),
        (How::OpenFault, "source a: open failed\n"),
    ];
    for (how, line) in rows {
        assert_eq!(rt; source_line(alloc, &name, how)?.as_slice(), line.as_bytes());
    }
    Ok(())
}
