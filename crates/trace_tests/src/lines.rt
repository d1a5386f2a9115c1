//! Lines of traces, each well formed or with one fault.

use std::alloc::Global;
use std::test::Fail;
use trace_text::{ReplayFault, put_event, put_header, read_event, read_header};

/// A line of each kind, with numbers at both ends of their range.
const EVENTS: &str = "\
claim 0
retire 1
advance 63
descend 4294967295
append 9
charge 10
fetch 99
post 0 1 2
push 4294967295
pop 3 25
pick 7
restore 100
discharge 12345
mark 4294967295 4294967295 4294967295
close 0";

/// Lines that are no event's.
const OTHERS: &str = "\

claim
claim 
 claim 0
claim  0
claim 0 
claim 00
claim 01
claim +1
claim -1
claim 4294967296
claim 99999999999999999999
claim 0 1
claim 0x1
claim a
Claim 0
claims 0
finished
post 0 1
post 0 1 2 3
post 0 1 
post 0  1 2
post 0 1 02
pop 0
pop 0 1 2
mark 0 0
mark 0 0 4294967296
close
advance\t0";

/// The first lines of traces, with the greatest and the least numbers.
const HEADERS: &str = "\
adfs-trace 1
manifest graph.txt
queries q.txt
shape 8 8 8 16 64
part modulo

adfs-trace 1
manifest a b/c.txt
queries listed:
shape 1 1 1 0 1
part block

adfs-trace 1
manifest \u{e9}
queries -
shape 2 3 4 5 6
part listed:own: er.txt";

/// What a header's text is refused with: the number of the line that isn't of its form, or 0 where the text ends.
const BROKEN: &str = "\
0
adfs-trace 1

1
adfs-trace 2

1
finished

2
adfs-trace 1
manifest

2
adfs-trace 1
manifest 

3
adfs-trace 1
manifest g
manifest q

3
adfs-trace 1
manifest g
claim 0

0
adfs-trace 1
manifest g
queries q

4
adfs-trace 1
manifest g
queries q
shape 9 1 1 1 1

4
adfs-trace 1
manifest g
queries q
shape 1 1 1 1

4
adfs-trace 1
manifest g
queries q
shape 1 1 1 17 1

4
adfs-trace 1
manifest g
queries q
shape 1 1 1 1 65

4
adfs-trace 1
manifest g
queries q
shape 01 1 1 1 1

5
adfs-trace 1
manifest g
queries q
shape 1 1 1 1 1
part listed:

5
adfs-trace 1
manifest g
queries q
shape 1 1 1 1 1
part Modulo

5
adfs-trace 1
manifest g
queries q
shape 1 1 1 1 1
finished

0
adfs-trace 1
manifest g
queries q
shape 1 1 1 1 1";

/// Whether what is written of the event that a line says is that line.
fn comes_back(alloc: Global, line: &str) -> Result<bool, Fail> {
    let Some(event) = read_event(line.as_bytes()) else {
        return Ok(false);
    };
    let mut out = Vec::new(alloc);
    put_event(&event, &mut out)?;
    Ok(out.as_slice() == line.as_bytes())
}

#[test]
fn the_line_of_each_event_is_read_back(rt: HostRuntime) -> Result<(), Fail> {
    for line in EVENTS.lines() {
        assert!(rt; comes_back(rt.alloc(), line)?, "{line}");
    }
    Ok(())
}

#[test]
fn no_other_line_is_an_event(rt: HostRuntime) -> Result<(), Fail> {
    for line in OTHERS.lines() {
        assert!(rt; read_event(line.as_bytes()).is_none(), "{line}");
    }
    Ok(())
}

/// Whether what is written of the header that a text says is that text, and a line feed.
fn header_comes_back(alloc: Global, text: &str) -> Result<bool, Fail> {
    let Ok((header, place)) = read_header(alloc, text.as_bytes()) else {
        return Ok(false);
    };
    let mut out = Vec::new(alloc);
    put_header(&header, &mut out)?;
    Ok(place == text.len() as u64 && out.as_slice().strip_suffix(b"\n") == Some(text.as_bytes()))
}

#[test]
fn headers_are_read_back(rt: HostRuntime) -> Result<(), Fail> {
    for text in HEADERS.split("\n\n") {
        assert!(rt; header_comes_back(rt.alloc(), text)?, "{text}");
    }
    Ok(())
}

/// The number of the line for which a text is refused: 0 where it ends too early, 9 where it isn't refused.
fn refused_at(alloc: Global, text: &str) -> u32 {
    match read_header(alloc, text.as_bytes()) {
        Err(ReplayFault::BadLine(line)) => line,
        Err(ReplayFault::NotFinished) => 0,
        _ => 9,
    }
}

/// Whether a text is refused at the line whose number stands before it.
fn is_refused_there(alloc: Global, case: &str) -> bool {
    match case.split_once('\n') {
        Some((line, text)) => line.parse::<u32>() == Ok(refused_at(alloc, text)),
        None => false,
    }
}

#[test]
fn broken_headers_tell_their_line(rt: HostRuntime) -> Result<(), Fail> {
    for case in BROKEN.split("\n\n") {
        assert!(rt; is_refused_there(rt.alloc(), case), "{case}");
    }
    Ok(())
}
