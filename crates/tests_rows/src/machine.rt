//! A responder of the tests, under the loop that answers line by line.
use ports::{MemSink, MemSource};
use row_machine::{Ending, RespondFault, Responder, answer_lines};
use std::alloc::Global;
use std::test::Fail;

/// Replies with each line behind `echo,NUMBER`, over no device.
#[derive(Drop)]
struct Echo;

impl Responder for Echo {
    ghost use Rattle.std.specs.Prelude.{◌++◌, ◌∷◌, []};
    ghost use Rattle.std.specs.Fmt.{decimal};

    ghost Facts = { Unit {0} };

    ghost stands = { λ _ _. Unit {0} };

    // The text `echo,`, the number, a comma, the line and a line feed.
    ghost reply = { λ _ n line. (101 ∷ 99 ∷ 104 ∷ 111 ∷ 44 ∷ []) ++ decimal n ++ (44 ∷ []) ++ line ++ (10 ∷ []) };

    ghost cost = { λ _ _. 0 };

    ghost reads = { λ _. 0 };

    ghost faults = { λ _. 0 };

    ghost as_before = { λ _ _. Unit {0} };

    fn respond(
        &mut self,
        alloc: Global,
        number: u64,
        line: &[u8],
        _ahead: &[u8],
        replies: &mut Vec<u8>,
    ) -> Result<(), RespondFault> {
        let Ok(head) = format!(in alloc; "echo,{number},") else {
            return Err(RespondFault::NoMemory);
        };
        let mut text = head.into_bytes();
        if text.extend_from_slice(line).is_err() || text.push(b'\n').is_err() {
            return Err(RespondFault::NoMemory);
        }
        match replies.extend_from_slice(&text) {
            Ok(()) => Ok(()),
            Err(_) => Err(RespondFault::NoMemory),
        }
    }

    fn respond_laws() {}
}

#[test]
fn lines_are_answered_in_pieces(rt: HostRuntime) -> Result<(), Fail> {
    let alloc = rt.alloc();
    let mut input = Vec::from_slice(alloc, b"first\n")?;
    input.extend_from_slice(&[b'x'; 4097])?;
    input.extend_from_slice(b"\nlast")?;
    let mut source = MemSource::new(input, 7, Vec::new(alloc));
    let mut sink = MemSink::new(alloc, Vec::new(alloc));
    let ending = answer_lines(alloc, &mut Echo, &mut source, &mut sink);
    assert_eq!(rt; ending, Ending::Fine);
    assert_eq!(rt;
        sink.bytes(),
        b"echo,1,first\nbad,2\necho,3,last\n".as_slice()
    );
    Ok(())
}

#[test]
fn a_sink_that_fails_ends_the_run(rt: HostRuntime) -> Result<(), Fail> {
    let alloc = rt.alloc();
    let input = Vec::from_slice(alloc, b"a\nb\nc\n")?;
    let mut source = MemSource::new(input, 2, Vec::new(alloc));
    let mut sink = MemSink::new(alloc, Vec::from_slice(alloc, &[2])?);
    let ending = answer_lines(alloc, &mut Echo, &mut source, &mut sink);
    assert_eq!(rt; ending, Ending::WriteFault);
    assert_eq!(rt; sink.bytes(), b"echo,1,a\n".as_slice());
    assert_eq!(rt; sink.faults(), 1);
    Ok(())
}
