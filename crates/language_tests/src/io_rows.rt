//! Sources and sinks, in memory and through std.

ghost use Rattle.std.specs.Prelude.{◌≤◌};

use caja_io::{
    InputFault, MemSink, MemSource, OutputFault, StdSink, StdSource, read_all, write_all,
};
use caja_units::Memory;
use std::alloc::Global;
use std::test::Fail;

/// A source of five bytes that fails at these reads.
fn five(alloc: Global, piece: usize, fail: Vec<u32>) -> Result<MemSource, Memory>
    requires { 1 ≤ piece }
{
    let bytes = b"12345".to_vec(alloc)?;
    Ok(MemSource::new(bytes, piece, fail))
}

#[test]
fn a_failing_third_read_is_a_fault(rt: HostRuntime) -> Result<(), Fail> {
    let third = [2].to_vec(rt.alloc())?;
    let mut source = five(rt.alloc(), 1, third)?;
    assert_eq!(rt;
        read_all(rt.alloc(), &mut source, 5),
        Err(InputFault::Failed)
    );
    Ok(())
}

/// Whether all bytes are read where the limit is so many, or that there are too many is a fault.
fn reads(alloc: Global, limit: usize, wanted: Result<&[u8], InputFault>) -> Result<bool, Memory> {
    let mut source = five(alloc, 2, Vec::new(alloc))?;
    Ok(match (read_all(alloc, &mut source, limit), wanted) {
        (Ok(bytes), Ok(wanted)) => bytes.as_slice() == wanted,
        (Err(fault), Err(wanted)) => fault == wanted,
        _ => false,
    })
}

#[test]
fn an_input_is_read_up_to_the_limit(rt: HostRuntime) -> Result<(), Fail> {
    assert!(rt; reads(rt.alloc(), 5, Ok(b"12345"))?);
    assert!(rt; reads(rt.alloc(), 4, Err(InputFault::TooLong))?);
    Ok(())
}

/// A sink that takes at most so many bytes at a write and fails at these writes.
fn narrow(alloc: Global, piece: usize, fail: Vec<u32>) -> Result<MemSink, Memory> {
    let room = vec![in alloc; 0; 64]?;
    Ok(MemSink::new(piece, room, fail))
}

#[test]
fn a_failing_second_write_keeps_the_first(rt: HostRuntime) -> Result<(), Fail> {
    let second = [1].to_vec(rt.alloc())?;
    let mut sink = narrow(rt.alloc(), 10, second)?;
    let fault = write_all(&mut sink, b"module main 12");
    assert_eq!(rt; fault, Err(OutputFault::Failed));
    assert_eq!(rt; sink.written(), b"module mai".as_slice());
    Ok(())
}

#[test]
fn a_sink_that_takes_nothing_has_no_room(rt: HostRuntime) -> Result<(), Fail> {
    let mut sink = narrow(rt.alloc(), 0, Vec::new(rt.alloc()))?;
    assert_eq!(rt; write_all(&mut sink, b"m"), Err(OutputFault::NoRoom));
    assert_eq!(rt; write_all(&mut sink, b""), Ok(()));
    Ok(())
}

#[test]
fn all_is_read_and_written_through_std(rt: HostRuntime) -> Result<(), Fail> {
    let text: &[u8] = b"module main";
    let bytes = read_all(rt.alloc(), &mut StdSource::new(text), 100)?;
    let mut out = Vec::new(rt.alloc());
    write_all(&mut StdSink::new(&mut out), &bytes)?;
    assert_eq!(rt; out.as_slice(), text);
    Ok(())
}
