// Runs of the ports over memory, and of the adapters over a reader, a writer and a system clock that fail.
ghost use Rattle.std.specs.Prelude.{◌≡◌, ◌<◌, [], ◌∷◌, length, Some, IfOk, OnOk};
ghost use Rattle.mav_ports.specs.MemReads.{reads_from_start};
ghost use Rattle.mav_ports.specs.MemWrites.{writes_from_start};

use mav_links::{Link, MemLink, write_link};
use mav_ports::{
    Clock, Got, MemSink, MemSource, Put, Sink, Source, StdClock, StdSink, StdSource, SureSink,
    SureSource, WriteFault, write_all,
};
use std::alloc::{AllocError, Global};
use std::cell::Cell;
use std::io::{Error, ErrorKind, Read, Write};
use std::test::Fail;
use std::time::Duration;
use std::{io, time};

// The contracts alone give each result: the second call fails, and none gives more than two bytes.
fn reads_three_bytes(source: &mut MemSource, buf: &mut [u8]) -> [Got; 4]
    requires start { source.old ≡ reads_from_start (97 ∷ 98 ∷ 99 ∷ []) 2 (1 ∷ []) [] }
    requires room { length buf.old ≡ 8 }
    ensures { result ≡ Got.Bytes 2 ∷ Got.Failed ∷ Got.Bytes 1 ∷ Got.End ∷ [] }
{
    let first = source.read(buf);
    let second = source.read(buf);
    let third = source.read(buf);
    [first, second, third, source.read(buf)]
}

// The contracts alone give each result: there is room for three bytes, and the second call fails.
fn writes_to_the_end_of_room(sink: &mut MemSink) -> [Put; 4]
    requires { sink.old ≡ writes_from_start 3 2 (1 ∷ []) }
    ensures answers { result ≡ Put.Took 2 ∷ Put.Failed ∷ Put.Took 1 ∷ Put.Failed ∷ [] }
    ensures sent { sink.new.sent ≡ 97 ∷ 98 ∷ 99 ∷ [] }
    ensures faults { sink.new.faults ≡ 2 }
{
    let first = sink.write(b"abc");
    let second = sink.write(b"c");
    let third = sink.write(b"cde");
    [first, second, third, sink.write(b"d")]
}

// It gives "abc", at most two bytes a call.
fn source_of_abc(alloc: Global, fails: &[u64], idles: &[u64]) -> Result<MemSource, AllocError>
    ensures { IfOk result (λ source. source ≡ reads_from_start (97 ∷ 98 ∷ 99 ∷ []) 2 fails.now idles.now) }
{
    let bytes = b"abc".to_vec(alloc)?;
    let fails = fails.to_vec(alloc)?;
    Ok(MemSource::new(bytes, 2, fails, idles.to_vec(alloc)?))
}

fn sink_of_three(alloc: Global) -> Result<MemSink, AllocError>
    ensures { IfOk result (λ sink. sink ≡ writes_from_start 3 2 (1 ∷ [])) }
{
    MemSink::new(alloc, 3, 2, [1u64].to_vec(alloc)?)
}

#[test]
fn a_source_over_memory_answers_as_its_contract_computes(rt: HostRuntime) -> Result<(), Fail> {
    let mut source = source_of_abc(rt.alloc(), &[1], &[])?;
    let got = reads_three_bytes(&mut source, &mut [0; 8]);
    assert_eq!(rt; got, [Got::Bytes(2), Got::Failed, Got::Bytes(1), Got::End]);
    Ok(())
}

// Whether a sink over memory returns what its contract computes.
fn answers_to_the_end_of_room(alloc: Global) -> Result<bool, AllocError> {
    let mut sink = sink_of_three(alloc)?;
    let put = writes_to_the_end_of_room(&mut sink);
    let answered = put == [Put::Took(2), Put::Failed, Put::Took(1), Put::Failed];
    Ok(answered && sink.sent() == b"abc".as_slice())
}

// What seven reads return.
fn seven_reads<S: Source>(source: &mut S, buf: &mut [u8; 8]) -> [Got; 7] {
    [
        source.read(buf),
        source.read(buf),
        source.read(buf),
        source.read(buf),
        source.read(buf),
        source.read(buf),
        source.read(buf),
    ]
}

// An idle call takes nothing, and a call in both lists fails.
#[test]
fn idle_calls_take_nothing(rt: HostRuntime) -> Result<(), Fail> {
    let mut source = source_of_abc(rt.alloc(), &[1, 6], &[0, 1, 4])?;
    assert_eq!(rt;
        seven_reads(&mut source, &mut [0; 8]),
        [
            Got::Idle,
            Got::Failed,
            Got::Bytes(2),
            Got::Bytes(1),
            Got::Idle,
            Got::End,
            Got::End
        ]
    );
    Ok(())
}

// So says the contract of `write_all`.
fn writes_all_of_hel(sink: &mut SureSink) -> Result<(), WriteFault>
    requires { ⟦<SureSink as Sink>⟧.sent sink.old ≡ Some [] }
    ensures { OnOk result (⟦<SureSink as Sink>⟧.sent sink.new ≡ Some (104 ∷ 101 ∷ 108 ∷ [])) }
{
    write_all(sink, b"hel")
}

// Whether two writes to a sink with room for four bytes fail, and what it was sent.
fn written(alloc: Global) -> Result<bool, AllocError> {
    let mut sink = SureSink::with_room(alloc, 4)?;
    let first = writes_all_of_hel(&mut sink).is_ok();
    let second = write_all(&mut sink, b"lo").is_err();
    Ok(first && second && sink.sent() == b"hell".as_slice())
}

// The same of two writes to a boxed link, which takes at most two bytes a call.
fn written_to_a_link(alloc: Global) -> Result<bool, AllocError> {
    let nothing = Vec::new(alloc);
    let link = MemLink::new(
        alloc,
        nothing,
        2,
        Vec::new(alloc),
        Vec::new(alloc),
        4,
        Vec::new(alloc),
    )?;
    let mut link: Box<dyn Link> = Box::new(alloc, link)?;
    let first = write_link(&mut link, b"hel").is_ok();
    let second = write_link(&mut link, b"lo").is_err();
    Ok(first && second && link.sent() == b"hell".as_slice())
}

#[test]
fn all_that_is_written_is_sent_while_there_is_room(rt: HostRuntime) -> Result<(), Fail> {
    assert!(rt; answers_to_the_end_of_room(rt.alloc())? && written(rt.alloc())?);
    assert!(rt; written_to_a_link(rt.alloc())?);
    Ok(())
}

// Gives one byte a call, but fails at its second, is interrupted at its third, ends at its fifth, and goes on after
// that.
#[derive(Drop)]
struct Unsteady {
    calls: u8,
}

impl Read for Unsteady {
    fn read(&mut self, buf: &mut [u8]) -> io::Result<usize> {
        self.calls = self.calls.saturating_add(1);
        match self.calls {
            2 => Err(Error::from(ErrorKind::BrokenPipe)),
            3 => Err(Error::from(ErrorKind::Interrupted)),
            5 => Ok(0),
            _ => Ok(buf.len().min(1)),
        }
    }
}

impl Write for Unsteady {
    fn write(&mut self, buf: &[u8]) -> io::Result<usize> {
        self.calls = self.calls.saturating_add(1);
        match self.calls {
            2 => Err(Error::from(ErrorKind::BrokenPipe)),
            3 => Err(Error::from(ErrorKind::Interrupted)),
            5 => Ok(0),
            _ => Ok(buf.len().min(1)),
        }
    }

    fn flush(&mut self) -> io::Result<()> {
        Ok(())
    }
}

fn read_by(reader: Option<Unsteady>) -> [Got; 7] {
    seven_reads(&mut StdSource::new(reader), &mut [0; 8])
}

// What four writes return.
fn four_writes<K: Sink>(sink: &mut K) -> [Put; 4] {
    [
        sink.write(b"ab"),
        sink.write(b"ab"),
        sink.write(b"ab"),
        sink.write(b"ab"),
    ]
}

fn written_by(writer: Unsteady) -> [Put; 4] {
    four_writes(&mut StdSink::new(writer))
}

// A source over a reader ends once, and one over none fails; a sink also fails if none is taken. Interrupted calls are
// made again.
#[test]
fn the_adapters_fail_at_errors(rt: HostRuntime) {
    assert_eq!(rt;
        read_by(Some(Unsteady { calls: 0 })),
        [
            Got::Bytes(1),
            Got::Failed,
            Got::Bytes(1),
            Got::End,
            Got::End,
            Got::End,
            Got::End
        ]
    );
    assert_eq!(rt; read_by(None), [Got::Failed; 7]);
    assert_eq!(rt;
        written_by(Unsteady { calls: 0 }),
        [Put::Took(1), Put::Failed, Put::Took(1), Put::Failed]
    );
}

// A system clock that gives one time, an error, and a time before 2015.
#[derive(Drop)]
struct Changing {
    calls: Cell<u8>,
}

impl time::Clock for Changing {
    fn monotonic(&self) -> io::Result<Duration> {
        Ok(Duration::ZERO)
    }

    fn since_1970(&self) -> io::Result<Duration> {
        let call = self.calls.get();
        self.calls.set(call.saturating_add(1));
        match call {
            // 2015-01-01 00:00:01.23456789 GMT
            1 => Ok(Duration::new(1_420_070_401, 234_567_890)),
            // 2014-12-31 23:59:59 GMT
            3 => Ok(Duration::from_secs(1_420_070_399)),
            _ => Err(Error::from(ErrorKind::Other)),
        }
    }
}

fn four_times<C: Clock>(clock: &mut C) -> [u64; 4] {
    [clock.now(), clock.now(), clock.now(), clock.now()]
}

#[test]
fn the_system_clock_answers_its_last_time_where_there_is_none(rt: HostRuntime) {
    let system = Changing {
        calls: Cell::new(0),
    };
    assert_eq!(rt;
        four_times(&mut StdClock::new(&system)),
        [0, 123_456, 123_456, 123_456]
    );
}

#[test]
fn the_system_clock_is_asked(rt: HostRuntime) {
    // 2025 began 315,619,200 seconds after 2015.
    assert!(rt; StdClock::new(&rt).now() > 31_561_920_000_000);
}
