//! A source, a sink, a clock and a place, at the calls that fail and at those that don't.
use std::test::Fail;
use td_layer::Seq;
use td_limits::LAST_TIMESTAMP;
use td_memdev::{MemPlace, MemSink, MemSource, MemStore, Ticks};
use td_outside::{Clock, Failed, Place, Sink, Source};

#[test]
fn a_source_fails_where_its_list_says(rt: HostRuntime) -> Result<(), Fail> {
    let alloc = rt.alloc();
    let bytes = Seq::of_bytes(alloc, b"abcdefg")?;
    let fails = Seq::from_vec(alloc, vec![in alloc; 2, 4]?);
    let mut source = MemSource::new(bytes, 3, fails);
    let mut buf = [0u8; 8];
    let answers = [Ok(3), Err(Failed), Ok(3), Err(Failed), Ok(1), Ok(0)];
    let faults = [0, 1, 1, 2, 2, 2];
    let first = [b'a', b'a', b'd', b'd', b'g', b'g'];
    for (i, answer) in answers.iter().enumerate() {
        let read = source.read(&mut buf);
        assert_eq!(rt;
            (read, source.faults(), buf[0]),
            (*answer, faults[i], first[i])
        );
    }
    Ok(())
}

#[test]
fn a_sink_fails_where_its_list_or_its_room_says(rt: HostRuntime) -> Result<(), Fail> {
    let alloc = rt.alloc();
    let fails = Seq::from_vec(alloc, vec![in alloc; 2]?);
    let mut sink = MemSink::new(alloc, 5, 4, fails)?;
    let answers = [Ok(4), Err(Failed), Ok(1), Err(Failed)];
    let faults = [0, 1, 1, 2];
    for (i, answer) in answers.iter().enumerate() {
        let written = sink.write(b"wxyz!");
        assert_eq!(rt; (written, sink.faults()), (*answer, faults[i]));
    }
    let nothing = sink.write(b"");
    assert_eq!(rt; (nothing, sink.bytes()), (Ok(0), b"wxyzw".as_slice()));
    drop(sink);
    Ok(())
}

#[test]
fn a_clock_repeats_its_last_reading(rt: HostRuntime) -> Result<(), Fail> {
    let alloc = rt.alloc();
    let readings = Seq::from_vec(alloc, vec![in alloc; 7, 5, LAST_TIMESTAMP]?);
    let mut clock = Ticks::new(readings);
    for reading in [7, 5, LAST_TIMESTAMP, LAST_TIMESTAMP] {
        assert_eq!(rt; clock.now(), reading);
    }
    drop(clock);
    let store = MemStore::new(alloc, Seq::new(alloc));
    let place = MemPlace::new(store, Seq::new(alloc));
    assert_eq!(rt; place.faults(), 0);
    drop(place);
    Ok(())
}
