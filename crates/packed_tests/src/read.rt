use crate::samples::SAMPLE;
use meter::Meter;
use packed::PackedFile;
use packed_index::IndexedFile;
use std::process::Abort;
use std::test::Fail;

// Whether a meter tells the sample's readings, and nothing else where it is asked.
fn tells_the_sample<M: Meter>(rt: &impl Abort, meter: &M) -> Result<(), Fail> {
    assert_eq!(rt; meter.reading(0, 5, 0), Some(1_000));
    assert_eq!(rt; meter.reading(0, 5, 9), Some(200_000_000));
    assert_eq!(rt; meter.reading(0, 261, 95), Some(7));
    assert_eq!(rt; meter.reading(3, 1, 0), Some(0));
    assert_eq!(rt; meter.reading(0, 5, 8), None, "no bit stands");
    assert_eq!(rt; meter.reading(0, 5, 96), None, "no such quarter");
    assert_eq!(rt; meter.reading(0, 6, 0), None, "no such day");
    assert_eq!(rt; meter.reading(1, 5, 0), None, "no such account");
    Ok(())
}

#[test]
fn reads(rt: HostRuntime) -> Result<(), Fail> {
    let file = PackedFile::open(&SAMPLE).map_err(Fail::new)?;
    tells_the_sample(&rt, &file)
}

#[test]
fn reads_by_index(rt: HostRuntime) -> Result<(), Fail> {
    let bytes = SAMPLE.to_vec(rt.alloc())?;
    let file = IndexedFile::open(rt.alloc(), bytes).map_err(|fault| Fail::new(format_args!(
        "{fault:?}"
    )))?;
    tells_the_sample(&rt, &file)
}

#[test]
fn walks(rt: HostRuntime) -> Result<(), Fail> {
    let file = PackedFile::open(&SAMPLE).map_err(Fail::new)?;
    // collected, since `count` asks for a proof that the number fits, which no search finds for a `flat_map`
    let readings: Vec<u32> = file
        .records()
        .flat_map(|record| (0..96).filter_map(move |quarter| record.reading(quarter)))
        .collect(rt.alloc())?;
    let last = file.records().last().ok_or("no record")?;
    assert_eq!(rt; readings.len(), 4);
    assert_eq!(rt; last.account(), 3);
    assert_eq!(rt; last.day(), 1);
    Ok(())
}

#[test]
fn empty_file(rt: HostRuntime) -> Result<(), Fail> {
    let file = PackedFile::open(&[]).map_err(Fail::new)?;
    assert_eq!(rt; file.reading(0, 5, 0), None);
    Ok(())
}
