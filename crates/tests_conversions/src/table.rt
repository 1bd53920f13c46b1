//! Readers of tables over devices that fail, and with little memory; trees and rows in turn from
//! one reader; and a worked row, field by field. What fields spell is in the rows of the program
//! `vector_runner`.
use crate::devices::{AMPLE, cut_reader};
use csv::ByteRecord;
use std::alloc::Global;
use std::io::Read;
use twkb_geom::{Flat, Geometry, Kind, Limits, PointId, Row, Work};
use twkb_io::Tap;
use twkb_points::Pt;
use twkb_table::{TableFault, TableReader, judge, rows_text};
use twkb_tree::{OpenRow, own_parts};

// ---- readers of tables over devices that fail, and with little memory

// A table, the ends of the rows of none, one, two and all of its geometries, and the number of
// its geometries.
#[derive(Clone, Copy)]
struct Table {
    text: &'static [u8],
    ends: [usize; 4],
    count: usize,
}

const MANY_KINDS: Table = Table {
    text: b"depth,kind,id,precision,polyline\n0,multipolygon,,0,\n1,polygon,3,,\n2,ring,,,AA\n\
        2,ring,,,\n1,polygon,4,,\n0,multilinestring,,0,\n1,linestring,,,\n0,linestring,,0,AAGG\n",
    ends: [33, 102, 140, 161],
    count: 3,
};

// A line in sixteen collections, and a point after it in one: seventeen rows are open, one more
// than fit without taking memory.
const DEEP: Table = Table {
    text: b"depth,kind,id,precision,polyline\n0,collection,,0,\n1,collection,,0,\n\
        2,collection,,0,\n3,collection,,0,\n4,collection,,0,\n5,collection,,0,\n\
        6,collection,,0,\n7,collection,,0,\n8,collection,,0,\n9,collection,,0,\n\
        10,collection,,0,\n11,collection,,0,\n12,collection,,0,\n13,collection,,0,\n\
        14,collection,,0,\n15,collection,,0,\n16,linestring,,0,AAGG\n1,point,,-8,AC\n",
    ends: [33, 348, 348, 348],
    count: 1,
};

// The result of reading a table: the rows of its geometries, their number, and why reading stopped.
#[derive(Drop)]
struct Outcome {
    rows: Vec<u8>,
    count: usize,
    fault: Option<TableFault>,
}

// Appends the rows of a geometry.
fn put(alloc: Global, geometry: &Geometry, rows: &mut Vec<u8>) -> Result<bool, TableFault> {
    if !geometry.within(&Limits::largest()) {
        return Err(TableFault::Memory);
    }
    match rows_text(alloc, geometry) {
        Ok(text) if rows.extend_from_slice(&text).is_ok() => Ok(true),
        _ => Err(TableFault::Memory),
    }
}

// Appends the rows of a geometry, if there is one, and returns whether there was.
fn put_found(
    alloc: Global,
    found: Option<Geometry>,
    rows: &mut Vec<u8>,
) -> Result<bool, TableFault> {
    match found {
        Some(geometry) => put(alloc, &geometry, rows),
        None => Ok(false),
    }
}

// Appends the rows of the next geometry.
fn put_next<R: Read>(
    alloc: Global,
    reader: &mut TableReader<'_, R>,
    rows: &mut Vec<u8>,
) -> Result<bool, TableFault> {
    put_found(alloc, reader.next()?, rows)
}

// Appends the rows of few geometries, and returns their number and why reading stopped.
fn put_all<R: Read>(
    alloc: Global,
    reader: &mut TableReader<'_, R>,
    rows: &mut Vec<u8>,
) -> (usize, Option<TableFault>) {
    for count in 0..64usize {
        match put_next(alloc, reader, rows) {
            Ok(true) => {}
            Ok(false) => return (count, None),
            Err(fault) => return (count, Some(fault)),
        }
    }
    (64, None)
}

// Reads a table, one byte a read, over a reader that fails after this many bytes.
fn read_all(alloc: Global, text: &[u8], given: u64) -> Outcome {
    let mut tap = cut_reader(text, given);
    let mut rows = Vec::new(alloc);
    let mut reader = TableReader::new(alloc, &mut tap, Limits::standard());
    let (count, fault) = put_all(alloc, &mut reader, &mut rows);
    Outcome { rows, count, fault }
}

// Whether the rows are those of the first geometries of a table, as many as the result states.
fn is_front(table: &Table, outcome: &Outcome) -> bool {
    match table.ends.get(outcome.count) {
        Some(end) => table.text.get(33..*end) == Some(outcome.rows.as_slice()),
        None => false,
    }
}

// Whether a read that fails after this many bytes is reported after the geometries before it.
fn tells_failure(alloc: Global, given: u64) -> bool {
    let outcome = read_all(alloc, MANY_KINDS.text, given);
    outcome.fault == Some(TableFault::Source)
        && outcome.count < 3
        && is_front(&MANY_KINDS, &outcome)
}

// Each single read fails in turn: the geometries complete before it are given, and then `Source`.
#[test]
fn a_failed_read_is_told_after_the_geometries_before_it(rt: HostRuntime) {
    for given in 0..MANY_KINDS.text.len() as u64 + 1 {
        let is_told = tells_failure(rt.alloc(), given);
        assert!(rt; is_told, "{given} bytes");
    }
}

// Whether a table was read whole, or memory was refused before its last geometry.
fn is_read(alloc: Global, table: &Table) -> bool {
    let outcome = read_all(alloc, table.text, AMPLE);
    let is_told = match outcome.fault {
        None => outcome.count == table.count,
        Some(TableFault::Memory | TableFault::Source) => outcome.count < table.count,
        _ => false,
    };
    is_told && is_front(table, &outcome)
}

// Run with each growth refused in turn (`make hostile`) too: each is reported, and the
// geometries before it are given.
#[test]
fn a_refused_growth_is_told(rt: HostRuntime) {
    assert!(rt; is_read(rt.alloc(), &MANY_KINDS));
    assert!(rt; is_read(rt.alloc(), &DEEP));
}

// ---- trees and rows in turn from one reader of a table

// Two points: (2, 1) and (1, 1), each with its latitude before its longitude.
const TWO: &[u8] = b"depth,kind,id,precision,polyline\n0,point,,0,AC\n0,point,,0,AA\n";

// Whether these are a point at this place.
fn are_at(points: &[Pt], place: (i64, i64)) -> bool {
    match points {
        [point] => (point.x(), point.y()) == place,
        _ => false,
    }
}

// Whether the next geometry, as a tree, is the point at this place.
fn gives_tree<R: Read>(reader: &mut TableReader<'_, R>, place: (i64, i64)) -> bool {
    match reader.next() {
        Ok(Some(geometry)) => {
            let (_, points) = own_parts(geometry.shape());
            let is_given = are_at(points, place);
            drop(geometry);
            is_given
        }
        _ => false,
    }
}

// Whether the next geometry, as a flat form, is the point at this place.
fn gives_rows<R: Read>(alloc: Global, reader: &mut TableReader<'_, R>, place: (i64, i64)) -> bool {
    let mut flat = Flat::new(alloc);
    let answer = reader.next_flat(&mut flat);
    if flat.point_count() != 1 {
        return false;
    }
    let point = flat.point(PointId(0), &mut Work::new());
    (answer == Ok(true)) & ((point.x(), point.y()) == place)
}

// Whether the first of the points comes as a tree and the second as a row, or the other way round, and then the end.
fn gives_both<R: Read>(alloc: Global, tap: &mut Tap<R>, is_tree_first: bool) -> bool {
    let mut reader = TableReader::new(alloc, tap, Limits::standard());
    let are_given = if is_tree_first {
        gives_tree(&mut reader, (2, 1)) & gives_rows(alloc, &mut reader, (1, 1))
    } else {
        gives_rows(alloc, &mut reader, (2, 1)) & gives_tree(&mut reader, (1, 1))
    };
    are_given & (reader.next_flat(&mut Flat::new(alloc)) == Ok(false))
}

#[test]
fn trees_and_rows_of_a_table_come_by_turns(rt: HostRuntime) {
    let is_tree_first = gives_both(rt.alloc(), &mut Tap::new(TWO), true);
    assert!(rt; is_tree_first & gives_both(rt.alloc(), &mut Tap::new(TWO), false));
}

// ---- a worked row, field by field

// The fields of the worked row.
const FIELDS: [&[u8]; 5] = [b"1", b"linestring", b"-1", b"0", b"AAGG"];

// The row of a linestring of depth 1, id -1 and precision 0, and the collection above it, whose children have ids.
const ROW: Row = Row {
    depth: 1,
    kind: Kind::Linestring,
    id: Some(-1),
    precision: Some(0),
};

const PARENT: OpenRow = OpenRow {
    kind: Kind::Collection,
    child_ids: Some(true),
};

// Appends the worked fields, unless memory is refused.
fn put_fields(record: &mut ByteRecord) -> bool {
    let mut are_put = true;
    for field in &FIELDS {
        are_put = are_put && record.push_field(*field).is_ok();
    }
    are_put
}

// Whether these are the places (1, 1) and (5, 5).
fn are_worked(points: &[Pt]) -> bool {
    match points {
        [first, last] => first.x() == 1 && first.y() == 1 && last.x() == 5 && last.y() == 5,
        _ => false,
    }
}

// Whether the verdict on the record is the worked row.
fn is_judged_so(record: &ByteRecord, points: &mut Vec<Pt>) -> bool {
    match judge(&Limits::standard(), &[PARENT], 2, 1, record, points) {
        Ok(row) => row == ROW && are_worked(points.as_slice()),
        Err(_) => false,
    }
}

// Whether the worked row is that of its fields.
fn is_row(alloc: Global) -> bool {
    let mut record = ByteRecord::new(alloc);
    let mut points = Vec::new(alloc);
    put_fields(&mut record) && is_judged_so(&record, &mut points)
}

// The fields of a row and its points, by the worked tables.
#[test]
fn a_row_is_its_fields(rt: HostRuntime) {
    assert!(rt; is_row(rt.alloc()));
}
