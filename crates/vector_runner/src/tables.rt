//! Each way to read a table: the rows of its geometries, and the fault after them.
use super::conversions::put_conversion;
use super::text::{put, put_lines, put_stop, table_of};
use std::alloc::Global;
use std::io::Read;
use twkb_conversions::Conversion;
use twkb_convert::Style;
use twkb_geom::{Flat, Geometry, Limits, Rows, Work};
use twkb_io::Tap;
use twkb_table::{TableFault, TableReader, header_text, put_flat_rows, put_rows};

/// How a table is read.
#[derive(Clone, Copy)]
enum Way {
    Trees,
    Forms,
}

// Appends the rows of a geometry.
fn put_tree(geometry: &Geometry, rows: &mut Vec<u8>) {
    if geometry.within(&Limits::largest()) {
        let _is_put = put_rows(geometry, rows).is_ok();
    }
}

/// Reads a tree, appends its rows, and returns whether there was one.
pub fn read_tree<R: Read>(
    reader: &mut TableReader<'_, R>,
    rows: &mut Vec<u8>,
) -> Result<bool, TableFault> {
    match reader.next() {
        Ok(Some(geometry)) => {
            put_tree(&geometry, rows);
            drop(geometry);
            Ok(true)
        }
        Ok(None) => Ok(false),
        Err(fault) => Err(fault),
    }
}

/// Reads a flat form, appends its rows, and returns whether there was one.
pub fn read_form<R: Read>(
    reader: &mut TableReader<'_, R>,
    form: &mut Rows,
    rows: &mut Vec<u8>,
) -> Result<bool, TableFault> {
    let read = reader.next_flat(&mut form.flat);
    let _is_put = put_flat_rows(form, &mut Work::new(), rows).is_ok();
    read
}

// The rows of a table, by trees or by flat forms.
fn read_by(
    alloc: Global,
    way: Way,
    limits: Limits,
    table: &[u8],
    rows: &mut Vec<u8>,
) -> Option<TableFault> {
    let mut tap = Tap::new(table);
    let mut reader = TableReader::new(alloc, &mut tap, limits);
    let mut form = Rows {
        flat: Flat::new(alloc),
    };
    let mut answer = Ok(true);
    for _ in 0..table.len().saturating_add(1) {
        if answer == Ok(true) {
            answer = match way {
                Way::Trees => read_tree(&mut reader, rows),
                Way::Forms => read_form(&mut reader, &mut form, rows),
            };
        }
    }
    answer.err()
}

// Whether the forms of a table have these rows and this fault, and its blobs have the rows.
fn is_one(
    alloc: Global,
    limits: Limits,
    table: &[u8],
    blobs: &[u8],
    rows: &[u8],
    fault: Option<TableFault>,
) -> bool {
    let mut found = Vec::new(alloc);
    let found_fault = read_by(alloc, Way::Forms, limits, table, &mut found);
    let mut unused = Vec::new(alloc);
    let unpacked = put_conversion(alloc, Conversion::Unpack, limits, blobs, &mut unused);
    let has_rows = unpacked.as_slice().strip_prefix(header_text()) == Some(rows);
    has_rows & (found_fault == fault) & (found.as_slice() == rows)
}

/// Prints the blobs of a table in a style and its rows as read, and whether some way to read it
/// differs.
pub fn put_table(alloc: Global, style: Style, limits: Limits, table: &[u8], text: &mut Vec<u8>) {
    let blobs = put_conversion(alloc, Conversion::Pack(style), limits, table, text);
    let mut rows = Vec::new(alloc);
    let fault = read_by(alloc, Way::Trees, limits, table, &mut rows);
    put(text, b"\n  rows");
    put_lines(text, &rows);
    put_stop(alloc, text, fault);
    if !is_one(alloc, limits, table, &blobs, &rows, fault) {
        put(text, b"\n  another way differs");
    }
}

/// Prints the blobs and rows of the table with these rows.
pub fn put_rows_table(
    alloc: Global,
    style: Style,
    limits: Limits,
    rows: &[u8],
    text: &mut Vec<u8>,
) {
    put_table(alloc, style, limits, &table_of(alloc, rows), text);
}
