//! Arrays of lists of positions, and lists of these.
ghost use Rattle.std.specs.Prelude.{◌≡◌, ◌++◌, OnOk};
ghost use Rattle.twkb_tree.specs.Tree.{IsPrecision};
ghost use Rattle.twkb_geojson.specs.Value.{text_of, array_of, lists, positions};
ghost use Rattle.twkb_geojson.specs.Text.{comma_before, listed, Grows};

use crate::positions::put_positions;
use std::alloc::AllocError;
use twkb_tree::{Lines, Pts};

/// Appends the positions of lines or rings as an array of arrays (RFC 7946, sections 3.1.5 and
/// 3.1.6; without blanks). Takes memory for the text alone; after an `Err` a prefix of the array
/// may be appended.
pub fn put_lists(precision: i8, lines: &[Pts], text: &mut Vec<u8>) -> Result<(), AllocError>
    requires known { IsPrecision precision }
    ensures appended { OnOk result (text.new.items ≡ text.old.items ++ text_of (lists precision lines.now)) }
    ensures grown { Grows text.old.items text.new.items }
{
    text.push(b'[')?;
    list_lines(precision, lines, text)?;
    text.push(b']')?;
    Ok(())
}

// Appends the positions of lines or rings, each as an array, with a comma between them. Takes
// memory; after an `Err` a prefix may be appended.
fn list_lines(precision: i8, lines: &[Pts], text: &mut Vec<u8>) -> Result<(), AllocError>
    requires known { IsPrecision precision }
    ensures appended { OnOk result (text.new.items ≡ text.old.items ++ listed (positions precision) lines.now) }
    ensures grown { Grows text.old.items text.new.items }
{
    let mut index = 0;
    for line in lines {
        put_comma(index, text)?;
        put_positions(precision, line.as_slice(), text)?;
        index += 1;
    }
    Ok(())
}

/// Appends the rings of polygons as an array of arrays of arrays (RFC 7946, section 3.1.7; without
/// blanks). Takes memory for the text alone; after an `Err` a prefix of the array may be appended.
pub fn put_areas(precision: i8, areas: &[Lines], text: &mut Vec<u8>) -> Result<(), AllocError>
    requires known { IsPrecision precision }
    ensures appended { OnOk result (text.new.items ≡ text.old.items ++ text_of (array_of (lists precision) areas.now)) }
    ensures grown { Grows text.old.items text.new.items }
{
    text.push(b'[')?;
    list_areas(precision, areas, text)?;
    text.push(b']')?;
    Ok(())
}

// Appends the rings of polygons, each polygon as an array, with a comma between them. Takes memory;
// after an `Err` a prefix may be appended.
fn list_areas(precision: i8, areas: &[Lines], text: &mut Vec<u8>) -> Result<(), AllocError>
    requires known { IsPrecision precision }
    ensures appended { OnOk result (text.new.items ≡ text.old.items ++ listed (lists precision) areas.now) }
    ensures grown { Grows text.old.items text.new.items }
{
    let mut index = 0;
    for rings in areas {
        put_comma(index, text)?;
        put_lists(precision, rings.as_slice(), text)?;
        index += 1;
    }
    Ok(())
}

// Appends a comma before each element of an array but the first. Takes memory.
#[inline(always)]
pub(crate) fn put_comma(index: usize, text: &mut Vec<u8>) -> Result<(), AllocError>
    ensures appended { OnOk result (text.new.items ≡ text.old.items ++ comma_before index) }
    ensures grown { Grows text.old.items text.new.items }
{
    if 0 < index {
        text.push(b',')?;
    }
    Ok(())
}
