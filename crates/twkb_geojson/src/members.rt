//! The objects of geometries before their coordinates: types and ids.
ghost use Rattle.std.specs.Prelude.{◌≡◌, ◌++◌, OnOk};
ghost use Rattle.twkb_geojson.specs.Value.{id_value, text_of};
ghost use Rattle.twkb_geojson.specs.Text.{type_text, ids_text, name_text, start_text, listed, Grows};

use crate::lists::put_comma;
use itoa::Buffer;
use std::alloc::AllocError;
use twkb_tree::{Ids, Kind};

// Appends the beginning of the object of a geometry: its type, the ids of its members if they have
// any, and the name of the member for its coordinates or geometries. Takes memory; after an `Err` a
// prefix of it may be appended.
#[inline(always)]
pub(crate) fn put_start(kind: Kind, ids: &Ids, text: &mut Vec<u8>) -> Result<(), AllocError>
    ensures appended { OnOk result (text.new.items ≡ text.old.items ++ start_text kind ids.now) }
    ensures grown { Grows text.old.items text.new.items }
{
    text.extend_from_slice(type_member(kind))?;
    put_ids(ids, text)?;
    text.extend_from_slice(last_name(kind))?;
    Ok(())
}

// Appends the member `ids` and a comma, or nothing if there are no ids. Takes memory; after an
// `Err` a prefix of it may be appended.
fn put_ids(ids: &Ids, text: &mut Vec<u8>) -> Result<(), AllocError>
    ensures appended { OnOk result (text.new.items ≡ text.old.items ++ ids_text ids.now) }
    ensures grown { Grows text.old.items text.new.items }
{
    let Some(ids) = ids else {
        return Ok(());
    };
    text.extend_from_slice(b"\"ids\":[")?;
    list_ids(ids.as_slice(), text)?;
    text.extend_from_slice(b"],")?;
    Ok(())
}

// Appends ids with a comma between them. Takes memory; after an `Err` a prefix may be appended.
fn list_ids(ids: &[i64], text: &mut Vec<u8>) -> Result<(), AllocError>
    ensures appended { OnOk result (text.new.items ≡ text.old.items ++ listed id_value ids.now) }
    ensures grown { Grows text.old.items text.new.items }
{
    let mut index = 0;
    for id in ids {
        put_comma(index, text)?;
        put_id(*id, text)?;
        index += 1;
    }
    Ok(())
}

// Appends the decimal of an id. Takes memory.
fn put_id(id: i64, text: &mut Vec<u8>) -> Result<(), AllocError>
    ensures appended { OnOk result (text.new.items ≡ text.old.items ++ text_of (id_value id)) }
    ensures grown { Grows text.old.items text.new.items }
{
    let mut buffer = Buffer::new();
    text.extend_from_slice(buffer.format(id).as_bytes())?;
    Ok(())
}

// The beginning of an object, with the member `type` and a comma.
#[inline(always)]
fn type_member(kind: Kind) -> &'static [u8]
    ensures { result.now ≡ type_text kind }
{
    match kind {
        Kind::Point => b"{\"type\":\"Point\",",
        Kind::Linestring => b"{\"type\":\"LineString\",",
        Kind::Polygon => b"{\"type\":\"Polygon\",",
        Kind::Ring => b"{\"type\":\"\",",
        Kind::MultiPoint => b"{\"type\":\"MultiPoint\",",
        Kind::MultiLinestring => b"{\"type\":\"MultiLineString\",",
        Kind::MultiPolygon => b"{\"type\":\"MultiPolygon\",",
        Kind::Collection => b"{\"type\":\"GeometryCollection\",",
    }
}

// The name of the last member, with its colon.
#[inline(always)]
fn last_name(kind: Kind) -> &'static [u8]
    ensures { result.now ≡ name_text kind }
{
    match kind {
        Kind::Collection => b"\"geometries\":",
        _ => b"\"coordinates\":",
    }
}
