//! The texts of help.

// What the program does.
pub(crate) const PROGRAM: &str =
    "Converts between CSV tables of encoded polylines and streams of TWKB blobs";

// The usage of the program.
pub(crate) const CALL_PROGRAM: &str = "polytwkb pack|unpack|show [OPTIONS] [-o FILE] [FILE]";

// What `pack` does.
pub(crate) const PACK: &str = "Reads a table and writes a stream of blobs, one for each geometry";

// The usage of `pack`.
pub(crate) const CALL_PACK: &str = "polytwkb pack [OPTIONS] [-o FILE] [FILE]";

// What `unpack` does.
pub(crate) const UNPACK: &str = "Reads a stream of blobs and writes a table, the header line first";

// The usage of `unpack`.
pub(crate) const CALL_UNPACK: &str = "polytwkb unpack [OPTIONS] [-o FILE] [FILE]";

// What `show` does.
pub(crate) const SHOW: &str =
    "Reads a stream of blobs and writes a line for each TWKB header in it";

// The usage of `show`.
pub(crate) const CALL_SHOW: &str = "polytwkb show [OPTIONS] [-o FILE] [FILE]";

// The end of a subcommand's help.
pub(crate) const ELSEWHERE: &str = "'polytwkb --help' describes tables, streams and exit statuses.";

// The value of `--max-nest`, which the text of a refused number shows beside the range as `clap`
// writes it.
pub(crate) const NEST: &str = "0 to 32";

// The meaning of `--max-nest`.
pub(crate) const MAX_NEST: &str = "How many collections a geometry may be in [default: 16]";

// The meaning of `--style`.
pub(crate) const STYLE: &str = "full: blobs with sizes and boxes; plain: without [default: full]";

// The meaning of `--column`.
pub(crate) const COLUMN: &str = "Packs this column of a CSV, in place of a table";

// The meaning of `--column` of `unpack`.
pub(crate) const UNPACK_COLUMN: &str =
    "A CSV with this one column of polylines, in place of the table";

// The value of `--precision`, as that of `--max-nest`.
pub(crate) const DECIMALS: &str = "-8 to 7";

// The meaning of `--precision`.
pub(crate) const PRECISION: &str = "Decimals of the coordinates; --column asks for it";

// The meaning of `--ids`.
pub(crate) const IDS: &str =
    "Packs the lines of the column as one multilinestring, with the ids of this column";

// The meaning of `--hex`.
pub(crate) const HEX: &str =
    "Writes the CSV again, with hexadecimal digits of blobs in the column, after \\x";

// The meaning of `--hex=bare`.
pub(crate) const BARE: &str = "The same, without \\x before the digits";

// The meaning of `--hex` of `unpack`.
pub(crate) const UNPACK_HEX: &str =
    "Reads a CSV with hexadecimal digits of blobs in the column, and writes it with polylines";

// The meaning of `--hex=bare` of `unpack`.
pub(crate) const UNPACK_BARE: &str = "The same: there may be \\x before the digits, or not";

// The meaning of `--null`.
pub(crate) const NULL: &str = "A word for a missing value in the column; may be given again";

// The meaning of `--delimiter`.
pub(crate) const DELIMITER: &str =
    "What is between the fields of the CSV: a character, or tab [default: a comma]";

// The meaning of `--geojson`.
pub(crate) const GEOJSON: &str = "A line of GeoJSON for each geometry, in place of the table";

// The meaning of `--collection`.
pub(crate) const COLLECTION: &str =
    "With --geojson: one FeatureCollection, a feature for each geometry, in place of the lines";

// The meaning of the word for a file.
pub(crate) const INPUT: &str = "The file to read [default: standard input]";

// The meaning of `--output`.
pub(crate) const OUTPUT: &str = "The file to write, whole or not at all [default: standard output]";

// What `--help` adds: usage, the table, the stream, the lines of `show`, and the statuses.
pub(crate) const MORE: &str = "Each command reads FILE and writes the file of -o:

  polytwkb pack places.csv -o places.twkb
  polytwkb show places.twkb
  polytwkb unpack places.twkb

Without FILE, or with -, a command reads standard input: on a terminal what is
typed, up to Ctrl-D at the start of a line. Without -o, or with '-o -', it writes
standard output. The file of -o is written whole, or stays as it was.
'polytwkb <COMMAND> --help' lists the options of a command.

Table: CSV with the header line below (any other is refused: 'bad header'), then
a row for each geometry, followed by the rows of its parts.

  depth,kind,id,precision,polyline
  0,collection,,5,
  1,point,7,5,_p~iF~ps|U
  1,linestring,8,5,_p~iF~ps|U_ulLnnqC_mqNvxq`@

  depth      0 begins a geometry; its parts have depth 1, their parts 2, and so on
  kind       point, linestring, polygon (its parts are rings), ring, multipoint,
             multilinestring, multipolygon or collection (its parts are any but
             rings)
  id         a whole number for a part of a multi kind or of a collection; all
             parts of one geometry have an id, or none
  precision  decimals of the coordinates, -8 to 7; for depth 0 and for parts of
             a collection, empty elsewhere
  polyline   the points of a point, linestring or ring as Google encoded
             polyline, latitude before longitude; empty elsewhere

Stream: one TWKB blob for each geometry of depth 0, with nothing between them.

Lines of show: level, offset, kind, precision, metadata byte, length, points.

  level      how many collections the geometry is in
  offset     the byte at which it begins, from 0
  metadata   hexadecimal: 01 box + 02 size + 04 ids + 08 extended + 10 empty
  length     its bytes, header and parts included
  points     its points, those of its parts included

Exit status:

  0  all was converted
  1  the input was refused: standard error names the record or byte, and why
  2  the command line was refused
  3  a file could not be opened, reading or writing failed, or the reader of the
     output ended, as head does
  4  out of memory";
