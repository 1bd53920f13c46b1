//! Rows of columns of digits.
use twkb_convert::BlobReason;
use twkb_hex::HexReason;

// A CSV whose column is unpacked, what is written, and the record at which unpacking stops, and why,
// if it does.
#[derive(Clone, Copy)]
pub(super) struct Row {
    pub(super) name: &'static str,
    pub(super) input: &'static [u8],
    pub(super) delimiter: u8,
    pub(super) output: &'static [u8],
    pub(super) refused: Option<(u64, HexReason)>,
}

const PLAIN: Row = Row {
    name: "",
    input: b"",
    delimiter: b',',
    output: b"",
    refused: None,
};

pub(super) const ROWS: [Row; 30] = [
    Row {
        name: "polylines again",
        input: b"id,line,name\n1,\\xa20323e7ce870ca8aa4ca0fcd50380813a03bfa4\
        bb0ba0fcd503ef9309c0ed1ab79643c0931f,\"a, \"\"b\"\"\"\r\n2,,c\r\n\r\n3,\"\\xa2030704000200010402\",",
        output: b"id,line,name\n1,_p~iF~ps|U_ulLnnqC_mqNvxq`@,\"a, \"\"b\"\"\"\n2,,c\n3,AC,\n",
        ..PLAIN
    },
    Row {
        name: "without what is before the digits, capital digits",
        input: b"line,k\nA20323E7CE870CA8AA4CA0FCD50380813A03BFA4BB0BA0FCD503EF9309C0ED1AB79643C0931F,1\n\
        \\xA20323E7CE870CA8AA4CA0FCD50380813A03BFA4BB0BA0FCD503EF9309C0ED1AB79643C0931F,2\n\
        A2030704000200010402,3\n",
        output: b"line,k\n_p~iF~ps|U_ulLnnqC_mqNvxq`@,1\n_p~iF~ps|U_ulLnnqC_mqNvxq`@,2\nAC,3\n",
        ..PLAIN
    },
    Row {
        name: "lines without points, and a lone empty field",
        input: b"line\n\\xa21200\n\"\"\na210\n",
        output: b"line\n\"\"\n\"\"\n\"\"\n",
        ..PLAIN
    },
    Row {
        name: "each field has a precision of its own",
        input: b"line\n\\xa200010402\nf200010402\n",
        output: b"line\nAC\nAC\n",
        ..PLAIN
    },
    Row {
        name: "a byte order mark, semicolons, only a header",
        input: b"\xef\xbb\xbfa;line\n",
        delimiter: b';',
        output: b"a;line\n",
        ..PLAIN
    },
    Row {
        name: "a delimiter that polylines have",
        input: b"x|line\n1|\\xa20323e7ce870ca8aa4ca0fcd50380813a03bfa4\
        bb0ba0fcd503ef9309c0ed1ab79643c0931f\n",
        delimiter: b'|',
        output: b"x|line\n1|\"_p~iF~ps|U_ulLnnqC_mqNvxq`@\"\n",
        ..PLAIN
    },
    Row {
        name: "no hexadecimal digits, records before are written",
        input: b"id,line\n1,a2030704000200010402\n2,\\xa20307040g0200010402\n",
        output: b"id,line\n1,AC\n",
        refused: Some((3, HexReason::NoDigits(4))),
        ..PLAIN
    },
    Row {
        name: "an odd number of digits",
        input: b"id,line\n1,\\xa203070400020001040\n",
        output: b"id,line\n",
        refused: Some((2, HexReason::OddDigits(9))),
        ..PLAIN
    },
    Row {
        name: "a blob that is cut",
        input: b"id,line\n1,a2030704000200010402\n\n2,\\xa20307040002000104\n",
        output: b"id,line\n1,AC\n",
        refused: Some((3, HexReason::Blob(9, BlobReason::Truncated))),
        ..PLAIN
    },
    Row {
        name: "more than one blob",
        input: b"line\na2030704000200010402a2030704000200010402\n",
        output: b"line\n",
        refused: Some((2, HexReason::MoreBlobs(10))),
        ..PLAIN
    },
    Row {
        name: "no linestring",
        input: b"line\na2030704000200010402\n\\x0102020402\n",
        output: b"line\nAC\n",
        refused: Some((3, HexReason::NoLinestring)),
        ..PLAIN
    },
    Row {
        name: "column twice",
        input: b"line,line\n,\n",
        refused: Some((1, HexReason::ColumnTwice)),
        ..PLAIN
    },
    Row {
        name: "no such column",
        input: b"id,Line\n1,a210\n",
        refused: Some((1, HexReason::NoColumn)),
        ..PLAIN
    },
    Row {
        name: "an empty CSV",
        refused: Some((1, HexReason::NoColumn)),
        ..PLAIN
    },
    Row {
        name: "fewer fields, the record before is written",
        input: b"id,line\n1,a200010402\n2\n",
        output: b"id,line\n1,AC\n",
        refused: Some((3, HexReason::FieldCount)),
        ..PLAIN
    },
    Row {
        name: "the number of fields goes before the digits",
        input: b"id,line\n1,x,2\n",
        output: b"id,line\n",
        refused: Some((2, HexReason::FieldCount)),
        ..PLAIN
    },
    Row {
        name: "the header is not unpacked",
        input: b"a210,line\n\"a,b\",a210\n",
        output: b"a210,line\n\"a,b\",\n",
        ..PLAIN
    },
    Row {
        name: "what is before the digits alone",
        input: b"line\n\\x\n",
        output: b"line\n",
        refused: Some((2, HexReason::NoDigits(0))),
        ..PLAIN
    },
    Row {
        name: "a capital X is no digit",
        input: b"line\n\\Xa210\n",
        output: b"line\n",
        refused: Some((2, HexReason::NoDigits(0))),
        ..PLAIN
    },
    Row {
        name: "what is before the digits, twice",
        input: b"line\n\\x\\xa210\n",
        output: b"line\n",
        refused: Some((2, HexReason::NoDigits(0))),
        ..PLAIN
    },
    Row {
        name: "0x is no digit in its second character",
        input: b"line\n0xa210\n",
        output: b"line\n",
        refused: Some((2, HexReason::NoDigits(0))),
        ..PLAIN
    },
    Row {
        name: "a blank after the digits",
        input: b"line\na210 \n",
        output: b"line\n",
        refused: Some((2, HexReason::NoDigits(2))),
        ..PLAIN
    },
    Row {
        name: "a word for a missing value is no digits",
        input: b"line\n\"\"\nNULL\n",
        output: b"line\n\"\"\n",
        refused: Some((3, HexReason::NoDigits(0))),
        ..PLAIN
    },
    Row {
        name: "one digit",
        input: b"line\nf\n",
        output: b"line\n",
        refused: Some((2, HexReason::OddDigits(0))),
        ..PLAIN
    },
    Row {
        name: "no digit before the odd one",
        input: b"line\na2g\n",
        output: b"line\n",
        refused: Some((2, HexReason::NoDigits(1))),
        ..PLAIN
    },
    Row {
        name: "no type",
        input: b"line\n0810\n",
        output: b"line\n",
        refused: Some((2, HexReason::Blob(0, BlobReason::BadType))),
        ..PLAIN
    },
    Row {
        name: "a collection of one linestring",
        input: b"line\n07000102000102040c\n",
        output: b"line\n",
        refused: Some((2, HexReason::NoLinestring)),
        ..PLAIN
    },
    Row {
        name: "the kind goes before the second blob",
        input: b"line\n010202040200\n",
        output: b"line\n",
        refused: Some((2, HexReason::NoLinestring)),
        ..PLAIN
    },
    Row {
        name: "what comes after the blob is no blob",
        input: b"line\na21000\n",
        output: b"line\n",
        refused: Some((2, HexReason::MoreBlobs(2))),
        ..PLAIN
    },
    Row {
        name: "the blob's own fault goes before its kind",
        input: b"line\na210\n010002\n",
        output: b"line\n\"\"\n",
        refused: Some((3, HexReason::Blob(3, BlobReason::Truncated))),
        ..PLAIN
    },
];
