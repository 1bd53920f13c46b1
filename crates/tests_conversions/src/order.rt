//! How a conversion works: in which order it reads, writes and refuses, and the counted work of
//! packing.
use crate::devices::{Failing, SOUND, carried};
use std::alloc::Global;
use twkb_conversions::Conversion;
use twkb_convert::{Cause, Style, Work, pack_counted};
use twkb_geom::Limits;
use twkb_io::Tap;

// ---- what a conversion reads before it writes, and before it refuses: no byte more than the first
// output needs, or than the refused row or item has

// A conversion, the number of bytes written, and the number of bytes read for them.
#[derive(Clone, Copy)]
struct Asked {
    what: Conversion,
    input: &'static [u8],
    taken: u64,
    read: u64,
}

// Two points, and bytes that are no blob.
const UNPACKED: Asked = Asked {
    what: Conversion::Unpack,
    input: b"\x01\x02\x02\x04\x02\x01\x02\x02\x02\x02\x08",
    taken: 0,
    read: 0,
};

// Three points, and a line that is no row.
const PACKED: Asked = Asked {
    what: Conversion::Pack(Style::Full),
    input: b"depth,kind,id,precision,polyline\n0,point,,0,AC\n0,point,,0,AA\n0,point,,0,AC\n0,pont,,0,\n",
    taken: 0,
    read: 61,
};

// The text of a blob is written before the next is read, and a geometry before the row after the next root is.
const ASKED: [Asked; 9] = [
    UNPACKED,
    Asked {
        taken: 33,
        read: 5,
        ..UNPACKED
    },
    Asked {
        taken: 46,
        read: 5,
        ..UNPACKED
    },
    Asked {
        taken: 47,
        read: 10,
        ..UNPACKED
    },
    Asked {
        what: Conversion::Show,
        read: 5,
        ..UNPACKED
    },
    Asked {
        what: Conversion::Show,
        taken: 19,
        read: 10,
        ..UNPACKED
    },
    PACKED,
    Asked { taken: 4, ..PACKED },
    Asked {
        taken: 5,
        read: 75,
        ..PACKED
    },
];

// Whether a conversion read this many bytes, from a reader that gives one byte a read, if its
// writer fails after its bytes.
fn reads_no_more(alloc: Global, asked: &Asked) -> bool {
    let failing = Failing {
        taken: asked.taken,
        ..SOUND
    };
    let found = carried(alloc, asked.what, asked.input, failing, Vec::new(alloc));
    found.account.stopped == Some(Cause::WriteDevice) && found.read == asked.read
}

#[test]
fn output_is_written_before_more_is_read_than_it_needs(rt: HostRuntime) {
    for asked in &ASKED {
        let is_right = reads_no_more(rt.alloc(), asked);
        assert!(rt; is_right, "{} bytes written", asked.taken);
    }
}

// A conversion, an input that goes on after its refused row or item, and the number of bytes up to
// the end of that.
#[derive(Clone, Copy)]
struct Refused {
    what: Conversion,
    input: &'static [u8],
    read: u64,
}

// A point and a blob with more than two dimensions, and a blob after them.
const REFUSED_STREAM: &[u8] = b"\x01\x02\x02\x04\x02\x01\x08\x01\x01\x00\x04\x02";

const REFUSED: [Refused; 4] = [
    Refused {
        what: Conversion::Pack(Style::Full),
        input: b"depth,kind,id,precision,polyline\n0,point,,0,AC\n0,pont,,0,\n0,point,,0,AA\n",
        read: 58,
    },
    Refused {
        what: Conversion::Pack(Style::Full),
        input: b"depth,kind,id,precision\n0,point,,0,AC\n",
        read: 24,
    },
    Refused {
        what: Conversion::Unpack,
        input: REFUSED_STREAM,
        read: 8,
    },
    Refused {
        what: Conversion::Show,
        input: REFUSED_STREAM,
        read: 8,
    },
];

// Whether a conversion read this many bytes when it refused its input, from a reader that gives one
// byte a read.
fn reads_to_the_refusal(alloc: Global, refused: &Refused) -> bool {
    let found = carried(alloc, refused.what, refused.input, SOUND, Vec::new(alloc));
    found.account.stopped.is_some() && found.read == refused.read
}

#[test]
fn nothing_is_read_after_a_refused_row_or_item(rt: HostRuntime) {
    for refused in &REFUSED {
        let is_right = reads_to_the_refusal(rt.alloc(), refused);
        assert!(rt; is_right, "{} bytes", refused.read);
    }
}

// ---- the counted work of packing

// A table; its points, its nodes and its geometries with their own headers; and the most reads of
// points and nodes.
#[derive(Clone, Copy)]
struct Counted {
    name: &'static str,
    table: &'static [u8],
    points: u64,
    nodes: u64,
    entries: u64,
    point_reads: u64,
    node_reads: u64,
}

const COUNTED: [Counted; 3] = [
    Counted {
        name: "two roots",
        table: b"depth,kind,id,precision,polyline\n0,collection,,0,\n1,point,7,0,AA\n\
            1,linestring,-1,0,AAGG\n0,point,,0,AC\n",
        points: 4,
        nodes: 4,
        entries: 4,
        point_reads: 8,
        node_reads: 12,
    },
    Counted {
        name: "a collection",
        table: b"depth,kind,id,precision,polyline\n0,collection,,0,\n1,point,7,0,AA\n1,linestring,-1,0,\n",
        points: 1,
        nodes: 3,
        entries: 3,
        point_reads: 2,
        node_reads: 9,
    },
    Counted {
        name: "a line of a hundred points in 32 collections",
        table: b"depth,kind,id,precision,polyline\n0,collection,,0,\n1,collection,,0,\n\
            2,collection,,0,\n3,collection,,0,\n4,collection,,0,\n5,collection,,0,\n\
            6,collection,,0,\n7,collection,,0,\n8,collection,,0,\n9,collection,,0,\n\
            10,collection,,0,\n11,collection,,0,\n12,collection,,0,\n13,collection,,0,\n\
            14,collection,,0,\n15,collection,,0,\n16,collection,,0,\n17,collection,,0,\n\
            18,collection,,0,\n19,collection,,0,\n20,collection,,0,\n21,collection,,0,\n\
            22,collection,,0,\n23,collection,,0,\n24,collection,,0,\n25,collection,,0,\n\
            26,collection,,0,\n27,collection,,0,\n28,collection,,0,\n29,collection,,0,\n\
            30,collection,,0,\n31,collection,,0,\n\
            32,linestring,,0,ACACACACACACACACACACACACACACACACACACACACACACACACACACACACACACACACACAC\
            ACACACACACACACACACACACACACACACACACACACACACACACACACACACACACACACACACACACACACACACACACACA\
            CACACACACACACACACACACACACACACACACACACACACACACAC\n",
        points: 100,
        nodes: 33,
        entries: 33,
        point_reads: 200,
        node_reads: 99,
    },
];

// Whether this is the work of a table.
fn is_so(row: &Counted, work: &Work) -> bool {
    let are_counted = (work.points == row.points) & (work.nodes == row.nodes);
    let is_bounded = (work.point_reads <= row.point_reads) & (work.node_reads <= row.node_reads);
    are_counted & (work.entries == row.entries) & is_bounded
}

// Whether the work of packing a table is counted so.
fn is_counted(alloc: Global, row: &Counted) -> bool {
    let mut reader = Tap::new(row.table);
    let mut writer = Tap::new(Vec::new(alloc));
    let limits = Limits::largest();
    match pack_counted(alloc, &mut reader, &mut writer, limits, Style::Full) {
        Ok((_, work)) => is_so(row, &work),
        Err(_) => false,
    }
}

#[test]
fn the_work_is_that_of_all_geometries_at_any_nesting(rt: HostRuntime) {
    for row in &COUNTED {
        let is_right = is_counted(rt.alloc(), row);
        assert!(rt; is_right, "{}", row.name);
    }
}
