//! Runs over devices that fail: the status, the output before the failure, and the line. That
//! each failed call is reported is shown for the conversions (`failing`), which a run carries
//! out.
use super::{
    COLLECTION_BLOB, COLLECTION_LINES, COLLECTION_TABLE, Ended, POINT_BLOBS, POINT_TABLE, run_over,
};
use crate::devices::{AMPLE, Failing};
use std::alloc::Global;
use twkb_io::FuseEnd;

// A run: its words and its input; after how many bytes a read fails, after how many the writer
// ends and how, whether its flush fails, and how many bytes standard error takes; its status, its
// output, and the line reported.
#[derive(Clone, Copy)]
struct Run {
    line: &'static str,
    input: &'static [u8],
    given: u64,
    taken: u64,
    end: FuseEnd,
    flush_fails: bool,
    told: u64,
    status: u8,
    output: &'static [u8],
    errors: &'static [u8],
}

// Two points, packed by a run whose writer fails.
const PACKING: Run = Run {
    line: "polytwkb pack",
    input: POINT_TABLE,
    given: AMPLE,
    taken: AMPLE,
    end: FuseEnd::Fail,
    flush_fails: false,
    told: AMPLE,
    status: 3,
    output: POINT_BLOBS,
    errors: b"polytwkb: write failed\n",
};

// A collection, unpacked by a run whose writer fails.
const UNPACKING: Run = Run {
    line: "polytwkb unpack",
    input: COLLECTION_BLOB,
    output: COLLECTION_TABLE,
    ..PACKING
};

const SHOWING: Run = Run {
    line: "polytwkb show",
    output: COLLECTION_LINES,
    ..UNPACKING
};

// Blobs of two points, where a read fails after the first.
const STREAM: Run = Run {
    line: "polytwkb unpack",
    input: POINT_BLOBS,
    given: 5,
    output: b"depth,kind,id,precision,polyline\n0,point,,0,AC\n",
    errors: b"polytwkb: read failed\n",
    ..PACKING
};

// Writers that fail, that take no more, and that can't be flushed, also after a refused row.
// Readers that fail: for a stream after its complete blobs, for a table before a row, in it, and
// after the last. In the last runs standard error takes three bytes, or standard output three
// bytes of help; the status does not change.
const RUNS: [Run; 25] = [
    Run {
        taken: 0,
        output: b"",
        ..PACKING
    },
    Run {
        taken: 7,
        output: b"\x01\x02\x02\x04\x02\x01\x02",
        ..PACKING
    },
    Run {
        taken: 9,
        end: FuseEnd::Zero,
        output: b"\x01\x02\x02\x04\x02\x01\x02\x02\x02",
        ..PACKING
    },
    Run {
        input: COLLECTION_TABLE,
        taken: 7,
        output: b"\x07\x07\x0F\x02\x00\x02\x00",
        ..PACKING
    },
    Run {
        taken: 40,
        output: b"depth,kind,id,precision,polyline\n0,colle",
        ..UNPACKING
    },
    Run {
        taken: 12,
        output: b"0 0 collecti",
        ..SHOWING
    },
    Run {
        flush_fails: true,
        ..PACKING
    },
    Run {
        flush_fails: true,
        ..UNPACKING
    },
    Run {
        flush_fails: true,
        ..SHOWING
    },
    Run {
        input: b"depth,kind,id,precision,polyline\n0,point,,0,AC\n0,pont,,0,\n",
        flush_fails: true,
        output: b"",
        ..PACKING
    },
    Run {
        given: 4,
        output: b"depth,kind,id,precision,polyline\n",
        ..STREAM
    },
    STREAM,
    Run { given: 9, ..STREAM },
    Run {
        input: b"\x01\x00\x04\x02",
        given: 4,
        ..STREAM
    },
    Run {
        given: 10,
        output: POINT_TABLE,
        ..STREAM
    },
    Run {
        line: "polytwkb show",
        given: 4,
        output: b"",
        ..STREAM
    },
    Run {
        line: "polytwkb show",
        output: b"0 0 point 0 02 5 1\n",
        ..STREAM
    },
    Run {
        line: "polytwkb show",
        given: 10,
        output: b"0 0 point 0 02 5 1\n0 5 point 0 02 5 1\n",
        ..STREAM
    },
    Run {
        line: "polytwkb pack",
        input: POINT_TABLE,
        given: 0,
        output: b"",
        ..STREAM
    },
    Run {
        line: "polytwkb pack",
        input: POINT_TABLE,
        given: 60,
        output: b"",
        ..STREAM
    },
    Run {
        line: "polytwkb pack",
        input: POINT_TABLE,
        given: 61,
        output: b"\x01\x02\x02\x04\x02",
        ..STREAM
    },
    Run {
        input: b"",
        told: 3,
        status: 1,
        output: b"",
        errors: b"pol",
        ..PACKING
    },
    Run {
        line: "polytwkb",
        input: b"",
        told: 3,
        status: 2,
        output: b"",
        errors: b"err",
        ..PACKING
    },
    Run {
        told: 3,
        status: 0,
        errors: b"",
        ..PACKING
    },
    Run {
        line: "polytwkb --help",
        input: b"",
        taken: 3,
        flush_fails: true,
        status: 0,
        output: b"Con",
        errors: b"",
        ..PACKING
    },
];

// Whether the result of a run is the expected one.
fn is_due(run: &Run, ended: &Ended) -> bool {
    ended.status == Some(run.status)
        && ended.output.as_slice() == run.output
        && ended.errors.as_slice() == run.errors
}

// Whether a run has its expected result.
fn ends(alloc: Global, run: &Run) -> bool {
    let failing = Failing {
        given: run.given,
        taken: run.taken,
        end: run.end,
        flush_fails: run.flush_fails,
    };
    is_due(
        run,
        &run_over(
            alloc,
            run.line,
            run.input,
            failing,
            run.told,
            Vec::new(alloc),
        ),
    )
}

#[test]
fn a_device_that_fails_ends_with_3_after_what_was_whole_and_standard_error_changes_nothing(
    rt: HostRuntime,
) {
    for run in &RUNS {
        let is_right = ends(rt.alloc(), run);
        assert!(rt; is_right, "{} to {} bytes", run.line, run.output.len());
    }
}
