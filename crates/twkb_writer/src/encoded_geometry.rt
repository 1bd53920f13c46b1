//! Encoding geometries as canonical blobs.
ghost use Rattle.std.specs.Prelude.{OnOk, IfErr};
ghost use Rattle.twkb_tree.specs.Limits.{largest_limits, IsValid};
ghost use Rattle.twkb_grammar.specs.Written.{canonical_blob};
ghost use Rattle.twkb_grammar.specs.declared.style.Style.TheVariants.{Full};
ghost use Rattle.twkb_writer.specs.Bytes.{Stopped};

use crate::measured_rows::measure_flat;
use crate::written_form::write_flat;
use std::alloc::Global;
use thiserror::Error;
use twkb_flat::{Flat, Work};
use twkb_grammar::Style;
use twkb_io::Sink;
use twkb_tree::Geometry;

/// Why a geometry was not written.
#[derive(Clone, Copy, Debug, Drop, PartialEq, Eq, Error)]
pub enum EncodeFault<F> {
    /// Memory was refused, and the sink took nothing.
    #[error("out of memory")]
    Memory,
    /// The sink refused a put.
    #[error("the sink refused the bytes")]
    Sink(F),
}

/// Writes the canonical blob of a geometry, which must be within `Limits::largest()`, in a style.
/// On `Ok` the sink got exactly the blob; on `Err` it got a prefix of it, which is empty if the
/// `Err` is `Memory`. Takes memory for a copy of the rows and the points, and for the sizes.
pub fn encode_styled<S: Sink>(
    alloc: Global,
    geometry: &Geometry,
    style: Style,
    sink: &mut S,
) -> Result<(), EncodeFault<S::Fault>>
    requires { IsValid largest_limits geometry.now }
    ensures ok { OnOk result (S.took sink.old (canonical_blob style geometry.now) sink.new) }
    ensures err { IfErr result (λ fault. Stopped S.refused sink.old
        (canonical_blob style geometry.now) fault sink.new) }
{
    let Ok(flat) = Flat::from_geometry(alloc, geometry) else {
        return Err(EncodeFault::Memory);
    };
    let mut work = Work::new();
    let Ok(sizes) = measure_flat(alloc, &flat, style, &mut work) else {
        return Err(EncodeFault::Memory);
    };
    match write_flat(&flat, style, &sizes, sink, &mut work) {
        Ok(()) => Ok(()),
        Err(fault) => Err(EncodeFault::Sink(fault)),
    }
}

/// Writes the canonical blob of a geometry, which must be within `Limits::largest()`, in full
/// style. What the sink got, an `Err` and memory are as with `encode_styled`.
pub fn encode<S: Sink>(
    alloc: Global,
    geometry: &Geometry,
    sink: &mut S,
) -> Result<(), EncodeFault<S::Fault>>
    requires { IsValid largest_limits geometry.now }
    ensures ok { OnOk result (S.took sink.old (canonical_blob Full geometry.now) sink.new) }
    ensures err { IfErr result (λ fault. Stopped S.refused sink.old (canonical_blob Full geometry.now) fault sink.new) }
{
    encode_styled(alloc, geometry, Style::Full, sink)
}
