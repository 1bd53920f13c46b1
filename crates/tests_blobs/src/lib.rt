//! Tests of numbers, points, polylines, devices, geometries, the flat form, the grammar, the
//! writer and the reader of blobs, through what these crates make public.
#![tactic(auto)]

#[cfg(test)]
mod blocks;
#[cfg(test)]
mod fixtures;
#[cfg(test)]
mod geom;
#[cfg(test)]
mod memory;
#[cfg(test)]
mod numbers;
#[cfg(test)]
mod points;
#[cfg(test)]
mod polyline;
#[cfg(test)]
mod readers;
#[cfg(test)]
mod streams;
#[cfg(test)]
mod writer;
