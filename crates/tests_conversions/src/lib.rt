//! Tests of tables, of whole conversions, of the command and of the callers in `example_callers`,
//! through what their crates make public.
#![tactic(auto)]

#[cfg(test)]
mod arrays;
#[cfg(test)]
mod buffers;
#[cfg(test)]
mod callers;
#[cfg(test)]
mod collection;
#[cfg(test)]
mod column;
#[cfg(test)]
mod command;
#[cfg(test)]
mod devices;
#[cfg(test)]
mod failing;
#[cfg(test)]
mod geojson;
#[cfg(test)]
mod hex_column;
#[cfg(test)]
mod joined_rest;
#[cfg(test)]
mod order;
#[cfg(test)]
mod packed_rest;
#[cfg(test)]
mod printing;
#[cfg(test)]
mod table;
#[cfg(test)]
mod unpacked_column;
#[cfg(test)]
mod unpacked_hex;
#[cfg(test)]
mod worked;
