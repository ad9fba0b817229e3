//! The command `chart` of `someipctl`: a picture of what a schedule brings about in a network of nodes.
//!
//! - [`chart_schedule`]: runs a schedule, and writes the picture of its trace as SVG.
//!
//! `rows` says which row of the picture is whose, `datagrams` what became of each datagram that was
//! sent, `labels` what stands beside a lane, and `drawing` makes the text of the picture.

mod charting;
mod datagrams;
mod drawing;
mod escaping;
mod labels;
mod rows;
mod segments;

pub use charting::chart_schedule;
