//! The text of a picture.
//!
//! Time goes downwards. On the left stand the steps, as the schedule spells them; each node has a lane,
//! and beside it what it gave. An arrow leads from where a datagram was sent to where it was delivered;
//! one that no step delivers ends in a cross.

use crate::chart::datagrams::{Delivery, Fate, Sent, delivered_places};
use crate::chart::escaping::push_escaped;
use crate::chart::labels::push_datagram;
use crate::chart::rows::Rows;
use crate::told_text;
use someip_world::{Line, Reuse, SetupNode, Step};
use someip_world_rules::place_of;
use std::alloc::{AllocError, Global};

/// The left edge of the first lane.
const FIRST_LANE: usize = 300;

/// The distance of two lanes.
const LANE_WIDTH: usize = 360;

/// Where the first row begins.
const TOP: usize = 84;

/// The height of a row.
const ROW_HEIGHT: usize = 20;

/// How far below its top the middle of a row is.
const ROW_MIDDLE: usize = ROW_HEIGHT / 2;

/// How many letters fit beside a lane, and before the first one.
const LETTERS: usize = 50;

const STEP_LETTERS: usize = 32;

/// What is drawn.
#[derive(Clone, Copy)]
pub(crate) struct Picture<'p> {
    /// The nodes, each of which has a lane.
    pub(crate) nodes: &'p [SetupNode],
    /// The steps of the schedule.
    pub(crate) steps: &'p [Step],
    /// The lines of the schedule that spell them.
    pub(crate) texts: &'p [&'p [u8]],
    /// The lines of the trace.
    pub(crate) lines: &'p [Line],
    /// Which row is whose.
    pub(crate) rows: &'p Rows,
    /// The datagrams that were sent.
    pub(crate) sent: &'p [Sent],
    /// What was delivered.
    pub(crate) deliveries: &'p [Delivery],
}

/// The text of a picture, with the verdict at its end.
pub(crate) fn svg_of(
    alloc: Global,
    picture: &Picture<'_>,
    verdict: Reuse,
) -> Result<String, AllocError> {
    let mut text = String::new(alloc);
    push_picture(alloc, &mut text, picture, verdict)?;
    Ok(text)
}

/// Appends a picture, layer by layer.
fn push_picture(
    alloc: Global,
    text: &mut String,
    picture: &Picture<'_>,
    verdict: Reuse,
) -> Result<(), AllocError> {
    push_head(text, picture)?;
    push_steps(text, picture)?;
    push_lanes(text, picture)?;
    push_arrows(text, picture)?;
    push_crosses(alloc, text, picture)?;
    push_labels(alloc, text, picture)?;
    push_verdict(text, picture, verdict)?;
    text.push_str("</svg>\n")
}

/// Where the lane of a node stands.
fn lane_x(node: usize) -> usize {
    FIRST_LANE.saturating_add(LANE_WIDTH.saturating_mul(node))
}

/// Where a row begins.
fn row_top(row: usize) -> usize {
    TOP.saturating_add(ROW_HEIGHT.saturating_mul(row))
}

/// The middle of a row.
fn row_y(row: usize) -> usize {
    row_top(row).saturating_add(ROW_MIDDLE)
}

/// Where the text of a row stands.
fn text_y(row: usize) -> usize {
    row_y(row).saturating_add(4)
}

/// Where an arrow leaves a row: below its text.
fn sent_y(row: usize) -> usize {
    row_top(row).saturating_add(17)
}

/// Where an arrow comes to a row: above its text.
fn arrival_y(row: usize) -> usize {
    row_top(row).saturating_add(3)
}

/// Appends the beginning: sizes, colours, the heads of arrows, and what the colours mean.
fn push_head(text: &mut String, picture: &Picture<'_>) -> Result<(), AllocError> {
    let width = lane_x(picture.nodes.len());
    let height = row_top(picture.rows.count()).saturating_add(40);
    write!(
        text,
        "<svg xmlns=\"http://www.w3.org/2000/svg\" width=\"{width}\" height=\"{height}\" "
    )?;
    write!(text, "viewBox=\"0 0 {width} {height}\">\n")?;
    text.push_str(STYLE)?;
    write!(
        text,
        "<rect width=\"{width}\" height=\"{height}\" fill=\"#ffffff\"/>\n"
    )?;
    text.push_str(LEGEND)
}

/// Colours and the heads of arrows.
const STYLE: &str = "\
<style>
text { font-family: monospace; font-size: 11px; fill: #222222 }
.name { font-size: 14px; font-weight: bold }
.halo { paint-order: stroke; stroke: #ffffff; stroke-width: 3px }
.step { fill: #777777 }
.sent { fill: #1f5fa8 }
.lane { stroke: #999999; stroke-width: 2 }
.arrived { stroke: #1f5fa8; fill: none; stroke-width: 1.4 }
.overtaken { stroke: #d07000; fill: none; stroke-width: 1.4 }
.repeated { stroke: #8030a0; fill: none; stroke-width: 1.4; stroke-dasharray: 5 3 }
.lost { stroke: #c02020; fill: none; stroke-width: 1.6 }
</style>
<defs>
<marker id=\"arrived\" viewBox=\"0 0 10 10\" refX=\"10\" refY=\"5\" markerWidth=\"8\" markerHeight=\"8\" orient=\"auto\"><path d=\"M0 1 L10 5 L0 9 z\" fill=\"#1f5fa8\"/></marker>
<marker id=\"overtaken\" viewBox=\"0 0 10 10\" refX=\"10\" refY=\"5\" markerWidth=\"8\" markerHeight=\"8\" orient=\"auto\"><path d=\"M0 1 L10 5 L0 9 z\" fill=\"#d07000\"/></marker>
<marker id=\"repeated\" viewBox=\"0 0 10 10\" refX=\"10\" refY=\"5\" markerWidth=\"8\" markerHeight=\"8\" orient=\"auto\"><path d=\"M0 1 L10 5 L0 9 z\" fill=\"#8030a0\"/></marker>
</defs>
";

/// What the colours mean.
const LEGEND: &str = "\
<path class=\"arrived\" d=\"M20 16 H60\" marker-end=\"url(#arrived)\"/><text x=\"66\" y=\"20\">delivered</text>
<path class=\"overtaken\" d=\"M150 16 H190\" marker-end=\"url(#overtaken)\"/><text x=\"196\" y=\"20\">overtaken</text>
<path class=\"repeated\" d=\"M280 16 H320\" marker-end=\"url(#repeated)\"/><text x=\"326\" y=\"20\">repeated</text>
<path class=\"lost\" d=\"M420 11 l10 10 m0 -10 l-10 10\"/><text x=\"436\" y=\"20\">never delivered</text>
";

/// Appends the steps on the left, each on a background of its own, and a dot on the lane of its node.
fn push_steps(text: &mut String, picture: &Picture<'_>) -> Result<(), AllocError> {
    let width = lane_x(picture.nodes.len());
    for (index, step) in picture.steps.iter().enumerate() {
        if index % 2 == 0 {
            push_background(text, picture.rows, index, width)?;
        }
        push_step(text, picture, index)?;
        if let Some(node) = place_of(picture.nodes, step.node().as_str()) {
            push_dot(text, node, picture.rows.of_step(index))?;
        }
    }
    Ok(())
}

/// Appends a dot where a row meets the lane of a node.
fn push_dot(text: &mut String, node: usize, row: usize) -> Result<(), AllocError> {
    let (x, y) = (lane_x(node), row_y(row));
    write!(
        text,
        "<circle cx=\"{x}\" cy=\"{y}\" r=\"4\" fill=\"#444444\"/>\n"
    )
}

/// Appends the background of a step.
fn push_background(
    text: &mut String,
    rows: &Rows,
    index: usize,
    width: usize,
) -> Result<(), AllocError> {
    let top = row_top(rows.of_step(index));
    let height = row_top(rows.behind_step(index)).saturating_sub(top);
    write!(
        text,
        "<rect x=\"0\" y=\"{top}\" width=\"{width}\" height=\"{height}\" fill=\"#f3f5f8\"/>\n"
    )
}

/// Appends the number of a step, and how the schedule spells it.
fn push_step(text: &mut String, picture: &Picture<'_>, index: usize) -> Result<(), AllocError> {
    let y = text_y(picture.rows.of_step(index));
    let number = index.saturating_add(1);
    write!(
        text,
        "<text class=\"step\" x=\"34\" y=\"{y}\" text-anchor=\"end\">{number}</text>"
    )?;
    write!(text, "<text x=\"44\" y=\"{y}\">")?;
    if let Some(spelled) = picture.texts.get(index) {
        push_escaped(text, spelled, STEP_LETTERS)?;
    }
    text.push_str("</text>\n")
}

/// Appends a lane for each node, with its name and address.
fn push_lanes(text: &mut String, picture: &Picture<'_>) -> Result<(), AllocError> {
    let bottom = row_top(picture.rows.count());
    for (place, node) in picture.nodes.iter().enumerate() {
        push_lane(text, lane_x(place), bottom, node)?;
    }
    Ok(())
}

/// Appends the lane of a node, with its name and address. That of a liar is dashed, and says so.
fn push_lane(
    text: &mut String,
    x: usize,
    bottom: usize,
    node: &SetupNode,
) -> Result<(), AllocError> {
    let (dashes, word) = if node.is_liar {
        (" stroke-dasharray=\"6 4\"", " (liar)")
    } else {
        ("", "")
    };
    write!(
        text,
        "<line class=\"lane\" x1=\"{x}\" y1=\"{TOP}\" x2=\"{x}\" y2=\"{bottom}\"{dashes}/>"
    )?;
    write!(
        text,
        "<text class=\"name\" x=\"{x}\" y=\"54\" text-anchor=\"middle\">"
    )?;
    push_escaped(text, node.name.as_bytes(), LETTERS)?;
    let address = node.config.address;
    write!(
        text,
        "{word}</text><text x=\"{x}\" y=\"72\" text-anchor=\"middle\">{address}</text>\n"
    )
}

/// Appends an arrow for each delivery.
fn push_arrows(text: &mut String, picture: &Picture<'_>) -> Result<(), AllocError> {
    for delivery in picture.deliveries {
        push_arrow(text, delivery)?;
    }
    Ok(())
}

/// Appends the arrow of a delivery, with the number of its datagram at its head. One to the node that
/// sent the datagram goes round beside the lane.
fn push_arrow(text: &mut String, delivery: &Delivery) -> Result<(), AllocError> {
    let class = class_of(delivery.fate);
    let (from, to) = (lane_x(delivery.sent.node), lane_x(delivery.node));
    let (y, end) = (sent_y(delivery.sent.row), arrival_y(delivery.row));
    let number = delivery.place.saturating_add(1);
    write!(text, "<path class=\"{class}\" d=\"M{from} {y} ")?;
    if from == to {
        let beside = from.saturating_sub(40);
        write!(text, "C{beside} {y} {beside} {end} ")?;
    } else {
        text.push_str("L")?;
    }
    write!(text, "{to} {end}\" marker-end=\"url(#{class})\"/>")?;
    let (x, y) = (to.saturating_sub(10), text_y(delivery.row));
    write!(text, "<text class=\"halo\" x=\"{x}\" y=\"{y}\" ")?;
    write!(text, "text-anchor=\"end\">{number}</text>\n")
}

/// The class of an arrow, by how the datagram came.
fn class_of(fate: Fate) -> &'static str {
    match fate {
        Fate::Arrived => "arrived",
        Fate::Overtaken => "overtaken",
        Fate::Repeated => "repeated",
    }
}

/// Appends a cross for each datagram that no step delivers.
fn push_crosses(alloc: Global, text: &mut String, picture: &Picture<'_>) -> Result<(), AllocError> {
    let delivered = delivered_places(alloc, picture.deliveries)?;
    for (place, sent) in picture.sent.iter().enumerate() {
        if !delivered.contains(&place) {
            push_cross(text, sent)?;
        }
    }
    Ok(())
}

/// Appends a cross beside where a datagram was sent.
fn push_cross(text: &mut String, sent: &Sent) -> Result<(), AllocError> {
    let (x, y) = (lane_x(sent.node), row_y(sent.row));
    write!(
        text,
        "<path class=\"lost\" d=\"M{x} {y} h-22 m-5 -5 l10 10 m0 -10 l-10 10\"/>\n"
    )
}

/// Appends what each line of the trace tells, beside the lane of its node.
fn push_labels(alloc: Global, text: &mut String, picture: &Picture<'_>) -> Result<(), AllocError> {
    let mut number: usize = 0;
    for (index, line) in picture.lines.iter().enumerate() {
        let label = label_of(alloc, number, &picture.lines[index..], line)?;
        push_label(text, picture.rows.of_line(index), line, label.as_bytes())?;
        if line.datagram().is_some() {
            number = number.saturating_add(1);
        }
    }
    Ok(())
}

/// Appends what a line of the trace tells, in its row.
fn push_label(text: &mut String, row: usize, line: &Line, label: &[u8]) -> Result<(), AllocError> {
    let (x, y) = (lane_x(line.node).saturating_add(10), text_y(row));
    let class = if line.datagram().is_some() {
        "halo sent"
    } else {
        "halo"
    };
    write!(text, "<text class=\"{class}\" x=\"{x}\" y=\"{y}\">")?;
    push_escaped(text, label, LETTERS)?;
    text.push_str("</text>\n")
}

/// What a line tells, before which so many datagrams were sent: of a datagram its number and what it
/// is, else the words of the trace.
fn label_of(
    alloc: Global,
    number: usize,
    lines: &[Line],
    line: &Line,
) -> Result<String, AllocError> {
    let mut label = String::new(alloc);
    push_told(alloc, &mut label, number, lines, line)?;
    Ok(label)
}

/// Appends what a line tells.
fn push_told(
    alloc: Global,
    label: &mut String,
    number: usize,
    lines: &[Line],
    line: &Line,
) -> Result<(), AllocError> {
    match line.datagram() {
        Some(datagram) => {
            let number = number.saturating_add(1);
            write!(label, "{number} ")?;
            push_datagram(alloc, label, lines, datagram.bytes)
        }
        None => push_words(label, &told_text(alloc, 0, &line.told)?),
    }
}

/// Appends the words of the trace, without the space and the line feed around them.
fn push_words(label: &mut String, told: &[u8]) -> Result<(), AllocError> {
    for byte in told.iter().skip(1) {
        if *byte != b'\n' {
            label.push(*byte as char)?;
        }
    }
    Ok(())
}

/// Appends the verdict below the lanes.
fn push_verdict(
    text: &mut String,
    picture: &Picture<'_>,
    verdict: Reuse,
) -> Result<(), AllocError> {
    let y = row_top(picture.rows.count()).saturating_add(24);
    write!(text, "<text x=\"44\" y=\"{y}\">")?;
    match verdict {
        Reuse::Clean => text.push_str("reuse clean")?,
        Reuse::Broken(step) => write!(text, "reuse broken at {step}")?,
    }
    text.push_str("</text>\n")
}
