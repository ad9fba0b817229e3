//! The numbers of the datagrams of which lines tell: they count from 1.
ghost use Rattle.std.specs.Prelude.{◌≡◌, ◌<◌};
ghost use Rattle.someip_explore.specs.Goals.{next_number, number_after};

use someip_node_rules::Output;
use someip_world::{Line, Told};

/// The number of the next datagram after a line.
pub(crate) fn number_after(number: usize, line: &Line) -> usize
    requires { number < usize.MAX }
    ensures { result ≡ number_after number line.now }
{
    if matches!(&line.told, Told::Gave(Output::Sent { .. })) {
        number + 1
    } else {
        number
    }
}

/// The number of the next datagram after some lines.
pub(crate) fn next_number(lines: &[Line]) -> usize
    ensures { result ≡ next_number lines.now }
{
    let mut number = 1;
    for line in lines {
        number = number_after(number, line);
    }
    number
}
