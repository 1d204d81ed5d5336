//! The steps of a line of numbers.
use crate::axis::Axis;
use crate::coordinates::x_at;
use crate::recorded::Sample;
use crate::sheet::Sheet;

/// Which numbers a line is drawn of.
#[derive(Clone, Copy)]
pub(crate) enum Stroke {
    /// Those that were read or stored.
    Own,
    /// Those in the place of missing ones.
    Default,
}

impl Stroke {
    fn number_in(self, sample: Sample) -> Option<i64> {
        match self {
            Stroke::Own => sample.own_number(),
            Stroke::Default => sample.default_number(),
        }
    }
}

/// Appends the steps of a line over n scans, as the data of a path.
pub(crate) fn push_steps(
    page: &mut Sheet,
    samples: &[Sample],
    n: usize,
    axis: Axis,
    stroke: Stroke,
) {
    let mut pen = None;
    for (i, sample) in samples.iter().enumerate() {
        let height = height_of(axis, stroke.number_in(*sample));
        push_step(page, x_at(i, n), pen, height);
        pen = height;
    }
    push_step(page, x_at(samples.len(), n), pen, None);
}

fn height_of(axis: Axis, number: Option<i64>) -> Option<u32> {
    match number {
        Some(number) => Some(axis.y_of(number)),
        None => None,
    }
}

/// Moves the pen from one height to the next one; it is on paper where there is one.
fn push_step(page: &mut Sheet, x: u32, from: Option<u32>, to: Option<u32>) {
    match (from, to) {
        (None, Some(y)) => page.say(format_args!("M{x} {y}")),
        (Some(_), None) => page.say(format_args!("H{x}")),
        (Some(before), Some(y)) if before != y => page.say(format_args!("H{x}V{y}")),
        _ => {}
    }
}
