//! What else has to be wrong for something to be wrong by that.
use crate::alarm::{Alarm, AlarmSubject, Hidden};
use point_types::Cause;
use point_writer::NoWrite;
use service::Unwritten;
use site_model::{Site, Want};

/// What an alarm may follow from.
#[derive(Clone, Copy)]
pub(crate) struct Origins {
    /// Looked at first.
    pub first: Option<AlarmSubject>,
    pub second: Option<AlarmSubject>,
}

impl Origins {
    /// Those of an alarm: of an input or an output that isn't had for want of its device's words, the device, and its model;
    /// of an output that goes with another one, that one; of a sum, the input that it lacks.
    pub(crate) fn of(site: &Site, alarm: Alarm) -> Origins {
        match alarm {
            Alarm::InputMissing(tag, Cause::NoBlock) => Origins::of_words(site, tag),
            Alarm::OutputUnwritten(output, cause) => Origins::of_output(site, output, cause),
            Alarm::SumHidden(_, Hidden::Part(tag)) => Origins::only(AlarmSubject::Input(tag)),
            _ => Origins::none(),
        }
    }

    fn none() -> Origins {
        Origins {
            first: None,
            second: None,
        }
    }

    fn only(subject: AlarmSubject) -> Origins {
        Origins {
            first: Some(subject),
            second: None,
        }
    }

    /// The device of a tag, and the model of its point.
    fn of_words(site: &Site, tag: usize) -> Origins {
        let Some(tag) = site.tags().get(tag) else {
            return Origins::none();
        };
        match tag.device {
            Some(device) => Origins {
                first: Some(AlarmSubject::Device(device)),
                second: Some(AlarmSubject::Model(Want {
                    device,
                    model: tag.model,
                })),
            },
            None => Origins::none(),
        }
    }

    fn of_output(site: &Site, output: usize, cause: Unwritten) -> Origins {
        let Some(tag) = site.outs().get(output) else {
            return Origins::none();
        };
        match cause {
            Unwritten::NoSetPoint(NoWrite::NoBlock) | Unwritten::Unanswered => {
                Origins::of_words(site, *tag)
            }
            Unwritten::NoSetPoint(NoWrite::With) => Origins::of_companion(site, *tag),
            _ => Origins::none(),
        }
    }

    /// The output that a tag goes with.
    fn of_companion(site: &Site, tag: usize) -> Origins {
        let Some(companion) = site.companion(tag) else {
            return Origins::none();
        };
        match site.outs().iter().position(|number| *number == companion) {
            Some(output) => Origins::only(AlarmSubject::Output(output)),
            None => Origins::none(),
        }
    }
}
