//! What is proved of set points; the functions do nothing.

ghost use Rattle.point_writer.specs.Laws.{AloneWithoutWith, AtMostOneSetPoint, ExactWithoutFit, RefusedHasNoSetPoint, WritesAllOrNone};

/// For a number a tag has one set point at most, and none where it isn't written; without the key `fit` it is that number's own.
pub fn set_points_are_exact()
    ensures at_most { AtMostOneSetPoint }
    ensures none { RefusedHasNoSetPoint }
    ensures exact { ExactWithoutFit }
{}

/// Where a tag is written, each tag that it goes with has a set point; one without the key `with` goes alone.
pub fn companions_go_together()
    ensures all { WritesAllOrNone }
    ensures alone { AloneWithoutWith }
{}
