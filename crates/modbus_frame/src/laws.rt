//! Laws of streams: what callers of [`Framer::feed`](crate::Framer::feed) can rest on over many calls.
ghost use Rattle.modbus_frame.specs.Frame.{RestsBeginFrames, BeginningsAreRests};
ghost use Rattle.modbus_frame.specs.Framing.{RunsReadTheStream, OneReading, CutsGiveTheSame};

/// However a stream is cut into pieces, the frames and the fault that come are those of the stream, and what was
/// used is these frames and the rest that is kept.
pub fn any_cut_gives_the_frames_of_the_stream()
    ensures stream { RunsReadTheStream }
    ensures same { CutsGiveTheSame }
{}

/// A stream is frames, and then less than a frame or a fault, in one way.
pub fn a_stream_has_one_reading()
    ensures { OneReading }
{}

/// With its length field there, what is less than a frame is what can still become one.
pub fn a_rest_begins_a_frame()
    ensures begins { RestsBeginFrames }
    ensures only { BeginningsAreRests }
{}
