//! What is proved of a service of accepted programs, and of a survey; the functions do nothing.
ghost use Rattle.served_site.specs.Going.{SetPointsAloneAreWritten};
ghost use Rattle.served_site.specs.Serving.{ScansMeanTheProgram};
ghost use Rattle.served_site.specs.Surveying.{SurveysAskForReadsAlone};

/// Whatever a service of accepted programs does, with whatever was kept of their variables, each scan ends without a trap and
/// within the budget of the program that runs then, is of the blocks that were told in its own round and of the time since the
/// scan before, computes what that program's text means, leaves the variables and the outputs in their ranges, and plans just
/// what is due for them.
pub fn scans_mean_the_program()
    ensures { ScansMeanTheProgram }
{}

/// Whatever such a service does, what is to be written to any of its connections is the rest of the frame of a read, or of the
/// set point of an `out` tag of the site, for the number that the program which ran then stored, in the tag's range; or nothing.
pub fn set_points_alone_are_written()
    ensures { SetPointsAloneAreWritten }
{}

/// Whatever steps a survey makes, what is to be written to any of its connections is the rest of the frame of a read, or
/// nothing: whatever devices, clients and the clock do, nothing is written to a device.
pub fn surveys_ask_for_reads_alone()
    ensures { SurveysAskForReadsAlone }
{}
