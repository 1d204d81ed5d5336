//! Laws: what is spelled is read back.
ghost use Rattle.scan_code.specs.ImageExamples.{ImagesWork};
ghost use Rattle.scan_code.specs.ImageLaws.{ImagesHaveOneSpelling, ImagesReadBack, MoreIsRest, PrefixesAreCut};
ghost use Rattle.scan_code.specs.Spelling.{SpelledInstructionsDecode};

/// What was spelled is decoded, wherever it stands in the code.
pub fn spelled_instructions_decode()
    ensures { SpelledInstructionsDecode }
{}

/// The bytes of an image are read as that image, and with bytes after them refused.
pub fn images_read_back()
    ensures alone { ImagesReadBack }
    ensures more { MoreIsRest }
{}

/// Only the bytes of an image are read as that image.
pub fn images_have_one_spelling()
    ensures { ImagesHaveOneSpelling }
{}

/// The bytes of an image that end too soon are Cut.
pub fn prefixes_are_cut()
    ensures { PrefixesAreCut }
{}

/// Worked bytes of images.
pub fn images_work()
    ensures { ImagesWork }
{}
