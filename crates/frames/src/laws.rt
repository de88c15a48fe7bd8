// One function for each theorem on frames and lines: its contract is the theorem.
ghost use Rattle.frames.specs.Laws.{FramesSplit, FrameRoundTrip, FramesRoundTrip, FramesRejoin};
ghost use Rattle.frames.specs.Laws.{LinesSplit, LineRoundTrip, LinesRoundTrip, LinesRejoin};
ghost use Rattle.frames.specs.Laws.{DigitsRoundTrip, BlanksPass, CapitalsAreRead};

// Frames are split one after the other, and by pieces as they come.
pub fn frames_split()
    ensures { FramesSplit }
{}

// A word is read back from its frame.
pub fn frame_round_trip()
    ensures { FrameRoundTrip }
{}

// Words are read back from their frames.
pub fn frames_round_trip()
    ensures { FramesRoundTrip }
{}

// Bytes are the frames of their words and what is left.
pub fn frames_rejoin()
    ensures { FramesRejoin }
{}

// Lines are split one after the other, and by pieces as they come.
pub fn lines_split()
    ensures { LinesSplit }
{}

// A word is read back from its digits.
pub fn digits_round_trip()
    ensures { DigitsRoundTrip }
{}

// The digits of a word are read back from its line.
pub fn line_round_trip()
    ensures { LineRoundTrip }
{}

// The digits of words are read back from their lines.
pub fn lines_round_trip()
    ensures { LinesRoundTrip }
{}

// Bytes are their lines and what is left.
pub fn lines_rejoin()
    ensures { LinesRejoin }
{}

// A blank changes no word.
pub fn blanks_pass()
    ensures { BlanksPass }
{}

// Capital letters are read as small ones.
pub fn capitals_are_read()
    ensures { CapitalsAreRead }
{}
