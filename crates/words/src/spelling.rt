// The theorems on words: each is the contract of a function.
ghost use Rattle.words.specs.Answer.{AnswerIsRead};
ghost use Rattle.words.specs.Spelling.{ReadIsSpelled, WrittenIsRead};

// Bytes are read as lines just where they are these lines one after the other.
pub fn lines_are_read_as_spelled()
    ensures { ReadIsSpelled }
{}

// Lines that are written are read back.
pub fn written_lines_are_read()
    ensures { WrittenIsRead }
{}

// An answer's bytes tell which cells leave and which were turned away.
pub fn answers_are_read()
    ensures { AnswerIsRead }
{}
