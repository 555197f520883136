ghost use Rattle.script_lang.specs.Laws.{HasOneReading, ReadsItsSpelling, HasOwnSpelling, IsOneScript, HasNoRefusal, HasOneRefusal};

/// A line has at most one reading, and the spelling of a command within its ranges is read as this command.
/// So the spellings of different commands differ.
pub fn one_reading_of_a_line()
    ensures one_reading { HasOneReading }
    ensures reads_its_spelling { ReadsItsSpelling }
    ensures own_spelling { HasOwnSpelling }
{}

/// A text is one script, or it has one refusal, and not both. The refusal is its length's, or that of its first faulty line.
pub fn one_reading_of_a_text()
    ensures one_script { IsOneScript }
    ensures no_refusal { HasNoRefusal }
    ensures one_refusal { HasOneRefusal }
{}
