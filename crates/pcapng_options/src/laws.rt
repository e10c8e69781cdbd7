//! Laws of lists of options. The calls do nothing; their clauses are the laws.
ghost use Rattle.pcapng_options.specs.Laws.{SpelledIsRead, OneList, OptionsAreRead, ReadAreOptions, RunsOverIsRead, ReadRunsOver};

/// A list of options has one reading: the options that it is spelled of, or the place where one runs over the end.
pub fn options_are_one()
    ensures one { OneList }
    ensures options { OptionsAreRead }
    ensures read { ReadAreOptions }
    ensures over { RunsOverIsRead }
    ensures read_over { ReadRunsOver }
{}

/// What `write_notes` spells is read back.
pub fn spelled_is_read()
    ensures { SpelledIsRead }
{}
