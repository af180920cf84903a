//! Laws of literals: what holds of all texts. Each is the contract of a function with an empty body.
ghost use Rattle.q_text.specs.Laws.{LiteralsAreForms, WordsHaveOneForm, WrittenDatesAreRead};

/// A date that `write_date` wrote is read back as the same date.
pub fn written_dates_are_read()
    ensures { WrittenDatesAreRead }
{}

/// A word has at most one form, and it is read in that form.
pub fn words_have_one_form()
    ensures { WordsHaveOneForm }
{}

/// At each offset the forms of literals allow at most one literal, and that is what is read there. Where they allow none,
/// nothing is read.
pub fn literals_are_forms()
    ensures { LiteralsAreForms }
{}
