//! What holds of every format, whatever its text.

ghost use Rattle.sbpl_fixed.specs.Meaning.{ReadingIsWhatIsSaid, WordsAreMet, WordsAreMissed, NumbersAreMet};
ghost use Rattle.sbpl_fixed.specs.Meaning.{NumbersWithoutForm, NumbersOutOfRange};

/// A format of values `A` with faults `E` is read from left to right, with the first fault that is met. What is read so
/// is just what the format says of the tokens, and the fault that is answered is just the one at the first place where
/// the text fails. Each text is said to be a value or has a fault, never both, and never two of either.
pub fn reading_is_what_is_said<E, A>()
    ensures law { ReadingIsWhatIsSaid E A }
{}

/// Which tokens meet an item: a fixed word its own bytes, and a number those that read as one in the range. A token
/// misses a number as no number where it does not have the form, and as out of range otherwise.
pub fn items_in_plain_words()
    ensures word { WordsAreMet }
    ensures other_word { WordsAreMissed }
    ensures number { NumbersAreMet }
    ensures no_number { NumbersWithoutForm }
    ensures out_of_range { NumbersOutOfRange }
{}
