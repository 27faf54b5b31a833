//! The laws of the lines of a script: what it means that one is read, or refused at a word, and which words decide it.

ghost use Rattle.tools.specs.Lines.{FirstWordsDecide, MeansInRange, NoneIsLonger, ReadsLines, RefusesBehindLongest};

/// Words are a line of the grammar exactly where they are read, and then they are read as what it means.
pub fn each_line_is_read()
    ensures { ReadsLines }
{}

/// Where a word is refused, the words before it begin a line of the grammar, and no longer front of the words does.
pub fn the_refused_word_is_behind_the_longest_front()
    ensures { RefusesBehindLongest }
{}

/// What a line of the grammar means is in range.
pub fn each_field_is_in_range()
    ensures { MeansInRange }
{}

/// No line of the grammar has more than the most words, so that these and one more decide what a line is read as. Without
/// the one more, a line that is too long would be read as its front.
pub fn the_first_words_decide()
    ensures within { NoneIsLonger }
    ensures decide { FirstWordsDecide }
{}
