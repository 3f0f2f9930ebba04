//! What the texts keep. The functions do nothing: the contract of each is its law.
ghost use Rattle.rtmfp_show.specs.Laws.{EachLineHasOneText, EachTextHasItsName, LongestLine, NamesOfTypes};

/// A line of `show` has one text at most, so "its text was written" says which bytes were.
pub fn each_line_has_one_text()
    ensures { EachLineHasOneText }
{}

/// The text of a chunk begins with the name of its type, which is also that of a refused chunk.
pub fn each_text_has_its_name()
    ensures { EachTextHasItsName }
{}

/// The types of chunks and their names (own).
pub fn names_of_types()
    ensures { NamesOfTypes }
{}

/// The longest line of `show` in bytes, without its LF (own).
pub fn longest_line()
    ensures { LongestLine }
{}
