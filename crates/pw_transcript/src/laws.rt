//! Laws of lines and of inputs. Each is the contract of a function that does nothing, and holds of
//! every line and reader.

ghost use Rattle.pw_transcript.specs.Laws.{OneReading, OneSentence, WholeTextIsTaken};
ghost use Rattle.pw_transcript.specs.Laws.{RepliesAreFromScratch, Isolation, AgreeingTexts};

use std::io::Read;

/// A line has at most one reading, after a declaration that keeps its limits, as every declaration
/// that is read does.
pub fn one_reading()
    ensures { OneReading }
{}

/// The words of a line are at most one sentence, the one that the function gives.
pub fn one_sentence()
    ensures { OneSentence }
{}

/// What is taken from a reader until nothing is left is all that remained of it, if that is known.
pub fn whole_text_is_taken<R: Read>()
    ensures { WholeTextIsTaken R.remaining }
{}

/// If no line is refused memory, the replies of a run are, line by line, those from scratch.
pub fn replies_are_from_scratch()
    ensures { RepliesAreFromScratch }
{}

/// Users do not disturb each other. The reply to a line is the reply to the line of that number in
/// a text in which each earlier line is made empty, except those that the line rests on: its user's
/// own lines that change beliefs, and the lines that tell or attach under premises that the user
/// then believes or names to choose from, or did at an own choose before. Later lines do not matter.
pub fn isolation()
    ensures { Isolation }
{}

/// Two texts that agree in a line and in what its reply rests on, at the same numbers, get equal
/// replies there.
pub fn agreeing_texts()
    ensures { AgreeingTexts }
{}
