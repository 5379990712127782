// Reads a text of the statements `places` and `rows`, each with its numbers, and `price`; `#` starts a comment that ends with the line.
ghost use Rattle.std.specs.Prelude.{◌≡◌, true, false, Err, OnOk, MatchResult};
ghost use Rattle.std.specs.Option.{SomeIff};
ghost use Rattle.std.specs.Str.Parse.{digits_value};
ghost use Rattle.purse.specs.Words.{Number, Takes, ByWords, Read, Unread};

use crate::answer::Answer;
use crate::errors::{ReadError, WordError};
use pricing::quote;
use std::alloc::Global;

// What stands between words.
const BLANKS: [char; 3] = [' ', '\t', '\r'];

// The statement whose numbers come next.
#[derive(Clone, Copy)]
enum Section {
    Start,
    Places,
    Rows,
}

// What the text has said so far, and the answers to it.
#[derive(Drop)]
pub(crate) struct Text {
    places: Vec<u32>,
    rows: Vec<u32>,
    pub(crate) answers: Vec<Answer>,
    section: Section,
}

// A number of decimal digits, below 2^32.
fn number(word: &str) -> Option<u32>
    ensures { SomeIff result (Number word.now) (digits_value 10 word.now) }
{
    // `parse` takes a plus before the digits too. Bytes are tested faster than characters here, once for each number.
    if word.as_bytes().starts_with(b"+") {
        return None;
    }
    word.parse().ok()
}

impl Text {
    // One word more: the name of a statement, which starts its numbers anew or is answered, or a number. One that is neither changes nothing.
    #[tactic(auto, using(crate::proofs::Words::doings))]
    fn take_word(&mut self, word: &str) -> Result<(), WordError>
        ensures fits { OnOk result (Takes word.now self.old self.new true) }
        ensures misfits { result ≡ Err WordError.Misfit → Takes word.now self.old self.new false }
    {
        match word {
            "places" => {
                self.section = Section::Places;
                self.places.clear();
            }
            "rows" => {
                self.section = Section::Rows;
                self.rows.clear();
            }
            "price" => {
                self.section = Section::Start;
                let quoted = quote(&self.rows, self.places.len());
                self.answers.push(Answer(quoted))?;
            }
            _ => {
                let number = number(word).ok_or(WordError::Misfit)?;
                match self.section {
                    Section::Start => return Err(WordError::Misfit),
                    Section::Places => self.places.push(number)?,
                    Section::Rows => self.rows.push(number)?,
                }
            }
        }
        Ok(())
    }

    // The words of one line, up to a comment or to one that doesn't fit.
    fn take_line(&mut self, line: &str) -> Result<(), WordError>
        ensures fits { OnOk result (ByWords self.old self.new true) }
        ensures misfits { result ≡ Err WordError.Misfit → ByWords self.old self.new false }
    {
        let statements = line.split_once('#').map_or(line, |(before, _)| before);
        let words = statements.split(BLANKS).filter(|word| !word.is_empty());
        for word in words {
            self.take_word(word)?;
        }
        Ok(())
    }
}

// What the bytes say, or refusal number 5 of the first line that can't be read. Bytes that aren't UTF-8 become a character that no word has.
pub(crate) fn read(heap: Global, bytes: &[u8]) -> Result<Text, ReadError>
    ensures { MatchResult result Read Unread }
{
    let whole = String::from_utf8_lossy(heap, bytes)?;
    let mut text = Text {
        places: Vec::new(heap),
        rows: Vec::new(heap),
        answers: Vec::new(heap),
        section: Section::Start,
    };
    for (line, words) in whole.as_str().lines().enumerate() {
        text.take_line(words).map_err(|error| error.at(line))?;
    }
    Ok(text)
}
