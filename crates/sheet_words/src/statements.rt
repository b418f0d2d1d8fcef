// The statement of a line.

ghost use Rattle.std.specs.Prelude.{◌≡◌, ◌≢◌, ◌∷◌, IfOk, length, MatchOption, MatchResult, vec_items};
ghost use Rattle.sheet_words.specs.Lines.{arity, bare as bare_of, ReadsLine, Says, SaysNothing, SplitsInto, texts};
ghost use Rattle.sheet_words.specs.Words.{spelling};

use crate::blames::blame;
use crate::faults::LineFault;
use crate::keys::Word;
use std::alloc::{AllocError, Global};

// The words of an event's line after the first.
#[derive(Clone, Copy)]
pub struct EventWords<'a> {
    pub date: &'a str,
    pub start: &'a str,
    pub notice: &'a str,
    pub price: &'a str,
    pub baseline: &'a str,
    pub load: &'a str,
}

#[derive(Clone, Copy)]
pub enum Statement<'a> {
    Blank,
    // any word but an event's: a type of those six would be turned into a `Word` by all that takes one, the draft and the faults
    Header(Word, &'a str),
    Event(EventWords<'a>),
}

// The line without its comment.
fn bare(line: &str) -> &str
    ensures { result.now ≡ bare_of line.now }
{
    line.split_once('#').map_or(line, |(bare, _)| bare)
}

// The words of a line, without its comment.
fn words_of(heap: Global, line: &str) -> Result<Vec<&str>, AllocError>
    ensures { IfOk result (λ words. SplitsInto (bare_of line.now) (texts (vec_items words))) }
{
    bare(line).split_whitespace().collect(heap)
}

// The statement that a word and those after it make, if they are as many as it takes.
fn said<'a>(word: Word, rest: &[&'a str]) -> Option<Statement<'a>>
    ensures { MatchOption result (length rest.now ≢ arity word) (Says (spelling word ∷ texts rest.now)) }
{
    match (word, rest) {
        (Word::Event, [date, start, notice, price, baseline, load]) => {
            Some(Statement::Event(EventWords {
                date,
                start,
                notice,
                price,
                baseline,
                load,
            }))
        }
        (Word::Event, _) => None,
        (header, [text]) => Some(Statement::Header(header, text)),
        _ => None,
    }
}

// The statement that words make; or what is wrong with them.
fn said_by<'a>(heap: Global, words: &[&'a str]) -> Result<Statement<'a>, LineFault>
    ensures { MatchResult result (Says (texts words.now)) (SaysNothing (texts words.now)) }
{
    let [first, rest @ ..] = words else {
        return Ok(Statement::Blank);
    };
    let word: Word = first
        .parse()
        .map_err(|complaint| blame(heap, first, complaint))?;
    said(word, rest).ok_or(LineFault::WordCount {
        word,
        given: rest.len(),
    })
}

// The statement of a line; or what is wrong with its words, which a fault quotes: for that it takes the heap.
pub fn parse(heap: Global, line: &str) -> Result<Statement<'_>, LineFault>
    ensures { ReadsLine line.now result }
{
    let words = words_of(heap, line)?;
    said_by(heap, words.as_slice())
}
