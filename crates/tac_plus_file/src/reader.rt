//! The words and signs of a file, one after another.

use crate::configuration::Word;
use crate::fault::{FileFault, Mistake};
use crate::keyword::Keyword;
use crate::words::{from_line_end, from_quote, split_word, unquoted};
use basics::Bytes;
use pol_names::Verdict;
use std::alloc::Global;

/// What stands next in a file.
#[derive(Clone, Copy)]
pub(crate) enum Token<'a> {
    /// A word without quotes, which may be a keyword.
    Word(&'a [u8]),
    /// What stands between quotes, as it is written there. It is no keyword.
    Quoted(&'a [u8]),
    Equals,
    Open,
    Close,
    /// The end of the file.
    End,
}

/// A file from here on.
#[derive(Drop)]
pub(crate) struct Reader<'a> {
    alloc: Global,
    rest: &'a [u8],
    // the line of what comes next
    line: usize,
    // the line at which the last token began
    at: usize,
}

impl<'a> Reader<'a> {
    /// A whole file.
    pub(crate) fn new(alloc: Global, text: &'a [u8]) -> Reader<'a> {
        Reader {
            alloc,
            rest: text,
            line: 1,
            at: 1,
        }
    }

    pub(crate) fn alloc(&self) -> Global {
        self.alloc
    }

    /// The line at which the last token began.
    pub(crate) fn line(&self) -> usize {
        self.at
    }

    /// How many bytes are left: at most so many tokens are.
    pub(crate) fn left(&self) -> usize {
        self.rest.len()
    }

    /// That this is wrong with the last token.
    pub(crate) fn wrong(&self, mistake: Mistake) -> FileFault {
        FileFault::Wrong {
            line: self.at,
            mistake,
        }
    }

    fn end_line(&mut self) {
        self.line = self.line.saturating_add(1);
    }

    // Passes over blanks, ends of lines and comments.
    fn skip(&mut self) {
        'blanks: for _ in 0..self.rest.len() {
            match self.rest {
                [b'\n', later @ ..] => {
                    self.end_line();
                    self.rest = later;
                }
                [b' ' | b'\t', later @ ..] => self.rest = later,
                [b'#', ..] => self.rest = from_line_end(self.rest),
                _ => return,
            }
        }
    }

    // The word that stands here.
    fn word_here(&mut self) -> Result<Token<'a>, FileFault> {
        let (word, rest) = split_word(self.rest);
        self.rest = rest;
        if word.contains(&b'\r') {
            return Err(self.wrong(Mistake::CarriageReturn));
        }
        Ok(Token::Word(word))
    }

    // What stands between quotes here, after the first of them.
    fn quoted_here(&mut self) -> Result<Token<'a>, FileFault> {
        let [b'"', later @ ..] = from_quote(self.rest) else {
            return Err(self.wrong(Mistake::OpenQuote));
        };
        let length = self.rest.len().saturating_sub(later.len() + 1);
        let quoted = self.rest.get(..length).unwrap_or(&[]);
        let lines = quoted.iter().filter(|byte| **byte == b'\n').count();
        self.line = self.line.saturating_add(lines);
        self.rest = later;
        Ok(Token::Quoted(quoted))
    }

    /// Takes what comes next. At the end of the file the last token's line stays.
    pub(crate) fn take(&mut self) -> Result<Token<'a>, FileFault> {
        self.skip();
        if !self.rest.is_empty() {
            self.at = self.line;
        }
        match self.rest {
            [] => Ok(Token::End),
            [b'{', later @ ..] => {
                self.rest = later;
                Ok(Token::Open)
            }
            [b'}', later @ ..] => {
                self.rest = later;
                Ok(Token::Close)
            }
            [b'=', later @ ..] => {
                self.rest = later;
                Ok(Token::Equals)
            }
            [b'"', later @ ..] => {
                self.rest = later;
                self.quoted_here()
            }
            _ => self.word_here(),
        }
    }

    /// Takes a `{`.
    pub(crate) fn take_open(&mut self) -> Result<(), FileFault> {
        match self.take()? {
            Token::Open => Ok(()),
            _ => Err(self.wrong(Mistake::NoOpen)),
        }
    }

    /// Takes a `=`.
    pub(crate) fn take_equals(&mut self) -> Result<(), FileFault> {
        match self.take()? {
            Token::Equals => Ok(()),
            _ => Err(self.wrong(Mistake::NoEquals)),
        }
    }

    /// The text of any word, which was the last token.
    pub(crate) fn text_of(&self, token: Token<'_>) -> Result<Bytes, FileFault> {
        let text = match token {
            Token::Word(word) => Bytes::from_slice(self.alloc, word),
            Token::Quoted(quoted) => unquoted(self.alloc, quoted),
            _ => return Err(self.wrong(Mistake::NoWord)),
        };
        match text {
            Ok(text) => Ok(text),
            Err(_) => Err(FileFault::Memory),
        }
    }

    /// Takes any word.
    pub(crate) fn take_text(&mut self) -> Result<Bytes, FileFault> {
        let token = self.take()?;
        self.text_of(token)
    }

    /// Takes any word, which no `=` may cut short.
    pub(crate) fn take_whole(&mut self) -> Result<Bytes, FileFault> {
        let token = self.take()?;
        if let (Token::Word(_), [b'=', ..]) = (token, self.rest) {
            return Err(self.wrong(Mistake::CutWord));
        }
        self.text_of(token)
    }

    /// Takes `= WORD`.
    pub(crate) fn take_value(&mut self) -> Result<Bytes, FileFault> {
        self.take_equals()?;
        self.take_text()
    }

    /// The same, with the line of the word.
    pub(crate) fn take_word(&mut self) -> Result<Word, FileFault> {
        let text = self.take_value()?;
        Ok(Word {
            line: self.at,
            text,
        })
    }

    /// Takes `= WORD` into this place, or refuses a second one.
    pub(crate) fn take_once(&mut self, place: &mut Option<Word>) -> Result<(), FileFault> {
        if let Some(first) = place {
            return Err(self.wrong(Mistake::Repeated(first.line)));
        }
        let word = self.take_word()?;
        *place = Some(word);
        Ok(())
    }

    /// Takes a word without quotes.
    pub(crate) fn take_plain(&mut self, mistake: Mistake) -> Result<&'a [u8], FileFault> {
        match self.take()? {
            Token::Word(word) => Ok(word),
            _ => Err(self.wrong(mistake)),
        }
    }

    /// Takes this word without quotes.
    pub(crate) fn take_this(&mut self, wanted: &[u8]) -> Result<(), FileFault> {
        let word = self.take_plain(Mistake::NoSetting)?;
        if word == wanted {
            Ok(())
        } else {
            Err(self.wrong(Mistake::NoSetting))
        }
    }

    /// Takes the next keyword between braces, or the `}` that ends them, which gives none.
    pub(crate) fn take_inner(&mut self, mistake: Mistake) -> Result<Option<Keyword>, FileFault> {
        let word = match self.take()? {
            Token::Word(word) => word,
            Token::Close => return Ok(None),
            Token::End => return Err(self.wrong(Mistake::OpenBrace)),
            _ => return Err(self.wrong(mistake)),
        };
        match Keyword::read(word) {
            Some(keyword) => Ok(Some(keyword)),
            None => Err(self.wrong(mistake)),
        }
    }

    /// Takes `permit` or `deny`.
    pub(crate) fn take_verdict(&mut self) -> Result<Verdict, FileFault> {
        let word = self.take_plain(Mistake::NoVerdict)?;
        match Keyword::read(word) {
            Some(Keyword::Verdict(verdict)) => Ok(verdict),
            _ => Err(self.wrong(Mistake::NoVerdict)),
        }
    }

    /// Takes the next verdict between braces, or the `}` that ends them, which gives none.
    pub(crate) fn take_inner_verdict(&mut self) -> Result<Option<Verdict>, FileFault> {
        match self.take_inner(Mistake::NoVerdict)? {
            Some(Keyword::Verdict(verdict)) => Ok(Some(verdict)),
            Some(_) => Err(self.wrong(Mistake::NoVerdict)),
            None => Ok(None),
        }
    }
}
