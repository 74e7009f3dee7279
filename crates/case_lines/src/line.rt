//! Lines of cases as they are read: cut into words, numbers and quoted texts, up to `=>` and after it.
use crate::answer::{Answer, Trouble};
use std::alloc::Global;

/// The most copies of a part that a text in a line of a case may ask for.
const MOST_COPIES: usize = 2_000_000;

/// A line of a case: what is called, what that is given, and what it must give.
#[derive(Drop)]
pub struct Line {
    /// The words before `=>`, with a blank between two of them.
    pub call: String,
    /// The texts and numbers before `=>`.
    pub given: Vec<Vec<u8>>,
    /// What follows `=>`, as an answer says it. `None` if there is no `=>`.
    pub wanted: Option<String>,
}

impl Line {
    /// Reads a line of a case. The error is `NoCase` if the line is in no form of a case, and `Memory` if
    /// memory runs out.
    pub fn read(alloc: Global, text: &str) -> Result<Line, Trouble> {
        let mut line = Line {
            call: String::new(alloc),
            given: Vec::new(alloc),
            wanted: None,
        };
        let mut wanted = Answer::new(alloc);
        let mut is_wanted = false;
        for token in tokens(alloc, text)? {
            if is_wanted {
                want(&mut wanted, token)?;
            } else if token.is_arrow() {
                is_wanted = true;
            } else {
                line.take(token)?;
            }
        }
        if is_wanted {
            line.wanted = Some(String::from_str(alloc, wanted.whole()?)?);
        }
        Ok(line)
    }

    /// Takes a token before `=>` into a line of a case: a word belongs to its call, a text is given to the
    /// call.
    fn take(&mut self, token: Token) -> Result<(), Trouble> {
        match token {
            Token::Text(text) => self.given.push(text)?,
            Token::Word(word) => {
                if !self.call.is_empty() {
                    self.call.push(' ')?;
                }
                self.call.push_str(as_text(&word)?)?;
            }
        }
        Ok(())
    }
}

/// The bytes that a line of a case gives, as a text. The error is `NoCase` if they are no UTF-8.
pub fn as_text(bytes: &[u8]) -> Result<&str, Trouble> {
    str::from_utf8(bytes).map_err(|_| Trouble::NoCase)
}

/// The one text that a line of a case gives to its call. The error is `NoCase` if it isn't given just one, or
/// if that is no UTF-8.
pub fn one_text(given: &[Vec<u8>]) -> Result<&str, Trouble> {
    match given {
        [text] => as_text(text),
        _ => Err(Trouble::NoCase),
    }
}

/// The number that a line of a case gives, written in these bytes. The error is `NoCase` if they write no
/// number of 64 bits.
pub fn as_number(bytes: &[u8]) -> Result<u64, Trouble> {
    as_text(bytes)?.parse::<u64>().map_err(|_| Trouble::NoCase)
}

/// Adds a token after `=>` to what a line of a case wants.
fn want(wanted: &mut Answer, token: Token) -> Result<(), Trouble> {
    match token {
        Token::Word(word) => wanted.word(as_text(&word)?),
        Token::Text(text) => wanted.text(text.as_slice()),
    }
    Ok(())
}

/// A token of a case's line: a part between two blanks.
#[derive(Drop)]
enum Token {
    /// What is without quotes, and begins with no digit or follows `=>`.
    Word(Vec<u8>),
    /// A text in quotes, with its copies made; or a number before `=>`.
    Text(Vec<u8>),
}

impl Token {
    /// Whether this token of a case's line is `=>`.
    fn is_arrow(&self) -> bool {
        match self {
            Token::Word(word) => word.as_slice() == b"=>".as_slice(),
            Token::Text(_) => false,
        }
    }
}

/// Where in a line of a case a cutter is.
#[derive(Clone, Copy)]
enum Place {
    /// Between two tokens.
    Between,
    /// In a word.
    Word,
    /// In quotes.
    Quoted,
    /// After a backslash.
    Escape,
    /// After `\x`, and then after its first digit, which is worth so much.
    Hex(Option<u8>),
    /// After a closing quote.
    Closed,
    /// In the number of copies, which is so much up to here.
    Copies(usize),
    /// After a `+`, where another part must begin.
    Joined,
}

/// Cuts a line of a case into tokens, byte by byte.
#[derive(Drop)]
struct Cutter {
    alloc: Global,
    place: Place,
    /// The word, or the part in quotes.
    part: Vec<u8>,
    /// The text that the parts before make.
    text: Vec<u8>,
    tokens: Vec<Token>,
}

/// The tokens of a line of a case.
fn tokens(alloc: Global, line: &str) -> Result<Vec<Token>, Trouble> {
    let mut cutter = Cutter {
        alloc,
        place: Place::Between,
        part: Vec::new(alloc),
        text: Vec::new(alloc),
        tokens: Vec::new(alloc),
    };
    for byte in line.as_bytes() {
        cutter.place = cutter.behind(*byte)?;
    }
    let Place::Between = cutter.behind(b' ')? else {
        return Err(Trouble::NoCase);
    };
    let Cutter { tokens, .. } = cutter;
    Ok(tokens)
}

impl Cutter {
    /// Takes a byte of a case's line into the cutter, and gives the place after it.
    fn behind(&mut self, byte: u8) -> Result<Place, Trouble> {
        match self.place {
            Place::Between => self.begin(byte),
            Place::Word => self.word(byte),
            Place::Quoted => self.quoted(byte),
            Place::Escape => self.escape(byte),
            Place::Hex(high) => self.hex(high, byte),
            Place::Closed => self.closed(byte),
            Place::Copies(copies) => self.copies(copies, byte),
            Place::Joined if byte == b'"' => Ok(Place::Quoted),
            Place::Joined => Err(Trouble::NoCase),
        }
    }

    /// Takes a byte between two tokens of a case's line: a blank, the quote that begins a text, or the first
    /// byte of a word.
    fn begin(&mut self, byte: u8) -> Result<Place, Trouble> {
        match byte {
            b' ' => Ok(Place::Between),
            b'"' => Ok(Place::Quoted),
            other => {
                self.part.push(other)?;
                Ok(Place::Word)
            }
        }
    }

    /// Takes a byte in a word of a case's line. A blank ends the word, which becomes a token.
    fn word(&mut self, byte: u8) -> Result<Place, Trouble> {
        if byte != b' ' {
            self.part.push(byte)?;
            return Ok(Place::Word);
        }
        let word = self.taken_part();
        let is_number = word.first().is_some_and(|first| first.is_ascii_digit());
        let token = if is_number && !self.is_wanted() {
            Token::Text(word)
        } else {
            Token::Word(word)
        };
        self.tokens.push(token)?;
        Ok(Place::Between)
    }

    /// Whether the cutter has met `=>` in a line of a case. After it, numbers are words.
    fn is_wanted(&self) -> bool {
        self.tokens.iter().any(|token| token.is_arrow())
    }

    /// Takes a byte in a quoted text of a case's line: its closing quote, a backslash, or a byte of the text.
    fn quoted(&mut self, byte: u8) -> Result<Place, Trouble> {
        match byte {
            b'"' => Ok(Place::Closed),
            b'\\' => Ok(Place::Escape),
            other => {
                self.part.push(other)?;
                Ok(Place::Quoted)
            }
        }
    }

    /// Takes the byte after a backslash in a quoted text of a case's line.
    fn escape(&mut self, byte: u8) -> Result<Place, Trouble> {
        let meant = match byte {
            b'"' | b'\\' => byte,
            b'n' => b'\n',
            b'r' => b'\r',
            b't' => b'\t',
            b'x' => return Ok(Place::Hex(None)),
            _ => return Err(Trouble::NoCase),
        };
        self.part.push(meant)?;
        Ok(Place::Quoted)
    }

    /// Takes a hexadecimal digit after `\x` in a quoted text of a case's line. The second one ends the
    /// escape.
    fn hex(&mut self, high: Option<u8>, byte: u8) -> Result<Place, Trouble> {
        let Some(digit) = hex_value(byte) else {
            return Err(Trouble::NoCase);
        };
        let Some(high) = high else {
            return Ok(Place::Hex(Some(digit)));
        };
        self.part.push(high.wrapping_mul(16) | digit)?;
        Ok(Place::Quoted)
    }

    /// Takes the byte after a closing quote in a line of a case: `*`, `+` or a blank.
    fn closed(&mut self, byte: u8) -> Result<Place, Trouble> {
        match byte {
            b'*' => Ok(Place::Copies(0)),
            b'+' | b' ' => self.copies(1, byte),
            _ => Err(Trouble::NoCase),
        }
    }

    /// Takes a byte of the number of copies of a quoted text in a line of a case, or the `+` or blank after
    /// it.
    fn copies(&mut self, copies: usize, byte: u8) -> Result<Place, Trouble> {
        match byte {
            b'0'..=b'9' => {
                let digit = (byte - b'0') as usize;
                Ok(Place::Copies(copies.saturating_mul(10).saturating_add(digit)))
            }
            b'+' => {
                self.join(copies)?;
                Ok(Place::Joined)
            }
            b' ' => {
                self.join(copies)?;
                let text = std::mem::replace(&mut self.text, Vec::new(self.alloc));
                self.tokens.push(Token::Text(text))?;
                Ok(Place::Between)
            }
            _ => Err(Trouble::NoCase),
        }
    }

    /// Adds so many copies of the quoted part to the text that the cutter makes from a line of a case.
    fn join(&mut self, copies: usize) -> Result<(), Trouble> {
        if copies > MOST_COPIES {
            return Err(Trouble::NoCase);
        }
        let part = self.taken_part();
        for _ in 0..copies {
            self.text.extend_from_slice(part.as_slice())?;
        }
        Ok(())
    }

    /// The word or quoted part that the cutter has of a case's line. A new, empty part begins.
    fn taken_part(&mut self) -> Vec<u8> {
        std::mem::replace(&mut self.part, Vec::new(self.alloc))
    }
}

/// What a hexadecimal digit in an escape of a case's line is worth.
fn hex_value(digit: u8) -> Option<u8> {
    match digit {
        b'0'..=b'9' => Some(digit - b'0'),
        b'a'..=b'f' => Some(digit - b'a' + 10),
        _ => None,
    }
}
