//! Texts in quotes: pieces `"..."`, each with `* N` after it where it is N times, joined as
//! they are. A `\` begins `\n`, `\r`, `\t`, `\"`, `\\`, a byte `\xFF` or a character `\u{3000}`.

use std::alloc::{AllocError, Global};

/// Where in a line of pieces the next character is.
#[derive(Clone, Copy)]
enum Place {
    Inside,
    Between,
    Escaped,
    /// In a byte, after its first digit if it is there.
    Byte(Option<u8>),
    /// In a character, after the brace with this number so far.
    Character(Option<u32>),
    /// In a count of a number of so far.
    Times(usize),
    /// After something that is not written so.
    Wrong,
}

/// The pieces of a line as they are read.
#[derive(Drop)]
struct Pieces {
    place: Place,
    piece: Vec<u8>,
    whole: Vec<u8>,
}

/// Returns the text of a line after its first quote, if it is written as texts are.
pub fn text_after_quote(alloc: Global, text: &str) -> Result<Option<Vec<u8>>, AllocError> {
    let mut pieces = Pieces {
        place: Place::Inside,
        piece: Vec::new(alloc),
        whole: Vec::new(alloc),
    };
    for character in text.chars() {
        pieces.place = pieces.place_after(character)?;
    }
    match pieces.place {
        Place::Between => pieces.repeat(1)?,
        Place::Times(count) if count > 0 => pieces.repeat(count)?,
        _ => return Ok(None),
    }
    Ok(Some(pieces.whole))
}

/// The value of a hexadecimal digit.
fn digit(character: char) -> Option<u8> {
    u8::try_from(character.to_digit(16)?).ok()
}

impl Pieces {
    /// Puts the last piece after the others a number of times.
    fn repeat(&mut self, count: usize) -> Result<(), AllocError> {
        for _ in 0..count {
            self.whole.extend_from_slice(&self.piece)?;
        }
        self.piece.clear();
        Ok(())
    }

    fn put(&mut self, character: char) -> Result<Place, AllocError> {
        let mut bytes = [0u8; 4];
        let encoded = character.encode_utf8(&mut bytes);
        self.piece.extend_from_slice(encoded.as_bytes())?;
        Ok(Place::Inside)
    }

    /// Takes a character, and returns where the next one is.
    fn place_after(&mut self, character: char) -> Result<Place, AllocError> {
        match self.place {
            Place::Inside => match character {
                '"' => Ok(Place::Between),
                '\\' => Ok(Place::Escaped),
                _ => self.put(character),
            },
            Place::Between => self.between(character),
            Place::Escaped => self.escaped(character),
            Place::Byte(first) => self.in_byte(first, character),
            Place::Character(code) => self.in_character(code, character),
            Place::Times(count) => self.in_count(count, character),
            Place::Wrong => Ok(Place::Wrong),
        }
    }

    fn between(&mut self, character: char) -> Result<Place, AllocError> {
        match character {
            ' ' => Ok(Place::Between),
            '*' => Ok(Place::Times(0)),
            '"' => {
                self.repeat(1)?;
                Ok(Place::Inside)
            }
            _ => Ok(Place::Wrong),
        }
    }

    fn escaped(&mut self, character: char) -> Result<Place, AllocError> {
        match character {
            'n' => self.put('\n'),
            'r' => self.put('\r'),
            't' => self.put('\t'),
            '"' | '\\' => self.put(character),
            'x' => Ok(Place::Byte(None)),
            'u' => Ok(Place::Character(None)),
            _ => Ok(Place::Wrong),
        }
    }

    fn in_byte(&mut self, first: Option<u8>, character: char) -> Result<Place, AllocError> {
        match (first, digit(character)) {
            (None, Some(digit)) => Ok(Place::Byte(Some(digit))),
            (Some(first), Some(digit)) => {
                self.piece.push(first.wrapping_mul(16).wrapping_add(digit))?;
                Ok(Place::Inside)
            }
            _ => Ok(Place::Wrong),
        }
    }

    fn in_character(&mut self, code: Option<u32>, character: char) -> Result<Place, AllocError> {
        match (code, character, digit(character)) {
            (None, '{', _) => Ok(Place::Character(Some(0))),
            (Some(code), '}', _) => match char::from_u32(code) {
                Some(found) => self.put(found),
                None => Ok(Place::Wrong),
            },
            (Some(code), _, Some(digit)) => {
                let code = code.wrapping_mul(16).wrapping_add(u32::from(digit));
                Ok(Place::Character(Some(code)))
            }
            _ => Ok(Place::Wrong),
        }
    }

    fn in_count(&mut self, count: usize, character: char) -> Result<Place, AllocError> {
        match (character, digit(character)) {
            (' ', _) if count == 0 => Ok(Place::Times(0)),
            (' ', _) => {
                self.repeat(count)?;
                Ok(Place::Between)
            }
            ('0'..='9', Some(digit)) => {
                let count = count.wrapping_mul(10).wrapping_add(usize::from(digit));
                Ok(Place::Times(count))
            }
            _ => Ok(Place::Wrong),
        }
    }
}
