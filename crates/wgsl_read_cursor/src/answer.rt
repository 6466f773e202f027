//! What is returned for what was read of all tokens.

ghost use Rattle.std.specs.Prelude.{List};
ghost use Rattle.grammar.specs.Tokens.{Token};
ghost use Rattle.grammar.specs.Endings.{Ending};
ghost use Rattle.wgsl_read_cursor.specs.Reading.{state};
ghost use Rattle.wgsl_read_cursor.specs.Answers.{IsAnsweredOf};
ghost use Rattle.wgsl_read_cursor.specs.Origins.{AreOf, IsReadTo};

use crate::source::TokenSource;
use crate::{Expected, Fault};
use std::alloc::Global;
use wgsl_error::Error;

impl TokenSource<'_> {
    /// Returns the value that was read, where no token is left after it and no error ended the
    /// tokens; else what is wrong.
    pub fn answer<T: Drop>(
        self,
        alloc: Global,
        read: Result<T, Fault>,
        following: Expected,
    ) -> Result<T, Error>
        ensures { (ts : List Token) (ending : Ending) → AreOf self.entry.origin ts ending →
            IsReadTo self.entry.origin read (state self.entry.tokens) ts →
            IsAnsweredOf read (state self.entry.tokens) ending result }
    {
        let TokenSource { mut tokens, origin } = self;
        let value = match read {
            Ok(value) => value,
            Err(fault) => return Err(origin.name(alloc, fault)?),
        };
        if !tokens.is_empty() {
            let fault = tokens.refuse(following);
            return Err(origin.name(alloc, fault)?);
        }
        let last = tokens.span_from(0);
        match origin.error(last.end) {
            Some(error) => Err(Error::from(error)),
            None => Ok(value),
        }
    }
}
