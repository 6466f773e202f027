//! Texts of which nothing is wanted but what holds of every text.

use crate::facts::Facts;
use crate::modules::see_unit;
use crate::programs::Call;
use crate::shortest::see_shortest;
use crate::streams::{SHORT, writes};
use crate::tokens::see_tokens;
use std::alloc::AllocError;

/// Sees a text as a module, as tokens and as a shortest text.
pub fn see_made(source: &[u8], facts: &mut Facts<'_>) -> Result<(), AllocError> {
    let Ok(text) = std::str::from_utf8(source) else {
        return see_bytes(source, facts);
    };
    see_unit(text, facts)?;
    if text.len() <= SHORT {
        see_tokens(text, facts)?;
        see_shortest(text, facts)?;
    }
    Ok(())
}

/// `wgslfmt` rejects bytes that are not UTF-8.
fn see_bytes(source: &[u8], facts: &mut Facts<'_>) -> Result<(), AllocError> {
    let is_rejected = writes(
        facts.alloc,
        Call::Run,
        source,
        2,
        "",
        "input is not UTF-8\n",
    );
    facts.expect(is_rejected, "bytes that are not UTF-8 are rejected")
}
