//! The trait `TokenWriter`: receivers of the tokens of a JSON value. They are the `Writer` of `json`, and `JsonLineWriter`.

ghost use Rattle.std.specs.Prelude.{◌≡◌, ◌++◌, ◌∷◌, [], List, OnOk, decimal};
ghost use Rattle.json.specs.Print.{IsPrintable};
ghost use Rattle.json.specs.Reads.{token_of};
ghost use Rattle.json.specs.Token.{Token as JsonToken, key, number};

use etcs_bits::Memory;
use etcs_digits::{JsonLineWriter, send_decimal};
use json::{Token, Writer};

/// A receiver of JSON tokens, in order, that places the commas. Its methods fail only if memory runs out.
pub trait TokenWriter {
    /// Appending these tokens, in this order, turns the first receiver into the second.
    ghost adds: { List JsonToken → Self → Self → Type 0 };

    /// Appends a token.
    fn token(&mut self, token: Token<'_>) -> Result<(), Memory>
        requires { IsPrintable (token_of token) }
        ensures { OnOk result (adds (token_of token.entry ∷ []) self.old self.new) };

    /// Appends a number.
    fn number(&mut self, n: u64) -> Result<(), Memory>
        ensures { OnOk result (adds (number (decimal n) ∷ []) self.old self.new) };

    /// Appends a key and then a number.
    fn member(&mut self, name: &str, n: u64) -> Result<(), Memory>
        ensures { OnOk result (adds (key name.now ∷ number (decimal n) ∷ []) self.old self.new) };

    /// No tokens change nothing.
    ghost none: { (out : Self) → adds [] out out };

    /// Appending tokens and then more tokens appends all of them.
    ghost then: { (ts us : List JsonToken) (old mid new : Self)
        → adds ts old mid → adds us mid new → adds (ts ++ us) old new };
}

impl TokenWriter for Writer {
    ghost use Rattle.etcs_schema.specs.Writing.{Adds};
    ghost use Rattle.etcs_schema.specs.lemmas.AppendLemmas.{adds_more, adds_none};

    ghost adds = { λ ts old new. Adds ts old new };

    ghost none = { λ out. adds_none out };

    ghost then = { λ ts us old mid new. adds_more ts us old mid new };

    fn token(&mut self, token: Token<'_>) -> Result<(), Memory> {
        Ok(Writer::token(self, token)?)
    }

    fn number(&mut self, n: u64) -> Result<(), Memory> {
        Ok(send_decimal(self, n)?)
    }

    fn member(&mut self, name: &str, n: u64) -> Result<(), Memory> {
        self.key(name)?;
        Ok(self.u64(n)?)
    }
}

impl TokenWriter for JsonLineWriter {
    ghost use Rattle.std.specs.Prelude.{refl};
    ghost use Rattle.etcs_digits.specs.JsonLineWriter.{puts};
    ghost use Rattle.etcs_digits.specs.lemmas.LineLemmas.{puts_then};

    ghost adds = { λ ts old new. new ≡ puts old ts };

    ghost none = { λ out. refl };

    ghost then = { λ ts us old mid new. puts_then ts us old mid new };

    #[inline(always)]
    fn token(&mut self, token: Token<'_>) -> Result<(), Memory> {
        Ok(JsonLineWriter::token(self, token)?)
    }

    #[inline(always)]
    fn number(&mut self, n: u64) -> Result<(), Memory> {
        Ok(JsonLineWriter::number(self, n)?)
    }

    #[inline(always)]
    fn member(&mut self, name: &str, n: u64) -> Result<(), Memory> {
        Ok(JsonLineWriter::member(self, name, n)?)
    }
}
