//! A line of the written form, to which tokens are added with the spaces between them: whether one
//! comes before a token is decided here alone, from the token and the one before it
//! (specs/Layout.antt).

ghost use Rattle.std.specs.Prelude.{◌≡◌, true, [], pos, OnOk};
ghost use Rattle.model_tokens.specs.Tokens.{keyword, mark, name as name_form, further};
ghost use Rattle.model_text.specs.Writing.{number_token};
ghost use Rattle.model_text.specs.Lines.{LineForm, with_bytes, with_token};

use crate::sign::{closes_up, further_bytes, further_holds_on, holds_on, sign_bytes};
use itoa::Buffer;
use model_tokens::{Further, Sign};
use source_sink::Memory;
use state_space::{Keyword, Name};
use std::alloc::Global;
use std::marker::Model;

/// A line as far as it is written.
#[derive(Drop)]
pub(crate) struct Line {
    bytes: Vec<u8>,
    held: bool,
}

impl Model for Line {
    ghost use Rattle.model_text.specs.Lines.{LineForm};

    ghost Value = { LineForm };

    ghost view = { λ l. record { bytes = l.bytes.items; held = l.held } };
}

impl Line {
    /// A line with nothing on it.
    pub(crate) fn new(alloc: Global) -> Line
        ensures { result ≡ record { bytes = []; held = true } }
    {
        Line {
            bytes: Vec::new(alloc),
            held: true,
        }
    }

    // Behind a space, unless it closes up or the token before it holds on.
    fn token(&mut self, bytes: &[u8], closes: bool, holds: bool) -> Result<(), Memory>
        ensures { OnOk result (self.new ≡ with_bytes self.old closes bytes.now holds) }
    {
        if !self.held && !closes {
            self.bytes.push(b' ')?;
        }
        self.bytes.extend_from_slice(bytes)?;
        self.held = holds;
        Ok(())
    }

    /// A keyword behind what is written.
    #[tactic(auto, unfolding(crate::specs::Lines::with_token))]
    pub(crate) fn keyword(&mut self, word: Keyword) -> Result<(), Memory>
        ensures { OnOk result (self.new ≡ with_token self.old (keyword word)) }
    {
        self.token(word.spelling(), false, false)
    }

    /// A sign behind what is written.
    #[tactic(auto, unfolding(crate::specs::Lines::with_token))]
    pub(crate) fn mark(&mut self, sign: Sign) -> Result<(), Memory>
        ensures { OnOk result (self.new ≡ with_token self.old (mark sign)) }
    {
        self.token(sign_bytes(sign), closes_up(sign), holds_on(sign))
    }

    /// A token that only version 2 has, behind what is written.
    #[tactic(auto, unfolding(crate::specs::Lines::with_token))]
    pub(crate) fn further(&mut self, sign: Further) -> Result<(), Memory>
        ensures { OnOk result (self.new ≡ with_token self.old (further sign)) }
    {
        self.token(further_bytes(sign), false, further_holds_on(sign))
    }

    /// A name behind what is written.
    #[tactic(auto, unfolding(crate::specs::Lines::with_token))]
    pub(crate) fn name(&mut self, name: &Name) -> Result<(), Memory>
        ensures { OnOk result (self.new ≡ with_token self.old (name_form name.now)) }
    {
        self.token(name.bytes(), false, false)
    }

    /// A number behind what is written.
    #[tactic(auto, using(crate::proofs::LineLaws::number_behind))]
    pub(crate) fn number(&mut self, value: i64) -> Result<(), Memory>
        ensures { OnOk result (self.new ≡ with_token self.old (number_token value)) }
    {
        let mut buffer = Buffer::new();
        self.token(buffer.format(value).as_bytes(), false, false)
    }

    /// The bytes of the line.
    pub(crate) fn bytes(&self) -> &[u8]
        ensures { result.now ≡ self.now.bytes }
    {
        &self.bytes
    }
}
