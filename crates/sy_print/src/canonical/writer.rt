ghost use Rattle.std.specs.Prelude.{◌≡◌, ◌++◌, [], OnOk};
ghost use Rattle.std.specs.List.{flat_map};
ghost use Rattle.sy_print.specs.CanonicalText as canonical;
ghost use Rattle.sy_print.specs.CanonicalText.{last, lines, section, semicolon, stripped, token, truth, with_text, word};

use std::alloc::Global;
use std::marker::Model;
use sy_base::{Memory, Text};
use sy_lex::{Keyword, Sign, Written};

/// The text that was written so far, of which contracts see the bytes.
///
/// After a call that answered an error a writer is only dropped.
#[derive(Debug, Drop)]
pub(crate) struct Writer {
    bytes: Vec<u8>,
}

impl Model for Writer {
    ghost use Rattle.std.specs.Prelude.{List, ℕ};

    ghost Value = { List ℕ };

    ghost view = { λ writer. writer.bytes.items };
}

/// What has a canonical text.
pub(crate) trait Printed {
    ghost use Rattle.std.specs.Prelude.{List, ℕ};

    /// Its canonical text.
    ghost text: { Self → List ℕ };

    /// Writes it.
    fn put(&self, out: &mut Writer) -> Result<(), Memory>
        ensures { OnOk result (out.new ≡ out.old ++ text self.now) };
}

impl Writer {
    /// Nothing is written so far.
    pub fn new(alloc: Global) -> Writer
        ensures { result ≡ [] }
    {
        Writer {
            bytes: Vec::new(alloc),
        }
    }

    /// What was written.
    pub fn text(self) -> Text
        ensures { result ≡ self }
    {
        Text::from(self.bytes)
    }

    fn bytes(&mut self, bytes: &[u8]) -> Result<(), Memory>
        ensures { OnOk result (self.new ≡ self.old ++ bytes.now) }
    {
        self.bytes.extend_from_slice(bytes)?;
        Ok(())
    }

    /// Writes a token and a blank.
    #[tactic(auto, unfolding(crate::specs::CanonicalText::word))]
    pub fn word(&mut self, text: &[u8]) -> Result<(), Memory>
        ensures { OnOk result (self.new ≡ self.old ++ word text.now) }
    {
        self.bytes(text)?;
        self.bytes(b" ")
    }

    /// Writes a token that ends its line.
    #[tactic(auto, unfolding(crate::specs::CanonicalText::last))]
    pub fn last(&mut self, text: &[u8]) -> Result<(), Memory>
        ensures { OnOk result (self.new ≡ self.old ++ last text.now) }
    {
        self.bytes(text)?;
        self.bytes(b"\n")
    }

    /// Writes a reserved word.
    #[tactic(auto, unfolding(crate::specs::CanonicalText::keyword))]
    pub fn keyword(&mut self, keyword: Keyword) -> Result<(), Memory>
        ensures { OnOk result (self.new ≡ self.old ++ canonical.keyword keyword) }
    {
        self.word(keyword.word())
    }

    /// Writes a reserved word that ends its line.
    #[tactic(auto, unfolding(crate::specs::CanonicalText::heading))]
    pub fn heading(&mut self, keyword: Keyword) -> Result<(), Memory>
        ensures { OnOk result (self.new ≡ self.old ++ canonical.heading keyword) }
    {
        self.last(keyword.word())
    }

    /// Writes a sign.
    #[tactic(auto, unfolding(crate::specs::CanonicalText::sign))]
    pub fn sign(&mut self, sign: Sign) -> Result<(), Memory>
        ensures { OnOk result (self.new ≡ self.old ++ canonical.sign sign) }
    {
        self.word(sign.text())
    }

    /// Writes the semicolon that ends a line.
    #[tactic(auto, unfolding(crate::specs::CanonicalText::semicolon))]
    pub fn semicolon(&mut self) -> Result<(), Memory>
        ensures { OnOk result (self.new ≡ self.old ++ semicolon) }
    {
        self.last(Sign::Semicolon.text())
    }

    /// Writes a name, a date or a text between quotes.
    pub fn token(&mut self, token: &Written) -> Result<(), Memory>
        ensures { OnOk result (self.new ≡ self.old ++ canonical.token token.now) }
    {
        self.word(token.text.bytes())
    }

    /// Writes a number without leading zeros.
    pub fn number(&mut self, number: &Written) -> Result<(), Memory>
        ensures { OnOk result (self.new ≡ self.old ++ canonical.number number.now) }
    {
        self.word(without_zeros(number.text.bytes()))
    }

    /// Writes `true` or `false`.
    pub fn truth(&mut self, value: bool) -> Result<(), Memory>
        ensures { OnOk result (self.new ≡ self.old ++ truth value) }
    {
        self.keyword(if value { Keyword::True } else { Keyword::False })
    }

    /// Writes items one behind the other.
    pub fn each<T: Printed>(&mut self, items: &[T]) -> Result<(), Memory>
        ensures { OnOk result (self.new ≡ self.old ++ flat_map T.text items.now) }
    {
        'item: for item in items {
            item.put(self)?;
        }
        Ok(())
    }

    /// Writes items, each behind a sign.
    pub fn each_behind<T: Printed>(&mut self, sign: Sign, items: &[T]) -> Result<(), Memory>
        ensures { OnOk result (self.new ≡ self.old
            ++ flat_map (λ x. canonical.sign sign ++ T.text x) items.now) }
    {
        'item: for item in items {
            self.sign(sign)?;
            item.put(self)?;
        }
        Ok(())
    }

    /// Writes items with commas between.
    pub fn listed<T: Printed>(&mut self, items: &[T]) -> Result<(), Memory>
        ensures { OnOk result (self.new ≡ self.old ++ canonical.listed T.text items.now) }
    {
        match items {
            [] => Ok(()),
            [first, others @ ..] => {
                first.put(self)?;
                self.each_behind(Sign::Comma, others)
            }
        }
    }

    /// Writes items with commas between, or nothing where there are none, behind `with`.
    pub fn with<T: Printed>(&mut self, items: &[T]) -> Result<(), Memory>
        ensures { OnOk result (self.new ≡ self.old ++ with_text T.text items.now) }
    {
        if items.is_empty() {
            return Ok(());
        }
        self.keyword(Keyword::With)?;
        self.listed(items)
    }

    /// Writes items, each on a line of its own.
    pub fn lines<T: Printed>(&mut self, items: &[T]) -> Result<(), Memory>
        ensures { OnOk result (self.new ≡ self.old ++ lines T.text items.now) }
    {
        'item: for item in items {
            item.put(self)?;
            self.semicolon()?;
        }
        Ok(())
    }

    /// Writes a heading and the lines below it, or nothing where there are none.
    pub fn section<T: Printed>(&mut self, keyword: Keyword, items: &[T]) -> Result<(), Memory>
        ensures { OnOk result (self.new ≡ self.old
            ++ section (canonical.heading keyword) T.text items.now) }
    {
        if items.is_empty() {
            return Ok(());
        }
        self.heading(keyword)?;
        self.lines(items)
    }
}

/// A number's digits without leading zeros. The last digit stays.
#[tactic(auto, unfolding(crate::specs::CanonicalText::stripped))]
fn without_zeros(digits: &[u8]) -> &[u8]
    ensures { result.now ≡ stripped digits.now }
{
    let mut rest = digits;
    'zeros: while let [b'0', behind @ ..] = rest
        && !behind.is_empty()
    {
        rest = behind;
    }
    rest
}

impl Printed for Written {
    ghost text = { token };

    fn put(&self, out: &mut Writer) -> Result<(), Memory> {
        out.token(self)
    }
}
